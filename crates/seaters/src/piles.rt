ghost use Rattle.std.specs.Prelude.{List, OnOk};
ghost use Rattle.placement.specs.Seatings.{Lawful, Plan, plan};
ghost use Rattle.placement.specs.declared.stays.Stay.{Stay};
ghost use Rattle.seaters.specs.Layers.{depot_means, margin_means};
ghost use Rattle.seaters.specs.Meanings.{Told};

use crate::depot::Depot;
use crate::errors::NotSeated;
use crate::margin::Margin;
use crate::seaters::Seater;
use placement::{Seating, Stay};
use ring::{Pace, Ring};
use std::alloc::Global;

fn granted_is_lawful<S: Seater>(seater: &S, ring: Ring, pace: Pace)
    ensures { (l : List Stay) (s : Plan) → (S.Seater.means seater.now).grants ring pace l s → Lawful ring.ticks pace.p pace.q l s }
{}

// Seats a list between two depots, with a margin after every stay of the list and none after the
// depots, by any seater. What it seats is lawful.
pub fn seat_between_depots<S: Seater>(
    pile: &Margin<Depot<Depot<S>>>,
    heap: Global,
    ring: Ring,
    pace: Pace,
    stays: &[Stay],
    place: &mut Seating,
) -> Result<(), NotSeated>
    ensures told { Told (margin_means pile.now.margin (depot_means pile.now.below.depot (depot_means pile.now.below.below.depot (S.Seater.means pile.now.below.below.below)))) ring pace stays.now (plan place.old) result (plan place.new) }
    ensures lawful { OnOk result (Lawful ring.ticks pace.p pace.q stays.now (plan place.new)) }
{
    granted_is_lawful(pile, ring, pace);
    pile.seat(heap, ring, pace, stays, place)
}
