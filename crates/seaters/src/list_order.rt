ghost use Rattle.std.specs.Prelude.{◌≡◌};
ghost use Rattle.placement.specs.Seatings.{Seated, plan};
ghost use Rattle.trials.specs.Trials.{Given};
ghost use Rattle.seaters.specs.Meanings.{Told};
ghost use Rattle.seaters.specs.Worked.{Worked};
ghost use Rattle.seaters.specs.ListOrders.{Decided, FirstBegun, InListOrder, order_of_list, list_order_means};
ghost use Rattle.seaters.specs.ListRules.{list_order_rules};

use crate::errors::NotSeated;
use crate::seaters::Seater;
use placement::{Seating, Stay, own_order};
use ring::{Pace, Ring};
use std::alloc::Global;
use trials::try_order;

// Keeps the order of the list.
#[derive(Clone, Copy)]
pub struct ListOrder;

fn trials_decide(ring: Ring, pace: Pace, stays: &[Stay])
    ensures worked { Worked }
    ensures decided { Decided ring.ticks pace.p pace.q stays.now }
{}

// The first closing trial, begun again at the list's first.
fn begin_at_first(ring: Ring, pace: Pace, stays: &[Stay], seating: &mut Seating)
    requires { (Given ring.ticks pace.p pace.q stays.now (order_of_list stays.now) (plan seating.old)) × (Seated ring.ticks pace.p pace.q stays.now (plan seating.old)) }
    ensures granted { InListOrder ring.ticks pace.p pace.q stays.now (plan seating.new) }
    ensures given { FirstBegun ring.ticks pace.p pace.q stays.now (plan seating.new) }
{
    trials_decide(ring, pace, stays);
    seating.begin_again(ring, 0);
}

impl Seater for ListOrder {
    ghost means = { λ s. list_order_means };

    ghost keeps = { λ s. list_order_rules };

    fn seat(
        &self,
        heap: Global,
        ring: Ring,
        pace: Pace,
        stays: &[Stay],
        place: &mut Seating,
    ) -> Result<(), NotSeated>
        ensures told { Told list_order_means ring pace stays.now (plan place.old) result (plan place.new) }
        ensures worked { Worked }
    {
        trials_decide(ring, pace, stays);
        if stays.len() > 64 {
            return Err(NotSeated::NotTaken);
        }
        let order = own_order(heap, stays.len())?;
        let mut seating = try_order(heap, ring, pace.into(), stays, &order)?;
        begin_at_first(ring, pace, stays, &mut seating);
        *place = seating;
        Ok(())
    }
}
