ghost use Rattle.std.specs.Prelude.{◌≡◌};
ghost use Rattle.placement.specs.Seatings.{plan};
ghost use Rattle.seaters.specs.Meanings.{Told};
ghost use Rattle.any_order.specs.AnyOrders.{Decides, Fitted, SameInAnyOrder, any_order_means};
ghost use Rattle.any_order.specs.Worked.{Worked};
ghost use Rattle.any_order.specs.Granting.{any_order_rules};
ghost use Rattle.any_order.specs.Errors.{by_search};

use placement::{Seating, Stay};
use ring::{Pace, Ring};
use search::{NotFound, search};
use seaters::{NotSeated, Seater};
use std::alloc::Global;

// Seats a list of at most 12 stays in whatever order it can be seated. Which of the lawful seatings it
// gives is left free.
#[derive(Clone, Copy)]
pub struct AnyOrder;

// What it says of the seater that a search gives no seating; no From, since both types are of other
// crates.
fn not_seated(no: NotFound) -> NotSeated
    ensures { result ≡ by_search no }
{
    match no {
        NotFound::TooMany | NotFound::OutOfBounds => NotSeated::NotTaken,
        NotFound::NoneLawful => NotSeated::NoneGranted,
        NotFound::NoMemory => NotSeated::NoMemory,
    }
}

fn fitting_decides(ring: Ring, pace: Pace, stays: &[Stay])
    ensures worked { Worked }
    ensures fitted { Fitted ring pace stays.now }
    ensures same { SameInAnyOrder ring pace stays.now }
{}

impl Seater for AnyOrder {
    ghost means = { λ s. any_order_means };

    ghost keeps = { λ s. any_order_rules };

    fn seat(
        &self,
        heap: Global,
        ring: Ring,
        pace: Pace,
        stays: &[Stay],
        place: &mut Seating,
    ) -> Result<(), NotSeated>
        ensures told { Told any_order_means ring pace stays.now (plan place.old) result (plan place.new) }
        ensures decides { Decides ring pace stays.now result }
        ensures same { SameInAnyOrder ring pace stays.now }
        ensures worked { Worked }
    {
        fitting_decides(ring, pace, stays);
        if stays.len() > 12 {
            return Err(NotSeated::NotTaken);
        }
        *place = search(heap, ring, pace, stays).map_err(not_seated)?;
        Ok(())
    }
}
