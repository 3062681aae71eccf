ghost use Rattle.std.specs.Prelude.{◌≡◌};
ghost use Rattle.placement.specs.Seatings.{plan};
ghost use Rattle.seaters.specs.Meanings.{Meaning, Rules, Told};

use crate::errors::NotSeated;
use placement::{Seating, Stay};
use ring::{Pace, Ring};
use std::alloc::Global;

pub trait Seater {
    // which lists it takes, which seatings it grants, and which it may give
    ghost means: { Self → Meaning };

    // Seats a list into the place, which is handed in by a rule of the project. The place is left as it
    // was where the list is not seated.
    fn seat(
        &self,
        heap: Global,
        ring: Ring,
        pace: Pace,
        stays: &[Stay],
        place: &mut Seating,
    ) -> Result<(), NotSeated>
        ensures { Told (means self.now) ring pace stays.now (plan place.old) result (plan place.new) };

    ghost keeps: { (s : Self) → Rules (means s) };
}
