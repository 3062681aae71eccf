ghost use Rattle.std.specs.Prelude.{◌≡◌, List, [], ◌∷◌, ◌++◌, IfOk};
ghost use Rattle.placement.specs.Seatings.{Plan, Sound};
ghost use Rattle.placement.specs.declared.stays.Stay.{Stay};
ghost use Rattle.seaters.specs.Layers.{depot_means};
ghost use Rattle.seaters.specs.DepotRules.{depot_rules};

use crate::errors::NotSeated;
use crate::seaters::Seater;
use placement::{Seating, Stay};
use ring::{Pace, Ring};
use std::alloc::{AllocError, Global};

// A stay that every round has besides its list. The seater below gets it last in the list, and it is
// left out of what comes back. The empty list has the empty seating, without it.
#[derive(Drop)]
pub struct Depot<S> {
    pub below: S,
    pub depot: Stay,
}

fn with_last(heap: Global, stays: &[Stay], last: Stay) -> Result<Vec<Stay>, AllocError>
    ensures { IfOk result (λ v. v.items ≡ stays.now ++ last ∷ []) }
{
    let mut list = Vec::from_slice(heap, stays)?;
    list.push(last)?;
    Ok(list)
}

fn granted_is_sound<S: Seater>(seater: &S, ring: Ring, pace: Pace)
    ensures { (l : List Stay) (s : Plan) → (S.Seater.means seater.now).grants ring pace l s → Sound s }
{}

impl<S: Seater> Seater for Depot<S> {
    ghost means = { λ s. depot_means s.depot (S.Seater.means s.below) };

    ghost keeps = { λ s. depot_rules s.depot (S.Seater.means s.below) (S.Seater.keeps s.below) };

    fn seat(
        &self,
        heap: Global,
        ring: Ring,
        pace: Pace,
        stays: &[Stay],
        place: &mut Seating,
    ) -> Result<(), NotSeated> {
        if stays.is_empty() {
            *place = Seating::empty(heap);
            return Ok(());
        }
        granted_is_sound(&self.below, ring, pace);
        let list = with_last(heap, stays, self.depot)?;
        let mut longer = Seating::empty(heap);
        self.below.seat(heap, ring, pace, &list, &mut longer)?;
        longer.without(ring, stays.len());
        *place = longer;
        Ok(())
    }
}
