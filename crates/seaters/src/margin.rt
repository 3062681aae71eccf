ghost use Rattle.std.specs.Prelude.{◌≡◌, ℕ, ◌+◌, ◌<◌, ◌≤◌, map, length, IfOk, slice_index_or};
ghost use Rattle.ring.specs.Questions.{Tells};
ghost use Rattle.placement.specs.Stays.{no_stay};
ghost use Rattle.seaters.specs.Layers.{Widens, widened, margin_means};
ghost use Rattle.seaters.specs.MarginRules.{margin_rules};

use crate::errors::NotSeated;
use crate::seaters::Seater;
use placement::{Seating, Stay};
use ring::{Pace, Ring};
use std::alloc::{AllocError, Global};

// Time to spare after every stay: the seater below gets the list with every trail longer by the
// margin. A margin above 1,000 takes the empty list only.
#[derive(Drop)]
pub struct Margin<S> {
    pub below: S,
    pub margin: u32,
}

// Whether every stay is in bounds, with and without the margin.
fn all_widen(ring: Ring, stays: &[Stay], margin: u32) -> bool
    ensures { Tells result (Widens margin ring.ticks stays.now) }
{
    for stay in stays {
        if !stay.in_bounds(ring) || stay.trail as u64 + margin as u64 > 40_000 {
            return false;
        }
    }
    true
}

fn widen(stay: &Stay, margin: u32) -> Stay
    requires { stay.now.trail + margin ≤ 40000 }
    ensures { result ≡ widened margin stay.now }
{
    Stay {
        trail: stay.trail + margin,
        ..*stay
    }
}

// The list with every trail longer by the margin.
fn widen_all(heap: Global, stays: &[Stay], margin: u32) -> Result<Vec<Stay>, AllocError>
    requires { (k : ℕ) → k < length stays.now → (slice_index_or stays.now k no_stay).trail + margin ≤ 40000 }
    ensures { IfOk result (λ v. v.items ≡ map (widened margin) stays.now) }
{
    // tried with map and collect, that each trail can take the margin stayed unproved
    let mut list = Vec::new(heap);
    for stay in stays {
        list.push(widen(stay, margin))?;
    }
    Ok(list)
}

impl<S: Seater> Seater for Margin<S> {
    ghost means = { λ s. margin_means s.margin (S.Seater.means s.below) };

    ghost keeps = { λ s. margin_rules s.margin (S.Seater.means s.below) (S.Seater.keeps s.below) };

    fn seat(
        &self,
        heap: Global,
        ring: Ring,
        pace: Pace,
        stays: &[Stay],
        place: &mut Seating,
    ) -> Result<(), NotSeated> {
        if stays.is_empty() {
            *place = Seating::empty(heap);
            return Ok(());
        }
        if self.margin > 1_000 || !all_widen(ring, stays, self.margin) {
            return Err(NotSeated::NotTaken);
        }
        let list = widen_all(heap, stays, self.margin)?;
        self.below.seat(heap, ring, pace, &list, place)
    }
}
