// The leeway of a list's own order, from the rules alone: every choice of whole times in the order is
// tried, and of the least steps over their gaps the greatest is taken.
ghost use Rattle.std.specs.Prelude.{◌≡◌, ◌*◌, ◌<◌, Err, IfOk, length};
ghost use Rattle.ring.specs.Questions.{Tells};
ghost use Rattle.placement.specs.Arcs.{InBounds};
ghost use Rattle.leeway.specs.declared.errors.NoLeeway.TheVariants.{NoStay};

use crate::definition::{Placed, Rounds, all_within_bounds, go_round, product};
use leeway::{NoLeeway, leeway, tightest_seating};
use placement::{Seating, Stay};
use ring::{Fraction, Ring};
use std::alloc::Global;

// A step of whole ticks over the gap that it has to hold.
#[derive(Clone, Copy)]
pub struct Share {
    pub step: u64,
    pub gap: u32,
    ghost some: { 0 < gap },
}

impl Share {
    fn less(self, other: Share) -> bool
        ensures { Tells result (self.step * other.gap < other.step * self.gap) }
    {
        self.step as u128 * (other.gap as u128) < other.step as u128 * self.gap as u128
    }
}

// The lesser of a share so far and the step from one stay to the next, which counts if it has a gap.
fn lesser(so_far: Option<Share>, a: &Stay, b: &Stay, step: u64) -> Option<Share> {
    let gap = a.trail.saturating_add(b.lead);
    if gap == 0 {
        return so_far;
    }
    let here = Share { step, gap };
    match so_far {
        Some(share) if !here.less(share) => Some(share),
        _ => Some(here),
    }
}

// The least share of one choice of times, nothing if a window or the order of the times is not kept.
fn least_share(rounds: Rounds, number: u64) -> Option<Share> {
    let least = rounds.go(number, None, |least, a, b| {
        let step = b.time.checked_sub(a.time)?;
        Some(lesser(least, a.stay, b.stay, step))
    });
    least.flatten()
}

// The greatest of the least shares over all choices of times.
fn greatest_share(rounds: Rounds) -> Option<Share> {
    (0..rounds.count())
        .filter_map(|number| least_share(rounds, number))
        .reduce(|most, share| if most.less(share) { share } else { most })
}

// The greatest share of a list's own order, or why there is no leeway.
pub fn expect_leeway(ring: Ring, stays: &[Stay]) -> Result<Share, NoLeeway>
    ensures ok { IfOk result (λ share. (0 < share.step) × InBounds ring.ticks stays.now) }
    ensures empty { length stays.now ≡ 0 → result ≡ Err NoStay }
{
    let (first, others) = stays.split_first().ok_or(NoLeeway::NoStay)?;
    if !all_within_bounds(ring, stays) {
        return Err(NoLeeway::OutOfBounds);
    }
    let rounds = Rounds {
        ring,
        first,
        others,
    };
    greatest_share(rounds)
        .filter(|share| share.step > 0)
        .ok_or(NoLeeway::NoRoom)
}

// Whether no fraction of the same value has a smaller denominator.
fn in_lowest_terms(most: Fraction) -> bool {
    (1..most.under()).all(|under| product(most.over(), under) % most.under() as u64 != 0)
}

// Whether the seating is in the list's order and keeps the rules at the fraction, at times far below
// what 32 bits hold.
fn keeps(ring: Ring, most: Fraction, stays: &[Stay], place: &Seating) -> bool {
    let in_order = place.order.iter().copied().eq(0..stays.len());
    let small = place.times.iter().all(|time| *time < 1_000_000);
    if !in_order || !small || place.times.len() != stays.len() {
        return false;
    }
    let mut placed = stays
        .iter()
        .zip(place.times.iter())
        .map(|(stay, time)| Placed { stay, time: *time });
    let Some(first) = placed.next() else {
        return true;
    };
    let (p, q) = (most.over(), most.under());
    go_round(
        ring,
        first,
        placed,
        (),
        |_, a, b| a.apart(p, q, b).then_some(()),
    )
    .is_some()
}

// Whether the library says of the list's own order what the rules say.
pub fn leeway_agrees(
    heap: Global,
    ring: Ring,
    stays: &[Stay],
    order: &[usize],
    expected: Result<Share, NoLeeway>,
) -> bool {
    match (leeway(heap, ring, stays, order), expected) {
        (Err(no), Err(expected)) => no == expected,
        (Ok(most), Ok(share)) => {
            let fraction = Share {
                step: most.over() as u64,
                gap: most.under(),
            };
            !fraction.less(share)
                && !share.less(fraction)
                && in_lowest_terms(most)
                && shown(heap, ring, stays, order, most)
        }
        _ => false,
    }
}

// Whether the library shows a seating at the fraction.
fn shown(heap: Global, ring: Ring, stays: &[Stay], order: &[usize], most: Fraction) -> bool {
    match tightest_seating(heap, ring, stays, order) {
        Ok(tightest) => tightest.leeway == most && keeps(ring, most, stays, &tightest.seating),
        Err(_) => false,
    }
}
