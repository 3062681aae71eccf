// Small lists to compare on, drawn from a fixed row of numbers.
ghost use Rattle.std.specs.Prelude.{◌≡◌, IfOk, vec_len};

use crate::definition::List;
use crate::draws::Draws;
use anyhow::Context;
use placement::{Stay, Window};
use ring::{Pace, Ring};
use std::alloc::{AllocError, Global};

// A list on a ring at a pace, and what the layers have for it.
#[derive(Drop)]
pub struct Case {
    pub ring: Ring,
    pub pace: Pace,
    pub stays: Vec<Stay>,
    pub depot: Stay,
    pub margin: u32,
}

impl Case {
    pub fn list(&self) -> List<'_>
        ensures ring { result.ring ≡ self.now.ring }
        ensures pace { result.pace ≡ self.now.pace }
        ensures stays { result.stays.now ≡ self.now.stays.items }
    {
        List {
            ring: self.ring,
            pace: self.pace,
            stays: &self.stays,
        }
    }
}

// What the stays of one list are drawn from.
#[derive(Clone, Copy)]
struct Bounds {
    ring: Ring,
    longest: u32,
    margin: u32,
}

fn draw_window(draws: &mut Draws, ring: Ring) -> Window {
    let ticks = ring.ticks();
    let width = match draws.below(7) {
        0 => 0,
        1..=3 => ticks - 1,
        _ => draws.below(ticks),
    };
    Window {
        from: draws.below(ticks),
        width,
    }
}

fn draw_stay(draws: &mut Draws, bounds: Bounds) -> Stay {
    let window = draw_window(draws, bounds.ring);
    let longest = bounds.longest;
    let (lead, trail) = match draws.below(3) {
        0 => (0, 1 + draws.below(longest)),
        1 => (1 + draws.below(longest), 0),
        _ => (1 + draws.below(longest / 2), 1 + draws.below(longest / 2)),
    };
    Stay {
        window,
        lead,
        trail,
    }
}

// The stay with one of its numbers at its bound, or past it.
fn spoil(draws: &mut Draws, bounds: Bounds, mut stay: Stay) -> Stay {
    let ticks = bounds.ring.ticks();
    match draws.below(7) {
        0 => stay.window.from = ticks + draws.below(2),
        1 => stay.window.width = ticks + draws.below(2),
        2 => stay.lead = 40_000 + draws.below(2),
        3 => stay.trail = 40_000 + draws.below(2),
        4 => stay.trail = 40_000u32.saturating_sub(bounds.margin) + draws.below(2),
        5 => stay.trail = u32::MAX - draws.below(2),
        _ => {
            stay.lead = 0;
            stay.trail = 0;
        }
    }
    stay
}

// A stay that is now and then at its bounds or past them.
fn draw_any_stay(draws: &mut Draws, bounds: Bounds) -> Stay {
    let stay = draw_stay(draws, bounds);
    if draws.once_in(40) {
        spoil(draws, bounds, stay)
    } else {
        stay
    }
}

fn draw_stays(
    heap: Global,
    draws: &mut Draws,
    bounds: Bounds,
    n: u32,
) -> Result<Vec<Stay>, AllocError> {
    (0..n).map(|_| draw_any_stay(draws, bounds)).collect(heap)
}

fn draw_margin(draws: &mut Draws) -> u32 {
    if draws.once_in(40) {
        1_000 + draws.below(2)
    } else {
        draws.below(3)
    }
}

// How many stays there are, and how many ticks the ring has. Now and then there are so many stays
// that not every seater takes the list; then the ring has one tick, so that there is little to try.
fn draw_size(draws: &mut Draws) -> (u32, u32) {
    if draws.once_in(200) {
        return (65, 1);
    }
    if draws.once_in(50) {
        return (11 + draws.below(4), 1);
    }
    let n = match draws.below(20) {
        0 => 0,
        1 | 2 => 1,
        3..=6 => 2,
        7..=11 => 3,
        12..=16 => 4,
        _ => 5,
    };
    let ticks = match n {
        5 => 4 + draws.below(4),
        _ => 1 + draws.below(10),
    };
    (n, ticks)
}

fn draw_case(heap: Global, draws: &mut Draws) -> anyhow::Result<Case> {
    let (n, ticks) = draw_size(draws);
    let ring = Ring::new(ticks).ok().context("no such ring")?;
    let pace = Pace::new(1 + draws.below(4), 1 + draws.below(4))
        .ok()
        .context("no such pace")?;
    let bounds = Bounds {
        ring,
        longest: longest(ring, pace, n),
        margin: draw_margin(draws),
    };
    let stays = draw_stays(heap, draws, bounds, n)?;
    Ok(Case {
        ring,
        pace,
        stays,
        depot: draw_any_stay(draws, bounds),
        margin: bounds.margin,
    })
}

pub fn draw_cases(heap: Global, seed: u64, count: usize) -> anyhow::Result<Vec<Case>>
    ensures { IfOk result (λ cases. vec_len cases ≡ count) }
{
    let mut draws = Draws::new(seed);
    (0..count)
        .map(|_| draw_case(heap, &mut draws))
        .try_collect(heap)
}

// Lengths up to this leave about every second list with room for all its stays.
fn longest(ring: Ring, pace: Pace, n: u32) -> u32 {
    let room = ring.ticks().saturating_mul(pace.q()).saturating_mul(4);
    let shares = pace
        .p()
        .saturating_mul(n.saturating_add(1))
        .saturating_mul(3);
    room.checked_div(shares).unwrap_or(0)
}
