ghost use Rattle.std.specs.Prelude.{◌≡◌, ℕ, ◌+◌, ◌-◌, ◌^◌, ◌<◌, ◌≤◌, Some, MatchOption};
ghost use Rattle.ring.specs.Questions.{Tells};
ghost use Rattle.placement.specs.Windows.{offset, Holds, Earliest, window_text};

use ring::Ring;
use std::fmt;

// The width + 1 positions of a ring counted upward from its first. Any numbers may be handed in.
#[derive(Clone, Copy, PartialEq, Eq, Debug)]
pub struct Window {
    pub from: u32,
    pub width: u32,
}

impl Window {
    // How far round the ring a time lies past the window's first position.
    #[tactic(auto, using(crate::proofs::Offsets::offset_below))]
    pub fn offset(&self, ring: Ring, time: u64) -> u32
        ensures value { result ≡ offset ring.ticks self.now time }
        ensures small { result < ring.ticks }
    {
        let ticks = ring.ticks();
        let back = ticks.saturating_sub(self.from);
        // below a ring first, where 32 bits hold the sum: a remainder of 128 bits takes far longer
        ((time % ticks as u64) as u32 + back) % ticks
    }

    pub fn holds(&self, ring: Ring, time: u64) -> bool
        ensures { Tells result (Holds ring.ticks self.now time) }
    {
        self.offset(ring, time) <= self.width
    }

    // The least time of the window that is not before `low`, nothing where that passes 64 bits.
    pub fn earliest(&self, ring: Ring, low: u64) -> Option<u64>
        ensures { MatchOption result ((y : ℕ) → low ≤ y → Holds ring.ticks self.now y → 2 ^ 64 ≤ y) (λ x. Earliest ring.ticks self.now low x) }
    {
        let past = self.offset(ring, low);
        if past <= self.width {
            return Some(low);
        }
        next_turn(self, ring, low);
        low.checked_add((ring.ticks() - past) as u64)
    }
}

// from +width
impl fmt::Display for Window {
    ghost output = { λ window. Some (window_text window) };

    fn fmt<W: fmt::Write>(&self, f: &mut fmt::Formatter<W>) -> fmt::Result {
        let Window { from, width } = *self;
        write!(f, "{from} +{width}")
    }
}

// Past the window's end, the least time is that of its first position, further round the ring.
fn next_turn(window: &Window, ring: Ring, low: u64)
    ensures { window.now.width < offset ring.ticks window.now low → Earliest ring.ticks window.now low (low + (ring.ticks - offset ring.ticks window.now low)) }
{}
