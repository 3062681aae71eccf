ghost use Rattle.std.specs.Prelude.{Some};
ghost use Rattle.ring.specs.Questions.{Tells};
ghost use Rattle.placement.specs.Arcs.{InBounds};
ghost use Rattle.placement.specs.Stays.{StayBounds, Apart, stay_text};

use crate::windows::Window;
use ring::{Ratio, Ring};
use std::fmt;

// A window, and what is taken before and after the position in it, in units that the pace turns into
// ticks. Any numbers may be handed in.
#[derive(Clone, Copy, PartialEq, Eq, Debug)]
pub struct Stay {
    pub window: Window,
    pub lead: u32,
    pub trail: u32,
}

impl Stay {
    pub fn in_bounds(&self, ring: Ring) -> bool
        ensures { Tells result (StayBounds ring.ticks self.now) }
    {
        if self.window.from >= ring.ticks() || self.window.width >= ring.ticks() {
            return false;
        }
        if self.lead > 40_000 || self.trail > 40_000 {
            return false;
        }
        self.lead > 0 || self.trail > 0
    }

    // Whether the next stay, at y, is apart from this one at x: there is room for this one's trail and
    // the next one's lead.
    pub fn is_apart(&self, ratio: Ratio, x: u64, next: &Stay, y: u64) -> bool
        ensures { Tells result (Apart ratio.over ratio.under self.now x next.now y) }
    {
        let p = ratio.over() as u128;
        let q = ratio.under() as u128;
        p * (self.trail as u128 + next.lead as u128) + q * x as u128 <= q * y as u128
    }
}

impl fmt::Display for Stay {
    ghost output = { λ stay. Some (stay_text stay) };

    fn fmt<W: fmt::Write>(&self, f: &mut fmt::Formatter<W>) -> fmt::Result {
        let Stay {
            window,
            lead,
            trail,
        } = *self;
        write!(f, "window {window}, lead {lead}, trail {trail}")
    }
}

// Whether every stay of a list is within its bounds.
pub fn all_in_bounds(ring: Ring, stays: &[Stay]) -> bool
    ensures { Tells result (InBounds ring.ticks stays.now) }
{
    for stay in stays {
        if !stay.in_bounds(ring) {
            return false;
        }
    }
    true
}
