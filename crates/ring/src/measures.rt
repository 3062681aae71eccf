ghost use Rattle.std.specs.Prelude.{◌≡◌, ◌≤◌, Some, MatchOption, MatchResult};
ghost use Rattle.ring.specs.Fractions.{text_of};
ghost use Rattle.ring.specs.Questions.{AllYes, FirstNo};
ghost use Rattle.ring.specs.Refusals.{number_of};
ghost use Rattle.ring.specs.Measures.{InRingBounds, InPaceBounds, ring_questions, pace_questions};

use crate::refusals::Refusal;
use std::fmt;

// A ring of time that repeats: positions on it are 0 to ticks - 1.
#[derive(Clone, Copy, PartialEq, Eq, Debug)]
pub struct Ring {
    ticks: u32,
    ghost bounds: { InRingBounds ticks },
}

impl Ring {
    pub fn new(ticks: u32) -> Result<Ring, Refusal>
        ensures { MatchResult result (λ ring. AllYes (ring_questions ticks) × (ring.ticks ≡ ticks)) (λ e. FirstNo (ring_questions ticks) (number_of e)) }
    {
        if ticks < 1 || ticks > 86_400 {
            return Err(Refusal::RingBounds);
        }
        Ok(Ring { ticks })
    }

    pub fn ticks(&self) -> u32
        ensures { result ≡ self.now.ticks }
    {
        self.ticks
    }
}

// What a unit of a job's length takes, as a fraction p/q of a tick. Two paces are equal where both
// parts are, so 1/2 and 2/4 are two paces.
#[derive(Clone, Copy, PartialEq, Eq, Debug)]
pub struct Pace {
    p: u32,
    q: u32,
    ghost bounds: { InPaceBounds p q },
}

impl Pace {
    pub fn new(p: u32, q: u32) -> Result<Pace, Refusal>
        ensures { MatchResult result (λ pace. AllYes (pace_questions p q) × (pace.p ≡ p) × (pace.q ≡ q)) (λ e. FirstNo (pace_questions p q) (number_of e)) }
    {
        if p < 1 || p > 1_000 || q < 1 || q > 1_000 {
            return Err(Refusal::PaceBounds);
        }
        Ok(Pace { p, q })
    }

    pub fn p(&self) -> u32
        ensures { result ≡ self.now.p }
    {
        self.p
    }

    pub fn q(&self) -> u32
        ensures { result ≡ self.now.q }
    {
        self.q
    }
}

// p/q
impl fmt::Display for Pace {
    ghost output = { λ pace. Some (text_of pace.p pace.q) };

    fn fmt<W: fmt::Write>(&self, f: &mut fmt::Formatter<W>) -> fmt::Result {
        let Pace { p, q } = *self;
        write!(f, "{p}/{q}")
    }
}

// A fraction of whole numbers, not reduced and not bounded as a pace is.
#[derive(Clone, Copy, PartialEq, Eq, Debug)]
pub struct Ratio {
    pub(crate) over: u32,
    pub(crate) under: u32,
    ghost whole: { 1 ≤ under },
}

impl Ratio {
    // Nothing over zero.
    pub fn new(over: u32, under: u32) -> Option<Ratio>
        ensures { MatchOption result (under ≡ 0) (λ x. (x.over ≡ over) × (x.under ≡ under)) }
    {
        if under == 0 {
            return None;
        }
        Some(Ratio { over, under })
    }

    // A whole number, over one.
    pub fn whole(over: u32) -> Ratio
        ensures { (result.over ≡ over) × (result.under ≡ 1) }
    {
        Ratio { over, under: 1 }
    }

    // Another number over the same denominator.
    pub fn with_over(self, over: u32) -> Ratio
        ensures { (result.over ≡ over) × (result.under ≡ self.under) }
    {
        // `..self` is not to be had in a struct with a ghost field
        Ratio {
            over,
            under: self.under,
        }
    }

    pub fn over(&self) -> u32
        ensures { result ≡ self.now.over }
    {
        self.over
    }

    pub fn under(&self) -> u32
        ensures { result ≡ self.now.under }
    {
        self.under
    }
}

impl From<Pace> for Ratio {
    ghost from_gives = { λ pace ratio. (ratio.over ≡ pace.p) × (ratio.under ≡ pace.q) };

    fn from(pace: Pace) -> Ratio {
        Ratio {
            over: pace.p,
            under: pace.q,
        }
    }
}
