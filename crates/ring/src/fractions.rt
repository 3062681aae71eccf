ghost use Rattle.std.specs.Prelude.{◌≡◌, ◌*◌, ◌≤◌, Some};
ghost use Rattle.ring.specs.Fractions.{AtMost, Divisor, Lowest, Reduced, text_of};
ghost use Rattle.ring.specs.Questions.{Tells};

use crate::measures::Ratio;
use std::fmt;

// A fraction in lowest terms: two of the same value are the same.
#[derive(Clone, Copy, PartialEq, Eq, Debug)]
pub struct Fraction {
    over: u32,
    under: u32,
    ghost whole: { 1 ≤ under },
    ghost lowest: { Lowest over under },
}

// The greatest common divisor, by Euclid's steps.
fn divisor(p: u32, q: u32) -> u32
    requires { 1 ≤ q }
    ensures { Divisor p q result }
{
    let mut x = p;
    let mut y = q;
    while y > 0 {
        let rest = x % y;
        x = y;
        y = rest;
    }
    x
}

// Both parts over the divisor that they have in common.
fn reduced(p: u32, q: u32) -> (u32, u32)
    requires { 1 ≤ q }
    ensures { Reduced p q result.0 result.1 }
{
    let d = divisor(p, q);
    (p / d, q / d)
}

impl Fraction {
    pub fn over(&self) -> u32
        ensures { result ≡ self.now.over }
    {
        self.over
    }

    pub fn under(&self) -> u32
        ensures { result ≡ self.now.under }
    {
        self.under
    }

    // The order of fractions, told by the products across.
    pub fn at_most(&self, other: &Fraction) -> bool
        ensures { Tells result (AtMost self.now.over self.now.under other.now.over other.now.under) }
    {
        self <= other
    }
}

// A ratio in lowest terms.
impl From<Ratio> for Fraction {
    ghost from_gives = { λ ratio most. most.over * ratio.under ≡ ratio.over * most.under };

    fn from(ratio: Ratio) -> Fraction {
        let (over, under) = reduced(ratio.over(), ratio.under());
        Fraction { over, under }
    }
}

impl From<Fraction> for Ratio {
    ghost from_gives = { λ most ratio. (ratio.over ≡ most.over) × (ratio.under ≡ most.under) };

    fn from(most: Fraction) -> Ratio {
        Ratio {
            over: most.over,
            under: most.under,
        }
    }
}

// over/under
impl fmt::Display for Fraction {
    ghost output = { λ most. Some (text_of most.over most.under) };

    fn fmt<W: fmt::Write>(&self, f: &mut fmt::Formatter<W>) -> fmt::Result {
        let Fraction { over, under } = *self;
        write!(f, "{over}/{under}")
    }
}
