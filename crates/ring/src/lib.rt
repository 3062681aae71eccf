// What everything else is counted in: a ring of time, a pace, and the numbered refusals.
//
// A reader has to believe the bounds of a ring and of a pace (specs/Measures), the number of each
// refusal (specs/Refusals), and what it means to refuse by number: the questions put to a call are
// an ordered list, and the first no gives the number (specs/Questions). specs/Faults has how a
// refusal is told of a file: by layer, record and number. specs/Fractions has when a fraction is in
// lowest terms.
#![tactic(auto)]

mod faults;
mod fractions;
mod measures;
mod orders;
mod questions;
mod refusals;

pub use faults::{Fault, Layer, at_record};
pub use fractions::Fraction;
pub use measures::{Pace, Ratio, Ring};
pub use questions::{Questioned, refused_by};
pub use refusals::Refusal;
