// Jobs as they are handed in: the kinds, the radius of a zone, and the questions put to a job's
// numbers before it is one.
//
// A reader has to believe what a kind takes before and after its position (specs/Kinds), the rule
// of a radius (specs/Radii), and the bounds that the two questions ask for (specs/Asked).

#![tactic(auto)]

mod kinds;
mod radii;
mod raw;

pub use kinds::{Arms, Kind, UnknownKind};
pub use radii::radius;
pub use raw::{Candidate, RawDetails};
