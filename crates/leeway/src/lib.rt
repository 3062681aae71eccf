// The leeway of an order: the greatest fraction at which a list of stays has a seating in that order,
// over whole ticks.
//
// A reader has to believe what the leeway is (specs/Leeways). Proved above it: what is true of leeways
// whatever the list (specs/Laws), and leeways worked by hand (specs/Worked).

#![tactic(auto)]

mod courses;
mod errors;
mod leeways;

pub use errors::NoLeeway;
pub use leeways::{Tightest, leeway, tightest_seating};
