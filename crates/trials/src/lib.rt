// Seating a list in a given order, by trials: each stay of the order in turn is put at its window's
// first position, and each following stay, round the order, at the least time that its window and the
// one before allow.
//
// A reader has to believe what a trial is and when it closes (specs/Trials). Proved above it: the list
// can be seated in the order exactly if some trial closes.

#![tactic(auto)]

mod attempts;
mod errors;
mod next;
mod tries;

pub use attempts::{Attempt, trial};
pub use errors::NoSeating;
pub use next::next_time;
pub use tries::try_order;
