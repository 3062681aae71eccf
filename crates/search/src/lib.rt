// Seating a list of at most 64 stays in any order, exactly: a lawful seating is found wherever one
// exists.
//
// A reader has to believe what an answer says (specs/Searches); it is said of lawful seatings alone.
// How they are found asks for no belief: from each stay in turn, put at its window's first position,
// the partial seatings grow by one stay a layer. Of those that seat the same stays only one with the
// least end is kept, one that can no longer be completed is dropped, and so is a next stay before
// which another fits.

#![tactic(auto)]

mod layers;
mod partials;
mod puts;
mod searches;
mod sets;
mod tasks;

pub use searches::{NotFound, search};
