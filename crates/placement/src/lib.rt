// What fits on a ring: windows, stays, and the seatings of a list of stays.
//
// A reader has to believe what a window holds (specs/Windows), when two stays are apart
// (specs/Stays), and what a lawful seating is (specs/Seatings). The rest is proved of these: that
// lawful seatings are exactly the placements in which no two stays overlap, counted by what they
// cover (specs/Arcs), and what turning, leaving out, narrowing and a smaller pace keep (specs/Keeps).

#![tactic(auto)]

mod seatings;
mod stays;
mod windows;

pub use seatings::{Seating, is_order, own_order};
pub use stays::{Stay, all_in_bounds};
pub use windows::Window;
