ghost use Rattle.std.specs.Prelude.{◌<◌, ◌≤◌, length};
ghost use Rattle.placement.specs.Arcs.{InBounds};

use placement::Stay;
use ring::{Pace, Ring};

// What is to be seated: from 1 to 64 stays, each within its bounds, on a ring, at a pace.
#[derive(Clone, Copy)]
pub struct Task<'a> {
    pub ring: Ring,
    pub pace: Pace,
    pub stays: &'a [Stay],
    ghost some: { 0 < length stays.now },
    ghost few: { length stays.now ≤ 64 },
    ghost good: { InBounds ring.ticks stays.now },
}

// A task and the room in which its stays have to end.
#[derive(Clone, Copy)]
pub struct Start<'a> {
    pub task: Task<'a>,
    pub room: u64,
}
