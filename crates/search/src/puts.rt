ghost use Rattle.std.specs.Prelude.{◌≡◌, ◌+◌, ◌*◌, ◌<◌, MatchOption};
ghost use Rattle.ring.specs.Questions.{Tells};
ghost use Rattle.search.specs.Roads.{Fitted, Late, Room, Waits, end_of};

use crate::tasks::{Start, Task};
use placement::Stay;

// Where a stay is put: its time, and where it ends, in q-ths of a tick at the pace p/q.
#[derive(Clone, Copy)]
pub struct Put {
    pub time: u64,
    pub end: u64,
}

impl<'a> Task<'a> {
    // The stay at its window's first position.
    pub fn put_first(self, stay: &Stay) -> Put
        ensures time { result.time ≡ stay.now.window.from }
        ensures ends { result.end ≡ end_of self.entry.pace.p self.entry.pace.q stay.now result.time }
    {
        let pace = self.pace;
        let time = stay.window.from as u64;
        Put {
            time,
            end: pace.q() as u64 * time + pace.p() as u64 * stay.trail as u64,
        }
    }

    // Where the last stay has to end, so that this one can come again one ring after its window's
    // first position; nothing where its lead alone takes longer.
    pub fn room_of(self, stay: &Stay) -> Option<u64>
        ensures { MatchOption result (self.entry.pace.q * (stay.now.window.from + self.entry.ring.ticks) < self.entry.pace.p * stay.now.lead) (λ room. Room self.entry.ring.ticks self.entry.pace.p self.entry.pace.q stay.now room) }
    {
        let pace = self.pace;
        let limit = pace.q() as u64 * (stay.window.from as u64 + self.ring.ticks() as u64);
        let lead = pace.p() as u64 * stay.lead as u64;
        limit.checked_sub(lead)
    }
}

impl<'a> Start<'a> {
    // The stay at the least time that its window allows after an end, nothing where it would end past
    // the room.
    #[tactic(auto, using(crate::proofs::Roads::late_low, crate::proofs::Roads::next_is))]
    pub fn put_after(self, stay: &Stay, end: u64) -> Option<Put>
        ensures { MatchOption result (Late self.entry.task.ring.ticks self.entry.task.pace.p self.entry.task.pace.q self.entry.room end stay.now) (λ x. Fitted self.entry.task.ring.ticks self.entry.task.pace.p self.entry.task.pace.q self.entry.room end stay.now x.time x.end) }
    {
        let room = self.room as u128;
        let p = self.task.pace.p() as u128;
        let q = self.task.pace.q() as u128;
        // div_ceil divides twice
        let low = (end as u128 + p * stay.lead as u128 + (q - 1)) / q;
        if low > room {
            return None;
        }
        let time = stay.window.earliest(self.task.ring, low as u64)?;
        let ends = q * time as u128 + p * stay.trail as u128;
        if ends > room {
            return None;
        }
        Some(Put {
            time,
            end: ends as u64,
        })
    }

    // Whether another stay, which ends at `soon`, fits before this one, and ends sooner.
    pub fn waits(self, stay: &Stay, put: Put, soon: u64) -> bool
        ensures { Tells result (Waits self.entry.task.pace.p self.entry.task.pace.q soon stay.now put.time put.end) }
    {
        let p = self.task.pace.p() as u128;
        let q = self.task.pace.q() as u128;
        soon as u128 + p * stay.lead as u128 <= q * put.time as u128 && soon < put.end
    }
}
