ghost use Rattle.std.specs.Prelude.{◌≡◌, ℕ, ◌<◌, ◌≤◌, [], ◌∷◌, length, IfOk, MatchOption, OnOk, slice_index_or};
ghost use Rattle.placement.specs.Stays.{no_stay};
ghost use Rattle.placement.specs.Seatings.{plan};
ghost use Rattle.search.specs.Partials.{Expanded, Full, Grown, Layered, Looked, Reads, Root, Soonest, Sound, nth};
ghost use Rattle.search.specs.Tasks.{of_task};
ghost use Rattle.search.specs.Searches.{FromStart};

use crate::partials::{Arena, Partial};
use crate::sets::StaySet;
use crate::tasks::{Start, Task};
use placement::{Seating, Stay};
use std::alloc::{AllocError, Global};

impl<'a> Start<'a> {
    // The least end of a stay that is left, each at its least time; nothing where one of them would end
    // past the room.
    fn soonest(self, a: Partial) -> Option<u64>
        ensures { of_task Looked self.entry.task self.entry.room a.set a.end result }
    {
        let mut best = self.room;
        for (j, stay) in self.task.stays.iter().enumerate() {
            if a.set.has(j) {
                continue;
            }
            let put = self.put_after(stay, a.end)?;
            best = best.min(put.end);
        }
        Some(best)
    }

    // Puts each stay that is left after `a`, which stands at `i`, at its least time, unless one that
    // ends at `soon` fits before it.
    #[tactic(auto, using(crate::proofs::Steps::expanded_skip, crate::proofs::Steps::expanded_waits))]
    fn expand(self, arena: &mut Arena, i: usize, a: Partial, soon: u64) -> Result<(), AllocError>
        requires place { (i < arena.old.layer) × (nth arena.old.partials.items i ≡ a) }
        requires sound { of_task Sound self.task arena.old.layer arena.old.partials.items }
        requires alive { of_task Soonest self.task self.room a.set a.end (length self.task.stays.now) soon }
        ensures expanded { OnOk result (of_task Expanded self.entry.task arena.old.layer a.set a.end soon (length self.entry.task.stays.now) arena.old.partials.items arena.new.partials.items) }
        ensures layer { arena.new.layer ≡ arena.old.layer }
    {
        for (j, stay) in self.task.stays.iter().enumerate() {
            if a.set.has(j) {
                continue;
            }
            let Some(put) = self.put_after(stay, a.end) else {
                continue;
            };
            if self.waits(stay, put, soon) {
                continue;
            }
            let more = Partial {
                set: a.set.with(j),
                end: put.end,
                last: j,
                time: put.time,
                parent: i,
            };
            arena.keep(more)?;
        }
        Ok(())
    }

    // The layer after the last.
    fn layer(self, heap: Global, arena: &mut Arena) -> Result<(), AllocError>
        requires { of_task Sound self.task (length arena.old.partials.items) arena.old.partials.items }
        ensures { OnOk result ((arena.new.layer ≡ length arena.old.partials.items) × of_task Layered self.entry.task self.entry.room arena.old.layer (length arena.old.partials.items) arena.old.partials.items arena.new.partials.items) }
    {
        let lo = arena.layer;
        arena.begin_layer(heap);
        // by index, since the arena grows meanwhile
        for i in lo..arena.layer {
            let a = arena.partials[i];
            if let Some(soon) = self.soonest(a) {
                self.expand(arena, i, a, soon)?;
            }
        }
        Ok(())
    }

    // Grows one partial seating by a layer for each stay more.
    fn grow(self, heap: Global, arena: &mut Arena, root: Partial) -> Result<(), AllocError>
        ensures { OnOk result (of_task Grown self.entry.task self.entry.room (length self.entry.task.stays.now) arena.new.layer (root ∷ []) arena.new.partials.items) }
    {
        arena.restart(heap, root)?;
        // the proof counts the stays seated by _k
        for _k in 1..self.task.stays.len() {
            self.layer(heap, arena)?;
        }
        Ok(())
    }
}

// The partial seating of the stay `t` alone, at its window's first position.
fn root(task: Task, stay: &Stay, t: usize) -> Partial
    requires { t < 64 }
    ensures { Root task.entry.pace.p task.entry.pace.q stay.now t result }
{
    let put = task.put_first(stay);
    Partial {
        set: StaySet::empty().with(t),
        end: put.end,
        last: t,
        time: put.time,
        parent: 0,
    }
}

// A seating that has the stay `t` first, at its window's first position. It is found wherever there
// is one.
#[tactic(auto, using(crate::proofs::Seats::seated_below, crate::proofs::Seats::seated_lead))]
pub fn from_start(
    heap: Global,
    task: Task,
    arena: &mut Arena,
    t: usize,
    first: &Stay,
) -> Result<Option<Seating>, AllocError>
    requires { (t < length task.stays.now) × (first.now ≡ slice_index_or task.stays.now t no_stay) }
    ensures { IfOk result (λ o. of_task FromStart task.entry t o) }
{
    let Some(room) = task.room_of(first) else {
        return Ok(None);
    };
    Start { task, room }.grow(heap, arena, root(task, first, t))?;
    match arena.find_full(task.stays.len(), room) {
        None => Ok(None),
        Some(i) => Ok(Some(arena.read_back(heap, i)?)),
    }
}
