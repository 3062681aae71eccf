ghost use Rattle.std.specs.Prelude.{◌≡◌, ◌<◌, Some, length};
ghost use Rattle.placement.specs.Seatings.{Lawful, Seated, no_plan, plan};
ghost use Rattle.search.specs.Tasks.{of_task};
ghost use Rattle.search.specs.Searches.{Answers, FromAll, no_text};
ghost use Rattle.search.specs.declared.searches.NotFound.TheVariants.{NoMemory};

use crate::layers::from_start;
use crate::partials::Arena;
use crate::tasks::Task;
use placement::{Seating, Stay, all_in_bounds};
use ring::{Pace, Ring};
use std::alloc::{AllocError, Global};
use std::error::Error;
use std::fmt;

// Why a search gives no seating.
#[derive(Clone, Copy, PartialEq, Eq, Debug)]
pub enum NotFound {
    // the list has more than 64 stays
    TooMany,
    // a stay of the list is out of bounds
    OutOfBounds,
    // the list has no lawful seating, in whatever order
    NoneLawful,
    // memory was wanting
    NoMemory,
}

impl fmt::Display for NotFound {
    ghost output = { λ no. Some (no_text no) };

    fn fmt<W: fmt::Write>(&self, f: &mut fmt::Formatter<W>) -> fmt::Result {
        f.write_str(match self {
            NotFound::TooMany => "more than 64 stays",
            NotFound::OutOfBounds => "a stay is out of bounds",
            NotFound::NoneLawful => "no lawful seating",
            NotFound::NoMemory => "no memory",
        })
    }
}

impl Error for NotFound {}

impl From<AllocError> for NotFound {
    ghost from_gives = { λ _ e. e ≡ NoMemory };

    fn from(_e: AllocError) -> NotFound {
        Self::NoMemory
    }
}

// The first seating found, from each start in turn.
#[tactic(auto, using(crate::proofs::Seats::none_lawful))]
fn from_all(heap: Global, task: Task) -> Result<Seating, NotFound>
    ensures { of_task FromAll task.entry result }
{
    let mut arena = Arena::new(heap);
    for (t, first) in task.stays.iter().enumerate() {
        if let Some(seating) = from_start(heap, task, &mut arena, t, first)? {
            return Ok(seating);
        }
    }
    Err(NotFound::NoneLawful)
}

#[tactic(auto, using(placement::proofs::Leaving::empty_seated))]
fn empty_is_lawful(ring: Ring, pace: Pace, stays: &[Stay])
    ensures { length stays.now ≡ 0 → Lawful ring.ticks pace.p pace.q stays.now no_plan }
{}

// Begun again at the list's first stay, a seating that keeps the rules is lawful. The one of list order
// says what that keeps of the order.
#[tactic(auto, unfolding(placement::specs::Seatings::Lawful))]
fn begin_at_first(ring: Ring, pace: Pace, stays: &[Stay], seating: &mut Seating)
    requires { (0 < length stays.now) × (Seated ring.ticks pace.p pace.q stays.now (plan seating.old)) }
    ensures { Lawful ring.ticks pace.p pace.q stays.now (plan seating.new) }
{
    seating.begin_again(ring, 0);
}

// Seats a list in whatever order it can be seated. The length is asked first, then the bounds of
// every stay, before any is seated.
pub fn search(heap: Global, ring: Ring, pace: Pace, stays: &[Stay]) -> Result<Seating, NotFound>
    ensures { Answers ring.ticks pace.p pace.q stays.now result }
{
    empty_is_lawful(ring, pace, stays);
    if stays.len() > 64 {
        return Err(NotFound::TooMany);
    }
    if !all_in_bounds(ring, stays) {
        return Err(NotFound::OutOfBounds);
    }
    if stays.is_empty() {
        return Ok(Seating::empty(heap));
    }
    let mut seating = from_all(heap, Task { ring, pace, stays })?;
    begin_at_first(ring, pace, stays, &mut seating);
    Ok(seating)
}
