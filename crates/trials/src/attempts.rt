ghost use Rattle.std.specs.Prelude.{◌≡◌, ◌∷◌, IfOk, MatchOption};
ghost use Rattle.trials.specs.Trials.{Attempted, EndsIt, NoAttempt, Trial};

use crate::next::next_time;
use placement::Stay;
use ring::{Ratio, Ring};
use std::alloc::{AllocError, Global};

// One trial: its times, and whether it closes; one that does not has times too, so no Option says it.
#[derive(PartialEq, Eq, Debug, Drop)]
pub struct Attempt {
    pub times: Vec<u64>,
    pub closes: bool,
}

// The times of a trial, its first stay, its last and that one's time.
#[derive(Drop)]
struct Followed {
    times: Vec<u64>,
    first: Stay,
    last: Stay,
    at: u64,
}

// The first stay at its window's first position, and each of the others at its least time. The trials
// of an order go over the stays again in a loop that is left by its label, a rule of the project.
fn follow(
    heap: Global,
    ring: Ring,
    ratio: Ratio,
    stays: &[Stay],
    head: usize,
    others: &[usize],
) -> Result<Option<Followed>, AllocError>
    ensures { IfOk result (λ o. MatchOption o (NoAttempt ring.ticks ratio.over ratio.under stays.now (head ∷ others.now)) (λ f. Trial ring.ticks ratio.over ratio.under stays.now (head ∷ others.now) f.times.items × EndsIt ring.ticks ratio.over ratio.under stays.now (head ∷ others.now) f.times.items f.last f.at f.first)) }
{
    let Some(first) = stays.get(head) else {
        return Ok(None);
    };
    let start = first.window.from as u64;
    let mut times = Vec::new(heap);
    times.push(start)?;
    let mut last = *first;
    let mut at = start;
    for i in others {
        let Some(stay) = stays.get(*i) else {
            return Ok(None);
        };
        let Some(time) = next_time(ring, ratio, &last, at, stay) else {
            return Ok(None);
        };
        at = time;
        times.push(at)?;
        last = *stay;
    }
    Ok(Some(Followed {
        times,
        first: *first,
        last,
        at,
    }))
}

// The trial along an order, from its first stay on. There is none along the empty order, along one
// with an index that the list does not have, or where a time passes 64 bits.
pub fn trial(
    heap: Global,
    ring: Ring,
    ratio: Ratio,
    stays: &[Stay],
    order: &[usize],
) -> Result<Option<Attempt>, AllocError>
    ensures { IfOk result (λ o. MatchOption o (NoAttempt ring.ticks ratio.over ratio.under stays.now order.now) (λ a. Attempted ring.ticks ratio.over ratio.under stays.now order.now a.times.items a.closes)) }
{
    let Some((head, others)) = order.split_first() else {
        return Ok(None);
    };
    let Some(followed) = follow(heap, ring, ratio, stays, *head, others)? else {
        return Ok(None);
    };
    let end = followed.first.window.from as u64 + ring.ticks() as u64;
    let closes = followed
        .last
        .is_apart(ratio, followed.at, &followed.first, end);
    Ok(Some(Attempt {
        times: followed.times,
        closes,
    }))
}
