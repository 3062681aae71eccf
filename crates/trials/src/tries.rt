ghost use Rattle.std.specs.Prelude.{◌≡◌, ◌≤◌, length, IfOk};
ghost use Rattle.placement.specs.Arcs.{InBounds};
ghost use Rattle.placement.specs.Seatings.{Order, Seated, no_plan, plan, planned, turned};
ghost use Rattle.trials.specs.Trials.{Answers, Complete, Found};

use crate::errors::NoSeating;
use crate::next::next_time;
use placement::{Seating, Stay, all_in_bounds, is_order};
use ring::{Ratio, Ring};
use std::alloc::{AllocError, Global};

// The first trial that closes: its place in the order and its times. The list and the order are lent
// on as the public call is lent them.
fn first_closing(
    heap: Global,
    ring: Ring,
    ratio: Ratio,
    stays: &[Stay],
    order: &[usize],
) -> Result<Option<(usize, Vec<u64>)>, AllocError>
    requires { (InBounds ring.ticks stays.now) × (Order (length stays.now) order.now) }
    ensures { IfOk result (λ o. Found ring.ticks ratio.over ratio.under stays.now order.now o) }
{
    let n = order.len();
    let mut starts = 0..n;
    // a loop that is left with its value, a rule of the project
    let found = 'trials: loop {
        let Some(t) = starts.next() else {
            break 'trials None;
        };
        let first = stays[order[t]];
        let start = first.window.from as u64;
        let end = start + ring.ticks() as u64;
        let mut times = Vec::new(heap);
        times.push(start)?;
        let mut last = first;
        let mut at = start;
        'followers: for k in 1..n {
            // by index, round the order from t: tried with chain over its two parts, that the indexes
            // are in range stayed unproved
            let stay = stays[order[(t + k) % n]];
            let Some(time) = next_time(ring, ratio, &last, at, &stay) else {
                continue 'trials;
            };
            if time > end {
                continue 'trials;
            }
            at = time;
            times.push(at)?;
            last = stay;
        }
        if last.is_apart(ratio, at, &first, end) {
            break 'trials Some((t, times));
        }
    };
    Ok(found)
}

// The order begun at its place t, with these times.
fn begun_at(heap: Global, order: &[usize], t: usize, times: Vec<u64>) -> Result<Seating, AllocError>
    requires { t ≤ length order.now }
    ensures { IfOk result (λ s. plan s ≡ planned (turned t order.now) times.items) }
{
    let mut order = Vec::from_slice(heap, order)?;
    order.rotate_left(t);
    Ok(Seating { order, times })
}

// The empty seating of the empty list keeps the rules.
fn empty_is_seated(ring: Ring, ratio: Ratio, stays: &[Stay])
    ensures { length stays.now ≡ 0 → Seated ring.ticks ratio.over ratio.under stays.now no_plan }
{}

fn some_trial_closes(ring: Ring, ratio: Ratio, stays: &[Stay], order: &[usize])
    ensures { Complete ring.ticks ratio.over ratio.under stays.now order.now }
{}

// Tries to seat a list in an order: the seating is that of the first trial that closes, begun with its
// own stay. Every stay is checked before any is seated.
pub fn try_order(
    heap: Global,
    ring: Ring,
    ratio: Ratio,
    stays: &[Stay],
    order: &[usize],
) -> Result<Seating, NoSeating>
    ensures complete { Complete ring.ticks ratio.over ratio.under stays.now order.now }
    ensures answers { Answers ring.ticks ratio.over ratio.under stays.now order.now result }
{
    some_trial_closes(ring, ratio, stays, order);
    if !all_in_bounds(ring, stays) {
        return Err(NoSeating::OutOfBounds);
    }
    if !is_order(order, stays.len()) {
        return Err(NoSeating::NotAnOrder);
    }
    empty_is_seated(ring, ratio, stays);
    if order.is_empty() {
        return Ok(Seating::empty(heap));
    }
    let found = first_closing(heap, ring, ratio, stays, order)?;
    let (t, times) = found.ok_or(NoSeating::NoneCloses)?;
    Ok(begun_at(heap, order, t, times)?)
}
