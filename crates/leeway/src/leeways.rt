ghost use Rattle.std.specs.Prelude.{◌≡◌, Err, MatchResult};
ghost use Rattle.leeway.specs.Laws.{Laws};
ghost use Rattle.leeway.specs.Leeways.{Answers, Asked, SeatsIn, Settled, Shows};
ghost use Rattle.leeway.specs.Worked.{Worked};

use crate::courses::{Course, trials_decide};
use crate::errors::NoLeeway;
use placement::{Seating, Stay};
use ring::{Fraction, Ratio, Ring};
use std::alloc::Global;
use trials::{NoSeating, try_order};

// The leeway of an order, and a lawful seating at it.
#[derive(PartialEq, Eq, Debug, Drop)]
pub struct Tightest {
    pub leeway: Fraction,
    pub seating: Seating,
}

fn greatest_settles(ring: Ring, stays: &[Stay], order: &[usize])
    ensures settled { Settled ring.ticks stays.now order.now }
    ensures laws { Laws ring.ticks stays.now order.now }
    ensures worked { Worked }
{}

// What a leeway is looked for in: the list has a seating in the order at zero.
fn course<'a>(
    heap: Global,
    ring: Ring,
    stays: &'a [Stay],
    order: &'a [usize],
) -> Result<Course<'a>, NoLeeway>
    ensures { MatchResult result (λ c. (c.ring ≡ ring) × (c.stays.now ≡ stays.now) × (c.order.now ≡ order.now) × SeatsIn ring.ticks 0 1 stays.now order.now) (λ e. Answers ring.ticks stays.now order.now (Err e)) }
{
    let zero = Ratio::whole(0);
    greatest_settles(ring, stays, order);
    trials_decide(ring, zero, stays, order);
    if stays.is_empty() {
        return Err(NoLeeway::NoStay);
    }
    try_order(heap, ring, zero, stays, order)?;
    Ok(Course { ring, stays, order })
}

// The greatest fraction in lowest terms.
fn above_zero(heap: Global, course: Course) -> Result<Fraction, NoLeeway>
    requires { SeatsIn course.ring.ticks 0 1 course.stays.now course.order.now }
    ensures { Answers course.entry.ring.ticks course.entry.stays.now course.entry.order.now result }
{
    greatest_settles(course.ring, course.stays, course.order);
    let best = course.greatest(heap)?;
    if best.over() == 0 {
        return Err(NoLeeway::NoRoom);
    }
    Ok(best.into())
}

// The leeway of an order of a list: the greatest fraction at which the list has a seating in it.
pub fn leeway(
    heap: Global,
    ring: Ring,
    stays: &[Stay],
    order: &[usize],
) -> Result<Fraction, NoLeeway>
    ensures answers { Answers ring.ticks stays.now order.now result }
    ensures laws { Laws ring.ticks stays.now order.now }
    ensures worked { Worked }
{
    greatest_settles(ring, stays, order);
    above_zero(heap, course(heap, ring, stays, order)?)
}

// The leeway, and a lawful seating at it: the one with the least slack.
pub fn tightest_seating(
    heap: Global,
    ring: Ring,
    stays: &[Stay],
    order: &[usize],
) -> Result<Tightest, NoLeeway>
    ensures { Shows ring.ticks stays.now order.now result }
{
    greatest_settles(ring, stays, order);
    let leeway = leeway(heap, ring, stays, order)?;
    let ratio = Ratio::from(leeway);
    trials_decide(ring, ratio, stays, order);
    // at its leeway the order has a seating, so only memory may be wanting
    match try_order(heap, ring, ratio, stays, order) {
        Ok(mut seating) => {
            seating.begin_again(ring, 0);
            Ok(Tightest { leeway, seating })
        }
        Err(NoSeating::NoMemory) => Err(NoLeeway::NoMemory),
        Err(_) => unreachable(),
    }
}
