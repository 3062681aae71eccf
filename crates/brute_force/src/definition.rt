// What can be seated, from the rules alone, by trying everything. Of the library only the plain types
// are used here.
ghost use Rattle.std.specs.Prelude.{◌≡◌, ◌+◌, ◌*◌, ◌%◌, ◌<◌, ◌≤◌, ◌^◌, Err, IfSome, length};
ghost use Rattle.std.specs.Iterator.{IsFinite};
ghost use Rattle.ring.specs.Questions.{Tells};
ghost use Rattle.placement.specs.Arcs.{InBounds};
ghost use Rattle.placement.specs.Stays.{Apart, StayBounds};
ghost use Rattle.placement.specs.Windows.{Holds};
ghost use Rattle.seaters.specs.declared.errors.NotSeated.TheVariants.{NotTaken};

use placement::{Seating, Stay, Window};
use ring::{Pace, Ring};
use seaters::NotSeated;
use std::alloc::{AllocError, Global};
use std::{fmt, mem};

// What is said of a list: that it is seated, or why not.
pub type Answer = Result<(), NotSeated>;

// Which seatings are granted: those in the list's order, or all.
#[derive(Clone, Copy)]
pub enum Rule {
    ListOrder,
    AnyOrder,
}

impl fmt::Display for Rule {
    fn fmt<W: fmt::Write>(&self, f: &mut fmt::Formatter<W>) -> fmt::Result {
        f.write_str(match self {
            Rule::ListOrder => "list order",
            Rule::AnyOrder => "any order",
        })
    }
}

impl Rule {
    // The longest list that is taken.
    fn longest(self) -> usize
        ensures { result ≤ 64 }
    {
        match self {
            Rule::ListOrder => 64,
            Rule::AnyOrder => 12,
        }
    }

    // What the rule says of a list.
    pub fn decide(self, heap: Global, list: List) -> Answer
        ensures long { 64 < length list.entry.stays.now → result ≡ Err NotTaken }
        ensures bounds { (InBounds list.entry.ring.ticks list.entry.stays.now → ⊥) → result ≡ Err NotTaken }
    {
        if list.stays.len() > self.longest() || !all_within_bounds(list.ring, list.stays) {
            return Err(NotSeated::NotTaken);
        }
        let found = match self {
            Rule::ListOrder => list.some_times(),
            Rule::AnyOrder => list.some_positions(heap)?,
        };
        if found {
            Ok(())
        } else {
            Err(NotSeated::NoneGranted)
        }
    }
}

// The bounds, the windows and the rule of two stays are written once more in this file, since the
// library's own are what is compared.
pub fn within_bounds(ring: Ring, stay: &Stay) -> bool
    ensures { Tells result (StayBounds ring.ticks stay.now) }
{
    let window = stay.window;
    let on_ring = window.from < ring.ticks() && window.width < ring.ticks();
    let not_long = stay.lead <= 40_000 && stay.trail <= 40_000;
    on_ring && not_long && (stay.lead != 0 || stay.trail != 0)
}

pub fn all_within_bounds(ring: Ring, stays: &[Stay]) -> bool
    ensures { Tells result (InBounds ring.ticks stays.now) }
{
    stays.iter().all(|stay| within_bounds(ring, stay))
}

pub fn product(a: u32, b: u32) -> u64
    ensures { result ≡ a * b }
{
    a as u64 * b as u64
}

// Whether the time, round the ring, is one of the positions from the window's first upward.
#[tactic(auto, using(crate::proofs::Counted::counts_after, crate::proofs::Counted::counts_before))]
pub fn lies_in(ring: Ring, window: Window, time: u64) -> bool
    ensures { window.from < ring.ticks → Tells result (Holds ring.ticks window time) }
{
    let position = time % ring.ticks() as u64;
    let first = window.from as u64;
    let counted = if position < first {
        position + ring.ticks() as u64
    } else {
        position
    };
    counted <= first + window.width as u64
}

// A stay at a time.
#[derive(Clone, Copy)]
pub struct Placed<'a> {
    pub stay: &'a Stay,
    pub time: u64,
}

impl Placed<'_> {
    // Whether there is room, at p/q, for the trail of this stay and the lead of the next. Not the
    // library's own, which is compared.
    pub fn apart(self, p: u32, q: u32, next: Placed) -> bool
        ensures { Tells result (Apart p q self.entry.stay.now self.entry.time next.entry.stay.now next.entry.time) }
    {
        let end = q as u128 * self.time as u128 + product(p, self.stay.trail) as u128;
        end + product(p, next.stay.lead) as u128 <= q as u128 * next.time as u128
    }

    fn in_window(self, ring: Ring) -> bool
        ensures { self.entry.stay.now.window.from < ring.ticks → Tells result (Holds ring.ticks self.entry.stay.now.window self.entry.time) }
    {
        lies_in(ring, self.stay.window, self.time)
    }
}

// Goes round the ring, from a stay at a time over others to the first again, a ring later. Nothing,
// where one is not in its window, a step from one to the next gives nothing, or a time passes 64 bits.
pub fn go_round<'a, A: Drop, I, F>(
    ring: Ring,
    first: Placed<'a>,
    others: I,
    begin: A,
    mut step: F,
) -> Option<A>
where
    I: Iterator<Item = Placed<'a>> + Drop,
    F: FnMut(A, Placed<'a>, Placed<'a>) -> Option<A>,
    requires can { I.can_next others }
    requires ends { IsFinite (I.remaining others) }
    requires calls { F.IsAlwaysCallable step }
    ensures { first.entry.stay.now.window.from < ring.ticks → IfSome result (λ _. Holds ring.ticks first.entry.stay.now.window first.entry.time) }
{
    if !first.in_window(ring) {
        return None;
    }
    let mut so_far = begin;
    let mut last = first;
    for next in others {
        if !next.in_window(ring) {
            return None;
        }
        so_far = step(so_far, last, next)?;
        last = next;
    }
    let again = Placed {
        stay: first.stay,
        time: first.time.checked_add(ring.ticks() as u64)?,
    };
    step(so_far, last, again)
}

// Times from `from` on, without end: each is so much later as a digit says of a number in a base, the
// lowest digit first.
#[derive(Clone, Copy)]
struct Times {
    from: u32,
    base: u32,
    rest: u64,
    ghost some: { 1 ≤ base },
    ghost small: { from + base ≤ 2 ^ 32 },
}

impl Iterator for Times {
    type Item = u32;

    fn next(&mut self) -> Option<u32> {
        let base = self.base as u64;
        let digit = (self.rest % base) as u32;
        self.rest /= base;
        Some(self.from + digit)
    }
}

// How many numbers have a digit for each stay, in a base, and one more digit in the base `first`.
fn how_many(first: u64, base: u64, stays: &[Stay]) -> u64 {
    stays
        .iter()
        .fold(first, |numbers, _| numbers.saturating_mul(base))
}

// A list that is to be seated, on a ring at a pace.
#[derive(Clone, Copy)]
pub struct List<'a> {
    pub ring: Ring,
    pub pace: Pace,
    pub stays: &'a [Stay],
}

impl<'a> List<'a> {
    // Any order: whether some positions fit.
    fn some_positions(self, heap: Global) -> Result<bool, AllocError> {
        let mut marks = self.marks(heap)?;
        let numbers = how_many(1, self.ring.ticks() as u64, self.stays);
        Ok((0..numbers).any(|number| self.fit(number, &mut marks)))
    }

    // Whether the positions of a seating fit.
    pub fn positions_fit(self, heap: Global, place: &Seating) -> Result<bool, AllocError> {
        let ticks = self.ring.ticks() as u64;
        let mut number = 0u64;
        // by index, since the seating names its stays by theirs
        for stay in (0..self.stays.len()).rev() {
            let Some(time) = time_of(place, stay) else {
                return Ok(false);
            };
            number = number.saturating_mul(ticks).saturating_add(time % ticks);
        }
        let mut marks = self.marks(heap)?;
        Ok(self.fit(number, &mut marks))
    }

    // A mark for each q-th of the ring.
    fn marks(self, heap: Global) -> Result<Vec<bool>, AllocError> {
        Vec::from_elem(
            heap,
            false,
            product(self.pace.q(), self.ring.ticks()) as usize,
        )
    }

    // Whether positions lie in their windows, with no q-th covered twice. They are the digits of the
    // number in base C, that of the first stay the lowest.
    fn fit(self, number: u64, marks: &mut [bool]) -> bool {
        let positions = Times {
            from: 0,
            base: self.ring.ticks(),
            rest: number,
        };
        self.all_in_windows(positions) && self.none_overlap(positions, marks)
    }

    fn all_in_windows(self, positions: Times) -> bool {
        let mut placed = self.stays.iter().zip(positions);
        placed.all(|(stay, position)| lies_in(self.ring, stay.window, position as u64))
    }

    fn none_overlap(self, positions: Times, marks: &mut [bool]) -> bool {
        marks.fill(false);
        self.stays
            .iter()
            .zip(positions)
            .all(|(stay, position)| mark(self.pace, stay, position, marks))
    }

    // List order: whether some times keep the rules.
    fn some_times(self) -> bool {
        let Some((first, others)) = self.stays.split_first() else {
            return true;
        };
        let rounds = Rounds {
            ring: self.ring,
            first,
            others,
        };
        let (p, q) = (self.pace.p(), self.pace.q());
        (0..rounds.count()).any(|number| {
            let kept = rounds.go(number, (), |_, a, b| a.apart(p, q, b).then_some(()));
            kept.is_some()
        })
    }
}

// All choices of times in a list's order. The first is below C, and each other one comes at the first or
// up to a ring later, so they are one digit of a number in base C and the others in base C + 1.
#[derive(Clone, Copy)]
pub struct Rounds<'a> {
    pub ring: Ring,
    pub first: &'a Stay,
    pub others: &'a [Stay],
}

impl<'a> Rounds<'a> {
    pub fn count(self) -> u64 {
        let ticks = self.ring.ticks() as u64;
        how_many(ticks, ticks + 1, self.others)
    }

    // Goes round the list, each stay at the time that the number says.
    pub fn go<A: Drop, F: FnMut(A, Placed<'a>, Placed<'a>) -> Option<A>>(
        self,
        number: u64,
        begin: A,
        step: F,
    ) -> Option<A>
        requires { F.IsAlwaysCallable step }
        ensures { self.entry.first.now.window.from < self.entry.ring.ticks → IfSome result (λ _. Holds self.entry.ring.ticks self.entry.first.now.window (number % self.entry.ring.ticks)) }
    {
        let ticks = self.ring.ticks();
        let start = (number % ticks as u64) as u32;
        let times = Times {
            from: start,
            base: ticks + 1,
            rest: number / ticks as u64,
        };
        let first = Placed {
            stay: self.first,
            time: start as u64,
        };
        let others = self.others.iter().zip(times).map(|(stay, time)| Placed {
            stay,
            time: time as u64,
        });
        go_round(self.ring, first, others, begin, step)
    }
}

// The time of a stay in a seating.
fn time_of(place: &Seating, stay: usize) -> Option<u64> {
    place
        .order
        .iter()
        .zip(place.times.iter())
        .find(|(index, _)| **index == stay)
        .map(|(_, time)| *time)
}

// Marks what a stay covers at a position, a mark for each q-th of the ring. No, where one is marked
// already; a stay that covers more than the ring meets its own.
fn mark(pace: Pace, stay: &Stay, position: u32, marks: &mut [bool]) -> bool {
    let around = marks.len();
    if around == 0 {
        return false;
    }
    let at = product(pace.q(), position) as usize % around;
    let before = product(pace.p(), stay.lead);
    let back = before as usize % around;
    let first = if at >= back {
        at - back
    } else {
        at + (around - back)
    };
    mark_run(marks, first, before) && mark_run(marks, at, product(pace.p(), stay.trail))
}

fn mark_run(marks: &mut [bool], first: usize, count: u64) -> bool
    requires { first < length marks.old }
{
    if count > marks.len() as u64 {
        return false;
    }
    let (before, after) = marks.split_at_mut(first);
    after
        .iter_mut()
        .chain(before.iter_mut())
        .take(count as usize)
        .all(|mark| !mem::replace(mark, true))
}
