ghost use Rattle.std.specs.Prelude.{◌≡◌, ℕ, suc, ◌+◌, ◌-◌, ◌*◌, ◌/◌, ◌<◌, ◌^◌, ◌≤◌, true, List, ◌++◌, map, length, take, drop, vec_len, IfOk, MatchOption, slice_index, position, ◌==◌, nat_lt};
ghost use Rattle.std.specs.List.{list_all, range_with_len};
ghost use Rattle.ring.specs.Questions.{Tells};
ghost use Rattle.placement.specs.Seatings.{plan, no_plan, FirstPlace, HasPosition, position_of, Order, Fine, Lawful, planned, Plan, Seated, Small, Sound, turned, begun, begun_again, fallen, left_out, without};
ghost use Rattle.placement.specs.Keeps.{BegunAnywhere, LeftAnywhere};
ghost use Rattle.placement.specs.Arcs.{Means, PrintedRule};
ghost use Rattle.placement.specs.Worked.{WorkedSeatings};

use crate::stays::Stay;
use ring::{Pace, Ring};
use std::alloc::{AllocError, Global};

// An order of a list's stays, by their index in the list, and a time for each, in that order. Any
// order and any times may be handed in, of different lengths too, so these are two vectors and not one
// of pairs; `lawful` tells the good ones.
#[derive(PartialEq, Eq, Debug, Drop)]
pub struct Seating {
    pub order: Vec<usize>,
    pub times: Vec<u64>,
}

fn first_at(order: &[usize], stay: usize) -> Option<usize>
    ensures { result ≡ position (λ o. o == stay) order.now }
{
    order.iter().position(|o| *o == stay)
}

// The first place of the stay in the order.
fn find(order: &[usize], stay: usize) -> Option<usize>
    ensures { FirstPlace stay order.now result }
{
    first_at(order, stay)
}

// The order of a list of n stays as it stands: 0, 1, 2 and so on.
pub fn own_order(heap: Global, n: usize) -> Result<Vec<usize>, AllocError>
    ensures { IfOk result (λ v. v.items ≡ range_with_len 0 n) }
{
    (0..n).collect(heap)
}

// Whether the order holds each index below n once.
pub fn is_order(order: &[usize], n: usize) -> bool
    ensures { Tells result (Order n order.now) }
{
    if order.len() != n {
        return false;
    }
    for (k, o) in order.iter().enumerate() {
        if *o >= n || find(order, *o) != Some(k) {
            return false;
        }
    }
    true
}

// What a lawful seating gives, and that nothing else fits.
fn lawful_means(ring: Ring, pace: Pace, stays: &[Stay], seating: &Seating)
    ensures printed { PrintedRule }
    ensures worked { WorkedSeatings }
    ensures means { Lawful ring.ticks pace.p pace.q stays.now (plan seating.now) → Means ring.ticks pace.p pace.q stays.now (plan seating.now) }
{}

// Indexes after the stay, one less.
fn renumber(order: &mut [usize], stay: usize)
    ensures { order.new ≡ map (fallen stay) order.old }
{
    for o in order.iter_mut() {
        if *o > stay {
            *o -= 1;
        }
    }
}

// One ring more for the first k times.
fn raise(times: &mut [u64], k: usize, ring: Ring)
    requires { (k ≤ length times.old) × (Small times.old) }
    ensures { times.new ≡ map (λ u. u + ring.ticks) (take k times.old) ++ drop k times.old }
{
    let (early, _) = times.split_at_mut(k);
    for t in early.iter_mut() {
        *t = t.saturating_add(ring.ticks() as u64);
    }
}

fn lower(times: &mut [u64], base: u64)
    ensures { times.new ≡ map (λ u. u - base) times.old }
{
    for t in times.iter_mut() {
        *t = t.saturating_sub(base);
    }
}

// What the whole rings in the first time come to.
fn whole_rings(times: &[u64], ring: Ring) -> u64
    ensures { result ≡ slice_index times.now 0 / ring.ticks * ring.ticks }
{
    let ticks = ring.ticks() as u64;
    times.first().map_or(0, |t| *t / ticks * ticks)
}

// The order, begun at its place k.
fn turn_order(order: &mut Vec<usize>, k: usize)
    requires { k ≤ vec_len order.old }
    ensures { order.new.items ≡ turned k order.old.items }
{
    order.rotate_left(k);
}

// The times, begun at the place k.
fn turn_times(times: &mut Vec<u64>, k: usize, ring: Ring)
    requires { (k ≤ vec_len times.old) × (Small times.old.items) }
    ensures { times.new.items ≡ begun ring.ticks k times.old.items }
{
    raise(times, k, ring);
    times.rotate_left(k);
    let base = whole_rings(times, ring);
    lower(times, base);
}

fn all_small(times: &[u64]) -> bool
    ensures { result ≡ list_all (λ t. nat_lt t (2 ^ 62)) times.now }
{
    times.iter().all(|t| *t < 1 << 62)
}

// The times of a seating that keeps the rules are small.
fn seated_is_sound(ring: Ring)
    ensures { (p q : ℕ) (l : List Stay) (s : Plan) → 1 ≤ q → Seated ring.ticks p q l s → Sound s }
{}

impl Seating {
    pub fn empty(heap: Global) -> Seating
        ensures { plan result ≡ no_plan }
    {
        Seating {
            order: Vec::new(heap),
            times: Vec::new(heap),
        }
    }

    // The position of a stay, nothing where it has none.
    pub fn position(&self, ring: Ring, stay: usize) -> Option<u32>
        ensures { MatchOption result (HasPosition stay (plan self.now) → ⊥) (λ x. HasPosition stay (plan self.now) × (x ≡ position_of ring.ticks stay (plan self.now))) }
    {
        let k = find(&self.order, stay)?;
        let time = self.times.get(k)?;
        Some((*time % ring.ticks() as u64) as u32)
    }

    // Whether the rules hold at the k-th place.
    fn is_fine(&self, ring: Ring, pace: Pace, stays: &[Stay], k: usize) -> bool
        requires { (k < length stays.now) × ((Order (length stays.now) self.now.order.items) × ((length self.now.times.items ≡ length stays.now) × (slice_index self.now.times.items 0 < ring.ticks))) }
        ensures { Tells result (Fine ring.ticks pace.p pace.q stays.now self.now.order.items self.now.times.items k) }
    {
        let (order, times) = (self.order.as_slice(), self.times.as_slice());
        let stay = stays[order[k]];
        let (next, then) = if k + 1 < stays.len() {
            (k + 1, times[k + 1])
        } else {
            (0, times[0] + ring.ticks() as u64)
        };
        stay.window.holds(ring, times[k])
            && stay.is_apart(pace.into(), times[k], &stays[order[next]], then)
    }

    fn is_lawful(&self, ring: Ring, pace: Pace, stays: &[Stay]) -> bool
        ensures { Tells result (Lawful ring.ticks pace.p pace.q stays.now (plan self.now)) }
    {
        let (order, times) = (self.order.as_slice(), self.times.as_slice());
        let n = stays.len();
        if times.len() != n {
            return false;
        }
        if !is_order(order, n) {
            return false;
        }
        if n == 0 {
            return true;
        }
        if order[0] != 0 {
            return false;
        }
        if times[0] >= ring.ticks() as u64 {
            return false;
        }
        // by index, since a place is compared with the next one: with `all` the goal stays open
        for k in 0..n {
            if !self.is_fine(ring, pace, stays, k) {
                return false;
            }
        }
        true
    }

    // Whether the seating is lawful for the list; then its positions fit, at any pace that is no
    // greater too. Positions fit only if some lawful seating has them.
    pub fn lawful(&self, ring: Ring, pace: Pace, stays: &[Stay]) -> bool
        ensures tells { Tells result (Lawful ring.ticks pace.p pace.q stays.now (plan self.now)) }
        ensures means { result ≡ true → Means ring.ticks pace.p pace.q stays.now (plan self.now) }
        ensures printed { PrintedRule }
        ensures worked { WorkedSeatings }
    {
        lawful_means(ring, pace, stays, self);
        self.is_lawful(ring, pace, stays)
    }

    fn is_sound(&self) -> bool
        ensures { Tells result (Sound (plan self.now)) }
    {
        self.order.len() == self.times.len() && all_small(&self.times)
    }

    // Sound is asked of a seating and not its invariant, since any lists may be handed in.
    fn turn(&mut self, ring: Ring, stay: usize)
        requires { Sound (plan self.old) }
        ensures begins { plan self.new ≡ begun_again ring.ticks stay (plan self.old) }
        ensures keeps { BegunAnywhere ring.ticks stay (plan self.old) (plan self.new) }
    {
        let k = find(&self.order, stay).unwrap_or(self.order.len());
        turn_order(&mut self.order, k);
        turn_times(&mut self.times, k, ring);
    }

    // Begun again at a stay. A seating whose order and times differ in length, or with a time of 2^62
    // or more, is left as it is.
    pub fn begin_again(&mut self, ring: Ring, stay: usize)
        ensures begins { Sound (plan self.old) → plan self.new ≡ begun_again ring.ticks stay (plan self.old) }
        ensures leaves { (Sound (plan self.old) → ⊥) → plan self.new ≡ plan self.old }
        ensures keeps { BegunAnywhere ring.ticks stay (plan self.old) (plan self.new) }
    {
        seated_is_sound(ring);
        if self.is_sound() {
            self.turn(ring, stay);
        }
    }

    // The stay left out, later indexes one less.
    fn leave_out(&mut self, stay: usize)
        requires { Sound (plan self.old) }
        ensures leaves { plan self.new ≡ left_out stay (plan self.old) }
        ensures sound { Sound (plan self.new) }
    {
        if let Some(k) = find(&self.order, stay) {
            self.order.remove(k);
            self.times.remove(k);
        }
        renumber(&mut self.order, stay);
    }

    fn take_out(&mut self, ring: Ring, stay: usize)
        requires { Sound (plan self.old) }
        ensures leaves { plan self.new ≡ without ring.ticks stay (plan self.old) }
        ensures keeps { LeftAnywhere ring.ticks stay (plan self.old) (plan self.new) }
    {
        self.leave_out(stay);
        self.turn(ring, 0);
    }

    // Without a stay: it is left out, later indexes are one less, and the rest is begun again at the
    // list's first. It allocates nothing. A seating whose order and times differ in length, or with a
    // time of 2^62 or more, is left as it is.
    pub fn without(&mut self, ring: Ring, stay: usize)
        ensures leaves_out { Sound (plan self.old) → plan self.new ≡ without ring.ticks stay (plan self.old) }
        ensures leaves { (Sound (plan self.old) → ⊥) → plan self.new ≡ plan self.old }
        ensures keeps { LeftAnywhere ring.ticks stay (plan self.old) (plan self.new) }
    {
        seated_is_sound(ring);
        if self.is_sound() {
            self.take_out(ring, stay);
        }
    }
}
