ghost use Rattle.std.specs.Prelude.{◌≡◌, ◌<◌, ◌≤◌, length};
ghost use Rattle.ring.specs.Questions.{Tells};
ghost use Rattle.leeway.specs.Leeways.{Asked, Decided, Greatest, Kept, Largest, Raised, SeatsIn, gap_at};
ghost use Rattle.leeway.specs.Errors.{UnlessMemory};

use crate::errors::NoLeeway;
use placement::Stay;
use ring::{Ratio, Ring};
use std::alloc::Global;
use trials::{NoSeating, try_order};

// A list that has stays, all within bounds, and an order of it, on a ring.
#[derive(Clone, Copy)]
pub struct Course<'a> {
    pub ring: Ring,
    pub stays: &'a [Stay],
    pub order: &'a [usize],
    ghost asked: { Asked ring.ticks stays.now order.now },
}

pub fn trials_decide(ring: Ring, ratio: Ratio, stays: &[Stay], order: &[usize])
    ensures { Decided ring.ticks ratio.over ratio.under stays.now order.now }
{}

// None of these fails but for want of memory.
impl Course<'_> {
    // Whether the list has a seating in the order at the fraction.
    fn seats(self, heap: Global, ratio: Ratio) -> Result<bool, NoLeeway>
        ensures { UnlessMemory (λ b. Tells b (SeatsIn self.entry.ring.ticks ratio.over ratio.under self.entry.stays.now self.entry.order.now)) result }
    {
        trials_decide(self.ring, ratio, self.stays, self.order);
        match try_order(heap, self.ring, ratio, self.stays, self.order) {
            Ok(_) => Ok(true),
            Err(NoSeating::NoMemory) => Err(NoLeeway::NoMemory),
            Err(_) => Ok(false),
        }
    }

    // The largest numerator over a denominator, up to the ring, by halving; the list has a seating at
    // `from`.
    fn largest(self, heap: Global, from: Ratio) -> Result<u32, NoLeeway>
        requires { Kept self.ring.ticks self.stays.now self.order.now from }
        ensures { UnlessMemory (λ d. Largest self.entry.ring.ticks from.under self.entry.stays.now self.entry.order.now d × (from.over ≤ d)) result }
    {
        let mut low = from.over();
        let mut high = self.ring.ticks() + 1;
        while high - low > 1 {
            let mid = low + (high - low) / 2;
            if self.seats(heap, from.with_over(mid))? {
                low = mid;
            } else {
                high = mid;
            }
        }
        Ok(low)
    }

    // The greatest fraction over the gap, if that is greater than the best so far. Halving begins only
    // where one tick more than the best still has a seating.
    fn raised(self, heap: Global, best: Ratio, gap: u32) -> Result<Ratio, NoLeeway>
        requires { Kept self.ring.ticks self.stays.now self.order.now best }
        ensures { UnlessMemory (λ f. Raised self.entry.ring.ticks self.entry.stays.now self.entry.order.now best gap f) result }
    {
        let next = best.over() as u64 * gap as u64 / best.under() as u64 + 1;
        if next > self.ring.ticks() as u64 {
            return Ok(best);
        }
        let Some(next) = Ratio::new(next as u32, gap) else {
            return Ok(best);
        };
        if !self.seats(heap, next)? {
            return Ok(best);
        }
        let most = self.largest(heap, next)?;
        Ok(next.with_over(most))
    }

    // The gap behind the k-th stay of the order.
    fn gap_after(self, k: usize) -> u32
        requires { k < length self.stays.now }
        ensures { result ≡ gap_at self.entry.stays.now self.entry.order.now k }
    {
        // as next_place is defined
        let next = if k + 1 < self.stays.len() { k + 1 } else { 0 };
        self.stays[self.order[k]].trail + self.stays[self.order[next]].lead
    }

    // The greatest fraction, gap by gap.
    pub fn greatest(self, heap: Global) -> Result<Ratio, NoLeeway>
        requires { SeatsIn self.ring.ticks 0 1 self.stays.now self.order.now }
        ensures { UnlessMemory (λ f. Greatest self.entry.ring.ticks self.entry.stays.now self.entry.order.now f) result }
    {
        let mut best = Ratio::whole(0);
        // by index: tried with zip, cycle and skip, that the indexes are in range stayed unproved
        for k in 0..self.stays.len() {
            best = self.raised(heap, best, self.gap_after(k))?;
        }
        Ok(best)
    }
}
