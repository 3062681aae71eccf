ghost use Rattle.std.specs.Prelude.{◌≡◌, ℕ, ◌<◌, ◌≤◌, [], ◌∷◌, length, IfOk, MatchOption, OnOk};
ghost use Rattle.std.specs.HashMap.{IsEmpty, get};
ghost use Rattle.placement.specs.Seatings.{plan};
ghost use Rattle.ring.specs.Questions.{Tells};
ghost use Rattle.search.specs.Partials.{Full, Kept, Placed, Reads, nth, same_set};

use crate::sets::StaySet;
use placement::Seating;
use std::alloc::{AllocError, Global};
use std::collections::HashMap;

// A seating of some of the stays: which, where the last of them ends, the last and its time, and the
// place of the partial seating without it.
#[derive(Clone, Copy)]
pub struct Partial {
    pub set: StaySet,
    pub end: u64,
    pub last: usize,
    pub time: u64,
    // a place, since partial seatings are overwritten where they stand; 0 in the first, which is not
    // asked for it
    pub parent: usize,
}

impl Partial {
    // Whether it seats all n stays and ends within the room.
    pub fn is_full(&self, n: usize, room: u64) -> bool
        ensures { Tells result (Full n room self.now) }
    {
        self.end <= room && self.set.has_all(n)
    }
}

// Clearing a map takes as long as it has room. So one with room for far more than it holds is let go, or
// each layer would take as long as the largest before it.
fn empty(places: &mut HashMap<StaySet, usize>, heap: Global)
    ensures { IsEmpty places.new }
{
    if places.capacity() / 64 > places.len() {
        *places = HashMap::new(heap);
    } else if !places.is_empty() {
        places.clear();
    }
}

// The partial seatings so far, layer after layer, where the last layer begins, and the place of each
// of that layer by its set.
#[derive(Drop)]
pub struct Arena {
    pub partials: Vec<Partial>,
    pub layer: usize,
    places: HashMap<StaySet, usize>,
    ghost placed: { Placed partials.items layer (get same_set places) },
}

impl Arena {
    pub fn new(heap: Global) -> Arena
        ensures { result.partials.items ≡ [] }
    {
        Arena {
            partials: Vec::new(heap),
            layer: 0,
            places: HashMap::new(heap),
        }
    }

    // Begun again with one partial seating.
    pub fn restart(&mut self, heap: Global, root: Partial) -> Result<(), AllocError>
        ensures { OnOk result ((self.new.partials.items ≡ root ∷ []) × (self.new.layer ≡ 0)) }
    {
        self.partials.clear();
        self.layer = 0;
        empty(&mut self.places, heap);
        self.keep(root)
    }

    pub fn begin_layer(&mut self, heap: Global)
        ensures same { self.new.partials.items ≡ self.old.partials.items }
        ensures layer { self.new.layer ≡ length self.old.partials.items }
    {
        empty(&mut self.places, heap);
        self.layer = self.partials.len();
    }

    // The place of the partial seating of the set in the last layer.
    fn find(&self, set: StaySet) -> Option<usize>
        ensures { result ≡ get same_set self.now.places set }
    {
        self.places.get(&set).copied()
    }

    // Keeps a partial seating in the last layer, unless one of its set with an end as small is there.
    pub fn keep(&mut self, a: Partial) -> Result<(), AllocError>
        ensures kept { OnOk result (Kept self.old.partials.items self.new.partials.items self.old.layer a) }
        ensures layer { self.new.layer ≡ self.old.layer }
    {
        if let Some(x) = self.find(a.set) {
            if a.end < self.partials[x].end {
                self.partials[x] = a;
            }
            return Ok(());
        }
        // space first, so that after an error it is in neither the list nor the map
        self.partials.reserve(1)?;
        self.places.insert(a.set, self.partials.len())?;
        self.partials.push(a).unwrap();
        Ok(())
    }

    // The first of the last layer that seats all n stays and ends within the room.
    pub fn find_full(&self, n: usize, room: u64) -> Option<usize>
        ensures { MatchOption result ((x : ℕ) → self.now.layer ≤ x → x < length self.now.partials.items → Full n room (nth self.now.partials.items x) → ⊥) (λ x. (x < length self.now.partials.items) × Full n room (nth self.now.partials.items x)) }
    {
        let partials = self.partials.as_slice();
        (self.layer..partials.len()).find(|i| partials[*i].is_full(n, room))
    }

    // The seating at the place `at`, from its first stay on.
    pub fn read_back(&self, heap: Global, at: usize) -> Result<Seating, AllocError>
        requires { (at < length self.now.partials.items) × ((x : ℕ) → x < length self.now.partials.items → 0 < x → (nth self.now.partials.items x).parent < x) }
        ensures { IfOk result (λ s. Reads self.now.partials.items at (plan s).order (plan s).times) }
    {
        let partials = self.partials.as_slice();
        let mut order = Vec::new(heap);
        let mut times = Vec::new(heap);
        let mut i = at;
        // by hand: that an iterator along the places ends is not proved by its chain
        loop {
            let a = partials[i];
            order.push(a.last)?;
            times.push(a.time)?;
            if i == 0 {
                break;
            }
            i = a.parent;
        }
        order.reverse();
        times.reverse();
        Ok(Seating { order, times })
    }
}
