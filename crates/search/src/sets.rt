ghost use Rattle.std.specs.Prelude.{◌≡◌, ℕ, ◌<◌, ◌≤◌};
ghost use Rattle.ring.specs.Questions.{Tells};
ghost use Rattle.search.specs.Sets.{In, Joined};

// A set of stays, by their index in the list: one bit for each index below 64.
#[derive(Clone, Copy, PartialEq, Eq, Hash)]
pub struct StaySet {
    pub(crate) bits: u64,
}

impl StaySet {
    pub fn empty() -> StaySet
        ensures { (j : ℕ) → In result j → ⊥ }
    {
        StaySet { bits: 0 }
    }

    pub fn has(&self, stay: usize) -> bool
        ensures { Tells result (In self.now stay) }
    {
        let bits = self.bits;
        stay < 64 && (bits >> stay) % 2 == 1
    }

    // With one stay more. An index of 64 or more leaves the set as it is.
    #[tactic(auto, using(crate::proofs::Bits::joined))]
    pub fn with(&self, stay: usize) -> StaySet
        ensures joined { stay < 64 → Joined self.now stay result }
        ensures same { 64 ≤ stay → result ≡ self.now }
    {
        if stay >= 64 {
            return *self;
        }
        StaySet {
            bits: self.bits | 1 << stay,
        }
    }

    // Whether each index below n is there.
    pub fn has_all(&self, n: usize) -> bool
        ensures { Tells result ((j : ℕ) → j < n → In self.now j) }
    {
        (0..n).all(|j| self.has(j))
    }
}
