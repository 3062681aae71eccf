ghost use Rattle.std.specs.Prelude.{◌≡◌};
ghost use Rattle.ring.specs.Refusals.{number_of, ToldApart};
ghost use Rattle.ring.specs.declared.refusals.Refusal.TheVariants.{NoMemory};

use std::alloc::{AllocError, AllocFailed};

// Why a call was refused. Each case but the last answers one question with no, and has its number;
// want of memory has 0.
#[derive(Clone, Copy, PartialEq, Eq, Debug)]
pub enum Refusal {
    // a ring has 1 to 86,400 ticks
    RingBounds = 1,
    // both parts of a pace are 1 to 1,000
    PaceBounds = 2,
    // a job's number is 1 to 1,048,575
    NumberBounds = 3,
    // a job's kind, window and length are within bounds
    FieldBounds = 4,
    // the bytes of a header or record are all there
    BytesMissing = 12,
    // the version of a round file is 1
    UnknownVersion = 13,
    // a round file has at most 64 records
    CountBounds = 14,
    // no byte is left after the last record
    BytesLeft = 16,
    // memory was wanting
    NoMemory = 0,
}

impl Refusal {
    // a method, since its second clause is about all refusals
    pub fn number(self) -> u8
        ensures value { result ≡ number_of self }
        ensures apart { ToldApart }
    {
        self as u8
    }
}

impl From<AllocError> for Refusal {
    ghost from_gives = { λ _ r. r ≡ NoMemory };

    fn from(_e: AllocError) -> Refusal {
        Refusal::NoMemory
    }
}

// A list that takes no more gives this error, and an allocator the one above.
impl<T: Drop> From<AllocFailed<T>> for Refusal {
    ghost from_gives = { λ _ r. r ≡ NoMemory };

    fn from(_e: AllocFailed<T>) -> Refusal {
        Refusal::NoMemory
    }
}
