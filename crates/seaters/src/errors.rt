ghost use Rattle.std.specs.Prelude.{◌≡◌, Some};
ghost use Rattle.seaters.specs.Errors.{by_trials, no_text};
ghost use Rattle.seaters.specs.declared.errors.NotSeated.TheVariants.{NoMemory};

use std::alloc::{AllocError, AllocFailed};
use std::error::Error;
use std::fmt;
use trials::NoSeating;

// Why a seater seats no list.
#[derive(Clone, Copy, PartialEq, Eq, Debug)]
pub enum NotSeated {
    // it does not take the list on this ring
    NotTaken,
    // it takes the list, and grants no seating of it at this pace
    NoneGranted,
    // memory was wanting
    NoMemory,
}

impl fmt::Display for NotSeated {
    ghost output = { λ no. Some (no_text no) };

    fn fmt<W: fmt::Write>(&self, f: &mut fmt::Formatter<W>) -> fmt::Result {
        f.write_str(match self {
            NotSeated::NotTaken => "not taken",
            NotSeated::NoneGranted => "not granted",
            NotSeated::NoMemory => "no memory",
        })
    }
}

impl Error for NotSeated {}

impl From<AllocError> for NotSeated {
    ghost from_gives = { λ _ r. r ≡ NoMemory };

    fn from(_e: AllocError) -> NotSeated {
        NotSeated::NoMemory
    }
}

// For seaters that push to a list of their own.
impl<T: Drop> From<AllocFailed<T>> for NotSeated {
    ghost from_gives = { λ _ r. r ≡ NoMemory };

    fn from(_e: AllocFailed<T>) -> NotSeated {
        NotSeated::NoMemory
    }
}

impl From<NoSeating> for NotSeated {
    ghost from_gives = { λ no r. r ≡ by_trials no };

    fn from(no: NoSeating) -> NotSeated {
        match no {
            NoSeating::OutOfBounds | NoSeating::NotAnOrder => NotSeated::NotTaken,
            NoSeating::NoneCloses => NotSeated::NoneGranted,
            NoSeating::NoMemory => NotSeated::NoMemory,
        }
    }
}
