ghost use Rattle.std.specs.Prelude.{◌≡◌, Some};
ghost use Rattle.leeway.specs.Errors.{by_trials, no_text};
ghost use Rattle.leeway.specs.declared.errors.NoLeeway.TheVariants.{NoMemory};

use std::alloc::AllocError;
use std::error::Error;
use std::fmt;
use trials::NoSeating;

// Why an order has no leeway.
#[derive(Clone, Copy, PartialEq, Eq, Debug)]
pub enum NoLeeway {
    // the list is empty
    NoStay,
    // a stay of the list is out of bounds
    OutOfBounds,
    // the order does not hold each index of the list once
    NotAnOrder,
    // the list has a seating in the order at no fraction above zero
    NoRoom,
    // memory was wanting
    NoMemory,
}

impl fmt::Display for NoLeeway {
    ghost output = { λ no. Some (no_text no) };

    fn fmt<W: fmt::Write>(&self, f: &mut fmt::Formatter<W>) -> fmt::Result {
        f.write_str(match self {
            NoLeeway::NoStay => "an empty list",
            NoLeeway::OutOfBounds => "a stay is out of bounds",
            NoLeeway::NotAnOrder => "not an order of the list",
            NoLeeway::NoRoom => "no seating above zero",
            NoLeeway::NoMemory => "no memory",
        })
    }
}

impl Error for NoLeeway {}

impl From<AllocError> for NoLeeway {
    ghost from_gives = { λ _ r. r ≡ NoMemory };

    fn from(_e: AllocError) -> NoLeeway {
        NoLeeway::NoMemory
    }
}

// Where the trials are at zero.
impl From<NoSeating> for NoLeeway {
    ghost from_gives = { λ no r. r ≡ by_trials no };

    fn from(no: NoSeating) -> NoLeeway {
        match no {
            NoSeating::OutOfBounds => NoLeeway::OutOfBounds,
            NoSeating::NotAnOrder => NoLeeway::NotAnOrder,
            NoSeating::NoneCloses => NoLeeway::NoRoom,
            NoSeating::NoMemory => NoLeeway::NoMemory,
        }
    }
}
