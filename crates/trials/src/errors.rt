ghost use Rattle.std.specs.Prelude.{◌≡◌, Some};
ghost use Rattle.trials.specs.Trials.{no_text};
ghost use Rattle.trials.specs.declared.errors.NoSeating.TheVariants.{NoMemory};

use std::alloc::AllocError;
use std::error::Error;
use std::fmt;

// Why a list was not seated in an order.
#[derive(Clone, Copy, PartialEq, Eq, Debug)]
pub enum NoSeating {
    // a stay of the list is out of bounds
    OutOfBounds,
    // the order does not hold each index of the list once
    NotAnOrder,
    // the list has no seating in this order
    NoneCloses,
    // memory was wanting
    NoMemory,
}

impl fmt::Display for NoSeating {
    ghost output = { λ no. Some (no_text no) };

    fn fmt<W: fmt::Write>(&self, f: &mut fmt::Formatter<W>) -> fmt::Result {
        f.write_str(match self {
            NoSeating::OutOfBounds => "a stay is out of bounds",
            NoSeating::NotAnOrder => "not an order of the list",
            NoSeating::NoneCloses => "no seating in this order",
            NoSeating::NoMemory => "no memory",
        })
    }
}

impl Error for NoSeating {}

impl From<AllocError> for NoSeating {
    ghost from_gives = { λ _ r. r ≡ NoMemory };

    fn from(_e: AllocError) -> NoSeating {
        NoSeating::NoMemory
    }
}
