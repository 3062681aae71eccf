ghost use Rattle.std.specs.Prelude.{◌≡◌, ◌≢◌, Ok, Err, MatchResult};
ghost use Rattle.ring.specs.Faults.{layer_of, layer_number};
ghost use Rattle.ring.specs.declared.refusals.Refusal.TheVariants.{NoMemory};

use crate::refusals::Refusal;
use std::error::Error;
use std::fmt;

// What a question belongs to: the file as a whole, or one record of it.
#[derive(Clone, Copy, PartialEq, Eq, Debug)]
pub enum Layer {
    File = 1,
    Record = 2,
}

impl Layer {
    pub fn number(self) -> u8
        ensures { result ≡ layer_number self }
    {
        self as u8
    }
}

// A refusal with the record at which it came: counted from 1, and 0 for the header, as a fault is told.
#[derive(Clone, Copy, PartialEq, Eq, Debug)]
pub struct Fault {
    pub record: u8,
    pub refusal: Refusal,
}

impl Fault {
    // The layer of the refusal, none for want of memory.
    pub fn layer(self) -> Option<Layer>
        ensures { result ≡ layer_of self.refusal }
    {
        match self.refusal {
            Refusal::RingBounds | Refusal::PaceBounds => Some(Layer::File),
            Refusal::NumberBounds | Refusal::FieldBounds => Some(Layer::Record),
            Refusal::BytesMissing | Refusal::UnknownVersion => Some(Layer::File),
            Refusal::CountBounds | Refusal::BytesLeft => Some(Layer::File),
            Refusal::NoMemory => None,
        }
    }

    // The fault itself, as an answer; want of memory is none, and is an error.
    pub fn answer(self) -> Result<Fault, Fault>
        ensures { MatchResult result (λ f. (f ≡ self) × (self.refusal ≢ NoMemory)) (λ e. (e ≡ self) × (self.refusal ≡ NoMemory)) }
    {
        match self.refusal {
            Refusal::NoMemory => Err(self),
            _ => Ok(self),
        }
    }
}

// `fault L RR NN`: layer, record, number.
impl fmt::Display for Fault {
    fn fmt<W: fmt::Write>(&self, f: &mut fmt::Formatter<W>) -> fmt::Result {
        let record = self.record;
        let number = self.refusal.number();
        match self.layer() {
            Some(layer) => {
                let layer = layer.number();
                write!(f, "fault {layer} {record:02} {number:02}")
            }
            None => write!(f, "no memory"),
        }
    }
}

impl Error for Fault {}

// A result with the record at which it came.
pub fn at_record<T>(res: Result<T, Refusal>, record: u8) -> Result<T, Fault>
    ensures { MatchResult result (λ x. res ≡ Ok x) (λ f. (f.«record» ≡ «record») × (res ≡ Err f.refusal)) }
{
    res.map_err(|refusal| Fault { record, refusal })
}
