ghost use Rattle.std.specs.Result.{MatchResult};
ghost use Rattle.ring.specs.Questions.{AllYes, FirstNo};
ghost use Rattle.ring.specs.Refusals.{number_of};
ghost use Rattle.round_file.specs.Format.{head_questions, Opened};

use crate::bits::field_at;
use ring::{Pace, Refusal, Ring};

// What the header of a round file says, once its questions are answered with yes.
#[derive(Clone, Copy, PartialEq, Eq, Debug)]
pub struct Header {
    pub ring: Ring,
    pub pace: Pace,
    pub count: u8,
}

impl Header {
    // How many bytes it takes; the first record follows them.
    pub const SIZE: usize = 6;

    pub fn open(bytes: &[u8]) -> Result<Header, Refusal>
        ensures { MatchResult result (λ h. AllYes (head_questions bytes.now) × Opened bytes.now h.ring.ticks h.pace.p h.pace.q h.count) (λ e. FirstNo (head_questions bytes.now) (number_of e)) }
    {
        let fixed = bytes.get(..Header::SIZE).ok_or(Refusal::BytesMissing)?;
        if field_at(fixed, 0, 4) != 1 {
            return Err(Refusal::UnknownVersion);
        }
        let count = field_at(fixed, 41, 7);
        if count > 64 {
            return Err(Refusal::CountBounds);
        }
        let ring = Ring::new(field_at(fixed, 4, 17))?;
        let pace = Pace::new(field_at(fixed, 21, 10), field_at(fixed, 31, 10))?;
        Ok(Header {
            ring,
            pace,
            count: count as u8,
        })
    }
}
