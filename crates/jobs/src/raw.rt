ghost use Rattle.std.specs.Prelude.{◌≡◌, MatchResult};
ghost use Rattle.ring.specs.Questions.{AllYes, FirstNo};
ghost use Rattle.ring.specs.Refusals.{number_of};
ghost use Rattle.jobs.specs.Kinds.{kind_number};
ghost use Rattle.jobs.specs.Asked.{details_questions, job_questions};

use crate::kinds::Kind;
use ring::{Questioned, Refusal, Ring};

// A job's kind, window and length as they are handed in: any numbers.
#[derive(Clone, Copy, PartialEq, Eq, Debug)]
pub struct RawDetails {
    pub kind: u32,
    pub from: u32,
    pub width: u32,
    pub length: u32,
}

impl RawDetails {
    // Question 4, and the kind where it is answered with yes.
    pub fn kind_on(&self, ring: Ring) -> Result<Kind, Refusal>
        ensures { MatchResult result (λ k. AllYes (details_questions ring.ticks self.now) × (kind_number k ≡ self.now.kind)) (λ e. FirstNo (details_questions ring.ticks self.now) (number_of e)) }
    {
        let ticks = ring.ticks();
        let kind = Kind::try_from(self.kind)?;
        let longest = match kind {
            Kind::Zone => 1_023,
            _ => 40_000,
        };
        if self.from < ticks && self.width < ticks && (1..=longest).contains(&self.length) {
            Ok(kind)
        } else {
            Err(Refusal::FieldBounds)
        }
    }
}

// What would be a job on a ring, once its questions are answered with yes.
#[derive(Clone, Copy, PartialEq, Eq, Debug)]
pub struct Candidate {
    pub ring: Ring,
    pub number: u32,
    pub details: RawDetails,
}

impl Candidate {
    // Questions 3 and 4, and the kind where both are answered with yes.
    pub fn kind(&self) -> Result<Kind, Refusal>
        ensures { MatchResult result (λ k. AllYes (job_questions self.now.ring.ticks self.now.number self.now.details) × (kind_number k ≡ self.now.details.kind)) (λ e. FirstNo (job_questions self.now.ring.ticks self.now.number self.now.details) (number_of e)) }
    {
        if !(1..=1_048_575).contains(&self.number) {
            return Err(Refusal::NumberBounds);
        }
        self.details.kind_on(self.ring)
    }
}

impl Questioned for Candidate {
    ghost questions = { λ c. job_questions c.ring.ticks c.number c.details };

    fn ask(&self) -> Result<(), Refusal> {
        self.kind()?;
        Ok(())
    }
}
