ghost use Rattle.std.specs.Prelude.{◌≡◌, ◌<◌, Some, MatchOption};
ghost use Rattle.ring.specs.declared.refusals.Refusal.TheVariants.{FieldBounds};
ghost use Rattle.jobs.specs.Kinds.{kind_number, kind_word, Numbered, ArmsOf};
ghost use Rattle.jobs.specs.declared.kinds.Kind.TheVariants.{Zone};

use crate::radii::radius;
use ring::Refusal;
use std::fmt;

#[derive(Clone, Copy, PartialEq, Eq, Debug)]
pub enum Kind {
    PickUp = 0,
    Drop = 1,
    Zone = 2,
}

// A number that is no kind's.
#[derive(Clone, Copy, PartialEq, Eq, Debug)]
pub struct UnknownKind(pub u32);

impl TryFrom<u32> for Kind {
    type Error = UnknownKind;

    ghost try_from_gives = { Numbered };

    fn try_from(number: u32) -> Result<Kind, UnknownKind> {
        match number {
            0 => Ok(Kind::PickUp),
            1 => Ok(Kind::Drop),
            2 => Ok(Kind::Zone),
            _ => Err(UnknownKind(number)),
        }
    }
}

impl From<Kind> for u32 {
    ghost from_gives = { λ kind number. number ≡ kind_number kind };

    fn from(kind: Kind) -> u32 {
        kind as u32
    }
}

impl From<UnknownKind> for Refusal {
    ghost from_gives = { λ _ r. r ≡ FieldBounds };

    fn from(_e: UnknownKind) -> Refusal {
        Refusal::FieldBounds
    }
}

impl fmt::Display for Kind {
    ghost output = { λ kind. Some (kind_word kind) };

    fn fmt<W: fmt::Write>(&self, f: &mut fmt::Formatter<W>) -> fmt::Result {
        f.write_str(match self {
            Kind::PickUp => "pick-up",
            Kind::Drop => "drop",
            Kind::Zone => "zone",
        })
    }
}

// What a job takes before its position and after it, in units that the pace turns into ticks.
#[derive(Clone, Copy, PartialEq, Eq, Debug)]
pub struct Arms {
    pub lead: u32,
    pub trail: u32,
}

impl Kind {
    // The arms at a length, for a zone at a value: none where the value has no radius.
    pub fn arms(self, length: u16) -> Option<Arms>
        ensures { MatchOption result ((self ≡ Zone) × (1023 < length)) (λ a. ArmsOf self length a) }
    {
        let (lead, trail) = match self {
            Kind::PickUp => (0, length),
            Kind::Drop => (length, 0),
            Kind::Zone => {
                let r = radius(length)?;
                (r, r)
            }
        };
        Some(Arms {
            lead: u32::from(lead),
            trail: u32::from(trail),
        })
    }
}
