ghost use Rattle.std.specs.Prelude.{◌≡◌, ◌<◌, MatchOption};
ghost use Rattle.jobs.specs.Kinds.{kind_number, ArmsOf};
ghost use Rattle.jobs.specs.declared.kinds.Kind.TheVariants as kinds;
ghost use Rattle.round_file.specs.Reading.{told};

use jobs::{Arms, Kind, RawDetails};

// A record's note: a part of the file's own bytes, with its place in the file.
#[derive(Clone, Copy, PartialEq, Eq, Debug)]
pub struct Note<'a> {
    pub place: usize,
    pub bytes: &'a [u8],
}

// A record whose questions are answered with yes. A zone has a value where the others have a length.
// Each case holds its own fields and borrows its note, a rule of the project.
#[derive(Clone, Copy, PartialEq, Eq, Debug)]
pub enum Record<'a> {
    PickUp {
        number: u32,
        from: u32,
        width: u32,
        length: u16,
        note: Note<'a>,
    },
    Drop {
        number: u32,
        from: u32,
        width: u32,
        length: u16,
        note: Note<'a>,
    },
    Zone {
        number: u32,
        from: u32,
        width: u32,
        value: u16,
        note: Note<'a>,
    },
}

impl<'a> Record<'a> {
    pub fn number(&self) -> u32
        ensures { result ≡ (told self.now).number }
    {
        match *self {
            Record::PickUp { number, .. }
            | Record::Drop { number, .. }
            | Record::Zone { number, .. } => number,
        }
    }

    pub fn kind(&self) -> Kind
        ensures { result ≡ (told self.now).kind }
    {
        match *self {
            Record::PickUp { .. } => Kind::PickUp,
            Record::Drop { .. } => Kind::Drop,
            Record::Zone { .. } => Kind::Zone,
        }
    }

    // Kind, window and length as the numbers that they were handed in by.
    pub fn details(&self) -> RawDetails
        ensures { (result.kind ≡ kind_number (told self.now).kind) × (result.from ≡ (told self.now).from) × (result.width ≡ (told self.now).width) × (result.length ≡ (told self.now).length) }
    {
        let kind = u32::from(self.kind());
        match *self {
            Record::PickUp {
                from,
                width,
                length,
                ..
            }
            | Record::Drop {
                from,
                width,
                length,
                ..
            }
            | Record::Zone {
                from,
                width,
                value: length,
                ..
            } => RawDetails {
                kind,
                from,
                width,
                length: u32::from(length),
            },
        }
    }

    // What the job takes before and after its position, none where a zone's value has no radius.
    pub fn arms(&self) -> Option<Arms>
        ensures { MatchOption result (((told self.now).kind ≡ kinds.Zone) × (1023 < (told self.now).length)) (λ a. ArmsOf (told self.now).kind (told self.now).length a) }
    {
        match *self {
            Record::PickUp { length, .. }
            | Record::Drop { length, .. }
            | Record::Zone { value: length, .. } => self.kind().arms(length),
        }
    }

    pub fn note(&self) -> Note<'a>
        ensures { (result.place ≡ (told self.now).note_place) × (result.bytes.now ≡ (told self.now).note) }
    {
        match *self {
            Record::PickUp { note, .. } | Record::Drop { note, .. } | Record::Zone { note, .. } =>
                note,
        }
    }
}
