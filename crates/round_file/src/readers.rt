ghost use Rattle.std.specs.Prelude.{◌≡◌, ◌+◌, ◌-◌, ◌<◌, ◌≤◌, length, MatchResult};
ghost use Rattle.ring.specs.Questions.{AllYes, FirstNo};
ghost use Rattle.ring.specs.Refusals.{number_of};
ghost use Rattle.ring.specs.declared.refusals.Refusal.TheVariants.{BytesMissing};
ghost use Rattle.jobs.specs.Asked.{job_questions};
ghost use Rattle.round_file.specs.Format.{head_questions, part, record_questions, size_at};
ghost use Rattle.round_file.specs.Reading.{told, Stands, Begun, Next, Made};

use crate::cursors::{Cursor, Guard};
use crate::headers::Header;
use crate::numbers::Numbers;
use crate::records::{Note, Record};
use jobs::{Candidate, Kind, RawDetails};
use ring::{Refusal, Ring};

impl Numbers {
    // Puts the questions on a job's numbers, and makes a record of its kind where all say yes.
    fn judge<'a>(self, ring: Ring, note: Note<'a>) -> Result<Record<'a>, Refusal>
        ensures { MatchResult result (λ made. AllYes (job_questions ring.ticks self.number self.details) × Made self note.entry.place note.entry.bytes.now (told made)) (λ e. FirstNo (job_questions ring.ticks self.number self.details) (number_of e)) }
    {
        let Numbers {
            number,
            details,
            ..
        } = self;
        let kind = Candidate {
            ring,
            number,
            details,
        }
        .kind()?;
        let RawDetails {
            from,
            width,
            length,
            ..
        } = details;
        let length = length as u16;
        Ok(match kind {
            Kind::PickUp => Record::PickUp {
                number,
                from,
                width,
                length,
                note,
            },
            Kind::Drop => Record::Drop {
                number,
                from,
                width,
                length,
                note,
            },
            Kind::Zone => Record::Zone {
                number,
                from,
                width,
                value: length,
                note,
            },
        })
    }
}

// So many bytes at the cursor, which moves past them.
fn take_part<'a>(bytes: &'a [u8], cursor: &mut Cursor, size: usize) -> Result<&'a [u8], Refusal>
    ensures cases { MatchResult result (λ b. (cursor.old.place + size ≤ length bytes.now) × (b.now ≡ part bytes.now cursor.old.place size) × (length b.now ≡ size) × (cursor.new.place ≡ cursor.old.place + size)) (λ e. (length bytes.now < cursor.old.place + size) × (e ≡ BytesMissing)) }
    ensures read { cursor.new.read ≡ cursor.old.read }
{
    let rest = bytes.get(cursor.place..).ok_or(Refusal::BytesMissing)?;
    let part = rest.get(..size).ok_or(Refusal::BytesMissing)?;
    cursor.place += size;
    Ok(part)
}

// One record, under a guard that puts the cursor back at every refusal.
fn read_record<'a>(bytes: &'a [u8], ring: Ring, cursor: &mut Cursor) -> Result<Record<'a>, Refusal>
    requires { cursor.old.read < 255 }
    ensures { MatchResult result (λ made. AllYes (record_questions ring.ticks bytes.now cursor.old.place) × Stands bytes.now cursor.old.place (told made) × (cursor.new.place ≡ cursor.old.place + size_at bytes.now cursor.old.place) × (cursor.new.read ≡ cursor.old.read + 1)) (λ e. FirstNo (record_questions ring.ticks bytes.now cursor.old.place) (number_of e) × (cursor.new ≡ cursor.old)) }
{
    let guard = Guard::new(cursor);
    let numbers = Numbers::of(take_part(bytes, guard.cursor, Numbers::SIZE)?);
    let place = guard.cursor.place;
    let note = take_part(bytes, guard.cursor, usize::from(numbers.note))?;
    let record = numbers.judge(ring, Note { place, bytes: note })?;
    guard.disarm();
    Ok(record)
}

// Reads the records of a file one by one.
#[derive(PartialEq, Eq, Debug, Drop)]
pub struct Reader<'a> {
    bytes: &'a [u8],
    header: Header,
    cursor: Cursor,
}

impl<'a> Reader<'a> {
    // Stands at the first record of the file with this header.
    pub fn new(bytes: &'a [u8], header: Header) -> Reader<'a>
        ensures bytes { result.bytes.now ≡ bytes.now }
        ensures header { result.header ≡ header }
        ensures cursor { (result.cursor.place ≡ 6) × (result.cursor.read ≡ 0) }
    {
        Reader {
            bytes,
            header,
            cursor: Cursor {
                place: Header::SIZE,
                read: 0,
            },
        }
    }

    // Opens a file, and stands at its first record.
    pub fn open(bytes: &'a [u8]) -> Result<Reader<'a>, Refusal>
        ensures { MatchResult result (λ r. Begun bytes.now r) (λ e. FirstNo (head_questions bytes.now) (number_of e)) }
    {
        let header = Header::open(bytes)?;
        Ok(Reader::new(bytes, header))
    }

    // The next record, or none once the header's count is reached.
    pub fn next(&mut self) -> Result<Option<Record<'a>>, Refusal>
        ensures answer { Next self.old.header.ring.ticks self.old.header.count self.old.bytes.now self.old.cursor result self.new.cursor }
        ensures kept { (self.new.header ≡ self.old.header) × (self.new.bytes.now ≡ self.old.bytes.now) }
    {
        if self.cursor.read >= self.header.count {
            return Ok(None);
        }
        read_record(self.bytes, self.header.ring, &mut self.cursor).map(Some)
    }

    pub fn header(&self) -> Header
        ensures { result ≡ self.now.header }
    {
        self.header
    }

    pub fn cursor(&self) -> Cursor
        ensures { result ≡ self.now.cursor }
    {
        self.cursor
    }

    // How many bytes are unread.
    pub fn left(&self) -> usize
        ensures { result ≡ length self.now.bytes.now - self.now.cursor.place }
    {
        self.bytes.len().saturating_sub(self.cursor.place)
    }
}
