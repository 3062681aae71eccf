ghost use Rattle.std.specs.Prelude.{◌≡◌, ◌-◌, ◌<◌, length, ◌≤◌, MatchResult};
ghost use Rattle.ring.specs.declared.refusals.Refusal.TheVariants.{NoMemory};
ghost use Rattle.round_file.specs.Listed.{Listed, Unlisted, Collects, Faulted, stop_number};

use crate::readers::Reader;
use crate::records::Record;
use ring::{Fault, Refusal, at_record};
use std::alloc::Global;

// The records of a file up to its end, or up to the first that is refused.
#[derive(PartialEq, Eq, Debug, Drop)]
pub struct Listing<'a> {
    pub records: Vec<Record<'a>>,
    // how many bytes are unread
    pub left: usize,
    // where and why reading stopped, or that bytes are left after the last record
    pub fault: Option<Fault>,
}

// What a reader gave, and the refusal at which it stopped.
#[derive(Drop)]
pub struct Collected<'a> {
    records: Vec<Record<'a>>,
    stop: Option<Refusal>,
}

fn collect<'a>(heap: Global, reader: &mut Reader<'a>) -> Result<Collected<'a>, Refusal>
    ensures cases { MatchResult result (λ k. Collects reader.old.header.ring.ticks reader.old.header.count reader.old.bytes.now reader.old.cursor k reader.new.cursor) (λ e. e ≡ NoMemory) }
    ensures kept { (reader.new.header ≡ reader.old.header) × (reader.new.bytes.now ≡ reader.old.bytes.now) }
{
    // no iterator: after a refusal the reader would give the same refusal without end
    let mut records = Vec::new(heap);
    let stop = loop {
        match reader.next() {
            Ok(Some(record)) => records.push(record)?,
            Ok(None) => break None,
            Err(refusal) => break Some(refusal),
        }
    };
    Ok(Collected { records, stop })
}

// The fault that is told where a reader stopped or came to its end.
fn fault_of(stop: Option<Refusal>, reader: &Reader) -> Option<Fault>
    requires { reader.now.cursor.read ≤ 64 }
    ensures { Faulted reader.now.header.count reader.now.cursor.read (stop_number stop) (length reader.now.bytes.now - reader.now.cursor.place) result }
{
    match stop {
        Some(refusal) => Some(Fault {
            record: reader.cursor().read + 1,
            refusal,
        }),
        None if reader.left() > 0 => Some(Fault {
            record: reader.header().count,
            refusal: Refusal::BytesLeft,
        }),
        None => None,
    }
}

impl<'a> Listing<'a> {
    // Reads a whole file: whatever the bytes, they are read in one way, up to the first fault.
    pub fn read(heap: Global, bytes: &'a [u8]) -> Result<Listing<'a>, Fault>
        ensures { MatchResult result (λ l. Listed bytes.now l) (λ f. Unlisted bytes.now f) }
    {
        let mut reader = at_record(Reader::open(bytes), 0)?;
        let Collected { records, stop } = at_record(collect(heap, &mut reader), 0)?;
        let fault = fault_of(stop, &reader);
        Ok(Listing {
            records,
            left: reader.left(),
            fault,
        })
    }
}
