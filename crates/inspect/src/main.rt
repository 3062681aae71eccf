// Prints what stands in a round file: the header, one line for each record, the bytes left over, and
// the fault where there is one. Reads the file from standard input.
#![tactic(auto)]

use jobs::{Arms, Kind, RawDetails};
use ring::{Fault, at_record};
use round_file::{Header, Listing, Note, Record};
use std::io;
use std::io::Read;

fn print_header(rt: &HostRuntime, header: Header) -> io::Result<()> {
    let Header { ring, pace, count } = header;
    println!(rt; "ring {}, pace {pace}, records {count}", ring.ticks())
}

// The window and the arms by their numbers: nothing here rests on the crate of stays.
fn print_record(rt: &HostRuntime, index: usize, record: &Record) -> io::Result<()> {
    let (kind, number) = (record.kind(), record.number());
    let RawDetails {
        from,
        width,
        length,
        ..
    } = record.details();
    let measure = match kind {
        Kind::Zone => "value",
        _ => "length",
    };
    print!(rt; "record {index}: {kind} {number}, window {from} +{width}, {measure} {length}, ")?;
    print_arms(rt, record)?;
    let Note { place, bytes } = record.note();
    println!(rt; "note at {place}, {} bytes", bytes.len())
}

fn print_arms(rt: &HostRuntime, record: &Record) -> io::Result<()> {
    let Some(Arms { lead, trail }) = record.arms() else {
        return Ok(());
    };
    if record.kind() == Kind::Zone {
        print!(rt; "radius {lead}, ")?;
    }
    print!(rt; "lead {lead}, trail {trail}, ")
}

// Prints what stands in the file, and gives its fault where there is one.
fn inspect(rt: &HostRuntime, bytes: &[u8]) -> io::Result<Option<Fault>> {
    // a fault is an answer here and not an error of this function, so no `?`
    match at_record(Header::open(bytes), 0) {
        Ok(header) => print_header(rt, header)?,
        Err(fault) => return Ok(Some(fault)),
    }
    let listing = match Listing::read(rt.alloc(), bytes) {
        Ok(listing) => listing,
        Err(fault) => return Ok(Some(fault)),
    };
    for (i, record) in listing.records.iter().enumerate() {
        // records count from 1, and a file has at most 64
        print_record(rt, i.saturating_add(1), record)?;
    }
    println!(rt; "bytes left {}", listing.left)?;
    Ok(listing.fault)
}

// A fault is an answer; want of memory is none.
fn run(rt: &HostRuntime) -> anyhow::Result<()> {
    let mut bytes = Vec::new(rt.alloc());
    rt.stdin().read_to_end(&mut bytes)?;
    if let Some(fault) = inspect(rt, &bytes)? {
        println!(rt; "{}", fault.answer()?)?;
    }
    Ok(())
}

fn main(rt: HostRuntime) -> anyhow::Result<()> {
    run(&rt)
}
