// Seats the jobs of a round file in the file's order, and prints its work: each trial with its times,
// up to the first that closes, and the seating with its leeway, or that there is none. Reads the file
// from standard input.
#![tactic(auto)]

use jobs::{Arms, RawDetails};
use leeway::{NoLeeway, leeway};
use placement::{Seating, Stay, Window, own_order};
use ring::{Fault, at_record};
use round_file::{Header, Listing, Record};
use seaters::{ListOrder, NotSeated, Seater};
use std::alloc::AllocError;
use std::io;
use std::io::Read;
use trials::{Attempt, trial};

fn stay_of(record: &Record) -> Option<Stay> {
    let RawDetails { from, width, .. } = record.details();
    let Arms { lead, trail } = record.arms()?;
    Some(Stay {
        window: Window { from, width },
        lead,
        trail,
    })
}

// The jobs of a file, and their stays beside them, since a seater is lent the stays as a slice.
#[derive(Clone, Copy)]
struct Jobs<'a> {
    header: Header,
    records: &'a [Record<'a>],
    stays: &'a [Stay],
}

impl Jobs<'_> {
    // The jobs of an order at their times.
    fn print_times(self, rt: &HostRuntime, order: &[usize], times: &[u64]) -> io::Result<()> {
        for (i, time) in order.iter().zip(times) {
            if let Some(record) = self.records.get(*i) {
                print!(rt; "{} at {time}, ", record.number())?;
            }
        }
        Ok(())
    }

    fn print_trial(
        self,
        rt: &HostRuntime,
        t: usize,
        order: &[usize],
        attempt: &Attempt,
    ) -> io::Result<()> {
        print!(rt; "trial {t}: ")?;
        self.print_times(rt, order, &attempt.times)?;
        println!(rt;
            "{}",
            if attempt.closes {
                "closes"
            } else {
                "does not close"
            }
        )
    }

    // The trials, up to the first that closes.
    fn print_trials(self, rt: &HostRuntime) -> anyhow::Result<()> {
        let Header { ring, pace, .. } = self.header;
        let mut order = own_order(rt.alloc(), self.stays.len())?;
        for t in 0..self.stays.len() {
            let Some(attempt) = trial(rt.alloc(), ring, pace.into(), self.stays, &order)? else {
                break;
            };
            self.print_trial(rt, t, &order, &attempt)?;
            if attempt.closes {
                break;
            }
            order.rotate_left(1);
        }
        Ok(())
    }

    // Each job with its time and its position, in the seating's order.
    fn print_places(self, rt: &HostRuntime, place: &Seating) -> io::Result<()> {
        for (i, time) in place.order.iter().zip(&place.times) {
            if let (Some(record), Some(position)) = (
                self.records.get(*i),
                place.position(self.header.ring, *i),
            ) {
                println!(rt; "{} at {time}, position {position}", record.number())?;
            }
        }
        Ok(())
    }

    // The leeway of the order that was seated; the empty list has none.
    fn print_leeway(self, rt: &HostRuntime, order: &[usize]) -> anyhow::Result<()> {
        match leeway(rt.alloc(), self.header.ring, self.stays, order) {
            Ok(most) => println!(rt; "leeway {most}")?,
            Err(NoLeeway::NoMemory) => return Err(NoLeeway::NoMemory.into()),
            Err(_) => println!(rt; "no leeway")?,
        }
        Ok(())
    }

    fn print_seating(self, rt: &HostRuntime) -> anyhow::Result<()> {
        let Header { ring, pace, .. } = self.header;
        let mut place = Seating::empty(rt.alloc());
        match ListOrder.seat(rt.alloc(), ring, pace, self.stays, &mut place) {
            Ok(()) => {
                println!(rt; "seated")?;
                self.print_places(rt, &place)?;
                self.print_leeway(rt, &place.order)?;
            }
            Err(NotSeated::NotTaken) => println!(rt; "not taken")?,
            Err(NotSeated::NoneGranted) => {
                println!(rt; "none: the jobs have no seating in this order")?
            }
            Err(NotSeated::NoMemory) => return Err(AllocError.into()),
        }
        Ok(())
    }
}

// Seats the jobs of a file, and gives its fault where there is one.
fn seat_list(rt: &HostRuntime, bytes: &[u8]) -> anyhow::Result<Option<Fault>> {
    // a fault is an answer here and not an error of this function, so no `?`
    let header = match at_record(Header::open(bytes), 0) {
        Ok(header) => header,
        Err(fault) => return Ok(Some(fault)),
    };
    let listing = match Listing::read(rt.alloc(), bytes) {
        Ok(listing) => listing,
        Err(fault) => return Ok(Some(fault)),
    };
    if listing.fault.is_some() {
        return Ok(listing.fault);
    }
    let mut stays = Vec::new(rt.alloc());
    for record in &listing.records {
        if let Some(stay) = stay_of(record) {
            println!(rt; "{} {}: {stay}", record.kind(), record.number())?;
            stays.push(stay)?;
        }
    }
    let jobs = Jobs {
        header,
        records: &listing.records,
        stays: &stays,
    };
    jobs.print_trials(rt)?;
    jobs.print_seating(rt)?;
    Ok(None)
}

// A fault is an answer; want of memory is none.
fn run(rt: &HostRuntime) -> anyhow::Result<()> {
    let mut bytes = Vec::new(rt.alloc());
    rt.stdin().read_to_end(&mut bytes)?;
    if let Some(fault) = seat_list(rt, &bytes)? {
        println!(rt; "{}", fault.answer()?)?;
    }
    Ok(())
}

fn main(rt: HostRuntime) -> anyhow::Result<()> {
    run(&rt)
}
