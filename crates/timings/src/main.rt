// Seats some hard lists and prints the answers. With the argument `times` it also prints how long each
// answer took, in microseconds.
#![tactic(auto)]

mod lists;

use anyhow::Context;
use leeway::leeway;
use lists::{nearly_full, spread, whole_ring};
use placement::{Seating, Stay, own_order};
use ring::{Pace, Ratio, Ring};
use search::{NotFound, search};
use std::alloc::{AllocError, Global};
use std::time::Instant;
use std::{env, fmt};
use trials::{NoSeating, try_order};

// What the search answered, as the list says too; want of memory is no answer.
fn word(
    ring: Ring,
    pace: Pace,
    stays: &[Stay],
    answer: Result<Seating, NotFound>,
) -> Result<&'static str, AllocError> {
    match answer {
        Ok(seating) if seating.lawful(ring, pace, stays) => Ok("fits"),
        Ok(_) => Ok("seated against the rules"),
        Err(NotFound::TooMany | NotFound::OutOfBounds) => Ok("not taken"),
        Err(NotFound::NoneLawful) => Ok("does not fit"),
        Err(NotFound::NoMemory) => Err(AllocError),
    }
}

// Seats a list on a ring of so many ticks and prints the answer.
fn run_case<F: FnOnce(Global, Ring) -> Result<Vec<Stay>, AllocError>>(
    rt: &HostRuntime,
    times: bool,
    name: &str,
    ticks: u32,
    list: F,
) -> anyhow::Result<()>
    requires { F.IsAlwaysCallable list }
{
    let ring = Ring::new(ticks).ok().context("no such ring")?;
    let pace = Pace::new(1, 1).ok().context("no such pace")?;
    let stays = list(rt.alloc(), ring)?;
    let start = Instant::now(rt)?;
    let answer = search(rt.alloc(), ring, pace, &stays);
    let took = start.elapsed(rt)?.as_micros();
    let word = word(ring, pace, &stays, answer)?;
    print_answer(rt, name, word, times.then_some(took))
}

fn run_cases(rt: &HostRuntime, times: bool) -> anyhow::Result<()> {
    let twelve = |heap: Global, ring: Ring| whole_ring(heap, ring, 12);
    let sixteen = |heap: Global, ring: Ring| whole_ring(heap, ring, 16);
    let short = |heap: Global, ring: Ring| spread(heap, ring, 64, 1_200);
    let long = |heap: Global, ring: Ring| spread(heap, ring, 64, 2_400);
    run_case(rt, times, "12 that just fit", 1_146, twelve)?;
    run_case(rt, times, "12 one tick short", 1_145, twelve)?;
    run_case(rt, times, "16 that just fit", 1_560, sixteen)?;
    run_case(rt, times, "16 one tick short", 1_559, sixteen)?;
    run_case(rt, times, "64 short on a day", 86_400, short)?;
    run_case(rt, times, "64 long on a day", 86_400, long)
}

// Prints an answer, and how many microseconds it took if that is wanted.
fn print_answer<A: fmt::Display + Drop>(
    rt: &HostRuntime,
    name: &str,
    answer: A,
    took: Option<u128>,
) -> anyhow::Result<()> {
    match took {
        Some(took) => println!(rt; "{name}: {answer}, {took} us")?,
        None => println!(rt; "{name}: {answer}")?,
    }
    Ok(())
}

// One seating in the list's order, and the leeway of that order beside it.
fn run_leeway(rt: &HostRuntime, times: bool) -> anyhow::Result<()> {
    let heap = rt.alloc();
    let ring = Ring::new(86_400).ok().context("no such ring")?;
    let stays = nearly_full(heap)?;
    let order = own_order(heap, stays.len())?;
    let start = Instant::now(rt)?;
    let tried = try_order(heap, ring, Ratio::whole(1), &stays, &order);
    let took = start.elapsed(rt)?.as_micros();
    let word = match tried {
        Ok(_) => "fits",
        Err(NoSeating::NoMemory) => return Err(AllocError.into()),
        Err(_) => "does not fit",
    };
    print_answer(
        rt,
        "64 nearly full, in their order",
        word,
        times.then_some(took),
    )?;
    let start = Instant::now(rt)?;
    let most = leeway(heap, ring, &stays, &order);
    let took = times.then_some(start.elapsed(rt)?.as_micros());
    match most {
        Ok(most) => print_answer(
            rt,
            "64 nearly full, leeway",
            format_args!("leeway {most}"),
            took,
        ),
        Err(_) => print_answer(rt, "64 nearly full, leeway", "no leeway", took),
    }
}

fn wants_times(rt: &HostRuntime) -> anyhow::Result<bool> {
    Ok(env::args(rt)?.skip(1).any(|word| word.as_str() == "times"))
}

fn run(rt: &HostRuntime) -> anyhow::Result<()> {
    let times = wants_times(rt)?;
    run_cases(rt, times)?;
    run_leeway(rt, times)
}

fn main(rt: HostRuntime) -> anyhow::Result<()> {
    run(&rt)
}
