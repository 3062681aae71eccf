// Compares the seaters and the leeway with trying everything, on many small lists. For each seater, alone
// and under layers, it prints how many lists were seated, not granted and not taken, and the first list
// on which it and the rules disagree, where there is one; then how many orders have a leeway.
#![tactic(auto)]

mod cases;
mod compare;
mod definition;
mod draws;
mod layers;
mod ratios;

use any_order::AnyOrder;
use anyhow::anyhow;
use cases::{Case, draw_cases};
use compare::{Disagreement, Tally, answered, compare};
use definition::{Answer, Rule};
use layers::{Layer, expect};
use placement::own_order;
use ratios::{expect_leeway, leeway_agrees};
use seaters::{Depot, ListOrder, Margin, Seater};
use std::alloc::AllocError;
use std::fmt;

const SEED: u64 = 20_113;

const LISTS: usize = 2_000;

// An answer as it is printed.
#[derive(Clone, Copy)]
struct Printed(Answer);

impl fmt::Display for Printed {
    fn fmt<W: fmt::Write>(&self, f: &mut fmt::Formatter<W>) -> fmt::Result {
        match self.0 {
            Ok(()) => write!(f, "seated"),
            Err(no) => write!(f, "{no}"),
        }
    }
}

fn print_case(rt: &HostRuntime, case: &Case) -> anyhow::Result<()> {
    let ticks = case.ring.ticks();
    println!(rt;
        "  ring {ticks}, pace {}, margin {}",
        case.pace, case.margin
    )?;
    for stay in case.stays.iter() {
        println!(rt; "  stay: {stay}")?;
    }
    println!(rt; "  depot: {}", case.depot)?;
    Ok(())
}

fn print_disagreement(
    rt: &HostRuntime,
    cases: &[Case],
    found: &Disagreement,
) -> anyhow::Result<()> {
    let given = Printed(found.given);
    let expected = Printed(found.expected);
    println!(rt;
        "  list {}: {given}, by the rules {expected}: {}",
        found.case, found.wrong
    )?;
    if let Some(case) = cases.get(found.case) {
        print_case(rt, case)?;
    }
    for (i, time) in found.place.order.iter().zip(found.place.times.iter()) {
        println!(rt; "  index {i} at {time}")?;
    }
    Ok(())
}

// The lists that are compared, by the seatings that are granted.
#[derive(Clone, Copy)]
struct Comparison<'a> {
    rt: &'a HostRuntime,
    rule: Rule,
    cases: &'a [Case],
}

impl Comparison<'_> {
    // Compares the seater that is made for each case, one under these layers by the rules; gives how
    // many disagreements there are.
    fn pile<S: Seater + Drop, F: Fn(&Case) -> S>(
        self,
        name: &str,
        layers: &[Layer],
        seater: F,
    ) -> anyhow::Result<u64>
        requires { F.IsAlwaysCallable seater }
    {
        let Comparison { rt, rule, cases } = self;
        let compared = compare(rt.alloc(), rule, layers, seater, cases).map_err(|_| AllocError)?;
        println!(rt; "{rule}{name}: {}", compared.tally)?;
        if let Some(found) = &compared.first {
            print_disagreement(rt, cases, found)?;
        }
        Ok(compared.disagreements)
    }
}

fn under_depot<S>(below: S, case: &Case) -> Depot<S> {
    Depot {
        below,
        depot: case.depot,
    }
}

fn under_margin<S>(below: S, case: &Case) -> Margin<S> {
    Margin {
        below,
        margin: case.margin,
    }
}

// Compares a seater alone and under each pile of layers; gives how many disagreements there are.
fn compare_seater<S: Seater + Copy + Drop>(compare: Comparison, seater: S) -> anyhow::Result<u64> {
    let depot = |case: &Case| under_depot(seater, case);
    let margin = |case: &Case| under_margin(seater, case);
    let depot_first = |case: &Case| under_depot(under_margin(seater, case), case);
    let margin_first = |case: &Case| under_margin(under_depot(seater, case), case);
    let both = [Layer::Depot, Layer::Margin];
    let turned = [Layer::Margin, Layer::Depot];
    let disagreements = [
        compare.pile("", &[], |_| seater)?,
        compare.pile(" under a depot", &[Layer::Depot], depot)?,
        compare.pile(" under a margin", &[Layer::Margin], margin)?,
        compare.pile(" under a depot over a margin", &both, depot_first)?,
        compare.pile(" under a margin over a depot", &turned, margin_first)?,
    ];
    Ok(added(&disagreements))
}

fn added(counts: &[u64]) -> u64 {
    counts
        .iter()
        .fold(0, |sum, count| sum.saturating_add(*count))
}

// What the rule says of the lists of n stays.
fn print_length(rt: &HostRuntime, rule: Rule, cases: &[Case], n: usize) -> anyhow::Result<()> {
    let mut tally = Tally::default();
    for case in cases.iter().filter(|case| case.stays.len() == n) {
        tally.add(answered(expect(rt.alloc(), rule, &[], case)).map_err(|_| AllocError)?);
    }
    println!(rt; "lists of {n}, {rule} by the rules: {tally}")?;
    Ok(())
}

fn print_lengths(rt: &HostRuntime, cases: &[Case]) -> anyhow::Result<()> {
    for n in 0..6usize {
        print_length(rt, Rule::ListOrder, cases, n)?;
        print_length(rt, Rule::AnyOrder, cases, n)?;
    }
    Ok(())
}

// Compares every seater; gives how many disagreements there are.
fn compare_seaters(rt: &HostRuntime, cases: &[Case]) -> anyhow::Result<u64> {
    let by = |rule: Rule| Comparison { rt, rule, cases };
    let list_order = compare_seater(by(Rule::ListOrder), ListOrder)?;
    let any_order = compare_seater(by(Rule::AnyOrder), AnyOrder)?;
    Ok(list_order.saturating_add(any_order))
}

// Compares the leeway of each list's own order; gives how many disagreements there are. Lists of more
// than 12 stays are left out, since there is too much to try.
fn compare_leeways(rt: &HostRuntime, cases: &[Case]) -> anyhow::Result<u64> {
    let mut above_zero = 0u64;
    let mut none = 0u64;
    let mut disagreements = 0u64;
    for (i, case) in cases
        .iter()
        .enumerate()
        .filter(|(_, case)| case.stays.len() <= 12)
    {
        let order = own_order(rt.alloc(), case.stays.len())?;
        let expected = expect_leeway(case.ring, &case.stays);
        let counted = match expected {
            Ok(_) => &mut above_zero,
            Err(_) => &mut none,
        };
        *counted = counted.saturating_add(1);
        if !leeway_agrees(rt.alloc(), case.ring, &case.stays, &order, expected) {
            disagreements = disagreements.saturating_add(1);
            println!(rt; "  list {i}: the leeway is another by the rules")?;
            print_case(rt, case)?;
        }
    }
    println!(rt; "leeways: above zero {above_zero}, none {none}")?;
    Ok(disagreements)
}

fn run(rt: &HostRuntime) -> anyhow::Result<()> {
    let cases = draw_cases(rt.alloc(), SEED, LISTS)?;
    println!(rt; "lists: {LISTS}")?;
    print_lengths(rt, &cases)?;
    let seaters = compare_seaters(rt, &cases)?;
    let leeways = compare_leeways(rt, &cases)?;
    let disagreements = seaters.saturating_add(leeways);
    println!(rt; "disagreements: {disagreements}")?;
    if disagreements > 0 {
        return Err(anyhow!("the library and the rules disagree"));
    }
    Ok(())
}

fn main(rt: HostRuntime) -> anyhow::Result<()> {
    run(&rt)
}
