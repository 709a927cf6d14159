// Measures merges: `bench run` prints how many microseconds each of four merges takes, with up to 1,000 places side by side.
#![tactic(auto)]

use self::table::{Table, chain, chain_back, chain_to_ring, ring, tree};
use anyhow::anyhow;
use jobs::{Job, job_over};
use kinds::catalogue::Catalogue;
use kinds::kind::Kind;
use records::{MOST_PLACES, MOST_SLOTS, no_place, no_slot};
use sheets::sheet::Sheet;
use std::env;
use std::time::Instant;

mod table;

// How often each merge is made; the shortest time counts.
const ROUNDS: u32 = 200;

// Merges the second sheet into the first on a new job, and answers the nanoseconds that this merge took.
fn nanoseconds(
    rt: &HostRuntime,
    job: &mut Job<'_, Catalogue>,
    first: &Sheet<'_, Catalogue>,
    second: &Sheet<'_, Catalogue>,
) -> anyhow::Result<u128> {
    job.open();
    job.add(&[], first)
        .map_err(|_| anyhow!("a sheet that was refused"))?;
    let start = Instant::now(rt)?;
    let merged = job.add(&[], second);
    let took = start.elapsed(rt)?;
    merged.map_err(|_| anyhow!("a merge that was refused"))?;
    Ok(took.as_nanos())
}

// The shortest time of a merge of two tables' sheets, in nanoseconds.
fn shortest(
    rt: &HostRuntime,
    job: &mut Job<'_, Catalogue>,
    first: &Table,
    second: &Table,
) -> anyhow::Result<u128> {
    let one = first.sheet()?;
    let other = second.sheet()?;
    let mut best = nanoseconds(rt, job, &one, &other)?;
    for _ in 1..ROUNDS {
        best = best.min(nanoseconds(rt, job, &one, &other)?);
    }
    Ok(best)
}

// Prints how long the merge takes, and how many places and slots it has.
fn measure(rt: &HostRuntime, title: &str, first: &Table, second: &Table) -> anyhow::Result<()> {
    let mut places = [no_place::<Catalogue>(); MOST_PLACES];
    let mut slots = [no_slot(); MOST_SLOTS];
    let mut work_places = [no_place::<Catalogue>(); MOST_PLACES];
    let mut work_slots = [no_slot(); MOST_SLOTS];
    let mut links = [0u16; MOST_PLACES];
    let mut job: Job<'_, Catalogue> = job_over!(
        &mut places,
        &mut slots,
        &mut work_places,
        &mut work_slots,
        &mut links,
        &mut [],
        &mut []
    );
    let micros = shortest(rt, &mut job, first, second)? / 1000;
    let merged = job.counts().places;
    println!(rt; "{title:<28}{micros:>8} microseconds; places merged: {merged}")?;
    Ok(())
}

// The four measures.
fn run(rt: &HostRuntime) -> anyhow::Result<()> {
    let heap = rt.alloc();
    let tree = tree(heap, 500)?;
    let half = chain(heap, 500)?;
    let ring = ring(heap)?;
    let long = chain(heap, 999)?;
    let back = chain_back(heap, 500)?;
    let bound = chain_to_ring(heap, 500)?;
    measure(rt, "two trees of 500 places", &tree, &tree)?;
    measure(rt, "two chains of 500 places", &half, &half)?;
    measure(rt, "a ring and 999 places", &ring, &long)?;
    measure(rt, "a fold from the end", &back, &bound)
}

// Whether the program was started with the one word `run`.
fn asked(rt: &HostRuntime) -> anyhow::Result<bool> {
    let word = env::args(rt)?.nth(1);
    Ok(word.is_some_and(|word| word.as_str() == "run"))
}

fn main(rt: HostRuntime) -> anyhow::Result<()> {
    if asked(&rt)? {
        return run(&rt);
    }
    println!(rt; "usage: bench run")?;
    Ok(())
}
