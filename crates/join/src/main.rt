// Merges sheets that are built in, on a job over tables of its own: two strikers, the tie of their volts, then south as a tune,
// which clashes, and as an outdoor one. After each step it prints the standing records as a table.
#![tactic(auto)]

use self::built_in::{strikers, tied_volts};
use self::draft::{Draft, OrderKind, path_of};
use self::standing::print_standing;
use self::text::Reply;
use either_kind::either::Either;
use jobs::{Job, job_over};
use kinds::catalogue::Catalogue;
use kinds::kind::Kind;
use records::{no_place, no_slot};

mod built_in;
mod draft;
mod standing;
mod text;

// Adds a sheet at a path, and prints what was asked, the reply, and the sheet that stands then.
fn step(
    rt: &HostRuntime,
    job: &mut Job<'_, OrderKind>,
    asked: &str,
    path: &[&str],
    draft: &Draft,
) -> anyhow::Result<()> {
    let names = path_of(rt.alloc(), path)?;
    let sheet = draft.sheet()?;
    let reply = Reply(job.add(names.as_slice(), &sheet));
    println!(rt; "{asked}")?;
    println!(rt; "{reply}")?;
    print_standing(rt, job)
}

// Takes the four steps on one job.
fn run(rt: &HostRuntime) -> anyhow::Result<()> {
    let mut places = [no_place::<OrderKind>(); 16];
    let mut slots = [no_slot(); 16];
    let mut work_places = [no_place::<OrderKind>(); 16];
    let mut work_slots = [no_slot(); 16];
    let mut links = [0u16; 16];
    let mut shelf_places = [no_place::<OrderKind>(); 16];
    let mut shelf_slots = [no_slot(); 16];
    let mut job: Job<'_, OrderKind> = job_over!(
        &mut places,
        &mut slots,
        &mut work_places,
        &mut work_slots,
        &mut links,
        &mut shelf_places,
        &mut shelf_slots
    );
    job.open();
    let heap = rt.alloc();
    let strikers = strikers(heap)?;
    let tied = tied_volts(heap)?;
    let tune = Draft::of_kind(heap, Either::First(Catalogue::Tune))?;
    let outdoor = Draft::of_kind(heap, Either::First(Catalogue::Outdoor))?;
    let asked =
        "two strikers: (add () (any north (outside_striker volts ([24..48])) south (striking volts ([12..24]))))";
    step(rt, &mut job, asked, &[], &strikers)?;
    let asked =
        "their volts tied: (add () (any north (any volts (#1 any)) south (any volts (#1))))";
    step(rt, &mut job, asked, &[], &tied)?;
    let asked = "south a tune: (add (south) (tune))";
    step(rt, &mut job, asked, &["south"], &tune)?;
    let asked = "south outdoor: (add (south) (outdoor))";
    step(rt, &mut job, asked, &["south"], &outdoor)
}

fn main(rt: HostRuntime) -> anyhow::Result<()> {
    run(&rt)
}
