// The standing sheet of a job as a table: place, kind, slots.
use crate::draft::{OrderKind, OrderPlace};
use crate::text::kind_text;
use anyhow::Context;
use jobs::Job;
use kinds::kind::Kind;
use names::spelling::of_number::spelling;
use records::{SlotRecord, Tables};

// Prints one slot: its name and the place that it leads to.
fn print_slot(rt: &HostRuntime, slot: SlotRecord) -> anyhow::Result<()> {
    let name = spelling(slot.name).context("a number that is no name's")?;
    let word = std::str::from_utf8(name.as_bytes())?;
    print!(rt; "{word} -> {}", slot.target)?;
    Ok(())
}

// Prints the slots of one place, and ends the line.
fn print_slots(rt: &HostRuntime, slots: &[SlotRecord]) -> anyhow::Result<()> {
    if slots.is_empty() {
        print!(rt; "-")?;
    }
    for (i, slot) in slots.iter().enumerate() {
        if i > 0 {
            print!(rt; ", ")?;
        }
        print_slot(rt, *slot)?;
    }
    println!(rt; "")?;
    Ok(())
}

// Prints a row for each place of the standing sheet.
pub(crate) fn print_standing(rt: &HostRuntime, job: &Job<'_, OrderKind>) -> anyhow::Result<()> {
    println!(rt; "{:<7}{:<17}{}", "place", "kind", "slots")?;
    let places: &[OrderPlace] = job.places;
    let slots: &[SlotRecord] = job.slots;
    let tables = Tables { places, slots };
    for (p, place) in places.iter().take(job.counts().places).enumerate() {
        let kind = kind_text(rt.alloc(), OrderKind::load(place.kind))?;
        print!(rt; "{p:<7}{kind:<17}")?;
        print_slots(rt, tables.slots_of(p))?;
    }
    println!(rt; "")?;
    Ok(())
}
