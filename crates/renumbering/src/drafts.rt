// Whether tables hold a draft: a graph of places, numbered in any way in which each place is led to from an earlier one.
ghost use Rattle.std.specs.Prelude.{ℕ, ◌<◌, ◌≤◌, length, Decides};
ghost use Rattle.records.specs.Tables.{target_at};
ghost use Rattle.records.specs.Checks.{Aimed, Counted};
ghost use Rattle.renumbering.specs.Drafts.{Draft, LedOn, Marks};

use records::{MOST_PLACES, MOST_SLOTS, SlotRecord, Tables};

// Marks the place that each slot leads to.
fn mark(slots: &[SlotRecord], marks: &mut [bool])
    requires { (i : ℕ) → i < length slots.now → target_at slots.now i < length marks.old }
    ensures { Marks slots.now (length slots.now) marks.old marks.new }
{
    for slot in slots {
        marks[slot.target as usize] = true;
    }
}

// Whether a slot of an earlier place leads to each place but the first.
fn is_led_on<F: Copy>(tables: Tables<'_, F>) -> bool
    requires counted { Counted tables.places.now tables.slots.now }
    requires aimed { Aimed tables.places.now tables.slots.now }
    requires few { length tables.places.now ≤ 1000 }
    ensures { Decides result (LedOn tables.entry.places.now tables.entry.slots.now) }
{
    let mut marks = [false; MOST_PLACES];
    marks[0] = true;
    // Not a walk over the marks: a place's own mark is asked in its turn, and its slots then mark others.
    for p in 0..tables.places.len() {
        if !marks[p] {
            return false;
        }
        mark(tables.slots_of(p), &mut marks);
    }
    true
}

// Whether the tables hold a draft.
pub(crate) fn is_draft<F: Copy>(tables: Tables<'_, F>) -> bool
    ensures { Decides result (Draft tables.entry.places.now tables.entry.slots.now) }
{
    !tables.places.is_empty()
        && tables.places.len() <= MOST_PLACES
        && tables.slots.len() <= MOST_SLOTS
        && tables.is_counted()
        && tables.is_aimed()
        && tables.is_rising()
        && is_led_on(tables)
}
