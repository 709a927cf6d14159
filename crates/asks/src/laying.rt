// Laying the standing sheet and an ask side by side in the work tables: the standing sheet first, then the chain of the ask's
// path, then the asked sheet with its numbers moved on.
ghost use Rattle.std.specs.Prelude.{◌≡◌, ℕ, ◌+◌, ◌<◌, ◌≤◌, ◌++◌, map, length, drop, slice_index};
ghost use Rattle.records.specs.Sheets.{Formed};
ghost use Rattle.asks.specs.Asks.{moved_place, moved_slot, chained};
ghost use Rattle.asks.specs.Laying.{tables, chain, AddLaid};

use crate::moving::Moved;
use records::{Counts, PlaceRecord, SlotRecord, Tables};

// Copies a table to the front of another.
fn copy_front<T: Copy>(from: &[T], to: &mut [T])
    requires { length from.now ≤ length to.old }
    ensures { to.new ≡ from.now ++ drop (length from.now) to.old }
{
    to[..from.len()].copy_from_slice(from);
}

// Copies a table to the front of another, each record as it is behind `by` more.
fn copy_moved<T: Moved>(from: &[T], to: &mut [T], by: usize)
    requires room { length from.now ≤ length to.old }
    requires fits { (k : ℕ) → k < length from.now → by + slice_index (map T.Moved.number from.now) k < 65536 }
    ensures { to.new ≡ map (T.Moved.behind by) from.now ++ drop (length from.now) to.old }
{
    // By an index: after a loop over a zip with `to.iter_mut()`, nothing is known of `to` but its length.
    for (i, record) in from.iter().enumerate() {
        to[i] = record.moved(by);
    }
}

// Draws the chain of a path at the front of two tables, as it is behind so many places and slots.
// Two tables to write to: of a struct of two `&mut` slices, what a call does to a part of one could not be shown of the table.
fn draw_chain<F: Copy>(
    path: &[u64],
    places: &mut [PlaceRecord<F>],
    slots: &mut [SlotRecord],
    behind: Counts,
    any: F,
)
    requires places { (length path.now ≤ length places.old) × (behind.places + length path.now < 65536) }
    requires slots { (length path.now ≤ length slots.old) × (behind.slots + length path.now < 65536) }
    ensures places { places.new ≡ map (moved_place behind.slots) (chain any path.now).places ++ drop (length path.now) places.old }
    ensures slots { slots.new ≡ map (moved_slot behind.places) (chain any path.now).slots ++ drop (length path.now) slots.old }
{
    // By an index: after a loop over a zip with the `iter_mut()` of both tables, nothing is known of them but their lengths.
    for (i, name) in path.iter().enumerate() {
        places[i] = PlaceRecord {
            kind: any,
            before: (behind.slots + i) as u16,
            count: 1,
        };
        slots[i] = SlotRecord {
            name: *name,
            target: (behind.places + i + 1) as u16,
        };
    }
}

// Draws the add of a sheet at a path at the front of two tables, as it is behind so many places and slots.
fn draw_add<F: Copy>(
    path: &[u64],
    asked: Tables<'_, F>,
    places: &mut [PlaceRecord<F>],
    slots: &mut [SlotRecord],
    behind: Counts,
    any: F,
)
    requires asked { Formed (tables asked.places.now asked.slots.now) }
    requires places { (length path.now + length asked.places.now ≤ length places.old) × (behind.places + length path.now + length asked.places.now < 65536) }
    requires slots { (length path.now + length asked.slots.now ≤ length slots.old) × (behind.slots + length path.now + length asked.slots.now < 65536) }
    ensures places { places.new ≡ map (moved_place behind.slots) (chained any path.now (tables asked.entry.places.now asked.entry.slots.now)).places ++ drop (length path.now + length asked.entry.places.now) places.old }
    ensures slots { slots.new ≡ map (moved_slot behind.places) (chained any path.now (tables asked.entry.places.now asked.entry.slots.now)).slots ++ drop (length path.now + length asked.entry.slots.now) slots.old }
{
    let names = path.len();
    draw_chain(path, places, slots, behind, any);
    copy_moved(asked.places, &mut places[names..], behind.slots + names);
    copy_moved(asked.slots, &mut slots[names..], behind.places + names);
}

// Lays the standing sheet and the add of a sheet at a path side by side, from the first record of the work tables on.
pub fn lay_beside<F: Copy>(
    standing: Tables<'_, F>,
    path: &[u64],
    asked: Tables<'_, F>,
    work_places: &mut [PlaceRecord<F>],
    work_slots: &mut [SlotRecord],
    any: F,
)
    requires asked { Formed (tables asked.places.now asked.slots.now) }
    requires places { (length standing.places.now + length path.now + length asked.places.now ≤ length work_places.old) × (length standing.places.now + length path.now + length asked.places.now < 65536) }
    requires slots { (length standing.slots.now + length path.now + length asked.slots.now ≤ length work_slots.old) × (length standing.slots.now + length path.now + length asked.slots.now < 65536) }
    ensures { AddLaid any (tables standing.entry.places.now standing.entry.slots.now) path.now (tables asked.entry.places.now asked.entry.slots.now) (tables work_places.old work_slots.old) (tables work_places.new work_slots.new) }
{
    let behind = standing.counts();
    copy_front(standing.places, work_places);
    copy_front(standing.slots, work_slots);
    draw_add(
        path,
        asked,
        &mut work_places[behind.places..],
        &mut work_slots[behind.slots..],
        behind,
        any,
    );
}
