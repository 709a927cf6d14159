// The merge core: the standing sheet and an ask are put side by side in the work tables, joined, given the meets of their kinds and
// numbered, and the result is written over the standing sheet. Called by jobs alone: what it requires is what a job's invariant gives.
#![tactic(auto)]

mod uniting;

ghost use Rattle.std.specs.Prelude.{◌≡◌, ℕ, ◌+◌, ◌<◌, ◌≤◌, length, take, slice_index};
ghost use Rattle.std.specs.Result.{result_ok};
ghost use Rattle.records.specs.Tables.{WellFormed, blank_slot};
ghost use Rattle.records.specs.Sheets.{blank_place, sheet_of};
ghost use Rattle.asks.specs.Asks.{chained};
ghost use Rattle.merging.specs.Core.{Merges, PlacesAfter, SlotsAfter, Within, Worked};
ghost use Rattle.merging.specs.United.{ClearedPlaces, ClearedSlots};

use asks::{blank_from, lay_beside};
use kinds::kind::Kind;
use meets::Clash;
use records::{Counts, PlaceRecord, SlotRecord, Tables, no_place, no_slot};
use uniting::unite;

// Blanks what is left of the standing sheet past the one that was written over it.
// Two tables to write to: of a struct of two `&mut` slices, what a call does to a part of one could not be shown of the table.
fn blank_past<K: Kind>(
    places: &mut [PlaceRecord<K::Form>],
    slots: &mut [SlotRecord],
    standing: Counts,
    made: Result<Counts, Clash>,
)
    requires { (standing.places ≤ length places.old) × (standing.slots ≤ length slots.old) }
    ensures places { ClearedPlaces (blank_place K.Kind.laws) standing.places (result_ok made) places.old places.new }
    ensures slots { ClearedSlots standing.slots (result_ok made) slots.old slots.new }
{
    if let Ok(counts) = made {
        blank_from(places, counts.places, standing.places, no_place::<K>());
        blank_from(slots, counts.slots, standing.slots, no_slot());
    }
}

// Puts the merge of the standing sheet and the add of a sheet at a path in the standing sheet's place, and answers its counts; or
// says that they clash, and leaves the standing tables as they were. Either way the work records that it used are blank,
// and each link holds its own number.
pub fn merge<K: Kind>(
    places: &mut [PlaceRecord<K::Form>],
    slots: &mut [SlotRecord],
    standing: Counts,
    path: &[u64],
    asked: Tables<'_, K::Form>,
    work_places: &mut [PlaceRecord<K::Form>],
    work_slots: &mut [SlotRecord],
    links: &mut [u16],
) -> Result<Counts, Clash>
    requires stands { WellFormed (take standing.places places.old) (take standing.slots slots.old) }
    requires counted { (standing.places ≤ length places.old) × (standing.slots ≤ length slots.old) }
    requires asked { WellFormed asked.places.now asked.slots.now }
    requires places { (standing.places + length path.now + length asked.places.now ≤ length places.old) × ((standing.places + length path.now + length asked.places.now ≤ length work_places.old) × ((standing.places + length path.now + length asked.places.now ≤ length links.old) × (standing.places + length path.now + length asked.places.now ≤ 1000))) }
    requires slots { (standing.slots + length path.now + length asked.slots.now ≤ length slots.old) × ((standing.slots + length path.now + length asked.slots.now ≤ length work_slots.old) × (standing.slots + length path.now + length asked.slots.now ≤ 4000)) }
    requires own { (x : ℕ) → x < standing.places + length path.now + length asked.places.now → slice_index links.old x ≡ x }
    ensures answer { Merges K.Kind.laws (sheet_of K.Kind.laws (take standing.places places.old) (take standing.slots slots.old)) (chained K.Kind.top path.now (sheet_of K.Kind.laws asked.entry.places.now asked.entry.slots.now)) (result_ok result) places.new slots.new }
    ensures within { Within (standing.places + length path.now + length asked.entry.places.now) (standing.slots + length path.now + length asked.entry.slots.now) (result_ok result) }
    ensures places { PlacesAfter (blank_place K.Kind.laws) standing.places (result_ok result) places.old places.new }
    ensures slots { SlotsAfter standing.slots (result_ok result) slots.old slots.new }
    ensures work_places { Worked (blank_place K.Kind.laws) (standing.places + length path.now + length asked.entry.places.now) work_places.old work_places.new }
    ensures work_slots { Worked blank_slot (standing.slots + length path.now + length asked.entry.slots.now) work_slots.old work_slots.new }
    ensures links { links.new ≡ links.old }
{
    let n = standing.places;
    let m = standing.slots;
    let all_places = n + path.len() + asked.places.len();
    let all_slots = m + path.len() + asked.slots.len();
    let stands = Tables {
        places: &places[..n],
        slots: &slots[..m],
    };
    lay_beside(
        stands,
        path,
        asked,
        work_places,
        work_slots,
        K::greatest().store(),
    );
    let made = unite::<K>(
        &mut work_places[..all_places],
        &work_slots[..all_slots],
        &mut links[..all_places],
        n,
        places,
        slots,
    );
    blank_past::<K>(places, slots, standing, made);
    blank_from(work_places, 0, all_places, no_place::<K>());
    blank_from(work_slots, 0, all_slots, no_slot());
    made
}
