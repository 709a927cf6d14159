// Two sheets side by side in the work tables, united: joined at their roots, given the meets of their kinds, and written out in
// canonical numbering. The links are held by a guard, which puts them back whichever way this ends.
ghost use Rattle.std.specs.Prelude.{◌≡◌, ℕ, ◌<◌, ◌≤◌, length, slice_index};
ghost use Rattle.std.specs.List.{range_with_len};
ghost use Rattle.std.specs.Result.{result_ok};
ghost use Rattle.joining.specs.Forest.{Forest, Own, end};
ghost use Rattle.joining.specs.Two.{Two};
ghost use Rattle.merging.specs.United.{United, UnitedPlaces, UnitedSlots};

use joining::{Links, end_of, join_roots};
use kinds::kind::Kind;
use meets::{Clash, meet_classes};
use numbering::number;
use records::{Counts, MOST_PLACES, PlaceRecord, SlotRecord, Tables};

// Writes the end of each place.
fn flatten(links: &[u16], ends: &mut [u16])
    requires forest { Forest links.now }
    requires within { (length links.now ≤ length ends.old) × (length links.now ≤ 65535) }
    ensures { (x : ℕ) → x < length links.now → slice_index ends.new x ≡ end links.now x }
{
    for (x, end) in ends[..links.len()].iter_mut().enumerate() {
        *end = end_of(links, x) as u16;
    }
}

// Writes the merge of two sheets side by side, the second from the place `second` on, and answers its counts; or says that they
// clash, and leaves the tables to write to as they were.
// Two tables to write to: of a struct of two `&mut` slices, what a call does to a part of one could not be shown of the table.
pub(crate) fn unite<K: Kind>(
    work_places: &mut [PlaceRecord<K::Form>],
    work_slots: &[SlotRecord],
    links: &mut [u16],
    second: usize,
    places: &mut [PlaceRecord<K::Form>],
    slots: &mut [SlotRecord],
) -> Result<Counts, Clash>
    requires two { Two work_places.old work_slots.now second }
    requires own { Own links.old }
    requires work { (length work_places.old ≡ length links.old) × ((length work_places.old ≤ 1000) × (length work_slots.now ≤ 4000)) }
    requires output { (length work_places.old ≤ length places.old) × (length work_slots.now ≤ length slots.old) }
    ensures answer { (two : Two work_places.old work_slots.now second) → United K.Kind.laws two.s two.t (result_ok result) places.new slots.new }
    ensures places { UnitedPlaces (length work_places.old) (result_ok result) places.old places.new }
    ensures slots { UnitedSlots (length work_slots.now) (result_ok result) slots.old slots.new }
    ensures links { links.new ≡ range_with_len 0 (length links.old) }
{
    let guard = Links(links);
    let sides = Tables {
        places: work_places,
        slots: work_slots,
    };
    join_roots(sides, guard.0, second);
    let mut ends = [0u16; MOST_PLACES];
    flatten(guard.0, &mut ends);
    meet_classes::<K>(work_places, &ends)?;
    let merged = Tables {
        places: work_places,
        slots: work_slots,
    };
    Ok(number(merged, &ends, places, slots))
}
