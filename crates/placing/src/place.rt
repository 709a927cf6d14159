// Reading a line of one place: its draft is read, arranged in the work tables, and numbered into the caller's tables.
ghost use Rattle.std.specs.Prelude.{◌≡◌, ◌≤◌, min, length, drop};
ghost use Rattle.records.specs.Tables.{blank_slot};
ghost use Rattle.records.specs.Sheets.{blank_place};
ghost use Rattle.reading.specs.Steps.{read_place};
ghost use Rattle.placing.specs.Arranged.{Sound, drafted};
ghost use Rattle.placing.specs.Reading.{ReadAs, ReadInto, SheetRead, blank_draft, places_read, room, slots_read, worked};

use crate::arranging::{Draft, arrange};
use crate::blanking::blank_past;
use kinds::kind::Kind;
use reading::draft::{Place, Slot, Target};
use reading::drafting::read_draft;
use reading::fault::ReadFault;
use records::{
    Counts, MOST_PLACES, MOST_SLOTS, PlaceRecord, SlotRecord, Tables, no_place, no_slot,
};
use renumbering::renumber;
use vocabulary::vocabulary::Vocabulary;

// Writes the sheet that a draft describes, and answers its counts.
// Two tables to write to: of a struct of two `&mut` slices, what a call does to a part of one could not be shown of the table.
fn write_sheet<K: Kind>(
    draft: Draft<'_, K>,
    places: &mut [PlaceRecord<K::Form>],
    slots: &mut [SlotRecord],
    work_places: &mut [PlaceRecord<K::Form>],
    work_slots: &mut [SlotRecord],
) -> Counts
    requires sound { Sound (drafted draft.places.now draft.slots.now) }
    requires places { (length draft.places.now ≤ 1000) × ((length draft.places.now ≤ length places.old) × (length draft.places.now ≤ length work_places.old)) }
    requires slots { (length draft.slots.now ≤ 4000) × ((length draft.slots.now ≤ length slots.old) × (length draft.slots.now ≤ length work_slots.old)) }
    ensures counts { (result.places ≡ length draft.entry.places.now) × (result.slots ≡ length draft.entry.slots.now) }
    ensures sheet { SheetRead K.Kind.laws (drafted draft.entry.places.now draft.entry.slots.now) result places.new slots.new }
    ensures places { drop result.places places.new ≡ drop result.places places.old }
    ensures slots { drop result.slots slots.new ≡ drop result.slots slots.old }
    ensures work_places { drop 1000 work_places.new ≡ drop 1000 work_places.old }
    ensures work_slots { drop 4000 work_slots.new ≡ drop 4000 work_slots.old }
{
    let n = draft.places.len();
    let m = draft.slots.len();
    arrange::<K>(draft, &mut work_places[..n], &mut work_slots[..m]);
    let arranged = Tables {
        places: &work_places[..n],
        slots: &work_slots[..m],
    };
    renumber(arranged, places, slots).unwrap()
}

// Reads a line, with tables for its draft: they say how many places and slots it may have.
fn read_with<K: Kind, V: Vocabulary<K>>(
    line: &[u8],
    draft_places: &mut [Place<K>],
    draft_slots: &mut [Slot],
    places: &mut [PlaceRecord<K::Form>],
    slots: &mut [SlotRecord],
    work_places: &mut [PlaceRecord<K::Form>],
    work_slots: &mut [SlotRecord],
) -> Result<Counts, ReadFault>
    requires places { (length draft_places.old ≤ 1000) × ((length draft_places.old ≤ length places.old) × (length draft_places.old ≤ length work_places.old)) }
    requires slots { (length draft_slots.old ≤ 4000) × ((length draft_slots.old ≤ length slots.old) × (length draft_slots.old ≤ length work_slots.old)) }
    ensures answer { ReadAs K.Kind.laws (read_place V.Vocabulary.words V.Vocabulary.ranges (length draft_places.old) (length draft_slots.old) line.now) result places.new slots.new }
    ensures within { (places_read result ≤ length draft_places.old) × (slots_read result ≤ length draft_slots.old) }
    ensures places { drop (places_read result) places.new ≡ drop (places_read result) places.old }
    ensures slots { drop (slots_read result) slots.new ≡ drop (slots_read result) slots.old }
    ensures work_places { drop 1000 work_places.new ≡ drop 1000 work_places.old }
    ensures work_slots { drop 4000 work_slots.new ≡ drop 4000 work_slots.old }
{
    let cursor = read_draft::<K, V>(line, draft_places, draft_slots)?;
    let draft = Draft {
        places: &draft_places[..cursor.places],
        slots: &draft_slots[..cursor.slots],
    };
    Ok(write_sheet::<K>(draft, places, slots, work_places, work_slots))
}

// The draft of no place: the greatest kind, and no tag.
fn no_draft<K: Kind>() -> Place<K>
    ensures { result ≡ blank_draft K.Kind.top }
{
    Place {
        kind: K::greatest(),
        parent: 0,
        tag: None,
    }
}

// A table for the slots of a draft.
fn slot_drafts() -> [Slot; MOST_SLOTS]
    ensures { length result ≡ 4000 }
{
    [Slot {
        owner: 0,
        name: 0,
        target: Target::To(0),
    }; MOST_SLOTS]
}

// How many places and slots were read.
fn counts_read(read: Result<Counts, ReadFault>) -> Counts
    ensures places { result.places ≡ places_read read }
    ensures slots { result.slots ≡ slots_read read }
{
    read.unwrap_or_default()
}

// Reads a line of one place into the tables, and answers the counts of its sheet, or a refusal. A sheet has no more places and slots
// than the tables, the work tables and the table of drafts have room for. Past the sheet the tables are blank, and so are the others.
pub fn read_place<K: Kind, V: Vocabulary<K>>(
    line: &[u8],
    places: &mut [PlaceRecord<K::Form>],
    slots: &mut [SlotRecord],
    work_places: &mut [PlaceRecord<K::Form>],
    work_slots: &mut [SlotRecord],
    drafts: &mut [Place<K>],
) -> Result<Counts, ReadFault>
    ensures answer { ReadAs K.Kind.laws (read_place V.Vocabulary.words V.Vocabulary.ranges (room 1000 (length places.old) (min (length work_places.old) (length drafts.old))) (room 4000 (length slots.old) (length work_slots.old)) line.now) result places.new slots.new }
    ensures places { ReadInto (blank_place K.Kind.laws) 1000 (places_read result) places.old places.new }
    ensures slots { ReadInto blank_slot 4000 (slots_read result) slots.old slots.new }
    ensures work_places { work_places.new ≡ worked (blank_place K.Kind.laws) 1000 work_places.old }
    ensures work_slots { work_slots.new ≡ worked blank_slot 4000 work_slots.old }
    ensures drafts { drafts.new ≡ worked (blank_draft K.Kind.top) 1000 drafts.old }
{
    let mut named = slot_drafts();
    let most_places = MOST_PLACES.min(places.len().min(work_places.len().min(drafts.len())));
    let most_slots = MOST_SLOTS.min(slots.len().min(work_slots.len()));
    let read = read_with::<K, V>(
        line,
        &mut drafts[..most_places],
        &mut named[..most_slots],
        places,
        slots,
        work_places,
        work_slots,
    );
    let counts = counts_read(read);
    blank_past(places, counts.places, MOST_PLACES, no_place::<K>());
    blank_past(slots, counts.slots, MOST_SLOTS, no_slot());
    blank_past(work_places, 0, MOST_PLACES, no_place::<K>());
    blank_past(work_slots, 0, MOST_SLOTS, no_slot());
    blank_past(drafts, 0, MOST_PLACES, no_draft::<K>());
    read
}
