// Jobs opened by callers on tables of their own: what the callers then know of each table, and runs at both sides of each limit.
#![tactic(auto)]

ghost use Rattle.std.specs.Prelude.{◌≡◌, min, [], ◌∷◌, length};
ghost use Rattle.records.specs.Tables.{blank_slot};
ghost use Rattle.records.specs.Sheets.{blank_place};
ghost use Rattle.jobs.specs.Contents.{blanked, numbered};
ghost use Rattle.job_tests.specs.Rooms.{places_on, slots_on};

use jobs::{Job, job_over};
use kinds::catalogue::Catalogue;
use kinds::kind::Kind;
use records::{Counts, PlaceRecord, SlotRecord};

#[cfg(test)]
mod tests;

// Opens a job on lent tables, at any type of kind, and answers its counts.
pub fn opened<K: Kind>(
    places: &mut [PlaceRecord<K::Form>],
    slots: &mut [SlotRecord],
    work_places: &mut [PlaceRecord<K::Form>],
    work_slots: &mut [SlotRecord],
    links: &mut [u16],
    shelf_places: &mut [PlaceRecord<K::Form>],
    shelf_slots: &mut [SlotRecord],
) -> Counts
    ensures places { places.new ≡ blanked (places_on places.old work_places.old links.old) (places_on places.old work_places.old links.old) (blank_place K.Kind.laws) places.old }
    ensures slots { slots.new ≡ blanked (places_on places.old work_places.old links.old) (slots_on slots.old work_slots.old) blank_slot slots.old }
    ensures work_places { work_places.new ≡ blanked (places_on places.old work_places.old links.old) (places_on places.old work_places.old links.old) (blank_place K.Kind.laws) work_places.old }
    ensures work_slots { work_slots.new ≡ blanked (places_on places.old work_places.old links.old) (slots_on slots.old work_slots.old) blank_slot work_slots.old }
    ensures links { links.new ≡ numbered (places_on places.old work_places.old links.old) links.old }
    ensures shelf_places { shelf_places.new ≡ blanked (places_on places.old work_places.old links.old) (min 8000 (length shelf_places.old)) (blank_place K.Kind.laws) shelf_places.old }
    ensures shelf_slots { shelf_slots.new ≡ blanked (places_on places.old work_places.old links.old) (min 32000 (length shelf_slots.old)) blank_slot shelf_slots.old }
    ensures counts { (result.places ≡ min (places_on places.old work_places.old links.old) 1) × (result.slots ≡ 0) }
{
    let mut job: Job<'_, K> = job_over!(
        places,
        slots,
        work_places,
        work_slots,
        links,
        shelf_places,
        shelf_slots
    );
    job.open();
    job.counts()
}

// The links of a job with room for three places, whatever its links held; it is opened twice.
pub fn three_links() -> [u16; 5]
    ensures { result ≡ 0 ∷ 1 ∷ 2 ∷ 9 ∷ 9 ∷ [] }
{
    let place = PlaceRecord {
        kind: 7u8,
        before: 3,
        count: 0,
    };
    let slot = SlotRecord { name: 5, target: 1 };
    let mut places = [place; 3];
    let mut slots = [slot; 2];
    let mut work_places = [place; 4];
    let mut work_slots = [slot; 2];
    let mut links = [9u16; 5];
    let mut shelf_places = [place; 2];
    let mut shelf_slots = [slot; 2];
    let mut job: Job<'_, Catalogue> = job_over!(
        &mut places,
        &mut slots,
        &mut work_places,
        &mut work_slots,
        &mut links,
        &mut shelf_places,
        &mut shelf_slots
    );
    job.open();
    job.open();
    links
}

// The standing places of a job with room for two, and what they held before past these.
pub fn three_places() -> [PlaceRecord<u8>; 3]
    ensures { result ≡ record { kind = 0; before = 0; count = 0 } ∷ record { kind = 0; before = 0; count = 0 } ∷ record { kind = 7; before = 3; count = 1 } ∷ [] }
{
    let place = PlaceRecord {
        kind: 7u8,
        before: 3,
        count: 1,
    };
    let mut places = [place; 3];
    let mut work_places = [place; 2];
    let mut links = [9u16; 4];
    let mut job: Job<'_, Catalogue> = job_over!(
        &mut places,
        &mut [],
        &mut work_places,
        &mut [],
        &mut links,
        &mut [],
        &mut []
    );
    job.open();
    places
}

// The shelf of a job with no room for a place.
pub fn shelf_without_room() -> [SlotRecord; 2]
    ensures { result ≡ record { name = 5; target = 1 } ∷ record { name = 5; target = 1 } ∷ [] }
{
    let place = PlaceRecord {
        kind: 7u8,
        before: 3,
        count: 1,
    };
    let slot = SlotRecord { name: 5, target: 1 };
    let mut places = [place; 3];
    let mut work_places = [place; 2];
    let mut shelf_slots = [slot; 2];
    let mut job: Job<'_, Catalogue> = job_over!(
        &mut places,
        &mut [],
        &mut work_places,
        &mut [],
        &mut [],
        &mut [],
        &mut shelf_slots
    );
    job.open();
    shelf_slots
}
