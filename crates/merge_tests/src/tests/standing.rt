// A job on tables longer than its limits, and what stands in them.
use super::drawings::Drawing;
use jobs::fault::JobFault;
use jobs::{Job, job_over};
use kinds::catalogue::Catalogue;
use kinds::kind::Kind;
use records::{Counts, PlaceRecord, SlotRecord};
use sheets::sheet::Sheet;
use std::fmt::Debug;
use std::process::Abort;

const NO_PLACE: PlaceRecord<u8> = PlaceRecord {
    kind: 0,
    before: 0,
    count: 0,
};

const OLD_PLACE: PlaceRecord<u8> = PlaceRecord {
    kind: 7,
    before: 3,
    count: 1,
};

const NO_SLOT: SlotRecord = SlotRecord { name: 0, target: 0 };

const OLD_SLOT: SlotRecord = SlotRecord { name: 5, target: 1 };

// A table holds the records, then blank ones up to its limit, and past it what it held at first.
fn check_table<T: Copy + PartialEq + Debug>(
    rt: &impl Abort,
    table: &[T],
    records: &[T],
    limit: usize,
    blank: T,
    old: T,
) {
    for (i, record) in table.iter().enumerate() {
        let wanted = if i < limit {
            records.get(i).copied().unwrap_or(blank)
        } else {
            old
        };
        assert_eq!(rt; *record, wanted);
    }
}

// Adds the first sheet to a new job on the tables and then the other at the path.
fn add_both<'a>(
    first: &'a Drawing,
    path: &[u64],
    other: &'a Drawing,
    places: &mut [PlaceRecord<u8>],
    slots: &mut [SlotRecord],
    work_places: &mut [PlaceRecord<u8>],
    work_slots: &mut [SlotRecord],
    links: &mut [u16],
    shelf_places: &mut [PlaceRecord<u8>],
    shelf_slots: &mut [SlotRecord],
) -> Result<Counts, JobFault> {
    let mut sheet = Sheet::empty();
    let mut job: Job<'_, Catalogue> = job_over!(
        places,
        slots,
        work_places,
        work_slots,
        links,
        shelf_places,
        shelf_slots
    );
    job.open();
    sheet.check(first.tables(), first.counts())?;
    job.add(&[], &sheet)?;
    sheet.check(other.tables(), other.counts())?;
    job.add(path, &sheet)
}

// What the second of these adds answers. After it the given sheet stands, and the other tables are blank as far as a job uses
// them.
fn added<'a>(
    rt: &impl Abort,
    first: &'a Drawing,
    path: &[u64],
    other: &'a Drawing,
    stands: &Drawing,
) -> Result<Counts, JobFault> {
    let mut places = [OLD_PLACE; 1001];
    let mut slots = [OLD_SLOT; 4001];
    let mut work_places = [OLD_PLACE; 1001];
    let mut work_slots = [OLD_SLOT; 4001];
    let mut links = [9u16; 1001];
    let mut shelf_places = [OLD_PLACE; 2];
    let mut shelf_slots = [OLD_SLOT; 2];
    let answer = add_both(
        first,
        path,
        other,
        &mut places,
        &mut slots,
        &mut work_places,
        &mut work_slots,
        &mut links,
        &mut shelf_places,
        &mut shelf_slots,
    );
    check_table(rt, &places, &stands.places, 1000, NO_PLACE, OLD_PLACE);
    check_table(rt, &slots, &stands.slots, 4000, NO_SLOT, OLD_SLOT);
    check_table(rt, &work_places, &[], 1000, NO_PLACE, OLD_PLACE);
    check_table(rt, &work_slots, &[], 4000, NO_SLOT, OLD_SLOT);
    check_table(rt, &shelf_places, &[], 2, NO_PLACE, OLD_PLACE);
    check_table(rt, &shelf_slots, &[], 2, NO_SLOT, OLD_SLOT);
    check_links(rt, &links);
    answer
}

// The other sheet, added to the first at the path, gives the merge.
pub fn check_merge(
    rt: &impl Abort,
    first: &Drawing,
    path: &[u64],
    other: &Drawing,
    merge: &Drawing,
) {
    assert_eq!(rt; added(rt, first, path, other, merge), Ok(merge.counts()));
}

// The other sheet, added to the first at the path, is refused, and the tables stay.
pub fn check_refused(
    rt: &impl Abort,
    first: &Drawing,
    path: &[u64],
    other: &Drawing,
    fault: JobFault,
) {
    assert_eq!(rt; added(rt, first, path, other, first), Err(fault));
}

// The links up to the limit hold their own numbers.
fn check_links(rt: &impl Abort, links: &[u16]) {
    for (i, link) in links.iter().enumerate() {
        let wanted = if i < 1000 { i } else { 9 };
        assert_eq!(rt; usize::from(*link), wanted);
    }
}
