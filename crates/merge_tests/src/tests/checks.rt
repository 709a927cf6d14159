// The check of a table.
use super::drawings::{A, B, Drawing, alone, bundle, chain, counts, place, slot};
use kinds::catalogue::Catalogue;
use records::{Counts, PlaceRecord, SlotRecord, Tables};
use sheets::fault::SheetFault;
use sheets::sheet::Sheet;
use std::process::Abort;
use std::test::Fail;

fn checked<'a>(
    places: &'a [PlaceRecord<u8>],
    slots: &'a [SlotRecord],
    place_count: usize,
    slot_count: usize,
) -> Result<(), SheetFault> {
    let mut sheet: Sheet<'_, Catalogue> = Sheet::empty();
    sheet.check(Tables { places, slots }, counts(place_count, slot_count))
}

// A place of any kind.
fn any(before: u16, count: u16) -> PlaceRecord<u8> {
    place(Catalogue::Thing, before, count)
}

// The check of all records of a drawing.
fn check_all(rt: &impl Abort, drawing: &Drawing, wanted: Result<(), SheetFault>) {
    let Counts { places, slots } = drawing.counts();
    assert_eq!(rt;
        checked(&drawing.places, &drawing.slots, places, slots),
        wanted
    );
}

#[test]
fn a_sheet_has_at_most_1000_places_and_4000_slots(rt: HostRuntime) -> Result<(), Fail> {
    let many = Err(SheetFault::TooMany);
    check_all(&rt, &chain(rt.alloc(), 999, Catalogue::Bell)?, Ok(()));
    check_all(&rt, &chain(rt.alloc(), 1000, Catalogue::Bell)?, many);
    check_all(&rt, &bundle(rt.alloc(), 4000, Catalogue::Bell)?, Ok(()));
    check_all(&rt, &bundle(rt.alloc(), 4001, Catalogue::Bell)?, many);
    Ok(())
}

#[test]
fn the_counts_are_within_the_tables(rt: HostRuntime) {
    let many = Err(SheetFault::TooMany);
    assert_eq!(rt; checked(&[], &[], 0, 4001), Err(SheetFault::NoPlace));
    assert_eq!(rt; checked(&[any(0, 0)], &[], 2, 0), many);
    assert_eq!(rt; checked(&[any(0, 2)], &[slot(A, 0)], 1, 2), many);
    assert_eq!(rt; checked(&[any(1, 0)], &[], 2, 0), many);
}

#[test]
fn counts_are_sums_that_do_not_wrap(rt: HostRuntime) {
    let wrong = Err(SheetFault::WrongCounts);
    assert_eq!(rt; checked(&[any(1, 0)], &[], 1, 0), wrong);
    assert_eq!(rt; checked(&[any(0, 1)], &[slot(A, 0)], 1, 0), wrong);
    assert_eq!(rt; checked(&[any(0, 65535), any(65535, 1)], &[], 2, 0), wrong);
    assert_eq!(rt; checked(&[any(0, 1)], &[slot(0, 1)], 1, 1), wrong);
}

#[test]
fn names_rise_within_a_place_only(rt: HostRuntime) {
    let wrong = Err(SheetFault::WrongNames);
    let circle = [any(0, 2)];
    assert_eq!(rt; checked(&circle, &[slot(A, 0), slot(A, 0)], 1, 2), wrong);
    assert_eq!(rt; checked(&circle, &[slot(B, 0), slot(A, 0)], 1, 2), wrong);
    assert_eq!(rt;
        checked(&[any(0, 1), any(1, 0)], &[slot(0, 0)], 2, 1),
        wrong
    );
    let two = [any(0, 1), any(1, 1)];
    assert_eq!(rt; checked(&two, &[slot(B, 1), slot(A, 0)], 2, 2), Ok(()));
}

#[test]
fn places_are_numbered_by_the_slots_in_turn(rt: HostRuntime) {
    let other = Err(SheetFault::OtherNumbering);
    let three = [any(0, 2), any(2, 0), any(2, 0)];
    assert_eq!(rt; checked(&[any(0, 0), any(0, 0)], &[], 2, 0), other);
    assert_eq!(rt; checked(&three, &[slot(A, 2), slot(B, 1)], 3, 2), other);
    assert_eq!(rt; checked(&three, &[slot(A, 1), slot(B, 2)], 3, 2), Ok(()));
}

#[test]
fn a_refused_check_leaves_the_sheet(rt: HostRuntime) -> Result<(), Fail> {
    let bell = [place(Catalogue::Bell, 0, 0)];
    let wrong = [place(Catalogue::Tune, 1, 0)];
    let mut sheet: Sheet<'_, Catalogue> = Sheet::empty();
    assert_eq!(rt;
        sheet.check(alone(&wrong), counts(1, 0)),
        Err(SheetFault::WrongCounts)
    );
    assert!(rt; sheet.is_empty());
    sheet.check(alone(&bell), counts(1, 0))?;
    assert_eq!(rt;
        sheet.check(alone(&wrong), counts(1, 0)),
        Err(SheetFault::WrongCounts)
    );
    assert_eq!(rt; sheet.places(), &bell[..]);
    assert!(rt; sheet.slots().is_empty());
    Ok(())
}
