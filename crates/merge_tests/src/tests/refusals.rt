// The refusals of an add and the order in which they are looked for; paths.
use super::drawings::{A, B, Drawing, alone, chain, counts, place, slot};
use super::standing::{check_merge, check_refused};
use faults::Fault;
use jobs::fault::JobFault;
use jobs::{Job, job_over};
use kinds::catalogue::Catalogue;
use kinds::kind::Kind;
use records::{Counts, PlaceRecord, SlotRecord, Tables};
use sheets::fault::SheetFault;
use sheets::sheet::Sheet;
use std::fmt::Debug;
use std::test::Fail;

#[test]
fn each_fault_has_its_number(rt: HostRuntime) {
    for (fault, number) in [
        (JobFault::NoRoom, 30),
        (JobFault::TooLarge, 31),
        (JobFault::Clash, 32),
        (JobFault::Sheet(SheetFault::TooMany), 28),
        (JobFault::Sheet(SheetFault::LongPath), 29),
        (JobFault::Sheet(SheetFault::NoPlace), 51),
        (JobFault::Sheet(SheetFault::WrongCounts), 52),
        (JobFault::Sheet(SheetFault::WrongNames), 53),
        (JobFault::Sheet(SheetFault::OtherNumbering), 54),
    ] {
        assert_eq!(rt; fault.number(), number);
    }
}

// What a job with room for as many places and two slots, where a bell stands if there is room for it, answers to the add at the
// path of a sheet of so many of the places, or of a sheet that shows nothing.
fn answer<'a>(
    room: usize,
    path: &[u64],
    places: &'a [PlaceRecord<u8>],
    slots: &'a [SlotRecord],
    place_count: usize,
) -> Result<Counts, JobFault> {
    let blank = place(Catalogue::Thing, 0, 0);
    let bell = [place(Catalogue::Bell, 0, 0)];
    let mut standing_places = [blank; 3];
    let mut standing_slots = [slot(0, 0); 2];
    let mut work_places = [blank; 3];
    let mut work_slots = [slot(0, 0); 2];
    let mut links = [0u16; 3];
    let mut job: Job<'_, Catalogue> = job_over!(
        &mut standing_places,
        &mut standing_slots,
        &mut work_places,
        &mut work_slots,
        &mut links[..room.min(3)],
        &mut [],
        &mut []
    );
    job.open();
    let mut first = Sheet::empty();
    first.check(alone(&bell), counts(1, 0))?;
    let _ = job.add(&[], &first);
    let mut sheet = Sheet::empty();
    let _ = sheet.check(Tables { places, slots }, counts(place_count, slots.len()));
    job.add(path, &sheet)
}

#[test]
fn the_first_fault_is_the_answer(rt: HostRuntime) {
    let tune = [place(Catalogue::Tune, 0, 0)];
    let long = [
        place(Catalogue::Tune, 0, 1),
        place(Catalogue::Thing, 1, 1),
        place(Catalogue::Thing, 2, 0),
    ];
    let slots = [slot(A, 1), slot(A, 2)];
    let no_place = Err(JobFault::Sheet(SheetFault::NoPlace));
    let long_path = Err(JobFault::Sheet(SheetFault::LongPath));
    let wrong_names = Err(JobFault::Sheet(SheetFault::WrongNames));
    let too_large = Err(JobFault::TooLarge);
    assert_eq!(rt;
        answer(0, &[0; 17], &long, &slots, 0),
        Err(JobFault::NoRoom)
    );
    assert_eq!(rt; answer(3, &[0; 17], &long, &slots, 0), no_place);
    assert_eq!(rt; answer(3, &[0; 17], &long, &slots, 3), long_path);
    assert_eq!(rt; answer(3, &[A, 0], &long, &slots, 3), wrong_names);
    assert_eq!(rt; answer(3, &[], &long, &slots, 3), too_large);
    assert_eq!(rt; answer(3, &[], &tune, &[], 1), Err(JobFault::Clash));
}

#[test]
fn with_room_for_one_place_every_add_is_too_large(rt: HostRuntime) {
    let blank = [place(Catalogue::Thing, 0, 0)];
    let counts = Counts {
        places: 1,
        slots: 0,
    };
    assert_eq!(rt; answer(1, &[], &blank, &[], 1), Err(JobFault::TooLarge));
    assert_eq!(rt; answer(1, &[A], &blank, &[], 1), Err(JobFault::TooLarge));
    assert_eq!(rt; answer(2, &[], &blank, &[], 1), Ok(counts));
}

#[test]
fn a_path_has_at_most_sixteen_names(rt: HostRuntime) -> Result<(), Fail> {
    let blank = chain(rt.alloc(), 0, Catalogue::Thing)?;
    let bell = chain(rt.alloc(), 0, Catalogue::Bell)?;
    let long = chain(rt.alloc(), 16, Catalogue::Bell)?;
    check_merge(&rt, &blank, &[A; 16], &bell, &long);
    check_refused(
        &rt,
        &blank,
        &[A; 17],
        &bell,
        JobFault::Sheet(SheetFault::LongPath),
    );
    Ok(())
}

#[test]
fn an_add_makes_the_places_of_its_path(rt: HostRuntime) -> Result<(), Fail> {
    let first = chain(rt.alloc(), 1, Catalogue::Ware)?;
    let bell = chain(rt.alloc(), 0, Catalogue::Bell)?;
    let merge = Drawing::new(
        rt.alloc(),
        &[
            place(Catalogue::Thing, 0, 1),
            place(Catalogue::Ware, 1, 1),
            place(Catalogue::Bell, 2, 0),
        ],
        &[slot(A, 1), slot(B, 2)],
    )?;
    check_merge(&rt, &first, &[A, B], &bell, &merge);
    Ok(())
}

#[test]
fn a_job_that_was_never_opened_has_no_room(rt: HostRuntime) -> Result<(), Fail> {
    let bell = [place(Catalogue::Bell, 0, 0)];
    let mut places = [place(Catalogue::Thing, 0, 0); 2];
    let mut work_places = [place(Catalogue::Thing, 0, 0); 2];
    let mut links = [0u16, 1];
    let mut sheet = Sheet::empty();
    let mut job: Job<'_, Catalogue> = job_over!(
        &mut places,
        &mut [],
        &mut work_places,
        &mut [],
        &mut links,
        &mut [],
        &mut []
    );
    sheet.check(alone(&bell), counts(1, 0))?;
    assert_eq!(rt; job.add(&[], &sheet), Err(JobFault::NoRoom));
    Ok(())
}
