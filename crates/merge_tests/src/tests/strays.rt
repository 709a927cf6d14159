// Kinds of the either of catalogue and range, and stored forms that are no kind's.
use super::drawings::{A, B, counts, slot};
use either_kind::either::{Either, EitherForm};
use jobs::{Job, job_over};
use kinds::catalogue::Catalogue;
use kinds::kind::Kind;
use ranges::range::{Range, RangeForm};
use records::{PlaceRecord, SlotRecord, Tables};
use sheets::sheet::Sheet;
use std::fmt::Debug;
use std::process::Abort;
use std::test::Fail;

type Form = EitherForm<u8, RangeForm>;

// The places of `(root a (first) b (second))`.
fn pair(root: Form, first: Form, second: Form) -> [PlaceRecord<Form>; 3] {
    [
        PlaceRecord {
            kind: root,
            before: 0,
            count: 2,
        },
        PlaceRecord {
            kind: first,
            before: 2,
            count: 0,
        },
        PlaceRecord {
            kind: second,
            before: 2,
            count: 0,
        },
    ]
}

fn form(tag: u8, first: u8, low: i32, high: i32) -> Form {
    EitherForm {
        tag,
        first,
        second: RangeForm { low, high },
    }
}

// The places of the merge of two such pairs.
fn merged(
    first: [PlaceRecord<Form>; 3],
    other: [PlaceRecord<Form>; 3],
) -> Result<[PlaceRecord<Form>; 6], Fail> {
    let slots = [slot(A, 1), slot(B, 2)];
    let old = PlaceRecord {
        kind: form(9, 9, 9, 9),
        before: 9,
        count: 9,
    };
    let mut places = [old; 6];
    let mut standing_slots = [slot(9, 9); 4];
    let mut work_places = [old; 6];
    let mut work_slots = [slot(9, 9); 4];
    let mut links = [9u16; 6];
    let all = counts(3, 2);
    let mut sheet = Sheet::empty();
    let mut job: Job<'_, Either<Catalogue, Range>> = job_over!(
        &mut places,
        &mut standing_slots,
        &mut work_places,
        &mut work_slots,
        &mut links,
        &mut [],
        &mut []
    );
    job.open();
    sheet.check(
        Tables {
            places: &first,
            slots: &slots,
        },
        all,
    )?;
    job.add(&[], &sheet)?;
    sheet.check(
        Tables {
            places: &other,
            slots: &slots,
        },
        all,
    )?;
    job.add(&[], &sheet)?;
    Ok(places)
}

fn check_pair(rt: &impl Abort, standing: [PlaceRecord<Form>; 6], wanted: [PlaceRecord<Form>; 3]) {
    let blank = PlaceRecord {
        kind: form(0, 0, i32::MIN, i32::MAX),
        before: 0,
        count: 0,
    };
    let [root, first, second] = wanted;
    assert_eq!(rt; standing, [root, first, second, blank, blank, blank]);
}

#[test]
fn stray_forms_are_merged_as_any_and_never_written(rt: HostRuntime) -> Result<(), Fail> {
    let any = form(0, 0, i32::MIN, i32::MAX);
    let bell = form(1, 13, i32::MIN, i32::MAX);
    let strays = pair(form(3, 0, 0, 0), form(1, 16, 0, 0), form(2, 0, 1, 0));
    let anys = pair(any, any, any);
    let kinds = pair(any, bell, form(2, 0, 24, 48));
    let others = pair(any, any, form(2, 0, 36, 60));
    check_pair(&rt, merged(strays, strays)?, anys);
    check_pair(&rt, merged(strays, kinds)?, kinds);
    check_pair(&rt, merged(kinds, strays)?, kinds);
    check_pair(
        &rt,
        merged(kinds, others)?,
        pair(any, bell, form(2, 0, 36, 48)),
    );
    Ok(())
}
