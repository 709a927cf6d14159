// Rings, chains, classes of many members, and sheets as large as a job can hold.
use super::drawings::{A, bundle, chain, ring, star};
use super::standing::{check_merge, check_refused};
use jobs::fault::JobFault;
use kinds::catalogue::Catalogue;
use std::test::Fail;

#[test]
fn two_rings_merge_into_one_of_their_common_divisor(rt: HostRuntime) -> Result<(), Fail> {
    for (first, other, common) in [
        (2, 3, 1),
        (4, 6, 2),
        (12, 18, 6),
        (400, 600, 200),
        (499, 501, 1),
    ] {
        check_merge(
            &rt,
            &ring(rt.alloc(), first)?,
            &[],
            &ring(rt.alloc(), other)?,
            &ring(rt.alloc(), common)?,
        );
    }
    Ok(())
}

#[test]
fn long_chains_meet_at_their_ends(rt: HostRuntime) -> Result<(), Fail> {
    let electrical = chain(rt.alloc(), 399, Catalogue::Electrical)?;
    let outdoor = chain(rt.alloc(), 399, Catalogue::Outdoor)?;
    let mover = chain(rt.alloc(), 399, Catalogue::OutdoorMover)?;
    let tune = chain(rt.alloc(), 399, Catalogue::Tune)?;
    check_merge(&rt, &electrical, &[], &outdoor, &mover);
    check_refused(&rt, &electrical, &[], &tune, JobFault::Clash);
    Ok(())
}

#[test]
fn fifty_places_tied_to_one_are_one(rt: HostRuntime) -> Result<(), Fail> {
    let electrical = star(rt.alloc(), 50, Catalogue::Electrical)?;
    let tie = bundle(rt.alloc(), 50, Catalogue::Outdoor)?;
    let mover = bundle(rt.alloc(), 50, Catalogue::OutdoorMover)?;
    check_merge(&rt, &electrical, &[], &tie, &mover);
    check_merge(&rt, &tie, &[], &electrical, &mover);
    Ok(())
}

#[test]
fn a_thousand_places_side_by_side_are_the_most(rt: HostRuntime) -> Result<(), Fail> {
    let first = chain(rt.alloc(), 499, Catalogue::Thing)?;
    let shorter = chain(rt.alloc(), 498, Catalogue::Bell)?;
    let bell = chain(rt.alloc(), 499, Catalogue::Bell)?;
    check_merge(&rt, &first, &[], &bell, &bell);
    check_merge(&rt, &first, &[A], &shorter, &bell);
    check_refused(&rt, &first, &[A], &bell, JobFault::TooLarge);
    Ok(())
}

#[test]
fn four_thousand_slots_side_by_side_are_the_most(rt: HostRuntime) -> Result<(), Fail> {
    let first = bundle(rt.alloc(), 2000, Catalogue::Striking)?;
    let more = bundle(rt.alloc(), 2001, Catalogue::Outdoor)?;
    let other = bundle(rt.alloc(), 2000, Catalogue::Outdoor)?;
    let striker = bundle(rt.alloc(), 2000, Catalogue::OutdoorStriker)?;
    check_merge(&rt, &first, &[], &other, &striker);
    check_refused(&rt, &first, &[], &more, JobFault::TooLarge);
    Ok(())
}
