// Small orders, record for record.
use super::drawings::{A, B, Drawing, chain, place, ring, slot};
use super::standing::{check_merge, check_refused};
use jobs::fault::JobFault;
use kinds::catalogue::Catalogue;
use std::test::Fail;

// `(any a (first) b (second))`.
fn pair(rt: &HostRuntime, first: Catalogue, second: Catalogue) -> Result<Drawing, Fail> {
    let places = [
        place(Catalogue::Thing, 0, 2),
        place(first, 2, 0),
        place(second, 2, 0),
    ];
    let slots = [slot(A, 1), slot(B, 2)];
    Ok(Drawing::new(rt.alloc(), &places, &slots)?)
}

// `(any a (#1 kind) b (#1))`.
fn tied(rt: &HostRuntime, kind: Catalogue) -> Result<Drawing, Fail> {
    let places = [place(Catalogue::Thing, 0, 2), place(kind, 2, 0)];
    let slots = [slot(A, 1), slot(B, 1)];
    Ok(Drawing::new(rt.alloc(), &places, &slots)?)
}

#[test]
fn two_bells_tied_are_one_bell(rt: HostRuntime) -> Result<(), Fail> {
    let bells = pair(&rt, Catalogue::Bell, Catalogue::Bell)?;
    let tie = tied(&rt, Catalogue::Thing)?;
    let bell = tied(&rt, Catalogue::Bell)?;
    check_merge(&rt, &bells, &[], &tie, &bell);
    check_merge(&rt, &tie, &[], &bells, &bell);
    Ok(())
}

#[test]
fn a_chain_closes_up_on_a_place_that_leads_to_itself(rt: HostRuntime) -> Result<(), Fail> {
    let circle = ring(rt.alloc(), 1)?;
    let bell = chain(rt.alloc(), 2, Catalogue::Bell)?;
    let merge = Drawing::new(rt.alloc(), &[place(Catalogue::Bell, 0, 1)], &[slot(A, 0)])?;
    check_merge(&rt, &circle, &[], &bell, &merge);
    check_merge(&rt, &bell, &[], &circle, &merge);
    Ok(())
}

#[test]
fn a_bell_and_a_tune_tied_clash(rt: HostRuntime) -> Result<(), Fail> {
    let both = pair(&rt, Catalogue::Bell, Catalogue::Tune)?;
    let tie = tied(&rt, Catalogue::Thing)?;
    check_refused(&rt, &both, &[], &tie, JobFault::Clash);
    check_refused(&rt, &tie, &[], &both, JobFault::Clash);
    Ok(())
}
