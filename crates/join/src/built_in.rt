// The sheets of the program that have more than one place.
use crate::draft::{Draft, OrderKind};
use anyhow::anyhow;
use either_kind::either::Either;
use kinds::catalogue::Catalogue;
use ranges::range::Range;
use std::alloc::Global;

// The kind of a place that holds volts.
fn volts(low: i32, high: i32) -> anyhow::Result<OrderKind> {
    let range = Range::new(low, high).map_err(|_| anyhow!("a range that is none"))?;
    Ok(Either::Second(range))
}

// (any north (outside_striker volts ([24..48])) south (striking volts ([12..24])))
pub(crate) fn strikers(heap: Global) -> anyhow::Result<Draft> {
    let mut draft = Draft::new(heap);
    draft.place(Either::Any, &[("north", 1), ("south", 2)])?;
    draft.place(Either::First(Catalogue::OutsideStriker), &[("volts", 3)])?;
    draft.place(Either::First(Catalogue::Striking), &[("volts", 4)])?;
    draft.leaf(volts(24, 48)?)?;
    draft.leaf(volts(12, 24)?)?;
    Ok(draft)
}

// (any north (any volts (#1 any)) south (any volts (#1)))
pub(crate) fn tied_volts(heap: Global) -> anyhow::Result<Draft> {
    let mut draft = Draft::new(heap);
    draft.place(Either::Any, &[("north", 1), ("south", 2)])?;
    draft.place(Either::Any, &[("volts", 3)])?;
    draft.place(Either::Any, &[("volts", 3)])?;
    draft.leaf(Either::Any)?;
    Ok(draft)
}
