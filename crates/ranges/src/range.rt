// A range of whole numbers, and the form in which a record holds one.
ghost use Rattle.std.specs.Prelude.{pos, negsuc, ◌≤ℤ◌};

pub mod kind;

// The whole numbers from `low` to `high`, both included. The low end is never above the high end.
#[derive(Clone, Copy, PartialEq, Eq, Debug)]
pub struct Range {
    low: i32,
    high: i32,
    ghost ends: { (negsuc 2147483647 ≤ℤ low) × (low ≤ℤ high) × (high ≤ℤ pos 2147483647) },
}

// Two plain numbers, in any order: what a record holds for a range.
#[derive(Clone, Copy, PartialEq, Eq, Debug)]
pub struct RangeForm {
    pub low: i32,
    pub high: i32,
}
