// A path: the numbers of its names, held in place.
ghost use Rattle.std.specs.Prelude.{◌≤◌};

use records::MOST_NAMES;

pub mod of_names;

// The path is the first `len` of the names. The length stands beside the array: a path is `Copy`, and an `ArrayVec` is not.
#[derive(Clone, Copy)]
pub struct Path {
    names: [u64; MOST_NAMES],
    len: usize,
    ghost fits: { len ≤ 16 },
}
