// The bytes of a name, held in place: what a number is spelt as.
ghost use Rattle.std.specs.Prelude.{◌≤◌, length};

use arrayvec::ArrayString;

pub mod of_number;

#[derive(Clone, Copy, Debug)]
pub struct Spelling {
    name: ArrayString<12>,
    ghost fits: { length name.bytes ≤ 12 },
}
