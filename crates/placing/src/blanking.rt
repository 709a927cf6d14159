// Blanking a table as far as a sheet may reach.
ghost use Rattle.std.specs.Prelude.{◌≡◌, ◌-◌, ◌≤◌, min, ◌++◌, length, take, drop, replicate};

use asks::blank_from;

// Writes the blank record from an index up to the most records that a sheet may have, or to the end of a shorter table.
pub(crate) fn blank_past<T: Copy>(records: &mut [T], from: usize, most: usize, blank: T)
    requires { from ≤ min most (length records.old) }
    ensures { records.new ≡ take from records.old ++ replicate (min most (length records.old) - from) blank ++ drop most records.old }
{
    let upto = most.min(records.len());
    blank_from(records, from, upto, blank);
}
