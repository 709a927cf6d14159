// Blanking a part of a table: what a call leaves of the work tables, and past the sheet that stands.
ghost use Rattle.std.specs.Prelude.{◌≡◌, ◌-◌, ◌≤◌, max, ◌++◌, length, take, drop, replicate};

// Writes the blank record from an index up to another, and nothing where that is not further on.
pub fn blank_from<T: Copy>(records: &mut [T], from: usize, upto: usize, blank: T)
    requires { upto ≤ length records.old }
    ensures { records.new ≡ take from records.old ++ replicate (upto - from) blank ++ drop (max from upto) records.old }
{
    let from = from.min(upto);
    // `fill` would ask for a clone that cannot fail, which `Copy` alone does not say.
    for record in &mut records[from..upto] {
        *record = blank;
    }
}
