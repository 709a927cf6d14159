// Joining what the slots force: where two joined places both have a slot of one name, its targets are joined, until no more follows.
ghost use Rattle.std.specs.Prelude.{◌≡◌, ℕ, ◌+◌, ◌<◌, ◌≤◌, true, false, ◌↔◌, length};
ghost use Rattle.records.specs.Tables.{Edge};
ghost use Rattle.joining.specs.Forest.{Forest, Own, Same, Tells};
ghost use Rattle.joining.specs.Closure.{Agree, AgreeBelow, Closed, Closure, Covers, Grows, Pair};
ghost use Rattle.joining.specs.Rings.{Rings, Whole};

use crate::links::join;
use crate::rings::put;
use crate::sides::Sides;
use records::MOST_PLACES;

// What came of two places: whether anything was joined, and whether the second has every name that the first has. (Each may hold
// without the other.)
#[derive(Clone, Copy)]
struct Common {
    changed: bool,
    all: bool,
}

// Joins the targets of every name that both `x` and `y` have.
// That the links reach as far as the places is a clause, here and below, as the forest is: the two are lent apart, and no struct holds both.
fn join_common<F: Copy>(sides: &Sides<'_, F>, links: &mut [u16], x: usize, y: usize) -> Common
    requires room { length sides.now.tables.places.now ≤ length links.old }
    requires forest { Forest links.old }
    requires within { (x < length sides.now.tables.places.now) × (y < length sides.now.tables.places.now) }
    requires together { Same links.old x y }
    ensures grows { Grows (Edge sides.now.tables.places.now sides.now.tables.slots.now) links.old links.new }
    ensures agree { Agree (Edge sides.now.tables.places.now sides.now.tables.slots.now) links.new x y }
    ensures tells { Tells result.changed links.old links.new }
    ensures covers { result.all ≡ true → Covers (Edge sides.now.tables.places.now sides.now.tables.slots.now) y x }
{
    let mut left = sides.tables.slots_of(x);
    let mut right = sides.tables.slots_of(y);
    let mut changed = false;
    let mut all = true;
    while let ([s, after_s @ ..], [t, after_t @ ..]) = (left, right) {
        if s.name < t.name {
            all = false;
            left = after_s;
        } else if t.name < s.name {
            right = after_t;
        } else {
            changed |= join(links, s.target as usize, t.target as usize);
            left = after_s;
            right = after_t;
        }
    }
    all &= left.is_empty();
    Common { changed, all }
}

// Joins the targets of every name that `x` and a place before it in its ring both have, as far as a place that has all names of `x`:
// the places before that one were taken with it. Says whether anything changed.
fn follow_ring<F: Copy>(sides: &Sides<'_, F>, links: &mut [u16], ring: &[u16], x: usize) -> bool
    requires room { (length sides.now.tables.places.now ≤ length links.old) × (length sides.now.tables.places.now ≤ length ring.now) }
    requires forest { Forest links.old }
    requires within { x < length sides.now.tables.places.now }
    requires rings { Rings links.old ring.now (x + 1) }
    ensures grows { Grows (Edge sides.now.tables.places.now sides.now.tables.slots.now) links.old links.new }
    ensures agree { result ≡ false → Whole links.old ring.now (x + 1) → AgreeBelow (Edge sides.now.tables.places.now sides.now.tables.slots.now) links.old x → (y : ℕ) → y < x → Agree (Edge sides.now.tables.places.now sides.now.tables.slots.now) links.new x y }
    ensures tells { Tells result links.old links.new }
{
    let mut changed = false;
    let mut y = x;
    while (ring[y] as usize) < y {
        y = ring[y] as usize;
        let common = join_common(sides, links, x, y);
        changed |= common.changed;
        if common.all {
            return changed;
        }
    }
    changed
}

// Takes every place with the places joined with it, and says whether anything changed.
fn pass<F: Copy>(sides: &Sides<'_, F>, links: &mut [u16], ring: &mut [u16]) -> bool
    requires room { (length sides.now.tables.places.now ≤ length links.old) × ((length sides.now.tables.places.now ≤ length ring.old) × (length ring.old ≤ 65536)) }
    requires forest { Forest links.old }
    ensures grows { Grows (Edge sides.now.tables.places.now sides.now.tables.slots.now) links.old links.new }
    ensures closed { result ≡ false → Closed (Edge sides.now.tables.places.now sides.now.tables.slots.now) links.new }
    ensures tells { Tells result links.old links.new }
{
    let mut changed = false;
    // A turn takes no more of a place than its number.
    for x in 0..sides.tables.places.len() {
        put(links, ring, x);
        changed |= follow_ring(sides, links, ring, x);
    }
    changed
}

// Joins what the slots force: at the exit two places have one end exactly where the closure of the links at the entry joins them.
pub(crate) fn close<F: Copy>(sides: &Sides<'_, F>, links: &mut [u16])
    requires room { (length sides.now.tables.places.now ≤ length links.old) × (length sides.now.tables.places.now ≤ 1000) }
    requires forest { Forest links.old }
    ensures forest { Forest links.new }
    ensures least { (x y : ℕ) → Same links.new x y ↔ Closure (Edge sides.now.tables.places.now sides.now.tables.slots.now) (Same links.old) x y }
{
    // The library has no heap: the ring is fixed memory.
    let mut ring = [0u16; MOST_PLACES];
    while pass(sides, links, &mut ring) {}
}

// Unifies the places `a` and `b`: at the exit two places have one end exactly where the least closed equivalence of `a` and `b` joins them.
pub(crate) fn unify<F: Copy>(sides: &Sides<'_, F>, links: &mut [u16], a: usize, b: usize)
    requires room { (length sides.now.tables.places.now ≤ length links.old) × (length sides.now.tables.places.now ≤ 1000) }
    requires own { Own links.old }
    requires within { (a < length sides.now.tables.places.now) × (b < length sides.now.tables.places.now) }
    ensures forest { Forest links.new }
    ensures least { (x y : ℕ) → Same links.new x y ↔ Closure (Edge sides.now.tables.places.now sides.now.tables.slots.now) (Pair a b) x y }
{
    join(links, a, b);
    close(sides, links);
}
