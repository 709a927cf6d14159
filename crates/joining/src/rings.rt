// Rings: the places of a class, each leading to the one before it, and the end of the class to the latest, so that all places joined
// with one are found without a search.
ghost use Rattle.std.specs.Prelude.{◌+◌, ◌<◌, ◌≤◌, length};
ghost use Rattle.joining.specs.Forest.{Forest};
ghost use Rattle.joining.specs.Rings.{Rings, Whole};

use crate::links::end_of;

// Puts the place `x` into the ring of its end; all places before it are in theirs.
pub(crate) fn put(links: &[u16], ring: &mut [u16], x: usize)
    requires forest { Forest links.now }
    requires within { (x < length links.now) × ((x < length ring.old) × (length ring.old ≤ 65536)) }
    requires rings { Rings links.now ring.old x }
    ensures rings { Rings links.now ring.new (x + 1) }
    ensures whole { Whole links.now ring.old x → Whole links.now ring.new (x + 1) }
{
    let end = end_of(links, x);
    ring[x] = ring[end];
    ring[end] = x as u16;
}
