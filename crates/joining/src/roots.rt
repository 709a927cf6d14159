// Joining two sheets side by side at their roots.
ghost use Rattle.std.specs.Prelude.{◌≡◌, ◌≤◌, length};
ghost use Rattle.joining.specs.Forest.{Forest, Own};
ghost use Rattle.joining.specs.Two.{EndsJoined, Two};

use crate::closing::unify;
use crate::sides::Sides;
use records::Tables;

// Joins the roots of two sheets side by side, the second from the place `second` on, and all that has to be joined with them.
pub fn join_roots<F: Copy>(tables: Tables<'_, F>, links: &mut [u16], second: usize)
    requires two { Two tables.places.now tables.slots.now second }
    requires room { (length tables.places.now ≤ length links.old) × (length tables.places.now ≤ 1000) }
    requires own { Own links.old }
    ensures forest { Forest links.new }
    ensures joined { (two : Two tables.entry.places.now tables.entry.slots.now second) → EndsJoined two.s two.t links.new }
{
    unify(&Sides { tables }, links, 0, second);
}
