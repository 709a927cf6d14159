// The classes of joined places, each as a list, so that a class is gone through without looking at all places.
ghost use Rattle.std.specs.Prelude.{◌≡◌, ℕ, ◌<◌, ◌≤◌, None, length};
ghost use Rattle.numbering.specs.Quotient.{Graph, at};
ghost use Rattle.numbering.specs.Classes.{link, Listed};

use records::{MOST_PLACES, Tables};

// The graph of the places, and which class each is of: `ends[x]` stands for the class of `x`. By class its last place, and by place
// the one before it of its class.
#[derive(Drop)]
pub(crate) struct Classes<'a, F> {
    pub(crate) tables: Tables<'a, F>,
    pub(crate) ends: &'a [u16],
    // There is no heap here, so the lists are links in two arrays of fixed size. They are lent, since a value with them would be copied.
    pub(crate) last: &'a [Option<u16>; MOST_PLACES],
    pub(crate) previous: &'a [Option<u16>; MOST_PLACES],
    ghost graph: { Graph tables.places.now tables.slots.now (at ends.now) },
    ghost size: { (length tables.places.now ≤ length ends.now) × ((length tables.places.now ≤ 1000) × (length tables.slots.now ≤ 65535)) },
    ghost listed: { Listed (at ends.now) (length tables.places.now) (length tables.places.now) last.now previous.now },
}

// Lists the first `n` places by class.
pub(crate) fn list_places(
    ends: &[u16],
    n: usize,
    last: &mut [Option<u16>; MOST_PLACES],
    previous: &mut [Option<u16>; MOST_PLACES],
)
    requires within { (n ≤ 1000) × ((n ≤ length ends.now) × ((x : ℕ) → x < n → at ends.now x < n)) }
    requires blank { (v : ℕ) → link last.old v ≡ None }
    ensures { Listed (at ends.now) n n last.new previous.new }
{
    for (x, end) in ends[..n].iter().enumerate() {
        let v = *end as usize;
        previous[x] = last[v];
        last[v] = Some(x as u16);
    }
}
