// What is written: the tables of a sheet, and which of its places have tags.
ghost use Rattle.std.specs.Prelude.{◌≡◌, ℕ, ◌<◌, ◌≤◌, length, count_by, slice_index};
ghost use Rattle.std.specs.List.{range_with_len};
ghost use Rattle.records.specs.Tables.{target_at};
ghost use Rattle.sheets.specs.Checks.{IsSheet};
ghost use Rattle.showing.specs.Tags.{led};

use kinds::kind::Kind;
use records::{MOST_PLACES, SlotRecord, Tables};

// The tables hold a sheet, and `leading` says how many of its slots lead to each place.
#[derive(Drop)]
pub(crate) struct Source<'a, K: Kind> {
    pub(crate) tables: Tables<'a, K::Form>,
    leading: [u16; MOST_PLACES],
    ghost sheet: { ∥ IsSheet tables.places.now tables.slots.now ∥₁ },
    ghost long: { length leading ≡ 1000 },
    ghost counts: { (p : ℕ) → p < 1000 → slice_index leading p ≡ led tables.slots.now p },
}

// How many slots lead to each place.
fn count_leading(slots: &[SlotRecord]) -> [u16; MOST_PLACES]
    requires { (length slots.now ≤ 4000) × (((i : ℕ) → i < length slots.now → target_at slots.now i < 1000)) }
    ensures long { length result ≡ 1000 }
    ensures counts { (p : ℕ) → p < 1000 → slice_index result p ≡ led slots.now p }
{
    let mut leading = [0; MOST_PLACES];
    for slot in slots {
        leading[slot.target as usize] += 1;
    }
    leading
}

impl<'a, K: Kind> Source<'a, K> {
    ghost use Rattle.showing.specs.Shown.{tagged};
    ghost use Rattle.showing.specs.Source.{held};

    pub(crate) fn new(tables: Tables<'a, K::Form>) -> Self
        requires { IsSheet tables.places.now tables.slots.now }
        ensures places { result.tables.places.now ≡ tables.entry.places.now }
        ensures slots { result.tables.slots.now ≡ tables.entry.slots.now }
    {
        let leading = count_leading(tables.slots);
        Source { tables, leading }
    }

    // How many slots lead to the place `p`.
    fn leading_to(&self, p: usize) -> u16
        ensures { result ≡ slice_index self.now.leading p }
    {
        self.leading.get(p).map_or(0, |leading| *leading)
    }

    // Whether the place `p` has a tag: two or more slots lead to it, or it is the root and one does.
    pub(crate) fn has_tag(&self, p: usize) -> bool
        ensures { result ≡ tagged (held self.now) p }
    {
        let least = if p == 0 { 1 } else { 2 };
        least <= self.leading_to(p)
    }

    // How many places have a tag.
    pub(crate) fn count_tags(&self) -> usize
        ensures { result ≡ count_by (tagged (held self.now)) (range_with_len 0 (length self.now.tables.places.now)) }
    {
        (0..self.tables.places.len())
            .filter(|p| self.has_tag(*p))
            .count()
    }
}
