// What is kept beside a draft, so that names and tags are not looked for among all slots and places.
ghost use Rattle.std.specs.Prelude.{◌≡◌, ◌<◌, ◌≤◌, false, length, Some, None, slice_index_or, slice_set};
ghost use Rattle.reading.specs.Drafts.{named};
ghost use Rattle.reading.specs.Lookups.{Listed, owner_at, marked, Small, marked_at, unmarked_at, unmarked, Fresh};

use crate::draft::{Slot, Tag, Target};
use records::{MOST_PLACES, MOST_SLOTS};

// By number whether a tag is described; by place its newest slot, and by slot the one before it of the same place. Lists through
// indices in fixed arrays: the library has no heap.
#[derive(Drop)]
pub(crate) struct Lookup {
    pub(crate) described: [bool; 256],
    pub(crate) newest: [Option<u16>; MOST_PLACES],
    pub(crate) earlier: [Option<u16>; MOST_SLOTS],
}

impl Lookup {
    pub(crate) fn new() -> Lookup
        ensures { Fresh result }
    {
        Lookup {
            described: [false; 256],
            newest: [None; MOST_PLACES],
            earlier: [None; MOST_SLOTS],
        }
    }

    // The tag is described from now on.
    pub(crate) fn mark(&mut self, tag: Option<Tag>)
        ensures tags { self.new.described ≡ marked tag self.old.described }
        ensures small { Small tag }
        ensures newest { self.new.newest ≡ self.old.newest }
        ensures earlier { self.new.earlier ≡ self.old.earlier }
    {
        if let Some(t) = tag {
            self.described[t.number as usize] = true;
        }
    }

    // Whether the tag is described.
    fn is_described(&self, tag: Tag) -> bool
        ensures { result ≡ slice_index_or self.now.described tag.number false }
    {
        self.described[tag.number as usize]
    }

    // The byte of a tag that is described already.
    pub(crate) fn described_at(&self, tag: Option<Tag>) -> Option<usize>
        ensures { result ≡ marked_at tag self.now.described }
    {
        tag.filter(|t| self.is_described(*t)).map(|t| t.byte)
    }

    // The byte of the target's tag, if that is not described.
    fn undescribed_at(&self, target: Target) -> Option<usize>
        ensures { result ≡ unmarked_at target self.now.described }
    {
        match target {
            Target::To(_) => None,
            Target::ByTag(t) => (!self.is_described(t)).then_some(t.byte),
        }
    }

    // The byte of the first reference to a tag that is not described.
    pub(crate) fn first_undescribed(&self, slots: &[Slot]) -> Option<usize>
        ensures { result ≡ unmarked slots.now self.now.described }
    {
        slots.iter().find_map(|s| self.undescribed_at(s.target))
    }

    // The slot `at` is the newest of the place.
    pub(crate) fn add(&mut self, owner: usize, at: usize)
        requires within { (owner < 1000) × (at < 4000) }
        ensures tags { self.new.described ≡ self.old.described }
        ensures newest { self.new.newest ≡ slice_set self.old.newest owner (Some at) }
        ensures earlier { self.new.earlier ≡ slice_set self.old.earlier at (slice_index_or self.old.newest owner None) }
    {
        self.earlier[at] = self.newest[owner];
        self.newest[owner] = Some(at as u16);
    }

    // Whether the place has a slot of the name.
    pub(crate) fn has_name(&self, slots: &[Slot], owner: usize, name: u64) -> bool
        requires within { (owner < 1000) × (length slots.now ≤ 4000) }
        requires lists { Listed (owner_at slots.now) (length slots.now) self.now.newest self.now.earlier }
        ensures { result ≡ named slots.now owner name }
    {
        let mut slot = self.newest[owner];
        while let Some(i) = slot {
            if slots[i as usize].name == name {
                return true;
            }
            slot = self.earlier[i as usize];
        }
        false
    }
}
