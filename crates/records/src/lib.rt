// The records of a sheet, and what a table of them says. A sheet is what the field calls a rooted sorted feature graph, or
// psi-term: a place is a node, and a slot is a feature, an edge with a name.
//
// The limits of a sheet and of a path stand here once, for all crates. `own_numbers` is for tables with an entry for each place, which
// says what place that one is joined with: it joins none, so that each place stands for itself.
#![tactic(auto)]

ghost use Rattle.std.specs.Prelude.{◌≡◌, ◌+◌, min, ◌++◌, length, take, drop, Decides};
ghost use Rattle.std.specs.List.{range_with_len};
ghost use Rattle.records.specs.Tables.{blank_slot, count_at, first_at};
ghost use Rattle.records.specs.Checks.{Aimed, Counted, Rising, RisingAt};
ghost use Rattle.records.specs.Sheets.{blank_place};

use kinds::kind::Kind;

// The most places, and the most slots, of a sheet.
pub const MOST_PLACES: usize = 1000;

pub const MOST_SLOTS: usize = 4000;

// The most names of a path.
pub const MOST_NAMES: usize = 16;

// A place: the stored form of its kind, the number of slots of all earlier places, and its own number of slots.
#[derive(Clone, Copy, PartialEq, Eq, Debug)]
pub struct PlaceRecord<F> {
    pub kind: F,
    pub before: u16,
    pub count: u16,
}

// A slot: the number of its name, and the number of the place that it leads to. Slots stand by place, then by name.
#[derive(Clone, Copy, PartialEq, Eq, Debug)]
pub struct SlotRecord {
    pub name: u64,
    pub target: u16,
}

// How many places and slots a sheet has. By default none of either.
#[derive(Clone, Copy, PartialEq, Eq, Debug, Default)]
pub struct Counts {
    pub places: usize,
    pub slots: usize,
}

// The record of no place: the greatest kind and zeros.
pub fn no_place<K: Kind>() -> PlaceRecord<K::Form>
    ensures { result ≡ blank_place K.Kind.laws }
{
    PlaceRecord {
        kind: K::greatest().store(),
        before: 0,
        count: 0,
    }
}

// The record of no slot: zeros.
pub fn no_slot() -> SlotRecord
    ensures { result ≡ blank_slot }
{
    SlotRecord { name: 0, target: 0 }
}

// The number of the first slot of the place `p`, and 0 where there is no such place.
pub fn first_slot<F: Copy>(places: &[PlaceRecord<F>], p: usize) -> usize
    ensures { result ≡ first_at places.now p }
{
    places.get(p).map_or(0, |place| place.before as usize)
}

// The number of the slot past the last one of the place `p`, and 0 where there is no such place.
pub fn past_slot<F: Copy>(places: &[PlaceRecord<F>], p: usize) -> usize
    ensures { result ≡ first_at places.now p + count_at places.now p }
{
    places
        .get(p)
        .map_or(0, |place| place.before as usize + place.count as usize)
}

// Sets each of the first 65,536 entries to its own number.
pub fn own_numbers(entries: &mut [u16])
    ensures { entries.new ≡ range_with_len 0 (min 65536 (length entries.old)) ++ drop 65536 entries.old }
{
    let most = entries.len().min(65_536);
    for (i, entry) in entries[..most].iter_mut().enumerate() {
        *entry = i as u16;
    }
}

// The two tables of a sheet, or of two sheets side by side, which are read together.
#[derive(Clone, Copy)]
pub struct Tables<'a, F> {
    pub places: &'a [PlaceRecord<F>],
    pub slots: &'a [SlotRecord],
}

impl<'a, F: Copy> Tables<'a, F> {
    // How many places and slots the tables have.
    pub fn counts(&self) -> Counts
        ensures places { result.places ≡ length self.now.places.now }
        ensures slots { result.slots ≡ length self.now.slots.now }
    {
        Counts {
            places: self.places.len(),
            slots: self.slots.len(),
        }
    }

    // The slots of the place `p`, as far as the table of slots reaches.
    pub fn slots_of(&self, p: usize) -> &'a [SlotRecord]
        ensures { result.now ≡ take (count_at self.now.places.now p) (drop (first_at self.now.places.now p) self.now.slots.now) }
    {
        let len = self.slots.len();
        let from = first_slot(self.places, p).min(len);
        let upto = past_slot(self.places, p).min(len);
        &self.slots[from..upto]
    }

    // Whether the first number of each place is the sum of the earlier counts, and all counts come to the number of the slots.
    pub fn is_counted(&self) -> bool
        ensures { Decides result (Counted self.now.places.now self.now.slots.now) }
    {
        let mut sum: usize = 0;
        for place in self.places {
            if place.before as usize != sum {
                return false;
            }
            sum += place.count as usize;
        }
        sum == self.slots.len()
    }

    // Whether each slot leads to a place.
    pub fn is_aimed(&self) -> bool
        ensures { Decides result (Aimed self.now.places.now self.now.slots.now) }
    {
        let places = self.places.len();
        self.slots
            .iter()
            .all(|slot| (slot.target as usize) < places)
    }

    // Whether the names of the slots of the place `p` rise, as far as the table of slots reaches.
    fn is_rising_at(&self, p: usize) -> bool
        ensures { Decides result (RisingAt self.now.places.now self.now.slots.now p) }
    {
        self.slots_of(p).is_sorted_by(|a, b| a.name < b.name)
    }

    // Whether they do at each place.
    pub fn is_rising(&self) -> bool
        ensures { Decides result (Rising self.now.places.now self.now.slots.now) }
    {
        (0..self.places.len()).all(|p| self.is_rising_at(p))
    }
}
