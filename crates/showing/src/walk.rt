// Depth first from the root, with a stack of what is left of the open places. One turn ends a place or writes one slot.
ghost use Rattle.std.specs.Prelude.{◌≡◌, ◌<◌, ◌≤◌, List, None, length, slice_index_or};
ghost use Rattle.arrayvec.specs.ArrayVec.{array_vec_len};
ghost use Rattle.names.specs.Names.{IsName};
ghost use Rattle.showing.specs.Shown.{tagged, slots_of};
ghost use Rattle.showing.specs.Source.{held};
ghost use Rattle.showing.specs.Writing.{Adds};
ghost use Rattle.showing.specs.Progress.{Begun, Entered, Fresh, Room, Since, Took, Visited, Wrote, measure, opened, standing};

use crate::source::Source;
use crate::writing::Output;
use arrayvec::ArrayVec;
use kinds::kind::Kind;
use records::{MOST_PLACES, SlotRecord};
use vocabulary::vocabulary::Vocabulary;

// Slots that stand side by side in the table: the number of the first of them, and how many they are. (A slice of them would take four
// times the memory, which is filled before anything is written.)
#[derive(Clone, Copy, Default)]
struct Block {
    first: u16,
    count: u16,
}

// How far the writing has come: the slots that are still to be written of each open place, the innermost last; the tag under which
// each place was written, and none where it was not (a place without a tag of its own has the next one, and is not met again); and
// the tag that the next tagged place gets.
#[derive(Drop)]
pub(crate) struct Progress {
    left: ArrayVec<Block, MOST_PLACES>,
    tags: [Option<u16>; MOST_PLACES],
    next: u16,
}

impl Progress {
    // Nothing is written yet.
    pub(crate) fn new() -> Self
        ensures { Fresh result }
    {
        Progress {
            left: ArrayVec::new(),
            tags: [None; MOST_PLACES],
            next: 1,
        }
    }

    // Begins anew, in the same memory.
    pub(crate) fn restart(&mut self)
        ensures { Fresh self.new }
    {
        self.left.clear();
        self.tags.fill(None);
        self.next = 1;
    }

    // Opens a place that was not written.
    // `Room` is required, here and where a place is opened: a full progress is one too, so the type cannot promise it.
    fn enter(&mut self, p: u16, block: Block, tagged: bool)
        requires { Room self.old × (p < 1000) }
        ensures { (slots : List SlotRecord) → Entered slots self.old p (standing slots block) tagged self.new }
    {
        self.left.push(block);
        self.tags[p as usize] = Some(self.next);
        if tagged {
            self.next += 1;
        }
    }
}

// Progress and output are two parameters: in one struct the caller's bytes lie deeper, and nothing could be shown of them.
impl<'a, K: Kind> Source<'a, K> {
    // The slots of a block, as far as the table of slots reaches.
    fn slots_in(&self, block: Block) -> &'a [SlotRecord]
        ensures { result.now ≡ standing self.now.tables.slots.now block }
    {
        let len = self.tables.slots.len();
        let from = (block.first as usize).min(len);
        let upto = (block.first as usize + block.count as usize).min(len);
        &self.tables.slots[from..upto]
    }

    // Takes the next slot of the innermost open place; where it has none left, the place ends.
    fn next_slot(&self, progress: &mut Progress) -> Option<SlotRecord>
        requires { (0 < array_vec_len progress.old.left) × (array_vec_len progress.old.left ≤ 1000) }
        ensures { Took self.now.tables.slots.now progress.old result progress.new }
    {
        let block = progress.left.pop()?;
        let rest = self.slots_in(block);
        let slot = rest.first()?;
        progress.left.push(Block {
            first: block.first + 1,
            count: block.count - 1,
        });
        Some(*slot)
    }

    // Opens a place that was not written, and writes it up to its first slot.
    fn open_place<V: Vocabulary<K>>(&self, progress: &mut Progress, output: &mut Output<'_>, p: u16)
        requires within { p < length self.now.tables.places.now }
        requires room { Room progress.old }
        ensures state { Entered self.now.tables.slots.now progress.old p (slots_of (held self.now) p) (tagged (held self.now) p) progress.new }
        ensures adds { Adds (opened K.Kind.laws V.Vocabulary.texts (held self.now) progress.old.next p) output.old output.new }
    {
        let place = self.tables.places[p as usize];
        let block = Block {
            first: place.before,
            count: place.count,
        };
        let tagged = self.has_tag(p as usize);
        let tag = tagged.then_some(progress.next);
        progress.enter(p, block, tagged);
        output.put_opening::<K, V>(tag, place.kind);
    }

    // Writes a slot: its name, and the place that it leads to.
    fn put_slot<V: Vocabulary<K>>(
        &self,
        progress: &mut Progress,
        output: &mut Output<'_>,
        slot: SlotRecord,
    )
        requires within { slot.target < length self.now.tables.places.now }
        requires named { IsName slot.name }
        requires room { slice_index_or progress.old.tags slot.target None ≡ None → Room progress.old }
        ensures { Visited K.Kind.laws V.Vocabulary.texts (held self.now) slot progress.old progress.new output.old output.new }
    {
        output.put_naming(slot.name);
        match progress.tags[slot.target as usize] {
            Some(tag) => output.put_again(tag),
            None => self.open_place::<V>(progress, output, slot.target),
        }
    }

    // One turn: ends the innermost open place, or writes its next slot.
    fn step<V: Vocabulary<K>>(&self, progress: &mut Progress, output: &mut Output<'_>)
        requires begun { Begun K.Kind.laws V.Vocabulary.texts (held self.now) progress.old }
        requires some { 0 < array_vec_len progress.old.left }
        ensures since { Since K.Kind.laws V.Vocabulary.texts (held self.now) progress.old progress.new output.old output.new }
        ensures falls { measure self.now.tables.slots.now progress.new < measure self.now.tables.slots.now progress.old }
    {
        match self.next_slot(progress) {
            Some(slot) => self.put_slot::<V>(progress, output, slot),
            None => output.put(b')'),
        }
    }

    // Writes the text of the sheet from the start of the output on, so far as the output reaches, and answers how long it is.
    pub(crate) fn write<V: Vocabulary<K>>(&self, progress: &mut Progress, out: &mut [u8]) -> usize
        requires { Fresh progress.old }
        ensures { Wrote K.Kind.laws V.Vocabulary.texts (held self.now) out.old out.new result }
    {
        let mut output = Output::new(out);
        self.open_place::<V>(progress, &mut output, 0);
        while !progress.left.is_empty() {
            self.step::<V>(progress, &mut output);
        }
        output.len
    }
}
