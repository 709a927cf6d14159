// Slots as they are read: the name of one, the end of the place that it leads to, and a reference in its stead.
ghost use Rattle.std.specs.Prelude.{◌≡◌, length};
ghost use Rattle.vocabulary.specs.Texts.{Word};
ghost use Rattle.reading.specs.Drafts.{named, parent_at};
ghost use Rattle.reading.specs.Readers.{read, came, SameTables};
ghost use Rattle.reading.specs.Steps.{go, close, refer, slot_named};

use crate::draft::{Cursor, Mode, Slot, Tag, Target};
use crate::drafting::reader::DraftReader;
use crate::fault::{ReadFault, Rule};
use kinds::kind::Kind;
use names::number::number_of;

impl<K: Kind> DraftReader<'_, K> {
    // Whether the innermost open place has a slot of the name.
    fn has_name(&self, name: u64) -> bool
        ensures { result ≡ named (read self.now).slots self.now.cur.top name }
    {
        self.look
            .has_name(&self.slots[..self.cur.slots], self.cur.top, name)
    }

    // One slot more of the innermost open place, which leads to the place that is described next.
    pub(crate) fn push_slot(&mut self, word: &[u8], byte: usize) -> Result<(), ReadFault>
        requires { Word word.now }
        ensures is { came result self.new ≡ slot_named (length self.old.slots.now) word.now (read self.old) byte }
        ensures tables { SameTables self.old self.new }
    {
        let name = number_of(word).ok_or(ReadFault::Broken(Rule::LongName, byte))?;
        if self.has_name(name) {
            return Err(ReadFault::Broken(Rule::NameTwice, byte));
        }
        let Cursor {
            top,
            places,
            slots: at,
            ..
        } = self.cur;
        if at >= self.slots.len() {
            return Err(ReadFault::Broken(Rule::TooMany, byte));
        }
        self.slots[at] = Slot {
            owner: top,
            name,
            target: Target::To(places),
        };
        self.look.add(top, at);
        self.cur = Cursor {
            mode: Mode::Begin,
            slots: at + 1,
            ..self.cur
        };
        Ok(())
    }

    // The place in whose brackets the innermost open place stands.
    fn parent(&self) -> usize
        ensures { result ≡ parent_at (read self.now).places self.now.cur.top }
    {
        self.places[..self.cur.places]
            .get(self.cur.top)
            .map_or(0, |p| p.parent)
    }

    // The innermost open place ends.
    pub(crate) fn close_place(&mut self)
        ensures is { go (read self.new) ≡ close (read self.old) }
        ensures tables { SameTables self.old self.new }
    {
        if self.cur.top == 0 {
            self.cur.mode = Mode::Done(None);
            return;
        }
        self.cur = Cursor {
            mode: Mode::Inside,
            top: self.parent(),
            ..self.cur
        };
    }

    // A place is the one that the tag describes.
    pub(crate) fn refer_to(&mut self, tag: Tag)
        ensures is { go (read self.new) ≡ refer tag (read self.old) }
        ensures tables { SameTables self.old self.new }
    {
        let n = self.cur.slots;
        if n == 0 {
            self.cur.mode = Mode::Done(Some(tag));
            return;
        }
        let last = self.slots[n - 1];
        self.slots[n - 1] = Slot {
            target: Target::ByTag(tag),
            ..last
        };
        self.cur.mode = Mode::Inside;
    }
}
