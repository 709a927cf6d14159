// The output, and the pieces of a text. The text is written from the start of the output on, so far as it reaches: past its end,
// bytes are counted and not written.
ghost use Rattle.std.specs.Prelude.{◌≡◌, [], ◌∷◌, ◌++◌};
ghost use Rattle.kinds.specs.Laws.{loaded};
ghost use Rattle.names.specs.Names.{IsName};
ghost use Rattle.names.specs.Spellings.{spelt};
ghost use Rattle.vocabulary.specs.Texts.{range, bytes as textBytes};
ghost use Rattle.showing.specs.Shown.{hashed};
ghost use Rattle.showing.specs.Writing.{Adds, Holds, marked};

use itoa::{Buffer, Integer};
use kinds::kind::Kind;
use names::spelling::of_number::spelling;
use vocabulary::vocabulary::{KindText, Vocabulary};

// The bytes that are written to, and how long the text is.
#[derive(Drop)]
pub(crate) struct Output<'a> {
    bytes: &'a mut [u8],
    pub(crate) len: usize,
}

impl<'a> Output<'a> {
    // Nothing is written yet.
    pub(crate) fn new(bytes: &'a mut [u8]) -> Self
        ensures same { result.bytes.ghost_name ≡ bytes.entry.ghost_name }
        ensures empty { Holds bytes.old [] result }
    {
        Output { bytes, len: 0 }
    }

    pub(crate) fn put(&mut self, byte: u8)
        ensures { Adds (byte ∷ []) self.old self.new }
    {
        if self.len < self.bytes.len() {
            self.bytes[self.len] = byte;
        }
        self.len = self.len.saturating_add(1);
    }

    // Writes bytes as they are: at once, so far as the output reaches.
    fn put_all(&mut self, bytes: &[u8])
        ensures { Adds bytes.now self.old self.new }
    {
        let end = self.len.saturating_add(bytes.len());
        let from = self.len.min(self.bytes.len());
        let upto = end.min(self.bytes.len());
        self.bytes[from..upto].copy_from_slice(&bytes[..upto - from]);
        self.len = end;
    }

    // Writes a number in base ten, after a minus where it is below 0. Its digits are put one by one: most numbers are tags, of one or two.
    fn put_number<I: Integer>(&mut self, n: I)
        ensures { Adds (I.text n) self.old self.new }
    {
        let mut buffer = Buffer::new();
        let digits = buffer.format(n).as_bytes();
        for digit in digits {
            self.put(*digit);
        }
    }

    // Writes a range of a kind.
    fn put_range(&mut self, low: i32, high: i32)
        ensures { Adds (textBytes (range low high)) self.old self.new }
    {
        self.put(b'[');
        self.put_number(low);
        self.put_all(b"..");
        self.put_number(high);
        self.put(b']');
    }

    // Writes the kind of a place.
    fn put_kind<K: Kind, V: Vocabulary<K>>(&mut self, form: K::Form)
        ensures { Adds (textBytes (V.Vocabulary.texts (loaded K.Kind.laws form))) self.old self.new }
    {
        match V::text(K::load(form)) {
            KindText::Word(bytes) => self.put_all(bytes),
            KindText::Range(low, high) => self.put_range(low, high),
        }
    }

    // Writes a tag: a hash sign and its number.
    fn put_tag(&mut self, tag: u16)
        ensures { Adds (hashed tag []) self.old self.new }
    {
        self.put(b'#');
        self.put_number(tag);
    }

    // Writes the tag of a place that has one, and a space.
    fn put_mark(&mut self, tag: Option<u16>)
        ensures { Adds (marked tag) self.old self.new }
    {
        if let Some(tag) = tag {
            self.put_tag(tag);
            self.put(b' ');
        }
    }

    // Writes a place up to its first slot: a bracket, its tag if it has one, and its kind.
    pub(crate) fn put_opening<K: Kind, V: Vocabulary<K>>(&mut self, tag: Option<u16>, form: K::Form)
        ensures { Adds (40 ∷ (marked tag ++ textBytes (V.Vocabulary.texts (loaded K.Kind.laws form)))) self.old self.new }
    {
        self.put(b'(');
        self.put_mark(tag);
        self.put_kind::<K, V>(form);
    }

    // Writes a place that was written before, by its tag.
    pub(crate) fn put_again(&mut self, tag: u16)
        ensures { Adds (40 ∷ hashed tag (41 ∷ [])) self.old self.new }
    {
        self.put(b'(');
        self.put_tag(tag);
        self.put(b')');
    }

    // Writes the name of a slot between two spaces.
    pub(crate) fn put_naming(&mut self, name: u64)
        requires { IsName name }
        ensures { Adds (32 ∷ (spelt name ++ (32 ∷ []))) self.old self.new }
    {
        let spelling = spelling(name).unwrap();
        self.put(b' ');
        self.put_all(spelling.as_bytes());
        self.put(b' ');
    }
}
