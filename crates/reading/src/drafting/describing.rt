// Kinds of places as they are read: words, and ranges from their bracket on.
ghost use Rattle.std.specs.Prelude.{◌≡◌, length};
ghost use Rattle.tokens.specs.Answers.{meant};
ghost use Rattle.reading.specs.Readers.{read, came, SameTables};
ghost use Rattle.reading.specs.Steps.{go, once, describe, word_first, range_first, kind_first, range_last, no_kind_ahead};

use crate::draft::{Bracket, Cursor, Mode, Place, Tag};
use crate::drafting::reader::DraftReader;
use crate::fault::{ReadFault, Rule};
use kinds::kind::Kind;
use tokens::token::{Lexeme, Token, next_token};
use vocabulary::vocabulary::Vocabulary;

// Whether the line goes on with a whole range that is no kind: its low end is not above its high end, and the vocabulary has none.
fn no_kind_ahead<K: Kind, V: Vocabulary<K>>(line: &[u8], from: usize) -> bool
    ensures { result ≡ no_kind_ahead V.Vocabulary.words V.Vocabulary.ranges line.now from }
{
    if let Ok(Some(first)) = next_token(line, from)
        && let Token::Number(low) = first.token
        && let Ok(Some(dots)) = next_token(line, first.end)
        && let Token::Dots = dots.token
        && let Ok(Some(last)) = next_token(line, dots.end)
        && let Token::Number(high) = last.token
        && let Ok(Some(close)) = next_token(line, last.end)
        && let Token::SquareClose = close.token
    {
        return low <= high && V::range(low, high).is_none();
    }
    false
}

impl<K: Kind> DraftReader<'_, K> {
    // One place more, of kind `kind`, inside the innermost open place.
    fn push_place(&mut self, tag: Option<Tag>, kind: K, byte: usize) -> Result<(), ReadFault>
        ensures is { came result self.new ≡ describe (length self.old.places.now) tag kind (read self.old) byte }
        ensures tables { SameTables self.old self.new }
    {
        let at = self.cur.places;
        if at >= self.places.len() {
            return Err(ReadFault::Broken(Rule::TooMany, byte));
        }
        self.places[at] = Place {
            kind,
            parent: self.cur.top,
            tag,
        };
        self.look.mark(tag);
        self.cur = Cursor {
            mode: Mode::Inside,
            top: at,
            places: at + 1,
            ..self.cur
        };
        Ok(())
    }

    // Refuses a tag that a place describes already.
    fn once(&self, tag: Option<Tag>) -> Result<(), ReadFault>
        ensures { came result self.now ≡ once tag (read self.now) (go (read self.now)) }
    {
        match self.look.described_at(tag) {
            Some(b) => Err(ReadFault::Broken(Rule::TagTwice, b)),
            None => Ok(()),
        }
    }

    // A kind begins by the word.
    fn word_first<V: Vocabulary<K>>(
        &mut self,
        tag: Option<Tag>,
        word: &[u8],
        byte: usize,
    ) -> Result<(), ReadFault>
        ensures is { came result self.new ≡ word_first V.Vocabulary.words V.Vocabulary.ranges (length self.old.places.now) tag (read self.old) word.now byte }
        ensures tables { SameTables self.old self.new }
    {
        self.once(tag)?;
        let kind = V::word(word).ok_or(ReadFault::Broken(Rule::NoKind, byte))?;
        self.push_place(tag, kind, byte)
    }

    // A kind begins by a square bracket, and the line goes on at `from`.
    fn range_first<V: Vocabulary<K>>(
        &mut self,
        tag: Option<Tag>,
        byte: usize,
        line: &[u8],
        from: usize,
    ) -> Result<(), ReadFault>
        ensures is { came result self.new ≡ range_first V.Vocabulary.words V.Vocabulary.ranges (length self.old.places.now) line.now tag (read self.old) byte from }
        ensures tables { SameTables self.old self.new }
    {
        self.once(tag)?;
        if self.cur.places < self.places.len() {
            self.cur.mode = Mode::Low(Bracket { tag, byte });
            return Ok(());
        }
        let rule = if no_kind_ahead::<K, V>(line, from) {
            Rule::NoKind
        } else {
            Rule::TooMany
        };
        Err(ReadFault::Broken(rule, byte))
    }

    // The token is one that begins a kind.
    pub(crate) fn kind_first<V: Vocabulary<K>>(
        &mut self,
        tag: Option<Tag>,
        x: Lexeme,
        line: &[u8],
    ) -> Result<(), ReadFault>
        ensures is { came result self.new ≡ kind_first V.Vocabulary.words V.Vocabulary.ranges (length self.old.places.now) line.now tag (read self.old) (meant x.entry.token) x.entry.start x.entry.«end» }
        ensures tables { SameTables self.old self.new }
    {
        match x.token {
            Token::Word(word) => self.word_first::<V>(tag, word, x.start),
            Token::SquareOpen => self.range_first::<V>(tag, x.start, line, x.end),
            _ => Err(ReadFault::Broken(Rule::NotAllowed, x.start)),
        }
    }

    // The range is whole.
    pub(crate) fn range_last<V: Vocabulary<K>>(
        &mut self,
        open: Bracket,
        low: i32,
        high: i32,
    ) -> Result<(), ReadFault>
        ensures is { came result self.new ≡ range_last V.Vocabulary.words V.Vocabulary.ranges (length self.old.places.now) «open» low high (read self.old) }
        ensures tables { SameTables self.old self.new }
    {
        let kind = V::range(low, high).ok_or(ReadFault::Broken(Rule::NoKind, open.byte))?;
        self.push_place(open.tag, kind, open.byte)
    }
}
