// What one token does to a draft, and what the end of the line does.
ghost use Rattle.std.specs.Prelude.{◌≡◌, length};
ghost use Rattle.tokens.specs.Answers.{meant};
ghost use Rattle.reading.specs.Held.{Worded};
ghost use Rattle.reading.specs.Readers.{read, came, SameTables};
ghost use Rattle.reading.specs.Steps.{moved, tag_number, undescribed, end_in, step as stepBy};

use crate::draft::{Mode, Tag};
use crate::drafting::reader::DraftReader;
use crate::fault::{ReadFault, Rule};
use kinds::kind::Kind;
use tokens::token::{Lexeme, Token};
use vocabulary::vocabulary::Vocabulary;

// The number of a tag, which is 1 to 99.
fn tag_number(n: i32) -> Option<u8>
    ensures { result ≡ tag_number n }
{
    u8::try_from(n).ok().filter(|t| (1..=99).contains(t))
}

impl<K: Kind> DraftReader<'_, K> {
    // The same in another mode, answered as the other steps answer.
    fn turn(&mut self, mode: Mode) -> Result<(), ReadFault>
        ensures is { came result self.new ≡ moved mode (read self.old) }
        ensures tables { SameTables self.old self.new }
    {
        self.cur.mode = mode;
        Ok(())
    }

    // The token `x` after what has been read.
    pub(crate) fn step<V: Vocabulary<K>>(&mut self, x: Lexeme, line: &[u8]) -> Result<(), ReadFault>
        requires { Worded (meant x.token) }
        ensures is { came result self.new ≡ stepBy V.Vocabulary.words V.Vocabulary.ranges (length self.old.places.now) (length self.old.slots.now) line.now (read self.old) (meant x.entry.token) x.entry.start x.entry.«end» }
        ensures tables { SameTables self.old self.new }
    {
        let byte = x.start;
        match (self.cur.mode, x.token) {
            (Mode::Begin, Token::RoundOpen) => self.turn(Mode::Opened),
            (Mode::Opened, Token::Hash) => self.turn(Mode::Hashed),
            (Mode::Opened, _) => self.kind_first::<V>(None, x, line),
            (Mode::Hashed, Token::Number(n)) => {
                let number = tag_number(n).ok_or(ReadFault::Broken(Rule::TagNumber, byte))?;
                self.turn(Mode::Tagged(Tag { number, byte }))
            }
            (Mode::Tagged(tag), Token::RoundClose) => {
                self.refer_to(tag);
                Ok(())
            }
            (Mode::Tagged(tag), _) => self.kind_first::<V>(Some(tag), x, line),
            (Mode::Low(open), Token::Number(low)) => self.turn(Mode::Dotted(open, low)),
            (Mode::Dotted(open, low), Token::Dots) => self.turn(Mode::High(open, low)),
            (Mode::High(_, low), Token::Number(high)) if high < low => Err(ReadFault::Broken(
                Rule::LowAboveHigh,
                byte,
            )),
            (Mode::High(open, low), Token::Number(high)) => self.turn(Mode::Ranged(
                open, low, high,
            )),
            (Mode::Ranged(open, low, high), Token::SquareClose) => self.range_last::<V>(
                open, low, high,
            ),
            (Mode::Inside, Token::Word(word)) => self.push_slot(word, byte),
            (Mode::Inside, Token::RoundClose) => {
                self.close_place();
                Ok(())
            }
            _ => Err(ReadFault::Broken(Rule::NotAllowed, byte)),
        }
    }

    // The byte of the first reference to a tag that no place describes.
    fn first_undescribed(&self) -> Option<usize>
        ensures { result ≡ undescribed (read self.now).slots (read self.now).places }
    {
        self.look.first_undescribed(&self.slots[..self.cur.slots])
    }

    // The line ends at byte `end`.
    pub(crate) fn end(&self, end: usize) -> Result<(), ReadFault>
        ensures { came result self.now ≡ end_in self.now.cur.mode (read self.now) «end» }
    {
        match self.cur.mode {
            Mode::Done(None) => match self.first_undescribed() {
                Some(b) => Err(ReadFault::Broken(Rule::TagNever, b)),
                None => Ok(()),
            },
            Mode::Done(Some(t)) => Err(ReadFault::Broken(Rule::TagNever, t.byte)),
            _ => Err(ReadFault::Broken(Rule::NotAllowed, end)),
        }
    }
}
