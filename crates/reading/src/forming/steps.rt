// What one token does to a form, and what the end of the line does.
ghost use Rattle.std.specs.Prelude.{◌≡◌, length, Ok};
ghost use Rattle.tokens.specs.Answers.{meant};
ghost use Rattle.reading.specs.Held.{Worded};
ghost use Rattle.reading.specs.Drafts.{Draft};
ghost use Rattle.reading.specs.Readers.{read, SameTables};
ghost use Rattle.reading.specs.Steps.{on_mark, on_word, on_some};
ghost use Rattle.reading.specs.Forms.{verb, after_word, form_step, form_end};
ghost use Rattle.reading.specs.Forming.{round_byte, staged, not_allowed, by_stage, reads, form_comes, form_ends};
ghost use Rattle.reading.specs.FormsHeld.{FormHeld, FormHeldOk};

use crate::draft::{Cursor, Mode};
use crate::drafting::reader::DraftReader;
use crate::fault::{ReadFault, Rule};
use crate::form::{Form, Stage, Verb};
use crate::forming::paths::push_name;
use crate::forming::verbs::{after_kind, after_path, after_word, verb_of};
use kinds::kind::Kind;
use tokens::token::{Lexeme, Token};
use vocabulary::vocabulary::Vocabulary;

// A round bracket.
#[derive(Clone, Copy)]
pub(crate) enum Round {
    Open,
    Close,
}

impl Form {
    // The same at another stage.
    fn staged(self, stage: Stage) -> Form
        ensures { result ≡ staged «stage» self }
    {
        Form { stage, ..self }
    }

    // A round bracket leads to the next stage.
    fn bracket(self, round: Round, next: Stage, x: Lexeme) -> Result<Form, ReadFault>
        ensures { result ≡ on_mark (round_byte round) (meant x.entry.token) (Ok (staged next self)) (not_allowed x.entry.start) }
    {
        match (round, x.token) {
            (Round::Open, Token::RoundOpen) | (Round::Close, Token::RoundClose) => Ok(self.staged(
                next,
            )),
            _ => Err(ReadFault::Broken(Rule::NotAllowed, x.start)),
        }
    }

    // The word of a form.
    fn worded(self, x: Lexeme) -> Result<Form, ReadFault>
        ensures { result ≡ on_word (meant x.entry.token) (λ w. on_some (verb w) (λ v. Ok (staged (after_word v) self)) (not_allowed x.entry.start)) (not_allowed x.entry.start) }
    {
        let bad = ReadFault::Broken(Rule::NotAllowed, x.start);
        match x.token {
            Token::Word(word) => {
                let verb = verb_of(word).ok_or(bad)?;
                Ok(self.staged(after_word(verb)))
            }
            _ => Err(bad),
        }
    }

    // The token `x` after what has been read of the form. The place of an add and the kind of a narrow have each a reader.
    pub(crate) fn step<K: Kind, V: Vocabulary<K>>(
        self,
        x: Lexeme,
        line: &[u8],
        place: &mut DraftReader<K>,
        kind: &mut DraftReader<K>,
    ) -> Result<Form, ReadFault>
        requires within { FormHeld self place.old kind.old }
        requires worded { Worded (meant x.token) }
        ensures is { form_comes result (read place.new) (read kind.new) ≡ form_step V.Vocabulary.words V.Vocabulary.ranges (length place.old.places.now) (length place.old.slots.now) line.now (reads self (read place.old) (read kind.old)) (meant x.entry.token) x.entry.start x.entry.«end» }
        ensures fits { FormHeldOk result place.new kind.new }
        ensures place_tables { SameTables place.old place.new }
        ensures kind_tables { SameTables kind.old kind.new }
    {
        match self.stage {
            Stage::Begin => self.bracket(Round::Open, Stage::Opened, x),
            Stage::Opened => self.worded(x),
            Stage::Path(verb) => self.bracket(Round::Open, Stage::InPath(verb), x),
            Stage::InPath(verb) => match x.token {
                Token::Word(word) => {
                    let first = push_name(self.first, word, x.start)?;
                    Ok(Form { first, ..self })
                }
                _ => self.bracket(Round::Close, after_path(verb), x),
            },
            Stage::SecondPath => self.bracket(Round::Open, Stage::InSecondPath, x),
            // As in the first path: one function for both would take the path, the field to put it in and the next stage.
            Stage::InSecondPath => match x.token {
                Token::Word(word) => {
                    let second = push_name(self.second, word, x.start)?;
                    Ok(Form { second, ..self })
                }
                _ => self.bracket(Round::Close, Stage::Close(Verb::Tie), x),
            },
            Stage::Place => match place.cur.mode {
                Mode::Done(_) => self.bracket(Round::Close, Stage::Closed(Verb::Add), x),
                _ => {
                    place.step::<V>(x, line)?;
                    Ok(self)
                }
            },
            Stage::Kind => {
                kind.kind_first::<V>(None, x, line)?;
                Ok(self.staged(after_kind(kind.cur.mode)))
            }
            Stage::Range => {
                kind.step::<V>(x, line)?;
                Ok(self.staged(after_kind(kind.cur.mode)))
            }
            Stage::Close(verb) => self.bracket(Round::Close, Stage::Closed(verb), x),
            Stage::Closed(_) => Err(ReadFault::Broken(Rule::NotAllowed, x.start)),
        }
    }

    // The line ends at byte `end`.
    pub(crate) fn end<K: Kind>(self, end: usize, place: &DraftReader<K>) -> Result<(), ReadFault>
        ensures { (kind : Draft K) → form_ends result (reads self (read place.now) kind) ≡ form_end self.stage (reads self (read place.now) kind) «end» }
    {
        match self.stage {
            Stage::Closed(Verb::Add) => place.end(end),
            Stage::Closed(_) => Ok(()),
            _ => Err(ReadFault::Broken(Rule::NotAllowed, end)),
        }
    }

    // The cursor of the draft of the place or of the kind, by the stage.
    pub(crate) fn cursor(self, place: Cursor, kind: Cursor) -> Cursor
        ensures { result ≡ by_stage self.stage «place» «kind» }
    {
        match self.stage {
            Stage::Kind | Stage::Range | Stage::Close(Verb::Narrow) | Stage::Closed(Verb::Narrow) =>
                kind,
            _ => place,
        }
    }
}
