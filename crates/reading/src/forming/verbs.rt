// The words of forms, and what follows each.
ghost use Rattle.std.specs.Prelude.{◌≡◌};
ghost use Rattle.std.specs.List.{find};
ghost use Rattle.std.specs.Str.{bytes_eq};
ghost use Rattle.reading.specs.Forms.{verb, after_word, after_path, after_kind};
ghost use Rattle.reading.specs.Forming.{word_of};

use crate::draft::Mode;
use crate::form::{Stage, Verb};

// All forms.
const VERBS: [Verb; 8] = [
    Verb::Add,
    Verb::Tie,
    Verb::Narrow,
    Verb::Mark,
    Verb::Keep,
    Verb::Back,
    Verb::Clear,
    Verb::Show,
];

// The word of a form.
fn word_of(verb: Verb) -> &'static str
    ensures { result.now ≡ word_of «verb» }
{
    match verb {
        Verb::Add => "add",
        Verb::Tie => "tie",
        Verb::Narrow => "narrow",
        Verb::Mark => "mark",
        Verb::Keep => "keep",
        Verb::Back => "back",
        Verb::Clear => "clear",
        Verb::Show => "show",
    }
}

// Whether the form begins with this word.
fn begins_with(verb: Verb, word: &[u8]) -> bool
    ensures { result ≡ bytes_eq word.now (word_of «verb») }
{
    word == word_of(verb).as_bytes()
}

// The first of these forms that begins with the word.
fn first_of(verbs: &[Verb], word: &[u8]) -> Option<Verb>
    ensures { result ≡ find (λ v. bytes_eq word.now (word_of v)) verbs.now }
{
    verbs.iter().find(|verb| begins_with(**verb, word)).copied()
}

// The form that begins with this word.
pub(crate) fn verb_of(word: &[u8]) -> Option<Verb>
    ensures { result ≡ verb word.now }
{
    first_of(&VERBS, word)
}

// What follows the word: a path, or the end.
pub(crate) fn after_word(verb: Verb) -> Stage
    ensures { result ≡ after_word «verb» }
{
    match verb {
        Verb::Add | Verb::Tie | Verb::Narrow => Stage::Path(verb),
        _ => Stage::Close(verb),
    }
}

// What follows the first path.
pub(crate) fn after_path(verb: Verb) -> Stage
    ensures { result ≡ after_path «verb» }
{
    match verb {
        Verb::Add => Stage::Place,
        Verb::Tie => Stage::SecondPath,
        Verb::Narrow => Stage::Kind,
        _ => Stage::Close(verb),
    }
}

// What follows a token of a narrow's kind, by the mode that it leaves: the end, or the rest of the range.
pub(crate) fn after_kind(mode: Mode) -> Stage
    ensures { result ≡ after_kind «mode» }
{
    match mode {
        Mode::Inside => Stage::Close(Verb::Narrow),
        _ => Stage::Range,
    }
}
