// The tokens of a line.
ghost use Rattle.std.specs.Prelude.{◌≡◌, ◌+◌, ◌-◌, ◌<◌, ◌≤◌, length, drop, slice_index};
ghost use Rattle.std.specs.Iterator.{at_most};
ghost use Rattle.tokens.specs.Tokens.{number_at, word_at, token_at, next_token, Ahead};
ghost use Rattle.tokens.specs.Answers.{answer, answer_at, Shows, Checked, Gives};

use crate::fault::TextFault;
use crate::token::class::Class;
use crate::token::numeral::number_of;
use lines::reader::MOST_BYTES;

mod class;
mod numeral;

// The most bytes of a word.
const WORD_LIMIT: usize = 24;

// A token. A word borrows its bytes of the line.
#[derive(Clone, Copy, Debug)]
pub enum Token<'a> {
    RoundOpen,
    RoundClose,
    SquareOpen,
    SquareClose,
    Hash,
    Dots,
    Word(&'a [u8]),
    Number(i32),
}

// A token with all its bytes of the line, the place of the first and the place after the last.
#[derive(Clone, Copy, Debug)]
pub struct Lexeme<'a> {
    pub token: Token<'a>,
    pub bytes: &'a [u8],
    pub start: usize,
    pub end: usize,
}

// Refuses a line that has too many bytes.
pub fn checked_length(line: &[u8]) -> Result<(), TextFault>
    ensures { Checked line.now result }
{
    if line.len() > MOST_BYTES {
        return Err(TextFault::LongLine);
    }
    Ok(())
}

// The number that begins at `start` and has its digits from `first` on, and the place after it.
fn number_at<'a>(
    line: &'a [u8],
    minus: bool,
    start: usize,
    first: usize,
) -> Result<(Token<'a>, usize), TextFault>
    requires { first ≤ length line.now }
    ensures { answer_at start result ≡ number_at minus (drop first line.now) start first }
{
    let rest = &line[first..];
    let count = Class::Digit.run(rest);
    let number = number_of(minus, &rest[..count]).ok_or(TextFault::WrongNumber(start))?;
    Ok((Token::Number(number), first + count))
}

// The word that begins at `start`, and the place after it.
fn word_at<'a>(line: &'a [u8], start: usize) -> Result<(Token<'a>, usize), TextFault>
    requires { start ≤ length line.now }
    ensures { answer_at start result ≡ word_at (drop start line.now) start }
{
    let rest = &line[start..];
    let count = Class::WordByte.run(rest);
    if count > WORD_LIMIT {
        return Err(TextFault::LongWord(start));
    }
    Ok((Token::Word(&rest[..count]), start + count))
}

// The token that begins at `start`, and the place after it.
fn token_at<'a>(line: &'a [u8], start: usize) -> Result<(Token<'a>, usize), TextFault>
    requires { start < length line.now }
    ensures { answer_at start result ≡ token_at (slice_index line.now start) (drop (start + 1) line.now) start }
{
    match line[start] {
        b'(' => Ok((Token::RoundOpen, start + 1)),
        b')' => Ok((Token::RoundClose, start + 1)),
        b'[' => Ok((Token::SquareOpen, start + 1)),
        b']' => Ok((Token::SquareClose, start + 1)),
        b'#' => Ok((Token::Hash, start + 1)),
        b'.' if line.get(start + 1) == Some(&b'.') => Ok((Token::Dots, start + 2)),
        b'-' => number_at(line, true, start, start + 1),
        b'0'..=b'9' => number_at(line, false, start, start),
        b'a'..=b'z' => word_at(line, start),
        _ => Err(TextFault::NoToken(start)),
    }
}

// The token that stands next on the line from `from` on; none at the line's end.
pub fn next_token<'a>(line: &'a [u8], from: usize) -> Result<Option<Lexeme<'a>>, TextFault>
    ensures answer { answer result ≡ next_token line.now from }
    ensures bytes { Shows line.now result }
    ensures ahead { Ahead from (length line.now) (answer result) }
{
    let Some(rest) = line.get(from..) else {
        return Ok(None);
    };
    let start = from + Class::Space.run(rest);
    if start == line.len() {
        return Ok(None);
    }
    let (token, end) = token_at(line, start)?;
    Ok(Some(Lexeme {
        token,
        bytes: &line[start..end],
        start,
        end,
    }))
}

// The tokens of a line from a place on, in order; a fault is the last.
#[derive(Drop)]
pub struct Lexemes<'a> {
    pub line: &'a [u8],
    pub from: usize,
}

impl<'a> Lexemes<'a> {
    // All tokens of the line.
    pub fn new(line: &'a [u8]) -> Lexemes<'a>
        ensures line { result.line.now ≡ line.now }
        ensures from { result.from ≡ 0 }
    {
        Lexemes { line, from: 0 }
    }
}

impl<'a> Iterator for Lexemes<'a> {
    type Item = Result<Lexeme<'a>, TextFault>;

    ghost next_gives = { Gives };

    ghost remaining = { λ s. at_most (length s.line.now - s.from) };

    fn next(&mut self) -> Option<Result<Lexeme<'a>, TextFault>> {
        let next = next_token(self.line, self.from).transpose()?;
        self.from = next.map_or(self.line.len(), |x| x.end);
        Some(next)
    }
}
