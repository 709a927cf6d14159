// Feeding pieces of input, and the lines that they give.
ghost use Rattle.std.specs.Prelude.{◌≡◌, ◌<◌, ◌≤◌, [], length};
ghost use Rattle.lines.specs.Lines.{whole, LineLaws};
ghost use Rattle.lines.specs.Reading.{limit, line_so_far, pending, extended, shown, some, Feeds, SameBuffer, SoFar, Lasting, Complete, GivesLines};

use super::{Fed, Lines, LongLine, MOST_BYTES};

impl<'a> Lines<'a> {
    // A reader at the start of an input. A line that the buffer cannot hold is too long.
    pub fn new(buffer: &'a mut [u8]) -> Lines<'a>
        ensures buffer { result.buffer.now ≡ buffer.old }
        ensures line { line_so_far result ≡ whole [] }
        ensures begins { SoFar [] [] result }
        ensures gives { GivesLines result }
        ensures laws { LineLaws }
    {
        Lines {
            buffer,
            len: Ok(0),
            ended: false,
        }
    }

    // Reads the piece up to its first newline, which ends the line, or all of it where it has none. After a line that has
    // ended, a new one begins.
    pub fn feed(&mut self, piece: &[u8]) -> Fed
        ensures answer { Feeds self.old piece.now result self.new }
        ensures within { result.used ≤ length piece.now }
        ensures onward { 0 < length piece.now → 0 < result.used }
        ensures lasting { Lasting self.old piece.now result self.new }
    {
        let newline = piece.iter().position(|byte| *byte == b'\n');
        let end = newline.unwrap_or(piece.len());
        self.begin();
        self.append(&piece[..end]);
        self.ended = newline.is_some();
        Fed {
            used: newline.map_or(piece.len(), |at| at + 1),
            ended: self.ended,
        }
    }

    // Makes way for a new line, where the last one has ended.
    fn begin(&mut self)
        ensures line { line_so_far self.new ≡ pending self.old }
        ensures bytes { self.new.buffer.now ≡ self.old.buffer.now }
        ensures kept { SameBuffer self.new self.old }
    {
        if self.ended {
            self.len = Ok(0);
        }
    }

    // Adds bytes to the line that is being read.
    fn append(&mut self, bytes: &[u8])
        ensures line { line_so_far self.new ≡ extended (limit self.old) (line_so_far self.old) bytes.now }
        ensures kept { SameBuffer self.new self.old }
    {
        let Ok(len) = self.len else {
            return;
        };
        let limit = MOST_BYTES.min(self.buffer.len());
        if limit - len < bytes.len() {
            self.len = Err(LongLine);
            return;
        }
        let end = len + bytes.len();
        self.buffer[len..end].copy_from_slice(bytes);
        self.len = Ok(end);
    }

    // The line read so far; once it has ended, that line, until the next piece comes.
    pub fn line(&self) -> Result<&[u8], LongLine>
        ensures { shown result ≡ line_so_far self.now }
    {
        Ok(&self.buffer[..self.len?])
    }

    // At the end of the input: whether a last line is pending, which no newline has ended.
    pub fn has_line(&self) -> bool
        ensures answer { result ≡ some (pending self.now) }
        ensures complete { Complete self.now result }
    {
        !self.ended && self.len != Ok(0)
    }
}
