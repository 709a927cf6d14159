// The line that is being read, in a buffer that the caller lends.
ghost use Rattle.std.specs.Prelude.{◌≤◌, length, IfOk};
ghost use Rattle.std.proofs.Props.{props};

pub mod feeding;

// The most bytes that a line may have, however long the buffer is.
pub const MOST_BYTES: usize = 60_000;

// A line has more bytes than a line may have, or than the buffer holds.
#[derive(Clone, Copy, PartialEq, Eq, Debug)]
pub struct LongLine;

// The first `len` bytes of the buffer are the line read so far, unless it is too long. A line that has ended stands until
// the next piece comes.
#[derive(Drop)]
pub struct Lines<'a> {
    buffer: &'a mut [u8],
    len: Result<usize, LongLine>,
    ended: bool,
    ghost fits: { IfOk len (λ n. (n ≤ length buffer.now) × (n ≤ 60000)) } by { Prim.hlevel props },
}

// What a piece of input did: how many of its bytes were read, and whether the line ended with the last of them. Both are told
// of every piece, so neither is an `Option`: the caller goes on by `used` whether or not the line ended.
#[derive(Clone, Copy)]
pub struct Fed {
    pub used: usize,
    pub ended: bool,
}
