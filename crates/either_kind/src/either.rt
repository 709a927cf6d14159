// Either of two types of kind, and the form in which a record holds one.
pub mod kind;

// Any kind at all, a kind of the first type, or a kind of the second.
#[derive(Clone, Copy, PartialEq, Eq, Debug)]
pub enum Either<P, Q> {
    Any,
    First(P),
    Second(Q),
}

// The tag says which part is in use: 0 neither, 1 the first, 2 the second. A part that is not in use holds the form of that
// part's greatest kind.
#[derive(Clone, Copy, PartialEq, Eq, Debug)]
pub struct EitherForm<F, G> {
    // A number and no enum: callers keep this form in their own tables, and any number may stand there.
    pub tag: u8,
    pub first: F,
    pub second: G,
}
