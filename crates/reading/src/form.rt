// Forms: what a line asks of a job.
use crate::draft::Cursor;
use crate::path::Path;

// The word that a form begins with.
#[derive(Clone, Copy)]
pub enum Verb {
    Add,
    Tie,
    Narrow,
    Mark,
    Keep,
    Back,
    Clear,
    Show,
}

// How far a form has been read, which says what may come next.
#[derive(Clone, Copy)]
pub enum Stage {
    // The bracket of the form, then its word.
    Begin,
    Opened,
    // The bracket of the path, then its names.
    Path(Verb),
    InPath(Verb),
    // The bracket of a tie's second path, then its names.
    SecondPath,
    InSecondPath,
    // The place of an add.
    Place,
    // The kind of a narrow: its first token, then the rest of a range.
    Kind,
    Range,
    // The bracket that ends the form, then nothing.
    Close(Verb),
    Closed(Verb),
}

// What has been read of a form: how far, and its paths.
#[derive(Clone, Copy)]
pub(crate) struct Form {
    pub(crate) stage: Stage,
    pub(crate) first: Path,
    pub(crate) second: Path,
}

// A form that has been read, and the cursor of the draft of its place or kind.
#[derive(Clone, Copy)]
pub(crate) struct FormCursor {
    pub(crate) form: Form,
    pub(crate) cur: Cursor,
}
