// The draft of a sheet: what has been read of a line, with places and slots in the order of the text.

// A tag of the text: its number, and the byte where that number stands.
#[derive(Clone, Copy)]
pub struct Tag {
    pub number: u8,
    pub byte: usize,
}

// A place that the text describes: its kind, the place in whose brackets it stands, and its tag.
#[derive(Clone, Copy)]
pub struct Place<K> {
    pub kind: K,
    pub parent: usize,
    pub tag: Option<Tag>,
}

// Where a slot leads: to a place by its number in the text, or to the place that a tag describes, wherever in the line that is.
#[derive(Clone, Copy)]
pub enum Target {
    To(usize),
    ByTag(Tag),
}

// A slot that the text names: the place that has it, the number of its name, and where it leads.
#[derive(Clone, Copy)]
pub struct Slot {
    pub owner: usize,
    pub name: u64,
    pub target: Target,
}

// The square bracket that begins a range, with the tag before it.
#[derive(Clone, Copy)]
pub struct Bracket {
    pub tag: Option<Tag>,
    pub byte: usize,
}

// What was read last, which says what may come next.
#[derive(Clone, Copy)]
pub enum Mode {
    // A place is to begin.
    Begin,
    // The bracket of a place.
    Opened,
    // A hash sign.
    Hashed,
    // A tag with its number.
    Tagged(Tag),
    // The bracket of a range, the low end, the dots, the high end.
    Low(Bracket),
    Dotted(Bracket, i32),
    High(Bracket, i32),
    Ranged(Bracket, i32, i32),
    // The kind of a place, or one of its slots.
    Inside,
    // The whole place; a tag where the line has nothing but a reference.
    Done(Option<Tag>),
}

// How far a line has been read: the mode, the innermost open place, and how many places and slots the draft has.
#[derive(Clone, Copy)]
pub struct Cursor {
    pub mode: Mode,
    pub top: usize,
    pub places: usize,
    pub slots: usize,
}
