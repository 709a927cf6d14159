// Ranges as a type of kind: the order is inclusion, and the meet is the common part.
ghost use Rattle.std.specs.Prelude.{◌≡◌, Some};
ghost use Rattle.ranges.specs.Ranges.{Inside, widest, made, overlap, form_of, range_of, text};
ghost use Rattle.ranges.specs.RangeLaws.{range_laws, range_meets};

use crate::range::{Range, RangeForm};
use kinds::kind::Kind;
use std::fmt;

impl Range {
    // The range from `low` to `high`. Where `low` is above `high` there is none, and the refusal hands both numbers back.
    pub fn new(low: i32, high: i32) -> Result<Range, RangeForm>
        ensures { result ≡ made low high }
    {
        if low <= high {
            Ok(Range { low, high })
        } else {
            Err(RangeForm { low, high })
        }
    }

    pub fn low(self) -> i32
        ensures { result ≡ self.low }
    {
        self.low
    }

    pub fn high(self) -> i32
        ensures { result ≡ self.high }
    {
        self.high
    }
}

// Two numbers are made into a range where they are the ends of one, and are handed back where they are not.
impl TryFrom<RangeForm> for Range {
    type Error = RangeForm;

    ghost try_from_gives = { λ form r. r ≡ made form.low form.high };

    fn try_from(form: RangeForm) -> Result<Range, RangeForm> {
        Range::new(form.low, form.high)
    }
}

impl From<Range> for RangeForm {
    ghost from_gives = { λ range form. form ≡ form_of range };

    fn from(range: Range) -> RangeForm {
        RangeForm {
            low: range.low,
            high: range.high,
        }
    }
}

// A range is printed as sheets spell it, [LOW..HIGH].
impl fmt::Display for Range {
    ghost output = { λ range. Some (text range) };

    fn fmt<W: fmt::Write>(&self, f: &mut fmt::Formatter<W>) -> fmt::Result {
        write!(f, "[{}..{}]", self.low, self.high)
    }
}

impl Kind for Range {
    type Form = RangeForm;

    ghost below = { Inside };

    ghost top = { widest };

    ghost form = { form_of };

    ghost kind = { range_of };

    ghost laws = { range_laws };

    ghost common = { overlap };

    ghost meets = { range_meets };

    fn greatest() -> Range {
        Range {
            low: i32::MIN,
            high: i32::MAX,
        }
    }

    fn at_or_below(self, other: Range) -> bool {
        other.low <= self.low && self.high <= other.high
    }

    fn meet(self, other: Range) -> Option<Range> {
        Range::new(self.low.max(other.low), self.high.min(other.high)).ok()
    }

    fn store(self) -> RangeForm {
        self.into()
    }

    fn read(stored: RangeForm) -> Option<Range> {
        Range::try_from(stored).ok()
    }
}
