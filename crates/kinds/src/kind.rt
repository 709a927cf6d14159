// The trait of kinds. A kind is what the field calls a sort: an order says which kind is narrower, a meet says what two
// kinds have in common, and a stored form is what a record holds in place of a kind.
//
// The trait has two parts: the order with the stored form, and the meet. What is said of sheets rests on the first alone.
ghost use Rattle.std.specs.Prelude.{◌≡◌, Decides, Option};
ghost use Rattle.kinds.specs.Laws.{KindLaws, MeetLaws, loaded};

pub trait Kind: Copy {
    // The stored form of a kind: plain numbers.
    type Form: Copy;

    // The first kind is at or below the second.
    ghost below: { Self → Self → Type 0 };

    // The greatest kind.
    ghost top: { Self };

    // The stored form of each kind.
    ghost form: { Self → Self.Form };

    // The kind whose stored form this is, and none where it is no kind's.
    ghost kind: { Self.Form → Option Self };

    ghost laws: { KindLaws below top form kind };

    // What two kinds have in common, and none where no kind is at or below both.
    ghost common: { Self → Self → Option Self };

    ghost meets: { MeetLaws below common };

    fn greatest() -> Self
        ensures { result ≡ top };

    // The order question: yes exactly when the order holds.
    fn at_or_below(self, other: Self) -> bool
        ensures { Decides result (below self other) };

    fn meet(self, other: Self) -> Option<Self>
        ensures { result ≡ common self other };

    fn store(self) -> Self::Form
        ensures { result ≡ form self };

    // The kind whose stored form this is, if it is any kind's.
    fn read(stored: Self::Form) -> Option<Self>
        ensures { result ≡ kind stored };

    // The kind that a record with this form holds: a form that is no kind's reads as the greatest.
    fn load(stored: Self::Form) -> Self
        ensures { result ≡ loaded laws stored }
    {
        Self::read(stored).unwrap_or(Self::greatest())
    }
}
