// Either of two types of kind as a type of kind: each part keeps its order and its meet, and a kind of the first type has
// nothing in common with one of the second.
ghost use Rattle.std.specs.Prelude.{◌≡◌, codes};
ghost use Rattle.either_kind.specs.Either.{Under, joint, form_of, kind_of, unused, printed};
ghost use Rattle.either_kind.specs.EitherLaws.{either_laws, either_meets};
ghost use Rattle.either_kind.specs.declared.either.Either.TheVariants.{Any};

use crate::either::{Either, EitherForm};
use kinds::kind::Kind;
use std::fmt;

// Whether this is the form of the greatest kind, as a part that is not in use has it.
fn is_unused<K: Kind>(stored: K::Form) -> bool
    ensures { result ≡ unused K.Kind.laws stored }
{
    K::read(stored).is_some_and(|kind| K::greatest().at_or_below(kind))
}

// Printed is `any`, or the kind of the part as that part is printed.
impl<P: fmt::Display, Q: fmt::Display> fmt::Display for Either<P, Q> {
    ghost output = { printed (codes "any") P.Display.output Q.Display.output };

    fn fmt<W: fmt::Write>(&self, f: &mut fmt::Formatter<W>) -> fmt::Result {
        match self {
            Either::Any => f.pad("any"),
            Either::First(kind) => kind.fmt(f),
            Either::Second(kind) => kind.fmt(f),
        }
    }
}

impl<P: Kind, Q: Kind> Kind for Either<P, Q> {
    type Form = EitherForm<P::Form, Q::Form>;

    ghost below = { Under P.Kind.laws Q.Kind.laws };

    ghost top = { Any };

    ghost form = { form_of P.Kind.laws Q.Kind.laws };

    ghost kind = { kind_of P.Kind.laws Q.Kind.laws };

    ghost laws = { either_laws P.Kind.laws Q.Kind.laws };

    ghost common = { joint P.Kind.common Q.Kind.common };

    ghost meets = { either_meets P.Kind.laws Q.Kind.laws P.Kind.meets Q.Kind.meets };

    fn greatest() -> Either<P, Q> {
        Self::Any
    }

    fn at_or_below(self, other: Either<P, Q>) -> bool {
        match (self, other) {
            (_, Either::Any) => true,
            (Either::First(a), Either::First(b)) => a.at_or_below(b),
            (Either::Second(a), Either::Second(b)) => a.at_or_below(b),
            _ => false,
        }
    }

    fn meet(self, other: Either<P, Q>) -> Option<Either<P, Q>> {
        match (self, other) {
            (Either::Any, kind) | (kind, Either::Any) => Some(kind),
            (Either::First(a), Either::First(b)) => Some(Either::First(a.meet(b)?)),
            (Either::Second(a), Either::Second(b)) => Some(Either::Second(a.meet(b)?)),
            (Either::First(_), Either::Second(_)) | (Either::Second(_), Either::First(_)) => None,
        }
    }

    fn store(self) -> EitherForm<P::Form, Q::Form> {
        match self {
            Either::Any => EitherForm {
                tag: 0,
                first: P::greatest().store(),
                second: Q::greatest().store(),
            },
            Either::First(a) => EitherForm {
                tag: 1,
                first: a.store(),
                second: Q::greatest().store(),
            },
            Either::Second(b) => EitherForm {
                tag: 2,
                first: P::greatest().store(),
                second: b.store(),
            },
        }
    }

    fn read(stored: EitherForm<P::Form, Q::Form>) -> Option<Either<P, Q>> {
        match stored.tag {
            0 if is_unused::<P>(stored.first) && is_unused::<Q>(stored.second) => Some(Either::Any),
            1 if is_unused::<Q>(stored.second) => Some(Either::First(P::read(stored.first)?)),
            2 if is_unused::<P>(stored.first) => Some(Either::Second(Q::read(stored.second)?)),
            _ => None,
        }
    }
}
