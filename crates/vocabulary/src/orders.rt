// The vocabulary of orders: the words of the catalogue and the ranges of numbers, under the greatest kind `any`.
ghost use Rattle.std.specs.Prelude.{◌≡◌, Some, codes};
ghost use Rattle.either_kind.specs.declared.either.Either.TheVariants.{Any};
ghost use Rattle.vocabulary.specs.Texts as written;
ghost use Rattle.vocabulary.specs.Orders.{order_words, order_ranges, order_texts, KindOf};
ghost use Rattle.vocabulary.specs.OrdersLaws.{orders_laws};

use crate::alone::{CatalogueAlone, RangesAlone};
use crate::vocabulary::{KindText, Vocabulary};
use crate::words::is_any;
use either_kind::either::Either;
use kinds::catalogue::Catalogue;
use ranges::range::Range;

pub struct Orders;

impl Vocabulary<Either<Catalogue, Range>> for Orders {
    ghost words = { order_words };

    ghost ranges = { order_ranges };

    ghost texts = { order_texts };

    ghost laws = { orders_laws };

    #[tactic(auto, unfolding(crate::specs::Orders::order_words, crate::specs::Alone::catalogue_words))]
    fn word(word: &[u8]) -> Option<Either<Catalogue, Range>>
        ensures value { result ≡ order_words word.now }
        ensures any { word.now ≡ codes "any" → result ≡ Some Any }
        ensures own { KindOf (written.word word.now) result }
    {
        if is_any(word) {
            return Some(Either::Any);
        }
        CatalogueAlone::word(word).map(Either::First)
    }

    fn range(low: i32, high: i32) -> Option<Either<Catalogue, Range>>
        ensures value { result ≡ order_ranges low high }
        ensures own { KindOf (written.range low high) result }
    {
        RangesAlone::range(low, high).map(Either::Second)
    }

    fn text(kind: Either<Catalogue, Range>) -> KindText {
        match kind {
            Either::Any => KindText::Word(b"any"),
            Either::First(kind) => CatalogueAlone::text(kind),
            Either::Second(range) => RangesAlone::text(range),
        }
    }
}
