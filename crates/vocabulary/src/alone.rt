// The vocabularies of the catalogue alone and of ranges alone. In each the word `any` reads as the greatest kind.
ghost use Rattle.vocabulary.specs.Alone.{catalogue_words, catalogue_ranges, catalogue_texts, range_words, range_ranges, range_texts};
ghost use Rattle.vocabulary.specs.AloneLaws.{catalogue_laws, range_laws};

use crate::vocabulary::{KindText, Vocabulary};
use crate::words::{catalogued, is_any};
use kinds::catalogue::Catalogue;
use kinds::kind::Kind;
use ranges::range::Range;

pub struct CatalogueAlone;

impl Vocabulary<Catalogue> for CatalogueAlone {
    ghost words = { catalogue_words };

    ghost ranges = { catalogue_ranges };

    ghost texts = { catalogue_texts };

    ghost laws = { catalogue_laws };

    #[tactic(auto, unfolding(crate::specs::Alone::catalogue_words))]
    fn word(word: &[u8]) -> Option<Catalogue> {
        if is_any(word) {
            return Some(Catalogue::Thing);
        }
        catalogued(word)
    }

    fn range(_low: i32, _high: i32) -> Option<Catalogue> {
        None
    }

    fn text(kind: Catalogue) -> KindText {
        KindText::Word(kind.word().as_bytes())
    }
}

pub struct RangesAlone;

impl Vocabulary<Range> for RangesAlone {
    ghost words = { range_words };

    ghost ranges = { range_ranges };

    ghost texts = { range_texts };

    ghost laws = { range_laws };

    #[tactic(auto, unfolding(crate::specs::Alone::range_words))]
    fn word(word: &[u8]) -> Option<Range> {
        is_any(word).then_some(Range::greatest())
    }

    fn range(low: i32, high: i32) -> Option<Range> {
        Range::new(low, high).ok()
    }

    fn text(kind: Range) -> KindText {
        KindText::Range(kind.low(), kind.high())
    }
}
