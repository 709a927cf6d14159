// The trait of vocabularies. A vocabulary belongs to a type of kind: it turns words and ranges into kinds, and every kind into the
// text that is written for it, which reads as that kind.
ghost use Rattle.std.specs.Prelude.{◌≡◌, ℕ, List, ℤ, Some, codes, Option};
ghost use Rattle.vocabulary.specs.Texts.{Text, VocabularyLaws};
ghost use Rattle.vocabulary.specs.Words.{meant};

use kinds::kind::Kind;

// How a kind is written: a word, or a range from a low to a high end.
#[derive(Clone, Copy)]
pub enum KindText {
    Word(&'static [u8]),
    Range(i32, i32),
}

pub trait Vocabulary<K: Kind> {
    // The kind that a word reads as, and none where it is no kind's word.
    ghost words: { List ℕ → Option K };

    // The kind that a range reads as, and none where it is no kind.
    ghost ranges: { ℤ → ℤ → Option K };

    // What each kind is written as.
    ghost texts: { K → Text };

    ghost laws: { VocabularyLaws words ranges texts };

    fn word(word: &[u8]) -> Option<K>
        ensures value { result ≡ words word.now }
        ensures any { word.now ≡ codes "any" → result ≡ Some K.Kind.top };

    fn range(low: i32, high: i32) -> Option<K>
        ensures { result ≡ ranges low high };

    fn text(kind: K) -> KindText
        ensures { meant result ≡ texts kind };
}
