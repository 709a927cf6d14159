// The words that vocabularies share: `any`, and the words of the catalogue.
ghost use Rattle.std.specs.Prelude.{◌≡◌, codes};
ghost use Rattle.std.specs.Str.{bytes_eq};
ghost use Rattle.kinds.specs.Catalogue.{listed};
ghost use Rattle.vocabulary.specs.Alone.{named};

use kinds::catalogue::Catalogue;

pub(crate) fn is_any(word: &[u8]) -> bool
    ensures { result ≡ bytes_eq word.now (codes "any") }
{
    word == b"any".as_slice()
}

// The kind of the catalogue that has this word.
pub(crate) fn catalogued(word: &[u8]) -> Option<Catalogue>
    ensures { result ≡ named word.now listed }
{
    Catalogue::all()
        .into_iter()
        .find(|kind| word == kind.word().as_bytes())
}
