// The names of paths as they are read.
ghost use Rattle.std.specs.Prelude.{◌≡◌};
ghost use Rattle.vocabulary.specs.Texts.{Word};
ghost use Rattle.reading.specs.Paths.{named};
ghost use Rattle.reading.specs.Forming.{shown, one_more};

use crate::fault::{ReadFault, Rule};
use crate::path::Path;
use names::number::number_of;

// The word at `byte` is one name more of the path.
pub(crate) fn push_name(path: Path, word: &[u8], byte: usize) -> Result<Path, ReadFault>
    requires { Word word.now }
    ensures { shown result ≡ one_more word.now (named path) byte }
{
    let name = number_of(word).ok_or(ReadFault::Broken(Rule::LongName, byte))?;
    path.push(name)
        .ok_or(ReadFault::Broken(Rule::LongPath, byte))
}
