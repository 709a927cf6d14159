// The names of a path.
ghost use Rattle.std.specs.Prelude.{◌≡◌, [], ◌∷◌, ◌++◌, length, if◌then◌else◌, Some, None, nat_lt};
ghost use Rattle.std.specs.Option.{option_map};
ghost use Rattle.reading.specs.Paths.{named};

use crate::path::Path;
use records::MOST_NAMES;

impl Path {
    pub(crate) fn empty() -> Path
        ensures { named result ≡ [] }
    {
        Path {
            names: [0; MOST_NAMES],
            len: 0,
        }
    }

    // The numbers of the names, in the order of the path.
    pub fn as_slice(&self) -> &[u64]
        ensures { result.now ≡ named self.now }
    {
        &self.names[..self.len]
    }

    // The path with one name more, and none where it has as many as a path may have.
    pub(crate) fn push(self, name: u64) -> Option<Path>
        ensures { option_map named result ≡ (if nat_lt (length (named self)) 16 then Some (named self ++ (name ∷ [])) else None) }
    {
        let at = self.len;
        if at >= MOST_NAMES {
            return None;
        }
        let mut names = self.names;
        names[at] = name;
        Some(Path { names, len: at + 1 })
    }
}
