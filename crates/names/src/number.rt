// From a name to its number.
ghost use Rattle.std.specs.Prelude.{◌≡◌, ◌<◌, ◌≤◌, length, Decides, MatchOption, slice_index};
ghost use Rattle.names.specs.Names.{Letter, NameByte, figure, NumberOf, NumberLaws, Example};

use crate::ROOM;

// Whether the bytes have the length of a name and begin with a letter.
fn begins_name(bytes: &[u8]) -> bool
    ensures { Decides result ((0 < length bytes.now) × (length bytes.now ≤ 12) × Letter (slice_index bytes.now 0)) }
{
    bytes.len() <= 12 && matches!(bytes, [b'a'..=b'z', ..])
}

// The figure of a byte of a name, and none where no name has the byte.
fn figure_of(byte: u8) -> Option<u64>
    ensures { MatchOption result (NameByte byte → ⊥) (λ f. NameByte byte × (f ≡ figure byte)) }
{
    match byte {
        b'a'..=b'z' => Some(u64::from(byte - b'a') + 1),
        b'0'..=b'9' => Some(u64::from(byte - b'0') + 27),
        b'_' => Some(37),
        _ => None,
    }
}

// The number of a name, and none where the bytes are no name.
pub fn number_of(bytes: &[u8]) -> Option<u64>
    ensures answer { NumberOf bytes.now result }
    ensures laws { NumberLaws }
    ensures example { Example }
{
    if !begins_name(bytes) {
        return None;
    }
    let mut number = 0;
    let mut weight = ROOM;
    for byte in bytes {
        weight /= 38;
        number += figure_of(*byte)? * weight;
    }
    Some(number)
}
