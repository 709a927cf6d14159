// The numbers that digits write.
ghost use Rattle.std.specs.Prelude.{◌≡◌, ◌^◌, ◌<◌, true, length};
ghost use Rattle.std.specs.Option.{SomeIff};
ghost use Rattle.std.specs.Str.{all_ascii_digits};
ghost use Rattle.tokens.specs.Tokens.{value, well_formed, number_of};

use std::str;

// Whether there is a digit, and no zero first: `0` alone may be one.
fn well_formed(minus: bool, digits: &[u8]) -> bool
    ensures { result ≡ well_formed minus digits.now }
{
    match digits {
        [] => false,
        [b'0', rest @ ..] => !minus && rest.is_empty(),
        _ => true,
    }
}

// The number that digits write, if there is a digit and the number fits 32 bits.
fn magnitude(digits: &[u8]) -> Option<u32>
    requires { all_ascii_digits digits.now ≡ true }
    ensures { SomeIff result ((0 < length digits.now) × (value digits.now < 2 ^ 32)) (value digits.now) }
{
    str::from_utf8(digits).ok()?.parse().ok()
}

// The number that a sign and digits write, if their form and range are right.
pub(super) fn number_of(minus: bool, digits: &[u8]) -> Option<i32>
    requires { all_ascii_digits digits.now ≡ true }
    ensures { result ≡ number_of minus digits.now }
{
    if !well_formed(minus, digits) {
        return None;
    }
    let size = magnitude(digits)?;
    if minus {
        0i32.checked_sub_unsigned(size)
    } else {
        i32::try_from(size).ok()
    }
}
