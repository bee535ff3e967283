//! Names as words of a dump.
ghost use Rattle.std.specs.Prelude.{◌≡◌, ◌^◌, ◌<◌, None, Some, MatchOption};
ghost use Rattle.aig_wave.specs.Names.{follows, indexed, shown_byte};

use aig_rows::canonical_number;
use memchr::memrchr;

/// The first index that has too many digits.
const INDEX_END: u64 = 1_000_000_000;

/// What a byte of a name is shown as.
pub(crate) fn shown_byte(byte: u8) -> u8
    ensures { result ≡ shown_byte byte }
{
    match byte {
        b'[' => b'(',
        b']' => b')',
        b'$' | b':' => b'_',
        33..=126 => byte,
        _ => b'_',
    }
}

/// The front and the index of a name of that form.
pub(crate) fn split_index(name: &[u8]) -> Option<(&[u8], u64)>
    ensures { MatchOption result (indexed name.now ≡ None)
        (λ x. indexed name.now ≡ Some (record { front = x.0.now; index = x.1 }) × x.1 < 10 ^ 9) }
{
    let at = memrchr(b'[', name)?;
    let (front, rest) = name.split_at(at);
    let (_, digits) = rest.split_at(1);
    let (index, after) = canonical_number(digits, b']')?;
    if front.is_empty() {
        return None;
    }
    if !after.is_empty() {
        return None;
    }
    if index >= INDEX_END {
        return None;
    }
    Some((front, index))
}

/// Whether the second name has the same front as the first, and the next index.
pub(crate) fn follows(name: &[u8], next: &[u8]) -> bool
    ensures { result ≡ follows name.now next.now }
{
    let Some((front, index)) = split_index(name) else {
        return false;
    };
    let Some((other, following)) = split_index(next) else {
        return false;
    };
    front == other && index + 1 == following
}
