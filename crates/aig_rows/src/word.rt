//! Digits, eight bytes at a time.
ghost use Rattle.std.specs.Prelude.{◌≡◌, ◌*◌, ◌-◌, ◌%◌, ◌^◌, ◌<◌, ◌≤◌, ℕ, List};
ghost use Rattle.std.specs.Prelude.{length, take, nat_le, IfSome};
ghost use Rattle.std.specs.Float.Numeral.{digits_len};
ghost use Rattle.std.specs.Int.Digits.{number_from_digits};
ghost use Rattle.std.specs.Simd.Lanes.{number_l};
ghost use Rattle.std.specs.Slice.Scan.{digits_from, flag_word, little_endian};
ghost use Rattle.std.specs.Str.Parse.{digits_value};
ghost use Rattle.core.specs.Dec2flt.Digits.{IsEightBytes, IsEightDigits};

/// The first eight bytes, the first in the lowest byte of the word.
#[inline(always)]
pub(crate) fn first_word(bytes: &[u8]) -> u64
    requires { 8 ≤ length bytes.now }
    ensures { result ≡ little_endian bytes.now 0 }
{
    u64::from_le_bytes([
        bytes[0], bytes[1], bytes[2], bytes[3], bytes[4], bytes[5], bytes[6], bytes[7],
    ])
}

/// The number that eight digits spell, the first in the lowest byte.
#[inline(always)]
fn value_of_eight(word: u64) -> u64
    ensures { (ds : List ℕ) → IsEightDigits ds → word ≡ number_l 256 ds
        → result ≡ number_from_digits 10 ds }
{
    let pairs = word.wrapping_mul(10).wrapping_add(word >> 8);
    let first = (pairs & 0x0000_00ff_0000_00ff).wrapping_mul(100 + (1_000_000 << 32));
    let second = ((pairs >> 16) & 0x0000_00ff_0000_00ff).wrapping_mul(1 + (10_000 << 32));
    first.wrapping_add(second) >> 32
}

/// The high bit of each byte that is 10 or more. No sum carries into the next byte.
#[inline(always)]
fn flags_from_ten(word: u64) -> u64
    ensures { (byte : ℕ → ℕ) → ((k : ℕ) → byte k < 256) → word ≡ digits_from byte 0 8
        → result ≡ flag_word (λ k. nat_le 10 (byte k)) }
{
    ((word & 0x7f7f_7f7f_7f7f_7f7f) + 0x7676_7676_7676_7676 | word) & 0x8080_8080_8080_8080
}

/// The word with its first bytes, so many, moved up to the end.
#[inline(always)]
fn keep_first(word: u64, count: u32) -> u64
    requires some { 0 < count }
    requires fits { count ≤ 8 }
    ensures { result ≡ word * 256 ^ (8 - count) % 2 ^ 64 }
{
    word << (64 - 8 * count)
}

/// The number that the first bytes of a word spell, so many, if they all are digits.
#[inline(always)]
pub(crate) fn digits_of_word(word: u64, count: u32) -> Option<u64>
    requires some { 0 < count }
    requires fits { count ≤ 8 }
    ensures { (bytes : List ℕ) → IsEightBytes bytes → word ≡ number_l 256 bytes
        → IfSome result (λ value.
        (count ≤ digits_len bytes) × (value ≡ digits_value 10 (take count bytes))) }
{
    // the value of a byte that is a digit, and 10 or more of any other
    let digits = word ^ 0x3030_3030_3030_3030;
    if flags_from_ten(digits).trailing_zeros() / 8 < count {
        return None;
    }
    Some(value_of_eight(keep_first(digits, count)))
}
