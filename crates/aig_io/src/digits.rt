//! Numbers in decimal, written straight to where they are wanted.
ghost use Rattle.std.specs.Prelude.{◌≡◌, ◌+◌, ◌*◌, ◌/◌, ◌%◌, ◌^◌, ◌<◌, ◌≤◌};
ghost use Rattle.std.specs.Prelude.{ℕ, [], ◌∷◌, ◌++◌, length, decimal, codes};
ghost use Rattle.std.specs.Prelude.{map, take};
ghost use Rattle.std.specs.Simd.Lanes.{number_l};
ghost use Rattle.aig_io.specs.Digits.{last_digits};
ghost use Rattle.aig_io.specs.Output.{row_text};
ghost use Rattle.aig_io.specs.declared.digits.TheConstants.{MOST_DIGITS};

/// How many digits a number has at most.
pub const MOST_DIGITS: usize = 20;

/// The first number of nine digits.
const TEN_TO_THE_EIGHTH: u64 = 100_000_000;

/// The first number of seventeen digits.
const TEN_TO_THE_SIXTEENTH: u64 = 10_000_000_000_000_000;

/// The first number of eleven digits.
const TEN_TO_THE_TENTH: u64 = 10_000_000_000;

/// How many digits a number of at most ten has.
#[inline]
fn short_len(number: u64) -> usize
    requires { number < 10 ^ 10 }
    ensures value { result ≡ length (decimal number) }
    ensures short { result ≤ 10 }
{
    if number < 10_000 {
        if number < 100 {
            if number < 10 { 1 } else { 2 }
        } else if number < 1_000 {
            3
        } else {
            4
        }
    } else if number < 100_000_000 {
        if number < 1_000_000 {
            if number < 100_000 { 5 } else { 6 }
        } else if number < 10_000_000 {
            7
        } else {
            8
        }
    } else if number < 1_000_000_000 {
        9
    } else {
        10
    }
}

/// How many digits a number has.
#[inline]
#[tactic(auto, using(crate::proofs::DigitCounts::ten_less))]
fn decimal_len(number: u64) -> usize
    ensures value { result ≡ length (decimal number) }
    ensures short { result ≤ MOST_DIGITS }
{
    if number < TEN_TO_THE_TENTH {
        short_len(number)
    } else {
        10 + short_len(number / TEN_TO_THE_TENTH)
    }
}

/// The words of all lists of four digits that begin with one of these, in order.
macro_rules! words_of_four {
    ($([$first:tt $second:tt $third:tt $fourth:tt])*) => {
        [$($first + 0x100 * $second + 0x1_0000 * $third + 0x100_0000 * $fourth),*]
    };
    ($([$($digit:tt)*])*) => {
        words_of_four!($(
            [$($digit)* 0] [$($digit)* 1] [$($digit)* 2] [$($digit)* 3] [$($digit)* 4]
            [$($digit)* 5] [$($digit)* 6] [$($digit)* 7] [$($digit)* 8] [$($digit)* 9]
        )*)
    };
}

/// The four digits of each number below 10^4, one in each byte of a word, the first in the lowest.
static FOUR_DIGITS: [u32; 10_000] = words_of_four!([]);

/// The four digits of a number below 10^4.
#[inline(always)]
fn four_digits(number: u32) -> u32
    requires { number < 10 ^ 4 }
    ensures { result ≡ number_l 256 (last_digits 4 number) }
{
    FOUR_DIGITS[number as usize]
}

/// The eight digits of a number below 10^8, one in each byte of a word, the first in the lowest.
#[inline(always)]
fn eight_digits(number: u32) -> u64
    requires { number < 10 ^ 8 }
    ensures { result ≡ number_l 256 (last_digits 8 number) }
{
    let (first, last) = (four_digits(number / 10_000), four_digits(number % 10_000));
    u64::from(first) + (u64::from(last) << 32)
}

/// How many zeros stand before a number in its eight digits.
#[inline(always)]
fn zeros_before(digits: u64) -> u32
    ensures { (n : ℕ) → n < 10 ^ 8 → digits ≡ number_l 256 (last_digits 8 n)
        → result + length (decimal n) ≡ 8 }
{
    // the last digit is marked, since it is written where it is 0 too
    (digits | 1 << 60).trailing_zeros() / 8
}

/// Writes a number below 10^8, as `write_number` writes a number.
#[inline(always)]
fn write_short_number(bytes: &mut [u8], at: usize, number: u32) -> usize
    requires low { number < 10 ^ 8 }
    requires room { at + 8 ≤ length bytes.old }
    ensures within { result ≤ at + 8 }
    ensures len { length bytes.new ≡ length bytes.old }
    ensures text { take result bytes.new ≡ take at bytes.old ++ decimal number }
{
    let digits = eight_digits(number);
    let zeros = zeros_before(digits);
    let text = (digits + 0x3030_3030_3030_3030) >> (8 * zeros);
    bytes[at..at + 8].copy_from_slice(&text.to_le_bytes());
    at + 8 - zeros as usize
}

/// Writes eight digits from a place on.
#[inline(always)]
fn write_eight_digits(bytes: &mut [u8], at: usize, number: u32)
    requires low { number < 10 ^ 8 }
    requires room { at + 8 ≤ length bytes.old }
    ensures len { length bytes.new ≡ length bytes.old }
    ensures text { take (at + 8) bytes.new
        ≡ take at bytes.old ++ map (λ d. 48 + d) (last_digits 8 number) }
{
    let text = eight_digits(number) + 0x3030_3030_3030_3030;
    bytes[at..at + 8].copy_from_slice(&text.to_le_bytes());
}

/// Writes a number of nine to sixteen digits, as `write_number` writes a number.
#[tactic(auto, using(std::proofs::Common::append_assoc, crate::proofs::LeadingDigits::double_text))]
fn write_double_number(bytes: &mut [u8], at: usize, number: u64) -> usize
    requires high { 10 ^ 8 ≤ number }
    requires low { number < 10 ^ 16 }
    requires room { at + 16 ≤ length bytes.old }
    ensures within { result ≤ at + 16 }
    ensures len { length bytes.new ≡ length bytes.old }
    ensures text { take result bytes.new ≡ take at bytes.old ++ decimal number }
{
    let first = (number / TEN_TO_THE_EIGHTH) as u32;
    let last = (number % TEN_TO_THE_EIGHTH) as u32;
    let end = write_short_number(bytes, at, first);
    write_eight_digits(bytes, end, last);
    end + 8
}

/// Writes a number of any size, as `write_number` writes a number.
#[cold]
#[inline(never)]
fn write_long_number(bytes: &mut [u8], at: usize, number: u64) -> usize
    requires { at + MOST_DIGITS ≤ length bytes.old }
    ensures within { result ≤ at + MOST_DIGITS }
    ensures len { length bytes.new ≡ length bytes.old }
    ensures text { take result bytes.new ≡ take at bytes.old ++ decimal number }
{
    let end = at + decimal_len(number);
    itoa::write_digits(number, bytes, end);
    end
}

/// Writes a number's digits from a place on, and answers where they end.
#[inline(always)]
pub(crate) fn write_number(bytes: &mut [u8], at: usize, number: u64) -> usize
    requires { at + MOST_DIGITS ≤ length bytes.old }
    ensures within { result ≤ at + MOST_DIGITS }
    ensures len { length bytes.new ≡ length bytes.old }
    ensures text { take result bytes.new ≡ take at bytes.old ++ decimal number }
{
    if number < TEN_TO_THE_EIGHTH {
        write_short_number(bytes, at, number as u32)
    } else if number < TEN_TO_THE_SIXTEENTH {
        write_double_number(bytes, at, number)
    } else {
        write_long_number(bytes, at, number)
    }
}

/// Writes a space and a number, as `write_number` writes a number.
#[inline(always)]
fn write_spaced_number(bytes: &mut [u8], at: usize, number: u64) -> usize
    requires { at + 1 + MOST_DIGITS ≤ length bytes.old }
    ensures within { result ≤ at + 1 + MOST_DIGITS }
    ensures len { length bytes.new ≡ length bytes.old }
    ensures text { take result bytes.new ≡ take at bytes.old ++ (codes " " ++ decimal number) }
{
    bytes[at] = b' ';
    write_number(bytes, at + 1, number)
}

/// Writes a line of numbers with a space between them, as `write_number` writes a number.
#[inline(always)]
pub(crate) fn write_row(bytes: &mut [u8], at: usize, first: u64, others: &[u64]) -> usize
    requires { at + (length others.now + 1) * (MOST_DIGITS + 1) ≤ length bytes.old }
    ensures within { result ≤ length bytes.old }
    ensures len { length bytes.new ≡ length bytes.old }
    ensures text { take result bytes.new ≡ take at bytes.old ++ row_text first others.now }
{
    let mut end = write_number(bytes, at, first);
    for number in others {
        end = write_spaced_number(bytes, end, *number);
    }
    bytes[end] = b'\n';
    end + 1
}
