//! The digits of a number.
ghost use Rattle.std.specs.Prelude.{◌≡◌, ◌≤◌, false, drop};
ghost use Rattle.std.specs.Fmt.{digits};

/// Writes the digits of a number in a base, of ten or less, to the end of the room, and answers
/// where they begin.
pub(crate) fn write_digits(number: u64, base: u64, room: &mut [u8; 64]) -> usize
    requires least { 2 ≤ base }
    requires most { base ≤ 10 }
    ensures bound { result ≤ 64 }
    ensures value { drop result room.new ≡ digits base false number }
{
    let mut at = 64;
    let mut rest = number;
    while at > 0 {
        at -= 1;
        room[at] = b'0' + (rest % base) as u8;
        rest /= base;
        if rest == 0 {
            return at;
        }
    }
    at
}
