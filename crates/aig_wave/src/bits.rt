//! Changes of signals of one position, each written whole where it is to stand.
ghost use Rattle.std.specs.Prelude.{◌≡◌, ◌+◌, ◌*◌, ◌≤◌, ◌==◌, ◌++◌, length, take, if◌then◌else◌};
ghost use Rattle.std.specs.List.{AllByRecursion};
ghost use Rattle.aig_io.specs.Output.{Appended};
ghost use Rattle.aig_wave.specs.declared.bits.TheConstants.{GROUP};
ghost use Rattle.aig_wave.specs.declared.signal_code.TheConstants.{TAIL};
ghost use Rattle.aig_wave.specs.Parts.SignalCodes.{AreIn, IsSignalCode, bit_text};
ghost use Rattle.aig_wave.specs.Parts.SignalCodes.{bits_text, signal_in};

use crate::signal_code::{SignalCode, TAIL, write_text};
use aig_io::{Line, Output, Sink};

/// How many signals are written at once.
pub(crate) const GROUP: usize = 32;

/// 1 where two bytes differ, else 0. It has no branch, since nothing foretells which bits change.
#[inline(always)]
fn is_other(one: u8, other: u8) -> usize
    ensures { result ≡ (if one == other then 0 else 1) }
{
    (usize::from(one.wrapping_sub(other)) + 255) / 256
}

/// Writes the change of a signal of one position, and answers where it ends: where it begins, if
/// nothing changes.
#[inline(always)]
fn write_bit(bytes: &mut [u8], at: usize, before: u8, bit: u8, signal_code: &SignalCode) -> usize
    requires room { at + (TAIL + 1) ≤ length bytes.old }
    requires signal_code { IsSignalCode signal_code.now }
    ensures within { result ≤ at + (TAIL + 1) }
    ensures text { take result bytes.new
        ≡ take at bytes.old ++ bit_text before bit (signal_in signal_code.now) }
{
    // a copy of its own is moved at once, since it lies apart from the bytes
    let tail = signal_code.tail;
    let end = write_text(bytes, at, &[bit]);
    write_text(bytes, end, &tail);
    at + (signal_code.size + 1) * is_other(before, bit)
}

/// Signals of one position, and two lines.
#[derive(Drop)]
struct BitChanges<'a> {
    before: &'a [u8],
    line: &'a [u8],
    signal_codes: &'a [SignalCode],
}

impl<'a> Line for BitChanges<'a> {
    type State = ();

    ghost is_whole = { λ l _. AllByRecursion IsSignalCode l.signal_codes.now
        × (AreIn (length l.before.now) l.signal_codes.now
        × AreIn (length l.line.now) l.signal_codes.now) };

    ghost size = { λ l _. length l.signal_codes.now * (TAIL + 1) };

    ghost text = { λ l _. bits_text l.before.now l.line.now l.signal_codes.now };

    ghost leads = { λ _ _ _. Unit {0} };

    #[inline(always)]
    fn write(&self, _state: &mut (), line: &mut [u8], at: usize) -> usize {
        let mut end = at;
        for signal_code in self.signal_codes {
            let place = signal_code.signal.start;
            end = write_bit(line, end, self.before[place], self.line[place], signal_code);
        }
        end
    }
}

/// Puts the values of signals of one position, where they are others than before.
#[inline(always)]
pub(crate) fn put_bits<W: Sink>(
    output: &mut Output<W>,
    before: &[u8],
    line: &[u8],
    signal_codes: &[SignalCode],
)
    requires few { length signal_codes.now ≤ GROUP }
    requires signal_codes { AllByRecursion IsSignalCode signal_codes.now }
    requires before { AreIn (length before.now) signal_codes.now }
    requires line { AreIn (length line.now) signal_codes.now }
    ensures { Appended output.old output.new (bits_text before.now line.now signal_codes.now) }
{
    let mut room = [0u8; GROUP * (TAIL + 1)];
    output.put_line(
        &mut room,
        &BitChanges {
            before,
            line,
            signal_codes,
        },
        &mut (),
    );
}
