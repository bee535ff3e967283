//! Signals, each with the text that ends its changes.
ghost use Rattle.std.specs.Prelude.{◌≡◌, ◌+◌, ◌≤◌, ◌++◌, IfOk, decimal, length, map, take};
ghost use Rattle.std.specs.List.{AllByRecursion};
ghost use Rattle.aig_wave.specs.Parts.SignalCodes.{IsSignalCode, signal_in, change_tail};
ghost use Rattle.aig_wave.specs.declared.signal_code.TheConstants.{TAIL};

use crate::digit::write_digits;
use crate::place::letter;
use crate::signal::Signal;
use aig_circuit::OutOfMemory;
use std::alloc::Global;

/// How many bytes that text has at most.
pub(crate) const TAIL: usize = 16;

/// A signal, and the text that ends each of its changes: its code and a line feed. It is made once.
#[derive(Clone, Copy)]
pub(crate) struct SignalCode {
    pub(crate) signal: Signal,
    pub(crate) tail: [u8; TAIL],
    pub(crate) size: usize,
}

/// Writes a text from a place on, and answers where it ends.
#[inline(always)]
pub(crate) fn write_text(line: &mut [u8], at: usize, text: &[u8]) -> usize
    requires { at + length text.now ≤ length line.old }
    ensures end { result ≡ at + length text.now }
    ensures text { take result line.new ≡ take at line.old ++ text.now }
{
    let end = at + text.len();
    line[at..end].copy_from_slice(text);
    end
}

/// Writes a number in decimal from a place on, and answers where it ends.
fn write_decimal(line: &mut [u8], at: usize, number: u32) -> usize
    requires { at + 10 ≤ length line.old }
    ensures within { result ≤ at + 10 }
    ensures text { take result line.new ≡ take at line.old ++ decimal number }
{
    let mut room = [0u8; 64];
    let from = write_digits(u64::from(number), 10, &mut room);
    write_text(line, at, &room[from..])
}

/// Writes the text that ends the changes of a signal, and answers where it ends.
fn write_tail(line: &mut [u8], signal: &Signal) -> usize
    requires { TAIL ≤ length line.old }
    ensures short { result ≤ TAIL }
    ensures text { take result line.new ≡ change_tail signal.now }
{
    let at = write_text(line, 0, &[letter(signal.kind)]);
    let end = write_decimal(line, at, signal.first);
    write_text(line, end, b"\n")
}

impl SignalCode {
    /// The signal_code of a signal.
    fn of(signal: &Signal) -> Self
        ensures signal { signal_in result ≡ signal.now }
        ensures signal_code { IsSignalCode result }
    {
        let mut tail = [0u8; TAIL];
        let size = write_tail(&mut tail, signal);
        SignalCode {
            signal: *signal,
            tail,
            size,
        }
    }

    /// The text that ends its changes.
    #[inline(always)]
    pub(crate) fn tail(&self) -> &[u8]
        requires { IsSignalCode self.now }
        ensures { result.now ≡ change_tail (signal_in self.now) }
    {
        &self.tail[..self.size]
    }
}

/// The signal_codes of signals.
pub(crate) fn signal_codes_of(
    alloc: Global,
    signals: &[Signal],
) -> Result<Vec<SignalCode>, OutOfMemory>
    ensures signals { IfOk result (λ signal_codes. map signal_in signal_codes.items ≡ signals.now) }
    ensures signal_codes { IfOk result (λ signal_codes.
        AllByRecursion IsSignalCode signal_codes.items) }
{
    let mut signal_codes = Vec::with_capacity(alloc, signals.len())?;
    for signal in signals {
        signal_codes.push(SignalCode::of(signal))?;
    }
    Ok(signal_codes)
}
