//! Groups of signals, whose characters are compared at once.
ghost use Rattle.std.specs.Prelude.{◌≡◌, ◌<◌, ◌≤◌, ◌&&◌, ◌==◌, IfOk, IsTrue, drop, length};
ghost use Rattle.std.specs.Prelude.{take, true};
ghost use Rattle.aig_wave.specs.Parts.Groups.{AreBits, AreSignalGroups, Covers, IsGroup};
ghost use Rattle.aig_wave.specs.Parts.Groups.{IsSignalWithin, stretch};
ghost use Rattle.aig_wave.specs.declared.bits.TheConstants.{GROUP};

use crate::bits::GROUP;
use crate::signal::Signal;
use crate::signal_code::SignalCode;
use aig_circuit::OutOfMemory;
use std::alloc::Global;

/// So many signals, between where their characters stand in a line, and whether each has one
/// position.
#[derive(Clone, Copy)]
pub(crate) struct Group {
    count: usize,
    start: usize,
    end: usize,
    bits: bool,
}

/// The larger of two numbers.
fn larger(one: usize, other: usize) -> usize
    ensures one { one ≤ result }
    ensures other { other ≤ result }
{
    if one < other { other } else { one }
}

/// So many characters of a line, from there on.
#[inline(always)]
pub(crate) fn piece(line: &[u8], start: usize, size: usize) -> &[u8]
    ensures { result.now ≡ take size (drop start line.now) }
{
    let (_, rest) = line.split_at(start.min(line.len()));
    let (front, _) = rest.split_at(size.min(rest.len()));
    front
}

impl Group {
    /// The group with a signal more. A line that has its characters is no longer than memory.
    fn widen(self, signal: &Signal) -> Result<Self, OutOfMemory>
        ensures within { IfOk result (λ g. IsSignalWithin g signal.now) }
        ensures start { IfOk result (λ g. g.start ≤ self.start) }
        ensures end { IfOk result (λ g. self.end ≤ g.end) }
        ensures bits { IfOk result (λ g. g.bits ≡ (self.bits && (signal.now.size == 1))) }
    {
        let Some(end) = signal.start.checked_add(signal.size as usize) else {
            return Err(OutOfMemory);
        };
        Ok(Group {
            count: self.count,
            start: self.start.min(signal.start),
            end: larger(self.end, end),
            bits: self.bits && signal.size == 1,
        })
    }

    /// The group of these signals.
    fn of(signal_codes: &[SignalCode]) -> Result<Self, OutOfMemory>
        ensures count { IfOk result (λ g. g.count ≡ length signal_codes.now) }
        ensures group { IfOk result (λ g. IsGroup g signal_codes.now) }
    {
        let mut group = Group {
            count: 0,
            start: usize::MAX,
            end: 0,
            bits: signal_codes.len() <= GROUP,
        };
        for signal_code in signal_codes {
            let wider = group.widen(&signal_code.signal)?;
            group = wider;
        }
        Ok(Group {
            count: signal_codes.len(),
            start: group.start,
            end: group.end,
            bits: group.bits,
        })
    }

    /// The characters of the group in a line.
    #[inline(always)]
    pub(crate) fn stretch<'a>(&self, line: &'a [u8]) -> &'a [u8]
        ensures { result.now ≡ stretch self.now line.now }
    {
        piece(line, self.start, self.end.saturating_sub(self.start))
    }

    /// Whether each of its signals has one position, and that is in a line.
    #[inline(always)]
    pub(crate) fn has_bits_in(&self, line: &[u8]) -> bool
        ensures bits { IsTrue result → self.now.bits ≡ true }
        ensures within { IsTrue result → self.now.end ≤ length line.now }
    {
        self.bits && self.end <= line.len()
    }

    /// The signals of the group, which stand first, and the others.
    #[inline(always)]
    pub(crate) fn split<'a>(
        &self,
        signal_codes: &'a [SignalCode],
    ) -> (&'a [SignalCode], &'a [SignalCode])
        ensures front { result.0.now ≡ take self.now.count signal_codes.now }
        ensures others { result.1.now ≡ drop self.now.count signal_codes.now }
    {
        signal_codes.split_at(self.count.min(signal_codes.len()))
    }
}

/// How many signals the next group has: the first one, and those after it that have one position,
/// or more, as it has.
fn next_count(signal_codes: &[SignalCode]) -> usize
    ensures within { result ≤ length signal_codes.now }
    ensures some { 0 < length signal_codes.now → 0 < result }
{
    let mut count = signal_codes.len().min(1);
    while count < signal_codes.len() && count < GROUP {
        if (signal_codes[count].signal.size == 1) != (signal_codes[0].signal.size == 1) {
            return count;
        }
        count += 1;
    }
    count
}

/// Signals in groups.
pub(crate) fn groups_of(
    alloc: Global,
    signal_codes: &[SignalCode],
) -> Result<Vec<Group>, OutOfMemory>
    ensures { IfOk result (λ groups. AreSignalGroups groups.items signal_codes.now) }
{
    let mut groups = Vec::new(alloc);
    let mut rest = signal_codes;
    while rest.len() > 0 {
        let (front, others) = rest.split_at(next_count(rest));
        groups.push(Group::of(front)?)?;
        rest = others;
    }
    Ok(groups)
}
