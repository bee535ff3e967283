//! Runs that are read at the front of a stimulus.
ghost use Rattle.std.specs.Prelude.{◌≡◌, ◌+◌, ◌<◌, ◌≤◌, List, IfOk, IfSome, length};
ghost use Rattle.std.specs.List.{All, flat_map};
ghost use Rattle.aig_circuit.specs.declared.value.Val.{Val as Value};
ghost use Rattle.aig_lanes.specs.declared.run.Run.{Run as RunRecord};
ghost use Rattle.aig_batch.specs.Parts.RunsRead.{HasNoBadLine, SaysEntries, entries_of_run};
ghost use Rattle.memchr.specs.Find.{IsFirstByte, is_byte};

use aig_circuit::OutOfMemory;
use aig_lanes::{RunGroup, Vectors};
use aig_lines::without_return;
use aig_step::is_stop;
use memchr::memchr;
use std::alloc::Global;

/// How many runs are stepped side by side.
pub(crate) const LANES: usize = 256;

/// How long the first line is, with its line feed; 0 where there is none.
fn first_line_len(bytes: &[u8]) -> usize {
    match memchr(b'\n', bytes) {
        Some(next) => next + 1,
        None => 0,
    }
}

/// The first line feed. A line that does not begin as one that ends a run is a step, since none is
/// bad, so its line feed has its place, and none is looked for.
#[inline(always)]
fn first_end(inputs: usize, bytes: &[u8]) -> Option<usize>
    requires { HasNoBadLine inputs bytes.now }
    ensures { IsFirstByte (is_byte 10) bytes.now result }
{
    if inputs < bytes.len() && bytes[inputs] == b'\n' && bytes[0] != b'.' {
        return Some(inputs);
    }
    memchr(b'\n', bytes)
}

/// The run at the front of the bytes and what comes after it, if it ends there and all its lines
/// have one length but for the last, which ends it. No line is judged again.
fn read_run<'a>(inputs: usize, bytes: &'a [u8]) -> Option<(Vectors<'a>, &'a [u8])>
    requires { HasNoBadLine inputs bytes.now }
    ensures says { IfSome result (λ read.
        SaysEntries inputs bytes.now (entries_of_run read.0) read.1.now) }
    ensures shorter { IfSome result (λ read. length read.1.now < length bytes.now) }
    ensures fits { IfSome result (λ read.
        All (λ (vector : List Value). length vector ≡ inputs) read.0.steps) }
    ensures good { IfSome result (λ read. HasNoBadLine inputs read.1.now) }
{
    let stride = first_line_len(bytes);
    let mut steps = 0;
    let mut rest = bytes;
    while let Some(next) = first_end(inputs, rest) {
        let (line, more) = rest.split_at(next);
        let (_, more) = more.split_at(1);
        if is_stop(without_return(line)) {
            return Some((Vectors::new(bytes, inputs, stride, steps), more));
        }
        if next + 1 != stride {
            return None;
        }
        steps += 1;
        rest = more;
    }
    None
}

/// The runs at the front of the bytes, as many as are stepped side by side or fewer, and what comes
/// after them.
pub(crate) fn read_group<'a>(
    alloc: Global,
    inputs: usize,
    bytes: &'a [u8],
) -> Result<(RunGroup<'a>, &'a [u8]), OutOfMemory>
    requires { HasNoBadLine inputs bytes.now }
    ensures says { IfOk result (λ read.
        SaysEntries inputs bytes.now (flat_map entries_of_run read.0) read.1.now) }
    ensures fits { IfOk result (λ read. All (λ (run : RunRecord).
        All (λ (vector : List Value). length vector ≡ inputs) run.steps) read.0) }
    ensures few { IfOk result (λ read. length read.0 ≤ 256) }
    ensures shorter { IfOk result (λ read. length read.1.now + length read.0 ≤ length bytes.now) }
    ensures good { IfOk result (λ read. HasNoBadLine inputs read.1.now) }
{
    let mut runs = Vec::with_capacity(alloc, LANES)?;
    let mut rest = bytes;
    while runs.len() < LANES {
        let Some((run, more)) = read_run(inputs, rest) else {
            break;
        };
        runs.push(run)?;
        rest = more;
    }
    Ok((RunGroup::new(runs), rest))
}
