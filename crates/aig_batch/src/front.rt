//! The front of a stimulus: runs that are stepped side by side, group by group.
ghost use Rattle.std.specs.Prelude.{◌≡◌, ◌≤◌, IfOk, List, length};
ghost use Rattle.std.specs.List.{All};
ghost use Rattle.aig_circuit.specs.declared.value.Val.{Val as Value};
ghost use Rattle.aig_lanes.specs.declared.run.Run.{Run as RunRecord};
ghost use Rattle.aig_batch.specs.Parts.RunsRead.{HasNoBadLine, SaysEntries, entries_of_groups};

use crate::runs_read::read_group;
use aig_circuit::OutOfMemory;
use aig_lanes::RunGroup;
use std::alloc::Global;

/// The fewest runs that are worth stepping side by side.
const FEWEST: usize = 16;

/// The runs at the front of a stimulus, as far as there are enough to step them side by side, group
/// by group, and what comes after them.
pub(crate) fn read_front_groups<'a>(
    alloc: Global,
    inputs: usize,
    bytes: &'a [u8],
) -> Result<(Vec<RunGroup<'a>>, &'a [u8]), OutOfMemory>
    requires { HasNoBadLine inputs bytes.now }
    ensures says { IfOk result (λ front.
        SaysEntries inputs bytes.now (entries_of_groups front.0.items) front.1.now) }
    ensures few { IfOk result (λ front.
        All (λ (runs : List RunRecord). length runs ≤ 256) front.0.items) }
    ensures fits { IfOk result (λ front. All (λ (runs : List RunRecord). All (λ (run : RunRecord).
        All (λ (vector : List Value). length vector ≡ inputs) run.steps) runs) front.0.items) }
{
    let mut groups = Vec::new(alloc);
    let mut rest = bytes;
    loop {
        let (group, more) = read_group(alloc, inputs, rest)?;
        if group.as_slice().len() < FEWEST {
            return Ok((groups, rest));
        }
        groups.push(group)?;
        rest = more;
    }
}
