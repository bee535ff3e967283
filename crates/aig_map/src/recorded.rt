//! What is still needed of a map block once there are tables of its variables and its places.
ghost use Rattle.std.specs.Prelude.{◌≡◌, IfOk};
ghost use Rattle.aig_map.specs.Parts.Tables.{IsTakenOutOf};
ghost use Rattle.aig_map.specs.Undone.{exchanges_recorded};

use crate::map_block::{MapBlock, MappedGate};
use aig_core::OutOfMemory;
use std::alloc::Global;

/// What a block records beside variables and places. It takes a byte for each gate, where the block
/// takes twelve.
#[derive(Drop)]
pub struct Recorded {
    /// The largest variable index of the source.
    pub max_var: u32,
    /// Whether it had a comment section.
    pub has_comment: bool,
    /// Whether the operands of each gate changed places, gate by gate in the order of the source.
    pub exchanged: Vec<bool>,
}

fn exchanges(alloc: Global, gates: &[MappedGate]) -> Result<Vec<bool>, OutOfMemory>
    ensures { IfOk result (λ r. r.items ≡ exchanges_recorded gates.now) }
{
    let mut found = vec![in alloc; false; gates.len()]?;
    for (position, gate) in gates.iter().enumerate() {
        found[position] = gate.exchanged;
    }
    Ok(found)
}

/// Takes out of a block what it records beside variables and places. The block is let go, so that
/// it takes no memory while the source is made.
pub fn into_recorded(alloc: Global, block: MapBlock) -> Result<Recorded, OutOfMemory>
    ensures { IfOk result (λ r. IsTakenOutOf block r) }
{
    let exchanged = exchanges(alloc, block.gates.as_slice())?;
    Ok(Recorded {
        max_var: block.max_var,
        has_comment: block.has_comment,
        exchanged,
    })
}
