//! The levels of a circuit's gates.
ghost use Rattle.std.specs.Prelude.{◌≡◌, IfOk, unwrap_or};
ghost use Rattle.std.specs.FinMap.{get};
ghost use Rattle.aig_circuit.specs.Literal.{variable_of};
ghost use Rattle.aig_circuit.specs.Wellformed.{IsWellFormed};
ghost use Rattle.aig_info.specs.Depth.{IsDepth};

use aig_circuit::{Circuit, Lit, OutOfMemory};
use aig_tables::VarMap;
use aig_topo::{Steps, gate_order};
use std::alloc::Global;

/// How many gates the longest path from a literal's variable has: none from an input or a latch.
fn level_of(levels: &VarMap<u32>, literal: Lit) -> u32
    ensures { result ≡ unwrap_or (get levels.now (variable_of literal)) 0 }
{
    levels.get(literal.var()).unwrap_or(0)
}

/// How many gates stand on the longest path of a circuit, each but the first an operand of the one
/// before it.
pub fn depth(alloc: Global, circuit: &Circuit) -> Result<u32, OutOfMemory>
    requires { IsWellFormed circuit.now }
    ensures { IfOk result (IsDepth circuit.now) }
{
    let order = gate_order(alloc, circuit, &mut Steps::new())?;
    let mut levels = VarMap::for_circuit(alloc, circuit)?;
    let mut depth: u32 = 0;
    for place in order.list() {
        // A gate is listed after those that it uses, so their levels are known.
        let gate = circuit.gates[*place as usize];
        let left = level_of(&levels, gate.left);
        let right = level_of(&levels, gate.right);
        let level = 1 + left.max(right);
        levels.insert(gate.var, level)?;
        depth = depth.max(level);
    }
    Ok(depth)
}
