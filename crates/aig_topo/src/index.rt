//! The gates of a circuit by the variables that they define.
ghost use Rattle.std.specs.Prelude.{◌≡◌, ◌≤◌, ◌<◌, length, false, not, IfOk, OnOk};
ghost use Rattle.std.specs.Option.{is_some};
ghost use Rattle.std.specs.FinMap.{get, contains_key};
ghost use Rattle.aig_tables.specs.VarMap.{with_new, keys_of};
ghost use Rattle.aig_topo.specs.Index.{IsIndexOf};

use aig_circuit::{Circuit, Gate, LARGEST, Var};
use aig_tables::{Spacing, VarMap, VarSet};
use std::alloc::{AllocError, Global};

/// How many variables are read ahead together.
pub(crate) const AHEAD: usize = 32;

/// Reads ahead where the variables of gates from this position on have their places. None is
/// overfull: that is asked for the sake of the reads alone.
fn is_any_overfull(positions: &VarMap<u32>, gates: &[Gate], from: usize) -> bool
    ensures { result ≡ false }
{
    let end = gates.len().min(from.saturating_add(AHEAD));
    let mut any = false;
    for at in from..end {
        any |= positions.is_overfull(gates[at].var);
    }
    any
}

/// Gives a variable its position, unless it has one, and answers whether it had none. That is told
/// by a set: its bits are in the cache where the positions, of a word each, are not. So the position
/// is written without a read of memory, which would be waited for.
#[inline(always)]
fn insert_unseen(
    positions: &mut VarMap<u32>,
    seen: &mut VarSet,
    var: Var,
    position: u32,
) -> Result<bool, AllocError>
    requires few { position < LARGEST }
    requires same { keys_of positions.old ≡ seen.old }
    ensures added { IfOk result (λ added. added ≡ not (contains_key positions.old var)) }
    ensures ok { OnOk result (positions.new ≡ with_new positions.old var position) }
    ensures same { OnOk result (keys_of positions.new ≡ seen.new) }
{
    if !seen.insert(var)? {
        return Ok(false);
    }
    positions.put(var, position)?;
    Ok(true)
}

/// The gates of a circuit by the variables that they define.
#[derive(Drop)]
pub struct GateIndex {
    /// The position of the first gate that defines a variable.
    pub(crate) positions: VarMap<u32>,
    /// Whether no two gates define one variable.
    is_once: bool,
}

impl GateIndex {
    /// The index of a circuit's gates.
    pub fn new(alloc: Global, circuit: &Circuit) -> Result<Self, AllocError>
        requires { length circuit.now.gates ≤ LARGEST }
        ensures { IfOk result (λ index. IsIndexOf circuit.now.gates index) }
    {
        match Spacing::of_circuit(circuit) {
            Spacing::Near => GateIndex::of_near(alloc, circuit),
            _ => GateIndex::of_spread(alloc, circuit),
        }
    }

    fn of_near(alloc: Global, circuit: &Circuit) -> Result<Self, AllocError>
        requires { length circuit.now.gates ≤ LARGEST }
        ensures { IfOk result (λ index. IsIndexOf circuit.now.gates index) }
    {
        let gates = circuit.gates.as_slice();
        let mut positions = VarMap::for_circuit(alloc, circuit)?;
        let mut seen = VarSet::new(alloc, gates.len(), circuit.max_var)?;
        let mut is_once = true;
        for position in 0..gates.len() {
            let var = gates[position].var;
            is_once &= insert_unseen(&mut positions, &mut seen, var, position as u32)?;
        }
        Ok(GateIndex { positions, is_once })
    }

    fn of_spread(alloc: Global, circuit: &Circuit) -> Result<Self, AllocError>
        requires { length circuit.now.gates ≤ LARGEST }
        ensures { IfOk result (λ index. IsIndexOf circuit.now.gates index) }
    {
        let gates = circuit.gates.as_slice();
        let mut positions = VarMap::for_circuit(alloc, circuit)?;
        let mut is_once = true;
        for position in 0..gates.len() {
            if position % AHEAD == 0 && is_any_overfull(&positions, gates, position) {
                return Err(AllocError);
            }
            is_once &= positions.insert(gates[position].var, position as u32)?;
        }
        Ok(GateIndex { positions, is_once })
    }

    /// Reads ahead, as above, where the variables of operands have their places.
    pub(crate) fn is_any_need_overfull(&self, gates: &[Gate], from: usize) -> bool
        ensures { result ≡ false }
    {
        let end = gates.len().min(from.saturating_add(AHEAD));
        let mut any = false;
        for at in from..end {
            any |= self.positions.is_overfull(gates[at].left.var());
            any |= self.positions.is_overfull(gates[at].right.var());
        }
        any
    }

    /// Whether a gate defines the variable.
    #[inline(always)]
    pub fn has(&self, var: Var) -> bool
        ensures { result ≡ is_some (get self.now.positions var) }
    {
        self.positions.get(var).is_some()
    }

    /// Whether no two gates define one variable.
    pub fn is_once(&self) -> bool
        ensures { result ≡ self.now.is_once }
    {
        self.is_once
    }
}
