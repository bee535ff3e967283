//! The check of circuits.
ghost use Rattle.std.specs.Prelude.{◌≡◌, ◌≢◌, ◌↔◌, ◌+◌, ◌*◌, ◌≤◌, IsTrue, IfOk, IfErr, OnOk};
ghost use Rattle.std.specs.Prelude.{None, length};
ghost use Rattle.aig_fault.specs.declared.stopped.Stopped.TheVariants.{OutOfMemory as WantOfMemory};
ghost use Rattle.aig_circuit.specs.Wellformed.{AreDistinct, IsWellFormed, defined_variables};
ghost use Rattle.aig_circuit.specs.Form.{IsInForm};
ghost use Rattle.aig_core.specs.Fault.{first_structural_fault, IsFault};
ghost use Rattle.aig_core.specs.Steps.{steps_a_gate};

use crate::checks::distinct::{is_defined_once_by_parts, is_far};
use crate::checks::faults::{find_fault, find_redefinition};
use aig_checked::Checked;
use aig_circuit::{Circuit, OutOfMemory};
use aig_fault::Stopped;
use aig_topo::Steps;
use std::alloc::Global;

mod distinct;
mod faults;

/// What a check keeps.
#[derive(Clone, Copy)]
pub enum Keep {
    /// The circuit alone: the least time and memory if nobody asks for an order of the gates later.
    Circuit,
    /// The least ready order of the gates too, where they do not stand in order or their indices
    /// lie far apart: for a binary image, which would otherwise make it once more.
    Order,
}

/// Checks a circuit in form, and keeps what is wanted of it later. The error has the circuit as it
/// was, and its first fault or that memory ran out.
pub fn check(
    alloc: Global,
    circuit: Circuit,
    keep: Keep,
    steps: &mut Steps,
) -> Result<Checked, (Circuit, Stopped)>
    requires in_form { IsInForm circuit }
    ensures ok { IfOk result (λ checked. checked ≡ circuit) }
    ensures well_formed { OnOk result (IsWellFormed circuit) }
    ensures ok_faultless { OnOk result (first_structural_fault circuit ≡ None) }
    ensures handed_back { IfErr result (λ e. e.0 ≡ circuit) }
    ensures fault { IfErr result (λ e. IsFault e.1 (first_structural_fault circuit)) }
    ensures refused { IfErr result (λ e. e.1 ≢ WantOfMemory → ¬ IsWellFormed circuit) }
    ensures few { steps.new.count ≤ steps.old.count + steps_a_gate keep * length circuit.gates }
{
    let circuit = match Checked::try_numbered(circuit) {
        Ok(checked) => return Ok(checked),
        Err(circuit) => circuit,
    };
    match find_fault(alloc, &circuit, keep, steps) {
        Ok((order, resolved)) => Ok(Checked::with_order(circuit, order, resolved)),
        Err(fault) => Err((circuit, fault)),
    }
}

/// Whether no variable of a circuit is defined twice.
pub fn is_defined_once(alloc: Global, circuit: &Circuit) -> Result<bool, OutOfMemory>
    ensures { IfOk result (λ once. IsTrue once ↔ AreDistinct (defined_variables circuit.now)) }
{
    if is_far(circuit) {
        return is_defined_once_by_parts(alloc, circuit);
    }
    match find_redefinition(alloc, circuit) {
        Ok(()) => Ok(true),
        Err(Stopped::Refused(_)) => Ok(false),
        Err(_) => Err(OutOfMemory),
    }
}
