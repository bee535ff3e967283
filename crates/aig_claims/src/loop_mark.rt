//! The input by which a waveform marks the loop of a lasso.
ghost use Rattle.std.specs.Prelude.{◌≡◌, ◌<◌, IfErr, IfOk, OnOk};
ghost use Rattle.aig_circuit.specs.Wellformed.{IsWellFormed};
ghost use Rattle.aig_circuit.specs.declared.circuit.TheConstants.{LARGEST as largest};
ghost use Rattle.aig_claims.specs.LoopMark.{HasNoVariable, with_loop_mark};
ghost use Rattle.aig_fault.specs.Stopping.{StopsFor};

use aig_checked::Checked;
use aig_circuit::{BorrowedSymbol, Circuit, Kind, LARGEST, Var};
use aig_fault::{Kind as FaultKind, Place, Stopped, refused};
use std::alloc::AllocError;

/// Adds the input, for which a variable is left.
fn add_mark(circuit: &mut Circuit) -> Result<(), AllocError>
    requires well_formed { IsWellFormed circuit.old }
    requires room { circuit.old.max_var < largest }
    ensures { OnOk result (circuit.new ≡ with_loop_mark circuit.old) }
{
    let symbol = BorrowedSymbol {
        kind: Kind::Input,
        position: circuit.inputs.len() as u32,
        name: b"loop",
    };
    let last = circuit.max_var + 1;
    circuit.symbols.push(&symbol)?;
    circuit.inputs.push(Var(last))?;
    circuit.max_var = last;
    Ok(())
}

/// The circuit with an input more, named `loop`, on which nothing depends.
pub fn mark_loop(found: Checked) -> Result<Checked, Stopped>
    ensures ok { IfOk result (λ marked. marked ≡ with_loop_mark found) }
    ensures err { IfErr result (StopsFor (HasNoVariable found)) }
{
    let mut circuit = found.into_circuit();
    if circuit.max_var == LARGEST {
        drop(circuit); // for the proof
        return Err(refused(FaultKind::TooLargeJustice, Place::Whole, 0));
    }
    match add_mark(&mut circuit) {
        Ok(()) => Ok(Checked::from_well_formed(circuit)),
        Err(_refused) => {
            drop(circuit); // for the proof
            Err(Stopped::OutOfMemory)
        }
    }
}
