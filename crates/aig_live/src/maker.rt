//! The circuit for a justice property.
ghost use Rattle.std.specs.Prelude.{◌≡◌, ◌≤◌, ◌++◌, IfErr, IfOk, OnOk};
ghost use Rattle.std.specs.List.{All};
ghost use Rattle.aig_circuit.specs.declared.circuit.Latch.{Latch as LatchRecord};
ghost use Rattle.aig_circuit.specs.declared.circuit.TheConstants.{LARGEST as largest};
ghost use Rattle.aig_circuit.specs.Wellformed.{IsWellFormed};
ghost use Rattle.aig_fault.specs.declared.stopped.Stopped.TheVariants.{OutOfMemory};
ghost use Rattle.aig_live.specs.Laws.{live};
ghost use Rattle.aig_live.specs.Outcome.{HasLive, MakesNone, RefusesLive};
ghost use Rattle.aig_live.specs.WithLoop.{closed, new_gates, with_loop};

use crate::lists::{extend, reserve};
use crate::parts::{list_latches, put_gates};
use crate::variables::Variables;
use aig_checked::Checked;
use aig_circuit::{Circuit, LARGEST, Listing, Lit, Var};
use aig_fault::{Kind, Place, Stopped, refused};
use aig_lasso::{count_goals, with_goals};
use std::alloc::{AllocError, Global};
use std::mem;

/// Adds the new gates to the circuit, and answers the literal that is 1 where the loop is closed.
fn grow_gates(alloc: Global, circuit: &mut Circuit) -> Result<Lit, AllocError>
    requires room { (with_loop circuit.old).max_var ≤ largest }
    requires latches { All (λ (l : LatchRecord). l.var ≤ largest) circuit.old.latches }
    ensures grown { OnOk result
        (circuit.new ≡ record circuit.old { gates = circuit.old.gates ++ new_gates circuit.old }) }
    ensures closed { IfOk result (λ literal. literal ≡ closed circuit.old) }
{
    let mut gates = mem::replace(&mut circuit.gates, Listing::new(alloc));
    let more = 4 + 7 * circuit.latches.len() + 3 * circuit.bad.len();
    reserve(alloc, &mut gates, more)?;
    let closed = put_gates(alloc, circuit, &mut gates)?;
    circuit.gates = gates;
    Ok(closed)
}

/// Makes of a circuit whose bad states are goals the one whose bad state is that a loop which meets
/// them all is closed.
fn add_loop(alloc: Global, circuit: &mut Circuit) -> Result<(), AllocError>
    requires room { (with_loop circuit.old).max_var ≤ largest }
    requires latches { All (λ (l : LatchRecord). l.var ≤ largest) circuit.old.latches }
    ensures { OnOk result (circuit.new ≡ with_loop circuit.old) }
{
    let new = Variables::behind(circuit);
    let latches = list_latches(alloc, circuit)?;
    let closed = grow_gates(alloc, circuit)?;
    extend(alloc, &mut circuit.latches, latches.as_slice())?;
    circuit.inputs.push(Var(new.save))?;
    circuit.bad = Listing::from_vec(vec![in alloc; closed; 1]?);
    circuit.max_var = new.last;
    Ok(())
}

/// Whether the circuit has the justice property, and that for it is not too large. No memory is
/// taken.
fn check_size(found: &Checked, property: u32) -> Result<(), Stopped>
    ensures ok { OnOk result (HasLive property found.now) }
    ensures err { IfErr result (RefusesLive property found.now) }
    ensures well_formed { IsWellFormed found.now }
{
    let circuit = found.circuit();
    let goals = count_goals(found, property)?;
    let variables = circuit.max_var as usize + 6 + 8 * circuit.latches.len() + 4 * goals;
    if (LARGEST as usize) < variables {
        return Err(refused(Kind::TooLargeJustice, Place::Whole, 0));
    }
    Ok(())
}

/// The circuit for a justice property that there is, where it is not too large.
fn make_live(alloc: Global, found: Checked, property: u32) -> Result<Checked, Stopped>
    requires well_formed { IsWellFormed found }
    requires there { HasLive property found }
    ensures ok { IfOk result (λ made. made ≡ live property found) }
    ensures err { IfErr result (λ stopped. stopped ≡ OutOfMemory) }
{
    let mut circuit = with_goals(alloc, found, property)?.into_circuit();
    match add_loop(alloc, &mut circuit) {
        Ok(()) => Ok(Checked::from_well_formed(circuit)),
        Err(_refused) => {
            drop(circuit); // for the proof
            Err(Stopped::OutOfMemory)
        }
    }
}

/// Makes of a circuit and the number of one of its justice properties the circuit for it, whose one
/// bad state can be reached exactly where a run without end is fair to the property. It has no
/// justice, no fairness and no names.
pub fn live(alloc: Global, found: Checked, property: u32) -> Result<Checked, Stopped>
    ensures ok { IfOk result (λ made. made ≡ live property found) }
    ensures there { OnOk result (HasLive property found) }
    ensures err { IfErr result (MakesNone property found) }
{
    match check_size(&found, property) {
        Ok(()) => make_live(alloc, found, property),
        Err(fault) => {
            drop(found); // for the proof
            Err(fault)
        }
    }
}
