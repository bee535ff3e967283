//! The file of an invariant, read from a source.
ghost use Rattle.std.specs.Prelude.{◌≡◌, map, Err, IfErr, IfOk, Ok, OnOk};
ghost use Rattle.aig_circuit.specs.declared.circuit.Latch.{Latch as LatchRecord};
ghost use Rattle.aig_circuit.specs.Wellformed.{IsWellFormed};
ghost use Rattle.aig_io.specs.Devices.{gave_all};
ghost use Rattle.aig_io.specs.Runs.{AtEnd, Read};
ghost use Rattle.aig_lines.specs.Lines.{lines_of};
ghost use Rattle.aig_invariant.specs.Invariant.{with_cubes};
ghost use Rattle.aig_invariant.specs.InvariantText.{cubes_of};
ghost use Rattle.aig_invariant.specs.Outcome.{HasCubes, InvariantSays, NotInvariant};
ghost use Rattle.aig_invariant.specs.Parts.Rows.{cubes_at};

use crate::growth::{free_latches, grow};
use crate::row::judge_line;
use aig_core::{Checked, Circuit, Latch, ReadError, Source, read_all};
use aig_fault::{Fault, Stopped};
use aig_lines::split_line;
use std::alloc::Global;

/// Whether each line is one of an invariant over these latches.
fn check_lines(latches: &[Latch], bytes: &[u8]) -> Result<(), Fault>
    ensures ok { OnOk result (cubes_of (map (λ (l : LatchRecord). l.reset) latches.now) bytes.now
        ≡ Ok (cubes_at (lines_of bytes.now))) }
    ensures err { IfErr result
        (λ fault. cubes_of (map (λ (l : LatchRecord). l.reset) latches.now) bytes.now ≡ Err fault) }
{
    let mut rest = bytes;
    let mut number = 1;
    while let Some((line, more)) = split_line(rest) {
        judge_line(latches, line.text, number)?;
        rest = more;
        number += 1;
    }
    Ok(())
}

/// Adds what the cubes of an invariant ask of a circuit, where the bytes are one of it.
fn take_invariant(alloc: Global, circuit: &mut Circuit, bytes: &[u8]) -> Result<(), Stopped>
    requires { IsWellFormed circuit.old }
    ensures formed { OnOk result (IsWellFormed circuit.new) }
    ensures has { OnOk result (HasCubes circuit.old bytes.now (cubes_at (lines_of bytes.now))) }
    ensures grown { OnOk result
        (circuit.new ≡ with_cubes (cubes_at (lines_of bytes.now)) circuit.old) }
    ensures err { IfErr result (λ stopped. NotInvariant circuit.old stopped bytes.now AtEnd) }
{
    check_lines(circuit.latches.as_slice(), bytes)?;
    grow(alloc, circuit, bytes)
}

/// Makes the circuit in which an invariant is to be shown.
fn strengthen(alloc: Global, found: Checked, bytes: &[u8]) -> Result<Checked, Stopped>
    ensures { InvariantSays found result bytes.now AtEnd }
{
    let mut circuit = found.into_circuit();
    match take_invariant(alloc, &mut circuit, bytes) {
        Ok(()) => Ok(Checked::from_well_formed(free_latches(circuit))),
        Err(fault) => {
            drop(circuit); // for the proof
            Err(fault)
        }
    }
}

/// All bytes of an invariant.
fn read_bytes<R: Source>(alloc: Global, found: &Checked, source: &mut R) -> Result<Vec<u8>, Stopped>
    ensures ok { IfOk result (λ bytes. R.history source.new
        ≡ gave_all bytes.items (R.history source.old)) }
    ensures err { IfErr result (λ stopped. Read (NotInvariant found.now stopped)
        (R.history source.old) (R.history source.new)) }
{
    match read_all(alloc, source) {
        Ok(bytes) => Ok(bytes),
        Err(ReadError::Source) => Err(Stopped::ReadFailed),
        Err(ReadError::OutOfMemory) => Err(Stopped::OutOfMemory),
    }
}

/// Reads an invariant of a circuit to its end, and makes the circuit in which it is to be shown:
/// from any state that meets no cube, while the constraints hold, no bad state is reached and no
/// cube is met next. It fails if the source or an allocation does, or where a line is wrong, is not
/// of that circuit, or has a cube that a first state may meet.
pub fn with_invariant<R: Source>(
    alloc: Global,
    found: Checked,
    source: &mut R,
) -> Result<Checked, Stopped>
    ensures { Read (InvariantSays found result) (R.history source.old) (R.history source.new) }
{
    match read_bytes(alloc, &found, source) {
        Ok(bytes) => {
            let made = strengthen(alloc, found, bytes.as_slice());
            drop(bytes); // for the proof
            made
        }
        Err(fault) => {
            drop(found); // for the proof
            Err(fault)
        }
    }
}
