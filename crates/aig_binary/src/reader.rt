//! The reader of binary files.
ghost use Rattle.std.specs.Prelude.{◌≡◌, ◌+◌, ◌^◌, ◌<◌, IfOk, IfErr, MatchResult, OnOk};
ghost use Rattle.std.specs.List.{range_with_len};
ghost use Rattle.aig_fault.specs.declared.stopped.Stopped.TheVariants.{OutOfMemory};
ghost use Rattle.aig_lines.specs.Lines.{IsBehind, lines_of};
ghost use Rattle.aig_rows.specs.Outcomes.{GivesOrFails, GivesOrMemory};
ghost use Rattle.aig_circuit.specs.declared.circuit.Circuit.{Circuit as CircuitRecord};
ghost use Rattle.aig_text.specs.Begun.{IsLimited};
ghost use Rattle.aig_text.specs.Reading.{IsFirstFault};
ghost use Rattle.aig_rows.specs.Reading.{at_line};
ghost use Rattle.aig_checked.specs.BinaryOrder.{IsInBinaryOrder};
ghost use Rattle.aig_binary.specs.BinaryGrammar.{IsBinaryText};
ghost use Rattle.aig_binary.specs.BinaryReading.{filled, with_definitions};
ghost use Rattle.aig_binary.specs.BinaryReading.{binary_at, first_binary_fault};
ghost use Rattle.aig_binary.specs.Begun.{filled_header_at};

use crate::pieces::BinaryReader;
use aig_core::{Checked, Circuit, Gate, Listing, Ordered, Var};
use aig_fault::{Kind, Stopped, refused_at};
use aig_lines::Cursor;
use aig_text::{Header, Limits, Pieces, header};
use std::alloc::Global;

/// The first word of a binary file.
pub const BINARY_WORD: &[u8] = b"aig";

/// The header, where its definitions are all the variables.
fn check_filled(header: Header) -> Result<Header, Stopped>
    ensures value { result ≡ at_line 1 (filled header) }
    ensures same { IfOk result (λ h. h ≡ header) }
    ensures all { IfOk result (λ h. h.inputs + h.latches + h.gates ≡ header.max_var) }
{
    let all = u64::from(header.inputs) + u64::from(header.latches) + u64::from(header.gates);
    if u64::from(header.max_var) == all {
        return Ok(header);
    }
    Err(refused_at(Kind::BadHeader, 1))
}

#[tactic(auto, using(aig_checked::proofs::Numbered::range_more))]
fn inputs(alloc: Global, count: u32) -> Result<Listing<Var>, Stopped>
    requires { count < 2 ^ 31 }
    ensures ok { IfOk result (λ found. found ≡ range_with_len 1 count) }
    ensures err { IfErr result (λ e. e ≡ OutOfMemory) }
{
    let mut found = Listing::from_vec(Vec::with_capacity(alloc, count as usize)?);
    for at in 0..count {
        found.push(Var(at + 1))?;
    }
    Ok(found)
}

/// Adds the definitions that no line tells.
pub(crate) fn add_definitions(
    alloc: Global,
    header: &Header,
    gates: Listing<Gate>,
    circuit: &mut Circuit,
) -> Result<(), Stopped>
    requires { header.now.inputs < 2 ^ 31 }
    ensures ok { OnOk result (circuit.new ≡ with_definitions header.now gates circuit.old) }
    ensures err { IfErr result (λ e. e ≡ OutOfMemory) }
{
    circuit.inputs = inputs(alloc, header.inputs)?;
    circuit.gates = gates;
    Ok(())
}

/// Reads the header line, which has to promise all definitions, and moves past it.
pub(crate) fn filled_header(at: &mut Cursor, limits: Limits) -> Result<Header, Stopped>
    ensures header { GivesOrFails (λ header. (header, at.new)) result
        (filled_header_at limits.max_var at.old) }
    ensures limited { IfOk result (λ h. IsLimited h) }
    ensures behind { IsBehind at.old at.new }
{
    let promised = header(BINARY_WORD, at, limits)?;
    check_filled(promised)
}

/// Whether it is well formed is not checked here.
fn read_unchecked(alloc: Global, bytes: &[u8], limits: Limits) -> Result<Circuit, Stopped>
    ensures { GivesOrMemory (λ c. c) result (binary_at limits.max_var (lines_of bytes.now)) }
{
    let mut at = Cursor::new(bytes);
    let header = filled_header(&mut at, limits)?;
    let reader = BinaryReader::new(alloc, Ok(header), at.number);
    match reader.finish(alloc, at.rest) {
        Ok(found) => found.with_comment_of(alloc, at.rest),
        Err(fault) => Err(fault),
    }
}

/// Reads a binary file, within these limits. The error is the first fault of the text, or that
/// memory ran out.
pub fn read_binary(alloc: Global, bytes: &[u8], limits: Limits) -> Result<Checked, Stopped>
    ensures ok { IfOk result (λ c. IsBinaryText bytes.now limits.max_var c) }
    ensures ordered { IfOk result (λ c. IsInBinaryOrder c) }
    ensures only { (c : CircuitRecord) → IsBinaryText bytes.now limits.max_var c
        → MatchResult result (λ d. d ≡ c) (λ e. e ≡ OutOfMemory) }
    ensures fault { IfErr result (λ e. IsFirstFault e
        (first_binary_fault limits.max_var bytes.now)) }
{
    // What is read of a binary file is well formed already: its gates are in order, and define all
    // that is used. That it is in binary order stays known, so nobody need look at its gates again.
    let circuit = read_unchecked(alloc, bytes, limits)?;
    Ok(Ordered::from_well_ordered(circuit).into_checked())
}
