//! The reader of ASCII files.
ghost use Rattle.std.specs.Prelude.{◌≡◌, IfOk, IfErr, MatchResult};
ghost use Rattle.aig_fault.specs.declared.stopped.Stopped.TheVariants.{OutOfMemory};
ghost use Rattle.aig_circuit.specs.declared.circuit.Circuit.{Circuit as CircuitRecord};
ghost use Rattle.aig_lines.specs.Lines.{lines_of};
ghost use Rattle.aig_rows.specs.Outcomes.{GivesOrMemory};
ghost use Rattle.aig_text.specs.Reading.{IsFirstFault, first_ascii_fault};
ghost use Rattle.aig_text.specs.Reading.{circuit_at, empty_circuit};
ghost use Rattle.aig_text.specs.Reading.{tail_at, unless_faulty};
ghost use Rattle.aig_circuit.specs.Form.{IsInForm};
ghost use Rattle.aig_core.specs.Fault.{first_structural_fault};
ghost use Rattle.aig_core.specs.Names.{nothing_named};
ghost use Rattle.aig_text.specs.AsciiGrammar.{IsAsciiText};

use crate::header_line::{ASCII_WORD, Header};
use crate::limits::Limits;
use crate::parts::{header, tail};
use crate::pieces::Progress;
use crate::section::Format;
use aig_core::{Checked, Circuit, Justice, Keep, Listing, Steps, Symbols, check};
use aig_fault::Stopped;
use aig_lines::Cursor;
use std::alloc::Global;

/// A circuit that has nothing in it.
pub fn empty_circuit(alloc: Global, max_var: u32) -> Circuit
    ensures { result ≡ empty_circuit max_var }
{
    Circuit {
        max_var,
        inputs: Listing::new(alloc),
        latches: Listing::new(alloc),
        outputs: Listing::new(alloc),
        bad: Listing::new(alloc),
        constraints: Listing::new(alloc),
        justice: Justice {
            sizes: Listing::new(alloc),
            literals: Listing::new(alloc),
        },
        fairness: Listing::new(alloc),
        gates: Listing::new(alloc),
        symbols: Symbols::new(alloc),
        comment: None,
    }
}

/// The circuit with the symbols and the comment of the lines from here on.
fn with_tail(
    alloc: Global,
    header: &Header,
    circuit: Circuit,
    at: Cursor,
) -> Result<Circuit, Stopped>
    ensures { GivesOrMemory (λ c. c) result
        (tail_at header.now nothing_named circuit at.entry.number at.entry.lines) }
{
    let rest = at.rest;
    match tail(alloc, header, circuit, at) {
        Ok(found) => found.with_comment_of(alloc, rest),
        Err(fault) => Err(fault),
    }
}

/// Definitions and uses are not checked here.
fn read_unchecked(alloc: Global, bytes: &[u8], limits: Limits) -> Result<Circuit, Stopped>
    ensures { GivesOrMemory (λ c. c) result (circuit_at limits.max_var (lines_of bytes.now)) }
{
    let mut at = Cursor::new(bytes);
    let header = header(ASCII_WORD, &mut at, limits)?;
    match Progress::new(alloc, Format::Ascii, &header).finish(alloc, &header, &mut at) {
        Ok(circuit) => with_tail(alloc, &header, circuit, at),
        Err(fault) => Err(fault),
    }
}

/// Checks a circuit that was read of the lines of a text, and keeps what is wanted of the check
/// later. The error is its first structural fault, or that memory ran out.
pub fn check_read(alloc: Global, circuit: Circuit, keep: Keep) -> Result<Checked, Stopped>
    requires { IsInForm circuit }
    ensures { GivesOrMemory (λ c. c) result
        (unless_faulty circuit (first_structural_fault circuit)) }
{
    match check(alloc, circuit, keep, &mut Steps::new()) {
        Ok(checked) => Ok(checked),
        Err((circuit, fault)) => {
            drop(circuit); // for the proof
            Err(fault)
        }
    }
}

/// Reads an ASCII file, within these limits, and keeps what is wanted of the check later. The error
/// is the first fault of the text, or that memory ran out.
pub fn read_ascii(
    alloc: Global,
    bytes: &[u8],
    limits: Limits,
    keep: Keep,
) -> Result<Checked, Stopped>
    ensures ok { IfOk result (λ c. IsAsciiText bytes.now limits.max_var c) }
    ensures only { (c : CircuitRecord) → IsAsciiText bytes.now limits.max_var c
        → MatchResult result (λ d. d ≡ c) (λ e. e ≡ OutOfMemory) }
    ensures fault { IfErr result (λ e. IsFirstFault e
        (first_ascii_fault limits.max_var bytes.now)) }
{
    let circuit = read_unchecked(alloc, bytes, limits)?;
    check_read(alloc, circuit, keep)
}
