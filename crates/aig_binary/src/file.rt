//! Files of either kind.
ghost use Rattle.std.specs.Prelude.{◌≡◌, IfOk, IfErr, MatchResult};
ghost use Rattle.aig_fault.specs.declared.stopped.Stopped.TheVariants.{OutOfMemory};
ghost use Rattle.aig_circuit.specs.declared.circuit.Circuit.{Circuit as CircuitRecord};
ghost use Rattle.aig_text.specs.Reading.{IsFirstFault};
ghost use Rattle.aig_binary.specs.File.{IsFileOf, first_fault};

use crate::reader::{BINARY_WORD, read_binary};
use aig_core::{Checked, Keep};
use aig_fault::Stopped;
use aig_text::{Limits, first_word_is, read_ascii};
use std::alloc::Global;

/// Reads a file of either kind, within these limits: as a binary file if that is what its first
/// word says, otherwise as an ASCII file, of whose check it keeps what is wanted later. A binary
/// file has its gates in order. The error is the first fault of the text, or that memory ran out.
pub fn read_file(
    alloc: Global,
    bytes: &[u8],
    limits: Limits,
    keep: Keep,
) -> Result<Checked, Stopped>
    ensures ok { IfOk result (λ c. IsFileOf bytes.now limits.max_var c) }
    ensures only { (c : CircuitRecord) → IsFileOf bytes.now limits.max_var c
        → MatchResult result (λ d. d ≡ c) (λ e. e ≡ OutOfMemory) }
    ensures fault { IfErr result (λ e. IsFirstFault e (first_fault limits.max_var bytes.now)) }
{
    if first_word_is(bytes, BINARY_WORD) {
        read_binary(alloc, bytes, limits)
    } else {
        read_ascii(alloc, bytes, limits, keep)
    }
}
