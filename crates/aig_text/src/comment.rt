//! The comment of a circuit, taken out of the last bytes of what was read.
ghost use Rattle.std.specs.Prelude.{◌≡◌, ◌-◌, ◌≤◌, IfErr, IfOk, MatchResult, drop, length};
ghost use Rattle.aig_fault.specs.declared.stopped.Stopped.TheVariants.{OutOfMemory};
ghost use Rattle.aig_text.specs.Reading.{HasRoomFor, with_comment, with_last_comment};

use aig_core::{Circuit, Listing};
use aig_fault::Stopped;
use std::alloc::{AllocError, Global};

/// A circuit whose comment is still among the bytes that were read.
#[derive(Drop)]
pub struct Uncommented {
    pub circuit: Circuit,
    /// How many of the last bytes are its comment, if it has one.
    pub comment_len: Option<usize>,
}

impl Uncommented {
    /// The comment is copied.
    pub fn with_comment_of(self, alloc: Global, bytes: &[u8]) -> Result<Circuit, Stopped>
        requires { HasRoomFor self.comment_len bytes.now }
        ensures ok { IfOk result
            (λ c. c ≡ with_last_comment bytes.now self.comment_len self.circuit) }
        ensures err { IfErr result (λ e. e ≡ OutOfMemory) }
    {
        let Some(len) = self.comment_len else {
            return Ok(self.circuit);
        };
        let (_, comment) = bytes.split_at(bytes.len() - len);
        with_comment(self.circuit, Vec::from_slice(alloc, comment))
    }

    /// The comment stays in the memory of the bytes.
    pub fn with_comment_in(self, bytes: Vec<u8>) -> Result<Circuit, Stopped>
        requires { HasRoomFor self.comment_len bytes.items }
        ensures ok { IfOk result
            (λ c. c ≡ with_last_comment bytes.items self.comment_len self.circuit) }
        ensures err { IfErr result (λ e. e ≡ OutOfMemory) }
    {
        let Some(len) = self.comment_len else {
            return Ok(self.circuit);
        };
        with_comment(self.circuit, last_bytes(bytes, len))
    }
}

/// The circuit with this comment, unless memory for it was refused.
fn with_comment(circuit: Circuit, comment: Result<Vec<u8>, AllocError>) -> Result<Circuit, Stopped>
    ensures { MatchResult comment
        (λ bytes. result ≡ Ok (with_comment circuit bytes.items))
        (λ _. result ≡ Err OutOfMemory) }
{
    let mut circuit = circuit;
    match comment {
        Ok(comment) => {
            circuit.comment = Some(Listing::from_vec(comment));
            Ok(circuit)
        }
        Err(refused) => {
            drop(circuit); // for the proof
            Err(Stopped::from(refused))
        }
    }
}

/// The last bytes, so many, in the same memory, of which no more is kept.
pub fn last_bytes(bytes: Vec<u8>, count: usize) -> Result<Vec<u8>, AllocError>
    requires { count ≤ length bytes.items }
    ensures { IfOk result (λ last.
        last.items ≡ drop (length bytes.items - count) bytes.items) }
{
    let mut bytes = bytes;
    let len = bytes.len();
    bytes.copy_within(len - count..len, 0);
    bytes.truncate(count);
    bytes.shrink_to_fit();
    if bytes.capacity() > count {
        return Err(AllocError);
    }
    Ok(bytes)
}
