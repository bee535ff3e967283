//! Readers that take a file piece by piece, and the loop by which a source serves them.
ghost use Rattle.std.specs.Prelude.{◌≡◌, ◌+◌, ◌^◌, ◌<◌, ◌≤◌, ◌++◌, ◌↔◌, ℕ};
ghost use Rattle.std.specs.Prelude.{List, Result, IfErr, IfOk, IsTrue};
ghost use Rattle.std.specs.Prelude.{OnOk, drop, false, length, vec_len};
ghost use Rattle.aig_circuit.specs.declared.circuit.Circuit.{Circuit as CircuitRecord};
ghost use Rattle.aig_io.specs.Devices.{GaveSome};
ghost use Rattle.aig_io.specs.Windows.{Filled};
ghost use Rattle.aig_fault.specs.declared.stopped.Stopped.{Stopped as Fault};
ghost use Rattle.aig_rows.specs.Outcomes.{GivesOrMemory};
ghost use Rattle.aig_text.specs.Begun.{ReadsOn};
ghost use Rattle.aig_text.specs.Reading.{HasRoomFor, with_last_comment};
ghost use Rattle.aig_text.specs.Sources.{ComesOn, NotAllCame, ReadsAs, ReadsFrom};

use crate::comment::Uncommented;
use aig_core::{Circuit, ReadError, Source, Window, read_to_end};
use aig_fault::Stopped;
use aig_lines::ended_lines;
use std::alloc::Global;

/// A reader that takes the bytes of a file piece by piece.
pub trait Pieces: Drop {
    /// The circuit that the other bytes tell to it.
    ghost rest: { Self → List ℕ → Result CircuitRecord Fault };

    /// The number of the next line.
    ghost next_line: { Self → ℕ };

    /// What it holds is within the limits of the header.
    ghost is_valid: { Self → Type 0 };

    /// All was read that comes in pieces.
    ghost has_all: { Self → Type 0 };

    /// It takes none of these bytes.
    ghost leaves: { Self → List ℕ → Type 0 };

    /// Whether it takes whole lines alone of the bytes that come next.
    fn takes_lines(&self) -> bool;

    fn is_done(&self) -> bool
        ensures { IsTrue result ↔ has_all self.now };

    /// Reads what the bytes that come next tell. Answers how many it took.
    fn advance(&mut self, alloc: Global, bytes: &[u8]) -> usize
        requires counted { next_line self.old + length bytes.now < 2 ^ 64 }
        requires valid { is_valid self.old }
        ensures on { (more : List ℕ) → ReadsOn (rest self.old (bytes.now ++ more))
            (rest self.new (drop result bytes.now ++ more)) }
        ensures within { result ≤ length bytes.now }
        ensures all { leaves self.new (drop result bytes.now) }
        ensures number { next_line self.new ≤ next_line self.old + result }
        ensures valid { is_valid self.new };

    fn finish(self, alloc: Global, bytes: &[u8]) -> Result<Uncommented, Stopped>
        requires counted { next_line self + length bytes.now < 2 ^ 64 }
        requires valid { is_valid self }
        ensures read { GivesOrMemory
            (λ x. with_last_comment bytes.now x.comment_len x.circuit) result
            (rest self bytes.now) }
        ensures within { IfOk result (λ x. HasRoomFor x.comment_len bytes.now) };
}

/// Fetches bytes, and more of them until a line has ended where whole lines are wanted. Answers
/// whether the source goes on.
pub fn fetch_piece<R: Source>(
    source: &mut R,
    window: &mut Window,
    whole_lines: bool,
) -> Result<bool, ReadError>
    ensures ok { IfOk result (λ more. Filled window.old window.new more (R.history source.old)
        (R.history source.new)) }
    ensures bound { OnOk result (R.bound source.new + length window.new
        ≡ R.bound source.old + length window.old) }
    ensures fewer { IfOk result (λ more. IsTrue more → R.bound source.new < R.bound source.old) }
    ensures err { IfErr result (λ error. GaveSome error (R.history source.old)
        (R.history source.new)) }
{
    loop {
        let held = window.as_slice().len();
        if !window.fill(source)? {
            return Ok(false);
        }
        let (_, came) = window.as_slice().split_at(held);
        let (lines, _) = ended_lines(came);
        if !whole_lines || !lines.is_empty() {
            return Ok(true);
        }
    }
}

pub fn fetch_all<R: Source>(
    source: &mut R,
    window: Window,
    more: bool,
) -> Result<Vec<u8>, ReadError>
    ensures ok { IfOk result (λ all. ComesOn window all.items more false (R.history source.old)
        (R.history source.new)) }
    ensures bound { IfOk result (λ all. vec_len all ≤ R.bound source.old + length window) }
    ensures err { IfErr result (λ error.
        NotAllCame error more (R.history source.old) (R.history source.new)) }
{
    let mut bytes = window.into_bytes();
    if more {
        read_to_end(source, &mut bytes)?;
    }
    Ok(bytes)
}

/// Answers whether the source goes on.
fn read_pieces<R: Source, P: Pieces>(
    alloc: Global,
    source: &mut R,
    window: &mut Window,
    reader: &mut P,
) -> Result<bool, ReadError>
    requires valid { P.is_valid reader.old }
    requires counted { P.next_line reader.old + length window.old + R.bound source.old ≤ 2 ^ 63 }
    ensures ok { IfOk result (λ more. ReadsFrom (P.rest reader.old) (P.rest reader.new)
        window.old window.new more (R.history source.old) (R.history source.new)) }
    ensures valid { OnOk result (P.is_valid reader.new) }
    ensures counted { OnOk result
        (P.next_line reader.new + length window.new + R.bound source.new ≤ 2 ^ 63) }
    ensures err { IfErr result (λ error. GaveSome error (R.history source.old)
        (R.history source.new)) }
{
    let mut more = true;
    while more && !reader.is_done() {
        let used = reader.advance(alloc, window.as_slice());
        window.pass(used);
        let whole_lines = reader.takes_lines();
        more = fetch_piece(source, window, whole_lines)?;
    }
    Ok(more)
}

/// The circuit that the last bytes tell to a reader. Its comment stays in their memory.
fn finish_with<P: Pieces>(alloc: Global, reader: P, bytes: Vec<u8>) -> Result<Circuit, Stopped>
    requires counted { P.next_line reader + length bytes.items < 2 ^ 64 }
    requires valid { P.is_valid reader }
    ensures { GivesOrMemory (λ c. c) result (P.rest reader bytes.items) }
{
    match reader.finish(alloc, bytes.as_slice()) {
        Ok(found) => found.with_comment_in(bytes),
        Err(fault) => Err(fault),
    }
}

pub fn read_rest<R: Source, P: Pieces>(
    alloc: Global,
    source: &mut R,
    window: Window,
    reader: P,
) -> Result<Circuit, Stopped>
    requires valid { P.is_valid reader }
    requires counted { P.next_line reader + length window + R.bound source.old ≤ 2 ^ 63 }
    ensures { ReadsAs
        (λ answer bytes. GivesOrMemory (λ c. c) answer (P.rest reader (window ++ bytes))) result
        (R.history source.old) (R.history source.new) }
{
    let mut reader = reader;
    let mut window = window;
    let more = read_pieces(alloc, source, &mut window, &mut reader)?;
    let bytes = fetch_all(source, window, more)?;
    finish_with(alloc, reader, bytes)
}
