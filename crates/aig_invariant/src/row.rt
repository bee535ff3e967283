//! The rows of an invariant's file, each judged on its own.
ghost use Rattle.std.specs.Prelude.{◌≡◌, map, Err, IfErr, Ok, OnOk};
ghost use Rattle.aig_circuit.specs.declared.circuit.Latch.{Latch as LatchRecord};
ghost use Rattle.aig_invariant.specs.Invariant.{is_off_start, starts_apart};
ghost use Rattle.aig_invariant.specs.InvariantText.{cube_in, fault_in, is_passed, row_says};
ghost use Rattle.aig_invariant.specs.Parts.Rows.{IsRightLine, IsWrongLine};
ghost use Rattle.aig_invariant.specs.Parts.Rows.{are_values, cube_at, is_row, is_value, row_of};
ghost use Rattle.aig_invariant.specs.Parts.Rows.{value_or_x};

use aig_core::{Latch, Reset};
use aig_fault::{Fault, Kind, Place};

/// Whether a line says nothing of a cube.
pub(crate) fn is_passed(text: &[u8]) -> bool
    ensures { result ≡ is_passed text.now }
{
    text.is_empty() || text[0] == b'#' || text[0] == b'.'
}

#[inline(always)]
fn is_value(character: u8) -> bool
    ensures { result ≡ is_value character }
{
    character == b'0' || character == b'1' || character == b'-'
}

fn are_values(row: &[u8]) -> bool
    ensures { result ≡ are_values row.now }
{
    for character in row {
        if !is_value(*character) {
            return false;
        }
    }
    true
}

/// The characters of a row, without the space and the 1 after them.
pub(crate) fn row_of(text: &[u8]) -> &[u8]
    ensures { result.now ≡ row_of text.now }
{
    let (row, _) = text.split_at(text.len().saturating_sub(2));
    row
}

fn is_row(text: &[u8]) -> bool
    ensures { result ≡ is_row text.now }
{
    let (row, end) = text.split_at(text.len().saturating_sub(2));
    end == b" 1".as_slice() && are_values(row)
}

/// Whether a latch that starts so is not at the value of a character.
#[inline(always)]
fn starts_apart(reset: Reset, character: u8) -> bool
    ensures { result ≡ starts_apart reset (value_or_x character) }
{
    match reset {
        Reset::Zero => character == b'1',
        Reset::One => character == b'0',
        Reset::Uninit => false,
    }
}

/// Whether no first state meets the cube of a row.
fn is_off_start(latches: &[Latch], row: &[u8]) -> bool
    ensures { result ≡ is_off_start (map (λ (l : LatchRecord). l.reset) latches.now)
        (map value_or_x row.now) }
{
    for i in 0..latches.len().min(row.len()) {
        if starts_apart(latches[i].reset, row[i]) {
            return true;
        }
    }
    false
}

/// What is wrong with the line of this number.
fn fault_in(kind: Kind, number: u64) -> Fault
    ensures { result ≡ fault_in kind number }
{
    Fault {
        kind,
        place: Place::Line(number),
        subject: 0,
    }
}

/// Whether a line, which has this number, is a row with a cube that no first state meets.
fn judge_row(latches: &[Latch], text: &[u8], number: u64) -> Result<(), Fault>
    ensures ok { OnOk result (row_says (map (λ (l : LatchRecord). l.reset) latches.now) number
        (cube_in text.now) ≡ Ok (cube_at text.now)) }
    ensures err { IfErr result (λ fault. row_says (map (λ (l : LatchRecord). l.reset) latches.now)
        number (cube_in text.now) ≡ Err fault) }
{
    if !is_row(text) {
        return Err(fault_in(Kind::BadInvariant, number));
    }
    let row = row_of(text);
    if row.len() != latches.len() {
        return Err(fault_in(Kind::NotEachLatch, number));
    }
    if !is_off_start(latches, row) {
        return Err(fault_in(Kind::MetAtStart, number));
    }
    Ok(())
}

/// Whether a line, which has this number, says nothing of a cube or is such a row.
pub(crate) fn judge_line(latches: &[Latch], text: &[u8], number: u64) -> Result<(), Fault>
    ensures ok { OnOk result (IsRightLine (map (λ (l : LatchRecord). l.reset) latches.now) number
        text.now) }
    ensures err { IfErr result (IsWrongLine (map (λ (l : LatchRecord). l.reset) latches.now) number
        text.now) }
{
    if is_passed(text) {
        return Ok(());
    }
    judge_row(latches, text, number)
}
