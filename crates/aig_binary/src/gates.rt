//! Gates: each by two deltas, one gate after the other.
ghost use Rattle.std.specs.Prelude.{◌≡◌, ◌+◌, ◌-◌, ◌*◌, ◌^◌, ◌<◌, ◌≤◌, ◌++◌};
ghost use Rattle.std.specs.Prelude.{◌⊎◌, ◌↔◌, List, ℕ, Err, IfErr, IfOk, IfSome, Ok};
ghost use Rattle.std.specs.Prelude.{IsTrue, OnOk, drop, length, nat_le};
ghost use Rattle.std.specs.List.{list_all};
ghost use Rattle.aig_fault.specs.declared.stopped.Stopped.TheVariants.{OutOfMemory};
ghost use Rattle.aig_fault.specs.declared.kind.Kind.TheVariants.{Truncated};
ghost use Rattle.aig_rows.specs.Outcomes.{GivesOrFails, GivesOrMemory};
ghost use Rattle.aig_binary.specs.BinaryReading.{no_delta, lowered_at, gate_at};
ghost use Rattle.aig_binary.specs.Begun.{NoneIsThere, gates_from};

use crate::delta::{get_delta, get_short_delta};
use aig_core::{Gate, Listing, Lit, Var};
use aig_fault::{Kind, Place, Stopped, refused};
use std::alloc::AllocError;

fn all_go_on(bytes: &[u8]) -> bool
    ensures { result ≡ list_all (λ b. nat_le 128 b) bytes.now }
{
    bytes.iter().all(|byte| *byte >= 128)
}

#[cold]
#[inline(never)]
fn no_delta(bytes: &[u8]) -> Kind
    ensures { result ≡ no_delta bytes.now }
{
    if bytes.len() < 5 && all_go_on(bytes) {
        return Kind::Truncated;
    }
    Kind::BadDelta
}

/// A literal less the delta at the front, which is at least so much, and what follows it.
#[inline(always)]
#[tactic(auto, unfolding(crate::specs::BinaryReading::lowered_at))]
fn lower(from: u32, least: u32, bytes: &[u8]) -> Result<(u32, &[u8]), Kind>
    ensures literal { GivesOrFails (λ x. (x.0, x.1.now)) result (lowered_at from least bytes.now) }
    ensures shorter { IfOk result (λ x. length x.1.now ≤ length bytes.now) }
{
    let Some((delta, count)) = get_delta(bytes) else {
        return Err(no_delta(bytes));
    };
    if delta < least || from < delta {
        return Err(Kind::BadDelta);
    }
    let (_, rest) = bytes.split_at(count);
    Ok((from - delta, rest))
}

#[cold]
#[inline(never)]
#[tactic(auto, unfolding(crate::specs::BinaryReading::gate_at))]
fn read_gate(variable: u32, bytes: &[u8]) -> Result<(Gate, &[u8]), Kind>
    requires { 2 * variable < 2 ^ 32 }
    ensures gate { GivesOrFails (λ x. (x.0, x.1.now)) result (gate_at variable bytes.now) }
    ensures shorter { IfOk result (λ x. length x.1.now ≤ length bytes.now) }
{
    let (left, rest) = lower(2 * variable, 1, bytes)?;
    let (right, rest) = lower(left, 0, rest)?;
    let gate = Gate {
        var: Var(variable),
        left: Lit(left),
        right: Lit(right),
    };
    Ok((gate, rest))
}

/// The same as `lower`, where the delta is short and right.
#[inline(always)]
#[tactic(auto, unfolding(crate::specs::BinaryReading::lowered_at))]
fn lower_by_short(from: u32, least: u32, bytes: &[u8]) -> Option<(u32, &[u8])>
    requires { 4 ≤ length bytes.now }
    ensures literal { IfSome result (λ x. lowered_at from least bytes.now ≡ Ok (x.0, x.1.now)) }
    ensures few { IfSome result (λ x. length bytes.now ≤ length x.1.now + 4) }
    ensures shorter { IfSome result (λ x. length x.1.now ≤ length bytes.now) }
{
    let (delta, count) = get_short_delta(bytes)?;
    if delta < least || from < delta {
        return None;
    }
    let (_, rest) = bytes.split_at(count);
    Some((from - delta, rest))
}

/// The same as `read_gate`, where both deltas are short and right, and eight bytes stand there.
#[inline(always)]
#[tactic(auto, unfolding(crate::specs::BinaryReading::gate_at))]
fn short_gate(variable: u32, bytes: &[u8]) -> Option<(Gate, &[u8])>
    requires { 2 * variable < 2 ^ 32 }
    ensures gate { IfSome result (λ x. gate_at variable bytes.now ≡ Ok (x.0, x.1.now)) }
    ensures shorter { IfSome result (λ x. length x.1.now ≤ length bytes.now) }
{
    if bytes.len() < 8 {
        return None;
    }
    let (left, rest) = lower_by_short(2 * variable, 1, bytes)?;
    let (right, rest) = lower_by_short(left, 0, rest)?;
    let gate = Gate {
        var: Var(variable),
        left: Lit(left),
        right: Lit(right),
    };
    Some((gate, rest))
}

pub(crate) fn is_cut(kind: &Kind) -> bool
    ensures { IsTrue result ↔ (kind.now ≡ Truncated) }
{
    match kind {
        Kind::Truncated => true,
        _ => false,
    }
}

/// Adds gates like `read_first_gates`, as long as each is found by `short_gate`. In a loop of its
/// own no gate passes through the memory where `read_gate` leaves its answer.
#[inline(never)]
fn read_short_gates(
    found: &mut Listing<Gate>,
    variable: u32,
    count: u32,
    bytes: &[u8],
) -> Result<usize, AllocError>
    requires variables { variable + count ≤ 2 ^ 31 }
    requires fewer { length found.old ≤ count }
    ensures on { IfOk result (λ used. (more : List ℕ)
        → gates_from variable count found.old (bytes.now ++ more)
        ≡ gates_from variable count found.new (drop used bytes.now ++ more)) }
    ensures fewer { OnOk result (length found.new ≤ count) }
    ensures grown { OnOk result (length found.old ≤ length found.new) }
    ensures within { IfOk result (λ used. used ≤ length bytes.now) }
{
    let mut rest = bytes;
    for at in found.len() as u32..count {
        let Some((gate, behind)) = short_gate(variable + at, rest) else {
            return Ok(bytes.len() - rest.len());
        };
        found.push(gate)?;
        rest = behind;
    }
    Ok(bytes.len() - rest.len())
}

/// Adds the next gates to those that were found, as far as the bytes tell them and no more than
/// `count` are found then; the first gate has this variable. Answers how many bytes these gates
/// take.
pub(crate) fn read_first_gates(
    found: &mut Listing<Gate>,
    variable: u32,
    count: u32,
    bytes: &[u8],
) -> Result<usize, Stopped>
    requires variables { variable + count ≤ 2 ^ 31 }
    requires fewer { length found.old ≤ count }
    ensures on { IfOk result (λ used. (more : List ℕ)
        → gates_from variable count found.old (bytes.now ++ more)
        ≡ gates_from variable count found.new (drop used bytes.now ++ more)) }
    ensures all { IfOk result (λ used. NoneIsThere variable count found.new (drop used bytes.now)) }
    ensures fewer { OnOk result (length found.new ≤ count) }
    ensures within { IfOk result (λ used. used ≤ length bytes.now) }
    ensures err { IfErr result (λ e. (e ≡ OutOfMemory) ⊎ ((more : List ℕ)
        → gates_from variable count found.old (bytes.now ++ more) ≡ Err e)) }
{
    let mut rest = bytes;
    loop {
        let used = read_short_gates(found, variable, count, rest)?;
        let (_, others) = rest.split_at(used);
        rest = others;
        let at = found.len() as u32;
        if at == count {
            return Ok(bytes.len() - rest.len());
        }
        match read_gate(variable + at, rest) {
            Ok((gate, behind)) => {
                found.push(gate)?;
                rest = behind;
            }
            Err(kind) => {
                if is_cut(&kind) {
                    return Ok(bytes.len() - rest.len());
                }
                return Err(refused(kind, Place::Gate(u64::from(at) + 1), 0));
            }
        }
    }
}

/// The gates that were found, with the others up to so many in all, and what follows them.
pub(crate) fn read_gates(
    found: Listing<Gate>,
    variable: u32,
    count: u32,
    bytes: &[u8],
) -> Result<(Listing<Gate>, &[u8]), Stopped>
    requires variables { variable + count ≤ 2 ^ 31 }
    requires fewer { length found ≤ count }
    ensures gates { GivesOrMemory (λ x. (x.0, x.1.now)) result
        (gates_from variable count found bytes.now) }
    ensures last { IfOk result
        (λ x. x.1.now ≡ drop (length bytes.now - length x.1.now) bytes.now) }
    ensures shorter { IfOk result (λ x. length x.1.now ≤ length bytes.now) }
{
    let mut found = found;
    let used = match read_first_gates(&mut found, variable, count, bytes) {
        Ok(used) => used,
        Err(fault) => {
            drop(found); // for the proof
            return Err(fault);
        }
    };
    let read = found.len();
    if read < count as usize {
        drop(found); // for the proof
        return Err(refused(Kind::Truncated, Place::Gate(read as u64 + 1), 0));
    }
    let (_, rest) = bytes.split_at(used);
    Ok((found, rest))
}
