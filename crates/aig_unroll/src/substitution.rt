//! What stands for literals in a frame, and the loops that put it. A table says what stands for
//! each variable up to the last latch; the variables after them are those of gates, which follow
//! on one another in each frame.
ghost use Rattle.std.specs.Prelude.{◌≡◌, ◌+◌, ◌≤◌, length, map};
ghost use Rattle.std.specs.List.{All, range_with_len};
ghost use Rattle.aig_circuit.specs.declared.circuit.Latch.{Latch as LatchRecord};
ghost use Rattle.aig_circuit.specs.declared.circuit.TheConstants.{LARGEST};
ghost use Rattle.aig_circuit.specs.Literal.{literal_of};
ghost use Rattle.aig_unroll.specs.Unrolled.{chain_behind, chained, copied};
ghost use Rattle.aig_unroll.specs.Unrolled.{first_latches, gate_of, guarded};
ghost use Rattle.aig_unroll.specs.Parts.Substitution.{GateHasRoom, FitsLiteral, substituted};

use aig_core::{Gate, Latch, Lit, Reset, Var};

/// The sign carries over without a branch.
#[inline(always)]
#[tactic(auto, using(crate::proofs::InFrame::looked_up))]
fn stands_for(substitution: &[Lit], first_gate: u32, literal: Lit) -> Lit
    requires { FitsLiteral (length substitution.now) first_gate literal }
    ensures { result ≡ substituted substitution.now first_gate literal }
{
    let variable = literal.var().0 as usize;
    if variable < substitution.len() {
        let stands = substitution[variable];
        Lit(stands.0 ^ (literal.0 & 1))
    } else {
        Lit(2 * first_gate + (literal.0 - 2 * substitution.len() as u32))
    }
}

#[inline(always)]
fn make_gate(variable: u32, one: Lit, other: Lit) -> Gate
    ensures { result ≡ gate_of variable one other }
{
    Gate {
        var: Var(variable),
        left: Lit(one.0.max(other.0)),
        right: Lit(one.0.min(other.0)),
    }
}

pub(crate) fn put_numbered(first: u32, out: &mut [Lit])
    requires { first + length out.old ≤ LARGEST + 1 }
    ensures { out.new ≡ map literal_of (range_with_len first (length out.old)) }
{
    let mut variable = first;
    for i in 0..out.len() {
        out[i] = Lit(2 * variable);
        variable += 1;
    }
}

/// Puts what latches start at: their resets, and of uninitialised ones the variables from 1 on.
pub(crate) fn put_first_latches(latches: &[Latch], out: &mut [Lit])
    requires room { length out.old ≡ length latches.now }
    requires small { length latches.now ≤ LARGEST }
    ensures { out.new ≡ first_latches 1 (map (λ (l : LatchRecord). l.reset) latches.now) }
{
    let mut variable = 1;
    for i in 0..latches.len() {
        out[i] = match latches[i].reset {
            Reset::Zero => Lit(0),
            Reset::One => Lit(1),
            Reset::Uninit => {
                variable += 1;
                Lit(2 * (variable - 1))
            }
        };
    }
}

pub(crate) fn put_literals(substitution: &[Lit], first_gate: u32, literals: &[Lit], out: &mut [Lit])
    requires room { length out.old ≡ length literals.now }
    requires below { All (FitsLiteral (length substitution.now) first_gate) literals.now }
    ensures { out.new ≡ map (substituted substitution.now first_gate) literals.now }
{
    for i in 0..literals.len() {
        out[i] = stands_for(substitution, first_gate, literals[i]);
    }
}

pub(crate) fn put_nexts(substitution: &[Lit], first_gate: u32, latches: &[Latch], out: &mut [Lit])
    requires room { length out.old ≡ length latches.now }
    requires below { All
        (λ (l : LatchRecord). FitsLiteral (length substitution.now) first_gate l.next) latches.now }
    ensures { out.new ≡ map (substituted substitution.now first_gate)
        (map (λ (l : LatchRecord). l.next) latches.now) }
{
    for i in 0..latches.len() {
        out[i] = stands_for(substitution, first_gate, latches[i].next);
    }
}

/// Puts gates by what stands for their operands. They have the variables from this one on.
pub(crate) fn put_copies(
    substitution: &[Lit],
    first_gate: u32,
    first: u32,
    gates: &[Gate],
    out: &mut [Gate],
)
    requires room { length out.old ≡ length gates.now }
    requires below { All (GateHasRoom (length substitution.now) first_gate) gates.now }
    requires small { first + length gates.now ≤ LARGEST + 1 }
    ensures { out.new ≡ copied (substituted substitution.now first_gate) first gates.now }
{
    let mut variable = first;
    for i in 0..gates.len() {
        let left = stands_for(substitution, first_gate, gates[i].left);
        let right = stands_for(substitution, first_gate, gates[i].right);
        out[i] = make_gate(variable, left, right);
        variable += 1;
    }
}

/// Each gate is of the chain so far and of what stands for its literal. Answers the new chain.
pub(crate) fn put_chain(
    substitution: &[Lit],
    first_gate: u32,
    first: u32,
    chain: Lit,
    literals: &[Lit],
    out: &mut [Gate],
) -> Lit
    requires room { length out.old ≡ length literals.now }
    requires below { All (FitsLiteral (length substitution.now) first_gate) literals.now }
    requires small { first + length literals.now ≤ LARGEST + 1 }
    ensures gates { out.new ≡ chained first chain
        (map (substituted substitution.now first_gate) literals.now) }
    ensures chain { result ≡ chain_behind first chain literals.now }
{
    let mut variable = first;
    let mut behind = chain;
    for i in 0..literals.len() {
        out[i] = make_gate(
            variable,
            behind,
            stands_for(substitution, first_gate, literals[i]),
        );
        behind = Lit(2 * variable);
        variable += 1;
    }
    behind
}

pub(crate) fn put_guards(
    substitution: &[Lit],
    first_gate: u32,
    first: u32,
    chain: Lit,
    literals: &[Lit],
    out: &mut [Gate],
)
    requires room { length out.old ≡ length literals.now }
    requires below { All (FitsLiteral (length substitution.now) first_gate) literals.now }
    requires small { first + length literals.now ≤ LARGEST + 1 }
    ensures { out.new ≡ guarded first chain (map (substituted substitution.now first_gate)
        literals.now) }
{
    let mut variable = first;
    for i in 0..literals.len() {
        out[i] = make_gate(
            variable,
            chain,
            stands_for(substitution, first_gate, literals[i]),
        );
        variable += 1;
    }
}
