//! Whether a plan is right for a circuit. Nothing is taken from how it was found.
ghost use Rattle.std.specs.Prelude.{◌≡◌, ◌+◌, ◌≢◌, IfSome, IsNone, IsTrue, length, ℕ};
ghost use Rattle.std.specs.List.{All, Contains, zip};
ghost use Rattle.aig_circuit.specs.declared.circuit.Gate.{Gate as GateRecord};
ghost use Rattle.aig_circuit.specs.Literal.{negation_of, variable_of};
ghost use Rattle.aig_checked.specs.BinaryOrder.{AreOrderedGates};
ghost use Rattle.aig_cuts.specs.declared.cut.Cut.{Cut as CutData};
ghost use Rattle.aig_cuts.specs.declared.cut.Cut.TheVariants as cuts;
ghost use Rattle.aig_cuts.specs.Cuts.{IsAndOf, IsChoice, IsCutOf, IsKept, IsRightAs};

use crate::cut::{Cut, Multiplexer};
use aig_checked::Ordered;
use aig_circuit::{Gate, Lit, Var};

/// The gate that defines a variable, if it is left out. The first gate defines `first`.
#[inline(always)]
fn inner_gate(first: usize, gates: &[Gate], plan: &[Cut], variable: Var) -> Option<Gate>
    requires { AreOrderedGates first gates.now }
    ensures out { IfSome result (λ g. Contains (zip gates.now plan.now) (g, cuts.Inner)) }
    ensures named { IfSome result (λ g. g.var ≡ variable) }
    ensures kept { IsNone result → IsKept (zip gates.now plan.now) variable }
{
    let place = variable.0 as usize;
    if place < first {
        return None;
    }
    let at = place - first;
    if at >= gates.len() || at >= plan.len() {
        return None;
    }
    let cut = plan[at];
    match cut {
        Cut::Inner => Some(gates[at]),
        _ => None,
    }
}

/// Whether no gate that is left out defines the literal's variable.
#[inline(always)]
fn is_kept(first: usize, gates: &[Gate], plan: &[Cut], literal: Lit) -> bool
    requires { AreOrderedGates first gates.now }
    ensures { IsTrue result → IsKept (zip gates.now plan.now) (variable_of literal) }
{
    inner_gate(first, gates, plan, literal.var()).is_none()
}

/// Whether these are the gate's operands, in either order.
#[inline(always)]
fn is_and_of(gate: &Gate, one: Lit, other: Lit) -> bool
    ensures { IsTrue result → IsAndOf gate.now one other }
{
    (gate.left == one && gate.right == other) || (gate.left == other && gate.right == one)
}

/// Whether a multiplexer is made of two gates: the one is 1 where what is chosen is 1 and the
/// selector is, the other where it is and the selector is 0.
#[inline(always)]
fn are_made(one: &Gate, other: &Gate, multiplexer: &Multiplexer) -> bool
    ensures one { IsTrue result
        → IsAndOf one.now multiplexer.now.selector multiplexer.now.if_one }
    ensures other { IsTrue result
        → IsAndOf other.now (negation_of multiplexer.now.selector) multiplexer.now.if_zero }
{
    is_and_of(one, multiplexer.selector, multiplexer.if_one)
        && is_and_of(other, multiplexer.selector.negated(), multiplexer.if_zero)
}

/// Whether a gate is the negation of a multiplexer, by gates that are left out.
fn is_choice(
    first: usize,
    gates: &[Gate],
    plan: &[Cut],
    gate: &Gate,
    multiplexer: &Multiplexer,
) -> bool
    requires { AreOrderedGates first gates.now }
    ensures { IsTrue result → IsChoice (zip gates.now plan.now) gate.now multiplexer.now }
{
    if !gate.left.is_negated() || !gate.right.is_negated() {
        return false;
    }
    match (
        inner_gate(first, gates, plan, gate.left.var()),
        inner_gate(first, gates, plan, gate.right.var()),
    ) {
        (Some(left), Some(right)) => {
            are_made(&left, &right, multiplexer) || are_made(&right, &left, multiplexer)
        }
        _ => false,
    }
}

/// Whether a gate may be written so.
fn is_right(first: usize, gates: &[Gate], plan: &[Cut], gate: &Gate, cut: &Cut) -> bool
    requires { AreOrderedGates first gates.now }
    ensures { IsTrue result → IsRightAs (zip gates.now plan.now) gate.now cut.now }
{
    match cut {
        Cut::Plain | Cut::Inner => {
            is_kept(first, gates, plan, gate.left) && is_kept(first, gates, plan, gate.right)
        }
        Cut::Choice(multiplexer) => is_choice(first, gates, plan, gate, multiplexer),
    }
}

/// Whether each gate may be written as a plan has it.
fn are_right(first: usize, gates: &[Gate], plan: &[Cut]) -> bool
    requires ordered { AreOrderedGates first gates.now }
    requires many { length plan.now ≡ length gates.now }
    ensures { IsTrue result → (g : GateRecord) (cut : CutData)
        → Contains (zip gates.now plan.now) (g, cut) → IsRightAs (zip gates.now plan.now) g cut }
{
    for at in 0..gates.len() {
        if !is_right(first, gates, plan, &gates[at], &plan[at]) {
            return false;
        }
    }
    true
}

/// Whether no gate that is left out defines the variable of one of these literals.
fn are_kept(first: usize, gates: &[Gate], plan: &[Cut], literals: &[Lit]) -> bool
    requires { AreOrderedGates first gates.now }
    ensures { IsTrue result
        → All (λ (l : ℕ). IsKept (zip gates.now plan.now) (variable_of l)) literals.now }
{
    for literal in literals {
        if !is_kept(first, gates, plan, *literal) {
            return false;
        }
    }
    true
}

/// Whether a plan is right for a circuit. It takes no memory.
pub fn is_cut(plan: &[Cut], circuit: &Ordered) -> bool
    ensures { IsTrue result → IsCutOf plan.now circuit.now }
{
    let circuit = circuit.as_checked().circuit();
    let bad = circuit.bad.as_slice();
    let first = 1 + circuit.inputs.len() + circuit.latches.len();
    let gates = circuit.gates.as_slice();
    if plan.len() != gates.len() {
        return false;
    }
    are_right(first, gates, plan) && are_kept(first, gates, plan, bad)
}
