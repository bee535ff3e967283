//! Multiplexers are searched for. Whether what is found is right is checked elsewhere.
ghost use Rattle.std.specs.Prelude.{◌≡◌, ◌+◌, ◌<◌, IfSome, length};
ghost use Rattle.aig_circuit.specs.Wellformed.{IsWellFormed};

use crate::cut::{Cut, Multiplexer};
use aig_circuit::{Circuit, Gate, Lit};
use std::alloc::{AllocError, Global};

/// Counts the use of a literal's variable, up to so many as there are room for.
#[inline(always)]
fn count_use(uses: &mut [u8], literal: Lit) {
    let place = literal.var().0 as usize;
    if place < uses.len() {
        uses[place] = uses[place].saturating_add(1);
    }
}

fn count_literals(uses: &mut [u8], literals: &[Lit]) {
    for literal in literals {
        count_use(uses, *literal);
    }
}

fn count_operands(uses: &mut [u8], gates: &[Gate]) {
    for gate in gates {
        count_use(uses, gate.left);
        count_use(uses, gate.right);
    }
}

/// The place of the gate of which a literal is the negation, if it can be left out: nothing else
/// uses it, and it is no choice. The first gate defines `first`.
#[inline(always)]
fn part_at(first: usize, plan: &[Cut], uses: &[u8], literal: Lit) -> Option<usize>
    ensures { IfSome result (λ at. at < length plan.now) }
{
    let place = literal.var().0 as usize;
    if !literal.is_negated() || place < first || place >= uses.len() {
        return None;
    }
    let at = place - first;
    if at >= plan.len() || uses[place] != 1 {
        return None;
    }
    match plan[at] {
        Cut::Plain => Some(at),
        _ => None,
    }
}

/// The multiplexer that is made of two gates, where an operand of the one is the negation of an
/// operand of the other.
#[inline(always)]
fn multiplexer_of(one: &Gate, other: &Gate) -> Option<Multiplexer> {
    let (selector, if_one) = if one.left == other.left.negated()
        || one.left == other.right.negated()
    {
        (one.left, one.right)
    } else {
        (one.right, one.left)
    };
    let if_zero = if other.left == selector.negated() {
        other.right
    } else if other.right == selector.negated() {
        other.left
    } else {
        return None;
    };
    Some(Multiplexer {
        selector,
        if_one,
        if_zero,
    })
}

/// Plans the gate at a place as a choice, if it is one.
fn plan_choice(first: usize, gates: &[Gate], uses: &[u8], at: usize, plan: &mut [Cut])
    requires at { at < length gates.now }
    requires many { length plan.old ≡ length gates.now }
{
    let gate = gates[at];
    let left = part_at(first, plan, uses, gate.left);
    let right = part_at(first, plan, uses, gate.right);
    let (Some(left), Some(right)) = (left, right) else {
        return;
    };
    if let Some(multiplexer) = multiplexer_of(&gates[left], &gates[right]) {
        plan[left] = Cut::Inner;
        plan[right] = Cut::Inner;
        plan[at] = Cut::Choice(multiplexer);
    }
}

fn plan_choices(first: usize, gates: &[Gate], uses: &[u8], plan: &mut [Cut])
    requires { length plan.old ≡ length gates.now }
{
    for at in 0..gates.len() {
        plan_choice(first, gates, uses, at, plan);
    }
}

/// A plan for a circuit in binary order, in which multiplexers are choices where their gates are
/// used by nothing else.
pub(crate) fn find_cuts(alloc: Global, circuit: &Circuit) -> Result<Vec<Cut>, AllocError>
    requires { IsWellFormed circuit.now }
{
    let gates = circuit.gates.as_slice();
    let mut uses = vec![in alloc; 0u8; circuit.max_var as usize + 1]?;
    count_operands(&mut uses, gates);
    count_literals(&mut uses, circuit.bad.as_slice());
    let first = 1 + circuit.inputs.len() + circuit.latches.len();
    let mut plan = vec![in alloc; Cut::Plain; gates.len()]?;
    plan_choices(first, gates, &uses, &mut plan);
    Ok(plan)
}
