//! What is wrong with a circuit: the first variable that is defined twice, or else the first
//! literal that is used and not defined, or else the first gate that depends on a cycle.
ghost use Rattle.std.specs.Prelude.{◌≡◌, ◌≤◌, ◌||◌, ◌+◌, ◌*◌, ◌++◌, IfOk, IfErr, OnOk};
ghost use Rattle.std.specs.Prelude.{None, Some, length, map, nat_lt, if◌then◌else◌};
ghost use Rattle.std.specs.List.{concat, flat_map, list_all};
ghost use Rattle.std.specs.Option.{option_map, option_to_list, IfSome};
ghost use Rattle.std.specs.FinSet as set;
ghost use Rattle.aig_circuit.specs.Wellformed.{defined_variables, literal_lists, operands};
ghost use Rattle.aig_core.specs.Fault.{first_structural_fault, first_repeat};
ghost use Rattle.aig_core.specs.Fault.{first_redefinition, first_unknown};
ghost use Rattle.aig_core.specs.Fault.{first_undefined, with_all, is_known, IsFault};
ghost use Rattle.aig_core.specs.Fault.{redefined, undefined, cyclic};
ghost use Rattle.aig_circuit.specs.Form.{IsInForm};
ghost use Rattle.aig_topo.specs.Order.{first_cyclic, IsLeastReadyOrder};
ghost use Rattle.aig_topo.specs.Lists.{AreNeedsOf};
ghost use Rattle.aig_topo.specs.Resolved.{IsResolved};
ghost use Rattle.aig_core.specs.Parts.InOrder.{are_in_order, has_gates_in_order};
ghost use Rattle.aig_core.specs.Parts.Indexed.{is_defined_by, is_no_gate};
ghost use Rattle.aig_core.specs.Parts.Indexed.{is_latch_right, is_right_outside};
ghost use Rattle.aig_core.specs.Steps.{steps_a_gate};
ghost use Rattle.aig_circuit.specs.declared.circuit.TheConstants.{LARGEST as largest};

use crate::checks::Keep;
use crate::checks::distinct::is_far;
use aig_circuit::{Circuit, Entry, Gate, LARGEST, Latch, Listing, Lit, OutOfMemory, Var};
use aig_fault::{Kind, Place, Stopped, refused};
use aig_tables::VarSet;
use aig_topo::{
    GateIndex, GateNeeds, Needs, Order, Resolved, Steps, order_by_needs, search_for_cycle,
};
use std::alloc::Global;

fn redefined(variable: Var) -> Stopped
    ensures { result ≡ redefined variable }
{
    refused(Kind::Redefined, Place::Whole, variable.0)
}

fn undefined(literal: Lit) -> Stopped
    ensures { result ≡ undefined literal }
{
    refused(Kind::Undefined, Place::Whole, literal.0)
}

fn cyclic(literal: Lit) -> Stopped
    ensures { result ≡ cyclic literal }
{
    refused(Kind::Cyclic, Place::Whole, literal.0)
}

fn define<T: Entry>(seen: &mut VarSet, entry: &T) -> Result<(), Stopped>
    ensures seen { OnOk result (seen.new ≡ with_all seen.old (T.defined entry.now)) }
    ensures ok { OnOk result (first_repeat seen.old (T.defined entry.now) ≡ None) }
    ensures err { IfErr result (λ e. IsFault e
        (first_redefinition seen.old (T.defined entry.now))) }
{
    if let Some(variable) = entry.definition() {
        if !seen.insert(variable)? {
            return Err(redefined(variable));
        }
    }
    Ok(())
}

#[tactic(auto, using(crate::proofs::Checking::Sections::joined_lists))]
pub(super) fn define_all<T: Entry>(seen: &mut VarSet, entries: &Listing<T>) -> Result<(), Stopped>
    ensures seen { OnOk result (seen.new ≡ with_all seen.old (flat_map T.defined entries.now)) }
    ensures ok { OnOk result (first_repeat seen.old (flat_map T.defined entries.now) ≡ None) }
    ensures err { IfErr result (λ e. IsFault e
        (first_redefinition seen.old (flat_map T.defined entries.now))) }
{
    for entry in entries.as_slice() {
        define(seen, entry)?;
    }
    Ok(())
}

/// Whether the literal is a constant, or over one of the variables.
fn knows(variables: &VarSet, literal: Lit) -> bool
    ensures { result ≡ is_known variables.now literal }
{
    let variable = literal.var();
    variable.0 == 0 || variables.contains(variable)
}

fn unknown(variables: &VarSet, literal: Option<Lit>) -> Option<Lit>
    ensures { result ≡ first_unknown variables.now (option_to_list literal) }
{
    literal.filter(|literal| !knows(variables, *literal))
}

fn unknown_among(variables: &VarSet, literals: &[Lit]) -> Option<Lit>
    ensures { result ≡ first_unknown variables.now literals.now }
{
    for literal in literals {
        if !knows(variables, *literal) {
            return Some(*literal);
        }
    }
    None
}

#[inline(always)]
fn unknown_use<T: Entry>(variables: &VarSet, entry: &T) -> Option<Lit>
    ensures { result ≡ first_unknown variables.now (T.used entry.now) }
{
    let uses = entry.uses();
    unknown(variables, uses.first)
        .or_else(|| unknown(variables, uses.second))
        .or_else(|| unknown_among(variables, uses.others))
}

#[tactic(auto, using(crate::proofs::Checking::Sections::joined_lists))]
fn first_unknown_use<T: Entry>(variables: &VarSet, entries: &Listing<T>) -> Option<Lit>
    ensures { result ≡ first_unknown variables.now (flat_map T.used entries.now) }
{
    for entry in entries.as_slice() {
        if let Some(literal) = unknown_use(variables, entry) {
            return Some(literal);
        }
    }
    None
}

/// Adds the variables of a section to those that were seen, unless one of them was seen before.
/// Answers whether each entry uses nothing but constants and what was seen before it.
#[tactic(auto, using(crate::proofs::Checking::Sections::joined_lists))]
fn define_in_order<T: Entry>(seen: &mut VarSet, entries: &Listing<T>) -> Result<bool, Stopped>
    ensures seen { OnOk result (seen.new ≡ with_all seen.old (flat_map T.defined entries.now)) }
    ensures ok { OnOk result (first_repeat seen.old (flat_map T.defined entries.now) ≡ None) }
    ensures in_order { IfOk result (λ in_order. in_order
        ≡ are_in_order T.defined T.used seen.old entries.now) }
    ensures err { IfErr result (λ e. IsFault e
        (first_redefinition seen.old (flat_map T.defined entries.now))) }
{
    let mut in_order = true;
    for entry in entries.as_slice() {
        in_order = in_order && unknown_use(seen, entry).is_none();
        define(seen, entry)?;
    }
    Ok(in_order)
}

/// The set is fast for about as many variables as are expected.
fn definitions_before_gates(
    alloc: Global,
    circuit: &Circuit,
    expected: usize,
) -> Result<VarSet, Stopped>
    ensures variables { IfOk result (λ variables.
        variables ≡ with_all set.empty (circuit.now.inputs
        ++ map (λ l. l.var) circuit.now.latches)) }
    ensures ok { OnOk result
        (first_repeat set.empty (circuit.now.inputs ++ map (λ l. l.var) circuit.now.latches)
        ≡ None) }
    ensures err { IfErr result (λ e. IsFault e
        (first_redefinition set.empty (defined_variables circuit.now))) }
{
    let mut variables = VarSet::new(alloc, expected, circuit.max_var)?;
    define_all(&mut variables, &circuit.inputs)?;
    define_all(&mut variables, &circuit.latches)?;
    Ok(variables)
}

/// The variables that a circuit defines, unless one of them is defined twice, and whether its gates
/// stand after those that they use.
fn definitions(alloc: Global, circuit: &Circuit) -> Result<(VarSet, bool), Stopped>
    ensures variables { IfOk result (λ found. found.0
        ≡ with_all set.empty (defined_variables circuit.now)) }
    ensures in_order { IfOk result (λ found. found.1 ≡ has_gates_in_order circuit.now) }
    ensures ok { OnOk result (first_repeat set.empty (defined_variables circuit.now) ≡ None) }
    ensures err { IfErr result (λ e. IsFault e
        (first_redefinition set.empty (defined_variables circuit.now))) }
{
    let mut variables = definitions_before_gates(alloc, circuit, circuit.definition_count())?;
    let in_order = define_in_order(&mut variables, &circuit.gates)?;
    Ok((variables, in_order))
}

/// Unlike `definitions`, it does not look at what gates use.
pub(crate) fn find_redefinition(alloc: Global, circuit: &Circuit) -> Result<(), Stopped>
    ensures ok { OnOk result (first_repeat set.empty (defined_variables circuit.now) ≡ None) }
    ensures err { IfErr result (λ e. IsFault e
        (first_redefinition set.empty (defined_variables circuit.now))) }
{
    let mut variables = definitions_before_gates(alloc, circuit, circuit.definition_count())?;
    define_all(&mut variables, &circuit.gates)
}

#[tactic(auto, using(crate::proofs::Checking::Sections::joined_lists))]
fn unknown_in_lists(variables: &VarSet, lists: &[&[Lit]]) -> Option<Lit>
    ensures { result ≡ first_unknown variables.now (concat (map (λ ls. ls.now) lists.now)) }
{
    for list in lists {
        if let Some(literal) = unknown_among(variables, list) {
            return Some(literal);
        }
    }
    None
}

fn first_undefined_end(variables: &VarSet, circuit: &Circuit) -> Option<Lit>
    ensures { result ≡ first_unknown variables.now
        (map (λ l. l.next) circuit.now.latches ++ concat (literal_lists circuit.now)) }
{
    let next = first_unknown_use(variables, &circuit.latches);
    next.or_else(|| unknown_in_lists(variables, &circuit.literal_lists()))
}

/// Whether an operand is a constant, or over a gate, as what is needed for it tells, or over one of
/// the variables that are defined before gates.
#[inline(always)]
fn knows_operand(before: &VarSet, need: u32, literal: Lit) -> bool
    ensures { result ≡ (nat_lt 0 need || is_known before.now literal) }
{
    need > 0 || knows(before, literal)
}

#[inline(always)]
fn unknown_operand(before: &VarSet, needs: Needs, gate: &Gate) -> Option<Lit>
    ensures { result ≡ if nat_lt 0 needs.left || is_known before.now gate.now.left
        then (if nat_lt 0 needs.right || is_known before.now gate.now.right
        then None else Some gate.now.right)
        else Some gate.now.left }
{
    if !knows_operand(before, needs.left, gate.left) {
        return Some(gate.left);
    }
    if !knows_operand(before, needs.right, gate.right) {
        return Some(gate.right);
    }
    None
}

/// What is over a gate is not looked up again.
fn first_unknown_operand(before: &VarSet, needs: &GateNeeds, circuit: &Circuit) -> Option<Lit>
    requires few { length circuit.now.gates ≤ largest }
    requires needs { AreNeedsOf circuit.now.gates needs.now }
    requires before { before.now ≡ with_all set.empty
        (circuit.now.inputs ++ map (λ l. l.var) circuit.now.latches) }
    ensures { result ≡ first_unknown (with_all set.empty (defined_variables circuit.now))
        (flat_map operands circuit.now.gates) }
{
    let gates = circuit.gates.as_slice();
    for at in 0..gates.len() {
        if let Some(literal) = unknown_operand(before, needs.get(at as u32), &gates[at]) {
            return Some(literal);
        }
    }
    None
}

/// What the gates of a circuit need that defines no variable twice, or the first literal that they
/// use and that it does not define.
fn known_needs(alloc: Global, circuit: &Circuit) -> Result<GateNeeds, Stopped>
    requires in_form { IsInForm circuit.now }
    requires once { first_repeat set.empty (defined_variables circuit.now) ≡ None }
    ensures needs { IfOk result (λ needs. AreNeedsOf circuit.now.gates needs) }
    ensures ok { OnOk result (first_unknown (with_all set.empty (defined_variables circuit.now))
        (flat_map operands circuit.now.gates) ≡ None) }
    ensures err { IfErr result (λ e. IsFault e (first_undefined
        (with_all set.empty (defined_variables circuit.now))
        (flat_map operands circuit.now.gates))) }
{
    let needs = GateNeeds::new(alloc, circuit)?;
    let expected = circuit.inputs.len() + circuit.latches.len();
    let before = definitions_before_gates(alloc, circuit, expected)?;
    match first_unknown_operand(&before, &needs, circuit) {
        Some(literal) => Err(undefined(literal)),
        None => Ok(needs),
    }
}

/// Whether a literal is a constant, or over a gate or one of the variables that are defined before
/// gates.
#[inline(always)]
fn is_defined(before: &VarSet, index: &GateIndex, literal: Lit) -> bool
    ensures { result ≡ is_defined_by before.now index.now literal }
{
    index.has(literal.var()) || knows(before, literal)
}

fn are_defined(before: &VarSet, index: &GateIndex, literals: &[Lit]) -> bool
    ensures { result ≡ list_all (is_defined_by before.now index.now) literals.now }
{
    for literal in literals {
        if !is_defined(before, index, *literal) {
            return false;
        }
    }
    true
}

#[tactic(auto, using(crate::proofs::Checking::Indexed::all_joined))]
fn are_lists_defined(before: &VarSet, index: &GateIndex, lists: &[&[Lit]]) -> bool
    ensures { result ≡ list_all (is_defined_by before.now index.now)
        (concat (map (λ ls. ls.now) lists.now)) }
{
    for list in lists {
        if !are_defined(before, index, list) {
            return false;
        }
    }
    true
}

fn are_inputs_apart(index: &GateIndex, inputs: &[Var]) -> bool
    ensures { result ≡ list_all (is_no_gate index.now) inputs.now }
{
    for input in inputs {
        if index.has(*input) {
            return false;
        }
    }
    true
}

/// Whether no gate defines a latch's variable, and each next literal is defined.
fn are_latches_right(before: &VarSet, index: &GateIndex, latches: &[Latch]) -> bool
    ensures { result ≡ list_all (is_latch_right before.now index.now) latches.now }
{
    for latch in latches {
        if index.has(latch.var) || !is_defined(before, index, latch.next) {
            return false;
        }
    }
    true
}

/// Whether no variable of a circuit is defined twice, and all that it uses outside of gates is
/// defined, where the variables before its gates are each defined once.
fn is_right_outside_gates(before: &VarSet, index: &GateIndex, circuit: &Circuit) -> bool
    ensures { result ≡ is_right_outside before.now index.now circuit.now }
{
    index.is_once()
        && are_inputs_apart(index, circuit.inputs.as_slice())
        && are_latches_right(before, index, circuit.latches.as_slice())
        && are_lists_defined(before, index, &circuit.literal_lists())
}

/// What the gates of a circuit need, where its variables lie far apart: each variable of a gate is put
/// into one table alone, and no set is made of them. None where something is wrong outside of what
/// gates use.
fn far_needs(alloc: Global, circuit: &Circuit) -> Result<Option<(GateNeeds, Resolved)>, Stopped>
    requires in_form { IsInForm circuit.now }
    ensures needs { IfOk result (λ some. IfSome some (λ found.
        AreNeedsOf circuit.now.gates found.0)) }
    ensures resolved { IfOk result (λ some. IfSome some (λ found.
        IsResolved circuit.now.gates found.1)) }
    ensures ok { IfOk result (λ some. IfSome some (λ _.
        first_structural_fault circuit.now
        ≡ option_map cyclic (first_cyclic circuit.now.gates))) }
    ensures err { IfErr result (λ e. IsFault e (first_structural_fault circuit.now)) }
{
    let expected = circuit.inputs.len() + circuit.latches.len();
    let before = definitions_before_gates(alloc, circuit, expected)?;
    let index = GateIndex::new(alloc, circuit)?;
    if !is_right_outside_gates(&before, &index, circuit) {
        return Ok(None);
    }
    let needs = GateNeeds::by_index(alloc, circuit, &index)?;
    match first_unknown_operand(&before, &needs, circuit) {
        Some(literal) => Err(undefined(literal)),
        None => {
            let resolved = Resolved::new(alloc, index, &needs)?;
            Ok(Some((needs, resolved)))
        }
    }
}

fn own_literal(gate: &Gate) -> Lit
    requires { gate.now.var ≤ largest }
    ensures { result ≡ 2 * gate.now.var }
{
    Lit(2 * gate.var.0)
}

/// The least ready order of the gates, or the literal of the first one that depends on a cycle.
fn order_of_all(
    alloc: Global,
    circuit: &Circuit,
    needs: GateNeeds,
    steps: &mut Steps,
) -> Result<Order, Stopped>
    requires in_form { IsInForm circuit.now }
    requires needs { AreNeedsOf circuit.now.gates needs }
    ensures ok { OnOk result (first_cyclic circuit.now.gates ≡ None) }
    ensures least { IfOk result (λ order. IsLeastReadyOrder circuit.now order.list) }
    ensures err { IfErr result (λ e. IsFault e
        (option_map cyclic (first_cyclic circuit.now.gates))) }
    ensures few { steps.new.count ≤ steps.old.count + 3 * length circuit.now.gates }
{
    let order = order_by_needs(alloc, circuit, needs, steps)?;
    match order.first_left() {
        Some(gate) => Err(cyclic(own_literal(&circuit.gates.as_slice()[gate]))),
        None => Ok(order),
    }
}

/// Unlike `order_of_all`, it makes no order of the gates.
fn find_cycle(alloc: Global, circuit: &Circuit, steps: &mut Steps) -> Result<(), Stopped>
    requires { IsInForm circuit.now }
    ensures ok { OnOk result (first_cyclic circuit.now.gates ≡ None) }
    ensures err { IfErr result (λ e. IsFault e
        (option_map cyclic (first_cyclic circuit.now.gates))) }
    ensures few { steps.new.count ≤ steps.old.count + 2 * length circuit.now.gates }
{
    let found = search_for_cycle(alloc, circuit, steps)?;
    match found {
        Some(gate) => Err(cyclic(own_literal(&circuit.gates.as_slice()[gate]))),
        None => Ok(()),
    }
}

/// The first fault of a circuit but for what its gates use: a variable that is defined twice, or
/// else a literal that is used outside of gates and not defined. Where there is none, the variables
/// that it defines, and whether its gates stand in order.
#[tactic(auto, using(crate::proofs::Checking::Sections::unknown_append))]
fn find_fault_outside_gates(alloc: Global, circuit: &Circuit) -> Result<(VarSet, bool), Stopped>
    ensures variables { IfOk result (λ found. found.0
        ≡ with_all set.empty (defined_variables circuit.now)) }
    ensures in_order { IfOk result (λ found. found.1 ≡ has_gates_in_order circuit.now) }
    ensures once { OnOk result (first_repeat set.empty (defined_variables circuit.now) ≡ None) }
    ensures ok { OnOk result (first_unknown (with_all set.empty (defined_variables circuit.now))
        (map (λ l. l.next) circuit.now.latches ++ concat (literal_lists circuit.now)) ≡ None) }
    ensures err { IfErr result (λ e. IsFault e (first_structural_fault circuit.now)) }
{
    let (variables, in_order) = definitions(alloc, circuit)?;
    match first_undefined_end(&variables, circuit) {
        Some(literal) => Err(undefined(literal)),
        None => Ok((variables, in_order)),
    }
}

fn find_undefined_operand(variables: &VarSet, circuit: &Circuit) -> Result<(), Stopped>
    ensures ok { OnOk result (first_unknown variables.now
        (flat_map operands circuit.now.gates) ≡ None) }
    ensures err { IfErr result (λ e. IsFault e
        (first_undefined variables.now (flat_map operands circuit.now.gates))) }
{
    match first_unknown_use(variables, &circuit.gates) {
        Some(literal) => Err(undefined(literal)),
        None => Ok(()),
    }
}

/// Each map of its variables is let go before the next one is made.
#[tactic(auto, using(crate::proofs::Checking::InOrder::in_order_faultless, crate::proofs::Checking::Sections::fault_of_gates))]
fn find_fault_by_sets(
    alloc: Global,
    circuit: &Circuit,
    keep: Keep,
    steps: &mut Steps,
) -> Result<Option<Order>, Stopped>
    requires { IsInForm circuit.now }
    ensures ok { OnOk result (first_structural_fault circuit.now ≡ None) }
    ensures least { IfOk result (λ some.
        IfSome some (λ order. IsLeastReadyOrder circuit.now order.list)) }
    ensures err { IfErr result (λ e. IsFault e (first_structural_fault circuit.now)) }
    ensures few { steps.new.count ≤ steps.old.count + steps_a_gate keep * length circuit.now.gates }
{
    let (variables, in_order) = find_fault_outside_gates(alloc, circuit)?;
    if in_order {
        return Ok(None);
    }
    match keep {
        Keep::Order => {
            drop(variables);
            let needs = known_needs(alloc, circuit)?;
            Ok(Some(order_of_all(alloc, circuit, needs, steps)?))
        }
        Keep::Circuit => {
            find_undefined_operand(&variables, circuit)?;
            drop(variables);
            find_cycle(alloc, circuit, steps)?;
            Ok(None)
        }
    }
}

/// What the gates of a circuit need, where their order is to be kept and one table serves; and
/// what of that is kept beside the order.
fn needs_of_order(
    alloc: Global,
    circuit: &Circuit,
    keep: Keep,
) -> Result<Option<(GateNeeds, Resolved)>, Stopped>
    requires in_form { IsInForm circuit.now }
    ensures needs { IfOk result (λ some. IfSome some (λ found.
        AreNeedsOf circuit.now.gates found.0)) }
    ensures resolved { IfOk result (λ some. IfSome some (λ found.
        IsResolved circuit.now.gates found.1)) }
    ensures keep { IfOk result (λ some. IfSome some (λ _. steps_a_gate keep ≡ 3)) }
    ensures ok { IfOk result (λ some. IfSome some (λ _.
        first_structural_fault circuit.now
        ≡ option_map cyclic (first_cyclic circuit.now.gates))) }
    ensures err { IfErr result (λ e. IsFault e (first_structural_fault circuit.now)) }
{
    match keep {
        Keep::Circuit => Ok(None),
        Keep::Order => {
            if is_far(circuit) {
                far_needs(alloc, circuit)
            } else {
                Ok(None)
            }
        }
    }
}

/// The first fault of a circuit. Where there is none, the order of its gates, if that is to be kept
/// and had to be made; and what was resolved for it, where its variables lie far apart.
pub(crate) fn find_fault(
    alloc: Global,
    circuit: &Circuit,
    keep: Keep,
    steps: &mut Steps,
) -> Result<(Option<Order>, Option<Resolved>), Stopped>
    requires { IsInForm circuit.now }
    ensures ok { OnOk result (first_structural_fault circuit.now ≡ None) }
    ensures least { IfOk result (λ found.
        IfSome found.0 (λ order. IsLeastReadyOrder circuit.now order.list)) }
    ensures resolved { IfOk result (λ found.
        IfSome found.1 (λ resolved. IsResolved circuit.now.gates resolved)) }
    ensures err { IfErr result (λ e. IsFault e (first_structural_fault circuit.now)) }
    ensures few { steps.new.count ≤ steps.old.count + steps_a_gate keep * length circuit.now.gates }
{
    let Some((needs, resolved)) = needs_of_order(alloc, circuit, keep)? else {
        return Ok((find_fault_by_sets(alloc, circuit, keep, steps)?, None));
    };
    let order = order_of_all(alloc, circuit, needs, steps)?;
    Ok((Some(order), Some(resolved)))
}
