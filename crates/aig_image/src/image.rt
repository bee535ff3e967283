//! The binary image of a circuit.
ghost use Rattle.std.specs.Prelude.{◌≡◌, ◌+◌, ◌*◌, ◌<◌, ◌≤◌, ◌↔◌, None, length, map};
ghost use Rattle.std.specs.Prelude.{IfOk, IsTrue, OnOk};
ghost use Rattle.std.specs.List.{AllByRecursion};
ghost use Rattle.std.specs.Option.{unwrap_or};
ghost use Rattle.aig_checked.specs.BinaryOrder.{IsNumberedInOrder};
ghost use Rattle.aig_circuit.specs.Wellformed.{IsWellFormed};
ghost use Rattle.aig_topo.specs.Order.{IsLeastReadyOrder};
ghost use Rattle.aig_image.specs.Image.{IsBinaryImage};
ghost use Rattle.aig_image.specs.Parts.Numbers.{number_of, IsRenumberingOf};
ghost use Rattle.aig_image.specs.Relabelled.{relabelled, FitIntoLiterals};
ghost use Rattle.aig_image.specs.Reordered.{taken, operands_sorted, with_operands_sorted};

use crate::in_turn::InTurn;
use crate::labelling::relabel;
use crate::numbers::Numbers;
use crate::placed::placed_image;
use aig_checked::{Checked, Ordered, is_numbered_in_order};
use aig_circuit::{Circuit, Gate, Listing, Lit, OutOfMemory};
use aig_topo::{Order, Steps, gate_order};
use std::alloc::Global;

/// What makes the binary image of a circuit.
#[derive(Drop)]
pub struct Renumbering {
    numbers: Numbers,
    /// The gates in the order in which they are taken, if they do not stand in it.
    taken: Option<Listing<Gate>>,
}

pub(crate) fn take_gates(
    alloc: Global,
    gates: &[Gate],
    order: &[u32],
) -> Result<Listing<Gate>, OutOfMemory>
    requires { AllByRecursion (λ at. at < length gates.now) order.now }
    ensures { IfOk result (λ r. r ≡ taken gates.now order.now) }
{
    let mut found = Vec::with_capacity(alloc, order.len())?;
    for at in order {
        found.push(gates[*at as usize])?;
    }
    Ok(Listing::from_vec(found))
}

#[inline(always)]
pub(crate) fn with_larger_first(gate: Gate) -> Gate
    ensures { result ≡ operands_sorted gate }
{
    Gate {
        var: gate.var,
        left: Lit(gate.left.0.max(gate.right.0)),
        right: Lit(gate.left.0.min(gate.right.0)),
    }
}

/// The gates with the larger operand of each first, in the same memory.
pub fn sort_operands(gates: Listing<Gate>) -> Listing<Gate>
    ensures { result ≡ map operands_sorted gates }
{
    let mut found = gates.into_vec();
    for at in 0..found.len() {
        found[at] = with_larger_first(found[at]);
    }
    Listing::from_vec(found)
}

/// The circuit by these numbers, the larger operand of each gate first, in the same memory.
fn renumber(numbers: &Numbers, circuit: Circuit) -> Circuit
    requires { FitIntoLiterals (number_of numbers.now) }
    ensures { result ≡ record (with_operands_sorted (relabelled (number_of numbers.now) circuit)) {
      max_var = numbers.now.noted;
    } }
{
    let other = relabel(numbers, circuit);
    Circuit {
        max_var: numbers.count(),
        gates: sort_operands(other.gates),
        ..other
    }
}

impl Renumbering {
    fn by_order(alloc: Global, circuit: &Circuit, order: &Order) -> Result<Self, OutOfMemory>
        requires good { IsWellFormed circuit.now }
        requires least { IsLeastReadyOrder circuit.now order.now.list }
        ensures { IfOk result (λ r. IsRenumberingOf circuit.now r) }
    {
        let taken = take_gates(alloc, circuit.gates.as_slice(), order.list())?;
        let numbers = Numbers::new(alloc, circuit, taken.as_slice())?;
        Ok(Renumbering {
            numbers,
            taken: Some(taken),
        })
    }

    /// If the gates stand in order already, as in most files, no order is made.
    fn of_circuit(alloc: Global, circuit: &Circuit, steps: &mut Steps) -> Result<Self, OutOfMemory>
        requires { IsWellFormed circuit.now }
        ensures renumbering { IfOk result (λ r. IsRenumberingOf circuit.now r) }
        ensures few { steps.new.count ≤ steps.old.count + 3 * length circuit.now.gates }
    {
        if let Some(numbers) = Numbers::of_ordered(alloc, circuit)? {
            return Ok(Renumbering {
                numbers,
                taken: None,
            });
        }
        let order = gate_order(alloc, circuit, steps)?;
        Renumbering::by_order(alloc, circuit, &order)
    }

    /// Of a circuit that was checked: the order that the check made serves again.
    pub fn new(alloc: Global, checked: &Checked, steps: &mut Steps) -> Result<Self, OutOfMemory>
        ensures renumbering { IfOk result (λ r. IsRenumberingOf checked.now r) }
        ensures well_formed { OnOk result (IsWellFormed checked.now) }
        ensures few { steps.new.count ≤ steps.old.count + 3 * length checked.now.gates }
    {
        let circuit = checked.circuit();
        match checked.order() {
            Some(order) => Renumbering::by_order(alloc, circuit, order),
            None => Renumbering::of_circuit(alloc, circuit, steps),
        }
    }

    /// Whether the gates stand in the order in which they are taken.
    pub fn is_in_order(&self) -> bool
        ensures { IsTrue result ↔ (self.now.taken ≡ None) }
    {
        self.taken.is_none()
    }

    /// The new numbers of the variables.
    pub fn numbers(&self) -> &Numbers
        ensures { result.now ≡ self.now.numbers }
    {
        &self.numbers
    }

    /// The binary image of the circuit, in the circuit's own memory.
    pub fn image(self, circuit: Circuit) -> Ordered
        requires good { IsWellFormed circuit }
        requires of_it { IsRenumberingOf circuit self }
        ensures { IsBinaryImage circuit result }
    {
        let gates = self.taken.unwrap_or(circuit.gates);
        Ordered::from_well_ordered(renumber(&self.numbers, Circuit { gates, ..circuit }))
    }
}

fn sorted_image(circuit: Circuit) -> Ordered
    requires good { IsWellFormed circuit }
    requires numbered { IsNumberedInOrder circuit }
    ensures { IsBinaryImage circuit result }
{
    Ordered::from_well_ordered(Circuit {
        gates: sort_operands(circuit.gates),
        ..circuit
    })
}

fn renumbered_image(
    alloc: Global,
    checked: Checked,
    steps: &mut Steps,
) -> Result<Ordered, OutOfMemory>
    ensures image { IfOk result (λ o. IsBinaryImage checked o) }
    ensures few { steps.new.count ≤ steps.old.count + 3 * length checked.gates }
{
    let renumbering = Renumbering::new(alloc, &checked, steps)?;
    Ok(renumbering.image(checked.into_circuit()))
}

fn image_in_turn(alloc: Global, checked: Checked, steps: &mut Steps) -> Result<Ordered, OutOfMemory>
    ensures image { IfOk result (λ o. IsBinaryImage checked o) }
    ensures few { steps.new.count ≤ steps.old.count + 3 * length checked.gates }
{
    match InTurn::new(alloc, &checked)? {
        Some(made) => Ok(made.image(alloc, checked.into_circuit())),
        None => renumbered_image(alloc, checked, steps),
    }
}

/// Where only operands are in the other order, there is nothing to number.
fn into_image(alloc: Global, checked: Checked, steps: &mut Steps) -> Result<Ordered, OutOfMemory>
    ensures image { IfOk result (λ o. IsBinaryImage checked o) }
    ensures few { steps.new.count ≤ steps.old.count + 3 * length checked.gates }
{
    if is_numbered_in_order(&checked) {
        return Ok(sorted_image(checked.into_circuit()));
    }
    match checked.into_resolved() {
        Ok((circuit, order, resolved)) => placed_image(alloc, circuit, order, resolved),
        Err(checked) => image_in_turn(alloc, checked, steps),
    }
}

/// The binary image of a circuit: the same circuit with its variables renumbered, inputs first,
/// then latches, then gates in the least ready order; the larger operand of each gate comes first.
/// It fails only if an allocation fails.
pub fn binary_image(
    alloc: Global,
    checked: &Checked,
    steps: &mut Steps,
) -> Result<Ordered, OutOfMemory>
    ensures image { IfOk result (λ o. IsBinaryImage checked.now o) }
    ensures few { steps.new.count ≤ steps.old.count + 3 * length checked.now.gates }
{
    let renumbering = Renumbering::new(alloc, checked, steps)?;
    Ok(renumbering.image(checked.copy(alloc)?.into_circuit()))
}

/// The binary image of a circuit that is no longer needed: the circuit itself, if it is in binary
/// order already. It fails only if an allocation fails.
pub fn into_binary(
    alloc: Global,
    checked: Checked,
    steps: &mut Steps,
) -> Result<Ordered, OutOfMemory>
    ensures image { IfOk result (λ o. IsBinaryImage checked o) }
    ensures few { steps.new.count ≤ steps.old.count + 3 * length checked.gates }
{
    match Ordered::try_from_checked(checked) {
        Ok(ordered) => Ok(ordered),
        Err(checked) => into_image(alloc, checked, steps),
    }
}
