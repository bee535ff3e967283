//! Circuits in binary order, and the tests for it.
ghost use Rattle.std.specs.Prelude.{◌≡◌, ◌↔◌, ◌+◌, ◌^◌, ◌<◌, ◌≤◌, ℕ};
ghost use Rattle.std.specs.Prelude.{length, IsTrue, IsOk, IfOk, IfErr, OnOk};
ghost use Rattle.aig_circuit.specs.Form.{IsInForm};
ghost use Rattle.aig_circuit.specs.Wellformed.{IsWellFormed, IsWithinLimits};
ghost use Rattle.aig_checked.specs.BinaryOrder.{IsInBinaryOrder, IsNumberedInOrder};
ghost use Rattle.aig_checked.specs.Parts.Numbered.{AreFirstInOrder, AreNumbered};
ghost use Rattle.aig_checked.specs.Parts.Numbered.{AreSectionsInOrder, AreSectionsNumbered};
ghost use Rattle.aig_checked.specs.Parts.Numbered.{IsGateOf, IsInputOf};
ghost use Rattle.aig_checked.specs.Parts.Numbered.{IsLatchOf, IsNumberedGateOf};

use crate::checked::Checked;
use aig_circuit::{Circuit, Gate, Latch, Var};
use std::marker::Model;

/// A circuit that is well formed and in binary order. `try_from_checked` makes one of any circuit
/// that is, `from_well_ordered` of one that is known to be.
#[derive(Drop)]
pub struct Ordered {
    checked: Checked,
}

impl Model for Ordered {
    ghost use Rattle.aig_circuit.specs.declared.circuit.Circuit.{Circuit as CircuitRecord};
    ghost use Rattle.aig_circuit.specs.Wellformed.{IsWellFormed as IsGood};
    ghost use Rattle.aig_checked.specs.BinaryOrder.{IsInBinaryOrder as IsInOrder};

    ghost Value = { CircuitRecord };

    ghost view = { λ o. o.checked };

    ghost invariant = { λ o. IsGood o.checked × IsInOrder o.checked };
}

/// An entry of a section whose variables are numbered one after the other.
trait Numbered {
    /// Whether it is right for this variable.
    ghost is_right: { ℕ → Self → Type 0 };

    fn is_right_for(&self, variable: u64) -> bool
        ensures { IsTrue result ↔ is_right variable self.now };
}

impl Numbered for Var {
    ghost is_right = { IsInputOf };

    #[inline(always)]
    fn is_right_for(&self, variable: u64) -> bool {
        u64::from(self.0) == variable
    }
}

impl Numbered for Latch {
    ghost is_right = { IsLatchOf };

    #[inline(always)]
    fn is_right_for(&self, variable: u64) -> bool {
        u64::from(self.var.0) == variable
    }
}

/// A gate is also over lower literals, with the larger operand first.
impl Numbered for Gate {
    ghost is_right = { IsGateOf };

    #[inline(always)]
    fn is_right_for(&self, variable: u64) -> bool {
        u64::from(self.var.0) == variable
            && u64::from(self.left.0) < 2 * variable
            && self.right.0 <= self.left.0
    }
}

fn are_in_order<T: Numbered>(first: u64, items: &[T]) -> bool
    requires { first + length items.now < 2 ^ 64 }
    ensures { IsTrue result ↔ AreNumbered T.is_right first items.now }
{
    let mut variable = first;
    for item in items {
        if !item.is_right_for(variable) {
            return false;
        }
        variable += 1;
    }
    true
}

/// Whether a gate defines this variable and is over lower literals, the larger first or second.
#[inline(always)]
fn is_numbered(gate: &Gate, variable: u64) -> bool
    ensures { IsTrue result ↔ IsNumberedGateOf variable gate.now }
{
    u64::from(gate.var.0) == variable
        && u64::from(gate.left.0) < 2 * variable
        && u64::from(gate.right.0) < 2 * variable
}

fn are_gates_numbered(first: u64, gates: &[Gate]) -> bool
    requires { first + length gates.now < 2 ^ 64 }
    ensures { IsTrue result ↔ AreNumbered IsNumberedGateOf first gates.now }
{
    let mut variable = first;
    for gate in gates {
        if !is_numbered(gate, variable) {
            return false;
        }
        variable += 1;
    }
    true
}

fn first_gate(circuit: &Circuit) -> u64
    requires { IsWithinLimits circuit.now }
    ensures { result ≡ 1 + length circuit.now.inputs + length circuit.now.latches }
{
    1 + circuit.inputs.len() as u64 + circuit.latches.len() as u64
}

/// Whether inputs and latches are the first variables, and there are as many others as gates.
fn are_first_in_order(circuit: &Circuit) -> bool
    requires { IsWithinLimits circuit.now }
    ensures { IsTrue result ↔ AreFirstInOrder circuit.now }
{
    u64::from(circuit.max_var) + 1 == first_gate(circuit) + circuit.gates.len() as u64
        && are_in_order(1, circuit.inputs.as_slice())
        && are_in_order(1 + circuit.inputs.len() as u64, circuit.latches.as_slice())
}

fn are_sections_in_order(circuit: &Circuit) -> bool
    requires { IsWithinLimits circuit.now }
    ensures { IsTrue result ↔ AreSectionsInOrder circuit.now }
{
    are_first_in_order(circuit) && are_in_order(first_gate(circuit), circuit.gates.as_slice())
}

/// As `are_sections_in_order`, but for the order of operands.
fn are_sections_numbered(circuit: &Circuit) -> bool
    requires { IsWithinLimits circuit.now }
    ensures { IsTrue result ↔ AreSectionsNumbered circuit.now }
{
    are_first_in_order(circuit) && are_gates_numbered(first_gate(circuit), circuit.gates.as_slice())
}

/// Whether a circuit is in binary order. It is gone over once, where that is not known yet, and no
/// memory is taken.
#[tactic(auto, using(crate::proofs::Numbered::by_sections, crate::proofs::Numbered::all_sections))]
pub fn is_in_binary_order(checked: &Checked) -> bool
    ensures { IsTrue result ↔ IsInBinaryOrder checked.now }
{
    checked.is_known_in_order() || are_sections_in_order(checked.circuit())
}

/// Whether a circuit is in binary order, but for gates whose larger operand comes second, as many
/// files are. It is gone over once, and no memory is taken.
#[tactic(auto, using(crate::proofs::Numbered::by_numbered, crate::proofs::Numbered::all_numbered))]
pub fn is_numbered_in_order(checked: &Checked) -> bool
    ensures { IsTrue result ↔ IsNumberedInOrder checked.now }
{
    are_sections_numbered(checked.circuit())
}

impl Checked {
    /// A circuit in form whose variables are numbered in order, which is well formed. Any other
    /// comes back. It is gone over once, or twice where a larger operand comes second, and no
    /// memory is taken.
    #[tactic(auto, using(crate::proofs::Numbered::by_numbered, crate::proofs::Numbered::all_numbered, crate::proofs::Numbered::by_sections, crate::proofs::Numbered::is_numbered, crate::proofs::Numbered::form_well_formed))]
    pub fn try_numbered(circuit: Circuit) -> Result<Checked, Circuit>
        requires { IsInForm circuit }
        ensures numbered { IsOk result ↔ IsNumberedInOrder circuit }
        ensures ok { IfOk result (λ checked. checked ≡ circuit) }
        ensures well_formed { OnOk result (IsWellFormed circuit) }
        ensures handed_back { IfErr result (λ same. same ≡ circuit) }
    {
        if are_sections_in_order(&circuit) {
            return Ok(Checked::from_well_ordered(circuit));
        }
        if are_sections_numbered(&circuit) {
            return Ok(Checked::from_well_formed(circuit));
        }
        Err(circuit)
    }
}

impl Ordered {
    /// A circuit that its maker knows to be well formed and in binary order: nothing is checked
    /// again, and no memory is taken.
    pub fn from_well_ordered(circuit: Circuit) -> Ordered
        requires well_formed { IsWellFormed circuit }
        requires in_order { IsInBinaryOrder circuit }
        ensures { result ≡ circuit }
    {
        Ordered {
            checked: Checked::from_well_ordered(circuit),
        }
    }

    /// The circuit as one in binary order, or else as it came. It is gone over once, where its
    /// order is not known yet, and no memory is taken.
    pub fn try_from_checked(checked: Checked) -> Result<Ordered, Checked>
        ensures ordered { IsOk result ↔ IsInBinaryOrder checked }
        ensures ok { IfOk result (λ ordered. ordered ≡ checked) }
        ensures well_formed { IfOk result (λ ordered. IsWellFormed ordered) }
        ensures handed_back { IfErr result (λ same. same ≡ checked) }
    {
        if is_in_binary_order(&checked) {
            Ok(Ordered { checked })
        } else {
            Err(checked)
        }
    }

    /// The circuit.
    pub fn as_checked(&self) -> &Checked
        ensures value { result.now ≡ self.now }
        ensures ordered { IsInBinaryOrder self.now }
    {
        &self.checked
    }

    /// The circuit, of which the type no longer says that it is in binary order.
    /// `is_in_binary_order` need not look again at one that `from_well_ordered` made.
    pub fn into_checked(self) -> Checked
        ensures value { result ≡ self }
        ensures ordered { IsInBinaryOrder self }
    {
        self.checked
    }
}
