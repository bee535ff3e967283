//! Circuits that are well formed.
ghost use Rattle.std.specs.Prelude.{◌≡◌, ◌↔◌, IsTrue, IfOk, IfErr, OnOk, true};
ghost use Rattle.std.specs.Option.{IfSome};
ghost use Rattle.aig_circuit.specs.Wellformed.{IsWellFormed};
ghost use Rattle.aig_checked.specs.BinaryOrder.{IsInBinaryOrder};
ghost use Rattle.aig_topo.specs.Order.{IsLeastReadyOrder};
ghost use Rattle.aig_topo.specs.Resolved.{IsResolved};
ghost use Rattle.aig_circuit.specs.Parts.SameLists.{same_lists};

use crate::copies::copy_circuit;
use aig_circuit::{Circuit, OutOfMemory};
use aig_topo::{Order, Resolved};
use std::alloc::Global;
use std::marker::Model;

/// A circuit that is well formed. `check` makes one of any circuit that is, `from_well_formed` of
/// one that is known to be.
#[derive(Drop)]
pub struct Checked {
    circuit: Circuit,
    /// The least ready order of its gates, where the check had to make it and was to keep it.
    order: Option<Order>,
    /// What the gates need and where they stand by their variables, where that was to be kept too.
    resolved: Option<Resolved>,
    /// Whether it is known to be in binary order, as a binary file is: then nobody need look again.
    in_binary_order: bool,
}

impl Model for Checked {
    ghost use Rattle.aig_circuit.specs.declared.circuit.Circuit.{Circuit as CircuitRecord};
    ghost use Rattle.std.specs.Option.{IfSome};
    ghost use Rattle.aig_circuit.specs.Wellformed.{IsWellFormed as IsGood};
    ghost use Rattle.aig_topo.specs.Order.{IsLeastReadyOrder as IsLeast};
    ghost use Rattle.aig_topo.specs.Resolved.{IsResolved as IsResolvedOf};
    ghost use Rattle.aig_checked.specs.BinaryOrder.{IsInBinaryOrder as IsInOrder};
    ghost use Rattle.std.specs.Prelude.{◌≡◌, true};

    ghost Value = { CircuitRecord };

    ghost view = { λ a. a.circuit };

    ghost invariant = { λ a. IsGood a.circuit
        × IfSome a.order (λ order. IsLeast a.circuit order.list)
        × IfSome a.resolved (λ resolved. IsResolvedOf a.circuit.gates resolved)
        × (a.in_binary_order ≡ true → IsInOrder a.circuit) };
}

impl Checked {
    /// A circuit that its maker knows to be well formed: nothing is checked, no memory is taken.
    pub fn from_well_formed(circuit: Circuit) -> Checked
        requires { IsWellFormed circuit }
        ensures { result ≡ circuit }
    {
        Checked {
            circuit,
            order: None,
            resolved: None,
            in_binary_order: false,
        }
    }

    /// A circuit that its maker knows to be well formed and in binary order, which stays known.
    pub(crate) fn from_well_ordered(circuit: Circuit) -> Checked
        requires well_formed { IsWellFormed circuit }
        requires in_order { IsInBinaryOrder circuit }
        ensures { result ≡ circuit }
    {
        Checked {
            circuit,
            order: None,
            resolved: None,
            in_binary_order: true,
        }
    }

    /// A circuit that its maker knows to be well formed, and the least ready order of its gates and
    /// what was resolved for it, where the maker has them.
    pub fn with_order(circuit: Circuit, order: Option<Order>, resolved: Option<Resolved>) -> Checked
        requires well_formed { IsWellFormed circuit }
        requires least { IfSome order (λ order. IsLeastReadyOrder circuit order.list) }
        requires resolved { IfSome resolved (λ resolved. IsResolved circuit.gates resolved) }
        ensures { result ≡ circuit }
    {
        Checked {
            circuit,
            order,
            resolved,
            in_binary_order: false,
        }
    }

    /// Whether the circuit is known to be in binary order. One that is need not be known to be.
    pub(crate) fn is_known_in_order(&self) -> bool
        ensures { result ≡ true → IsInBinaryOrder self.now }
    {
        self.in_binary_order
    }

    /// The least ready order of the gates, if the check had to make it and was to keep it
    /// (`Keep`): of gates that stand in order it mostly makes none.
    pub fn order(&self) -> Option<&Order>
        ensures { IfSome result (λ order. IsLeastReadyOrder self.now order.now.list) }
    {
        self.order.as_ref()
    }

    /// The circuit.
    pub fn circuit(&self) -> &Circuit
        ensures value { result.now ≡ self.now }
        ensures well_formed { IsWellFormed self.now }
    {
        &self.circuit
    }

    /// The circuit, the least ready order of its gates, and what was resolved for it, if the check
    /// kept them; else the same as it was.
    pub fn into_resolved(self) -> Result<(Circuit, Order, Resolved), Checked>
        ensures circuit { IfOk result (λ parts. parts.0 ≡ self) }
        ensures well_formed { OnOk result (IsWellFormed self) }
        ensures least { IfOk result (λ parts. IsLeastReadyOrder self parts.1.list) }
        ensures resolved { IfOk result (λ parts. IsResolved self.gates parts.2) }
        ensures handed_back { IfErr result (λ same. same ≡ self) }
    {
        let Checked {
            circuit,
            order,
            resolved,
            in_binary_order,
        } = self;
        match (order, resolved) {
            (Some(order), Some(resolved)) => Ok((circuit, order, resolved)),
            (order, resolved) => Err(Checked {
                circuit,
                order,
                resolved,
                in_binary_order,
            }),
        }
    }

    /// The circuit, to be kept or changed; what it becomes has to be checked again.
    pub fn into_circuit(self) -> Circuit
        ensures value { result ≡ self }
        ensures well_formed { IsWellFormed self }
    {
        self.circuit
    }

    /// The same circuit in memory of its own, unless an allocation fails.
    pub fn copy(&self, _alloc: Global) -> Result<Checked, OutOfMemory>
        ensures value { IfOk result (λ copy. copy ≡ self.now) }
        ensures well_formed { OnOk result (IsWellFormed self.now) }
    {
        Ok(Checked {
            circuit: copy_circuit(&self.circuit)?,
            order: None,
            resolved: None,
            in_binary_order: self.in_binary_order,
        })
    }
}

fn list_the_same(first: &Circuit, second: &Circuit) -> bool
    ensures { result ≡ same_lists first.now second.now }
{
    first.outputs == second.outputs
        && first.bad == second.bad
        && first.constraints == second.constraints
        && first.justice == second.justice
        && first.fairness == second.fairness
}

/// Whether the two hold the same circuit: the order of entries and of symbols, the names and the
/// comment too.
pub fn same(first: &Checked, second: &Checked) -> bool
    ensures { IsTrue result ↔ (first.now ≡ second.now) }
{
    let (first, second) = (first.circuit(), second.circuit());
    first.max_var == second.max_var
        && first.inputs == second.inputs
        && first.latches == second.latches
        && list_the_same(first, second)
        && first.gates == second.gates
        && first.symbols == second.symbols
        && first.comment == second.comment
}
