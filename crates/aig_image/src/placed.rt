//! The gates of a binary image where the check has found what each of them needs: an operand has
//! its new number by the position of its gate, and is not looked up once more.
ghost use Rattle.std.specs.Prelude.{◌≡◌, ◌+◌, ◌≤◌, ◌<◌, ℕ, Option, length, map, slice_index_or};
ghost use Rattle.std.specs.Prelude.{IfOk};
ghost use Rattle.std.specs.List.{AllByRecursion};
ghost use Rattle.std.specs.Option.{IfSome};
ghost use Rattle.aig_circuit.specs.Wellformed.{AreDistinct, IsWellFormed};
ghost use Rattle.aig_circuit.specs.declared.circuit.TheConstants.{LARGEST as largest};
ghost use Rattle.aig_topo.specs.Order.{IsLeastReadyOrder};
ghost use Rattle.aig_topo.specs.Resolved.{IsResolved};
ghost use Rattle.aig_image.specs.Image.{IsBinaryImage};
ghost use Rattle.aig_image.specs.Parts.Placed.{number_by, placed_number, literal_by, gate_by};
ghost use Rattle.aig_image.specs.Parts.Placed.{unlinked, AreSmall, FollowOn, IsPlaced};
ghost use Rattle.aig_image.specs.Parts.Placed.{IsMadeByPlaces};
ghost use Rattle.aig_image.specs.Reordered.{no_gate};

use crate::image::with_larger_first;
use crate::labelling::{Labels, relabel};
use crate::numbers::Numbers;
use aig_checked::Ordered;
use aig_circuit::{Circuit, Gate, Listing, Lit, OutOfMemory, Var};
use aig_topo::{Order, Resolved};
use std::alloc::{AllocError, Global};

/// The new numbers of variables: that of a gate's own by the position of the gate.
#[derive(Drop)]
pub(crate) struct Placed {
    resolved: Resolved,
    /// The numbers of inputs and latches.
    first: Numbers,
    /// The number of each gate.
    numbers: Vec<u32>,
}

impl Labels for Placed {
    ghost label = { placed_number };

    #[inline(always)]
    fn label(&self, var: Var) -> Var {
        Var(self.number(self.resolved.position(var), var))
    }
}

/// The number of each gate by its position, where gates are numbered in this order, and inputs and
/// latches, of which there are so many, before them. It fails only if an allocation fails.
pub fn gate_numbers(alloc: Global, before: u32, order: &[u32]) -> Result<Vec<u32>, OutOfMemory>
    requires few { before + length order.now ≤ largest }
    requires once { AreDistinct order.now }
    requires there { AllByRecursion (λ at. at < length order.now) order.now }
    ensures { IfOk result (λ numbers. FollowOn before order.now numbers.items) }
{
    let mut numbers = vec![in alloc; 0; order.len()]?;
    for at in 0..order.len() {
        numbers[order[at] as usize] = before + (at as u32 + 1);
    }
    Ok(numbers)
}

impl Placed {
    fn new(
        alloc: Global,
        circuit: &Circuit,
        order: &[u32],
        resolved: Resolved,
    ) -> Result<Self, OutOfMemory>
        requires good { IsWellFormed circuit.now }
        requires least { IsLeastReadyOrder circuit.now order.now }
        requires resolved { IsResolved circuit.now.gates resolved }
        ensures { IfOk result (λ placed. IsPlaced circuit.now order.now placed) }
    {
        let first = Numbers::of_first_alone(alloc, circuit)?;
        let numbers = gate_numbers(alloc, first.count(), order)?;
        Ok(Placed {
            resolved,
            first,
            numbers,
        })
    }

    /// The number of a variable that the gate of this position defines, or none.
    #[inline(always)]
    fn number(&self, at: Option<u32>, var: Var) -> u32
        ensures { result ≡ number_by self.now at var }
    {
        match at {
            Some(at) => self.number_at(at as usize),
            None => self.first.number(var),
        }
    }

    #[inline(always)]
    fn number_at(&self, at: usize) -> u32
        ensures { result ≡ slice_index_or self.now.numbers.items at 0 }
    {
        if at < self.numbers.len() {
            self.numbers[at]
        } else {
            0
        }
    }

    #[inline(always)]
    fn literal(&self, link: u32, literal: Lit) -> Lit
        requires { AreSmall self.now }
        ensures { result ≡ literal_by self.now (unlinked link) literal }
    {
        let number = self.number(link.checked_sub(1), literal.var());
        Lit(2 * number + literal.0 % 2)
    }

    #[inline(always)]
    fn gate(&self, at: usize, gate: Gate) -> Gate
        requires small { AreSmall self.now }
        requires there { at < length self.now.resolved.needs.items }
        ensures { result ≡ gate_by self.now at gate }
    {
        let needs = self.resolved.needs()[at];
        with_larger_first(Gate {
            var: Var(self.number_at(at)),
            left: self.literal(needs.left, gate.left),
            right: self.literal(needs.right, gate.right),
        })
    }

    /// The gates of the image. They are made in the order in which they stand, and each is put
    /// where its number belongs: so what it is made of is read one after the other.
    fn gates(&self, alloc: Global, gates: &[Gate], order: &[u32]) -> Result<Vec<Gate>, AllocError>
        requires small { AreSmall self.now }
        requires many { length gates.now ≡ length order.now }
        requires needs { length self.now.resolved.needs.items ≡ length order.now }
        requires numbers { FollowOn self.now.first.noted order.now self.now.numbers.items }
        ensures { IfOk result (λ made. made.items ≡ map
            (λ at. gate_by self.now at (slice_index_or gates.now at no_gate)) order.now) }
    {
        let none = Gate {
            var: Var(0),
            left: Lit(0),
            right: Lit(0),
        };
        let mut made = vec![in alloc; none; order.len()]?;
        for at in 0..gates.len() {
            let place = self.number_at(at) - self.first.count() - 1;
            made[place as usize] = self.gate(at, gates[at]);
        }
        Ok(made)
    }

    /// All but the gates stays in the circuit's own memory.
    fn image(self, alloc: Global, circuit: Circuit, gates: Vec<Gate>) -> Ordered
        requires good { IsWellFormed circuit }
        requires of_it { IsMadeByPlaces circuit self gates.items }
        ensures { IsBinaryImage circuit result }
    {
        let count = self.first.count() + self.numbers.len() as u32;
        let rest = relabel(
            &self,
            Circuit {
                gates: Listing::new(alloc),
                ..circuit
            },
        );
        Ordered::from_well_ordered(Circuit {
            max_var: count,
            gates: Listing::from_vec(gates),
            ..rest
        })
    }
}

/// The binary image of a circuit, by the order and by what was resolved for it.
pub(crate) fn placed_image(
    alloc: Global,
    circuit: Circuit,
    order: Order,
    resolved: Resolved,
) -> Result<Ordered, OutOfMemory>
    requires good { IsWellFormed circuit }
    requires least { IsLeastReadyOrder circuit order.list }
    requires resolved { IsResolved circuit.gates resolved }
    ensures { IfOk result (λ image. IsBinaryImage circuit image) }
{
    let placed = Placed::new(alloc, &circuit, order.list(), resolved)?;
    let gates = placed.gates(alloc, circuit.gates.as_slice(), order.list())?;
    Ok(placed.image(alloc, circuit, gates))
}
