//! The gates of a binary image, made in one go: where a gate's turn comes, its operands have their
//! new numbers.
ghost use Rattle.std.specs.Prelude.{◌≡◌, ◌+◌, ◌<◌, IfOk, OnOk, None};
ghost use Rattle.std.specs.Option.{IfSome};
ghost use Rattle.std.specs.FinMap.{get};
ghost use Rattle.aig_circuit.specs.Wellformed.{IsWellFormed};
ghost use Rattle.aig_circuit.specs.declared.circuit.TheConstants.{LARGEST};
ghost use Rattle.aig_tables.specs.VarMap.{with_new};
ghost use Rattle.aig_topo.specs.Order.{IsLeastReadyOrder};
ghost use Rattle.aig_image.specs.Image.{IsBinaryImage};
ghost use Rattle.aig_image.specs.Parts.InTurn.{next_numbered, new_number, DefineApart};
ghost use Rattle.aig_image.specs.Parts.InTurn.{HasNumber, AreMadeOf, AreMadeInTurn, IsMadeInTurn};
ghost use Rattle.aig_image.specs.Parts.Numbers.{number_of, first_variables};
ghost use Rattle.aig_image.specs.Relabelled.{relabelled_literal, FitIntoLiterals};

use crate::image::{take_gates, with_larger_first};
use crate::labelling::{Labels, relabel};
use crate::numbers::{AHEAD, FirstVariables, Numbers};
use crate::ranked::VariableRanks;
use aig_checked::{Checked, Ordered};
use aig_circuit::{Circuit, Gate, Listing, Lit, OutOfMemory, Var};
use aig_tables::Spacing;
use aig_topo::Order;
use std::alloc::{AllocError, Global};

/// New numbers, by variables or by ranks.
#[derive(Drop)]
pub(crate) struct KeptNumbers {
    /// The ranks by which the numbers are kept; none where they are kept by variables.
    ranks: Option<VariableRanks>,
    numbers: Numbers,
}

impl Labels for KeptNumbers {
    ghost label = { new_number };

    #[inline(always)]
    fn label(&self, var: Var) -> Var {
        let kept_by = match &self.ranks {
            Some(ranks) => ranks.label(var),
            None => var,
        };
        Var(self.numbers.number(kept_by))
    }
}

/// New numbers, and the gates of the image by them.
#[derive(Drop)]
pub(crate) struct InTurn {
    numbers: KeptNumbers,
    gates: Vec<Gate>,
}

/// A literal by the new number of its variable, none where that has none yet. A constant stays.
#[inline(always)]
fn by_new_number(numbers: &Numbers, literal: Lit) -> Option<Lit>
    requires { FitIntoLiterals (number_of numbers.now) }
    ensures known { IfSome result (λ _. HasNumber numbers.now literal) }
    ensures literal { IfSome result (λ l. l ≡ relabelled_literal (number_of numbers.now) literal) }
{
    let number = numbers.number(literal.var());
    if number == 0 && literal.0 > 1 {
        return None;
    }
    Some(Lit(2 * number + literal.0 % 2))
}

/// None where an operand has no number yet.
#[inline(always)]
fn next_gate(numbers: &mut Numbers, gate: Gate) -> Result<Option<Gate>, AllocError>
    requires room { numbers.old.noted < LARGEST }
    requires small { FitIntoLiterals (number_of numbers.old) }
    requires none { get numbers.old.numbers gate.var ≡ None }
    ensures known { IfOk result (λ some. IfSome some (λ _.
        HasNumber numbers.old gate.left × HasNumber numbers.old gate.right)) }
    ensures gate { IfOk result (λ some. IfSome some (λ g. g ≡ next_numbered numbers.old gate)) }
    ensures count { IfOk result (λ some.
        IfSome some (λ _. numbers.new.noted ≡ numbers.old.noted + 1)) }
    ensures numbers { IfOk result (λ some. IfSome some (λ _.
        numbers.new.numbers ≡ with_new numbers.old.numbers gate.var (numbers.old.noted + 1))) }
{
    let Some(left) = by_new_number(numbers, gate.left) else {
        return Ok(None);
    };
    let Some(right) = by_new_number(numbers, gate.right) else {
        return Ok(None);
    };
    numbers.note_new(gate.var)?;
    let var = Var(numbers.count());
    Ok(Some(with_larger_first(Gate { var, left, right })))
}

/// Makes each of the gates the gate of the image, in the order in which they stand, up to the first
/// one with an operand that has no number yet. All numbers, where there is none such.
fn number_in_turn<F: FirstVariables>(
    alloc: Global,
    first: &F,
    gates: &mut [Gate],
) -> Result<Option<Numbers>, AllocError>
    requires { DefineApart (F.variables first.now) gates.old }
    ensures { IfOk result (λ some.
        IfSome some (AreMadeOf (F.variables first.now) gates.old gates.new)) }
{
    let mut numbers = first.numbers(alloc)?;
    for at in 0..gates.len() {
        if at % AHEAD == 0 && numbers.is_any_overfull(gates, at) {
            return Ok(None);
        }
        let Some(gate) = next_gate(&mut numbers, gates[at])? else {
            return Ok(None);
        };
        gates[at] = gate;
    }
    Ok(Some(numbers))
}

impl KeptNumbers {
    fn by_variables(
        alloc: Global,
        circuit: &Circuit,
        gates: &mut [Gate],
    ) -> Result<Option<Self>, OutOfMemory>
        requires { DefineApart (first_variables circuit.now) gates.old }
        ensures { IfOk result (λ some.
            IfSome some (AreMadeInTurn (first_variables circuit.now) gates.old gates.new)) }
    {
        match number_in_turn(alloc, circuit, gates)? {
            Some(numbers) => Ok(Some(KeptNumbers {
                ranks: None,
                numbers,
            })),
            None => Ok(None),
        }
    }

    /// The ranks are found in a pass of their own, where none waits for another.
    fn by_ranks(
        alloc: Global,
        circuit: &Circuit,
        gates: &mut [Gate],
    ) -> Result<Option<Self>, OutOfMemory>
        requires { DefineApart (first_variables circuit.now) gates.old }
        ensures { IfOk result (λ some.
            IfSome some (AreMadeInTurn (first_variables circuit.now) gates.old gates.new)) }
    {
        let Some(ranks) = VariableRanks::of_circuit(alloc, circuit)? else {
            return Ok(None);
        };
        let Some(first) = ranks.of_first(alloc, circuit)? else {
            return Ok(None);
        };
        if !ranks.relabel_gates(gates) {
            return Ok(None);
        }
        match number_in_turn(alloc, &first, gates)? {
            Some(numbers) => Ok(Some(KeptNumbers {
                ranks: Some(ranks),
                numbers,
            })),
            None => Ok(None),
        }
    }

    fn of_gates(
        alloc: Global,
        circuit: &Circuit,
        gates: &mut [Gate],
    ) -> Result<Option<Self>, OutOfMemory>
        requires { DefineApart (first_variables circuit.now) gates.old }
        ensures { IfOk result (λ some.
            IfSome some (AreMadeInTurn (first_variables circuit.now) gates.old gates.new)) }
    {
        match Spacing::of_circuit(circuit) {
            Spacing::Spread => KeptNumbers::by_ranks(alloc, circuit, gates),
            _ => KeptNumbers::by_variables(alloc, circuit, gates),
        }
    }
}

impl InTurn {
    /// By gates in the order in which they stand, if each stands after those that it uses.
    fn of_gates(
        alloc: Global,
        circuit: &Circuit,
        mut gates: Vec<Gate>,
    ) -> Result<Option<Self>, OutOfMemory>
        requires { DefineApart (first_variables circuit.now) gates.items }
        ensures { IfOk result (λ some. IfSome some (λ made.
            AreMadeInTurn (first_variables circuit.now) gates.items made.gates.items made.numbers)) }
    {
        match KeptNumbers::of_gates(alloc, circuit, gates.as_mut_slice())? {
            Some(numbers) => Ok(Some(InTurn { numbers, gates })),
            None => Ok(None),
        }
    }

    fn by_order(
        alloc: Global,
        circuit: &Circuit,
        order: &Order,
    ) -> Result<Option<Self>, OutOfMemory>
        requires good { IsWellFormed circuit.now }
        requires least { IsLeastReadyOrder circuit.now order.now.list }
        ensures { IfOk result (λ some. IfSome some (λ made. IsMadeInTurn circuit.now made)) }
    {
        let taken = take_gates(alloc, circuit.gates.as_slice(), order.list())?;
        InTurn::of_gates(alloc, circuit, taken.into_vec())
    }

    fn as_they_stand(alloc: Global, circuit: &Circuit) -> Result<Option<Self>, OutOfMemory>
        requires { IsWellFormed circuit.now }
        ensures { IfOk result (λ some. IfSome some (λ made. IsMadeInTurn circuit.now made)) }
    {
        let gates = circuit.gates.copy(alloc)?;
        InTurn::of_gates(alloc, circuit, gates.into_vec())
    }

    /// Of a circuit that was checked, by the order that the check made, or else by its gates as
    /// they stand, if each stands after those that it uses.
    pub(crate) fn new(alloc: Global, checked: &Checked) -> Result<Option<Self>, OutOfMemory>
        ensures made { IfOk result (λ some. IfSome some (λ made. IsMadeInTurn checked.now made)) }
        ensures well_formed { OnOk result (IsWellFormed checked.now) }
    {
        let circuit = checked.circuit();
        match checked.order() {
            Some(order) => InTurn::by_order(alloc, circuit, order),
            None => InTurn::as_they_stand(alloc, circuit),
        }
    }

    /// All but the gates stays in the circuit's own memory.
    pub(crate) fn image(self, alloc: Global, circuit: Circuit) -> Ordered
        requires good { IsWellFormed circuit }
        requires of_it { IsMadeInTurn circuit self }
        ensures { IsBinaryImage circuit result }
    {
        let rest = relabel(
            &self.numbers,
            Circuit {
                gates: Listing::new(alloc),
                ..circuit
            },
        );
        Ordered::from_well_ordered(Circuit {
            max_var: self.numbers.numbers.count(),
            gates: Listing::from_vec(self.gates),
            ..rest
        })
    }
}
