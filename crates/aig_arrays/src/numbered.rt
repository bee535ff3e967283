//! The binary image of a circuit with the new numbers of its variables.
ghost use Rattle.std.specs.Prelude.{◌≡◌, ◌+◌, ◌≤◌, length, map, IfOk, IfSome, OnErr};
ghost use Rattle.std.specs.List.{range_with_len};
ghost use Rattle.aig_circuit.specs.Wellformed.{IsWellFormed, defined_variables};
ghost use Rattle.aig_checked.specs.BinaryOrder.{IsNumberedInOrder};
ghost use Rattle.aig_image.specs.Parts.Numbers.{IsRenumberingOf, first_variables, number_of};
ghost use Rattle.aig_arrays.specs.Ordered.{IsNumberedImageIn};
ghost use Rattle.aig_arrays.specs.Parts.Numbered.{AreGateNumbers};
ghost use Rattle.aig_arrays.specs.Parts.Placed.{placed};

use aig_core::{Checked, Circuit, Ordered, OutOfMemory, Steps, is_numbered_in_order};
use aig_image::{Defines, Numbers, Renumbering, gate_numbers, into_binary};
use std::alloc::Global;

/// Puts the numbers of what defines variables from a place on, and answers where they end.
fn put_numbers_of<T: Defines>(numbers: &mut [u32], at: usize, new: &Numbers, items: &[T]) -> usize
    requires { at + length items.now ≤ length numbers.old }
    ensures end { result ≡ at + length items.now }
    ensures numbers { numbers.new
        ≡ placed at (map (λ x. number_of new.now (T.variable x)) items.now) numbers.old }
{
    let mut end = at;
    for item in items {
        numbers[end] = new.number(item.variable());
        end += 1;
    }
    end
}

fn put_numbers(numbers: &mut [u32], new: &Numbers, circuit: &Circuit)
    requires { length (defined_variables circuit.now) ≤ length numbers.old }
    ensures { numbers.new
        ≡ placed 0 (map (number_of new.now) (defined_variables circuit.now)) numbers.old }
{
    let end = put_numbers_of(numbers, 0, new, circuit.inputs.as_slice());
    let end = put_numbers_of(numbers, end, new, circuit.latches.as_slice());
    put_numbers_of(numbers, end, new, circuit.gates.as_slice());
}

/// The numbers are let go.
fn by_numbers(renumbering: Renumbering, checked: Checked, numbers: &mut [u32]) -> Ordered
    requires of_it { IsRenumberingOf checked renumbering }
    requires room { length (defined_variables checked) ≤ length numbers.old }
    ensures { IsNumberedImageIn checked result numbers.old numbers.new }
{
    put_numbers(numbers, renumbering.numbers(), checked.circuit());
    renumbering.image(checked.into_circuit())
}

fn with_new_numbers(
    alloc: Global,
    checked: Checked,
    numbers: &mut [u32],
) -> Result<Ordered, OutOfMemory>
    requires { length (defined_variables checked) ≤ length numbers.old }
    ensures ok { IfOk result (λ image. IsNumberedImageIn checked image numbers.old numbers.new) }
    ensures err { OnErr result (numbers.new ≡ numbers.old) }
{
    let renumbering = Renumbering::new(alloc, &checked, &mut Steps::new())?;
    Ok(by_numbers(renumbering, checked, numbers))
}

/// How many inputs and latches a circuit has.
fn count_before_gates(circuit: &Circuit) -> u32
    requires { IsWellFormed circuit.now }
    ensures { result ≡ length (first_variables circuit.now) }
{
    circuit.inputs.len() as u32 + circuit.latches.len() as u32
}

fn put_first_numbers(numbers: &mut [u32], count: u32)
    requires { count ≤ length numbers.old }
    ensures { numbers.new ≡ placed 0 (range_with_len 1 count) numbers.old }
{
    for at in 0..count {
        numbers[at as usize] = 1 + at;
    }
}

/// The variables keep their numbers: all from 1 on.
#[tactic(auto, using(crate::proofs::Numbering::as_many_defined))]
fn with_first_numbers(
    alloc: Global,
    checked: Checked,
    numbers: &mut [u32],
) -> Result<Ordered, OutOfMemory>
    requires numbered { IsNumberedInOrder checked }
    requires room { length (defined_variables checked) ≤ length numbers.old }
    ensures ok { IfOk result (λ image. IsNumberedImageIn checked image numbers.old numbers.new) }
    ensures err { OnErr result (numbers.new ≡ numbers.old) }
{
    let count = checked.circuit().max_var;
    let image = into_binary(alloc, checked, &mut Steps::new())?;
    put_first_numbers(numbers, count);
    Ok(image)
}

/// The numbers of the gates by their positions, if the check made an order of them.
fn numbers_by_order(alloc: Global, checked: &Checked) -> Result<Option<Vec<u32>>, OutOfMemory>
    ensures { IfOk result (λ some. IfSome some (λ gates. AreGateNumbers checked.now gates.items)) }
{
    let Some(order) = checked.order() else {
        return Ok(None);
    };
    let numbers = gate_numbers(alloc, count_before_gates(checked.circuit()), order.list())?;
    Ok(Some(numbers))
}

fn put_given(numbers: &mut [u32], at: usize, given: &[u32])
    requires { at + length given.now ≤ length numbers.old }
    ensures { numbers.new ≡ placed at given.now numbers.old }
{
    let mut end = at;
    for number in given {
        numbers[end] = *number;
        end += 1;
    }
}

/// The gates have these numbers by their positions, and what is before them those from 1 on.
fn with_gate_numbers(
    alloc: Global,
    checked: Checked,
    gates: &[u32],
    numbers: &mut [u32],
) -> Result<Ordered, OutOfMemory>
    requires are { AreGateNumbers checked gates.now }
    requires room { length (defined_variables checked) ≤ length numbers.old }
    ensures ok { IfOk result (λ image. IsNumberedImageIn checked image numbers.old numbers.new) }
    ensures err { OnErr result (numbers.new ≡ numbers.old) }
{
    let before = count_before_gates(checked.circuit());
    let image = into_binary(alloc, checked, &mut Steps::new())?;
    put_first_numbers(numbers, before);
    put_given(numbers, before as usize, gates);
    Ok(image)
}

/// The binary image of a circuit, in the circuit's own memory. The new number of each variable that
/// it defines, in the order in which it defines them, is written at the front of `numbers`. It
/// fails only if an allocation fails.
pub fn numbered_image(
    alloc: Global,
    checked: Checked,
    numbers: &mut [u32],
) -> Result<Ordered, OutOfMemory>
    requires { length (defined_variables checked) ≤ length numbers.old }
    ensures ok { IfOk result (λ image. IsNumberedImageIn checked image numbers.old numbers.new) }
    ensures err { OnErr result (numbers.new ≡ numbers.old) }
{
    if is_numbered_in_order(&checked) {
        return with_first_numbers(alloc, checked, numbers);
    }
    match numbers_by_order(alloc, &checked)? {
        Some(gates) => with_gate_numbers(alloc, checked, &gates, numbers),
        None => with_new_numbers(alloc, checked, numbers),
    }
}
