//! A circuit in the order in which another one names its inputs and what is compared.
ghost use Rattle.std.specs.Prelude.{◌≡◌, [], IfErr, IfOk, None, Ok, Err, OnOk, Some, length};
ghost use Rattle.aig_circuit.specs.Wellformed.{IsWellFormed, IsWithinLimits};
ghost use Rattle.aig_fault.specs.Stopping.{StopsFor};
ghost use Rattle.aig_pairing.specs.ByNames.{by_names, count_fault, first_missing, pairing_fault};
ghost use Rattle.aig_pairing.specs.NameFaults.{compared_fault, first_name_fault, input_fault};
ghost use Rattle.aig_pairing.specs.Names.{compared, compared_names, input_names};
ghost use Rattle.aig_pairing.specs.Parts.Ordered.{AreInOrder, IsNamed, IsNamedOf, with_lists};
ghost use Rattle.aig_pairing.specs.declared.paired.Paired.TheVariants.{Compared};

use crate::index::Index;
use crate::names::names_by;
use crate::paired::Paired;
use aig_checked::Checked;
use aig_circuit::{Circuit, Listing, Lit, Symbols, Var};
use aig_fault::{Kind, Stopped, refused_whole};
use std::alloc::{AllocError, Global};

/// A circuit with its names.
#[derive(Drop)]
pub(crate) struct Named<'a> {
    circuit: &'a Circuit,
    inputs: Index<'a>,
    compared: Index<'a>,
}

/// What a circuit has in the order of another one.
#[derive(Drop)]
pub(crate) struct Lists {
    inputs: Vec<Var>,
    outputs: Vec<Lit>,
    bad: Vec<Lit>,
}

/// What is compared of a circuit, as a list of things that are paired.
fn what_is_compared(circuit: &Circuit) -> Paired
    requires { IsWithinLimits circuit.now }
    ensures { result ≡ Compared (length circuit.now.outputs) }
{
    Paired::Compared(circuit.outputs.len() as u32)
}

/// How much is compared of a circuit.
fn compared_count(circuit: &Circuit) -> usize
    requires { IsWithinLimits circuit.now }
    ensures { result ≡ length (compared circuit.now) }
{
    circuit.outputs.len() + circuit.bad.len()
}

/// The names of the inputs, unless one of them is wrong.
fn index_inputs(alloc: Global, circuit: &Circuit) -> Result<Index<'_>, Stopped>
    ensures names { IfOk result (λ index. index ≡ input_names circuit.now) }
    ensures right { OnOk result (input_fault circuit.now ≡ None) }
    ensures wrong { IfErr result (StopsFor (λ fault. input_fault circuit.now ≡ Some fault)) }
{
    let count = circuit.inputs.len();
    let names = names_by(alloc, Paired::Inputs, count, &circuit.symbols)?;
    Index::new(alloc, Paired::Inputs, names)
}

/// The names of what is compared, unless one of them is wrong.
fn index_compared(alloc: Global, circuit: &Circuit) -> Result<Index<'_>, Stopped>
    requires { IsWithinLimits circuit.now }
    ensures names { IfOk result (λ index. index ≡ compared_names circuit.now) }
    ensures right { OnOk result (compared_fault circuit.now ≡ None) }
    ensures wrong { IfErr result (StopsFor (λ fault. compared_fault circuit.now ≡ Some fault)) }
{
    let paired = what_is_compared(circuit);
    let count = compared_count(circuit);
    let names = names_by(alloc, paired, count, &circuit.symbols)?;
    Index::new(alloc, paired, names)
}

/// The circuit with its names, unless one of them is wrong.
fn index_names(alloc: Global, circuit: &Circuit) -> Result<Named<'_>, Stopped>
    requires { IsWithinLimits circuit.now }
    ensures named { IfOk result (IsNamedOf circuit.now) }
    ensures right { OnOk result (first_name_fault circuit.now ≡ None) }
    ensures wrong { IfErr result (StopsFor (λ fault. first_name_fault circuit.now ≡ Some fault)) }
{
    let inputs = index_inputs(alloc, circuit)?;
    let compared = index_compared(alloc, circuit)?;
    Ok(Named {
        circuit,
        inputs,
        compared,
    })
}

/// The circuit with its names, of which none is wrong.
fn index_known(alloc: Global, circuit: &Circuit) -> Result<Named<'_>, AllocError>
    requires limits { IsWithinLimits circuit.now }
    requires named { first_name_fault circuit.now ≡ None }
    ensures { IfOk result (IsNamedOf circuit.now) }
{
    match index_names(alloc, circuit) {
        Ok(named) => Ok(named),
        Err(_) => Err(AllocError),
    }
}

/// Refuses a circuit that has not as many inputs as the first, or not as much that is compared.
fn check_counts(first: &Circuit, second: &Circuit) -> Result<(), Stopped>
    requires first { IsWithinLimits first.now }
    requires second { IsWithinLimits second.now }
    ensures ok { OnOk result (count_fault first.now second.now ≡ None) }
    ensures err { IfErr result (StopsFor (λ fault.
        count_fault first.now second.now ≡ Some fault)) }
{
    if first.inputs.len() != second.inputs.len() {
        return Err(refused_whole(Kind::OtherInputs));
    }
    if compared_count(first) != compared_count(second) {
        return Err(refused_whole(Kind::OtherOutputs));
    }
    Ok(())
}

/// Refuses a circuit of which a name is none of those of the first.
fn check_there(first: &Named, second: &Named) -> Result<(), Stopped>
    requires first { IsNamed first.now }
    requires second { IsNamed second.now }
    ensures ok { OnOk result (first_missing first.now.circuit.now second.now.circuit.now ≡ None) }
    ensures err { IfErr result (StopsFor (λ fault.
        first_missing first.now.circuit.now second.now.circuit.now ≡ Some fault)) }
{
    let compared = what_is_compared(second.circuit);
    second.inputs.check_there(Paired::Inputs, &first.inputs)?;
    second.compared.check_there(compared, &first.compared)
}

/// The literals that are compared.
fn what_to_compare(alloc: Global, circuit: &Circuit) -> Result<Vec<Lit>, AllocError>
    ensures { IfOk result (λ literals. literals.items ≡ compared circuit.now) }
{
    let mut literals = Vec::from_slice(alloc, circuit.outputs.as_slice())?;
    literals.extend_from_slice(circuit.bad.as_slice())?;
    Ok(literals)
}

/// What the second circuit has, in the order of the first.
fn order_lists(alloc: Global, first: &Named, second: &Named) -> Result<Lists, AllocError>
    requires first { IsNamed first.now }
    requires second { IsNamed second.now }
    ensures { IfOk result (AreInOrder first.now.circuit.now second.now.circuit.now) }
{
    let (circuit, names) = (second.circuit, &second.compared);
    let (outputs, bad) = first.compared.names().split_at(first.circuit.outputs.len());
    let literals = what_to_compare(alloc, circuit)?;
    Ok(Lists {
        inputs: second
            .inputs
            .in_order_of(alloc, first.inputs.names(), circuit.inputs.as_slice())?,
        outputs: names.in_order_of(alloc, outputs, literals.as_slice())?,
        bad: names.in_order_of(alloc, bad, literals.as_slice())?,
    })
}

/// What the second circuit has, in the order of the first, unless they cannot be paired.
fn pair(alloc: Global, first: &Circuit, second: &Circuit) -> Result<Lists, Stopped>
    requires named { first_name_fault first.now ≡ None }
    requires first { IsWithinLimits first.now }
    requires second { IsWithinLimits second.now }
    ensures lists { IfOk result (AreInOrder first.now second.now) }
    ensures right { OnOk result (pairing_fault first.now second.now ≡ None) }
    ensures wrong { IfErr result (StopsFor (λ fault.
        pairing_fault first.now second.now ≡ Some fault)) }
{
    check_counts(first, second)?;
    let ordered = index_names(alloc, second)?;
    let wanted = index_known(alloc, first)?;
    check_there(&wanted, &ordered)?;
    Ok(order_lists(alloc, &wanted, &ordered)?)
}

/// The circuit with these lists, and without names.
fn with_lists(circuit: Checked, lists: Lists, symbols: Symbols) -> Checked
    requires symbols { symbols ≡ [] }
    requires formed { IsWellFormed (with_lists lists circuit) }
    ensures { result ≡ with_lists lists circuit }
{
    let circuit = circuit.into_circuit();
    Checked::from_well_formed(Circuit {
        inputs: Listing::from_vec(lists.inputs),
        outputs: Listing::from_vec(lists.outputs),
        bad: Listing::from_vec(lists.bad),
        symbols,
        comment: None,
        ..circuit
    })
}

/// Checks the names by which a circuit is to be paired with another: each input has one, and no two
/// the same, and so each of what is compared, outputs and then bad states.
pub fn check_names(alloc: Global, circuit: &Checked) -> Result<(), Stopped>
    ensures ok { OnOk result (first_name_fault circuit.now ≡ None) }
    ensures err { IfErr result (StopsFor (λ fault. first_name_fault circuit.now ≡ Some fault)) }
{
    let _named = index_names(alloc, circuit.circuit())?;
    Ok(())
}

/// The second circuit with its inputs, and with what is compared of it, in the order in which the
/// first one names them. The names of the first are to be checked before.
pub fn order_by_names(alloc: Global, first: &Checked, second: Checked) -> Result<Checked, Stopped>
    requires { first_name_fault first.now ≡ None }
    ensures ok { IfOk result (λ ordered. by_names first.now second ≡ Ok ordered) }
    ensures err { IfErr result (StopsFor (λ fault. by_names first.now second ≡ Err fault)) }
{
    match pair(alloc, first.circuit(), second.circuit()) {
        Ok(lists) => Ok(with_lists(second, lists, Symbols::new(alloc))),
        Err(stopped) => {
            drop(second); // for the proof
            Err(stopped)
        }
    }
}
