//! The undone circuit: what a circuit was before its conversion, by a map block.
ghost use Rattle.std.specs.Prelude.{◌≡◌, ◌<◌, ◌≤◌, ◌⊎◌, ◌↔◌, ◌++◌, true, ℕ};
ghost use Rattle.std.specs.Prelude.{Some, None, List, length, map, take, drop};
ghost use Rattle.std.specs.Prelude.{replicate, if◌then◌else◌, IfOk, IfErr, IsTrue, OnOk};
ghost use Rattle.std.specs.Bool.{OnTrue, OnFalse};
ghost use Rattle.std.specs.List.{AllByRecursion};
ghost use Rattle.aig_circuit.specs.declared.circuit.Gate.{Gate as GateRecord};
ghost use Rattle.aig_circuit.specs.Wellformed.{AreDistinct};
ghost use Rattle.aig_image.specs.Relabelled.{FitIntoLiterals, relabelled_gate};
ghost use Rattle.aig_image.specs.Renumbering.{source_variable};
ghost use Rattle.aig_image.specs.Reordered.{exchanged_by, exchanged_if, taken};
ghost use Rattle.aig_fault.specs.declared.stopped.Stopped.TheVariants.{OutOfMemory as IsOutOfMemory};
ghost use Rattle.aig_map.specs.declared.map_block.MapBlock.{MapBlock as MapBlockRecord};
ghost use Rattle.aig_map.specs.declared.map_block.MappedGate.{MappedGate as MappedGateRecord};
ghost use Rattle.aig_map.specs.MapReading.{IsWithinBounds};
ghost use Rattle.aig_map.specs.Parts.Placed.{table_of, with_gates};
ghost use Rattle.aig_map.specs.Parts.Had.{without_gates};
ghost use Rattle.aig_map.specs.Parts.Confirmed.{DifferWhereExchanged, ExchangesDiffer};
ghost use Rattle.aig_map.specs.Parts.Tables.{ArePut, IsBlockOf};
ghost use Rattle.aig_map.specs.Undone.{comment_behind, forged, source_variables, undone};

use crate::map_block::{MapBlock, MappedGate};
use crate::recorded::Recorded;
use aig_core::{
    Circuit, Gate, Justice, Latch, Listing, Lit, OutOfMemory, Symbols, Var, copy_justice,
    copy_symbols,
};
use aig_fault::{Kind, Stopped, refused_whole};
use aig_image::{Labels, NamesVariables, relabel};
use std::alloc::Global;

/// Stops at the first gate whose place has a variable, and returns whether there is none.
fn fill_places(placed: &mut [Var], gates: &[MappedGate]) -> bool
    requires { AllByRecursion (λ (g : MappedGateRecord). g.place < length placed.old) gates.now }
    ensures all { OnTrue result (with_gates placed.old gates.now ≡ Some placed.new) }
    ensures twice { OnFalse result (with_gates placed.old gates.now ≡ None) }
{
    for gate in gates {
        let at = gate.place as usize;
        let there = placed[at];
        if there.0 != 0 {
            return false;
        }
        placed[at] = gate.var;
    }
    true
}

/// Puts the variable of each gate at its place, after the first variables, so many. Returns whether
/// no two gates have one place.
fn place_gates(variables: &mut [Var], first: usize, gates: &[MappedGate]) -> bool
    requires within { first ≤ length variables.old }
    requires none { drop first variables.old ≡ replicate (length gates.now) 0 }
    requires there { AllByRecursion
        (λ (g : MappedGateRecord). g.place < length gates.now) gates.now }
    ensures all { OnTrue result ((table : List ℕ) × (table_of gates.now ≡ Some table)
        × (variables.new ≡ take first variables.old ++ table)) }
    ensures twice { OnFalse result (table_of gates.now ≡ None) }
{
    let (_, placed) = variables.split_at_mut(first);
    fill_places(placed, gates)
}

/// The variables of the source in their new order: inputs, latches, and gates by their places.
#[derive(Drop)]
pub struct SourceVariables {
    /// The variable for each number from 1 on.
    pub variables: Vec<Var>,
}

/// A number has the label of the variable that it was given to; the constant stays.
impl Labels for SourceVariables {
    ghost label = { λ source. source_variable source.variables.items };

    #[inline(always)]
    fn label(&self, var: Var) -> Var {
        if var.0 == 0 {
            return Var(0);
        }
        match self.variables.get(var.0 as usize - 1) {
            Some(variable) => *variable,
            None => Var(0),
        }
    }
}

/// The variables of the source in their new order.
pub fn source_variables(alloc: Global, block: &MapBlock) -> Result<SourceVariables, Stopped>
    requires bounds { IsWithinBounds block.now }
    ensures ok { IfOk result (λ r. r.variables.items ≡ source_variables block.now) }
    ensures places { IfOk result (λ _. AreDistinct
        (map (λ (g : MappedGateRecord). g.place) block.now.gates)) }
    ensures err { IfErr result (λ e. (e ≡ IsOutOfMemory)
        ⊎ ((e ≡ forged)
        × (¬ AreDistinct (map (λ (g : MappedGateRecord). g.place) block.now.gates)))) }
{
    let first = block.inputs.len() + block.latches.len();
    let count = first + block.gates.len();
    let mut variables = Vec::with_capacity(alloc, count)?;
    variables.extend_from_slice(block.inputs.as_slice())?;
    variables.extend_from_slice(block.latches.as_slice())?;
    variables.resize(count, Var(0))?;
    if place_gates(variables.as_mut_slice(), first, block.gates.as_slice()) {
        Ok(SourceVariables { variables })
    } else {
        Err(refused_whole(Kind::MapForged))
    }
}

/// It goes in the order of the image, where variables of operands mostly lie near one another.
#[inline(never)]
fn put_at_positions(found: &mut [Gate], variables: &SourceVariables, gates: &[Gate], places: &[u32])
    requires fit { FitIntoLiterals (source_variable variables.now.variables.items) }
    requires many { length places.now ≡ length gates.now }
    requires there { AllByRecursion (λ at. at < length found.old) places.now }
    requires once { AreDistinct places.now }
    ensures many { length found.new ≡ length found.old }
    ensures put { taken found.new places.now
        ≡ map (relabelled_gate (source_variable variables.now.variables.items)) gates.now }
{
    for (place, gate) in gates.iter().enumerate() {
        found[places[place] as usize] = gate.relabel(variables);
    }
}

#[inline(always)]
fn exchange_if(exchanged: bool, gate: Gate) -> Gate
    ensures { result ≡ exchanged_if exchanged gate }
{
    Gate {
        var: gate.var,
        left: if exchanged { gate.right } else { gate.left },
        right: if exchanged { gate.left } else { gate.right },
    }
}

#[inline(always)]
fn exchanges_equal(exchanged: bool, gate: &Gate) -> bool
    ensures { IsTrue result ↔ ((exchanged ≡ true) × (gate.now.left ≡ gate.now.right)) }
{
    gate.left.0 == gate.right.0 && exchanged
}

/// Stops at the first gate to exchange that has equal operands. Returns whether there is none.
#[inline(never)]
#[tactic(auto, using(crate::proofs::Sources::Refused::not_all_differ, crate::proofs::Sources::Refused::one_more_exchanged, crate::proofs::Sources::Refused::one_more_differs))]
fn exchange_recorded(found: &mut [Gate], exchanged: &[bool]) -> bool
    requires { length exchanged.now ≡ length found.old }
    ensures all { OnTrue result (found.new ≡ exchanged_by exchanged.now found.old) }
    ensures differ { IsTrue result ↔ DifferWhereExchanged found.old exchanged.now }
{
    for (position, is_exchanged) in exchanged.iter().enumerate() {
        let there = found[position];
        if exchanges_equal(*is_exchanged, &there) {
            return false;
        }
        found[position] = exchange_if(*is_exchanged, there);
    }
    true
}

fn gates_at_positions(
    alloc: Global,
    variables: &SourceVariables,
    gates: &[Gate],
    places: &[u32],
) -> Result<Vec<Gate>, OutOfMemory>
    requires fit { FitIntoLiterals (source_variable variables.now.variables.items) }
    requires many { length places.now ≡ length gates.now }
    requires there { AllByRecursion (λ at. at < length gates.now) places.now }
    requires once { AreDistinct places.now }
    ensures { IfOk result (λ r.
        ArePut (source_variable variables.now.variables.items) gates.now places.now r.items) }
{
    let none = Gate {
        var: Var(0),
        left: Lit(0),
        right: Lit(0),
    };
    let mut found = vec![in alloc; none; gates.len()]?;
    put_at_positions(found.as_mut_slice(), variables, gates, places);
    Ok(found)
}

#[tactic(auto, using(std::proofs::lemmas::List::take_all, std::proofs::lemmas::List::drop_all))]
fn source_gates(
    alloc: Global,
    variables: &SourceVariables,
    gates: &[Gate],
    places: &[u32],
    exchanged: &[bool],
) -> Result<Listing<Gate>, Stopped>
    requires fit { FitIntoLiterals (source_variable variables.now.variables.items) }
    requires many { length places.now ≡ length gates.now }
    requires there { AllByRecursion (λ at. at < length gates.now) places.now }
    requires once { AreDistinct places.now }
    requires flags { length exchanged.now ≡ length gates.now }
    ensures ok { IfOk result (λ r. (found : List GateRecord)
        × ArePut (source_variable variables.now.variables.items) gates.now places.now found
        × DifferWhereExchanged found exchanged.now × (r ≡ exchanged_by exchanged.now found)) }
    ensures err { IfErr result (λ e. (e ≡ IsOutOfMemory)
        ⊎ ((e ≡ forged) × ((found : List GateRecord)
        × ArePut (source_variable variables.now.variables.items) gates.now places.now found
        × (¬ DifferWhereExchanged found exchanged.now)))) }
{
    let mut found = gates_at_positions(alloc, variables, gates, places)?;
    if exchange_recorded(found.as_mut_slice(), exchanged) {
        Ok(Listing::from_vec(found))
    } else {
        Err(refused_whole(Kind::MapForged))
    }
}

fn source_comment(
    alloc: Global,
    has_comment: bool,
    comment: &[u8],
) -> Result<Option<Listing<u8>>, OutOfMemory>
    ensures { IfOk result (λ r. r ≡ (if has_comment then Some comment.now else None)) }
{
    if !has_comment {
        return Ok(None);
    }
    Ok(Some(Listing::from_vec(Vec::from_slice(alloc, comment)?)))
}

/// The sections of single literals.
#[derive(Drop)]
struct Literals {
    outputs: Listing<Lit>,
    bad: Listing<Lit>,
    constraints: Listing<Lit>,
    fairness: Listing<Lit>,
}

fn copy_literals(alloc: Global, image: &Circuit) -> Result<Literals, OutOfMemory>
    ensures { IfOk result (λ r. (r.outputs ≡ image.now.outputs) × (r.bad ≡ image.now.bad)
        × (r.constraints ≡ image.now.constraints) × (r.fairness ≡ image.now.fairness)) }
{
    Ok(Literals {
        outputs: image.outputs.copy(alloc)?,
        bad: image.bad.copy(alloc)?,
        constraints: image.constraints.copy(alloc)?,
        fairness: image.fairness.copy(alloc)?,
    })
}

fn copy_defined(
    alloc: Global,
    image: &Circuit,
) -> Result<(Listing<Var>, Listing<Latch>), OutOfMemory>
    ensures inputs { IfOk result (λ made. made.0 ≡ image.now.inputs) }
    ensures latches { IfOk result (λ made. made.1 ≡ image.now.latches) }
{
    let inputs = image.inputs.copy(alloc)?;
    let Ok(latches) = image.latches.copy(alloc) else {
        drop(inputs); // for the proof
        return Err(OutOfMemory);
    };
    Ok((inputs, latches))
}

fn copy_rest(
    alloc: Global,
    has_comment: bool,
    comment: &[u8],
    image: &Circuit,
) -> Result<(Justice, Symbols, Option<Listing<u8>>), OutOfMemory>
    ensures justice { IfOk result (λ made. made.0 ≡ image.now.justice) }
    ensures symbols { IfOk result (λ made. made.1 ≡ image.now.symbols) }
    ensures comment { IfOk result (λ made. made.2
        ≡ (if has_comment then Some comment.now else None)) }
{
    let justice = copy_justice(alloc, &image.justice)?;
    let Ok(symbols) = copy_symbols(alloc, &image.symbols) else {
        drop(justice); // for the proof
        return Err(OutOfMemory);
    };
    let Ok(comment) = source_comment(alloc, has_comment, comment) else {
        drop(justice); // for the proof
        drop(symbols); // for the proof
        return Err(OutOfMemory);
    };
    Ok((justice, symbols, comment))
}

fn without_gates(
    alloc: Global,
    recorded: &Recorded,
    comment: &[u8],
    image: &Circuit,
) -> Result<Circuit, OutOfMemory>
    ensures { IfOk result (λ c. c ≡ without_gates recorded.now.max_var
        (if recorded.now.has_comment then Some comment.now else None) image.now) }
{
    let literals = copy_literals(alloc, image)?;
    let Ok(defined) = copy_defined(alloc, image) else {
        drop(literals); // for the proof
        return Err(OutOfMemory);
    };
    let Ok(rest) = copy_rest(alloc, recorded.has_comment, comment, image) else {
        drop(literals); // for the proof
        drop(defined); // for the proof
        return Err(OutOfMemory);
    };
    let (inputs, latches) = defined;
    let (justice, symbols, comment) = rest;
    Ok(Circuit {
        max_var: recorded.max_var,
        inputs,
        latches,
        outputs: literals.outputs,
        bad: literals.bad,
        constraints: literals.constraints,
        justice,
        fairness: literals.fairness,
        gates: Listing::new(alloc),
        symbols,
        comment,
    })
}

/// The circuit with the variables and the orders of gates and operands that a block records; this
/// comment follows the block. It is forged where the operands of a gate are equal and recorded as
/// exchanged.
pub fn make_undone(
    alloc: Global,
    variables: &SourceVariables,
    places: &[u32],
    recorded: &Recorded,
    comment: &[u8],
    image: &Circuit,
) -> Result<Circuit, Stopped>
    ghost block: { MapBlockRecord }
    requires block { IsBlockOf block image.now recorded.now places.now }
    requires variables { variables.now.variables.items ≡ source_variables block }
    ensures ok { IfOk result (λ c.
        c ≡ undone block (comment_behind block comment.now) image.now) }
    ensures differ { OnOk result (ExchangesDiffer block image.now) }
    ensures err { IfErr result (λ e. (e ≡ IsOutOfMemory)
        ⊎ ((e ≡ forged) × (¬ ExchangesDiffer block image.now))) }
{
    let gates = source_gates(
        alloc,
        variables,
        image.gates.as_slice(),
        places,
        recorded.exchanged.as_slice(),
    )?;
    let others = without_gates(alloc, recorded, comment, image)?;
    Ok(Circuit {
        gates,
        ..relabel(variables, others)
    })
}
