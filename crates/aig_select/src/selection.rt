//! The selection of a circuit.
ghost use Rattle.std.specs.Prelude.{◌≡◌, ◌≤◌, ℕ, Bool, IfOk, length};
ghost use Rattle.std.specs.FinSet as set;
ghost use Rattle.aig_circuit.specs.Wellformed.{IsWellFormed};
ghost use Rattle.aig_circuit.specs.declared.circuit.TheConstants.{LARGEST};
ghost use Rattle.aig_select.specs.Choice.{IsChoiceOf};
ghost use Rattle.aig_select.specs.Parts.Plan.{assembled, gate_marks, shown_by};
ghost use Rattle.aig_select.specs.Selection.{IsSelection, input_marks, latch_marks, moved_symbols};
ghost use Rattle.aig_select.specs.Selection.{selected, selected_place};
ghost use Rattle.aig_select.specs.Staying.{numbered};

use crate::choice::Choice;
use crate::marks::mark_entries;
use crate::shown::{Shown, choose};
use crate::staying::{keep, number_marked};
use crate::symbols::{Places, move_symbols};
use aig_checked::Checked;
use aig_circuit::{Circuit, OutOfMemory, Symbols};
use aig_cone::{Reach, cone_of};
use aig_tables::VarSet;
use std::alloc::{AllocError, Global};

/// Which inputs, latches and gates stay.
#[derive(Drop)]
struct Marks {
    inputs: Vec<bool>,
    latches: Vec<bool>,
    gates: Vec<bool>,
}

/// All that the selection is made of.
#[derive(Drop)]
struct Plan {
    shown: Shown,
    marks: Marks,
    symbols: Symbols,
}

fn mark_all(alloc: Global, circuit: &Circuit, variables: &VarSet) -> Result<Marks, AllocError>
    ensures inputs { IfOk result (λ marks. marks.inputs.items
        ≡ input_marks (set.contains variables.now) circuit.now) }
    ensures latches { IfOk result (λ marks. marks.latches.items
        ≡ latch_marks (set.contains variables.now) circuit.now) }
    ensures gates { IfOk result (λ marks. marks.gates.items
        ≡ gate_marks (set.contains variables.now) circuit.now) }
{
    let inputs = mark_entries(alloc, variables, circuit.inputs.as_slice())?;
    let latches = mark_entries(alloc, variables, circuit.latches.as_slice())?;
    let gates = mark_entries(alloc, variables, circuit.gates.as_slice())?;
    Ok(Marks {
        inputs,
        latches,
        gates,
    })
}

/// The new positions of all that symbols name.
fn place_all(
    alloc: Global,
    choice: &Choice,
    marks: &Marks,
    is_fair: bool,
) -> Result<Places, AllocError>
    requires inputs { length marks.now.inputs.items ≤ LARGEST }
    requires latches { length marks.now.latches.items ≤ LARGEST }
    requires outputs { length choice.now.outputs ≤ LARGEST }
    requires bad { length choice.now.bad ≤ LARGEST }
    requires justice { length choice.now.justice ≤ LARGEST }
    ensures inputs { IfOk result (λ places. places.inputs.items ≡ numbered 0 marks.now.inputs.items) }
    ensures latches { IfOk result (λ places. places.latches.items ≡ numbered 0 marks.now.latches.items) }
    ensures outputs { IfOk result (λ places. places.outputs.items ≡ numbered 0 choice.now.outputs) }
    ensures bad { IfOk result (λ places. places.bad.items ≡ numbered 0 choice.now.bad) }
    ensures justice { IfOk result (λ places. places.justice.items ≡ numbered 0 choice.now.justice) }
    ensures fair { IfOk result (λ places. places.is_fair ≡ is_fair) }
{
    let inputs = number_marked(alloc, &marks.inputs)?;
    let latches = number_marked(alloc, &marks.latches)?;
    let outputs = number_marked(alloc, choice.outputs.as_slice())?;
    let bad = number_marked(alloc, choice.bad.as_slice())?;
    let justice = number_marked(alloc, choice.justice.as_slice())?;
    Ok(Places {
        inputs,
        latches,
        outputs,
        bad,
        justice,
        is_fair,
    })
}

fn move_names(
    alloc: Global,
    circuit: &Circuit,
    choice: &Choice,
    marks: &Marks,
    shown: &Shown,
) -> Result<Symbols, AllocError>
    requires formed { IsWellFormed circuit.now }
    requires choice { IsChoiceOf choice.now circuit.now }
    requires shown { shown.now ≡ shown_by choice.now circuit.now }
    requires inputs { length marks.now.inputs.items ≡ length circuit.now.inputs }
    requires latches { length marks.now.latches.items ≡ length circuit.now.latches }
    ensures { (keeps : ℕ → Bool) → marks.now.inputs.items ≡ input_marks keeps circuit.now
        → marks.now.latches.items ≡ latch_marks keeps circuit.now
        → IfOk result (λ moved. moved ≡ moved_symbols (selected_place choice.now keeps circuit.now)
        circuit.now.symbols) }
{
    let places = place_all(alloc, choice, marks, !shown.justice.sizes.is_empty())?;
    move_symbols(alloc, &places, &circuit.symbols)
}

/// What a selection is made of, by what is chosen and the variables of its cone.
fn make_plan(
    alloc: Global,
    circuit: &Circuit,
    choice: &Choice,
    shown: Shown,
    variables: &VarSet,
) -> Result<Plan, AllocError>
    requires formed { IsWellFormed circuit.now }
    requires choice { IsChoiceOf choice.now circuit.now }
    requires shown { shown ≡ shown_by choice.now circuit.now }
    ensures { IfOk result (λ plan. assembled plan circuit.now
        ≡ selected choice.now (set.contains variables.now) circuit.now) }
{
    let marks = mark_all(alloc, circuit, variables)?;
    let symbols = move_names(alloc, circuit, choice, &marks, &shown)?;
    Ok(Plan {
        shown,
        marks,
        symbols,
    })
}

/// What the selection is made of.
fn find_plan(alloc: Global, circuit: &Circuit, choice: &Choice) -> Result<Plan, OutOfMemory>
    requires formed { IsWellFormed circuit.now }
    requires choice { IsChoiceOf choice.now circuit.now }
    ensures { IfOk result (λ plan. IsSelection choice.now circuit.now (assembled plan circuit.now)) }
{
    let shown = choose(alloc, circuit, choice)?;
    let roots = shown.list(alloc, circuit.constraints.as_slice())?;
    let variables = cone_of(alloc, circuit, roots.as_slice(), Reach::AllSteps)?;
    Ok(make_plan(alloc, circuit, choice, shown, &variables)?)
}

/// The circuit of the plan, in its own memory.
fn assemble(circuit: Circuit, plan: Plan) -> Circuit
    ensures { result ≡ assembled plan circuit }
{
    let Plan {
        shown,
        marks,
        symbols,
    } = plan;
    Circuit {
        inputs: keep(&marks.inputs, circuit.inputs),
        latches: keep(&marks.latches, circuit.latches),
        outputs: shown.outputs,
        bad: shown.bad,
        justice: shown.justice,
        fairness: shown.fairness,
        gates: keep(&marks.gates, circuit.gates),
        symbols,
        comment: None,
        ..circuit
    }
}

/// The circuit with what is chosen of its outputs, bad states and justice properties, in the order
/// of the file, with their cone and their names. All constraints stay, since each answer depends on
/// them, and fairness constraints stay where a justice property does. The others, and inputs,
/// latches and gates on which nothing of that depends, are left out, and so is the comment;
/// variables keep their numbers.
pub fn select(alloc: Global, checked: Checked, choice: &Choice) -> Result<Checked, OutOfMemory>
    requires { IsChoiceOf choice.now checked }
    ensures { IfOk result (λ d. IsSelection choice.now checked d) }
{
    let circuit = checked.into_circuit();
    match find_plan(alloc, &circuit, choice) {
        Ok(plan) => Ok(Checked::from_well_formed(assemble(circuit, plan))),
        Err(refused) => {
            drop(circuit); // for the proof
            Err(refused)
        }
    }
}
