//! The first step of a run at which a bad state is reached.
ghost use Rattle.std.specs.Prelude.{◌≡◌, List, None, Some, IfSome, length, map};
ghost use Rattle.std.specs.List.{All};
ghost use Rattle.aig_circuit.specs.declared.circuit.Circuit.{Circuit as CircuitRecord};
ghost use Rattle.aig_circuit.specs.declared.value.Val.{Val as Value};
ghost use Rattle.aig_circuit.specs.Wellformed.{IsWellFormed};
ghost use Rattle.aig_meaning.specs.Meaning.{MeansTheSame, Row as RowRecord, literal_value};
ghost use Rattle.aig_meaning.specs.Trace.{Follow};
ghost use Rattle.aig_step.specs.Parts.Lines.{vector_in};
ghost use Rattle.aig_step.specs.Parts.Tables.{IsLiteralBelow, read_from};
ghost use Rattle.aig_replay.specs.Finding.{SaysSteps, first_one, hit_from, shown_by};
ghost use Rattle.aig_replay.specs.Parts.{Took};

use aig_core::Lit;
use aig_step::{Stepper, Table};
use aig_witness::{are_ones, is_one};

/// A bad state, by its place, and the step at which it is reached.
#[derive(Clone, Copy)]
pub struct Hit {
    pub property: usize,
    pub step: usize,
}

/// What a step shows.
#[derive(Clone, Copy)]
pub(crate) enum Sight {
    /// A constraint is not 1.
    Broken,
    /// All constraints are 1, and this is the first bad state that is 1.
    Bad(usize),
    /// All constraints are 1, and no bad state is.
    Good,
}

fn first_one(literals: &[Lit], values: &Table) -> Option<usize>
    requires { All (IsLiteralBelow (length values.now)) literals.now }
    ensures { result ≡ first_one 0 (map (literal_value (read_from values.now)) literals.now) }
{
    for place in 0..literals.len() {
        if is_one(values.value(literals[place])) {
            return Some(place);
        }
    }
    None
}

fn show(constraints: &[Lit], bad: &[Lit], values: &Table) -> Sight
    requires constraints { All (IsLiteralBelow (length values.now)) constraints.now }
    requires bad { All (IsLiteralBelow (length values.now)) bad.now }
    ensures { result ≡ shown_by (map (literal_value (read_from values.now)) constraints.now)
        (map (literal_value (read_from values.now)) bad.now) }
{
    if !are_ones(constraints, values) {
        return Sight::Broken;
    }
    match first_one(bad, values) {
        Some(property) => Sight::Bad(property),
        None => Sight::Good,
    }
}

fn count_inputs(stepper: &Stepper) -> usize
    ensures { result ≡ length stepper.now.circuit.inputs }
{
    stepper.machine().parts().inputs.len()
}

/// Takes a step with the inputs that a text says.
fn take_step(stepper: &mut Stepper, text: &[u8]) -> Option<Sight>
    ensures took { IfSome result (λ shown. (given : List Value)
        × (vector_in (length stepper.old.circuit.inputs) text.now ≡ Some given)
        × Took stepper.old stepper.new given shown) }
    ensures none { result ≡ None
        → vector_in (length stepper.old.circuit.inputs) text.now ≡ None }
    ensures circuit { stepper.new.circuit ≡ stepper.old.circuit }
{
    if !stepper.evaluate_text(text) {
        return None;
    }
    stepper.enter_next_state();
    let parts = stepper.machine().parts();
    Some(show(
        parts.constraints.as_slice(),
        parts.bad.as_slice(),
        stepper.values(),
    ))
}

/// Runs a circuit from the state in which it is over so many steps, whose inputs are these
/// characters, until a bad state is reached while all constraints have held.
pub fn find_hit(stepper: &mut Stepper, steps: &[u8], count: usize) -> Option<Hit>
    ensures { (c : CircuitRecord) (vectors : List (List Value)) (rows : List RowRecord)
        → IsWellFormed c → MeansTheSame c stepper.old.circuit
        → SaysSteps (length c.inputs) count steps.now vectors
        → Follow c stepper.old.state vectors rows → result ≡ hit_from 0 rows }
{
    let mut rest = steps;
    for step in 0..count {
        let inputs = count_inputs(stepper);
        if rest.len() < inputs {
            return None;
        }
        let (text, more) = rest.split_at(inputs);
        rest = more;
        let Some(shown) = take_step(stepper, text) else {
            return None;
        };
        match shown {
            Sight::Broken => return None,
            Sight::Bad(property) => return Some(Hit { property, step }),
            Sight::Good => {}
        }
    }
    None
}
