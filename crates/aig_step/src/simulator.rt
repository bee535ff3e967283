//! The simulator.
ghost use Rattle.std.specs.Prelude.{◌≡◌, ◌↔◌, length, IfOk, IfErr, IsOk, OnErr, OnOk};
ghost use Rattle.aig_fault.specs.Stopping.{refusal};
ghost use Rattle.aig_fault.specs.declared.fault.Place.TheVariants.{Whole};
ghost use Rattle.aig_fault.specs.declared.kind.Kind.TheVariants.{BadCounts};
ghost use Rattle.aig_meaning.specs.Meaning.{MeansTheSame};
ghost use Rattle.aig_step.specs.Simulating.{IsReset, Stepped};
ghost use Rattle.aig_step.specs.Showing.{Shows};
ghost use Rattle.aig_step.specs.Parts.Simulators.{HasRoom};

use crate::evaluate::{show, show_codes};
use crate::machine::Machine;
use crate::stepper::Stepper;
use aig_checked::Checked;
use aig_circuit::{Circuit, OutOfMemory, Val};
use aig_fault::{Kind, Stopped, refused_whole};
use std::alloc::Global;
use std::marker::Model;

/// What can be seen of a step beside its inputs, list by list in the circuit's order.
#[derive(Clone, Copy)]
pub struct Row<'a> {
    /// The state before the step.
    pub state: &'a [Val],
    /// The values of the outputs.
    pub outputs: &'a [Val],
    /// The state after the step.
    pub next: &'a [Val],
    /// The values of bad states.
    pub bad: &'a [Val],
    /// The values of constraints.
    pub constraints: &'a [Val],
}

/// What the last step showed, list by list.
#[derive(Drop)]
struct Shown {
    before: Vec<Val>,
    outputs: Vec<Val>,
    next: Vec<Val>,
    bad: Vec<Val>,
    constraints: Vec<Val>,
}

impl Shown {
    /// Room for what a step shows.
    fn new(alloc: Global, parts: &Circuit) -> Result<Self, OutOfMemory>
        ensures { IfOk result (HasRoom parts.now) }
    {
        let before = vec![in alloc; Val::Zero; parts.latches.len()]?;
        let outputs = vec![in alloc; Val::Zero; parts.outputs.len()]?;
        let next = vec![in alloc; Val::Zero; parts.latches.len()]?;
        let bad = vec![in alloc; Val::Zero; parts.bad.len()]?;
        let constraints = vec![in alloc; Val::Zero; parts.constraints.len()]?;
        Ok(Shown {
            before,
            outputs,
            next,
            bad,
            constraints,
        })
    }
}

/// A circuit that is run step by step, with what its last step showed.
#[derive(Drop)]
pub struct Simulator {
    stepper: Stepper,
    shown: Shown,
    /// Whether a step was taken since the reset.
    is_stepped: bool,
}

impl Model for Simulator {
    ghost use Rattle.aig_step.specs.Simulating.{Simulation};

    ghost Value = { Simulation };

    ghost use Rattle.aig_step.specs.Parts.Simulators.{HasRoom, simulation_of};

    ghost view = { simulation_of };

    ghost invariant = { λ s. HasRoom s.stepper.circuit s.shown };
}

impl Simulator {
    /// A simulator of the circuit, in the reset state. All room that it needs is made here.
    pub fn new(alloc: Global, checked: &Checked) -> Result<Self, OutOfMemory>
        ensures same { IfOk result (λ s. MeansTheSame checked.now s.circuit) }
        ensures reset { IfOk result IsReset }
    {
        let stepper = Stepper::new(alloc, checked)?;
        let Ok(shown) = Shown::new(alloc, stepper.machine().parts()) else {
            drop(stepper); // for the proof
            return Err(OutOfMemory);
        };
        Ok(Simulator {
            stepper,
            shown,
            is_stepped: false,
        })
    }

    /// What it runs.
    pub fn machine(&self) -> &Machine
        ensures { result.now ≡ self.now.circuit }
    {
        self.stepper.machine()
    }

    /// How many inputs the circuit has.
    pub fn count_inputs(&self) -> usize
        ensures { result ≡ length self.now.circuit.inputs }
    {
        self.machine().parts().inputs.len()
    }

    /// Back to the reset state.
    pub fn reset(&mut self)
        ensures reset { IsReset self.new }
        ensures circuit { self.new.circuit ≡ self.old.circuit }
    {
        self.stepper.reset();
        self.is_stepped = false;
    }

    /// Takes a step with these inputs, one value for each in the circuit's order.
    #[tactic(auto, using(std::proofs::lemmas::List::with_items_is, aig_meaning::proofs::Traces::same_row, crate::proofs::LineValues::row_is_read))]
    pub fn step(&mut self, given: &[Val])
        requires { length given.now ≡ length self.old.circuit.inputs }
        ensures { Stepped self.old self.new given.now }
    {
        show_codes(self.stepper.state(), &mut self.shown.before);
        self.stepper.evaluate(given);
        self.stepper.enter_next_state();
        show_codes(self.stepper.state(), &mut self.shown.next);
        let parts = self.stepper.machine().parts();
        let values = self.stepper.values();
        show(parts.outputs.as_slice(), values, &mut self.shown.outputs);
        show(parts.bad.as_slice(), values, &mut self.shown.bad);
        show(
            parts.constraints.as_slice(),
            values,
            &mut self.shown.constraints,
        );
        self.is_stepped = true;
    }

    /// Takes a step with these inputs, one value for each in the circuit's order. Where the number
    /// of values does not fit, it takes none, and stays as it was.
    pub fn try_step(&mut self, given: &[Val]) -> Result<(), Stopped>
        ensures fits { IsOk result ↔ (length given.now ≡ length self.old.circuit.inputs) }
        ensures ok { OnOk result (Stepped self.old self.new given.now) }
        ensures err { IfErr result (λ stopped. stopped ≡ refusal BadCounts Whole 0) }
        ensures stays { OnErr result (self.new ≡ self.old) }
    {
        if given.len() != self.count_inputs() {
            return Err(refused_whole(Kind::BadCounts));
        }
        self.step(given);
        Ok(())
    }

    /// What the last step showed; `None` where none was taken since the reset.
    pub fn row(&self) -> Option<Row<'_>>
        ensures { Shows result self.now.row }
    {
        if !self.is_stepped {
            return None;
        }
        let shown = &self.shown;
        Some(Row {
            state: &shown.before,
            outputs: &shown.outputs,
            next: &shown.next,
            bad: &shown.bad,
            constraints: &shown.constraints,
        })
    }
}
