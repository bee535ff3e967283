//! What takes lines one after the other, or side by side.
ghost use Rattle.std.specs.Prelude.{◌≡◌, [], IfOk};
ghost use Rattle.aig_meaning.specs.Meaning.{MeansTheSame};

use crate::side_by_side::{MOST_INPUTS, SideBySide};
use crate::tracer::{Tracer, line_room};
use aig_checked::Checked;
use aig_circuit::OutOfMemory;
use std::alloc::Global;

/// What takes lines.
#[derive(Drop)]
pub(crate) enum Taker {
    InTurn(Tracer),
    /// Where the circuit has no latches.
    SideBySide(SideBySide),
}

impl Taker {
    ghost use Rattle.aig_trace.specs.Parts.Taking.{tracing_in, waiting_in};

    /// It takes them side by side if the circuit has no latches, and not too many inputs.
    pub(crate) fn new(alloc: Global, checked: &Checked, tracer: Tracer) -> Result<Self, OutOfMemory>
        requires { MeansTheSame checked.now tracer.circuit }
        ensures same { IfOk result (λ taker. tracing_in taker ≡ tracer) }
        ensures none { IfOk result (λ taker. waiting_in taker ≡ []) }
    {
        let circuit = checked.circuit();
        if circuit.latches.len() > 0 {
            return Ok(Taker::InTurn(tracer));
        }
        if circuit.inputs.len() > MOST_INPUTS {
            return Ok(Taker::InTurn(tracer));
        }
        let side_by_side = SideBySide::new(alloc, tracer, line_room(checked))?;
        Ok(Taker::SideBySide(side_by_side))
    }

    /// What runs the circuit.
    pub(crate) fn tracer(&self) -> &Tracer
        ensures { result.now ≡ tracing_in self.now }
    {
        match self {
            Taker::InTurn(tracer) => tracer,
            Taker::SideBySide(side_by_side) => side_by_side.tracer(),
        }
    }
}
