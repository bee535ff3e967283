//! What a picture shows.
ghost use Rattle.std.specs.Prelude.{◌≡◌, ◌↔◌, IsTrue};
ghost use Rattle.aig_circuit.specs.Wellformed.{count_of};

use aig_circuit::{Circuit, Kind};
use aig_cone::Reach;

/// What stands at a position among its kind, counted from 0, and how far its cone reaches.
#[derive(Clone, Copy, PartialEq)]
pub struct Part {
    pub kind: Kind,
    pub position: u32,
    pub reach: Reach,
}

/// What a picture shows.
#[derive(Clone, Copy, PartialEq)]
pub enum Subject {
    /// All of a circuit.
    Whole,
    /// An output, a bad state or the like, with what it depends on.
    Cone(Part),
}

pub(crate) fn count_of(circuit: &Circuit, kind: Kind) -> usize
    ensures { result ≡ count_of circuit.now kind }
{
    match kind {
        Kind::Input => circuit.inputs.len(),
        Kind::Latch => circuit.latches.len(),
        Kind::Output => circuit.outputs.len(),
        Kind::Bad => circuit.bad.len(),
        Kind::Constraint => circuit.constraints.len(),
        Kind::Justice => circuit.justice.sizes.len(),
        Kind::Fairness => circuit.fairness.len(),
    }
}

impl Subject {
    ghost use Rattle.aig_dot.specs.Subject.{IsIn};

    /// Whether a circuit has it.
    pub fn is_in(&self, circuit: &Circuit) -> bool
        ensures { IsTrue result ↔ IsIn self.now circuit.now }
    {
        match self {
            Subject::Whole => true,
            Subject::Cone(part) => (part.position as usize) < count_of(circuit, part.kind),
        }
    }
}
