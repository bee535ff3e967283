//! What a picture has of a circuit.
ghost use Rattle.std.specs.Prelude.{◌≡◌, ◌≤◌, ℕ, IfOk, IfErr};
ghost use Rattle.aig_circuit.specs.Wellformed.{IsWellFormed};
ghost use Rattle.aig_cone.specs.Counts.{gates_in};
ghost use Rattle.aig_dot.specs.Subject.{IsPictureOf, IsTooLarge, reach_of};

use crate::roots::roots_of;
use crate::subject::Subject;
use aig_circuit::{Circuit, OutOfMemory};
use aig_cone::{Reach, cone_of, count_gates};
use aig_tables::VarSet;
use std::alloc::Global;

/// What a picture has of a circuit.
#[derive(Drop)]
pub struct Picture {
    pub subject: Subject,
    /// The variables that it shows.
    pub variables: VarSet,
}

/// Why there is no picture.
#[derive(Debug, Drop)]
pub enum NotDrawn {
    /// It would have so many gates.
    TooLarge(usize),
    OutOfMemory,
}

impl From<OutOfMemory> for NotDrawn {
    ghost use Rattle.std.specs.Prelude.{◌≡◌};
    ghost use Rattle.aig_dot.specs.declared.picture.NotDrawn.TheVariants as reasons;

    ghost from_gives = { λ _ reason. reason ≡ reasons.OutOfMemory };

    fn from(_refused: OutOfMemory) -> NotDrawn {
        NotDrawn::OutOfMemory
    }
}

pub(crate) fn reach_of(subject: &Subject) -> Reach
    ensures { result ≡ reach_of subject.now }
{
    match subject {
        Subject::Whole => Reach::AllSteps,
        Subject::Cone(part) => part.reach,
    }
}

fn whole_picture_of(
    alloc: Global,
    circuit: &Circuit,
    subject: Subject,
) -> Result<Picture, OutOfMemory>
    requires { IsWellFormed circuit.now }
    ensures { IfOk result (λ picture. IsPictureOf subject circuit.now picture) }
{
    let roots = roots_of(alloc, circuit, &subject)?;
    let variables = cone_of(alloc, circuit, roots.as_slice(), reach_of(&subject))?;
    Ok(Picture { subject, variables })
}

/// Finds what a picture has, of a subject that the circuit has, unless it would have more gates
/// than the limit.
pub fn picture_of(
    alloc: Global,
    circuit: &Circuit,
    subject: Subject,
    limit: usize,
) -> Result<Picture, NotDrawn>
    requires { IsWellFormed circuit.now }
    ensures picture { IfOk result (λ picture. IsPictureOf subject circuit.now picture) }
    ensures small { IfOk result (λ picture.
        gates_in picture.variables circuit.now.gates ≤ limit) }
    ensures large { IfErr result (λ error. (gates : ℕ) → error ≡ NotDrawn.TooLarge gates
        → IsTooLarge subject circuit.now limit gates) }
{
    let picture = whole_picture_of(alloc, circuit, subject)?;
    let gates = count_gates(&picture.variables, circuit.gates.as_slice());
    if limit < gates {
        return Err(NotDrawn::TooLarge(gates));
    }
    Ok(picture)
}
