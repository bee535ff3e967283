//! `aigunroll --invariant`: an invariant, and a solver's proof that no bad state is ever reached.
ghost use Rattle.std.specs.Prelude.{◌≡◌, ◌<◌, IfOk, length};
ghost use Rattle.aig_io.specs.Runs.{Read};
ghost use Rattle.aig_commands.specs.Proving.{IsInvariantModel, IsInvariantText, NotInvariantModel};
ghost use Rattle.aig_commands.specs.Proving.{IsNeverText, IsStrengthened, NotStrengthened};
ghost use Rattle.aig_commands.specs.Proving.{clauses_over_one_frame, never_text, over_one_frame};
ghost use Rattle.aig_commands.specs.Jobs.{text_of};
ghost use Rattle.aig_commands.specs.Reading.{AtItsEnd, ReadSays};
ghost use Rattle.aig_commands.specs.Refuting.{CanUnroll, IsRefutationRefused};

use crate::answer::Answer;
use crate::reaching::selected_with_clauses;
use crate::refuting::read_refutation;
use crate::unrolling::unrolled_answer;
use aig_binary::read_source;
use aig_command::{Invariant, Property, Reach, SolverFile, Unroll, UnrolledForm};
use aig_core::{Checked, Keep, Source};
use aig_fault::Stopped;
use aig_invariant::with_invariant;
use std::alloc::Global;

/// Reads the model to its end, as a file of either kind, and makes what stands for the property. It
/// fails where its own clauses over one frame could not be written, if an allocation fails, or if
/// the source does. The invariant is not needed for that.
pub(crate) fn read_proving_model<R: Source>(
    alloc: Global,
    request: &Invariant,
    model: &mut R,
) -> Result<Checked, Stopped>
    ensures { Read (ReadSays (λ selected bytes. IsInvariantModel request.now bytes selected)
        (AtItsEnd (NotInvariantModel request.now)) result) (R.history model.old)
        (R.history model.new) }
{
    let found = read_source(alloc, model, request.max_var, Keep::Order)?;
    selected_with_clauses(alloc, found, request.property, 1)
}

/// Reads an invariant to its end, of the circuit that stands for the property, and makes the circuit
/// in which it is to be shown. It fails where that has no clauses over one frame, if an allocation
/// fails, or if the source does.
pub(crate) fn read_strengthened<R: Source>(
    alloc: Global,
    selected: Checked,
    source: &mut R,
) -> Result<Checked, Stopped>
    ensures read { Read (ReadSays (λ strengthened bytes. IsStrengthened selected bytes strengthened)
        (AtItsEnd (NotStrengthened selected)) result) (R.history source.old)
        (R.history source.new) }
    ensures can_unroll { IfOk result (λ strengthened. CanUnroll strengthened 1) }
{
    let strengthened = with_invariant(alloc, selected, source)?;
    selected_with_clauses(alloc, strengthened, Property::AnyBad, 1)
}

/// The request for the clauses of the circuit in which an invariant is to be shown.
fn clauses_over_one_frame(request: &Invariant) -> Unroll
    ensures { result ≡ clauses_over_one_frame request.now }
{
    Unroll {
        frames: 1,
        form: UnrolledForm::Clauses {
            property: Property::AnyBad,
        },
        simplify: request.simplify,
        max_var: request.max_var,
    }
}

/// Reads an invariant to its end, of the circuit that stands for the property, and makes the clauses
/// in which it is to be shown.
pub(crate) fn read_clauses<R: Source>(
    alloc: Global,
    request: &Invariant,
    selected: Checked,
    source: &mut R,
) -> Result<Answer, Stopped>
    ensures read { Read (ReadSays (λ answer bytes.
        IsInvariantText request.now selected bytes (text_of answer))
        (AtItsEnd (NotStrengthened selected)) result) (R.history source.old)
        (R.history source.new) }
    ensures some { IfOk result (λ answer. 0 < length (text_of answer)) }
{
    let strengthened = with_invariant(alloc, selected, source)?;
    unrolled_answer(alloc, &clauses_over_one_frame(request), strengthened)
}

/// The request for a refutation of these clauses.
fn over_one_frame(request: &Invariant) -> Reach
    ensures { result ≡ over_one_frame request.now }
{
    Reach {
        frames: 1,
        property: request.property,
        max_var: request.max_var,
        wrote: SolverFile::Refutation,
        lrat: request.lrat,
        simplify: request.simplify,
    }
}

/// Reads a refutation of the clauses of this circuit, in which an invariant is to be shown: by it no
/// run ever reaches a bad state.
pub(crate) fn read_never<R: Source>(
    alloc: Global,
    request: &Invariant,
    strengthened: Checked,
    source: &mut R,
) -> Result<(), Stopped>
    requires can_unroll { CanUnroll strengthened 1 }
    ensures { Read (ReadSays (λ _ _. IsNeverText request.now strengthened never_text)
        (IsRefutationRefused (over_one_frame request.now) strengthened) result)
        (R.history source.old) (R.history source.new) }
{
    let _circuit = strengthened.circuit(); // for the proof
    let checked = read_refutation(alloc, &over_one_frame(request), &strengthened, source);
    drop(strengthened); // for the proof
    checked
}
