//! A solver's proof that the clauses of a circuit cannot be satisfied.
ghost use Rattle.std.specs.Prelude.{◌≡◌, ◌<◌, IfErr, IfOk, length};
ghost use Rattle.aig_fault.specs.declared.stopped.Stopped.TheVariants.{OutOfMemory};
ghost use Rattle.aig_io.specs.Runs.{Read};
ghost use Rattle.aig_unroll.specs.Unrolled.{IsUnrolled};
ghost use Rattle.aig_commands.specs.Jobs.{text_of};
ghost use Rattle.aig_commands.specs.Reading.{ReadSays};
ghost use Rattle.aig_commands.specs.Refuting.{CanUnroll, IsNoneText, IsRefutationRefused};
ghost use Rattle.aig_commands.specs.Refuting.{IsRefutedFor, IsUnsatisfiable, format_of};

use crate::answer::Answer;
use aig_command::Reach;
use aig_core::{Checked, Ordered, Source};
use aig_cuts::cuts_of;
use aig_fault::Stopped;
use aig_reduce::reduce;
use aig_refute::{RefutationFormat, check_refutation};
use aig_refute_cuts::check_cut_refutation;
use aig_unroll::unroll;
use std::alloc::Global;

/// The unrolled circuit.
fn unrolled_of(alloc: Global, selected: &Checked, frames: u32) -> Result<Ordered, Stopped>
    requires { CanUnroll selected.now frames }
    ensures ok { IfOk result (λ d. IsUnrolled selected.now frames d) }
    ensures err { IfErr result (λ stopped. stopped ≡ OutOfMemory) }
{
    match unroll(alloc, selected, frames) {
        Ok(unrolled) => Ok(unrolled),
        Err(_) => Err(Stopped::OutOfMemory),
    }
}

/// The circuit whose clauses a refutation is of: unrolled, and simplified where that is asked for.
fn refuted_of(alloc: Global, request: &Reach, selected: &Checked) -> Result<Ordered, Stopped>
    requires { CanUnroll selected.now request.now.frames }
    ensures ok { IfOk result (λ d. IsRefutedFor request.now selected.now d) }
    ensures err { IfErr result (λ stopped. stopped ≡ OutOfMemory) }
{
    let unrolled = unrolled_of(alloc, selected, request.frames)?;
    let _circuit = unrolled.as_checked().circuit(); // for the proof
    if request.simplify {
        return Ok(reduce(alloc, unrolled)?);
    }
    Ok(unrolled)
}

/// How a refutation is written.
fn format_of(lrat: bool) -> RefutationFormat
    ensures { result ≡ format_of lrat }
{
    if lrat {
        RefutationFormat::Lrat
    } else {
        RefutationFormat::Drat
    }
}

/// Reads a solver's refutation of the clauses of this circuit, which was unrolled of the selected
/// one, and checks it.
fn check_clauses_of<R: Source>(
    alloc: Global,
    request: &Reach,
    selected: &Checked,
    refuted: &Ordered,
    source: &mut R,
) -> Result<(), Stopped>
    requires refuted { IsRefutedFor request.now selected.now refuted.now }
    ensures { Read (ReadSays (λ _ _. IsUnsatisfiable selected.now request.now.frames)
        (IsRefutationRefused request.now selected.now) result)
        (R.history source.old) (R.history source.new) }
{
    let format = format_of(request.lrat);
    let circuit = refuted.as_checked().circuit();
    if !request.simplify {
        return check_refutation(alloc, format, circuit, source);
    }
    let plan = cuts_of(alloc, refuted)?;
    check_cut_refutation(alloc, format, plan.as_slice(), circuit, source)
}

/// Reads a solver's refutation of the clauses of this circuit over so many frames, and checks it.
pub(crate) fn read_refutation<R: Source>(
    alloc: Global,
    request: &Reach,
    selected: &Checked,
    source: &mut R,
) -> Result<(), Stopped>
    requires can_unroll { CanUnroll selected.now request.now.frames }
    ensures { Read (ReadSays (λ _ _. IsUnsatisfiable selected.now request.now.frames)
        (IsRefutationRefused request.now selected.now) result)
        (R.history source.old) (R.history source.new) }
{
    let refuted = refuted_of(alloc, request, selected)?;
    let checked = check_clauses_of(alloc, request, selected, &refuted, source);
    drop(refuted); // for the proof
    checked
}

/// Reads a solver's refutation of the clauses of this circuit, by which no run of so many steps
/// reaches a bad state.
pub(crate) fn read_none_within<R: Source>(
    alloc: Global,
    request: &Reach,
    selected: &Checked,
    source: &mut R,
) -> Result<Answer, Stopped>
    requires can_unroll { CanUnroll selected.now request.now.frames }
    ensures read { Read (ReadSays (λ answer _. IsNoneText request.now selected.now (text_of answer))
        (IsRefutationRefused request.now selected.now) result)
        (R.history source.old) (R.history source.new) }
    ensures some { IfOk result (λ answer. 0 < length (text_of answer)) }
{
    read_refutation(alloc, request, selected, source)?;
    Ok(Answer::NoneWithin(request.frames))
}
