//! Verdicts and dumps from bytes to bytes.
ghost use Rattle.std.specs.Prelude.{◌≡◌, IfErr, IfOk, None, true};
ghost use Rattle.aig_step.specs.Outcome.{first_bad_line};
ghost use Rattle.aig_dump.specs.InMemory.{IsBadStimulus, IsDumpFor, StopsInMemory};
ghost use Rattle.aig_verdicts.specs.Judged.{IsJudged, IsUnjudged};

use crate::tracing::write_dump;
use aig_core::{Checked, SliceSource, VecSink};
use aig_fault::Stopped;
use aig_verdicts::{WitnessVerdict, judge_witness};
use std::alloc::Global;

/// The verdict on a witness file, of a bad state or of a justice property.
pub fn verdict_on(alloc: Global, found: &Checked, witness: &[u8]) -> Result<WitnessVerdict, Stopped>
    ensures ok { IfOk result (λ verdict. IsJudged found.now verdict witness.now) }
    ensures err { IfErr result (StopsInMemory (IsUnjudged found.now witness.now)) }
{
    let mut source = SliceSource::new(witness)?;
    let judged = judge_witness(alloc, found, &mut source);
    source.gives_its_bytes();
    judged
}

/// The dump of the trace of a stimulus, whose runs are taken side by side, or whose steps one after
/// the other.
pub(crate) fn dump_as(
    alloc: Global,
    batch: bool,
    found: &Checked,
    stimulus: &[u8],
) -> Result<Vec<u8>, Stopped>
    ensures none_bad { IfOk result (λ _. first_bad_line found.now stimulus.now true ≡ None) }
    ensures text { IfOk result (λ text. IsDumpFor found.now stimulus.now text.items) }
    ensures err { IfErr result (StopsInMemory (IsBadStimulus found.now stimulus.now)) }
{
    let mut source = SliceSource::new(stimulus)?;
    let mut sink = VecSink::new(alloc);
    let done = write_dump(alloc, batch, found, &mut source, &mut sink);
    source.gives_its_bytes();
    done?;
    Ok(sink.into_vec())
}

/// The dump of the trace of a stimulus.
pub fn dump(alloc: Global, found: &Checked, stimulus: &[u8]) -> Result<Vec<u8>, Stopped>
    ensures none_bad { IfOk result (λ _. first_bad_line found.now stimulus.now true ≡ None) }
    ensures text { IfOk result (λ text. IsDumpFor found.now stimulus.now text.items) }
    ensures err { IfErr result (StopsInMemory (IsBadStimulus found.now stimulus.now)) }
{
    dump_as(alloc, true, found, stimulus)
}
