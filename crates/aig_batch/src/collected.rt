//! A whole stimulus, judged line by line while it comes.
ghost use Rattle.std.specs.Prelude.{◌≡◌, [], IfErr, IfOk, None, OnOk, length, true};
ghost use Rattle.aig_io.specs.Devices.{gave_all};
ghost use Rattle.aig_io.specs.Runs.{Read};
ghost use Rattle.aig_lines.specs.Feeders.{IsInitial};
ghost use Rattle.aig_step.specs.Outcome.{first_bad_line};
ghost use Rattle.aig_trace.specs.Parts.Saying.{longest_entry};
ghost use Rattle.aig_batch.specs.Batched.{NotCollected};

use aig_checked::Checked;
use aig_fault::{Kind, Stopped, refused_at};
use aig_io::{ROOM, Source};
use aig_lines::{LineFeeder, LineTaker};
use aig_trace::is_entry;
use std::alloc::Global;

/// What judges the lines of a stimulus for a circuit of so many inputs.
#[derive(Drop)]
struct Judge {
    inputs: usize,
}

impl LineTaker for Judge {
    ghost use Rattle.std.specs.Prelude.{◌≡◌};
    ghost use Rattle.aig_trace.specs.Parts.Saying.{Saying, say_line};

    ghost State = { Saying (Unit {0}) };

    ghost step = { say_line };

    ghost IsAt = { λ judge s. judge.inputs ≡ s.inputs };

    #[inline(always)]
    fn take(&mut self, text: &[u8]) -> bool {
        is_entry(self.inputs, text)
    }
}

/// Reads all bytes of a stimulus into a list, and judges each line as it comes.
fn collect_into<R: Source>(
    checked: &Checked,
    feeder: &mut LineFeeder,
    source: &mut R,
    bytes: &mut Vec<u8>,
) -> Result<(), Stopped>
    requires initial { IsInitial feeder.old }
    requires limit { feeder.old.limit ≡ longest_entry (length checked.now.inputs) }
    requires none { bytes.old.items ≡ [] }
    ensures came { OnOk result (R.history source.new
        ≡ gave_all bytes.new.items (R.history source.old)) }
    ensures good { OnOk result (first_bad_line checked.now bytes.new.items true ≡ None) }
    ensures err { IfErr result (λ e.
        Read (NotCollected checked.now e) (R.history source.old) (R.history source.new)) }
{
    let mut judge = Judge {
        inputs: checked.circuit().inputs.len(),
    };
    let mut block = [0u8; ROOM];
    loop {
        let Ok(count) = source.fetch(&mut block) else {
            return Err(Stopped::ReadFailed);
        };
        if count == 0 {
            if !feeder.end(&mut judge) {
                return Err(refused_at(Kind::BadStimulus, feeder.number()));
            }
            return Ok(());
        }
        let (chunk, _) = block.split_at(count);
        bytes.extend_from_slice(chunk)?;
        if !feeder.feed(&mut judge, chunk) {
            return Err(refused_at(Kind::BadStimulus, feeder.number()));
        }
    }
}

/// Reads all bytes of a stimulus, and judges each line as it comes: after a bad one nothing more is
/// fetched.
pub(crate) fn collect<R: Source>(
    alloc: Global,
    checked: &Checked,
    source: &mut R,
) -> Result<Vec<u8>, Stopped>
    ensures came { IfOk result (λ all. R.history source.new
        ≡ gave_all all.items (R.history source.old)) }
    ensures good { IfOk result (λ all. first_bad_line checked.now all.items true ≡ None) }
    ensures err { IfErr result (λ e.
        Read (NotCollected checked.now e) (R.history source.old) (R.history source.new)) }
{
    let mut feeder = LineFeeder::new(alloc, checked.circuit().inputs.len().max(1))?;
    let mut bytes = Vec::new(alloc);
    let collected = collect_into(checked, &mut feeder, source, &mut bytes);
    drop(feeder); // for the proof
    match collected {
        Ok(()) => Ok(bytes),
        Err(fault) => {
            drop(bytes); // for the proof
            Err(fault)
        }
    }
}
