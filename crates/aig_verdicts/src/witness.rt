//! A witness file of either kind, judged for a circuit.
ghost use Rattle.std.specs.Prelude.{◌≡◌, ◌≤◌, ℕ, List, length};
ghost use Rattle.aig_circuit.specs.declared.circuit.TheConstants.{LARGEST};
ghost use Rattle.aig_circuit.specs.declared.circuit.Circuit.{Circuit as CircuitRecord};
ghost use Rattle.aig_io.specs.Runs.{AtEnd, Ending, Read};
ghost use Rattle.aig_lines.specs.Feeders.{IsInitial};
ghost use Rattle.aig_verdicts.specs.Judged.{WitnessSays};
ghost use Rattle.aig_verdicts.specs.Parts.Reading.{FileSays, IsBegun, IsLike, IsReadOf, longest_file_line};
ghost use Rattle.aig_witness.specs.Witness.{shape_of};

use crate::held::judge_held;
use crate::reader::{Reader, Stage};
use crate::verdict::WitnessVerdict;
use aig_checked::Checked;
use aig_fault::{Kind, Stopped, refused_at};
use aig_io::Source;
use aig_lines::{LineFeeder, feed_source};
use std::alloc::Global;

/// Takes all bytes of the source, and tells whether each line is right and none is missing.
fn read_all<R: Source>(
    feeder: &mut LineFeeder,
    reader: &mut Reader,
    source: &mut R,
) -> Result<(), Stopped>
    requires initial { IsInitial feeder.old }
    requires limit { feeder.old.limit ≡ longest_file_line (shape_of reader.old.checker.circuit) }
    requires begun { IsBegun reader.old }
    requires few { length reader.old.checker.circuit.bad ≤ LARGEST }
    requires few_justices { reader.old.justices ≤ LARGEST }
    ensures { Read (FileSays reader.old.checker.circuit reader.old.justices reader.new result)
        (R.history source.old) (R.history source.new) }
{
    let Ok(good) = feed_source(feeder, reader, source) else {
        return Err(Stopped::ReadFailed);
    };
    // Where a line is due after the last, it is that which is missing.
    if !good || !reader.is_whole() {
        return Err(refused_at(Kind::BadWitness, feeder.number()));
    }
    Ok(())
}

/// The verdict on a file that was read, each line of which is right.
fn judge_read(alloc: Global, checked: &Checked, reader: &Reader) -> Result<WitnessVerdict, Stopped>
    ensures { (bytes : List ℕ) → IsReadOf checked.now reader.now bytes
        → WitnessSays checked.now result bytes AtEnd }
{
    match reader.stage {
        Stage::BadState => Ok(WitnessVerdict::BadState(reader.checker.verdict())),
        _ => {
            let verdict = judge_held(alloc, checked, reader.property, &reader.held)?;
            Ok(WitnessVerdict::Justice(verdict))
        }
    }
}

/// The same, if the file was read.
fn judge_if_read(
    alloc: Global,
    checked: &Checked,
    reader: &Reader,
    read: Result<(), Stopped>,
) -> Result<WitnessVerdict, Stopped>
    ensures { (circuit : CircuitRecord) (bytes : List ℕ) (ending : Ending)
        → IsLike checked.now circuit
        → FileSays circuit (length checked.now.justice.sizes) reader.now read bytes ending
        → WitnessSays checked.now result bytes ending }
{
    match read {
        Ok(()) => judge_read(alloc, checked, reader),
        Err(stopped) => Err(stopped),
    }
}

/// Reads a witness file, of a bad state or of a justice property, and tells whether the circuit's
/// trace confirms what it claims: that the bad state is reached, or that the trace is a lasso that
/// meets the goals of the property. Comment lines are passed over. The whole file is judged before
/// there is a verdict. For a bad state all memory is taken before the first fetch, and how much does not depend on the file; the
/// steps to a justice property are held. Where there is no memory for them, the lines are judged
/// still, and that is told only if none of them is wrong.
pub fn judge_witness<R: Source>(
    alloc: Global,
    checked: &Checked,
    source: &mut R,
) -> Result<WitnessVerdict, Stopped>
    ensures read { Read (WitnessSays checked.now result) (R.history source.old)
        (R.history source.new) }
{
    let mut reader = Reader::new(alloc, checked)?;
    let Ok(mut feeder) = LineFeeder::new(alloc, reader.longest_line()) else {
        drop(reader); // for the proof
        return Err(Stopped::OutOfMemory);
    };
    let read = read_all(&mut feeder, &mut reader, source);
    drop(feeder); // for the proof
    let judged = judge_if_read(alloc, checked, &reader, read);
    drop(reader); // for the proof
    judged
}
