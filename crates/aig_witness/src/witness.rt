//! A witness file, judged for a circuit.
ghost use Rattle.std.specs.Prelude.{◌≡◌, ◌≤◌, length};
ghost use Rattle.aig_circuit.specs.declared.circuit.TheConstants.{LARGEST};
ghost use Rattle.aig_io.specs.Runs.{Read};
ghost use Rattle.aig_lines.specs.Feeders.{IsInitial};
ghost use Rattle.aig_witness.specs.Confirming.{ConfirmSays};
ghost use Rattle.aig_witness.specs.Witness.{Nothing, shape_of};
ghost use Rattle.aig_witness.specs.Parts.Witnessing.{StandsWhen, longest_line};

use crate::checker::Checker;
use crate::verdict::Verdict;
use aig_checked::Checked;
use aig_fault::{Kind, Stopped, refused_at};
use aig_io::Source;
use aig_lines::{LineFeeder, feed_source};
use std::alloc::Global;

/// Takes all bytes of the source, and tells what they come to.
fn judge_all<R: Source>(
    feeder: &mut LineFeeder,
    checker: &mut Checker,
    source: &mut R,
) -> Result<Verdict, Stopped>
    requires initial { IsInitial feeder.old }
    requires limit { feeder.old.limit ≡ longest_line (shape_of checker.old.circuit) }
    requires begun { StandsWhen checker.old Nothing }
    requires few { length checker.old.circuit.bad ≤ LARGEST }
    ensures { Read (ConfirmSays checker.old.circuit result)
        (R.history source.old) (R.history source.new) }
{
    let Ok(good) = feed_source(feeder, checker, source) else {
        return Err(Stopped::ReadFailed);
    };
    // Where a line is due after the last, it is that which is missing.
    if !good || !checker.is_whole() {
        return Err(refused_at(Kind::BadWitness, feeder.number()));
    }
    Ok(checker.verdict())
}

/// Reads a witness file, and tells whether the circuit's trace confirms what it claims: that a bad
/// state is reached, with all constraints kept on the way. The whole file is judged before there is
/// a verdict. All memory is taken before the first fetch, and how much does not depend on the file.
pub fn confirm<R: Source>(
    alloc: Global,
    checked: &Checked,
    source: &mut R,
) -> Result<Verdict, Stopped>
    ensures read { Read (ConfirmSays checked.now result) (R.history source.old)
        (R.history source.new) }
{
    let mut checker = Checker::new(alloc, checked)?;
    let Ok(mut feeder) = LineFeeder::new(alloc, checker.longest_line()) else {
        drop(checker); // for the proof
        return Err(Stopped::OutOfMemory);
    };
    let judged = judge_all(&mut feeder, &mut checker, source);
    drop(feeder); // for the proof
    drop(checker); // for the proof
    judged
}
