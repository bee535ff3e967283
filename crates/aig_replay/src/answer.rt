//! A solver's answer, read to its end.
ghost use Rattle.std.specs.Prelude.{◌≡◌, IfErr, List, Ok, OnOk, ℕ};
ghost use Rattle.aig_answer.specs.Answer.{answer_of, closed};
ghost use Rattle.aig_answer.specs.Laws.{read_from};
ghost use Rattle.aig_answer.specs.declared.reader.Status.TheVariants.{Satisfiable};
ghost use Rattle.aig_io.specs.Devices.{gave_all};
ghost use Rattle.aig_io.specs.Runs.{AtEnd, Read};
ghost use Rattle.aig_replay.specs.Parts.{NotTaken};

use aig_answer::{Reader, Spot, Status, read_values};
use aig_core::{ROOM, Source};
use aig_fault::{Kind, Stopped, refused_at, refused_whole};

/// Whether all that came says that the clauses can be satisfied.
fn check_said(reader: Reader) -> Result<(), Stopped>
    ensures ok { OnOk result (answer_of (closed reader) ≡ Ok Satisfiable) }
    ensures err { IfErr result (λ stopped. NotTaken reader stopped AtEnd) }
{
    match reader.answer()? {
        Status::Satisfiable => Ok(()),
        Status::Unsatisfiable => Err(refused_whole(Kind::Unsatisfiable)),
        Status::Unknown => Err(refused_whole(Kind::Unknown)),
    }
}

/// Reads an answer that the clauses can be satisfied, to its end, and puts its values. After a
/// wrong byte nothing more is fetched, since a wrong text need not end.
pub(crate) fn read_answer<R: Source>(answer: &mut R, bits: &mut [u8]) -> Result<(), Stopped>
    ensures ok { OnOk result ((bytes : List ℕ)
        × (R.history answer.new ≡ gave_all bytes (R.history answer.old))
        × (answer_of (closed (read_from bits.old bytes).reader) ≡ Ok Satisfiable)
        × (bits.new ≡ (read_from bits.old bytes).bits)) }
    ensures err { IfErr result (λ stopped. Read
        (λ bytes ending. NotTaken (read_from bits.old bytes).reader stopped ending)
        (R.history answer.old) (R.history answer.new)) }
{
    let mut reader = Reader::new();
    let mut block = [0u8; ROOM];
    loop {
        let Ok(count) = answer.fetch(&mut block) else {
            return Err(Stopped::ReadFailed);
        };
        if count == 0 {
            return check_said(reader);
        }
        let (chunk, _) = block.split_at(count);
        reader = read_values(reader, bits, chunk);
        if matches!(reader.spot, Spot::Wrong) {
            return Err(refused_at(Kind::BadAnswer, reader.line));
        }
    }
}
