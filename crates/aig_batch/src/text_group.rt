//! The texts of groups of runs that are stepped side by side, put run by run.
ghost use Rattle.std.specs.Prelude.{◌+◌, ◌*◌, ◌<◌, ◌≤◌, ◌^◌, ◌++◌, ℕ, List, codes, length};
ghost use Rattle.std.specs.Prelude.{slice_index_or};
ghost use Rattle.std.specs.List.{All};
ghost use Rattle.aig_circuit.specs.declared.value.Val.{Val as Value};
ghost use Rattle.aig_lanes.specs.declared.run.Run.{Run as RunRecord};
ghost use Rattle.aig_lanes.specs.Parts.Benches.{HasRoomFor, HasSameRoom};
ghost use Rattle.aig_lanes.specs.Parts.LaneTexts.{HoldsRun, HoldsRuns, KeepsRun};
ghost use Rattle.aig_lanes.specs.Parts.LaneTexts.{kept_text, shown_size};
ghost use Rattle.aig_lanes.specs.Parts.Sheets.{text_in};
ghost use Rattle.aig_batch.specs.Parts.RunsRead.{KeepsRows, kept_texts, text_of_group};
ghost use Rattle.aig_lanes.specs.Runs.{IsRunOf};
ghost use Rattle.aig_trace.specs.Taken.{Took};

use aig_lanes::{Bench, LaneColumns, Sheet, ShownLine, Vectors};
use aig_step::Machine;
use aig_trace::RowTaker;

/// Puts the line of each step of a run, and the line that ends it.
fn put_run<T: RowTaker>(
    output: &mut T,
    line: &mut [u8],
    run: &Vectors,
    shown: &LaneColumns,
    sheet: &Sheet,
    lane: usize,
)
    requires lane { lane < 256 }
    requires fits { length run.now.steps * shown_size shown.now < 2 ^ 64 }
    requires room { HoldsRun lane run.now shown.now sheet.now }
    requires line { All (λ (vector : List Value).
        shown_size shown.now + length vector ≤ length line.old) run.now.steps }
    requires rows { KeepsRows shown.now run.now (text_in lane sheet.now) }
    ensures { Took T.took output.old output.new
        (kept_text shown.now run.now (length run.now.steps) (text_in lane sheet.now)
        ++ codes ".\n") }
{
    for step in 0..run.len() {
        let shown_line = ShownLine {
            given: run.text(step),
            shown,
            sheet,
            step,
            lane,
        };
        output.take_row(line, &shown_line, &mut ());
    }
    output.take_stop();
}

/// Puts the texts of runs.
fn put_runs<T: RowTaker>(
    output: &mut T,
    line: &mut [u8],
    runs: &[Vectors],
    shown: &LaneColumns,
    sheet: &Sheet,
)
    requires lanes { length runs.now ≤ 256 }
    requires fits { All (λ (run : RunRecord).
        length run.steps * shown_size shown.now < 2 ^ 64) runs.now }
    requires room { HoldsRuns shown.now sheet.now runs.now }
    requires line { All (λ (run : RunRecord). All (λ (vector : List Value).
        shown_size shown.now + length vector ≤ length line.old) run.steps) runs.now }
    requires rows { (j : ℕ) (d : RunRecord) → j < length runs.now
        → KeepsRows shown.now (slice_index_or runs.now j d) (text_in j sheet.now) }
    ensures { Took T.took output.old output.new
        (text_of_group (kept_texts shown.now runs.now (length runs.now) sheet.now)) }
{
    for lane in 0..runs.len() {
        put_run(output, line, &runs[lane], shown, sheet, lane);
    }
}

/// Steps the runs of a group, and puts their texts.
pub(crate) fn run_group<T: RowTaker>(
    bench: &mut Bench,
    machine: &Machine,
    runs: &[Vectors],
    output: &mut T,
)
    requires runs { All (IsRunOf machine.now) runs.now }
    requires room { HasRoomFor machine.now bench.old runs.now }
    ensures same { HasSameRoom bench.old bench.new }
    ensures put { Took T.took output.old output.new
        (text_of_group (kept_texts bench.new.shown runs.now (length runs.now) bench.new.sheet)) }
    ensures keeps { (j : ℕ) (d : RunRecord) → j < length runs.now
        → KeepsRun machine.now (slice_index_or runs.now j d) j bench.new.shown bench.new.sheet }
{
    bench.step(machine, runs);
    put_runs(output, &mut bench.line, runs, &bench.shown, &bench.sheet);
}
