//! What runs are stepped in side by side, a lane for each.
ghost use Rattle.std.specs.Prelude.{◌≡◌, ◌+◌, ◌*◌, ◌<◌, ◌≤◌, ◌^◌, ℕ, List, []};
ghost use Rattle.std.specs.Prelude.{IfOk, IsTrue, length, slice_index_or};
ghost use Rattle.std.specs.List.{All};
ghost use Rattle.aig_lanes.specs.declared.run.Run.{Run as RunRecord};
ghost use Rattle.aig_lanes.specs.Parts.InputBits.{one_step};
ghost use Rattle.aig_places.specs.Tables.{IsWhole};
ghost use Rattle.aig_lanes.specs.Parts.LaneTexts.{AreTables, HasLane, KeepsRun, LaneStands};
ghost use Rattle.aig_lanes.specs.Parts.LaneTexts.{shown_size};
ghost use Rattle.aig_lanes.specs.Parts.Sheets.{SameRoom};
ghost use Rattle.aig_lanes.specs.Runs.{IsRunOf};
ghost use Rattle.aig_step.specs.Parts.Lines.{line_size};

use crate::input_bits::{BlockBits, fill_across, fill_bits, new_bits};
use crate::input_planes::put_vectors;
use crate::lane_columns::LaneColumns;
use crate::sheets::Sheet;
use crate::vectors::{RunGroup, Vectors, longest_run};
use aig_circuit::OutOfMemory;
use aig_places::{Plane, assign_lanes, new_table};
use aig_step::{Columns, Machine};
use std::alloc::Global;

/// A step of each run that has it. What it shows is kept, and the state after it.
fn take_step(
    machine: &Machine,
    shown: &LaneColumns,
    step: usize,
    bits: &[BlockBits],
    table: &mut [Plane],
    state: &mut [Plane],
    sheet: &mut Sheet,
)
    requires tables { AreTables machine.now shown.now
        (length bits.now) (length table.old) (length state.old) }
    requires fits { (step + 1) * shown_size shown.now < 2 ^ 64 }
    ensures same { SameRoom sheet.old sheet.new }
    ensures stands { (j : ℕ) (run : RunRecord)
        → HasLane machine.now bits.now shown.now sheet.old j run
        → LaneStands machine.now run step j table.old state.old shown.now sheet.old
        → LaneStands machine.now run (step + 1) j table.new state.new shown.now sheet.new }
{
    let parts = machine.parts();
    put_vectors(bits, parts.inputs.len(), step, table);
    assign_lanes(machine, &shown.places, state, table);
    shown.show(table, state, sheet, step);
}

fn take_steps(
    machine: &Machine,
    shown: &LaneColumns,
    steps: usize,
    bits: &[BlockBits],
    table: &mut [Plane],
    state: &mut [Plane],
    sheet: &mut Sheet,
)
    requires tables { AreTables machine.now shown.now
        (length bits.now) (length table.old) (length state.old) }
    requires fits { steps * shown_size shown.now < 2 ^ 64 }
    ensures same { SameRoom sheet.old sheet.new }
    ensures stands { (j : ℕ) (run : RunRecord)
        → HasLane machine.now bits.now shown.now sheet.old j run
        → LaneStands machine.now run 0 j table.old state.old shown.now sheet.old
        → LaneStands machine.now run steps j table.new state.new shown.now sheet.new }
{
    for step in 0..steps {
        take_step(machine, shown, step, bits, table, state, sheet);
    }
}

/// How many steps the longest run of all groups has.
fn longest_of(groups: &[RunGroup]) -> usize
    ensures { All (All (λ (run : RunRecord). length run.steps ≤ result)) groups.now }
{
    let mut most = 0;
    for group in groups {
        let steps = longest_run(group.as_slice());
        if steps > most {
            most = steps;
        }
    }
    most
}

fn can_count(groups: &[RunGroup], line_room: usize) -> bool
    ensures { IsTrue result
        → All (All (λ (run : RunRecord). length run.steps * line_room < 2 ^ 64)) groups.now }
{
    longest_of(groups).checked_mul(line_room).is_some()
}

/// A run of one step in each lane.
fn one_step_each(alloc: Global) -> Result<RunGroup<'static>, OutOfMemory>
    ensures lanes { IfOk result (λ group. length group ≡ 256) }
    ensures steps { IfOk result (λ group. All (λ (run : RunRecord). length run.steps ≡ 1) group) }
{
    let mut runs = Vec::with_capacity(alloc, 256)?;
    for lane in 0..256usize {
        runs.push(Vectors::new(b"", 0, 0, 1))?;
    }
    Ok(RunGroup::new(runs))
}

/// What runs are stepped in, one group after the other, and what their steps show.
#[derive(Drop)]
pub struct Bench {
    bits: Vec<BlockBits>,
    table: Vec<Plane>,
    /// Whether variables have values in each lane of the table, as they have before the first step.
    is_whole: bool,
    state: Vec<Plane>,
    /// What the steps of a group show, in lanes of the sheet.
    pub shown: LaneColumns,
    pub sheet: Sheet,
    /// As long as a line may be.
    pub line: Vec<u8>,
    ghost whole: { IsTrue is_whole → IsWhole table.items },
}

impl Bench {
    ghost use Rattle.aig_lanes.specs.Parts.Benches.{EndsIn, HasRoomFor, HasRoomForSteps};
    ghost use Rattle.aig_lanes.specs.Parts.Benches.{HasSameRoom, HeldIn, IsBench};

    /// Room for these groups, where the line of a step may be so long.
    pub fn new(
        alloc: Global,
        machine: &Machine,
        columns: Columns,
        line_room: usize,
        groups: &[RunGroup],
    ) -> Result<Self, OutOfMemory>
        requires line { line_room ≡ line_size machine.now }
        requires lanes { All (λ (runs : List RunRecord). length runs ≤ 256) groups.now }
        ensures is { IfOk result (λ bench. IsBench machine.now bench) }
        ensures asks { IfOk result (λ bench. bench.shown.columns ≡ columns) }
        ensures room { IfOk result (λ bench. All (HasRoomFor machine.now bench) groups.now) }
    {
        if !can_count(groups, line_room) {
            return Err(OutOfMemory);
        }
        let parts = machine.parts();
        let steps = longest_of(groups).saturating_mul(groups.len());
        let line = vec![in alloc; 0; line_room]?;
        let _largest = parts.max_var; // for the proof
        let shown = LaneColumns::new(alloc, machine, columns, steps)?;
        let table = new_table(alloc, shown.places.count)?;
        let state = new_table(alloc, parts.latches.len())?;
        let bits = new_bits(alloc, parts.inputs.len(), groups)?;
        let sheet = shown.new_sheet(alloc, groups)?;
        Ok(Bench {
            bits,
            table,
            is_whole: true,
            state,
            shown,
            sheet,
            line,
        })
    }

    /// Room for a step in each lane, where its line may be so long.
    pub fn for_steps(
        alloc: Global,
        machine: &Machine,
        columns: Columns,
        line_room: usize,
    ) -> Result<Self, OutOfMemory>
        requires { line_room ≡ line_size machine.now }
        ensures asks { IfOk result (λ bench. bench.shown.columns ≡ columns) }
        ensures room { IfOk result (λ bench. HasRoomForSteps machine.now bench) }
    {
        let groups = [one_step_each(alloc)?];
        Bench::new(alloc, machine, columns, line_room, &groups)
    }

    /// Takes so many steps in all lanes, from the reset state on, with the inputs that have bits.
    fn step_lanes(&mut self, machine: &Machine, steps: usize)
        requires is { IsBench machine.now self.old }
        requires fits { steps * shown_size self.old.shown < 2 ^ 64 }
        ensures same { HasSameRoom self.old self.new }
        ensures ends { (j : ℕ) (run : RunRecord) → HeldIn machine.now self.old j run
            → EndsIn machine.now steps self.new j run }
    {
        let _parts = machine.parts(); // for the proof
        let shown = &self.shown;
        shown.put_resets(
            self.is_whole,
            &mut self.table,
            &mut self.state,
            &mut self.sheet,
        );
        self.is_whole = false;
        take_steps(
            machine,
            shown,
            steps,
            &self.bits,
            &mut self.table,
            &mut self.state,
            &mut self.sheet,
        );
    }

    /// Steps the runs of a group.
    pub fn step(&mut self, machine: &Machine, runs: &[Vectors])
        requires runs { All (IsRunOf machine.now) runs.now }
        requires room { HasRoomFor machine.now self.old runs.now }
        ensures same { HasSameRoom self.old self.new }
        ensures keeps { (j : ℕ) (d : RunRecord) → j < length runs.now
            → KeepsRun machine.now (slice_index_or runs.now j d) j self.new.shown self.new.sheet }
    {
        fill_bits(&mut self.bits, runs, machine.parts().inputs.len());
        self.step_lanes(machine, longest_run(runs));
    }

    /// Takes a step from the reset state in a lane for each of these vectors of inputs.
    pub fn step_across(&mut self, machine: &Machine, vectors: &Vectors)
        requires lanes { length vectors.now.steps ≤ 256 }
        requires inputs { IsRunOf machine.now vectors.now }
        requires room { HasRoomForSteps machine.now self.old }
        ensures same { HasSameRoom self.old self.new }
        ensures keeps { (j : ℕ) → j < length vectors.now.steps
            → KeepsRun machine.now (one_step (slice_index_or vectors.now.steps j [])) j
            self.new.shown self.new.sheet }
    {
        if vectors.len() == 0 {
            return;
        }
        fill_across(&mut self.bits, vectors, machine.parts().inputs.len());
        self.step_lanes(machine, 1);
        // Each lane took a step, so the table serves again as it stands.
        self.is_whole = true;
    }
}
