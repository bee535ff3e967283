//! What steps show, in all lanes.
ghost use Rattle.std.specs.Prelude.{◌≡◌, ◌+◌, ◌-◌, ◌*◌, ◌/◌, ◌++◌, ◌<◌, ◌≤◌};
ghost use Rattle.std.specs.Prelude.{◌^◌, ℕ, List, [], IfOk, drop, length, map};
ghost use Rattle.std.specs.Prelude.{IsTrue, slice_index_or, take};
ghost use Rattle.std.specs.List.{All};
ghost use Rattle.aig_circuit.specs.declared.circuit.Latch.{Latch as LatchRecord};
ghost use Rattle.aig_circuit.specs.declared.value.Val.{Val as Value};
ghost use Rattle.aig_meaning.specs.Meaning.{Row as RowRecord, literal_value};
ghost use Rattle.aig_places.specs.Tables.{Begun, IsWhole};
ghost use Rattle.aig_places.specs.Lanes.{IsLane, IsPair};
ghost use Rattle.aig_lanes.specs.Parts.Kept.{asked as asked_of, reset_literal as literal_by};
ghost use Rattle.aig_lanes.specs.Parts.Kept.{reset_literals as literals_by, seen as seen_of};
ghost use Rattle.aig_lanes.specs.Parts.Sheets.{SameRoom, text_in};
ghost use Rattle.aig_lanes.specs.Runs.{row_of};
ghost use Rattle.aig_step.specs.Parts.Tables.{IsLiteralBelow, read_from};
ghost use Rattle.aig_step.specs.TraceText.{values_text};

use crate::run::FullRow;
use crate::sheets::Sheet;
use crate::vectors::RunGroup;
use aig_circuit::{Circuit, Latch, Listing, Lit, OutOfMemory, Reset, Val};
use aig_places::{
    Places, Plane, begin_table, fill_table, places_for, plane_of, planes_of, put_literal_planes,
};
use aig_step::{Columns, Machine, write_text_column};
use std::alloc::{AllocError, Global};

/// What steps show. In the lanes of a sheet it stands step after step: the state, the outputs, and
/// the bad states and constraints where they are asked for. After the last step stands the state
/// that comes after it, so that the next state of a step is the state of the one after it.
#[derive(Drop)]
pub struct LaneColumns {
    columns: Columns,
    /// How many outputs there are.
    outputs: usize,
    /// How many bad states are shown.
    bad: usize,
    /// How many constraints are shown.
    constraints: usize,
    /// The state by the resets.
    resets: Vec<Lit>,
    /// Where the values of variables stand in a table.
    pub(crate) places: Places,
    /// What is put for a step, over places: what it shows beside its state, and the state after it.
    literals: Vec<Lit>,
    ghost counted: { outputs + (bad + constraints) + length resets.items ≡ length literals.items },
}

/// Where there are fewer than eight, the last one stands for those that are not there.
#[inline(always)]
fn planes_of_literals(planes: &[Plane], literals: &[Lit], first: usize) -> [Plane; 16]
    requires some { first < length literals.now }
    requires below { All (IsLiteralBelow (length planes.now / 2)) literals.now }
    ensures { (l k : ℕ) (values : List Value) → k < 8 → first + k < length literals.now
        → IsLane l planes.now values
        → IsPair l (slice_index_or result (2 * k) []) (slice_index_or result (2 * k + 1) [])
        (literal_value (read_from values) (slice_index_or literals.now (first + k) 0)) }
{
    let last = literals.len() - 1;
    let mut eight = [plane_of(false); 16];
    for k in 0..8 {
        let (one, zero) = planes_of(planes, literals[(first + k).min(last)]);
        eight[2 * k] = one;
        eight[2 * k + 1] = zero;
    }
    eight
}

/// Writes eight at a time; the surplus is overwritten.
fn show_literals(literals: &[Lit], planes: &[Plane], sheet: &mut Sheet, at: usize)
    requires fits { at + length literals.now < 2 ^ 64 }
    requires below { All (IsLiteralBelow (length planes.now / 2)) literals.now }
    ensures room { SameRoom sheet.old sheet.new }
    ensures front { (l : ℕ) → l < 256 → take at (text_in l sheet.new)
        ≡ take at (text_in l sheet.old) }
    ensures text { (l : ℕ) (values : List Value) → l < 256
        → at + length literals.now ≤ length (text_in l sheet.old)
        → IsLane l planes.now values → take (at + length literals.now) (text_in l sheet.new)
        ≡ take at (text_in l sheet.old) ++ values_text
        (map (literal_value (read_from values)) literals.now) }
{
    for eight in 0..literals.len().div_ceil(8) {
        let first = 8 * eight;
        sheet.put(at + first, &planes_of_literals(planes, literals, first));
    }
}

fn if_asked_for(columns: Columns, literals: &[Lit]) -> &[Lit]
    ensures { result.now ≡ asked_of columns literals.now }
{
    match columns {
        Columns::Plain => &literals[..0],
        Columns::Properties => literals,
    }
}

fn reset_literal(reset: Reset) -> Lit
    ensures { result ≡ literal_by reset }
{
    match reset {
        Reset::Zero => Lit(0),
        Reset::One => Lit(1),
        Reset::Uninit => Lit(2),
    }
}

fn reset_literals(alloc: Global, latches: &[Latch]) -> Result<Vec<Lit>, OutOfMemory>
    ensures { IfOk result (λ literals. literals.items ≡ literals_by latches.now) }
{
    let mut literals = Vec::with_capacity(alloc, latches.len())?;
    for latch in latches {
        literals.push(reset_literal(latch.reset))?;
    }
    Ok(literals)
}

fn literals_beside_states(
    alloc: Global,
    parts: &Circuit,
    columns: Columns,
) -> Result<Vec<Lit>, OutOfMemory>
    ensures { IfOk result (λ literals.
        literals.items ≡ seen_of columns parts.now.outputs parts.now.bad parts.now.constraints) }
{
    let mut literals = Vec::from_slice(alloc, parts.outputs.as_slice())?;
    literals.extend_from_slice(if_asked_for(columns, parts.bad.as_slice()))?;
    literals.extend_from_slice(if_asked_for(columns, parts.constraints.as_slice()))?;
    Ok(literals)
}

fn add_next(literals: &mut Vec<Lit>, latches: &[Latch]) -> Result<(), OutOfMemory>
    ensures { IfOk result (λ _.
        literals.new.items ≡ literals.old.items ++ map (λ (l : LatchRecord). l.next) latches.now) }
{
    for latch in latches {
        literals.push(latch.next)?;
    }
    Ok(())
}

impl LaneColumns {
    ghost use Rattle.aig_step.specs.declared.trace.Columns.TheVariants.{Properties};
    ghost use Rattle.aig_lanes.specs.Parts.LaneTexts.{HoldsRuns, RowStands, ShowsRows, end_of};
    ghost use Rattle.aig_lanes.specs.Parts.LaneTexts.{shown_properties, shown_size, shown_text};

    /// What a circuit shows in about so many steps.
    pub(crate) fn new(
        alloc: Global,
        machine: &Machine,
        columns: Columns,
        steps: usize,
    ) -> Result<Self, OutOfMemory>
        ensures columns { IfOk result (λ shown. shown.columns ≡ columns) }
        ensures shows { IfOk result (λ shown. ShowsRows machine.now shown) }
    {
        let parts = machine.parts();
        let latches = parts.latches.as_slice();
        let resets = reset_literals(alloc, latches)?;
        let mut literals = literals_beside_states(alloc, parts, columns)?;
        add_next(&mut literals, latches)?;
        let (places, literals) = places_for(alloc, machine, literals, steps);
        Ok(LaneColumns {
            columns,
            outputs: parts.outputs.len(),
            bad: if_asked_for(columns, parts.bad.as_slice()).len(),
            constraints: if_asked_for(columns, parts.constraints.as_slice()).len(),
            resets,
            places,
            literals,
        })
    }

    /// Room for what is shown in the runs of these groups.
    pub fn new_sheet(&self, alloc: Global, groups: &[RunGroup]) -> Result<Sheet, OutOfMemory>
        ensures { IfOk result (λ sheet. All (HoldsRuns self.now sheet) groups.now) }
    {
        Sheet::new(alloc, self.literals.len(), self.resets.len(), groups)
    }

    /// Before the first step the state by the resets is put. In a table that has values in each
    /// lane, the variables but the constant and the first keep them: those of inputs, latches and
    /// gates are put at each step.
    pub fn put_resets(
        &self,
        is_whole: bool,
        table: &mut [Plane],
        state: &mut [Plane],
        sheet: &mut Sheet,
    )
        requires whole { IsTrue is_whole → IsWhole table.old }
        requires constant { 2 ≤ length table.old }
        requires state { length state.old ≡ 2 * length self.now.resets.items }
        requires below { All (IsLiteralBelow (length table.old / 2)) self.now.resets.items }
        ensures room { SameRoom sheet.old sheet.new }
        ensures table { (l variables : ℕ) → l < 256 → length table.old ≡ 2 * variables
            → Begun l variables table.new }
        ensures text { (l : ℕ) (values : List Value) → l < 256 → IsLane l table.new values
            → end_of self.now 0 ≤ length (text_in l sheet.old)
            → take (end_of self.now 0) (text_in l sheet.new)
            ≡ values_text (map (literal_value (read_from values)) self.now.resets.items) }
        ensures state { (l : ℕ) (values : List Value) → l < 256 → IsLane l table.new values
            → IsLane l state.new (map (literal_value (read_from values)) self.now.resets.items) }
    {
        begin_table(table, is_whole);
        show_literals(&self.resets, table, sheet, 0);
        fill_table(state);
        put_literal_planes(&self.resets, table, state);
    }

    /// Puts what a step shows beside its state, and the state after it.
    pub fn show(&self, table: &[Plane], state: &mut [Plane], sheet: &mut Sheet, step: usize)
        requires state { length state.old ≡ 2 * length self.now.resets.items }
        requires fits { (step + 1) * shown_size self.now < 2 ^ 64 }
        requires below { All (IsLiteralBelow (length table.now / 2)) self.now.literals.items }
        ensures room { SameRoom sheet.old sheet.new }
        ensures front { (l : ℕ) → l < 256
            → take (end_of self.now step) (text_in l sheet.new)
            ≡ take (end_of self.now step) (text_in l sheet.old) }
        ensures text { (l : ℕ) (values : List Value) → l < 256
            → end_of self.now (step + 1) ≤ length (text_in l sheet.old) → IsLane l table.now values
            → take (end_of self.now (step + 1)) (text_in l sheet.new)
            ≡ take (end_of self.now step) (text_in l sheet.old)
            ++ values_text (map (literal_value (read_from values)) self.now.literals.items) }
        ensures state { (l : ℕ) (values before : List Value) → IsLane l table.now values
            → IsLane l state.old before
            → IsLane l state.new (map (literal_value (read_from values))
            (drop (length self.now.literals.items - length self.now.resets.items)
            self.now.literals.items)) }
    {
        let at = step * self.literals.len() + self.resets.len();
        show_literals(&self.literals, table, sheet, at);
        let (_, next) = self
            .literals
            .split_at(self.literals.len() - self.resets.len());
        put_literal_planes(next, table, state);
    }

    /// Writes the columns of bad states and constraints of a step in a lane, where they are asked
    /// for and stand at this place, and answers where they end.
    #[inline(always)]
    fn write_properties(
        &self,
        sheet: &Sheet,
        line: &mut [u8],
        at: usize,
        from: usize,
        lane: usize,
    ) -> usize
        requires lane { lane < 256 }
        requires has { from + (self.now.bad + self.now.constraints)
            ≤ length (text_in lane sheet.now) }
        requires fits { from + (self.now.bad + self.now.constraints) < 2 ^ 64 }
        requires room { at + self.now.bad + self.now.constraints + 2 ≤ length line.old }
        ensures end { result ≤ at + self.now.bad + self.now.constraints + 2 }
        ensures text { take result line.new ≡ take at line.old
            ++ shown_properties self.now.columns from self.now.bad self.now.constraints
            (text_in lane sheet.now) }
    {
        match self.columns {
            Columns::Plain => at,
            Columns::Properties => {
                let end = sheet.write_column(line, at, from, self.bad, lane);
                sheet.write_column(line, end, from + self.bad, self.constraints, lane)
            }
        }
    }

    /// Writes the line of a step in a lane with these inputs, from a place on, and answers where it
    /// ends.
    #[inline(always)]
    pub fn write(
        &self,
        sheet: &Sheet,
        line: &mut [u8],
        at: usize,
        given: &[u8],
        step: usize,
        lane: usize,
    ) -> usize
        requires lane { lane < 256 }
        requires fits { (step + 1) * shown_size self.now < 2 ^ 64 }
        requires has { end_of self.now (step + 1) ≤ length (text_in lane sheet.now) }
        requires room { at + (shown_size self.now + length given.now) ≤ length line.old }
        ensures end { result ≤ at + (shown_size self.now + length given.now) }
        ensures text { take result line.new
            ≡ take at line.old ++ shown_text self.now step given.now (text_in lane sheet.now) }
    {
        let latches = self.resets.len();
        let from = step * self.literals.len();
        let next = (step + 1) * self.literals.len();
        let behind = from + latches;
        let end = sheet.write(line, at, from, latches, lane);
        let end = write_text_column(line, end, given);
        let end = sheet.write_column(line, end, behind, self.outputs, lane);
        let end = sheet.write_column(line, end, next, latches, lane);
        let end = self.write_properties(sheet, line, end, behind + self.outputs, lane);
        line[end] = b'\n';
        end + 1
    }

    /// The row of a step in a lane with these inputs. There is a line to write in.
    pub fn row(
        &self,
        alloc: Global,
        sheet: &Sheet,
        line: &mut [u8],
        given: &Listing<Val>,
        step: usize,
        lane: usize,
    ) -> Result<FullRow, AllocError>
        requires lane { lane < 256 }
        requires fits { (step + 1) * shown_size self.now < 2 ^ 64 }
        requires has { end_of self.now (step + 1) ≤ length (text_in lane sheet.now) }
        requires room { shown_size self.now ≤ length line.old }
        ensures { IfOk result (λ full. (row : RowRecord)
            → RowStands self.now step given.now (text_in lane sheet.now) row
            → self.now.columns ≡ Properties
            → row_of full ≡ row) }
    {
        let latches = self.resets.len();
        let from = step * self.literals.len();
        let next = (step + 1) * self.literals.len();
        let behind = from + latches;
        let properties = behind + self.outputs;
        Ok(FullRow {
            state: sheet.values(alloc, line, from, latches, lane)?,
            inputs: given.copy(alloc)?,
            outputs: sheet.values(alloc, line, behind, self.outputs, lane)?,
            next: sheet.values(alloc, line, next, latches, lane)?,
            bad: sheet.values(alloc, line, properties, self.bad, lane)?,
            constraints: sheet.values(alloc, line, properties + self.bad, self.constraints, lane)?,
        })
    }
}
