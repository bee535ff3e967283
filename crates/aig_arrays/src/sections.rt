//! Sections of arrays: entries of one kind, one after the other.
ghost use Rattle.std.specs.Prelude.{◌≡◌, ◌+◌, ◌*◌, ◌^◌, ◌<◌, ◌≤◌, OnOk};
ghost use Rattle.std.specs.List.{sum};
ghost use Rattle.aig_arrays.specs.Outcomes.{GivesOrMemory, entries_meant};
ghost use Rattle.aig_arrays.specs.Decoded.{header_of, rows_decoded};
ghost use Rattle.aig_arrays.specs.Decoded.{section_decoded, sections_decoded};
ghost use Rattle.aig_circuit.specs.Wellformed.{largest_index};
ghost use Rattle.aig_text.specs.Sections.{in_ascii, sections};

use crate::counts::Counts;
use crate::entries::{FromWords, WordCursor};
use aig_core::{Circuit, LARGEST, Listing};
use aig_fault::Stopped;
use aig_text::{SECTIONS, Section};
use std::alloc::Global;
use std::mem;

/// Adds so many entries, which are judged beside `bound` and what is carried to the first, and
/// moves past them.
fn push_rows<T: FromWords>(
    found: &mut Vec<T>,
    count: u32,
    bound: u32,
    start: u64,
    from: &mut WordCursor,
) -> Result<(), Stopped>
    requires bound { bound ≤ largest_index }
    requires start { start ≤ largest_index }
    ensures { GivesOrMemory (λ _. (found.new.items, from.new)) result
        (entries_meant T.meant_by found.old.items (rows_decoded T.form bound start count
        from.old)) }
{
    // One of its own, so that it stays in registers.
    let mut at = WordCursor {
        rest: from.rest,
        at: from.at,
    };
    let mut carried = start;
    let mut left = count;
    while left > 0 {
        let entry = T::read_entry(&mut at, bound, carried)?;
        carried = entry.carry(carried);
        found.push(entry)?;
        left -= 1;
    }
    *from = at;
    Ok(())
}

/// As `push_rows`, with memory for all entries taken at once.
fn read_rows<T: FromWords>(
    alloc: Global,
    found: &mut Listing<T>,
    count: u32,
    bound: u32,
    start: u64,
    from: &mut WordCursor,
) -> Result<(), Stopped>
    requires bound { bound ≤ largest_index }
    requires start { start ≤ largest_index }
    ensures { GivesOrMemory (λ _. (found.new, from.new)) result
        (entries_meant T.meant_by found.old (rows_decoded T.form bound start count from.old)) }
{
    let mut items = mem::replace(found, Listing::new(alloc)).into_vec();
    items.reserve(count as usize)?;
    push_rows(&mut items, count, bound, start, from)?;
    *found = Listing::from_vec(items);
    Ok(())
}

/// The sum of sizes.
fn total(sizes: &[u32]) -> u64
    requires { sum sizes.now < 2 ^ 64 }
    ensures { result ≡ sum sizes.now }
{
    let mut all = 0;
    for size in sizes {
        all += u64::from(*size);
    }
    all
}

/// Adds the entries of a section, and moves past them.
fn read_section(
    alloc: Global,
    section: Section,
    counts: &Counts,
    circuit: &mut Circuit,
    from: &mut WordCursor,
) -> Result<(), Stopped>
    requires max_var { counts.now.max_var ≤ largest_index }
    requires sizes { sum circuit.old.justice.sizes ≤ largest_index }
    ensures read { GivesOrMemory (λ _. (circuit.new, from.new)) result
        (section_decoded (in_ascii section) (header_of counts.now) circuit.old from.old) }
    ensures sizes { OnOk result (sum circuit.new.justice.sizes ≤ largest_index) }
{
    let top = counts.max_var;
    match section {
        Section::Inputs => read_rows(alloc, &mut circuit.inputs, counts.inputs, top, 0, from),
        Section::Latches => read_rows(alloc, &mut circuit.latches, counts.latches, top, 0, from),
        Section::Outputs => read_rows(alloc, &mut circuit.outputs, counts.outputs, top, 0, from),
        Section::Bad => read_rows(alloc, &mut circuit.bad, counts.bad, top, 0, from),
        Section::Constraints => {
            read_rows(
                alloc,
                &mut circuit.constraints,
                counts.constraints,
                top,
                0,
                from,
            )
        }
        Section::JusticeSizes => {
            let before = total(circuit.justice.sizes.as_slice());
            let sizes = &mut circuit.justice.sizes;
            read_rows(alloc, sizes, counts.justice, LARGEST, before, from)
        }
        Section::JusticeLiterals => {
            let count = total(circuit.justice.sizes.as_slice()) as u32;
            read_rows(alloc, &mut circuit.justice.literals, count, top, 0, from)
        }
        Section::Fairness => read_rows(alloc, &mut circuit.fairness, counts.fairness, top, 0, from),
        Section::Gates => read_rows(alloc, &mut circuit.gates, counts.gates, top, 0, from),
    }
}

/// Adds the entries of these sections, and moves past them.
fn read_each(
    alloc: Global,
    sections: &[Section],
    counts: &Counts,
    circuit: &mut Circuit,
    from: &mut WordCursor,
) -> Result<(), Stopped>
    requires max_var { counts.now.max_var ≤ largest_index }
    requires sizes { sum circuit.old.justice.sizes ≤ largest_index }
    ensures { GivesOrMemory (λ _. (circuit.new, from.new)) result
        (sections_decoded (header_of counts.now) sections.now circuit.old from.old) }
{
    for section in sections {
        // For a `?` here the kit's borrow checker makes no proof.
        if let Err(fault) = read_section(alloc, *section, counts, circuit, from) {
            return Err(fault);
        }
    }
    Ok(())
}

/// Adds the entries of all sections, and moves past them.
pub(crate) fn read_sections(
    alloc: Global,
    counts: &Counts,
    circuit: &mut Circuit,
    from: &mut WordCursor,
) -> Result<(), Stopped>
    requires max_var { counts.now.max_var ≤ largest_index }
    requires sizes { sum circuit.old.justice.sizes ≤ largest_index }
    ensures { GivesOrMemory (λ _. (circuit.new, from.new)) result
        (sections_decoded (header_of counts.now) sections circuit.old from.old) }
{
    read_each(alloc, &SECTIONS, counts, circuit, from)
}
