//! The steps of a witness file, each with the value of a mark.
ghost use Rattle.std.specs.Prelude.{◌≡◌, ◌++◌, IfOk, OnOk};
ghost use Rattle.aig_dump.specs.Parts.Showing.{marked_line, marked_lines};
ghost use Rattle.aig_lines.specs.Lines.{line as made_line, lines_of};
ghost use Rattle.aig_step.specs.Stimulus.{text_of};

use aig_core::OutOfMemory;
use aig_lines::{Line, split_line, without_return};
use aig_step::is_stop;
use std::alloc::{AllocError, Global};

/// The text of a line.
pub(crate) fn text_of(line: Line<'_>) -> &[u8]
    ensures { result.now ≡ text_of (made_line line.entry.text.now line.entry.ended) }
{
    if line.ended {
        without_return(line.text)
    } else {
        line.text
    }
}

/// Adds the line of a step with the value of the mark, or the line `.` as it is.
fn push_line(marked: &mut Vec<u8>, mark: u8, text: &[u8]) -> Result<(), AllocError>
    ensures { OnOk result (marked.new.items ≡ marked.old.items ++ marked_line mark text.now) }
{
    marked.extend_from_slice(text)?;
    if !is_stop(text) {
        marked.push(mark)?;
    }
    marked.push(b'\n')?;
    Ok(())
}

/// The steps with the mark as a last input, which is 1 from the step of this number on.
pub(crate) fn mark_steps(alloc: Global, steps: &[u8], start: u64) -> Result<Vec<u8>, OutOfMemory>
    ensures { IfOk result (λ marked. marked.items ≡ marked_lines start (lines_of steps.now)) }
{
    let mut marked = Vec::new(alloc);
    let mut rest = steps;
    let mut before = start;
    while let Some((line, more)) = split_line(rest) {
        let mark = if before == 0 { b'1' } else { b'0' };
        push_line(&mut marked, mark, text_of(line))?;
        before = before.saturating_sub(1);
        rest = more;
    }
    Ok(marked)
}
