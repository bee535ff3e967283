//! A witness file without its comments.
ghost use Rattle.std.specs.Prelude.{◌≡◌, ◌++◌, IfOk, OnOk};
ghost use Rattle.aig_lines.specs.Lines.{line as made_line, line_bytes};
ghost use Rattle.aig_verdicts.specs.Comments.{uncommented};

use crate::marking::text_of;
use aig_core::OutOfMemory;
use aig_lines::{Line, split_line};
use aig_verdicts::is_comment;
use std::alloc::{AllocError, Global};

/// Adds a line as it stands.
fn push_line(said: &mut Vec<u8>, line: Line<'_>) -> Result<(), AllocError>
    ensures { OnOk result (said.new.items
        ≡ said.old.items ++ line_bytes (made_line line.entry.text.now line.entry.ended)) }
{
    said.extend_from_slice(line.text)?;
    if line.ended {
        said.push(b'\n')?;
    }
    Ok(())
}

/// The lines of a witness file that are no comments.
#[tactic(auto, unfolding(aig_verdicts::specs::Comments::uncommented))]
pub(crate) fn without_comments(alloc: Global, witness: &[u8]) -> Result<Vec<u8>, OutOfMemory>
    ensures { IfOk result (λ said. said.items ≡ uncommented witness.now) }
{
    let mut said = Vec::new(alloc);
    let mut rest = witness;
    while let Some((line, more)) = split_line(rest) {
        if !is_comment(text_of(line)) {
            push_line(&mut said, line)?;
        }
        rest = more;
    }
    Ok(said)
}
