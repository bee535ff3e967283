//! Whether two clauses have the same literals, in time linear in both.
ghost use Rattle.std.specs.Prelude.{◌≡◌, ◌⊎◌, ℕ, Bool, false, slice_index_or, true};
ghost use Rattle.aig_refute.specs.Kept.{HasLiteral, HaveSameLiterals};

use crate::words::{is_marked, unmark};
use std::alloc::{AllocError, Global};

/// Compares clauses.
#[derive(Drop)]
pub(crate) struct Comparer {
    /// By literal, whether the clause has it that is compared with: of the literals that were
    /// cleared before.
    marks: Vec<bool>,
}

/// Each literal of a clause is marked, if there is a mark for it.
fn mark_all(marks: &mut [bool], clause: &[u32])
    ensures { (literal : ℕ) → slice_index_or marks.new literal false ≡ true
        → (slice_index_or marks.old literal false ≡ true) ⊎ (HasLiteral clause.now literal) }
{
    for k in 0..clause.len() {
        let at = clause[k] as usize;
        if at < marks.len() {
            marks[at] = true;
        }
    }
}

/// Whether each literal of a clause is marked.
fn are_marked(marks: &[bool], clause: &[u32]) -> bool
    ensures { result ≡ true → (literal : ℕ) → HasLiteral clause.now literal
        → slice_index_or marks.now literal false ≡ true }
{
    for k in 0..clause.len() {
        if !is_marked(marks, clause[k]) {
            return false;
        }
    }
    true
}

impl Comparer {
    /// For literals below this one.
    pub(crate) fn new(alloc: Global, literals: usize) -> Result<Comparer, AllocError> {
        Ok(Comparer {
            marks: vec![in alloc; false; literals]?,
        })
    }

    /// There is room for the literals below this one.
    pub(crate) fn make_room(&mut self, literals: usize) -> Result<(), AllocError> {
        for _literal in self.marks.len()..literals {
            self.marks.push(false)?;
        }
        Ok(())
    }

    /// Whether each literal of a clause is one of another.
    fn has_all(&mut self, clause: &[u32], other: &[u32]) -> bool
        ensures { result ≡ true → (literal : ℕ) → HasLiteral clause.now literal
            → HasLiteral other.now literal }
    {
        let marks = self.marks.as_mut_slice();
        unmark(marks, clause);
        mark_all(marks, other);
        are_marked(marks, clause)
    }

    /// Whether two clauses have the same literals.
    pub(crate) fn have_same_literals(&mut self, clause: &[u32], other: &[u32]) -> bool
        ensures { result ≡ true → HaveSameLiterals clause.now other.now }
    {
        self.has_all(clause, other) && self.has_all(other, clause)
    }
}
