//! Which entries of a circuit's sections stay, by the variables that they define.
ghost use Rattle.std.specs.Prelude.{◌≡◌, ℕ, IfOk, map};
ghost use Rattle.std.specs.FinSet as set;

use aig_circuit::{Gate, Latch, Var};
use aig_tables::VarSet;
use std::alloc::{AllocError, Global};

/// What defines a variable: an input by itself, a latch or a gate.
pub(crate) trait Defines {
    ghost variable: { Self → ℕ };

    fn variable(&self) -> Var
        ensures { result ≡ variable self.now };
}

impl Defines for Var {
    ghost variable = { λ v. v };

    #[inline(always)]
    fn variable(&self) -> Var {
        *self
    }
}

impl Defines for Latch {
    ghost variable = { λ l. l.var };

    #[inline(always)]
    fn variable(&self) -> Var {
        self.var
    }
}

impl Defines for Gate {
    ghost variable = { λ g. g.var };

    #[inline(always)]
    fn variable(&self) -> Var {
        self.var
    }
}

/// Whether each of these has a variable that is among those.
pub(crate) fn mark_entries<T: Defines>(
    alloc: Global,
    variables: &VarSet,
    entries: &[T],
) -> Result<Vec<bool>, AllocError>
    ensures { IfOk result (λ marks. marks.items
        ≡ map (λ entry. set.contains variables.now (T.variable entry)) entries.now) }
{
    let mut marks = Vec::with_capacity(alloc, entries.len())?;
    for entry in entries {
        marks.push(variables.contains(entry.variable()))?;
    }
    Ok(marks)
}
