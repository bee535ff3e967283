//! What the entries of a circuit's sections define and use.
ghost use Rattle.std.specs.Prelude.{◌≡◌, ◌++◌, ℕ, List, [], ◌∷◌};
ghost use Rattle.std.specs.Option.{option_to_list};
ghost use Rattle.aig_circuit.specs.Wellformed.{operands};

use crate::circuit::{Gate, Latch};
use crate::literal::{Lit, Var};

/// The literals that an entry uses, in the order of the file: up to two that it names, and a list.
#[derive(Clone, Copy)]
pub struct Uses<'a> {
    pub first: Option<Lit>,
    pub second: Option<Lit>,
    pub others: &'a [Lit],
}

/// An entry of a section: an input by its variable, a latch, an output by its literal, or a gate.
pub trait Entry {
    ghost defined: { Self → List ℕ };

    ghost used: { Self → List ℕ };

    /// The variable that it defines, if any.
    fn definition(&self) -> Option<Var>
        ensures { option_to_list result ≡ defined self.now };

    /// The literals that it uses.
    fn uses(&self) -> Uses
        ensures { option_to_list result.first ++ (option_to_list result.second ++ result.others.now)
            ≡ used self.now };
}

impl Entry for Var {
    ghost defined = { λ v. v ∷ [] };

    ghost used = { λ _. [] };

    fn definition(&self) -> Option<Var> {
        Some(*self)
    }

    #[inline(always)]
    fn uses(&self) -> Uses {
        Uses {
            first: None,
            second: None,
            others: &[],
        }
    }
}

impl Entry for Latch {
    ghost defined = { λ l. l.var ∷ [] };

    ghost used = { λ l. l.next ∷ [] };

    fn definition(&self) -> Option<Var> {
        Some(self.var)
    }

    #[inline(always)]
    fn uses(&self) -> Uses {
        Uses {
            first: Some(self.next),
            second: None,
            others: &[],
        }
    }
}

impl Entry for Lit {
    ghost defined = { λ _. [] };

    ghost used = { λ l. l ∷ [] };

    fn definition(&self) -> Option<Var> {
        None
    }

    #[inline(always)]
    fn uses(&self) -> Uses {
        Uses {
            first: Some(*self),
            second: None,
            others: &[],
        }
    }
}

impl Entry for Gate {
    ghost defined = { λ g. g.var ∷ [] };

    ghost used = { operands };

    fn definition(&self) -> Option<Var> {
        Some(self.var)
    }

    #[inline(always)]
    fn uses(&self) -> Uses {
        Uses {
            first: Some(self.left),
            second: Some(self.right),
            others: &[],
        }
    }
}
