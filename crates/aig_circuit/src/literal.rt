//! Variables and literals (AIGER report).
ghost use Rattle.std.specs.Prelude.{◌≡◌, ◌↔◌, decimal, IsTrue, Some};
ghost use Rattle.aig_circuit.specs.Literal.{variable_of, IsNegated, negation_of};

use std::fmt;
use std::marker::Model;

/// A variable, by its index. Index 0 belongs to the constants and is never defined.
#[derive(Clone, Copy, Debug, PartialEq, Eq, PartialOrd, Ord)]
pub struct Var(pub u32);

impl Model for Var {
    ghost use Rattle.std.specs.Prelude.{ℕ};

    ghost Value = { ℕ };

    ghost view = { λ v. v.0 };

    ghost inverse = { λ n. record { 0 = n } };
}

/// A literal: twice a variable's index, plus one where it is negated. 0 is FALSE, 1 is TRUE.
#[derive(Clone, Copy, Debug, PartialEq, Eq)]
pub struct Lit(pub u32);

impl Model for Lit {
    ghost use Rattle.std.specs.Prelude.{ℕ};

    ghost Value = { ℕ };

    ghost view = { λ v. v.0 };

    ghost inverse = { λ n. record { 0 = n } };
}

impl fmt::Display for Var {
    ghost output = { λ variable. Some (decimal variable) };

    fn fmt<W: fmt::Write>(&self, f: &mut fmt::Formatter<W>) -> fmt::Result {
        write!(f, "{}", self.0)
    }
}

impl fmt::Display for Lit {
    ghost output = { λ literal. Some (decimal literal) };

    fn fmt<W: fmt::Write>(&self, f: &mut fmt::Formatter<W>) -> fmt::Result {
        write!(f, "{}", self.0)
    }
}

impl Lit {
    /// The variable that the literal is over.
    pub fn var(self) -> Var
        ensures { result ≡ variable_of self }
    {
        Var(self.0 / 2)
    }

    /// Whether the literal is the negation of its variable.
    pub fn is_negated(self) -> bool
        ensures { IsTrue result ↔ IsNegated self }
    {
        self.0 % 2 == 1
    }

    /// The negation of the literal.
    pub fn negated(self) -> Lit
        ensures { result ≡ negation_of self }
    {
        Lit(self.0 ^ 1)
    }
}
