//! How a gate is written.
use aig_circuit::Lit;

/// What a multiplexer chooses between.
#[derive(Clone, Copy)]
pub struct Multiplexer {
    /// What decides.
    pub selector: Lit,
    /// What is chosen where that is 1.
    pub if_one: Lit,
    /// What is chosen where it is 0.
    pub if_zero: Lit,
}

/// How a gate is written.
#[derive(Clone, Copy)]
pub enum Cut {
    /// By its three clauses.
    Plain,
    /// Not at all: it is one of two of which a choice is made.
    Inner,
    /// By the four clauses of what it is, the negation of a multiplexer.
    Choice(Multiplexer),
}
