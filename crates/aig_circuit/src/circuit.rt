//! Circuits as AIGER files hold them (AIGER report; the largest index is this project's profile).
use crate::listing::Listing;
use crate::literal::{Lit, Var};
use crate::symbols::Symbols;

/// The largest variable index, and the largest count of anything that a circuit lists: 2^31 - 1, so
/// that each literal fits into 32 bits.
pub const LARGEST: u32 = 2_147_483_647;

/// What a latch starts at (AIGER 1.9).
#[derive(Clone, Copy, PartialEq)]
pub enum Reset {
    /// It starts at 0, as every latch did before version 1.9.
    Zero,
    /// It starts at 1.
    One,
    /// It is uninitialised: it may start at either.
    Uninit,
}

/// A latch: a variable that holds its state, the literal whose value it takes in the next step, and
/// what it starts at.
#[derive(Clone, Copy, PartialEq)]
pub struct Latch {
    /// The variable that holds the state.
    pub var: Var,
    /// The literal of the next state.
    pub next: Lit,
    /// What the state is in the first step.
    pub reset: Reset,
}

/// An AND gate: the variable that it defines, and its two operands in the order of the file.
#[derive(Clone, Copy, PartialEq)]
pub struct Gate {
    /// The variable that the gate defines.
    pub var: Var,
    /// The first operand.
    pub left: Lit,
    /// The second operand.
    pub right: Lit,
}

/// What a symbol names.
#[derive(Clone, Copy, PartialEq)]
pub enum Kind {
    /// An input.
    Input,
    /// A latch.
    Latch,
    /// An output.
    Output,
    /// A bad state.
    Bad,
    /// An invariant constraint.
    Constraint,
    /// A justice property.
    Justice,
    /// A fairness constraint.
    Fairness,
}

/// The name of what stands at a position among its kind, counted from 0. To contracts a circuit's
/// symbols are a list of these; the circuit itself keeps the lines of all in one list of bytes
/// (`Symbols`).
#[derive(Clone, PartialEq, Drop)]
pub struct Symbol {
    /// What it names.
    pub kind: Kind,
    /// Which of these, counted from 0 in the order of the file.
    pub position: u32,
    /// The bytes of the name. A line feed among them is against the form of a circuit.
    pub name: Listing<u8>,
}

/// The justice properties (AIGER 1.9): each is a list of literals. The literals of all properties
/// stand in one list, one property after the other, and the sizes tell where each ends.
#[derive(Clone, PartialEq, Drop)]
pub struct Justice {
    /// How many literals each property has.
    pub sizes: Listing<u32>,
    /// The literals of all properties.
    pub literals: Listing<Lit>,
}

/// What an AIGER file says, in the order of the file. A circuit may hold anything: `in_form` and
/// `check` check it.
#[derive(Clone, PartialEq, Drop)]
pub struct Circuit {
    /// The largest variable index; indices up to it may be unused.
    pub max_var: u32,
    /// The variable of each input.
    pub inputs: Listing<Var>,
    /// The latches.
    pub latches: Listing<Latch>,
    /// The literal of each output.
    pub outputs: Listing<Lit>,
    /// The literal of each bad state: one that is not to be reached (AIGER 1.9).
    pub bad: Listing<Lit>,
    /// The literal of each invariant constraint: only runs where it always holds count (AIGER 1.9).
    pub constraints: Listing<Lit>,
    /// The justice properties.
    pub justice: Justice,
    /// The literal of each fairness constraint (AIGER 1.9).
    pub fairness: Listing<Lit>,
    /// The AND gates; one may stand before those that it uses.
    pub gates: Listing<Gate>,
    /// The names of inputs, latches, outputs and the rest.
    pub symbols: Symbols,
    /// The bytes of the comment section, perhaps none; `None` where there is no such section.
    pub comment: Option<Listing<u8>>,
}
