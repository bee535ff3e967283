//! What a map block records.
use aig_core::{Listing, Var};

/// What a map block records of a gate; it has the gates in the order of the source file.
#[derive(Clone, Copy)]
pub struct MappedGate {
    /// The variable that it has there.
    pub var: Var,
    /// Its place in the image, counted from 0.
    pub place: u32,
    /// Whether its operands changed places.
    pub exchanged: bool,
}

/// What the first line of a map block tells after its word and its version.
#[derive(Clone, Copy)]
pub(crate) struct FirstLine {
    /// The largest variable index of the source.
    pub max_var: u64,
    /// How many inputs the source has.
    pub inputs: u64,
    /// How many latches.
    pub latches: u64,
    /// How many gates.
    pub gates: u64,
    /// Whether it had a comment section.
    pub has_comment: bool,
}

/// A map block: what the source had of all that a conversion to binary changes.
#[derive(Drop)]
pub struct MapBlock {
    /// The largest variable index of the source.
    pub max_var: u32,
    /// The variables of its inputs.
    pub inputs: Listing<Var>,
    /// The variables of its latches.
    pub latches: Listing<Var>,
    /// Its gates.
    pub gates: Listing<MappedGate>,
    /// Whether it had a comment section.
    pub has_comment: bool,
}
