//! How many of each kind a circuit has, as its header in an AIGER file has it, and how many words
//! and bytes hold it.
ghost use Rattle.std.specs.Prelude.{◌≡◌, ◌^◌, ◌<◌};
ghost use Rattle.aig_arrays.specs.Decoded.{are_in_range};
ghost use Rattle.aig_arrays.specs.Words.{section_length, words_length};

use aig_core::LARGEST;

/// What a circuit has, counted. C has the same struct.
#[repr(C)]
#[derive(Clone, Copy, Debug, PartialEq, Eq)]
pub struct Counts {
    /// The largest variable index.
    pub max_var: u32,
    /// Inputs.
    pub inputs: u32,
    /// Latches.
    pub latches: u32,
    /// Outputs.
    pub outputs: u32,
    /// Bad states.
    pub bad: u32,
    /// Invariant constraints.
    pub constraints: u32,
    /// Justice properties.
    pub justice: u32,
    /// The literals of all justice properties.
    pub justice_literals: u32,
    /// Fairness constraints.
    pub fairness: u32,
    /// AND gates.
    pub gates: u32,
    /// Symbols.
    pub symbols: u32,
    /// 1 where there is a comment section, perhaps an empty one, and else 0.
    pub has_comment: u32,
    /// The bytes of all names.
    pub name_bytes: u64,
    /// The bytes of the comment.
    pub comment_bytes: u64,
}

impl Counts {
    /// How many words hold all entries but the symbols.
    pub fn section_words(&self) -> u64
        ensures value { result ≡ section_length self.now }
        ensures small { result < 2 ^ 36 }
    {
        u64::from(self.inputs)
            + 3 * u64::from(self.latches)
            + u64::from(self.outputs)
            + u64::from(self.bad)
            + u64::from(self.constraints)
            + u64::from(self.justice)
            + u64::from(self.justice_literals)
            + u64::from(self.fairness)
            + 3 * u64::from(self.gates)
    }

    /// How many words hold all entries.
    pub fn words(&self) -> u64
        ensures value { result ≡ words_length self.now }
        ensures small { result < 2 ^ 37 }
    {
        self.section_words() + 4 * u64::from(self.symbols)
    }

    /// Whether none is above the largest index, and only a comment has bytes of a comment.
    pub fn is_in_range(&self) -> bool
        ensures { result ≡ are_in_range self.now }
    {
        self.max_var <= LARGEST
            && self.inputs <= LARGEST
            && self.latches <= LARGEST
            && self.outputs <= LARGEST
            && self.bad <= LARGEST
            && self.constraints <= LARGEST
            && self.justice <= LARGEST
            && self.justice_literals <= LARGEST
            && self.fairness <= LARGEST
            && self.gates <= LARGEST
            && self.has_comment <= 1
            && (self.has_comment == 1 || self.comment_bytes == 0)
    }
}
