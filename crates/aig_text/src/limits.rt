//! What a reader accepts at most (this project's profile).
ghost use Rattle.std.specs.Prelude.{◌≡◌};
ghost use Rattle.aig_circuit.specs.Wellformed.{largest_index};

use aig_core::LARGEST;

/// How large the largest variable index and each count of a file may be.
#[derive(Clone, Copy, Debug, PartialEq, Eq)]
pub struct Limits {
    /// None of them is above this, nor above the largest index that a circuit may have.
    pub max_var: u32,
}

/// As large as those of any circuit may be: 2147483647.
impl Default for Limits {
    ghost is_default = { λ limits. limits.max_var ≡ largest_index };

    fn default() -> Limits {
        Limits { max_var: LARGEST }
    }
}
