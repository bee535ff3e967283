//! What is found of a witness file, of either kind.
use aig_lasso::LassoVerdict;
use aig_witness::Verdict;

/// What a witness file that is well formed comes to.
#[derive(Clone, Copy, Debug, PartialEq)]
pub enum WitnessVerdict {
    /// It names a bad state.
    BadState(Verdict),
    /// It names a justice property.
    Justice(LassoVerdict),
}
