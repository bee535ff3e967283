//! What is found of a witness file.

/// What a witness file that is well formed comes to.
#[derive(Clone, Copy, Debug, PartialEq)]
pub enum Verdict {
    /// At the step of this number, counted from 0, the bad state is 1, and all constraints are 1
    /// there and in each step before; it is the first such step.
    Confirmed(u64),
    /// There is no such step.
    NotConfirmed,
}
