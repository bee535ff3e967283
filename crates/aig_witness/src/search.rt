//! The search for the first step that confirms what a witness file claims.
ghost use Rattle.std.specs.Prelude.{◌≡◌, ◌-◌, ◌^◌, ◌<◌};
ghost use Rattle.aig_witness.specs.Parts.Witnessing.{looked, verdict_of};

use crate::verdict::Verdict;
use aig_circuit::Lit;

/// What is looked for, and what was found so far.
#[derive(Clone, Copy)]
pub(crate) struct StepSearch {
    /// The literal of the bad state; FALSE until one is named.
    pub(crate) literal: Lit,
    /// How many steps were looked at.
    pub(crate) steps: u64,
    /// Whether all constraints were 1 in each of them.
    pub(crate) holds: bool,
    /// The first step that confirms the claim, if there was one.
    pub(crate) found: Option<u64>,
}

impl StepSearch {
    /// Looks at one more step: whether the bad state is 1 there, and whether all constraints are.
    pub(crate) fn look(&mut self, is_bad: bool, hold: bool)
        requires { self.old.steps < 2 ^ 64 - 1 }
        ensures { self.new ≡ looked self.old is_bad hold }
    {
        self.holds = self.holds && hold;
        if self.found.is_none() && self.holds && is_bad {
            self.found = Some(self.steps);
        }
        self.steps += 1;
    }

    /// What the steps come to.
    pub(crate) fn verdict(&self) -> Verdict
        ensures { result ≡ verdict_of self.now.found }
    {
        match self.found {
            Some(at) => Verdict::Confirmed(at),
            None => Verdict::NotConfirmed,
        }
    }
}
