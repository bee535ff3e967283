//! Laws: facts about the definitions alone, each the contract of a function with an empty body.
ghost use Rattle.aig_cnf.specs.Laws.{ClausesAreSteps, CnfTextsAreRead, StepsAreSatisfied};

/// The assignments that satisfy the clauses of a circuit's step are exactly its step assignments
/// without x.
#[tactic(auto, using(crate::proofs::Steps::clauses_are_steps))]
pub fn clauses_are_steps()
    ensures { ClausesAreSteps }
{}

/// Each state and each vector of inputs without x have one, where the circuit is well formed.
#[tactic(auto, using(crate::proofs::Existing::steps_are_satisfied))]
pub fn steps_are_satisfied()
    ensures { StepsAreSatisfied }
{}

/// The DIMACS text says its clauses and no others.
#[tactic(auto, using(crate::proofs::CnfTexts::cnf_texts_are_read))]
pub fn cnf_texts_are_read()
    ensures { CnfTextsAreRead }
{}
