//! Laws: facts about the definitions alone, each the contract of a function with an empty body.
ghost use Rattle.aig_select.specs.Laws.{OneSelection, SelectionHasNoOthers, SelectionHasTheTraces};
ghost use Rattle.aig_select.specs.Laws.{SelectionIsItsCone, SelectionIsWellFormed, SelectionKeepsGoals};

/// A circuit has one selection by a choice.
pub fn one_selection()
    ensures { OneSelection }
{}

/// It is well formed where the circuit is.
pub fn selection_is_well_formed()
    ensures { SelectionIsWellFormed }
{}

/// Each of its inputs, latches and gates is in the cone of what it shows.
pub fn selection_is_its_cone()
    ensures { SelectionIsItsCone }
{}

/// Each trace of the circuit is, of what stays, one of the selection.
pub fn selection_has_the_traces()
    ensures { SelectionHasTheTraces }
{}

/// And each trace of the selection is so one of the circuit's.
pub fn selection_has_no_others()
    ensures { SelectionHasNoOthers }
{}

/// The justice properties and fairness constraints that stay have the values that they had.
pub fn selection_keeps_goals()
    ensures { SelectionKeepsGoals }
{}
