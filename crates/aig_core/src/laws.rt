//! Laws: facts about the definitions alone, each the contract of a function with an empty body.
ghost use Rattle.aig_core.specs.Laws.{FaultlessIsWellFormed, DefinitionsFit, WellFormedIsInForm};
ghost use Rattle.aig_core.specs.Laws.{JusticeIsOfLists, ListsAreJustice};
ghost use Rattle.aig_core.specs.Laws.{GatesHaveAnOrder, GatesHaveOneOrder};
ghost use Rattle.aig_core.specs.Laws.{RankExactlyWhereAllAreOrdered, OrderedExactlyWhereItEnds};
ghost use Rattle.aig_core.specs.Laws.{RepeatsAreFound, NoneRepeatsWhereDistinct};
ghost use Rattle.aig_core.specs.Laws.{UnknownsAreFound, NoneUnknownWhereAllKnown};
ghost use Rattle.aig_core.specs.Laws.{RedefinedExactly, UndefinedExactly};
ghost use Rattle.aig_core.specs.Laws.{CyclicExactly, CycleExactlyWhereNoRank};

pub use aig_circuit::laws::largest_is_the_largest_index;
pub use aig_io::laws::room_is_the_block_size;

/// A circuit in form is well formed exactly where the check finds no fault.
#[tactic(auto, using(crate::proofs::Checking::Faultless::faultless_is_well_formed))]
pub fn faultless_is_well_formed()
    ensures { FaultlessIsWellFormed }
{}

/// A well-formed circuit defines at most as many variables as its largest index.
#[tactic(auto, using(aig_circuit::proofs::Checking::definitions_fit))]
pub fn definitions_fit()
    ensures { DefinitionsFit }
{}

/// A well-formed circuit keeps to its form, so each of its literals is in range.
#[tactic(auto, using(aig_circuit::proofs::Checking::well_formed_in_form))]
pub fn well_formed_is_in_form()
    ensures { WellFormedIsInForm }
{}

/// Justice properties whose sizes are those of the literals that there are, are the same as a list
/// of lists of literals.
pub fn justice_is_a_list_of_lists()
    ensures of_lists { JusticeIsOfLists }
    ensures of_justice { ListsAreJustice }
{}

/// The gates of a circuit have exactly one least ready order.
pub fn gates_have_one_order()
    ensures an_order { GatesHaveAnOrder }
    ensures one { GatesHaveOneOrder }
{}

/// Where each variable is defined once, gates have a rank exactly where the least ready order has
/// every gate.
#[tactic(auto, using(aig_topo::proofs::Ordering::Ranked::rank_exactly_where_all_are_ordered))]
pub fn rank_exactly_where_all_are_ordered()
    ensures { RankExactlyWhereAllAreOrdered }
{}

/// A gate is in the least ready order exactly where it does not depend on a cycle.
#[tactic(auto, using(aig_topo::proofs::Ordering::Cyclic::ordered_exactly_where_it_ends))]
pub fn ordered_exactly_where_it_ends()
    ensures { OrderedExactlyWhereItEnds }
{}

/// The first repeat of a list is the first number that stands before itself too. There is none
/// exactly where no number stands twice.
pub fn repeats_are_found()
    ensures some { RepeatsAreFound }
    ensures none { NoneRepeatsWhereDistinct }
{}

/// The first unknown literal of a list is the first that is no constant and over none of the
/// variables. There is none exactly where each is known.
pub fn unknowns_are_found()
    ensures some { UnknownsAreFound }
    ensures none { NoneUnknownWhereAllKnown }
{}

/// The first fault of a circuit is the first variable that is defined twice, else the first literal
/// that is used and not defined, else the gate of least position that the least ready order leaves
/// out.
pub fn faults_are_reported_exactly()
    ensures redefined { RedefinedExactly }
    ensures undefined { UndefinedExactly }
    ensures cyclic { CyclicExactly }
{}

/// The first fault of a circuit is a cycle exactly where each variable is defined once, each used
/// literal is known, and the gates have no rank.
#[tactic(auto, using(crate::proofs::Checking::Reported::cycle_exactly_where_no_rank))]
pub fn cycle_exactly_where_no_rank()
    ensures { CycleExactlyWhereNoRank }
{}
