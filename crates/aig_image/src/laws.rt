//! Laws: facts about the definitions alone, each the contract of a function with an empty body.
ghost use Rattle.aig_image.specs.Laws.{RenumberingIsOneToOne, OrderedGatesAreTakenAsTheyStand};
ghost use Rattle.aig_image.specs.Laws.{ImageIsOrdered, ImageIsOne, OrderedIsItsOwnImage};
ghost use Rattle.aig_image.specs.Laws.{RenamedMeansTheSame, ImageAssignsTheSame};
ghost use Rattle.aig_image.specs.Laws.{ImageMeansTheSame, ImageKeepsTraces};

/// Renumbering is one to one from the variables that a well-formed circuit defines onto the numbers
/// from 1 up to the count of its inputs, latches and gates.
#[tactic(auto, using(crate::proofs::Imaging::InTurn::one_to_one))]
pub fn renumbering_is_one_to_one()
    ensures { RenumberingIsOneToOne }
{}

/// The gates of a circuit in binary order are taken as they stand: their least ready order is 0, 1,
/// 2 and so on.
pub fn ordered_gates_are_taken_as_they_stand()
    ensures { OrderedGatesAreTakenAsTheyStand }
{}

/// The binary image of a well-formed circuit is well formed and in binary order.
pub fn image_is_ordered()
    ensures { ImageIsOrdered }
{}

/// A well-formed circuit has exactly one binary image.
pub fn image_is_one()
    ensures { ImageIsOne }
{}

/// A well-formed circuit in binary order is its own binary image.
#[tactic(auto, using(crate::proofs::Imaging::OwnImage::own_image))]
pub fn ordered_is_its_own_image()
    ensures { OrderedIsItsOwnImage }
{}

/// A circuit by other variables, with its gates in another order and the operands of each in
/// either, means the same.
#[tactic(auto, using(crate::proofs::Meaning::renamed_means_the_same))]
pub fn renamed_means_the_same()
    ensures { RenamedMeansTheSame }
{}

/// Values of the variables of the binary image that meet its equations are, by the numbers that the
/// variables of the circuit got, values that meet the circuit's.
pub fn image_assigns_the_same()
    ensures { ImageAssignsTheSame }
{}

/// The binary image of a well-formed circuit means the same as the circuit.
pub fn image_means_the_same()
    ensures { ImageMeansTheSame }
{}

/// The binary image of a well-formed circuit has exactly the circuit's traces.
pub fn image_keeps_traces()
    ensures { ImageKeepsTraces }
{}
