//! Laws: facts about the definitions alone, each the contract of a function with an empty body.
ghost use Rattle.aig_convert.specs.Laws.{BlocksAreReadExactly, MappedImageIsOne, UndoingRecovers};
ghost use Rattle.aig_convert.specs.Laws.{OnlyMappedImagesAreUndone};
ghost use Rattle.aig_convert.specs.Laws.{MappedImageMeansTheSame, MappedImageKeepsTraces};
ghost use Rattle.aig_convert.specs.Laws.{UndoneMeansTheSame, UndoneKeepsTraces};

pub use aig_image::laws::{
    image_assigns_the_same, image_is_one, image_is_ordered, image_keeps_traces,
    image_means_the_same, ordered_gates_are_taken_as_they_stand, ordered_is_its_own_image,
    renamed_means_the_same, renumbering_is_one_to_one,
};

/// A well-formed circuit has exactly one mapped image, which is well formed and in binary order.
#[tactic(auto, using(aig_map::proofs::Mapping::mapped_image_is_one))]
pub fn mapped_image_is_one()
    ensures { MappedImageIsOne }
{}

/// Undoing a circuit's mapped image gives the circuit, and no other.
pub fn undoing_recovers()
    ensures { UndoingRecovers }
{}

/// What a circuit is undone from is its mapped image, and no two well-formed circuits have one
/// mapped image.
pub fn only_mapped_images_are_undone()
    ensures { OnlyMappedImagesAreUndone }
{}

/// A map block is read of a circuit exactly if its text stands at the front of the circuit's
/// comment, its numbers are within bounds, and its counts are those of the circuit.
pub fn blocks_are_read_exactly()
    ensures { BlocksAreReadExactly }
{}

/// The mapped image of a well-formed circuit means the same as the circuit.
pub fn mapped_image_means_the_same()
    ensures { MappedImageMeansTheSame }
{}

/// The mapped image of a well-formed circuit has exactly the circuit's traces.
pub fn mapped_image_keeps_traces()
    ensures { MappedImageKeepsTraces }
{}

/// The circuit that is undone means the same as the one from which it is undone.
pub fn undone_means_the_same()
    ensures { UndoneMeansTheSame }
{}

/// The circuit that is undone has exactly the traces of the one from which it is undone.
pub fn undone_keeps_traces()
    ensures { UndoneKeepsTraces }
{}
