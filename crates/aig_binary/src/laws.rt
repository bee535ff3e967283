//! Laws: facts about the definitions alone, each the contract of a function with an empty body.
ghost use Rattle.aig_binary.specs.Laws.{ShortestIsDelta, ShortestIsOne};
ghost use Rattle.aig_binary.specs.Laws.{DeltasAreUnambiguous, DeltasAreReadExactly};
ghost use Rattle.aig_binary.specs.FileLaws.{BinaryReadExactly, BinaryFaultyOrAccepted};
ghost use Rattle.aig_binary.specs.FileLaws.{BinaryTextsAreUnambiguous, FilesAreReadOrRefused};
ghost use Rattle.aig_binary.specs.FileLaws.{CanonicalBinaryIsAccepted};

/// The shortest spelling of a number below 2^32 is one of its spellings, and none could be shorter.
pub fn shortest_is_delta()
    ensures { ShortestIsDelta }
{}

/// A number has no other shortest spelling.
#[tactic(auto, using(crate::proofs::Deltas::Shortest::shortest_is_one))]
pub fn shortest_is_one()
    ensures { ShortestIsOne }
{}

/// One front of bytes spells a number at most, and it spells one number.
pub fn deltas_are_unambiguous()
    ensures { DeltasAreUnambiguous }
{}

/// What is read at the front of bytes is exactly the number that is spelled there.
pub fn deltas_are_read_exactly()
    ensures { DeltasAreReadExactly }
{}

/// What is read of a text is a circuit exactly where the text is the binary file of that circuit.
pub fn binary_read_exactly()
    ensures { BinaryReadExactly }
{}

/// A text is the binary file of a circuit exactly where it has no fault.
pub fn binary_faulty_or_accepted()
    ensures { BinaryFaultyOrAccepted }
{}

/// A text is read as a circuit, or is refused with a fault.
#[tactic(auto, using(crate::proofs::Refusals::file_refuses))]
pub fn files_are_read_or_refused()
    ensures { FilesAreReadOrRefused }
{}

/// A text is the binary file of one circuit at most.
pub fn binary_texts_are_unambiguous()
    ensures { BinaryTextsAreUnambiguous }
{}

/// The canonical binary text of a well-formed circuit in binary order is its file.
pub fn canonical_binary_is_accepted()
    ensures { CanonicalBinaryIsAccepted }
{}
