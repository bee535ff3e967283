//! Laws: facts about the definitions alone, each the contract of a function with an empty body.
ghost use Rattle.aig_circuit.specs.Laws.{LargestIsTheLargestIndex};

/// `LARGEST`, which contracts and definitions cite, is the largest index that a file may have.
pub fn largest_is_the_largest_index()
    ensures { LargestIsTheLargestIndex }
{}
