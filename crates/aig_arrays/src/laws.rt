//! Laws: facts about the definitions alone, each the contract of a function with an empty body.
ghost use Rattle.aig_arrays.specs.Laws.{NumbersAreTheMaps};
ghost use Rattle.aig_arrays.specs.Laws.{WhatIsDecodedHasTheWords, WordsTellTheCircuit};

/// The words and the bytes of a well-formed circuit tell it.
pub fn words_tell_the_circuit()
    ensures { WordsTellTheCircuit }
{}

/// What words and bytes tell is well formed, and has these words and bytes, and no others.
pub fn what_is_decoded_has_the_words()
    ensures { WhatIsDecodedHasTheWords }
{}

/// The new numbers are those that a map records.
pub fn numbers_are_the_maps()
    ensures { NumbersAreTheMaps }
{}
