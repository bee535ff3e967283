//! Laws: facts about the definitions alone, each the contract of a function with an empty body.
ghost use Rattle.aig_dot.specs.Laws.{EachGateHasItsOperands, OneText, PictureHasTheGates};
ghost use Rattle.aig_dot.specs.Laws.{WholePictureHasAllGates};

/// The gates of a picture are those of the cone, each once.
pub fn picture_has_the_gates()
    ensures { PictureHasTheGates }
{}

/// A picture of a whole circuit has all its gates.
pub fn whole_picture_has_all_gates()
    ensures { WholePictureHasAllGates }
{}

/// Each gate of a picture has two arrows, from its operands.
pub fn each_gate_has_its_operands()
    ensures { EachGateHasItsOperands }
{}

/// A subject has one text.
pub fn one_text()
    ensures { OneText }
{}
