//! What the numbers of outcomes say, and arrays that are read and written. Each law is a function
//! that does nothing.
ghost use Rattle.aig_library.specs.ArrayLaws.{OrderedArraysAreConverted};
ghost use Rattle.aig_library.specs.ArrayLaws.{OrderedArraysCanBeStepped};
ghost use Rattle.aig_library.specs.ArrayLaws.{ReadAndWrittenIsConverted};
ghost use Rattle.aig_library.specs.ArrayLaws.{WrittenArraysAreReadAgain};
ghost use Rattle.aig_library.specs.Laws.{ConstantsAreTheNumbers};
ghost use Rattle.aig_library.specs.Message.{MessagesTellFaults};

/// The statuses, places and options are the numbers of the header.
pub fn constants_are_the_numbers()
    ensures { ConstantsAreTheNumbers }
{}

/// The words for the outcome of a fault are those in which the program reports it.
pub fn messages_tell_faults()
    ensures { MessagesTellFaults }
{}

/// Exactly the arrays that an ASCII text was written of are read of it again.
pub fn written_arrays_are_read_again()
    ensures { WrittenArraysAreReadAgain }
{}

/// What is written of the arrays of a file is exactly what `convert` writes of that file.
pub fn read_and_written_is_converted()
    ensures { ReadAndWrittenIsConverted }
{}

/// Arrays that are read in order are those of the image that `convert` writes.
pub fn ordered_arrays_are_converted()
    ensures { OrderedArraysAreConverted }
{}

/// Arrays that are read in order can be stepped.
pub fn ordered_arrays_can_be_stepped()
    ensures { OrderedArraysCanBeStepped }
{}
