//! Laws: facts about the definitions alone, each the contract of a function with an empty body.
ghost use Rattle.aig_pairing.specs.Laws.{NamesAreOfSymbols, OrderedIsWellFormed, RowsAreOrdered};
ghost use Rattle.aig_pairing.specs.Laws.{RowsStandByName, TracesAreOrdered, ValuesStandByName};

/// The names of a well-formed circuit are those that its symbols give.
pub fn names_are_of_symbols()
    ensures { NamesAreOfSymbols }
{}

/// A well-formed circuit that is ordered by names is well formed.
pub fn ordered_is_well_formed()
    ensures { OrderedIsWellFormed }
{}

/// It has as many inputs, outputs and bad states as the circuit that names them, and at each place
/// what had the name that stands there.
pub fn values_stand_by_name()
    ensures { ValuesStandByName }
{}

/// Its rows are those of the circuit that was ordered, each in the other order.
pub fn rows_are_ordered()
    ensures { RowsAreOrdered }
{}

/// A row in the other order has at each place the value that had the name that stands there.
pub fn rows_stand_by_name()
    ensures { RowsStandByName }
{}

/// Its traces are those of the circuit that was ordered, each row in the other order.
pub fn traces_are_ordered()
    ensures { TracesAreOrdered }
{}
