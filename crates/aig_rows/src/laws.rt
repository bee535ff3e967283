//! Laws: facts about the definitions alone, each the contract of a function with an empty body.
ghost use Rattle.aig_rows.specs.Laws.{RowsReadExactly, RowsAreJudged};

/// Left to right, a row's numbers are read exactly where the line holds that row, by the grammar.
pub fn rows_read_exactly()
    ensures { RowsReadExactly }
{}

/// Where a row is due, a line without one is a bad line; of others the row's numbers are judged.
pub fn rows_are_judged()
    ensures { RowsAreJudged }
{}
