//! Laws: facts about the definitions alone, each the contract of a function with an empty body.
ghost use Rattle.aig_text.specs.Laws.{ReadExactly, FaultyOrAccepted};
ghost use Rattle.aig_text.specs.Laws.{TextsAreUnambiguous, CanonicalTextIsAccepted};
ghost use Rattle.aig_text.specs.Laws.{HeadersReadExactly, SymbolsReadExactly};
ghost use Rattle.aig_text.specs.Laws.{CommentsReadExactly, HeadersAreJudged};
ghost use Rattle.aig_text.specs.Laws.{SymbolsAreJudged};

pub use aig_lines::laws::lines_are_the_pieces;
pub use aig_rows::laws::{rows_are_judged, rows_read_exactly};

/// What is read of a text is a circuit exactly where the text is the file of that circuit.
pub fn read_exactly()
    ensures { ReadExactly }
{}

/// A text is the file of a circuit exactly where it has no fault.
pub fn faulty_or_accepted()
    ensures { FaultyOrAccepted }
{}

/// A text is the file of one circuit at most.
pub fn texts_are_unambiguous()
    ensures { TextsAreUnambiguous }
{}

/// The canonical text of a well-formed circuit is its file.
pub fn canonical_text_is_accepted()
    ensures { CanonicalTextIsAccepted }
{}

/// From left to right a first word and the numbers of a header are read exactly where the line is a
/// header that holds them.
pub fn headers_read_exactly()
    ensures { HeadersReadExactly }
{}

/// From left to right a symbol is read exactly where the line names it.
pub fn symbols_read_exactly()
    ensures { SymbolsReadExactly }
{}

/// From left to right a line is read as the line `c` exactly where it is that line.
pub fn comments_read_exactly()
    ensures { CommentsReadExactly }
{}

/// Where a header is due, a line with another first word is of no such file, one without the
/// numbers of a header has a bad header, and of any other the numbers alone are judged.
pub fn headers_are_judged()
    ensures { HeadersAreJudged }
{}

/// Where a symbol is due, a line that names none is a bad symbol line, and of any other what it
/// names is judged.
pub fn symbols_are_judged()
    ensures { SymbolsAreJudged }
{}
