//! Laws: facts about the definitions alone, each the contract of a function with an empty body.
ghost use Rattle.std.specs.Prelude.{◌≡◌, ◌++◌, ℕ, Bool, List};
ghost use Rattle.aig_lines.specs.Feeding.{Feeding, ended_if, fold_bytes, feeding, outcome};
ghost use Rattle.aig_lines.specs.Feeding.{fold_lines};
ghost use Rattle.aig_lines.specs.Texts.{judged_lines};
ghost use Rattle.aig_lines.specs.Laws.{LinesAreThePieces};

use crate::feeder::LineTaker;

/// The lines of a text, joined, are the text; each but maybe the last has its line feed at its end.
pub fn lines_are_the_pieces()
    ensures { LinesAreThePieces }
{}

/// It makes no difference where bytes are cut.
pub fn fold_in_pieces<T: LineTaker>()
    ensures { (f : Feeding T.State) (a b : List ℕ) →
        fold_bytes T.step f (a ++ b) ≡ fold_bytes T.step (fold_bytes T.step f a) b }
{}

/// To feed bytes is to tell their lines, up to the first that is refused: all where the bytes are
/// over, and else the whole ones.
pub fn fold_bytes_is_fold_lines<T: LineTaker>()
    ensures { (limit : ℕ) (s : T.State) (bytes : List ℕ) (over : Bool)
        → outcome (ended_if T.step over (fold_bytes T.step (feeding limit s) bytes))
        ≡ fold_lines T.step limit s 1 (judged_lines bytes over) }
{}
