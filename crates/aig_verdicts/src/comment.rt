//! Comment lines of a witness file.
ghost use Rattle.std.specs.Prelude.{◌≡◌};
ghost use Rattle.aig_verdicts.specs.Comments.{begins_with, is_comment};

/// How many bytes a comment line has at most, without its line end.
pub const LONGEST_COMMENT: usize = 65536;

/// Whether the text begins with this letter.
pub(crate) fn begins_with(letter: u8, text: &[u8]) -> bool
    ensures { result ≡ begins_with letter text.now }
{
    match text {
        [first, ..] => *first == letter,
        _ => false,
    }
}

/// Whether a line of this text is a comment.
pub fn is_comment(text: &[u8]) -> bool
    ensures { result ≡ is_comment text.now }
{
    begins_with(b'c', text) && text.len() <= LONGEST_COMMENT
}
