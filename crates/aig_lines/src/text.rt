//! The text of a line.
ghost use Rattle.std.specs.Prelude.{◌≡◌};
ghost use Rattle.aig_lines.specs.Texts.{without_return};

/// The text without a carriage return at its end.
#[inline(always)]
pub fn without_return(text: &[u8]) -> &[u8]
    ensures { result.now ≡ without_return text.now }
{
    let len = text.len();
    if len > 0 && text[len - 1] == b'\r' {
        let (front, _) = text.split_at(len - 1);
        return front;
    }
    text
}
