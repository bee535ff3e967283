//! The lines of a stimulus.
ghost use Rattle.std.specs.Prelude.{◌≡◌, codes};
ghost use Rattle.std.specs.Str.{bytes_eq};
ghost use Rattle.aig_step.specs.Stimulus.{value_of};

use aig_circuit::Val;

/// Whether the text is a line that ends a run.
#[inline(always)]
pub fn is_stop(text: &[u8]) -> bool
    ensures { result ≡ bytes_eq text.now (codes ".") }
{
    text.len() == 1 && text[0] == b'.'
}

/// The value that a character stands for.
pub(crate) fn value_of(character: u8) -> Option<Val>
    ensures { result ≡ value_of character }
{
    match character {
        b'0' => Some(Val::Zero),
        b'1' => Some(Val::One),
        b'x' => Some(Val::X),
        _ => None,
    }
}
