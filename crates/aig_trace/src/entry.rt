//! Which lines of a stimulus are good.
ghost use Rattle.std.specs.Prelude.{◌≡◌, is_some};
ghost use Rattle.aig_step.specs.Stimulus.{entry_in, value_of, values_of};
ghost use Rattle.aig_step.specs.Parts.Lines.{vector_in};

use aig_step::is_stop;

/// Whether the character stands for a value.
#[inline(always)]
fn is_value(character: u8) -> bool
    ensures { result ≡ is_some (value_of character) }
{
    (character == b'0') | (character == b'1') | (character == b'x')
}

/// Whether each character stands for a value. All are looked at, with no branch at any of them.
fn are_values(text: &[u8]) -> bool
    ensures { result ≡ is_some (values_of text.now) }
{
    let mut all = true;
    for character in text {
        all &= is_value(*character);
    }
    all
}

/// Whether the text says the inputs of a step, where the circuit has so many.
#[inline(always)]
pub(crate) fn is_vector(inputs: usize, text: &[u8]) -> bool
    ensures { result ≡ is_some (vector_in inputs text.now) }
{
    text.len() == inputs && are_values(text)
}

/// Whether the text says a step or the end of a run, where the circuit has so many inputs.
#[inline(always)]
pub fn is_entry(inputs: usize, text: &[u8]) -> bool
    ensures { result ≡ is_some (entry_in inputs text.now) }
{
    if is_stop(text) {
        return true;
    }
    is_vector(inputs, text)
}
