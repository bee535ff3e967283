//! The text of a variable, from which those of its literals are copied.
ghost use Rattle.std.specs.Prelude.{◌≡◌, ◌+◌, ◌≤◌, ◌++◌, length, take};
ghost use Rattle.aig_circuit.specs.Literal.{variable_of};
ghost use Rattle.aig_cnf.specs.ClauseText.{literal_text};
ghost use Rattle.aig_cnf.specs.VariableTexts.{IsBlank, IsVariableText};
ghost use Rattle.aig_cnf.specs.declared.variable_text.TheConstants.{LITERAL_SIZE};

use aig_core::Lit;

/// How many bytes are copied for a literal: its text has fewer, and what comes next is written over
/// the others. So many are one store.
pub(crate) const LITERAL_SIZE: usize = 16;

/// Where the digits of a variable's number end: there is room for a sign and the most digits.
const END: usize = 11;

/// The text of a variable's negated literal. That of the other one is the same without the sign.
#[derive(Drop)]
pub(crate) struct VariableText {
    bytes: [u8; 2 * LITERAL_SIZE],
    from: usize,
}

impl VariableText {
    /// That of no variable yet.
    #[inline(always)]
    pub(crate) fn blank() -> Self
        ensures { IsBlank result }
    {
        VariableText {
            bytes: [b' '; 2 * LITERAL_SIZE],
            from: END,
        }
    }

    /// Makes it that of a variable. It should stay where it is from then on: to copy what was
    /// written byte by byte takes long.
    #[inline(always)]
    pub(crate) fn set(&mut self, variable: u32)
        requires { IsBlank self.old }
        ensures { IsVariableText variable self.new }
    {
        let start = itoa::write_digits(u64::from(variable) + 1, &mut self.bytes, END);
        self.from = start - 1;
        self.bytes[start - 1] = b'-';
    }

    /// Writes a literal of the variable from a place on, and answers where it ends.
    #[inline(always)]
    pub(crate) fn write_literal(&self, line: &mut [u8], at: usize, literal: Lit) -> usize
        requires own { IsVariableText (variable_of literal) self.now }
        requires room { at + LITERAL_SIZE ≤ length line.old }
        ensures within { result ≤ at + LITERAL_SIZE }
        ensures text { take result line.new ≡ take at line.old ++ literal_text literal }
    {
        let from = self.from + 1 - usize::from(literal.is_negated());
        line[at..at + LITERAL_SIZE].copy_from_slice(&self.bytes[from..from + LITERAL_SIZE]);
        at + (END + 1 - from)
    }
}
