//! A table of values as bytes: each value with its negation after it, so that a literal is the
//! place of its own value.
ghost use Rattle.std.specs.Prelude.{◌≡◌, ◌+◌, ◌-◌, ◌*◌, ◌<◌, ◌≤◌, ◌^◌, [], ◌∷◌, length, slice_set};
ghost use Rattle.std.specs.Prelude.{IfOk, List, Some, None, false, option_map, true};
ghost use Rattle.std.specs.List.{All};
ghost use Rattle.aig_circuit.specs.declared.value.Val.{Val as Value};
ghost use Rattle.aig_circuit.specs.Values.{value_and};
ghost use Rattle.aig_meaning.specs.Meaning.{literal_value};
ghost use Rattle.aig_step.specs.Stimulus.{value_of, values_of};
ghost use Rattle.aig_step.specs.TraceText.{character_of};
ghost use Rattle.aig_step.specs.Parts.Cells.{AreCodes, bytes_of_values, values_of_bytes};
ghost use Rattle.aig_step.specs.Parts.Tables.{IsLiteralBelow, IsPairBelow, evaluated};
ghost use Rattle.aig_step.specs.Parts.Tables.{placed, read_from};

use crate::evaluate::Pair;
use aig_circuit::{Lit, Val};
use std::alloc::{AllocError, Global};
use std::marker::Model;

/// A value as a byte, so that the bitwise and of two is the byte of their `and`: 0 for 0, 1 for x,
/// 3 for 1.
#[derive(Clone, Copy)]
pub struct Code {
    byte: u8,
}

impl Model for Code {
    ghost use Rattle.std.specs.Prelude.{◌≡◌};
    ghost use Rattle.aig_circuit.specs.declared.value.Val.{Val};
    ghost use Rattle.aig_step.specs.Parts.Cells.{code_of, value_of_code};

    ghost Value = { Val };

    ghost view = { λ c. value_of_code c.byte };

    ghost inverse = { λ v. record { byte = code_of v } };

    ghost invariant = { λ c. code_of (value_of_code c.byte) ≡ c.byte };
}

/// The value of each variable.
#[derive(Drop)]
pub struct Table {
    codes: Vec<u8>,
}

impl Model for Table {
    ghost use Rattle.std.specs.Prelude.{List};
    ghost use Rattle.aig_circuit.specs.declared.value.Val.{Val};
    ghost use Rattle.aig_step.specs.Parts.Cells.{AreCodes, values_of_bytes};

    ghost Value = { List Val };

    ghost view = { λ t. values_of_bytes t.codes.items };

    ghost invariant = { λ t. AreCodes t.codes.items };
}

/// The byte of a value and that of its negation, by the byte of the value.
static CODES: [[u8; 2]; 4] = [[0, 3], [1, 1], [0, 0], [3, 0]];

/// The characters of values, by their bytes.
static CHARACTERS: [u8; 4] = [b'0', b'x', b'1', b'1'];

/// The characters that stand for values, each at the place of its low four bits.
static STANDING: [u8; 16] = [b'0', b'1', 0, 0, 0, 0, 0, 0, b'x', 0, 0, 0, 0, 0, 0, 0];

/// The bytes of the values that they stand for, each with that of its negation.
static STOOD_FOR: [[u8; 2]; 16] = [
    [0, 3],
    [3, 0],
    [0, 0],
    [0, 0],
    [0, 0],
    [0, 0],
    [0, 0],
    [0, 0],
    [1, 1],
    [0, 0],
    [0, 0],
    [0, 0],
    [0, 0],
    [0, 0],
    [0, 0],
    [0, 0],
];

impl Code {
    /// The byte of a value.
    #[inline(always)]
    pub(crate) fn of(value: Val) -> Code
        ensures { result ≡ value }
    {
        match value {
            Val::Zero => Code { byte: 0 },
            Val::One => Code { byte: 3 },
            Val::X => Code { byte: 1 },
        }
    }

    /// The value.
    #[inline(always)]
    pub fn value(self) -> Val
        ensures { result ≡ self }
    {
        match self.byte {
            0 => Val::Zero,
            1 => Val::X,
            _ => Val::One,
        }
    }

    /// The character of the value.
    #[inline(always)]
    pub(crate) fn character(self) -> u8
        ensures { result ≡ character_of self }
    {
        CHARACTERS[self.byte as usize]
    }

    /// The byte of the value and that of its negation.
    #[inline(always)]
    fn bytes(self) -> [u8; 2]
        ensures { result ≡ bytes_of_values (self ∷ []) }
    {
        CODES[self.byte as usize]
    }

    /// 0 where one of the two is 0, 1 where both are 1, and else x.
    #[inline(always)]
    fn and(self, other: Code) -> Code
        ensures { result ≡ value_and self other }
    {
        Code {
            byte: self.byte & other.byte,
        }
    }
}

/// The value of a literal.
#[inline(always)]
#[tactic(auto, using(crate::proofs::Running::Cells::codes_length, crate::proofs::Running::Cells::is_code_at, crate::proofs::Running::Cells::value_at))]
pub(crate) fn literal_code(codes: &[u8], literal: Lit) -> Code
    requires coded { AreCodes codes.now }
    requires below { IsLiteralBelow (length (values_of_bytes codes.now)) literal }
    ensures { result ≡ literal_value (read_from (values_of_bytes codes.now)) literal }
{
    Code {
        byte: codes[literal.0 as usize],
    }
}

/// The byte of the value that a character stands for and that of its negation, if it stands for
/// one. Characters are unpredictable: one branch, for validity.
#[inline(always)]
fn bytes_of_character(character: u8) -> Option<[u8; 2]>
    ensures { result ≡ option_map (λ v. bytes_of_values (v ∷ [])) (value_of character) }
{
    let place = (character & 15) as usize;
    if STANDING[place] != character {
        return None;
    }
    Some(STOOD_FOR[place])
}

/// Puts a value by its byte and that of its negation at the place of a variable. Both are at hand
/// before one is written, so that they can be written as one.
#[inline(always)]
fn put_bytes(codes: &mut [u8], variable: usize, bytes: [u8; 2])
    requires coded { AreCodes codes.old }
    requires below { variable < length (values_of_bytes codes.old) }
    ensures { (v : Value) → bytes ≡ bytes_of_values (v ∷ [])
        → codes.new ≡ bytes_of_values (slice_set (values_of_bytes codes.old) variable v) }
{
    let [code, negation] = bytes;
    codes[2 * variable] = code;
    codes[2 * variable + 1] = negation;
}

/// Puts a value, and its negation, at the place of a variable.
#[inline(always)]
fn put(codes: &mut [u8], variable: usize, value: Code)
    requires coded { AreCodes codes.old }
    requires below { variable < length (values_of_bytes codes.old) }
    ensures { codes.new ≡ bytes_of_values (slice_set (values_of_bytes codes.old) variable value) }
{
    put_bytes(codes, variable, value.bytes());
}

impl Table {
    /// A table for so many variables.
    #[tactic(auto, using(crate::proofs::Running::Cells::x_are_codes, crate::proofs::Running::Cells::x_length))]
    pub(crate) fn new(alloc: Global, variables: usize) -> Result<Self, AllocError>
        requires { variables < 2 ^ 62 }
        ensures { IfOk result (λ t. length t ≡ variables) }
    {
        Ok(Table {
            codes: vec![in alloc; 1; 2 * variables]?,
        })
    }

    /// The value of a literal.
    #[inline(always)]
    pub fn value(&self, literal: Lit) -> Val
        requires { IsLiteralBelow (length self.now) literal }
        ensures { result ≡ literal_value (read_from self.now) literal }
    {
        literal_code(&self.codes, literal).value()
    }

    /// The byte of the value of a literal.
    #[inline(always)]
    pub(crate) fn code(&self, literal: Lit) -> Code
        requires { IsLiteralBelow (length self.now) literal }
        ensures { result ≡ literal_value (read_from self.now) literal }
    {
        literal_code(&self.codes, literal)
    }

    /// Puts a value at the place of a variable.
    #[inline(always)]
    pub(crate) fn put(&mut self, variable: usize, value: Val)
        requires { variable < length self.old }
        ensures value { self.new ≡ slice_set self.old variable value }
        ensures small { length self.old < 2 ^ 63 }
    {
        put(&mut self.codes, variable, Code::of(value));
    }

    /// Puts values, from this place on.
    pub(crate) fn put_codes(&mut self, first: usize, given: &[Code])
        requires { first + length given.now ≤ length self.old }
        ensures { self.new ≡ placed first given.now self.old }
    {
        let codes: &mut [u8] = &mut self.codes;
        let mut at = first;
        for value in given {
            put(codes, at, *value);
            at += 1;
        }
    }

    /// Puts the values that characters stand for, from this place on, and answers whether each
    /// character stands for one.
    pub(crate) fn put_characters(&mut self, first: usize, text: &[u8]) -> bool
        requires { first + length text.now ≤ length self.old }
        ensures good { result ≡ true → (given : List Value) × (values_of text.now ≡ Some given)
            × (self.new ≡ placed first given self.old) }
        ensures bad { result ≡ false → values_of text.now ≡ None }
        ensures room { length self.new ≡ length self.old }
    {
        let codes: &mut [u8] = &mut self.codes;
        let mut at = first;
        for character in text {
            let Some(bytes) = bytes_of_character(*character) else {
                return false;
            };
            put_bytes(codes, at, bytes);
            at += 1;
        }
        true
    }

    /// The bytes of the table, for a loop over literals that writes bytes too.
    #[inline(always)]
    pub(crate) fn codes(&self) -> &[u8]
        ensures coded { AreCodes result.now }
        ensures values { values_of_bytes result.now ≡ self.now }
    {
        &self.codes
    }

    /// Puts the value of each gate. The variables of the gates are the last ones of the table.
    pub(crate) fn evaluate(&mut self, pairs: &[Pair])
        requires room { length pairs.now ≤ length self.old }
        requires below { All (IsPairBelow (length self.old)) pairs.now }
        ensures { self.new ≡ evaluated (length self.old - length pairs.now) pairs.now self.old }
    {
        let codes: &mut [u8] = &mut self.codes;
        let mut variable = codes.len() / 2 - pairs.len();
        for pair in pairs {
            let left = literal_code(codes, pair.left);
            let right = literal_code(codes, pair.right);
            put(codes, variable, left.and(right));
            variable += 1;
        }
    }
}
