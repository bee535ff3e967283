//! Entries of a circuit, each of so many words.
ghost use Rattle.std.specs.Prelude.{◌≡◌, ◌+◌, ◌*◌, ◌<◌, ◌≤◌, ◌^◌};
ghost use Rattle.std.specs.Prelude.{List, ℕ, [], ◌∷◌, nat_lt, slice_index};
ghost use Rattle.aig_arrays.specs.Outcomes.{entry_meant};
ghost use Rattle.aig_arrays.specs.Decoded.{bad_entry, row_decoded};
ghost use Rattle.aig_circuit.specs.Wellformed.{largest_index};
ghost use Rattle.aig_rows.specs.Outcomes.{GivesOrFails};
ghost use Rattle.aig_rows.specs.Reading.{carried_on, fault_in_row, is_no_variable};
ghost use Rattle.aig_rows.specs.Rows.{Form, gate_form, gate_of, input_form, input_of, latch_form};
ghost use Rattle.aig_rows.specs.Rows.{latch_of, literal_form, literal_in, reset_of, size_form};
ghost use Rattle.aig_rows.specs.Rows.{size_of};

use aig_core::{Gate, Latch, Lit, Reset, Var};
use aig_fault::{Kind, Place, Stopped, refused, refused_whole};
use std::marker::Model;

/// A place among words.
#[derive(Drop)]
pub(crate) struct WordCursor<'a> {
    /// The words from here on.
    pub(crate) rest: &'a [u32],
    /// How many words stand before them.
    pub(crate) at: u64,
}

impl<'a> Model for WordCursor<'a> {
    ghost use Rattle.aig_arrays.specs.Decoded.{Ahead};

    ghost Value = { Ahead };

    ghost use Rattle.std.specs.Prelude.{◌+◌, ◌^◌, ◌<◌, length};

    ghost view = { λ a. record { at = a.at; words = a.rest.now } };

    ghost invariant = { λ a. a.at + length a.rest.now < 2 ^ 64 };
}

/// An entry read from a fixed number of words. It is judged beside the largest index, or what sizes
/// may add up to (`bound`), and beside the sum of the sizes before it (`carried`).
pub(crate) trait FromWords: Copy {
    /// What the words have to hold.
    ghost form: { Form };

    /// The entry that the words mean.
    ghost meant_by: { List ℕ → Self };

    /// Reads the entry that begins here, and moves past it, unless it is not right.
    fn read_entry(from: &mut WordCursor, bound: u32, carried: u64) -> Result<Self, Stopped>
        requires bound { bound ≤ largest_index }
        requires carried { carried + 2 ^ 32 ≤ 2 ^ 64 }
        ensures { GivesOrFails (λ entry. (entry, from.new)) result
            (entry_meant meant_by (row_decoded form bound carried from.old)) };

    /// What is carried to the next entry.
    fn carry(self, carried: u64) -> u64
        requires { carried + 2 ^ 32 ≤ 2 ^ 64 }
        ensures carried { (ns : List ℕ) → meant_by ns ≡ self
            → result ≡ carried_on form.first carried (slice_index ns 0) }
        ensures small { result < carried + 2 ^ 32 };
}

/// What is wrong with the entry that begins at this word.
pub(crate) fn bad_entry(word: u64, kind: Kind) -> Stopped
    ensures { result ≡ bad_entry word kind }
{
    refused(kind, Place::Word(word), 0)
}

/// Whether a word cannot be a definition.
#[inline(always)]
fn is_no_variable(word: u32) -> bool
    ensures { result ≡ is_no_variable word }
{
    word % 2 == 1 || word < 2
}

/// Whether a word is no literal up to this variable.
#[inline(always)]
fn exceeds(bound: u32, word: u32) -> bool
    requires { bound ≤ largest_index }
    ensures { result ≡ nat_lt (2 * bound + 1) word }
{
    word > 2 * bound + 1
}

#[inline(always)]
fn fault_in_input(bound: u32, own: u32) -> Option<Kind>
    requires { bound ≤ largest_index }
    ensures { (carried : ℕ) → result ≡ fault_in_row input_form bound carried (own ∷ []) }
{
    if is_no_variable(own) {
        return Some(Kind::NotVariable);
    }
    if exceeds(bound, own) {
        return Some(Kind::LiteralRange);
    }
    None
}

#[inline(always)]
fn fault_in_latch(bound: u32, own: u32, next: u32, reset: u32) -> Option<Kind>
    requires { bound ≤ largest_index }
    ensures { (carried : ℕ)
        → result ≡ fault_in_row latch_form bound carried (own ∷ next ∷ reset ∷ []) }
{
    if is_no_variable(own) {
        return Some(Kind::NotVariable);
    }
    if exceeds(bound, own) || exceeds(bound, next) {
        return Some(Kind::LiteralRange);
    }
    if reset >= 2 && reset != own {
        return Some(Kind::BadReset);
    }
    None
}

#[inline(always)]
fn fault_in_literal(bound: u32, literal: u32) -> Option<Kind>
    requires { bound ≤ largest_index }
    ensures { (carried : ℕ) → result ≡ fault_in_row literal_form bound carried (literal ∷ []) }
{
    if exceeds(bound, literal) {
        return Some(Kind::LiteralRange);
    }
    None
}

#[inline(always)]
fn fault_in_size(bound: u32, carried: u64, size: u32) -> Option<Kind>
    requires { carried + 2 ^ 32 ≤ 2 ^ 64 }
    ensures { result ≡ fault_in_row size_form bound carried (size ∷ []) }
{
    if carried + u64::from(size) > u64::from(bound) {
        return Some(Kind::TooLarge);
    }
    None
}

#[inline(always)]
fn fault_in_gate(bound: u32, own: u32, left: u32, right: u32) -> Option<Kind>
    requires { bound ≤ largest_index }
    ensures { (carried : ℕ)
        → result ≡ fault_in_row gate_form bound carried (own ∷ left ∷ right ∷ []) }
{
    if is_no_variable(own) {
        return Some(Kind::NotVariable);
    }
    if exceeds(bound, own) || exceeds(bound, left) || exceeds(bound, right) {
        return Some(Kind::LiteralRange);
    }
    None
}

/// What a latch starts at by the word that says it.
#[inline(always)]
fn reset_of(word: u32) -> Reset
    ensures { result ≡ reset_of word }
{
    match word {
        0 => Reset::Zero,
        1 => Reset::One,
        _ => Reset::Uninit,
    }
}

impl FromWords for Var {
    ghost form = { input_form };

    ghost meant_by = { input_of };

    #[inline(always)]
    fn read_entry(from: &mut WordCursor, bound: u32, _carried: u64) -> Result<Var, Stopped> {
        let [own, rest @ ..] = from.rest else {
            return Err(refused_whole(Kind::BadCounts));
        };
        let word = from.at;
        if let Some(kind) = fault_in_input(bound, *own) {
            return Err(bad_entry(word, kind));
        }
        let at = word + 1;
        *from = WordCursor { rest, at };
        Ok(Var(*own / 2))
    }

    #[inline(always)]
    fn carry(self, carried: u64) -> u64 {
        carried
    }
}

impl FromWords for Latch {
    ghost form = { latch_form };

    ghost meant_by = { latch_of };

    #[inline(always)]
    fn read_entry(from: &mut WordCursor, bound: u32, _carried: u64) -> Result<Latch, Stopped> {
        let [own, next, reset, rest @ ..] = from.rest else {
            return Err(refused_whole(Kind::BadCounts));
        };
        let word = from.at;
        if let Some(kind) = fault_in_latch(bound, *own, *next, *reset) {
            return Err(bad_entry(word, kind));
        }
        let at = word + 3;
        *from = WordCursor { rest, at };
        Ok(Latch {
            var: Var(*own / 2),
            next: Lit(*next),
            reset: reset_of(*reset),
        })
    }

    #[inline(always)]
    fn carry(self, carried: u64) -> u64 {
        carried
    }
}

impl FromWords for Lit {
    ghost form = { literal_form };

    ghost meant_by = { literal_in };

    #[inline(always)]
    fn read_entry(from: &mut WordCursor, bound: u32, _carried: u64) -> Result<Lit, Stopped> {
        let [literal, rest @ ..] = from.rest else {
            return Err(refused_whole(Kind::BadCounts));
        };
        let word = from.at;
        if let Some(kind) = fault_in_literal(bound, *literal) {
            return Err(bad_entry(word, kind));
        }
        let at = word + 1;
        *from = WordCursor { rest, at };
        Ok(Lit(*literal))
    }

    #[inline(always)]
    fn carry(self, carried: u64) -> u64 {
        carried + 2
    }
}

/// A size.
impl FromWords for u32 {
    ghost form = { size_form };

    ghost meant_by = { size_of };

    #[inline(always)]
    fn read_entry(from: &mut WordCursor, bound: u32, carried: u64) -> Result<u32, Stopped> {
        let [size, rest @ ..] = from.rest else {
            return Err(refused_whole(Kind::BadCounts));
        };
        let word = from.at;
        if let Some(kind) = fault_in_size(bound, carried, *size) {
            return Err(bad_entry(word, kind));
        }
        let at = word + 1;
        *from = WordCursor { rest, at };
        Ok(*size)
    }

    #[inline(always)]
    fn carry(self, carried: u64) -> u64 {
        carried + u64::from(self)
    }
}

impl FromWords for Gate {
    ghost form = { gate_form };

    ghost meant_by = { gate_of };

    #[inline(always)]
    fn read_entry(from: &mut WordCursor, bound: u32, _carried: u64) -> Result<Gate, Stopped> {
        let [own, left, right, rest @ ..] = from.rest else {
            return Err(refused_whole(Kind::BadCounts));
        };
        let word = from.at;
        if let Some(kind) = fault_in_gate(bound, *own, *left, *right) {
            return Err(bad_entry(word, kind));
        }
        let at = word + 3;
        *from = WordCursor { rest, at };
        Ok(Gate {
            var: Var(*own / 2),
            left: Lit(*left),
            right: Lit(*right),
        })
    }

    #[inline(always)]
    fn carry(self, carried: u64) -> u64 {
        carried
    }
}
