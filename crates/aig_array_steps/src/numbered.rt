//! Whether the words of sections are those of a circuit whose variables are numbered in order.
ghost use Rattle.std.specs.Prelude.{◌≡◌, ◌↔◌, ◌+◌, ◌*◌, ◌<◌, ◌≤◌, ◌^◌, IsTrue, length};
ghost use Rattle.std.specs.Prelude.{sum as sum_of};
ghost use Rattle.std.specs.List.{All};
ghost use Rattle.aig_checked.specs.Parts.Numbered.{AreNumbered};
ghost use Rattle.aig_array_steps.specs.Parts.Words.{AreDefinedInOrder, AreFew, AreGateWords};
ghost use Rattle.aig_array_steps.specs.Parts.Words.{AreInThrees, AreLatchWords, AreListed};
ghost use Rattle.aig_array_steps.specs.Parts.Words.{AreOrdered};
ghost use Rattle.aig_array_steps.specs.Parts.Words.{IsInputWord, highest_literal};

use crate::sections::Sections;
use aig_arrays::Counts;

/// Whether these are the literals of the variables from 1 on.
fn are_inputs(words: &[u32]) -> bool
    requires { length words.now < 2 ^ 40 }
    ensures { IsTrue result ↔ AreNumbered IsInputWord 1 words.now }
{
    let mut variable: u64 = 1;
    for word in words {
        if u64::from(*word) != 2 * variable {
            return false;
        }
        variable += 1;
    }
    true
}

/// Whether no literal is above this one.
fn are_literals(highest: u64, words: &[u32]) -> bool
    ensures { IsTrue result ↔ All (λ literal. literal ≤ highest) words.now }
{
    for word in words {
        if u64::from(*word) > highest {
            return false;
        }
    }
    true
}

fn sum(sizes: &[u32]) -> u64
    requires { length sizes.now < 2 ^ 32 }
    ensures { result ≡ sum_of sizes.now }
{
    let mut sum: u64 = 0;
    for size in sizes {
        sum += u64::from(*size);
    }
    sum
}

/// Whether the words of a latch are right for a variable.
#[inline(always)]
fn is_latch(variable: u64, highest: u64, own: u32, next: u32, reset: u32) -> bool
    requires { variable < 2 ^ 40 }
    ensures { IsTrue result ↔ AreLatchWords highest variable own next reset }
{
    u64::from(own) == 2 * variable && u64::from(next) <= highest && (reset <= 1 || reset == own)
}

/// Whether these are latches of the variables from this one on.
fn are_latches(first: u64, highest: u64, words: &[u32]) -> bool
    requires { first + length words.now < 2 ^ 40 }
    ensures { IsTrue result ↔ AreInThrees (AreLatchWords highest) first words.now }
{
    let mut variable = first;
    let mut rest = words;
    while let [own, next, reset, others @ ..] = rest {
        if !is_latch(variable, highest, *own, *next, *reset) {
            return false;
        }
        variable += 1;
        rest = others;
    }
    true
}

/// Whether the words of a gate are right for a variable.
#[inline(always)]
fn is_gate(variable: u64, own: u32, left: u32, right: u32) -> bool
    requires { variable < 2 ^ 40 }
    ensures { IsTrue result ↔ AreGateWords variable own left right }
{
    let literal = 2 * variable;
    u64::from(own) == literal && u64::from(left) < literal && u64::from(right) < literal
}

/// Whether these are gates of the variables from this one on, each over lower literals.
fn are_gates(first: u64, words: &[u32]) -> bool
    requires { first + length words.now < 2 ^ 40 }
    ensures { IsTrue result ↔ AreInThrees AreGateWords first words.now }
{
    let mut variable = first;
    let mut rest = words;
    while let [own, left, right, others @ ..] = rest {
        if !is_gate(variable, *own, *left, *right) {
            return false;
        }
        variable += 1;
        rest = others;
    }
    true
}

/// The variable of the first gate.
pub(crate) fn first_gate(counts: &Counts) -> u64
    ensures value { result ≡ 1 + counts.now.inputs + counts.now.latches }
    ensures low { result < 2 ^ 34 }
{
    1 + u64::from(counts.inputs) + u64::from(counts.latches)
}

fn are_all_variables(counts: &Counts) -> bool
    ensures { IsTrue result
        ↔ (counts.now.max_var ≡ counts.now.inputs + counts.now.latches + counts.now.gates) }
{
    u64::from(counts.max_var) + 1 == first_gate(counts) + u64::from(counts.gates)
}

fn highest(counts: &Counts) -> u64
    ensures { result ≡ highest_literal counts.now }
{
    2 * u64::from(counts.max_var) + 1
}

/// Whether the literals that are listed, and the sizes of justice properties, are right.
fn are_listed(counts: &Counts, sections: &Sections) -> bool
    requires { AreFew sections.now }
    ensures { IsTrue result ↔ AreListed counts.now sections.now }
{
    are_literals(highest(counts), sections.shown)
        && are_literals(highest(counts), sections.unshown)
        && sum(sections.sizes) == u64::from(counts.justice_literals)
}

fn has_latches(counts: &Counts, sections: &Sections) -> bool
    requires { AreFew sections.now }
    ensures { IsTrue result ↔ AreInThrees (AreLatchWords (highest_literal counts.now))
        (1 + counts.now.inputs) sections.now.latches }
{
    are_latches(
        1 + u64::from(counts.inputs),
        highest(counts),
        sections.latches,
    )
}

/// Whether inputs, latches and gates are right.
fn are_defined(counts: &Counts, sections: &Sections) -> bool
    requires { AreFew sections.now }
    ensures { IsTrue result ↔ AreDefinedInOrder counts.now sections.now }
{
    are_inputs(sections.inputs)
        && has_latches(counts, sections)
        && are_gates(first_gate(counts), sections.gates)
}

/// Whether the sections are those of a circuit whose variables are numbered in order. Each word is
/// looked at once.
pub(crate) fn are_numbered(counts: &Counts, sections: &Sections) -> bool
    requires { AreFew sections.now }
    ensures { IsTrue result ↔ AreOrdered counts.now sections.now }
{
    are_all_variables(counts) && are_defined(counts, sections) && are_listed(counts, sections)
}
