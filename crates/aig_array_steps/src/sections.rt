//! The words of a circuit, cut into its sections.
ghost use Rattle.std.specs.Prelude.{◌≡◌, ◌≤◌, length, None};
ghost use Rattle.std.specs.Option.{IfSome};
ghost use Rattle.aig_arrays.specs.Words.{section_length};
ghost use Rattle.aig_array_steps.specs.Step.{HasSections};
ghost use Rattle.aig_array_steps.specs.Parts.Words.{AreFew, AreSections, shown_count};
ghost use Rattle.aig_array_steps.specs.Parts.Words.{unshown_count};

use aig_arrays::Counts;
use std::marker::Model;

/// The words of each section, where those of one kind that follow one another are one.
#[derive(Drop)]
pub struct Sections<'a> {
    /// A literal each.
    pub inputs: &'a [u32],
    /// Three words each: literal, next state, reset.
    pub latches: &'a [u32],
    /// The literals of outputs, bad states and constraints.
    pub shown: &'a [u32],
    /// How many literals each justice property has.
    pub sizes: &'a [u32],
    /// The literals of justice properties and of fairness.
    pub unshown: &'a [u32],
    /// Three words each: literal, left, right.
    pub gates: &'a [u32],
}

impl<'a> Model for Sections<'a> {
    ghost use Rattle.aig_array_steps.specs.Parts.Words.{SectionWords};

    ghost Value = { SectionWords };

    ghost view = { λ s. record {
      inputs = s.inputs.now;
      latches = s.latches.now;
      shown = s.shown.now;
      sizes = s.sizes.now;
      unshown = s.unshown.now;
      gates = s.gates.now;
    } };
}

/// How many words the literals of outputs, bad states and constraints are.
pub(crate) fn shown_length(counts: &Counts) -> usize
    ensures { result ≡ shown_count counts.now }
{
    counts.outputs as usize + counts.bad as usize + counts.constraints as usize
}

fn unshown_length(counts: &Counts) -> usize
    ensures { result ≡ unshown_count counts.now }
{
    counts.justice_literals as usize + counts.fairness as usize
}

fn cut<'a>(counts: &Counts, words: &'a [u32]) -> Sections<'a>
    requires { section_length counts.now ≤ length words.now }
    ensures sections { AreSections counts.now words.now result }
    ensures few { AreFew result }
{
    let (inputs, words) = words.split_at(counts.inputs as usize);
    let (latches, words) = words.split_at(3 * counts.latches as usize);
    let (shown, words) = words.split_at(shown_length(counts));
    let (sizes, words) = words.split_at(counts.justice as usize);
    let (unshown, words) = words.split_at(unshown_length(counts));
    let (gates, _) = words.split_at(3 * counts.gates as usize);
    Sections {
        inputs,
        latches,
        shown,
        sizes,
        unshown,
        gates,
    }
}

/// The sections, if the counts are in range and the words are as many as they say.
pub(crate) fn sections_of<'a>(counts: &Counts, words: &'a [u32]) -> Option<Sections<'a>>
    ensures some { IfSome result (λ sections. AreSections counts.now words.now sections) }
    ensures few { IfSome result AreFew }
    ensures fit { IfSome result (λ _. HasSections counts.now words.now) }
    ensures none { result ≡ None → ¬ HasSections counts.now words.now }
{
    if counts.is_in_range() && counts.section_words() <= words.len() as u64 {
        Some(cut(counts, words))
    } else {
        None
    }
}
