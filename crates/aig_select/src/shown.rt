//! What is chosen of all that a circuit shows.
ghost use Rattle.std.specs.Prelude.{◌≡◌, ◌∷◌, ◌++◌, [], length, IfOk, OnOk};
ghost use Rattle.std.specs.List.{concat, sum};
ghost use Rattle.aig_select.specs.Chosen.{chosen_justice, fairness_for};
ghost use Rattle.aig_select.specs.Parts.Plan.{shown_by};
ghost use Rattle.aig_select.specs.Staying.{staying};

use crate::choice::Choice;
use crate::staying::{is_marked, keep};
use aig_circuit::{Circuit, Justice, Listing, Lit};
use std::alloc::{AllocError, Global};

/// What is chosen, beside the constraints.
#[derive(Drop)]
pub(crate) struct Shown {
    pub(crate) outputs: Listing<Lit>,
    pub(crate) bad: Listing<Lit>,
    pub(crate) justice: Justice,
    pub(crate) fairness: Listing<Lit>,
}

fn push_property(
    sizes: &mut Vec<u32>,
    literals: &mut Vec<Lit>,
    size: u32,
    own: &[Lit],
) -> Result<(), AllocError>
    ensures sizes { OnOk result (sizes.new.items ≡ sizes.old.items ++ size ∷ []) }
    ensures literals { OnOk result (literals.new.items ≡ literals.old.items ++ own.now) }
{
    sizes.push(size)?;
    literals.extend_from_slice(own)
}

/// The justice properties that are marked.
fn choose_justice(alloc: Global, marks: &[bool], justice: &Justice) -> Result<Justice, AllocError>
    requires { sum justice.now.sizes ≡ length justice.now.literals }
    ensures { IfOk result (λ chosen. chosen ≡ chosen_justice marks.now justice.now) }
{
    let mut sizes = Vec::new(alloc);
    let mut literals = Vec::new(alloc);
    let all = justice.sizes.as_slice();
    let mut rest = justice.literals.as_slice();
    for at in 0..all.len() {
        let size = all[at];
        let (own, more) = rest.split_at(size as usize);
        rest = more;
        if is_marked(marks, at) {
            push_property(&mut sizes, &mut literals, size, own)?;
        }
    }
    Ok(Justice {
        sizes: Listing::from_vec(sizes),
        literals: Listing::from_vec(literals),
    })
}

/// The fairness constraints, if there are justice properties.
fn choose_fairness(
    alloc: Global,
    justice: &Justice,
    fairness: &Listing<Lit>,
) -> Result<Listing<Lit>, AllocError>
    ensures { IfOk result (λ chosen. chosen ≡ fairness_for justice.now fairness.now) }
{
    if justice.sizes.is_empty() {
        return Ok(Listing::new(alloc));
    }
    fairness.copy(alloc)
}

fn keep_copy(
    alloc: Global,
    marks: &Listing<bool>,
    literals: &Listing<Lit>,
) -> Result<Listing<Lit>, AllocError>
    ensures { IfOk result (λ kept. kept ≡ staying marks.now literals.now) }
{
    Ok(keep(marks.as_slice(), literals.copy(alloc)?))
}

/// What is chosen of a circuit.
pub(crate) fn choose(alloc: Global, circuit: &Circuit, choice: &Choice) -> Result<Shown, AllocError>
    requires { sum circuit.now.justice.sizes ≡ length circuit.now.justice.literals }
    ensures { IfOk result (λ shown. shown ≡ shown_by choice.now circuit.now) }
{
    let outputs = keep_copy(alloc, &choice.outputs, &circuit.outputs)?;
    let bad = keep_copy(alloc, &choice.bad, &circuit.bad)?;
    let justice = choose_justice(alloc, choice.justice.as_slice(), &circuit.justice)?;
    let fairness = choose_fairness(alloc, &justice, &circuit.fairness)?;
    Ok(Shown {
        outputs,
        bad,
        justice,
        fairness,
    })
}

impl Shown {
    /// The literals of all, with these constraints.
    pub(crate) fn list(&self, alloc: Global, constraints: &[Lit]) -> Result<Vec<Lit>, AllocError>
        ensures { IfOk result (λ all. all.items ≡ concat (self.now.outputs ∷ self.now.bad
            ∷ constraints.now ∷ self.now.justice.literals ∷ self.now.fairness ∷ [])) }
    {
        let mut all = Vec::from_slice(alloc, self.outputs.as_slice())?;
        all.extend_from_slice(self.bad.as_slice())?;
        all.extend_from_slice(constraints)?;
        all.extend_from_slice(self.justice.literals.as_slice())?;
        all.extend_from_slice(self.fairness.as_slice())?;
        Ok(all)
    }
}
