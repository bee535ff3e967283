//! The circuit that shows the goals of a justice property as its bad states.
ghost use Rattle.std.specs.Prelude.{◌≡◌, ◌*◌, ◌≤◌, IfErr, IfOk, OnErr, OnOk};
ghost use Rattle.std.specs.Prelude.{length, slice_index_or, take};
ghost use Rattle.std.specs.List.{sum};
ghost use Rattle.aig_circuit.specs.declared.circuit.TheConstants.{LARGEST as largest};
ghost use Rattle.aig_circuit.specs.Wellformed.{IsWellFormed};
ghost use Rattle.aig_fault.specs.Stopping.{refusal};
ghost use Rattle.aig_fault.specs.declared.fault.Place.TheVariants.{Whole};
ghost use Rattle.aig_fault.specs.declared.kind.Kind.TheVariants.{NoSuchJustice};
ghost use Rattle.aig_lasso.specs.Goals.{goals_of, own_goals, with_goals};
ghost use Rattle.aig_lasso.specs.Goaled.{HasGoals, HasJustice, ShowsNoGoals};

use aig_checked::Checked;
use aig_circuit::{Circuit, Justice, LARGEST, Listing, Lit, Symbols};
use aig_fault::{Kind, Place, Stopped, refused};
use std::alloc::{AllocError, Global};

/// How many literals so many of the properties have.
fn count_before(sizes: &[u32], properties: usize) -> usize
    requires small { sum sizes.now ≤ largest }
    requires there { properties ≤ length sizes.now }
    ensures { result ≡ sum (take properties sizes.now) }
{
    let mut before = 0;
    let counted = &sizes[..properties];
    for size in counted {
        before += *size as usize;
    }
    before
}

/// The literals of the justice property of this number, without the fairness constraints.
fn find_own(circuit: &Circuit, property: u32) -> Result<&[Lit], Stopped>
    requires formed { IsWellFormed circuit.now }
    ensures own { IfOk result (λ own. own.now ≡ own_goals property circuit.now) }
    ensures few { IfOk result (λ own. length own.now ≤ largest) }
    ensures there { OnOk result (HasJustice property circuit.now) }
    ensures err { IfErr result (λ e. e ≡ refusal NoSuchJustice Whole property) }
    ensures not_there { OnErr result (length circuit.now.justice.sizes ≤ property) }
{
    let sizes = circuit.justice.sizes.as_slice();
    let place = property as usize;
    if sizes.len() <= place {
        return Err(refused(Kind::NoSuchJustice, Place::Whole, property));
    }
    let start = count_before(sizes, place);
    let end = start + sizes[place] as usize;
    Ok(&circuit.justice.literals.as_slice()[start..end])
}

/// How many goals the justice property of this number has: its literals and all fairness
/// constraints.
pub fn count_goals(found: &Checked, property: u32) -> Result<usize, Stopped>
    ensures count { IfOk result (λ count. count ≡ length (goals_of property found.now)) }
    ensures few { IfOk result (λ count. count ≤ 2 * largest) }
    ensures there { OnOk result (HasJustice property found.now) }
    ensures err { IfErr result (λ e. e ≡ refusal NoSuchJustice Whole property) }
    ensures not_there { OnErr result (length found.now.justice.sizes ≤ property) }
{
    let circuit = found.circuit();
    let own = find_own(circuit, property)?;
    Ok(own.len() + circuit.fairness.len())
}

/// The goals of the justice property of this number.
fn list_goals(alloc: Global, circuit: &Circuit, property: u32) -> Result<Listing<Lit>, Stopped>
    requires formed { IsWellFormed circuit.now }
    ensures ok { IfOk result (λ goals. goals ≡ goals_of property circuit.now) }
    ensures there { OnOk result (HasGoals property circuit.now) }
    ensures err { IfErr result (ShowsNoGoals property circuit.now) }
{
    let own = find_own(circuit, property)?;
    let fairness = circuit.fairness.as_slice();
    let count = own.len() + fairness.len();
    if (LARGEST as usize) < count {
        return Err(refused(Kind::TooLargeJustice, Place::Whole, 0));
    }
    let mut goals = Vec::with_capacity(alloc, count)?;
    goals.extend_from_slice(own)?;
    goals.extend_from_slice(fairness)?;
    Ok(Listing::from_vec(goals))
}

/// The circuit with these goals as its bad states.
#[tactic(auto, using(crate::proofs::GoalsShown::goals_are_well_formed))]
fn show_goals(alloc: Global, found: Checked, property: u32, goals: Listing<Lit>) -> Checked
    requires goals { goals ≡ goals_of property found }
    requires few { length goals ≤ largest }
    ensures { result ≡ with_goals property found }
{
    let circuit = found.into_circuit();
    Checked::from_well_formed(Circuit {
        bad: goals,
        justice: Justice {
            sizes: Listing::new(alloc),
            literals: Listing::new(alloc),
        },
        fairness: Listing::new(alloc),
        symbols: Symbols::new(alloc),
        comment: None,
        ..circuit
    })
}

/// The circuit whose bad states are the goals of the justice property of this number: its literals
/// and all fairness constraints. It has no other bad states then, no justice, no fairness, and no
/// names.
pub fn with_goals(alloc: Global, found: Checked, property: u32) -> Result<Checked, Stopped>
    ensures ok { IfOk result (λ shown. shown ≡ with_goals property found) }
    ensures there { OnOk result (HasGoals property found) }
    ensures err { IfErr result (ShowsNoGoals property found) }
{
    match list_goals(alloc, found.circuit(), property) {
        Ok(goals) => Ok(show_goals(alloc, found, property, goals)),
        Err(fault) => {
            drop(found); // for the proof
            Err(fault)
        }
    }
}
