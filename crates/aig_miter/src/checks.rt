//! Whether circuits can be compared.
ghost use Rattle.std.specs.Prelude.{◌≡◌, ◌≤◌, length, OnOk};
ghost use Rattle.aig_circuit.specs.declared.circuit.TheConstants.{LARGEST};
ghost use Rattle.aig_circuit.specs.Wellformed.{IsWellFormed};
ghost use Rattle.aig_miter.specs.Miter.{compared};
ghost use Rattle.aig_miter.specs.Outcome.{IsComparable, comparable, pair_fault};
ghost use Rattle.aig_miter.specs.Outcome.{is_comparable as has_no_liveness, is_overfull};
ghost use Rattle.aig_miter.specs.Parts.Comparable.{AreComparable, more_for};
ghost use Rattle.aig_miter.specs.Starts.{free_among, miter, pairs};

use aig_checked::Checked;
use aig_circuit::{Circuit, LARGEST, Latch, Reset};
use aig_fault::{Kind, Stopped, refused_whole};

fn is_comparable(circuit: &Circuit) -> bool
    ensures { result ≡ has_no_liveness circuit.now }
{
    circuit.justice.sizes.is_empty() && circuit.fairness.is_empty()
}

/// Whether a circuit can be compared with others: it has neither justice properties nor fairness
/// constraints.
pub fn check_comparable(checked: &Checked) -> Result<(), Stopped>
    ensures answer { result ≡ comparable checked.now }
    ensures comparable { OnOk result (IsComparable checked.now) }
{
    if is_comparable(checked.circuit()) {
        Ok(())
    } else {
        Err(refused_whole(Kind::NotComparable))
    }
}

/// How much of a circuit is compared.
pub(crate) fn count_compared(circuit: &Circuit) -> usize
    requires { IsWellFormed circuit.now }
    ensures { result ≡ length (compared circuit.now) }
{
    circuit.outputs.len() + circuit.bad.len()
}

/// How many latches are uninitialised.
fn count_free(latches: &[Latch]) -> usize
    ensures count { result ≡ length (free_among latches.now) }
    ensures bound { result ≤ length latches.now }
{
    let mut count = 0;
    for latch in latches {
        match latch.reset {
            Reset::Uninit => count += 1,
            _ => {}
        }
    }
    count
}

/// How many uninitialised latches of the first circuit start as one of the second.
fn count_pairs(first: &Circuit, second: &Circuit) -> usize
    ensures count { result ≡ pairs first.now second.now }
    ensures bound { result ≤ length first.now.latches }
{
    count_free(first.latches.as_slice()).min(count_free(second.latches.as_slice()))
}

/// How many variables equal starts take, where so many latches are paired.
fn count_more(paired: usize) -> usize
    requires { paired ≤ LARGEST }
    ensures { result ≡ more_for paired }
{
    if paired == 0 { 0 } else { 1 + 4 * paired }
}

/// How many variables the miter has.
#[tactic(auto, using(crate::proofs::Sizes::miter_variables))]
fn count_variables(first: &Circuit, second: &Circuit, paired: usize) -> usize
    requires formed { IsWellFormed first.now }
    requires formed_too { IsWellFormed second.now }
    requires paired { paired ≡ pairs first.now second.now }
    requires bound { paired ≤ length first.now.latches }
    ensures { result ≡ (miter first.now second.now).max_var }
{
    let before = first.max_var as usize + second.max_var as usize;
    before + 3 * count_compared(first) + count_more(paired)
}

/// How many bad states the miter has.
#[tactic(auto, using(crate::proofs::Sizes::miter_bad))]
fn count_bad(first: &Circuit, second: &Circuit) -> usize
    requires formed { IsWellFormed first.now }
    requires formed_too { IsWellFormed second.now }
    requires fit { AreComparable first.now second.now }
    ensures { result ≡ length (miter first.now second.now).bad }
{
    count_compared(first) + second.constraints.len()
}

/// How many constraints the miter has.
#[tactic(auto, using(crate::proofs::Sizes::miter_constraints))]
fn count_constraints(first: &Circuit, second: &Circuit, paired: usize) -> usize
    requires formed { IsWellFormed first.now }
    requires paired { paired ≡ pairs first.now second.now }
    requires bound { paired ≤ length first.now.latches }
    ensures { result ≡ length (miter first.now second.now).constraints }
{
    first.constraints.len() + paired
}

/// Whether the miter is too large.
fn is_too_large(first: &Circuit, second: &Circuit) -> bool
    requires formed { IsWellFormed first.now }
    requires formed_too { IsWellFormed second.now }
    requires fit { AreComparable first.now second.now }
    ensures { result ≡ is_overfull (miter first.now second.now) }
{
    let largest = LARGEST as usize;
    let paired = count_pairs(first, second);
    largest < count_variables(first, second, paired)
        || largest < count_bad(first, second)
        || largest < count_constraints(first, second, paired)
}

/// What keeps the second circuit from being compared with the first. No memory is taken.
pub(crate) fn find_pair_fault(first: &Circuit, second: &Circuit) -> Option<Kind>
    requires formed { IsWellFormed first.now }
    requires formed_too { IsWellFormed second.now }
    ensures { result ≡ pair_fault first.now second.now }
{
    if !is_comparable(second) {
        Some(Kind::NotComparable)
    } else if second.inputs.len() != first.inputs.len() {
        Some(Kind::OtherInputs)
    } else if count_compared(second) != count_compared(first) {
        Some(Kind::OtherOutputs)
    } else if is_too_large(first, second) {
        Some(Kind::TooLargeToCompare)
    } else {
        None
    }
}
