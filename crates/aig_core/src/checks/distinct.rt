//! Whether a circuit defines each variable once, where its variables lie far apart: they are put into
//! parts, and a set is made of one part after the other.
ghost use Rattle.std.specs.Prelude.{◌≡◌, ◌↔◌, ◌<◌, ◌++◌, ◌∷◌, [], List};
ghost use Rattle.std.specs.Prelude.{ℕ, IsTrue, IfOk, OnOk, length};
ghost use Rattle.std.specs.Prelude.{slice_index_or};
ghost use Rattle.std.specs.List.{flat_map};
ghost use Rattle.aig_circuit.specs.Wellformed.{AreDistinct, defined_variables};
ghost use Rattle.aig_core.specs.Parts.Parted.{AreParts};

use crate::checks::faults::define_all;
use aig_circuit::{Circuit, Entry, Listing, OutOfMemory, Var};
use aig_fault::Stopped;
use aig_tables::{Spacing, VarSet};
use std::alloc::Global;

/// How many parts there are. Of a million variables a part has some thousands, and a set of so many
/// stays near the processor, where one of all variables would be waited for at each of them.
const PARTS: usize = 256;

/// Whether a set of what a circuit defines has no bit for each index.
pub(super) fn is_far(circuit: &Circuit) -> bool {
    matches!(Spacing::of_circuit(circuit), Spacing::Far)
}

fn empty_parts(alloc: Global) -> Result<Vec<Listing<Var>>, OutOfMemory>
    ensures { IfOk result (λ parts. AreParts parts.items []) }
{
    let mut parts = Vec::with_capacity(alloc, PARTS)?;
    for _ in 0..PARTS {
        parts.push(Listing::new(alloc))?;
    }
    Ok(parts)
}

/// Puts a variable into its part.
#[inline(always)]
fn put(parts: &mut [Listing<Var>], variable: Var) -> Result<(), OutOfMemory>
    requires { length parts.old ≡ PARTS }
    ensures many { length parts.new ≡ PARTS }
    ensures put { OnOk result ((all : List ℕ) → AreParts parts.old all
        → AreParts parts.new (all ++ variable ∷ [])) }
{
    parts[variable.0 as usize % PARTS].push(variable)?;
    Ok(())
}

#[inline(always)]
fn put_definition<T: Entry>(parts: &mut [Listing<Var>], entry: &T) -> Result<(), OutOfMemory>
    requires { length parts.old ≡ PARTS }
    ensures many { length parts.new ≡ PARTS }
    ensures put { OnOk result ((all : List ℕ) → AreParts parts.old all
        → AreParts parts.new (all ++ T.defined entry.now)) }
{
    match entry.definition() {
        Some(variable) => put(parts, variable),
        None => Ok(()),
    }
}

fn put_all<T: Entry>(parts: &mut [Listing<Var>], entries: &Listing<T>) -> Result<(), OutOfMemory>
    requires { length parts.old ≡ PARTS }
    ensures many { length parts.new ≡ PARTS }
    ensures put { OnOk result ((all : List ℕ) → AreParts parts.old all
        → AreParts parts.new (all ++ flat_map T.defined entries.now)) }
{
    for entry in entries.as_slice() {
        put_definition(parts, entry)?;
    }
    Ok(())
}

fn is_distinct(alloc: Global, part: &Listing<Var>, largest: u32) -> Result<bool, OutOfMemory>
    ensures { IfOk result (λ once. IsTrue once ↔ AreDistinct part.now) }
{
    let mut seen = VarSet::new(alloc, part.len(), largest)?;
    match define_all(&mut seen, part) {
        Ok(()) => Ok(true),
        Err(Stopped::Refused(_)) => Ok(false),
        Err(_) => Err(OutOfMemory),
    }
}

fn are_distinct(alloc: Global, parts: &[Listing<Var>], largest: u32) -> Result<bool, OutOfMemory>
    ensures { IfOk result (λ once. IsTrue once
        ↔ ((k : ℕ) → k < length parts.now → AreDistinct (slice_index_or parts.now k []))) }
{
    for at in 0..parts.len() {
        if !is_distinct(alloc, &parts[at], largest)? {
            return Ok(false);
        }
    }
    Ok(true)
}

pub(super) fn is_defined_once_by_parts(
    alloc: Global,
    circuit: &Circuit,
) -> Result<bool, OutOfMemory>
    ensures { IfOk result (λ once. IsTrue once ↔ AreDistinct (defined_variables circuit.now)) }
{
    let mut parts = empty_parts(alloc)?;
    put_all(&mut parts, &circuit.inputs)?;
    put_all(&mut parts, &circuit.latches)?;
    put_all(&mut parts, &circuit.gates)?;
    are_distinct(alloc, &parts, circuit.max_var)
}
