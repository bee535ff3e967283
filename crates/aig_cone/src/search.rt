//! The search for a cone.
ghost use Rattle.std.specs.Prelude.{◌≡◌, ◌<◌, length, map, IfOk, OnOk};
ghost use Rattle.aig_circuit.specs.Literal.{variable_of};
ghost use Rattle.aig_circuit.specs.Wellformed.{AreDistinct, IsWellFormed};
ghost use Rattle.aig_cone.specs.Cone.{IsConeOf};
ghost use Rattle.aig_cone.specs.Parts.Search.{HasMarks, HasPlaces, IsSearched, definers, needs_at, with_all};

use crate::found::Found;
use crate::places::places_of;
use aig_circuit::{Circuit, Lit, OutOfMemory};
use aig_tables::{VarMap, VarSet};
use std::alloc::{AllocError, Global};

/// How far a cone reaches.
#[derive(Clone, Copy, PartialEq)]
pub enum Reach {
    /// Through gates alone: what literals depend on in one step.
    OneStep,
    /// Through the next states of latches too.
    AllSteps,
}

fn add_given(found: &mut Found, literals: &[Lit]) -> Result<(), AllocError>
    requires { HasMarks found.old }
    ensures marks { OnOk result (HasMarks found.new) }
    ensures added { OnOk result (found.new.list.items
        ≡ with_all found.old.list.items (map variable_of literals.now)) }
{
    for literal in literals {
        found.add(literal.var())?;
    }
    Ok(())
}

/// Adds what the latch or gate at a place needs.
fn add_needs(
    found: &mut Found,
    reach: Reach,
    circuit: &Circuit,
    place: usize,
) -> Result<(), AllocError>
    requires marks { HasMarks found.old }
    requires there { place < length (definers circuit.now) }
    ensures marks { OnOk result (HasMarks found.new) }
    ensures added { OnOk result (found.new.list.items
        ≡ with_all found.old.list.items (needs_at reach circuit.now place)) }
{
    let latches = circuit.latches.len();
    if place >= latches {
        let gate = circuit.gates[place - latches];
        found.add(gate.left.var())?;
        return found.add(gate.right.var());
    }
    match reach {
        Reach::OneStep => Ok(()),
        Reach::AllSteps => found.add(circuit.latches[place].next.var()),
    }
}

/// Adds what is needed by each that is found, in turn.
fn search_all(
    found: &mut Found,
    reach: Reach,
    circuit: &Circuit,
    places: &VarMap<u32>,
) -> Result<(), AllocError>
    requires marks { HasMarks found.old }
    requires apart { AreDistinct found.old.list.items }
    requires formed { IsWellFormed circuit.now }
    requires places { HasPlaces (definers circuit.now) places.now }
    ensures marks { OnOk result (HasMarks found.new) }
    ensures searched { OnOk result (IsSearched reach circuit.now found.old.list.items found.new.list.items) }
{
    let mut at = 0;
    while at < found.list.len() {
        match places.get(found.list[at]) {
            Some(place) => add_needs(found, reach, circuit, place as usize)?,
            None => {}
        }
        at += 1;
    }
    Ok(())
}

/// The variables on which literals depend.
pub fn cone_of(
    alloc: Global,
    circuit: &Circuit,
    literals: &[Lit],
    reach: Reach,
) -> Result<VarSet, OutOfMemory>
    requires { IsWellFormed circuit.now }
    ensures { IfOk result (IsConeOf reach circuit.now literals.now) }
{
    let places = places_of(alloc, circuit)?;
    let mut found = Found::new(alloc, circuit)?;
    add_given(&mut found, literals)?;
    search_all(&mut found, reach, circuit, &places)?;
    Ok(found.marks)
}
