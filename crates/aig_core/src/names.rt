//! What symbols name.
ghost use Rattle.std.specs.Prelude.{◌≡◌, IfOk, OnOk, OnErr, not};
ghost use Rattle.std.specs.FinSet as set;
ghost use Rattle.aig_core.specs.Names.{is_named, nothing_named, with_name};

use aig_circuit::{Kind, Var};
use aig_tables::VarSet;
use std::alloc::{AllocError, Global};

/// How many things of each kind a circuit has.
#[derive(Clone, Copy)]
pub struct NamedCounts {
    pub inputs: u32,
    pub latches: u32,
    pub outputs: u32,
    pub bad: u32,
    pub constraints: u32,
    pub justice: u32,
    pub fairness: u32,
}

/// What has a name, by its kind and its position.
#[derive(Drop)]
pub struct Names {
    inputs: VarSet,
    latches: VarSet,
    outputs: VarSet,
    bad: VarSet,
    constraints: VarSet,
    justice: VarSet,
    fairness: VarSet,
}

fn no_positions(alloc: Global, count: u32) -> Result<VarSet, AllocError>
    ensures { IfOk result (λ positions. positions ≡ set.empty) }
{
    VarSet::new(alloc, count as usize, count)
}

/// What has a name among inputs, latches and outputs.
#[derive(Drop)]
struct NamedEnds {
    inputs: VarSet,
    latches: VarSet,
    outputs: VarSet,
}

/// What has a name among the properties.
#[derive(Drop)]
struct NamedProperties {
    bad: VarSet,
    constraints: VarSet,
    justice: VarSet,
    fairness: VarSet,
}

fn no_two(alloc: Global, first: u32, second: u32) -> Result<(VarSet, VarSet), AllocError>
    ensures first { IfOk result (λ two. two.0 ≡ set.empty) }
    ensures second { IfOk result (λ two. two.1 ≡ set.empty) }
{
    let first = no_positions(alloc, first)?;
    match no_positions(alloc, second) {
        Ok(second) => Ok((first, second)),
        Err(refused) => {
            drop(first); // for the proof
            Err(refused)
        }
    }
}

fn no_ends(alloc: Global, counts: &NamedCounts) -> Result<NamedEnds, AllocError>
    ensures inputs { IfOk result (λ ends. ends.inputs ≡ set.empty) }
    ensures latches { IfOk result (λ ends. ends.latches ≡ set.empty) }
    ensures outputs { IfOk result (λ ends. ends.outputs ≡ set.empty) }
{
    let (inputs, latches) = no_two(alloc, counts.inputs, counts.latches)?;
    match no_positions(alloc, counts.outputs) {
        Ok(outputs) => Ok(NamedEnds {
            inputs,
            latches,
            outputs,
        }),
        Err(refused) => {
            drop(inputs); // for the proof
            drop(latches); // for the proof
            Err(refused)
        }
    }
}

fn no_properties(alloc: Global, counts: &NamedCounts) -> Result<NamedProperties, AllocError>
    ensures bad { IfOk result (λ properties. properties.bad ≡ set.empty) }
    ensures constraints { IfOk result (λ properties. properties.constraints ≡ set.empty) }
    ensures justice { IfOk result (λ properties. properties.justice ≡ set.empty) }
    ensures fairness { IfOk result (λ properties. properties.fairness ≡ set.empty) }
{
    let (bad, constraints) = no_two(alloc, counts.bad, counts.constraints)?;
    match no_two(alloc, counts.justice, counts.fairness) {
        Ok((justice, fairness)) => Ok(NamedProperties {
            bad,
            constraints,
            justice,
            fairness,
        }),
        Err(refused) => {
            drop(bad); // for the proof
            drop(constraints); // for the proof
            Err(refused)
        }
    }
}

impl Names {
    /// None yet, for a circuit with so many things of each kind. It takes a bit for each of them.
    pub fn new(alloc: Global, counts: NamedCounts) -> Result<Self, AllocError>
        ensures { IfOk result (λ names. names ≡ nothing_named) }
    {
        // In groups: seven sets that may each fail beside those before took two minutes to prove.
        let ends = no_ends(alloc, &counts)?;
        match no_properties(alloc, &counts) {
            Ok(properties) => Ok(Names {
                inputs: ends.inputs,
                latches: ends.latches,
                outputs: ends.outputs,
                bad: properties.bad,
                constraints: properties.constraints,
                justice: properties.justice,
                fairness: properties.fairness,
            }),
            Err(refused) => {
                drop(ends); // for the proof
                Err(refused)
            }
        }
    }

    /// Adds what has this position among its kind, and answers whether it had no name before.
    pub fn insert(&mut self, kind: Kind, position: u32) -> Result<bool, AllocError>
        ensures added { IfOk result (λ added. added ≡ not (is_named self.old kind position)) }
        ensures ok { OnOk result (self.new ≡ with_name self.old kind position) }
        ensures err { OnErr result (self.new ≡ self.old) }
    {
        let named = Var(position);
        match kind {
            Kind::Input => self.inputs.insert(named),
            Kind::Latch => self.latches.insert(named),
            Kind::Output => self.outputs.insert(named),
            Kind::Bad => self.bad.insert(named),
            Kind::Constraint => self.constraints.insert(named),
            Kind::Justice => self.justice.insert(named),
            Kind::Fairness => self.fairness.insert(named),
        }
    }
}
