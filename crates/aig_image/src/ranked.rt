//! Ranks of variables. Where what a circuit defines is spread over many indices, its ranks have no
//! gaps, so numbers that are kept by rank lie close together.
ghost use Rattle.std.specs.Prelude.{◌≡◌, ◌<◌, ◌≤◌, ◌++◌, ℕ, false, map, length};
ghost use Rattle.std.specs.Prelude.{IfOk, OnOk, IsTrue};
ghost use Rattle.std.specs.List.{AllByRecursion};
ghost use Rattle.std.specs.Option.{IfSome};
ghost use Rattle.aig_circuit.specs.declared.circuit.Gate.{Gate as GateRecord};
ghost use Rattle.aig_circuit.specs.declared.circuit.TheConstants.{LARGEST as largest};
ghost use Rattle.aig_tables.specs.Parts.Ranks.{is_announced};
ghost use Rattle.aig_image.specs.Parts.Numbers.{first_variables};
ghost use Rattle.aig_image.specs.Parts.Ranked.{rank_label, HasRank};
ghost use Rattle.aig_image.specs.Relabelled.{relabelled_gate};

use crate::labelling::{Labels, NamesVariables};
use crate::numbers::{Defines, FirstVariables, Numbers};
use aig_circuit::{Circuit, Gate, LARGEST, Var};
use aig_tables::Ranks;
use std::alloc::{AllocError, Global};

/// Ranks of variables, from 1 on.
#[derive(Drop)]
pub(crate) struct VariableRanks {
    ranks: Ranks,
    ghost few: { ranks.count < largest },
    ghost constant: { is_announced ranks.words.items 0 ≡ false },
}

/// The ranks of inputs and latches.
#[derive(Drop)]
pub(crate) struct FirstRanks {
    ranks: Vec<Var>,
    /// The largest rank that a variable has.
    largest: u32,
}

impl FirstVariables for FirstRanks {
    ghost variables = { λ f. f.ranks.items };

    fn numbers(&self, alloc: Global) -> Result<Numbers, AllocError> {
        Numbers::of_variables(alloc, self.ranks.as_slice(), self.largest)
    }
}

impl Labels for VariableRanks {
    ghost label = { λ r. rank_label r.ranks };

    /// The rank of a variable: 0 of the constant, and above all others where it has none.
    #[tactic(auto, using(crate::proofs::Numbering::Ranked::rank_fits))]
    #[inline(always)]
    fn label(&self, var: Var) -> Var {
        let index = var.0 as usize;
        if self.ranks.has(index) {
            Var(1 + self.ranks.rank(index) as u32)
        } else if index == 0 {
            Var(0)
        } else {
            Var(1 + self.ranks.count() as u32)
        }
    }
}

impl VariableRanks {
    /// Those of what a circuit defines, or none where there are too many, or the constant has one.
    pub(crate) fn of_circuit(alloc: Global, circuit: &Circuit) -> Result<Option<Self>, AllocError> {
        let ranks = Ranks::of_circuit(alloc, circuit)?;
        if ranks.has(0) || ranks.count() >= LARGEST as usize {
            return Ok(None);
        }
        Ok(Some(VariableRanks { ranks }))
    }

    /// How many there are.
    pub(crate) fn count(&self) -> u32
        ensures { result ≡ self.now.ranks.count }
    {
        self.ranks.count() as u32
    }

    /// Adds the ranks of what items define. Answers whether each has one.
    fn add_ranks<T: Defines>(&self, ranks: &mut Vec<Var>, items: &[T]) -> Result<bool, AllocError>
        ensures ranks { OnOk result (ranks.new.items
            ≡ ranks.old.items ++ map (λ x. rank_label self.now.ranks (T.variable x)) items.now) }
        ensures all { IfOk result (λ all. IsTrue all
            → AllByRecursion (λ x. HasRank self.now.ranks (T.variable x)) items.now) }
    {
        let mut all = true;
        for item in items {
            let rank = self.label(item.variable());
            all &= rank.0 <= self.count();
            ranks.push(rank)?;
        }
        Ok(all)
    }

    /// The ranks of inputs and latches, if each has one.
    pub(crate) fn of_first(
        &self,
        alloc: Global,
        circuit: &Circuit,
    ) -> Result<Option<FirstRanks>, AllocError>
        ensures ranks { IfOk result (λ some. IfSome some (λ first.
            first.ranks.items ≡ map (rank_label self.now.ranks) (first_variables circuit.now))) }
        ensures all { IfOk result (λ some. IfSome some (λ _.
            AllByRecursion (HasRank self.now.ranks) (first_variables circuit.now))) }
    {
        let mut ranks = Vec::new(alloc);
        let have_inputs = self.add_ranks(&mut ranks, circuit.inputs.as_slice())?;
        let have_latches = self.add_ranks(&mut ranks, circuit.latches.as_slice())?;
        if have_inputs && have_latches {
            let largest = self.count();
            Ok(Some(FirstRanks { ranks, largest }))
        } else {
            Ok(None)
        }
    }

    /// Gates by the ranks of their variables. Answers whether what they define has ranks.
    pub(crate) fn relabel_gates(&self, gates: &mut [Gate]) -> bool
        ensures gates { gates.new ≡ map (relabelled_gate (rank_label self.now.ranks)) gates.old }
        ensures all { IsTrue result
            → AllByRecursion (λ (g : GateRecord). HasRank self.now.ranks g.var) gates.old }
    {
        let mut all = true;
        for at in 0..gates.len() {
            let gate = gates[at].relabel(self);
            all &= gate.var.0 <= self.count();
            gates[at] = gate;
        }
        all
    }
}
