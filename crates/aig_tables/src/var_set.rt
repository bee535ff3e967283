//! Sets of variables.
ghost use Rattle.std.specs.Prelude.{◌≡◌, IfOk, OnOk, OnErr, not};
ghost use Rattle.std.specs.Ordering.{nat_cmp};
ghost use Rattle.std.specs.FinSet as set;
ghost use Rattle.std.specs.Coded.{coded_ℕ};
ghost use Rattle.aig_tables.specs.VarMap.{keys_of};

use crate::var_map::VarMap;
use aig_circuit::Var;
use std::alloc::{AllocError, Global};
use std::marker::Model;

/// A set of variables: a map that has nothing to say of them.
#[derive(Drop)]
pub struct VarSet {
    marks: VarMap<()>,
}

impl Model for VarSet {
    ghost Value = { set.FinSet nat_cmp };

    ghost coded = { set.code coded_ℕ };

    ghost view = { λ a. keys_of a.marks };
}

impl VarSet {
    /// An empty set that is fast for about so many variables, of indices up to the largest one. Its
    /// memory grows with their number, and not with the largest index.
    pub fn new(alloc: Global, expected: usize, largest: u32) -> Result<Self, AllocError>
        ensures { IfOk result (λ variables. variables ≡ set.empty) }
    {
        Ok(VarSet {
            marks: VarMap::new(alloc, expected, largest)?,
        })
    }

    /// Whether it has the variable.
    #[inline(always)]
    pub fn contains(&self, var: Var) -> bool
        ensures { result ≡ set.contains self.now var }
    {
        self.marks.get(var).is_some()
    }

    /// Adds a variable, and answers whether it is new.
    #[inline(always)]
    pub fn insert(&mut self, var: Var) -> Result<bool, AllocError>
        ensures added { IfOk result (λ added. added ≡ not (set.contains self.old var)) }
        ensures ok { OnOk result (self.new ≡ set.insert self.old var) }
        ensures err { OnErr result (self.new ≡ self.old) }
    {
        self.marks.insert(var, ())
    }
}
