//! Variables that are found, each once.
ghost use Rattle.std.specs.Prelude.{◌≡◌, ◌∷◌, ◌++◌, [], IfOk, OnOk, IsTrue};
ghost use Rattle.aig_cone.specs.Parts.Search.{HasMarks, with_one};

use aig_circuit::{Circuit, Var};
use aig_tables::VarSet;
use std::alloc::{AllocError, Global};

/// Variables in the order in which they are found, with a mark for each.
#[derive(Drop)]
pub(crate) struct Found {
    pub(crate) marks: VarSet,
    pub(crate) list: Vec<Var>,
}

impl Found {
    /// None, of those that a circuit defines.
    pub(crate) fn new(alloc: Global, circuit: &Circuit) -> Result<Self, AllocError>
        ensures marks { IfOk result (λ found. HasMarks found) }
        ensures none { IfOk result (λ found. found.list.items ≡ []) }
    {
        Ok(Found {
            marks: VarSet::new(alloc, circuit.definition_count(), circuit.max_var)?,
            list: Vec::new(alloc),
        })
    }

    /// Adds a variable, unless it is there.
    pub(crate) fn add(&mut self, var: Var) -> Result<(), AllocError>
        requires { HasMarks self.old }
        ensures marks { OnOk result (HasMarks self.new) }
        ensures added { OnOk result (self.new.list.items ≡ with_one self.old.list.items var) }
    {
        if self.marks.insert(var)? {
            self.list.push(var)?;
        }
        Ok(())
    }
}
