//! What is found of a circuit's gates by their variables, to be used once more.
ghost use Rattle.std.specs.Prelude.{◌≡◌, List, IfOk};
ghost use Rattle.std.specs.FinMap.{get};
ghost use Rattle.aig_circuit.specs.declared.circuit.Gate.{Gate as GateRecord};
ghost use Rattle.aig_topo.specs.Index.{IsIndexOf};
ghost use Rattle.aig_topo.specs.Lists.{AreNeedsOf};
ghost use Rattle.aig_topo.specs.Resolved.{IsResolved};

use crate::index::GateIndex;
use crate::lists::GateNeeds;
use crate::operands::Needs;
use aig_circuit::Var;
use std::alloc::{AllocError, Global};

/// Which gate defines each variable, and what each gate needs: found once, so that who uses it
/// after the order was made need not look for each operand once more.
#[derive(Drop)]
pub struct Resolved {
    pub(crate) index: GateIndex,
    pub(crate) needs: Vec<Needs>,
}

impl Resolved {
    /// An order that is made of the needs ends them, so they are copied.
    pub fn new(alloc: Global, index: GateIndex, needs: &GateNeeds) -> Result<Self, AllocError>
        ensures { IfOk result (λ resolved. (gates : List GateRecord) → IsIndexOf gates index
            → AreNeedsOf gates needs.now → IsResolved gates resolved) }
    {
        Ok(Resolved {
            index,
            needs: needs.copy(alloc)?,
        })
    }

    /// The position of the gate that defines a variable.
    #[inline(always)]
    pub fn position(&self, var: Var) -> Option<u32>
        ensures { result ≡ get self.now.index.positions var }
    {
        self.index.positions.get(var)
    }

    /// What each gate needs.
    pub fn needs(&self) -> &[Needs]
        ensures { result.now ≡ self.now.needs.items }
    {
        self.needs.as_slice()
    }
}
