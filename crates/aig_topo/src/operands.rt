//! Which gates the operands of gates are over.
ghost use Rattle.std.specs.Prelude.{◌≡◌, ◌<◌, ℕ, length};
ghost use Rattle.std.specs.Option.{IfSome};
ghost use Rattle.std.specs.FinMap.{get};
ghost use Rattle.aig_circuit.specs.Literal.{variable_of};
ghost use Rattle.aig_tables.specs.VarMap.{link_to};
ghost use Rattle.aig_topo.specs.Needs.{under};

use aig_circuit::{Gate, LARGEST};
use aig_tables::VarMap;

/// The gates that a gate's operands are over: each one more than its position, or 0 for none.
#[derive(Clone, Copy)]
pub struct Needs {
    pub left: u32,
    pub right: u32,
}

impl Needs {
    #[inline(always)]
    pub(crate) fn count(self) -> u8
        ensures { result ≡ length (under self) }
    {
        u8::from(self.left > 0) + u8::from(self.right > 0)
    }
}

#[inline(always)]
pub(crate) fn look_up(index: &VarMap<u32>, gate: &Gate) -> Needs
    requires { (v : ℕ) → IfSome (get index.now v) (λ at. at < LARGEST) }
    ensures { result ≡ record {
      left = link_to (get index.now (variable_of gate.now.left));
      right = link_to (get index.now (variable_of gate.now.right));
    } }
{
    Needs {
        left: index.link(gate.left.var()),
        right: index.link(gate.right.var()),
    }
}
