//! The memory that a dump needs.
ghost use Rattle.std.specs.Prelude.{◌≡◌, IfOk};
ghost use Rattle.aig_wave.specs.Layout.{layout_of};
ghost use Rattle.aig_wave.specs.Parts.Points.{begin_of};

use crate::dump_state::DumpState;
use crate::layout::Layout;
use aig_checked::Checked;
use aig_circuit::OutOfMemory;
use std::alloc::Global;
use std::marker::Model;

/// All memory that a dump needs, and what it shows of a circuit.
#[derive(Drop)]
pub struct WaveMemory {
    dump_state: DumpState,
}

impl Model for WaveMemory {
    ghost use Rattle.std.specs.Prelude.{◌≡◌};
    ghost use Rattle.aig_wave.specs.Layout.{Layout as LayoutRecord};
    ghost use Rattle.aig_wave.specs.Parts.Points.{begin_of};

    ghost Value = { LayoutRecord };

    ghost view = { λ r. r.dump_state.layout };

    ghost invariant = { λ r. r.dump_state.point ≡ begin_of r.dump_state.layout };
}

impl WaveMemory {
    /// Takes the memory for the dump of a trace of this circuit.
    pub fn new(alloc: Global, checked: &Checked) -> Result<Self, OutOfMemory>
        ensures { IfOk result (λ r. r ≡ layout_of checked.now) }
    {
        let layout = Layout::new(alloc, checked.circuit())?;
        let dump_state = DumpState::new(alloc, layout)?;
        Ok(WaveMemory { dump_state })
    }

    /// Where the dump stands, before the first frame.
    pub(crate) fn into_dump_state(self) -> DumpState
        ensures { result ≡ record { layout = self; point = begin_of self } }
    {
        let WaveMemory { dump_state } = self;
        dump_state
    }
}
