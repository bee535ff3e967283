//! First states, as characters.
ghost use Rattle.std.specs.Prelude.{◌≡◌, map};
ghost use Rattle.aig_circuit.specs.declared.circuit.Latch.{Latch as LatchRecord};
ghost use Rattle.aig_witness.specs.Witness.{may_start_at, may_start_in};
ghost use Rattle.aig_lasso.specs.Runs.{value_held};

use aig_circuit::{Latch, Reset};

/// Whether a latch may start at the value of this character.
fn may_start_at(reset: Reset, character: u8) -> bool
    ensures { result ≡ may_start_at reset (value_held character) }
{
    match reset {
        Reset::Zero => character == b'0',
        Reset::One => character == b'1',
        Reset::Uninit => true,
    }
}

/// Whether each latch has a character, and may start at its value.
pub(crate) fn may_start_in(latches: &[Latch], first: &[u8]) -> bool
    ensures { result ≡ may_start_in (map (λ (l : LatchRecord). l.reset) latches.now)
        (map value_held first.now) }
{
    if latches.len() != first.len() {
        return false;
    }
    for place in 0..latches.len() {
        if !may_start_at(latches[place].reset, first[place]) {
            return false;
        }
    }
    true
}
