//! The variables that a circuit with a loop has beside those of the circuit.
ghost use Rattle.std.specs.Prelude.{◌≡◌, ◌≤◌};
ghost use Rattle.aig_circuit.specs.declared.circuit.TheConstants.{LARGEST};
ghost use Rattle.aig_live.specs.WithLoop.{entered, first_closed, first_compared, first_copied};
ghost use Rattle.aig_live.specs.WithLoop.{first_copy, first_here, first_met, first_noted};
ghost use Rattle.aig_live.specs.WithLoop.{outside, save, saving, with_loop};

use aig_circuit::Circuit;

/// The new variables, or the first of each kind: an input, latches, and then gates.
#[derive(Clone, Copy)]
pub(crate) struct Variables {
    /// The input that tells where the loop begins.
    pub(crate) save: u32,
    /// The latch for whether the loop was entered.
    pub(crate) entered: u32,
    /// Latches that copy the state.
    pub(crate) first_copy: u32,
    /// Latches for whether each goal was met.
    pub(crate) first_met: u32,
    /// Whether the state is saved now.
    pub(crate) saving: u32,
    /// What each copy is next.
    pub(crate) first_copied: u32,
    /// Whether each latch differs from its copy.
    pub(crate) first_compared: u32,
    /// Whether the state is the saved one.
    pub(crate) first_here: u32,
    /// Whether the loop was not entered, nor is now.
    pub(crate) outside: u32,
    /// Whether each goal was not met, nor is now.
    pub(crate) first_noted: u32,
    /// Whether the loop is closed.
    pub(crate) first_closed: u32,
    /// The largest index.
    pub(crate) last: u32,
}

impl Variables {
    /// Those behind the variables of this circuit.
    pub(crate) fn behind(circuit: &Circuit) -> Self
        requires { (with_loop circuit.now).max_var ≤ LARGEST }
        ensures save { result.save ≡ save circuit.now }
        ensures entered { result.entered ≡ entered circuit.now }
        ensures first_copy { result.first_copy ≡ first_copy circuit.now }
        ensures first_met { result.first_met ≡ first_met circuit.now }
        ensures saving { result.saving ≡ saving circuit.now }
        ensures first_copied { result.first_copied ≡ first_copied circuit.now }
        ensures first_compared { result.first_compared ≡ first_compared circuit.now }
        ensures first_here { result.first_here ≡ first_here circuit.now }
        ensures outside { result.outside ≡ outside circuit.now }
        ensures first_noted { result.first_noted ≡ first_noted circuit.now }
        ensures first_closed { result.first_closed ≡ first_closed circuit.now }
        ensures last { result.last ≡ (with_loop circuit.now).max_var }
    {
        let latches = circuit.latches.len() as u32;
        let goals = circuit.bad.len() as u32;
        let first_copy = circuit.max_var + 3;
        let first_met = first_copy + latches;
        let saving = first_met + goals;
        let first_copied = saving + 1;
        let first_compared = first_copied + 3 * latches;
        let first_here = first_compared + 3 * latches;
        let outside = first_here + latches;
        let first_noted = outside + 1;
        let first_closed = first_noted + 2 * goals;
        Variables {
            save: circuit.max_var + 1,
            entered: circuit.max_var + 2,
            first_copy,
            first_met,
            saving,
            first_copied,
            first_compared,
            first_here,
            outside,
            first_noted,
            first_closed,
            last: first_closed + 1 + goals,
        }
    }
}
