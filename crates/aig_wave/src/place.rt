//! Where the characters of each kind stand in the line of a step.
ghost use Rattle.std.specs.Prelude.{◌≡◌};
ghost use Rattle.aig_circuit.specs.Wellformed.{IsWithinLimits, count_of};
ghost use Rattle.aig_wave.specs.Places.{letter, next_place, place, width};

use aig_circuit::{Circuit, Kind};

/// The letter of a kind.
pub(crate) fn letter(kind: Kind) -> u8
    ensures { result ≡ letter kind }
{
    match kind {
        Kind::Input => b'i',
        Kind::Latch => b'l',
        Kind::Output => b'o',
        Kind::Bad => b'b',
        Kind::Constraint => b'c',
        Kind::Justice => b'j',
        Kind::Fairness => b'f',
    }
}

/// How many there are of a kind.
pub(crate) fn count_of(circuit: &Circuit, kind: Kind) -> usize
    ensures { result ≡ count_of circuit.now kind }
{
    match kind {
        Kind::Input => circuit.inputs.len(),
        Kind::Latch => circuit.latches.len(),
        Kind::Output => circuit.outputs.len(),
        Kind::Bad => circuit.bad.len(),
        Kind::Constraint => circuit.constraints.len(),
        Kind::Justice => circuit.justice.sizes.len(),
        Kind::Fairness => circuit.fairness.len(),
    }
}

/// Where the next state begins.
pub(crate) fn next_place(circuit: &Circuit) -> usize
    requires { IsWithinLimits circuit.now }
    ensures { result ≡ next_place circuit.now }
{
    circuit.latches.len() + 1 + circuit.inputs.len() + 1 + circuit.outputs.len() + 1
}

/// Where the characters of a kind begin.
pub(crate) fn place(circuit: &Circuit, kind: Kind) -> usize
    requires { IsWithinLimits circuit.now }
    ensures { result ≡ place circuit.now kind }
{
    match kind {
        Kind::Input => circuit.latches.len() + 1,
        Kind::Output => circuit.latches.len() + 1 + circuit.inputs.len() + 1,
        Kind::Bad => next_place(circuit) + circuit.latches.len() + 1,
        Kind::Constraint => next_place(circuit) + circuit.latches.len() + 1 + circuit.bad.len() + 1,
        _ => 0,
    }
}

/// How long the line is, without its line feed.
pub(crate) fn width(circuit: &Circuit) -> usize
    requires { IsWithinLimits circuit.now }
    ensures { result ≡ width circuit.now }
{
    next_place(circuit)
        + circuit.latches.len()
        + 1
        + circuit.bad.len()
        + 1
        + circuit.constraints.len()
}
