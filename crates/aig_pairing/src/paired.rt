//! What is paired of two circuits.
ghost use Rattle.std.specs.Prelude.{◌≡◌, ◌≤◌};
ghost use Rattle.aig_circuit.specs.declared.circuit.TheConstants.{LARGEST};
ghost use Rattle.aig_pairing.specs.NameFaults.{place_of};
ghost use Rattle.aig_pairing.specs.Names.{place_among};

use aig_circuit::Kind;
use aig_fault::Place;

/// A list of things that are paired with those of another circuit.
#[derive(Clone, Copy)]
pub(crate) enum Paired {
    /// The inputs.
    Inputs,
    /// What is compared: so many outputs, and then the bad states.
    Compared(u32),
}

impl Paired {
    /// Where in the list the thing of this kind and position stands, if it does.
    pub(crate) fn place_among(self, kind: Kind, position: u32) -> Option<usize>
        ensures { result ≡ place_among self kind position }
    {
        match (self, kind) {
            (Paired::Inputs, Kind::Input) => Some(position as usize),
            (Paired::Compared(_), Kind::Output) => Some(position as usize),
            (Paired::Compared(outputs), Kind::Bad) => Some(outputs as usize + position as usize),
            _ => None,
        }
    }

    /// How a fault says the place of a thing of the list.
    pub(crate) fn place_of(self, at: usize) -> Place
        ensures { result ≡ place_of self at }
    {
        match self {
            Paired::Inputs => Place::Input(at as u64),
            Paired::Compared(outputs) if at < outputs as usize => Place::Output(at as u64),
            Paired::Compared(outputs) => Place::Bad((at - outputs as usize) as u64),
        }
    }
}
