//! What a conversion keeps of its map until it is written: eight bytes for each gate, where a block
//! takes twelve, since the gates of the source and of the image are held beside it.
ghost use Rattle.std.specs.Prelude.{◌≡◌, ◌/◌, ◌%◌, ◌==◌, ◌≤◌};
ghost use Rattle.aig_circuit.specs.declared.circuit.TheConstants.{LARGEST};
ghost use Rattle.aig_map.specs.Parts.NewPlace.{new_place};

use aig_core::Var;
use std::marker::Model;

/// What became of a gate: twice its place in the image, plus one where its operands changed places.
#[derive(Clone, Copy)]
pub(crate) struct NewPlace(u32);

impl Model for NewPlace {
    ghost use Rattle.std.specs.Prelude.{ℕ};

    ghost Value = { ℕ };

    ghost view = { λ t. t.0 };

    ghost inverse = { λ n. record { 0 = n } };
}

impl NewPlace {
    #[inline(always)]
    pub(crate) fn new(place: u32, exchanged: bool) -> Self
        requires { place ≤ LARGEST }
        ensures { result ≡ new_place place exchanged }
    {
        NewPlace(2 * place + u32::from(exchanged))
    }

    #[inline(always)]
    pub(crate) fn place(self) -> u32
        ensures { result ≡ self / 2 }
    {
        self.0 / 2
    }

    #[inline(always)]
    pub(crate) fn is_exchanged(self) -> bool
        ensures { result ≡ (self % 2 == 1) }
    {
        self.0 % 2 == 1
    }
}

/// The variables that the lines of a block have, kept while the circuit's own become others.
#[derive(Drop)]
pub struct KeptVariables {
    /// The variable of each input.
    pub(crate) inputs: Vec<Var>,
    /// The variable of each latch.
    pub(crate) latches: Vec<Var>,
    /// The variable of each gate.
    pub(crate) gates: Vec<Var>,
}

/// A map block that is kept until it is written.
#[derive(Drop)]
pub struct KeptMap {
    /// The largest variable index of the source.
    pub(crate) max_var: u32,
    /// The variables of its inputs, latches and gates.
    pub(crate) variables: KeptVariables,
    /// What became of each of its gates.
    pub(crate) new_places: Vec<NewPlace>,
    /// Whether it had a comment section.
    pub(crate) has_comment: bool,
}

impl Model for KeptMap {
    ghost use Rattle.std.specs.Prelude.{◌≡◌, length};
    ghost use Rattle.aig_map.specs.declared.map_block.MapBlock.{MapBlock};
    ghost use Rattle.aig_map.specs.Parts.NewPlace.{gates_recorded};

    ghost Value = { MapBlock };

    ghost view = { λ m. record {
      max_var = m.max_var;
      inputs = m.variables.inputs.items;
      latches = m.variables.latches.items;
      gates = gates_recorded m.variables.gates.items m.new_places.items;
      has_comment = m.has_comment;
    } };

    ghost invariant = { λ m. length m.new_places.items ≡ length m.variables.gates.items };
}
