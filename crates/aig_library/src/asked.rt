//! What is asked for, by numbers: each option is a bit.
ghost use Rattle.std.specs.Prelude.{◌≡◌, ◌↔◌, IsTrue};
ghost use Rattle.aig_library.specs.Asked.{clauses, comparison, conversion, has, justice_conversion};
ghost use Rattle.aig_library.specs.Asked.{limit_of, OnlyHas, proving, reaching, selected};
ghost use Rattle.aig_library.specs.Asked.{simplifies, unrolling};

use aig_command::{
    BadStates, Invariant, Miter, Property, Reach, SolverFile, ToAig, Unroll, UnrolledForm,
};

/// ASCII is written, and not binary.
pub const ASCII: u32 = 1;

/// Symbols and comment are left out.
pub const STRIP: u32 = 2;

/// The comment begins with a map, by which the conversion can be undone.
pub const KEEP_MAP: u32 = 4;

/// A conversion is undone by the map of its image.
pub const UNDO_MAP: u32 = 8;

/// A line of a trace shows bad states and constraints too.
pub const PROPERTIES: u32 = 16;

/// The dump of a trace is written, which shows bad states and constraints too.
pub const VCD: u32 = 32;

/// Outputs become bad states.
pub const OUTPUTS_AS_BAD: u32 = 64;

/// The arrays are those of the binary image, and the new numbers of its variables follow.
pub const ORDERED: u32 = 128;

/// Two circuits are paired by their symbols, and not place by place.
pub const BY_NAME: u32 = 256;

/// A circuit with fewer gates is written that means the same.
pub const SIMPLIFY: u32 = 512;

/// With the limit of a call for clauses added: they are those of the simplified circuit.
pub const SIMPLIFIED: u32 = 0x8000_0000;

/// All bad states, in the place of the number of one.
pub const ALL_BAD: u32 = 0xFFFF_FFFF;

/// With the number of a justice property added, that property in the place of a bad state.
pub const JUSTICE: u32 = 0x8000_0000;

/// Whether this option is among the options.
pub(crate) fn has(options: u32, option: u32) -> bool
    ensures { result ≡ has options option }
{
    options & option != 0
}

/// Whether no option is given but those that are known.
pub(crate) fn only_has(options: u32, known: u32) -> bool
    ensures { IsTrue result ↔ OnlyHas options known }
{
    options | known == known
}

/// The conversion that the options ask for.
pub(crate) fn conversion(options: u32, max_var: u32) -> ToAig
    ensures { result ≡ conversion options max_var }
{
    ToAig {
        ascii: has(options, ASCII),
        strip: has(options, STRIP),
        keep_map: has(options, KEEP_MAP),
        undo_map: has(options, UNDO_MAP),
        bad_states: if has(options, OUTPUTS_AS_BAD) {
            BadStates::Outputs
        } else {
            BadStates::Kept
        },
        simplify: has(options, SIMPLIFY),
        max_var,
    }
}

/// The conversion in which the justice property of this number becomes a bad state.
pub(crate) fn justice_conversion(options: u32, property: u32, max_var: u32) -> ToAig
    ensures { result ≡ justice_conversion options property max_var }
{
    ToAig {
        ascii: has(options, ASCII),
        strip: has(options, STRIP),
        keep_map: false,
        undo_map: false,
        bad_states: BadStates::Justice(property),
        simplify: has(options, SIMPLIFY),
        max_var,
    }
}

/// The unrolling that the options ask for.
pub(crate) fn unrolling(options: u32, frames: u32, max_var: u32) -> Unroll
    ensures { result ≡ unrolling options frames max_var }
{
    let form = if has(options, ASCII) {
        UnrolledForm::Ascii
    } else {
        UnrolledForm::Binary
    };
    Unroll {
        frames,
        form,
        simplify: has(options, SIMPLIFY),
        max_var,
    }
}

/// The limit of a call for clauses.
pub(crate) fn limit_of(max_var: u32) -> u32
    ensures { result ≡ limit_of max_var }
{
    if max_var >= SIMPLIFIED {
        max_var - SIMPLIFIED
    } else {
        max_var
    }
}

/// Whether its clauses are those of the simplified circuit.
fn simplifies(max_var: u32) -> bool
    ensures { result ≡ simplifies max_var }
{
    max_var >= SIMPLIFIED
}

/// The property of this number: all bad states, a justice property, or one bad state.
fn selected(property: u32) -> Property
    ensures { result ≡ selected property }
{
    if property == ALL_BAD {
        Property::AnyBad
    } else if property >= JUSTICE {
        Property::Justice(property - JUSTICE)
    } else {
        Property::Bad(property)
    }
}

/// The clauses that are asked for.
pub(crate) fn clauses(property: u32, frames: u32, max_var: u32) -> Unroll
    ensures { result ≡ clauses property frames max_var }
{
    Unroll {
        frames,
        form: UnrolledForm::Clauses {
            property: selected(property),
        },
        simplify: simplifies(max_var),
        max_var: limit_of(max_var),
    }
}

/// The request for what a solver wrote on these clauses.
pub(crate) fn reaching(wrote: SolverFile, property: u32, frames: u32, max_var: u32) -> Reach
    ensures { result ≡ reaching wrote property frames max_var }
{
    Reach {
        frames,
        property: selected(property),
        max_var: limit_of(max_var),
        wrote,
        lrat: false,
        simplify: simplifies(max_var),
    }
}

/// The request for the clauses in which an invariant is to be shown, or for a check of their
/// refutation.
pub(crate) fn proving(refuted: bool, property: u32, max_var: u32) -> Invariant
    ensures { result ≡ proving refuted property max_var }
{
    Invariant {
        property: selected(property),
        max_var: limit_of(max_var),
        refuted,
        lrat: false,
        simplify: simplifies(max_var),
    }
}

/// The comparison that the options ask for.
pub(crate) fn comparison(options: u32, max_var: u32) -> Miter
    ensures { result ≡ comparison options max_var }
{
    Miter {
        ascii: has(options, ASCII),
        by_name: has(options, BY_NAME),
        simplify: has(options, SIMPLIFY),
        max_var,
    }
}
