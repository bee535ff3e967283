//! One bad state of a circuit, taken alone.
ghost use Rattle.std.specs.Prelude.{◌≡◌, ◌<◌, [], ◌∷◌, IfErr, IfOk, OnOk, Some, length};
ghost use Rattle.std.specs.Prelude.{slice_index_or};
ghost use Rattle.aig_replay.specs.Alone.{HasSelected, NotSelected, selected_of, with_bad_alone};

use aig_core::{Checked, Circuit, Listing, Lit, Symbols};
use aig_fault::{Kind, Place, Stopped, refused};
use std::alloc::Global;

/// The list of the bad state of this number.
fn bad_alone(alloc: Global, circuit: &Circuit, number: u32) -> Result<Listing<Lit>, Stopped>
    ensures ok { IfOk result (λ bad. bad ≡ slice_index_or circuit.now.bad number 0 ∷ []) }
    ensures there { OnOk result (number < length circuit.now.bad) }
    ensures err { IfErr result (NotSelected (Some number) circuit.now) }
{
    let bad = circuit.bad.as_slice();
    let place = number as usize;
    if bad.len() <= place {
        return Err(refused(Kind::NoSuchBadState, Place::Whole, number));
    }
    Ok(Listing::from_vec(vec![in alloc; bad[place]; 1]?))
}

/// The circuit with this list of its bad states, and no symbols.
#[tactic(auto, using(crate::proofs::BadAlone::alone_is_well_formed))]
fn with_bad_alone(found: Checked, number: u32, bad: Listing<Lit>, symbols: Symbols) -> Checked
    requires there { number < length found.bad }
    requires bad { bad ≡ slice_index_or found.bad number 0 ∷ [] }
    requires symbols { symbols ≡ [] }
    ensures { result ≡ with_bad_alone number found }
{
    let circuit = found.into_circuit();
    Checked::from_well_formed(Circuit {
        bad,
        symbols,
        ..circuit
    })
}

/// The circuit with the bad state of this number alone, counted from 0, if one is named. It has no
/// symbols then.
pub fn with_selected_bad(
    alloc: Global,
    found: Checked,
    bad: Option<u32>,
) -> Result<Checked, Stopped>
    ensures ok { IfOk result (λ selected. selected ≡ selected_of bad found) }
    ensures there { OnOk result (HasSelected bad found) }
    ensures err { IfErr result (NotSelected bad found) }
{
    let Some(number) = bad else {
        return Ok(found);
    };
    match bad_alone(alloc, found.circuit(), number) {
        Ok(bad) => Ok(with_bad_alone(found, number, bad, Symbols::new(alloc))),
        Err(fault) => {
            drop(found); // for the proof
            Err(fault)
        }
    }
}
