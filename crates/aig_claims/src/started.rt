//! Circuits that start in a given state.
ghost use Rattle.std.specs.Prelude.{◌≡◌, map};
ghost use Rattle.aig_claims.specs.RunDump.{reset_to, started_in, with_resets};
ghost use Rattle.aig_claims.specs.Started.{value_or_x};

use aig_checked::Checked;
use aig_circuit::{Circuit, Latch, Listing, Reset};

/// The reset by which a latch starts at the value of a character.
fn reset_by_character(character: u8) -> Reset
    ensures { result ≡ reset_to (value_or_x character) }
{
    match character {
        b'0' => Reset::Zero,
        b'1' => Reset::One,
        _ => Reset::Uninit,
    }
}

/// Gives latches the resets by which they start at the values of characters.
fn reset_by(latches: &mut [Latch], text: &[u8])
    ensures { latches.new ≡ with_resets (map reset_to (map value_or_x text.now)) latches.old }
{
    for i in 0..latches.len().min(text.len()) {
        latches[i].reset = reset_by_character(text[i]);
    }
}

/// The circuit that starts in the state of a text. Nothing is checked again, no memory is taken.
pub fn started_by(text: &[u8], found: Checked) -> Checked
    ensures { result ≡ started_in (map value_or_x text.now) found }
{
    let found = found.into_circuit();
    let mut latches = found.latches.into_vec();
    reset_by(latches.as_mut_slice(), text);
    Checked::from_well_formed(Circuit {
        latches: Listing::from_vec(latches),
        ..found
    })
}
