//! Whether the places in a block are the order in which conversion takes the gates of its source.
//! No order is made for it.
ghost use Rattle.std.specs.Prelude.{◌≡◌, ◌<◌, ◌≤◌, ◌↔◌, ℕ, List, Option};
ghost use Rattle.std.specs.Prelude.{length, map, IfOk, IsTrue, MatchOption};
ghost use Rattle.std.specs.List.{AllByRecursion};
ghost use Rattle.std.specs.Option.{IfSome};
ghost use Rattle.aig_circuit.specs.declared.circuit.TheConstants.{LARGEST};
ghost use Rattle.aig_topo.specs.Order.{IsLeastReadyOrder};
ghost use Rattle.aig_circuit.specs.Wellformed.{AreDistinct, defined_variables};
ghost use Rattle.aig_map.specs.declared.map_block.MapBlock.{MapBlock as MapBlockRecord};
ghost use Rattle.aig_map.specs.declared.map_block.MappedGate.{MappedGate as MappedGateRecord};
ghost use Rattle.aig_map.specs.Undone.{undone};
ghost use Rattle.aig_map.specs.Parts.Tables.{IsFit};
ghost use Rattle.aig_map.specs.Parts.Turns.{positions, ready_from, AreLinks};
ghost use Rattle.aig_map.specs.Parts.Turns.{AreTakenInTurn, IsClear};

use crate::map_block::MappedGate;
use aig_core::{Circuit, Gate, OutOfMemory};
use std::alloc::Global;

/// The positions in the source, place by place.
pub fn positions_by_place(alloc: Global, gates: &[MappedGate]) -> Result<Vec<u32>, OutOfMemory>
    requires few { length gates.now ≤ LARGEST }
    requires once { AreDistinct (map (λ (g : MappedGateRecord). g.place) gates.now) }
    requires there { AllByRecursion
        (λ (g : MappedGateRecord). g.place < length gates.now) gates.now }
    ensures { IfOk result (λ r. r.items ≡ positions gates.now) }
{
    let mut found = vec![in alloc; 0; gates.len()]?;
    for (position, gate) in gates.iter().enumerate() {
        found[gate.place as usize] = position as u32;
    }
    Ok(found)
}

/// The first place that a gate of the image may have, where the first gate has this variable.
fn ready_from(first: u32, gate: Gate) -> u32
    ensures { result ≡ ready_from first gate }
{
    (gate.left.var().0 + 1).saturating_sub(first)
}

/// The link of the place after those that have one. There is none where a position is above the one
/// there, from the first place on that its gate may have. Going back by links passes over positions
/// that were compared before.
fn next_link(places: &[u32], links: &[u32], ready: u32) -> Option<u32>
    requires few { length places.now ≤ LARGEST }
    requires there { length links.now < length places.now }
    requires are { AreLinks places.now links.now }
    ensures back { IfSome result (λ at. at ≤ length links.now) }
    ensures clear { IfSome result (λ at. IsClear places.now at (length links.now)) }
    ensures ready { MatchOption result (¬ IsClear places.now ready (length links.now))
        (λ at. at ≤ ready) }
{
    let place = links.len();
    let position = places[place];
    let mut at = place;
    while at > ready as usize {
        if places[at - 1] > position {
            return None;
        }
        at = links[at - 1] as usize;
    }
    Some(at as u32)
}

/// Whether the gate at each place comes first in the source of all that may have this place.
pub(crate) fn are_taken_in_turn(
    alloc: Global,
    first: u32,
    gates: &[Gate],
    places: &[u32],
) -> Result<bool, OutOfMemory>
    requires few { length places.now ≤ LARGEST }
    requires many { length places.now ≡ length gates.now }
    ensures { IfOk result (λ recorded. IsTrue recorded
        ↔ AreTakenInTurn first gates.now places.now) }
{
    let mut links = Vec::with_capacity(alloc, gates.len())?;
    for gate in gates {
        match next_link(places, links.as_slice(), ready_from(first, *gate)) {
            Some(at) => links.push(at)?,
            None => return Ok(false),
        }
    }
    Ok(true)
}

/// Whether the places in a block are the order in which conversion takes the gates of its source,
/// if the source defines no variable twice; by the positions in the source, place by place.
pub fn tells_order(alloc: Global, places: &[u32], image: &Circuit) -> Result<bool, OutOfMemory>
    ghost block: { MapBlockRecord }
    requires fit { IsFit block image.now }
    requires are { places.now ≡ positions block.gates }
    ensures { (comment : Option (List ℕ))
        → AreDistinct (defined_variables (undone block comment image.now))
        → IfOk result (λ recorded. IsTrue recorded
        ↔ IsLeastReadyOrder (undone block comment image.now) (positions block.gates)) }
{
    let first = 1 + image.inputs.len() as u32 + image.latches.len() as u32;
    are_taken_in_turn(alloc, first, image.gates.as_slice(), places)
}
