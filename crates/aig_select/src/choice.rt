//! What is chosen of a circuit.
ghost use Rattle.std.specs.Prelude.{◌≡◌, find, length, nat_le, IfOk};
ghost use Rattle.aig_select.specs.Choice.{positions_marked};

use aig_circuit::{Circuit, Listing};
use std::alloc::{AllocError, Global};

/// Which outputs, bad states and justice properties are chosen: a mark for each, by position.
#[derive(Drop)]
pub struct Choice {
    pub outputs: Listing<bool>,
    pub bad: Listing<bool>,
    pub justice: Listing<bool>,
}

/// The first of these positions that is not there, where there are so many.
pub fn find_missing(count: usize, positions: &[u32]) -> Option<u32>
    ensures { result ≡ find (λ position. nat_le count position) positions.now }
{
    for position in positions {
        if count <= *position as usize {
            return Some(*position);
        }
    }
    None
}

/// Marks for so many, by the positions that are chosen.
fn mark_positions(
    alloc: Global,
    count: usize,
    positions: &[u32],
) -> Result<Listing<bool>, AllocError>
    ensures marks { IfOk result (λ marks. marks ≡ positions_marked count positions.now) }
    ensures long { IfOk result (λ marks. length marks ≡ count) }
{
    let mut marks = vec![in alloc; false; count]?;
    for position in positions {
        let place = *position as usize;
        if place < count {
            marks[place] = true;
        }
    }
    Ok(Listing::from_vec(marks))
}

impl Choice {
    ghost use Rattle.aig_select.specs.Choice.{IsChoiceOf, choice_of};

    /// What stands at these positions, in any order. One that is not there chooses nothing.
    pub fn by_positions(
        alloc: Global,
        circuit: &Circuit,
        outputs: &[u32],
        bad: &[u32],
        justice: &[u32],
    ) -> Result<Choice, AllocError>
        ensures is { IfOk result (λ choice. choice
            ≡ choice_of outputs.now bad.now justice.now circuit.now) }
        ensures fits { IfOk result (λ choice. IsChoiceOf choice circuit.now) }
    {
        let outputs = mark_positions(alloc, circuit.outputs.len(), outputs)?;
        let bad = mark_positions(alloc, circuit.bad.len(), bad)?;
        let justice = mark_positions(alloc, circuit.justice.sizes.len(), justice)?;
        Ok(Choice {
            outputs,
            bad,
            justice,
        })
    }
}
