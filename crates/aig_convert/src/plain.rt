//! The binary image of a circuit, without a map.
ghost use Rattle.std.specs.Prelude.{◌+◌, ◌*◌, ◌≤◌, IfOk, length};
ghost use Rattle.aig_image.specs.Image.{IsBinaryImage};

use aig_core::{Checked, Ordered, OutOfMemory, Steps};
use aig_image::binary_image;
use std::alloc::Global;

/// The binary image of a circuit: the same circuit with its variables renumbered, inputs first,
/// then latches, then gates in the least ready order; the larger operand of each gate comes first.
/// It fails only if an allocation fails.
pub fn to_binary(
    alloc: Global,
    checked: &Checked,
    steps: &mut Steps,
) -> Result<Ordered, OutOfMemory>
    ensures image { IfOk result (λ o. IsBinaryImage checked.now o) }
    ensures few { steps.new.count ≤ steps.old.count + 3 * length checked.now.gates }
{
    binary_image(alloc, checked, steps)
}
