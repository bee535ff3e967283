//! The mapped image of a circuit: the binary image with a map block, by which it can be undone.
ghost use Rattle.std.specs.Prelude.{◌≡◌, ◌+◌, ◌*◌, ◌≤◌, None, IfOk, OnErr, OnOk, length, min};
ghost use Rattle.aig_io.specs.Devices.{took, TookBeginning};
ghost use Rattle.aig_io.specs.Output.{Appended};
ghost use Rattle.aig_circuit.specs.declared.circuit.TheConstants.{LARGEST};
ghost use Rattle.aig_circuit.specs.Wellformed.{IsWellFormed};
ghost use Rattle.aig_checked.specs.BinaryOrder.{IsNumberedInOrder};
ghost use Rattle.aig_binary.specs.BinaryText.{binary_text};
ghost use Rattle.aig_image.specs.Parts.Numbers.{number_of, IsRenumberingOf};
ghost use Rattle.aig_image.specs.Relabelled.{FitIntoLiterals, relabelled};
ghost use Rattle.aig_image.specs.Reordered.{with_operands_sorted};
ghost use Rattle.aig_map.specs.MapBlock.{IsMappedImage};
ghost use Rattle.aig_map.specs.Parts.Kept.{AreVariablesOf, with_block};

use aig_binary::put_binary;
use aig_core::{
    Checked, Circuit, DeviceFault, LARGEST, Listing, Ordered, OutOfMemory, Output, Sink, Steps,
    Var, is_numbered_in_order,
};
use aig_image::{Labels, Renumbering, relabel, sort_operands};
use aig_map::{
    KeptMap, KeptVariables, keep_variables, map_comment, put_map_comment, record_map,
    record_new_map,
};
use std::alloc::Global;
use std::marker::Model;

/// A mapped image whose map is no text yet: the text of a gate takes more memory than what it
/// tells.
#[derive(Drop)]
pub struct MappedImage {
    /// The image without a comment.
    plain: Ordered,
    block: KeptMap,
    /// What the comment holds after the block, if the source had one.
    comment: Option<Listing<u8>>,
}

impl Model for MappedImage {
    ghost use Rattle.std.specs.Prelude.{◌≡◌, None};
    ghost use Rattle.aig_circuit.specs.declared.circuit.Circuit.{Circuit as CircuitRecord};
    ghost use Rattle.aig_map.specs.Parts.Kept.{with_block as with_map};

    ghost Value = { CircuitRecord };

    ghost view = { λ m. with_map m.block (record m.plain { comment = m.comment }) };

    ghost invariant = { λ m. m.plain.comment ≡ None };
}

impl MappedImage {
    fn new(image: Ordered, block: KeptMap) -> Self
        ensures { result ≡ with_block block image }
    {
        let found = image.into_checked().into_circuit();
        let comment = found.comment;
        let plain = Circuit {
            comment: None,
            ..found
        };
        MappedImage {
            plain: Ordered::from_well_ordered(plain),
            block,
            comment,
        }
    }

    /// The image with its map as text.
    fn into_ordered(self, alloc: Global) -> Result<Ordered, OutOfMemory>
        ensures { IfOk result (λ image. image ≡ self) }
    {
        let text = map_comment(alloc, &self.block, &self.comment)?;
        let found = self.plain.into_checked().into_circuit();
        let comment = Some(text);
        Ok(Ordered::from_well_ordered(Circuit { comment, ..found }))
    }

    fn put<W: Sink>(&self, output: &mut Output<W>)
        ensures { Appended output.old output.new (binary_text self.now) }
    {
        put_binary(output, &self.plain);
        output.put(b"c\n");
        put_map_comment(output, &self.block, &self.comment);
    }
}

/// Writes the canonical binary text of a mapped image, in slices of at most 8,192 bytes. It takes
/// no memory and fails only where the sink fails; the sink then took a beginning of the text, and
/// is not called again.
pub fn write_mapped<W: Sink>(image: &MappedImage, sink: &mut W) -> Result<(), DeviceFault>
    ensures ok { OnOk result (W.history sink.new ≡ took (binary_text image.now)
        (W.history sink.old)) }
    ensures err { OnErr result (TookBeginning (binary_text image.now) (W.history sink.old)
        (W.history sink.new)) }
{
    let mut output = Output::new(sink);
    image.put(&mut output);
    let (sent, _sink) = output.finish();
    sent?;
    Ok(())
}

/// What labels each variable with itself. One that is too large for a literal, as no circuit has
/// any, gets the largest one that is not.
struct SameVariables;

impl Labels for SameVariables {
    ghost label = { λ _ v. min v LARGEST };

    #[inline(always)]
    fn label(&self, var: Var) -> Var {
        Var(var.0.min(LARGEST))
    }
}

/// The map is all that is added, since the circuit has the numbers of its image.
fn with_map_alone(alloc: Global, circuit: Circuit) -> Result<MappedImage, OutOfMemory>
    requires good { IsWellFormed circuit }
    requires numbered { IsNumberedInOrder circuit }
    ensures { IfOk result (λ m. IsMappedImage circuit m) }
{
    let Ok(block) = record_map(alloc, &SameVariables, &circuit) else {
        drop(circuit); // for the proof
        return Err(OutOfMemory);
    };
    let gates = sort_operands(circuit.gates);
    let image = Ordered::from_well_ordered(Circuit { gates, ..circuit });
    Ok(MappedImage::new(image, block))
}

/// The numbers are let go.
fn by_numbers(renumbering: Renumbering, circuit: Circuit) -> Circuit
    requires { FitIntoLiterals (number_of renumbering.numbers) }
    ensures { result ≡ relabelled (number_of renumbering.numbers) circuit }
{
    relabel(renumbering.numbers(), circuit)
}

fn sort_all(circuit: Circuit) -> Circuit
    requires { length circuit.inputs + length circuit.latches + length circuit.gates ≤ LARGEST }
    ensures { result ≡ record (with_operands_sorted circuit) {
      max_var = length circuit.inputs + length circuit.latches + length circuit.gates;
    } }
{
    Circuit {
        max_var: (circuit.inputs.len() + circuit.latches.len() + circuit.gates.len()) as u32,
        gates: sort_operands(circuit.gates),
        ..circuit
    }
}

/// What the map records is read off the circuit by its new numbers, so that these are looked up
/// once, and let go before there is a block.
fn image_in_order(
    alloc: Global,
    variables: KeptVariables,
    renumbering: Renumbering,
    circuit: Circuit,
) -> Result<MappedImage, OutOfMemory>
    requires good { IsWellFormed circuit }
    requires of_it { IsRenumberingOf circuit renumbering }
    requires in_order { renumbering.taken ≡ None }
    requires kept { AreVariablesOf variables circuit }
    ensures { IfOk result (λ m. IsMappedImage circuit m) }
{
    let new = by_numbers(renumbering, circuit);
    let Ok(block) = record_new_map(alloc, variables, &new) else {
        drop(new); // for the proof
        return Err(OutOfMemory);
    };
    let image = Ordered::from_well_ordered(sort_all(new));
    Ok(MappedImage::new(image, block))
}

/// The mapped image of a circuit whose gates stand in order; its variables are kept meanwhile.
fn image_by_kept_order(
    alloc: Global,
    renumbering: Renumbering,
    circuit: Circuit,
) -> Result<MappedImage, OutOfMemory>
    requires good { IsWellFormed circuit }
    requires of_it { IsRenumberingOf circuit renumbering }
    requires in_order { renumbering.taken ≡ None }
    ensures { IfOk result (λ m. IsMappedImage circuit m) }
{
    let Ok(variables) = keep_variables(alloc, &circuit) else {
        drop(renumbering); // for the proof
        drop(circuit); // for the proof
        return Err(OutOfMemory);
    };
    image_in_order(alloc, variables, renumbering, circuit)
}

/// The mapped image of a circuit whose gates need not stand in order.
fn image_by_order(
    alloc: Global,
    renumbering: Renumbering,
    circuit: Circuit,
) -> Result<MappedImage, OutOfMemory>
    requires good { IsWellFormed circuit }
    requires of_it { IsRenumberingOf circuit renumbering }
    ensures { IfOk result (λ m. IsMappedImage circuit m) }
{
    let Ok(block) = record_map(alloc, renumbering.numbers(), &circuit) else {
        drop(renumbering); // for the proof
        drop(circuit); // for the proof
        return Err(OutOfMemory);
    };
    Ok(MappedImage::new(renumbering.image(circuit), block))
}

fn renumbered_with_map(
    alloc: Global,
    renumbering: Renumbering,
    circuit: Circuit,
) -> Result<MappedImage, OutOfMemory>
    requires good { IsWellFormed circuit }
    requires of_it { IsRenumberingOf circuit renumbering }
    ensures { IfOk result (λ m. IsMappedImage circuit m) }
{
    if renumbering.is_in_order() {
        image_by_kept_order(alloc, renumbering, circuit)
    } else {
        image_by_order(alloc, renumbering, circuit)
    }
}

/// The mapped image of a circuit that is no longer needed, in the circuit's own memory: its binary
/// image, with a map block at the front of the comment, by which `undo` restores the circuit. It
/// fails only if an allocation fails.
pub fn into_binary_with_map(
    alloc: Global,
    checked: Checked,
    steps: &mut Steps,
) -> Result<MappedImage, OutOfMemory>
    ensures image { IfOk result (λ m. IsMappedImage checked m) }
    ensures few { steps.new.count ≤ steps.old.count + 3 * length checked.gates }
{
    if is_numbered_in_order(&checked) {
        return with_map_alone(alloc, checked.into_circuit());
    }
    let Ok(renumbering) = Renumbering::new(alloc, &checked, steps) else {
        drop(checked); // for the proof
        return Err(OutOfMemory);
    };
    renumbered_with_map(alloc, renumbering, checked.into_circuit())
}

/// The mapped image of a circuit, with its map as text. It fails only if an allocation fails.
pub fn to_binary_with_map(
    alloc: Global,
    checked: &Checked,
    steps: &mut Steps,
) -> Result<Ordered, OutOfMemory>
    ensures image { IfOk result (λ o. IsMappedImage checked.now o) }
    ensures few { steps.new.count ≤ steps.old.count + 3 * length checked.now.gates }
{
    let image = into_binary_with_map(alloc, checked.copy(alloc)?, steps)?;
    image.into_ordered(alloc)
}
