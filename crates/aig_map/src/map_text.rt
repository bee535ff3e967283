//! The text of a map block.
ghost use Rattle.std.specs.Prelude.{◌≡◌, ◌++◌, [], length, IfOk, OnOk};
ghost use Rattle.std.specs.List.{flat_map};
ghost use Rattle.std.specs.Option.{unwrap_or};
ghost use Rattle.aig_io.specs.Devices.{took};
ghost use Rattle.aig_io.specs.Output.{Appended};
ghost use Rattle.aig_text.specs.AsciiText.{numbers_text};
ghost use Rattle.aig_map.specs.declared.map_block.MappedGate.{MappedGate as MappedRecord};
ghost use Rattle.aig_map.specs.MapBlock.{block_text, first_line_text, first_row};
ghost use Rattle.aig_map.specs.MapBlock.{mapped_row, variable_row};
ghost use Rattle.aig_map.specs.Parts.NewPlace.{gate_recorded, gates_recorded};

use crate::kept_map::{KeptMap, NewPlace};
use aig_core::{DeviceFault, Listing, OutOfMemory, Output, Sink, Var, VecSink};
use aig_text::put_numbers;
use std::alloc::Global;

/// The version of the map block's form.
const VERSION: u64 = 1;

fn put_first_line<W: Sink>(output: &mut Output<W>, block: &KeptMap)
    ensures { Appended output.old output.new (first_line_text (first_row block.now)) }
{
    let others = [
        u64::from(block.max_var),
        block.variables.inputs.len() as u64,
        block.variables.latches.len() as u64,
        block.variables.gates.len() as u64,
        u64::from(block.has_comment),
    ];
    output.put(b"aigmap ");
    put_numbers(output, VERSION, &others);
}

fn put_variables<W: Sink>(output: &mut Output<W>, variables: &[Var])
    ensures { Appended output.old output.new (flat_map
        (λ v. numbers_text (variable_row v)) variables.now) }
{
    for variable in variables {
        put_numbers(output, u64::from(variable.0), &[]);
    }
}

#[inline(always)]
fn put_gate<W: Sink>(output: &mut Output<W>, var: Var, new_place: NewPlace)
    ensures { Appended output.old output.new (numbers_text
        (mapped_row (gate_recorded var new_place))) }
{
    let others = [
        u64::from(new_place.place()),
        u64::from(new_place.is_exchanged()),
    ];
    put_numbers(output, u64::from(var.0), &others);
}

#[inline(never)]
fn put_gates<W: Sink>(output: &mut Output<W>, variables: &[Var], new_places: &[NewPlace])
    requires { length new_places.now ≡ length variables.now }
    ensures { Appended output.old output.new (flat_map
        (λ (g : MappedRecord). numbers_text (mapped_row g))
        (gates_recorded variables.now new_places.now)) }
{
    for (at, new_place) in new_places.iter().enumerate() {
        put_gate(output, variables[at], *new_place);
    }
}

fn put_block<W: Sink>(output: &mut Output<W>, block: &KeptMap)
    ensures { Appended output.old output.new (block_text block.now) }
{
    put_first_line(output, block);
    put_variables(output, block.variables.inputs.as_slice());
    put_variables(output, block.variables.latches.as_slice());
    put_gates(
        output,
        block.variables.gates.as_slice(),
        block.new_places.as_slice(),
    );
    output.put(b"aigmap end\n");
}

/// Puts the comment of a mapped image: the map block, and then what the source's own comment holds.
pub fn put_map_comment<W: Sink>(
    output: &mut Output<W>,
    block: &KeptMap,
    comment: &Option<Listing<u8>>,
)
    ensures { Appended output.old output.new (block_text block.now ++ unwrap_or comment.now []) }
{
    put_block(output, block);
    if let Some(bytes) = comment {
        output.put(bytes.as_slice());
    }
}

fn write_comment<W: Sink>(
    block: &KeptMap,
    comment: &Option<Listing<u8>>,
    sink: &mut W,
) -> Result<(), DeviceFault>
    ensures { OnOk result (W.history sink.new
        ≡ took (block_text block.now ++ unwrap_or comment.now []) (W.history sink.old)) }
{
    let mut output = Output::new(sink);
    put_map_comment(&mut output, block, comment);
    let (sent, _sink) = output.finish();
    sent
}

/// The comment of a mapped image, in memory.
pub fn map_comment(
    alloc: Global,
    block: &KeptMap,
    comment: &Option<Listing<u8>>,
) -> Result<Listing<u8>, OutOfMemory>
    ensures { IfOk result (λ r. r ≡ block_text block.now ++ unwrap_or comment.now []) }
{
    let mut kept = VecSink::new(alloc);
    match write_comment(block, comment, &mut kept) {
        Ok(()) => Ok(Listing::from_vec(kept.into_vec())),
        // the sink fails only where memory is refused
        Err(_) => Err(OutOfMemory),
    }
}
