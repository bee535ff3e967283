//! `aigtoaig`: conversion of AIGER files.
ghost use Rattle.std.specs.Prelude.{◌≡◌, ◌≢◌, ◌<◌, [], true, IfErr, IfOk, length, OnOk};
ghost use Rattle.aig_fault.specs.declared.fault.Place.TheVariants.{Whole};
ghost use Rattle.aig_fault.specs.declared.kind.Kind.TheVariants.{HasBad};
ghost use Rattle.aig_fault.specs.Stopping.{fault_at, StopsFor};
ghost use Rattle.aig_io.specs.Runs.{Read, Transferred};
ghost use Rattle.aig_map.specs.Undone.{IsMapFault};
ghost use Rattle.aig_command.specs.Answer.{IsKeptAlone};
ghost use Rattle.aig_commands.specs.Conversion.{CanTurn, CannotTurn, IsConversionRefused};
ghost use Rattle.aig_commands.specs.Conversion.{IsConversionText, IsSource, IsTextAs, IsWritten};
ghost use Rattle.aig_commands.specs.Conversion.{stripped_if_asked, turned};
ghost use Rattle.aig_commands.specs.OutputsAsBad.{with_outputs_as_bad};
ghost use Rattle.aig_commands.specs.Jobs.{text_of};
ghost use Rattle.aig_commands.specs.Outcome.{Says};
ghost use Rattle.aig_commands.specs.Reading.{AtItsEnd, ReadSays};

use crate::answer::Answer;
use crate::outputs_as_bad::{symbols_if_free, with_outputs_as_bad};
use aig_binary::read_source;
use aig_command::{BadStates, ToAig};
use aig_convert::{into_binary, into_binary_with_map, undo};
use aig_core::{Checked, Circuit, Keep, OutOfMemory, Sink, Source, Steps, Symbols};
use aig_fault::Stopped;
use aig_live::live;
use aig_simplify::simplify;
use std::alloc::Global;

/// What is wanted of the check later: a binary image of the circuit that is read needs an order of
/// its gates, and so does a simplified one. ASCII needs none, a circuit that is undone comes from
/// gates in order, and one that gets other bad states is another.
fn what_to_keep(request: &ToAig) -> Keep {
    let turns = !matches!(request.bad_states, BadStates::Kept);
    let as_read = request.ascii && !request.simplify;
    if as_read || request.undo_map || turns {
        Keep::Circuit
    } else {
        Keep::Order
    }
}

/// The circuit without its symbols and its comment, where the request asks for that.
fn strip_if_asked(alloc: Global, request: &ToAig, circuit: Checked) -> Checked
    ensures { result ≡ stripped_if_asked request.now circuit }
{
    if !request.strip {
        return circuit;
    }
    let found = circuit.into_circuit();
    Checked::from_well_formed(Circuit {
        symbols: Symbols::new(alloc),
        comment: None,
        ..found
    })
}

/// The circuit with its outputs as bad states.
fn turn_outputs(alloc: Global, circuit: Checked) -> Result<Checked, Stopped>
    ensures can { OnOk result (circuit.bad ≡ []) }
    ensures ok { IfOk result (λ turned. turned ≡ with_outputs_as_bad circuit) }
    ensures err { IfErr result (StopsFor (λ fault. (fault ≡ fault_at HasBad Whole 0)
        × (circuit.bad ≢ []))) }
{
    match symbols_if_free(alloc, circuit.circuit()) {
        Ok(symbols) => Ok(with_outputs_as_bad(circuit, symbols)),
        Err(fault) => {
            drop(circuit);
            Err(fault)
        }
    }
}

/// The circuit with the bad states that are asked for.
fn turn(alloc: Global, bad_states: BadStates, circuit: Checked) -> Result<Checked, Stopped>
    ensures can { OnOk result (CanTurn bad_states circuit) }
    ensures ok { IfOk result (λ made. made ≡ turned bad_states circuit) }
    ensures err { IfErr result (StopsFor (CannotTurn bad_states circuit)) }
{
    match bad_states {
        BadStates::Kept => Ok(circuit),
        BadStates::Outputs => turn_outputs(alloc, circuit),
        BadStates::Justice(property) => live(alloc, circuit, property),
    }
}

/// The circuit whose mapped image was read, where the request asks to undo the map.
fn undo_if_asked(alloc: Global, request: &ToAig, found: Checked) -> Result<Checked, Stopped>
    ensures ok { IfOk result (λ source. IsSource request.now.undo_map found source) }
    ensures err { IfErr result (λ stopped. (request.now.undo_map ≡ true)
        × StopsFor (IsMapFault found) stopped) }
{
    if !request.undo_map {
        return Ok(found);
    }
    undo(alloc, found)
}

/// The circuit, simplified where that is asked for.
pub(crate) fn simplify_if_asked(
    alloc: Global,
    asked: bool,
    circuit: Checked,
) -> Result<Checked, OutOfMemory>
    ensures { IfOk result (IsWritten asked circuit) }
{
    if !asked {
        return Ok(circuit);
    }
    Ok(simplify(alloc, circuit)?.into_checked())
}

/// The circuit in ASCII, or its binary image, with a map or without.
pub(crate) fn convert_as(
    alloc: Global,
    ascii: bool,
    keep_map: bool,
    circuit: Checked,
) -> Result<Answer, OutOfMemory>
    ensures text { IfOk result (λ answer. IsTextAs ascii keep_map circuit (text_of answer)) }
    ensures some { IfOk result (λ answer. 0 < length (text_of answer)) }
{
    if ascii {
        return Ok(Answer::Ascii(circuit));
    }
    let steps = &mut Steps::new();
    if keep_map {
        return Ok(Answer::Mapped(into_binary_with_map(alloc, circuit, steps)?));
    }
    Ok(Answer::Binary(into_binary(alloc, circuit, steps)?))
}

/// Reads the source of a conversion to its end, and makes of it what is to be written. It fails if
/// the source or an allocation fails, if the bytes are no file of a circuit, or if a map is to be
/// undone and cannot be.
pub(crate) fn read_conversion<R: Source>(
    alloc: Global,
    request: &ToAig,
    source: &mut R,
) -> Result<Answer, Stopped>
    requires kept_alone { IsKeptAlone request.now }
    ensures read { Read (ReadSays (λ answer bytes.
        IsConversionText request.now bytes (text_of answer))
        (AtItsEnd (IsConversionRefused request.now)) result)
        (R.history source.old) (R.history source.new) }
    ensures some { IfOk result (λ answer. 0 < length (text_of answer)) }
{
    let found = read_source(alloc, source, request.max_var, what_to_keep(request))?;
    let source_circuit = undo_if_asked(alloc, request, found)?;
    let turned_circuit = turn(alloc, request.bad_states, source_circuit)?;
    let circuit = strip_if_asked(alloc, request, turned_circuit);
    let written = simplify_if_asked(alloc, request.simplify, circuit)?;
    Ok(convert_as(alloc, request.ascii, request.keep_map, written)?)
}

/// Reads the source to its end, and writes what the request asks for. Nothing is sent before the
/// whole source was read and found right. It fails if a device or an allocation fails, if the bytes
/// are no file of a circuit, or if a map is to be undone and cannot be. Only a sink that fails may
/// have taken a beginning of what is written.
pub fn run_toaig<R: Source, W: Sink>(
    alloc: Global,
    request: &ToAig,
    source: &mut R,
    sink: &mut W,
) -> Result<(), Stopped>
    requires kept_alone { IsKeptAlone request.now }
    ensures transferred { Transferred (Says (IsConversionText request.now)
        (IsConversionRefused request.now) result)
        (R.history source.old) (R.history source.new) (W.history sink.old) (W.history sink.new) }
{
    read_conversion(alloc, request, source)?.write(sink)
}
