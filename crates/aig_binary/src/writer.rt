//! The canonical binary text of a circuit in binary order, written to a sink in blocks.
ghost use Rattle.std.specs.List.{All, flat_map};
ghost use Rattle.std.specs.Prelude.{◌≡◌, ◌+◌, ◌-◌, ◌*◌, ◌<◌, ◌≤◌, length, take, OnErr, OnOk};
ghost use Rattle.aig_io.specs.Output.{Appended};
ghost use Rattle.aig_io.specs.Devices.{took, TookBeginning};
ghost use Rattle.aig_circuit.specs.Wellformed.{IsWithinLimits};
ghost use Rattle.aig_circuit.specs.declared.circuit.Latch.{Latch as LatchRecord};
ghost use Rattle.aig_text.specs.AsciiText.{line_text, row_text};
ghost use Rattle.aig_rows.specs.Rows.{next_row};
ghost use Rattle.aig_binary.specs.BinaryGrammar.{binary_rows_of};
ghost use Rattle.aig_checked.specs.BinaryOrder.{IsInBinaryOrder};
ghost use Rattle.aig_binary.specs.BinaryText.{HasDeltas, binary_text, gate_text};
ghost use Rattle.aig_binary.specs.declared.delta.TheConstants.{LONGEST};

use crate::delta::{LONGEST, write_delta};
use crate::reader::BINARY_WORD;
use aig_core::{Circuit, DeviceFault, Gate, Latch, Ordered, Output, Sink};
use aig_text::{
    header_numbers, put_header, put_literal_sections, put_numbers, put_tail, reset_number,
};

#[inline(always)]
fn put_next<W: Sink>(output: &mut Output<W>, latch: Latch)
    ensures { Appended output.old output.new (row_text 0 (next_row latch)) }
{
    let next = u64::from(latch.next.0);
    match reset_number(2 * u64::from(latch.var.0), latch.reset) {
        0 => put_numbers(output, next, &[]),
        reset => put_numbers(output, next, &[reset]),
    }
}

fn put_next_lines<W: Sink>(output: &mut Output<W>, latches: &[Latch])
    ensures { Appended output.old output.new (flat_map
        (λ (l : LatchRecord). row_text 0 (next_row l)) latches.now) }
{
    for latch in latches {
        put_next(output, *latch);
    }
}

fn put_front_lines<W: Sink>(output: &mut Output<W>, circuit: &Circuit)
    ensures { Appended output.old output.new (flat_map line_text (binary_rows_of circuit.now)) }
{
    put_next_lines(output, circuit.latches.as_slice());
    put_literal_sections(output, circuit);
}

/// How many gates are written to one piece of the text at most.
const PIECE: usize = 64;

#[inline(never)]
fn write_gates(bytes: &mut [u8], gates: &[Gate]) -> usize
    requires deltas { All HasDeltas gates.now }
    requires room { length gates.now * (2 * LONGEST) ≤ length bytes.old }
    ensures within { result ≤ length bytes.old }
    ensures len { length bytes.new ≡ length bytes.old }
    ensures text { take result bytes.new ≡ flat_map gate_text gates.now }
{
    let mut end = 0;
    for gate in gates {
        end = write_delta(bytes, end, 2 * gate.var.0 - gate.left.0);
        end = write_delta(bytes, end, gate.left.0 - gate.right.0);
    }
    end
}

/// Puts gates by their deltas: those of a binary file, or some of them. They are written piece by
/// piece, where how far a piece goes need not be looked up at each gate.
pub fn put_gates<W: Sink>(output: &mut Output<W>, gates: &[Gate])
    requires { All HasDeltas gates.now }
    ensures { Appended output.old output.new (flat_map gate_text gates.now) }
{
    let mut bytes = [0; PIECE * 2 * LONGEST];
    let mut at = 0;
    while at < gates.len() {
        let count = PIECE.min(gates.len() - at);
        let end = write_gates(&mut bytes, &gates[at..at + count]);
        output.put(&bytes[..end]);
        at += count;
    }
}

fn put_text<W: Sink>(output: &mut Output<W>, circuit: &Circuit)
    requires within { IsWithinLimits circuit.now }
    requires ordered { IsInBinaryOrder circuit.now }
    ensures { Appended output.old output.new (binary_text circuit.now) }
{
    put_header(output, BINARY_WORD, &header_numbers(circuit));
    put_front_lines(output, circuit);
    put_gates(output, circuit.gates.as_slice());
    put_tail(output, circuit);
}

/// Puts the canonical binary text of a circuit.
pub fn put_binary<W: Sink>(output: &mut Output<W>, ordered: &Ordered)
    ensures { Appended output.old output.new (binary_text ordered.now) }
{
    put_text(output, ordered.as_checked().circuit());
}

/// Writes the canonical binary text of a circuit, in slices of at most 8,192 bytes. It takes no
/// memory and fails only where the sink fails; the sink then took a beginning of the text, and is
/// not called again.
pub fn write_binary<W: Sink>(ordered: &Ordered, sink: &mut W) -> Result<(), DeviceFault>
    ensures ok { OnOk result (W.history sink.new ≡ took (binary_text ordered.now)
        (W.history sink.old)) }
    ensures err { OnErr result (TookBeginning (binary_text ordered.now) (W.history sink.old)
        (W.history sink.new)) }
{
    let mut output = Output::new(sink);
    put_binary(&mut output, ordered);
    let (sent, _sink) = output.finish();
    sent?;
    Ok(())
}
