//! The text of an unrolled circuit, put frame by frame.
ghost use Rattle.std.specs.Prelude.{◌≡◌, ◌+◌, ◌<◌, ◌≤◌, drop, false, length, take};
ghost use Rattle.std.specs.Prelude.{IfErr, OnOk};
ghost use Rattle.std.specs.List.{flat_map, range_with_len};
ghost use Rattle.aig_circuit.specs.declared.circuit.TheConstants.{LARGEST};
ghost use Rattle.aig_io.specs.Output.{Appended};
ghost use Rattle.aig_text.specs.Sections.{header_row};
ghost use Rattle.aig_circuit.specs.Wellformed.{IsWellFormed};
ghost use Rattle.aig_cnf.specs.Clauses.{bad_clauses};
ghost use Rattle.aig_unroll.specs.Outcome.{HasClauses, NotInClauses};
ghost use Rattle.aig_unroll.specs.Unrolled.{frame_size, gates_at, unrolled};
ghost use Rattle.aig_unroll.specs.Parts.Writing.{gate_room, input_lines};

use crate::frames::{Frames, gates_of_frame};
use aig_binary::put_gates;
use aig_cnf::{put_gates_clauses, put_literals};
use aig_core::{Circuit, Gate, LARGEST, Lit, Output, Sink, Var};
use aig_fault::{Kind, Stopped, refused_whole};
use aig_text::{HEADER_NUMBERS, NumberedLine, put_lines};

pub(crate) fn header_numbers(copies: &Frames) -> [u64; HEADER_NUMBERS]
    requires { copies.now.frame ≡ 0 }
    ensures { result ≡ header_row (unrolled copies.now.circuit copies.now.frames) }
{
    let circuit = copies.circuit();
    let frames = u64::from(copies.frames());
    let inputs = u64::from(copies.count_inputs());
    let outputs = frames * circuit.outputs.len() as u64;
    let gates = frames * copies.count_gates() as u64;
    let bad = frames * circuit.bad.len() as u64;
    [inputs + gates, inputs, 0, outputs, gates, bad, 0, 0, 0]
}

#[inline(never)]
pub(crate) fn put_inputs<W: Sink>(output: &mut Output<W>, count: u32)
    requires { count ≤ LARGEST }
    ensures { Appended output.old output.new (input_lines (range_with_len 1 count)) }
{
    for before in 0..count {
        Var(1 + before).put_line(output);
    }
}

/// A section whose text is put frame by frame.
pub(crate) trait FrameSection {
    ghost use Rattle.std.specs.Prelude.{◌≡◌, ℕ, List, [], IsTrue, length};
    ghost use Rattle.std.specs.List.{flat_map};
    ghost use Rattle.aig_circuit.specs.declared.circuit.Circuit.{Circuit as CircuitRecord};
    ghost use Rattle.aig_io.specs.Output.{Appended};

    type Item;

    /// How many of them a frame of a circuit has.
    ghost size: { CircuitRecord → ℕ };

    /// Those of a circuit that is unrolled over so many frames, in a frame.
    ghost at: { CircuitRecord → ℕ → ℕ → List Self.Item };

    /// The text of one.
    ghost text: { Self.Item → List ℕ };

    /// Whether no frame has any.
    fn is_empty(copies: &Frames) -> bool
        ensures { IsTrue result
            → (t : ℕ) → at copies.now.circuit copies.now.frames t ≡ [] };

    fn put<W: Sink>(output: &mut Output<W>, copies: &Frames, room: &mut [Self::Item])
        requires { length room.old ≡ size copies.now.circuit }
        ensures { Appended output.old output.new
            (flat_map text (at copies.now.circuit copies.now.frames copies.now.frame)) };
}

pub(crate) struct OutputLines;

pub(crate) struct BadLines;

pub(crate) struct GateLines;

/// The gates by their deltas.
pub(crate) struct GateDeltas;

/// The text of gates in one of the forms.
trait GateText {
    ghost use Rattle.std.specs.Prelude.{ℕ, List};
    ghost use Rattle.std.specs.List.{All, flat_map};
    ghost use Rattle.aig_circuit.specs.declared.circuit.Gate.{Gate as GateRecord};
    ghost use Rattle.aig_binary.specs.BinaryText.{HasDeltas};
    ghost use Rattle.aig_io.specs.Output.{Appended};

    /// The text of one.
    ghost one: { GateRecord → List ℕ };

    fn put_some<W: Sink>(output: &mut Output<W>, gates: &[Gate])
        requires { All HasDeltas gates.now }
        ensures { Appended output.old output.new (flat_map one gates.now) };
}

impl GateText for GateLines {
    ghost use Rattle.aig_unroll.specs.Parts.Writing.{gate_line};

    ghost one = { gate_line };

    fn put_some<W: Sink>(output: &mut Output<W>, gates: &[Gate]) {
        put_lines(output, gates);
    }
}

impl GateText for GateDeltas {
    ghost use Rattle.aig_binary.specs.BinaryText.{gate_text};

    ghost one = { gate_text };

    fn put_some<W: Sink>(output: &mut Output<W>, gates: &[Gate]) {
        put_gates(output, gates);
    }
}

/// How many gates are made at once, and more where a frame ends.
const PIECE: usize = 256;

/// How much room the gates of a frame take: a piece of the copies, and what is after them.
pub(crate) fn room_of_gates(circuit: &Circuit) -> usize
    requires { IsWellFormed circuit.now }
    ensures { result ≡ gate_room circuit.now }
{
    PIECE + circuit.constraints.len() + circuit.bad.len()
}

/// Leaves the last copies, and answers where they begin.
fn put_pieces<F: GateText, W: Sink>(
    output: &mut Output<W>,
    copies: &Frames,
    room: &mut [Gate],
) -> usize
    requires { 1 ≤ length room.old }
    ensures within { result ≤ length copies.now.circuit.gates }
    ensures last { length copies.now.circuit.gates ≤ result + length room.old }
    ensures room { length room.new ≡ length room.old }
    ensures put { Appended output.old output.new (flat_map F.one
        (take result (gates_at copies.now.circuit copies.now.frames copies.now.frame))) }
{
    let gates = copies.circuit().gates.len();
    let mut at = 0;
    while room.len() < gates - at {
        copies.put_copies(at, room);
        F::put_some(output, room);
        at += room.len();
    }
    at
}

fn put_rest<F: GateText, W: Sink>(
    output: &mut Output<W>,
    copies: &Frames,
    at: usize,
    room: &mut [Gate],
)
    requires within { at ≤ length copies.now.circuit.gates }
    requires room { frame_size copies.now.circuit ≤ at + length room.old }
    ensures { Appended output.old output.new
        (flat_map F.one
        (drop at (gates_at copies.now.circuit copies.now.frames copies.now.frame))) }
{
    let count = copies.count_gates() - at;
    copies.put_gates_from(at, &mut room[..count]);
    F::put_some(output, &room[..count]);
}

/// What is after the copies is put together with the last of these.
fn put_frame_gates<F: GateText, W: Sink>(output: &mut Output<W>, copies: &Frames, room: &mut [Gate])
    requires { length room.old ≡ gate_room copies.now.circuit }
    ensures { Appended output.old output.new
        (flat_map F.one (gates_at copies.now.circuit copies.now.frames copies.now.frame)) }
{
    let at = put_pieces::<F, W>(output, copies, &mut room[..PIECE]);
    put_rest::<F, W>(output, copies, at, room);
}

impl FrameSection for OutputLines {
    ghost use Rattle.std.specs.Prelude.{length};
    ghost use Rattle.aig_unroll.specs.Unrolled.{outputs_at};
    ghost use Rattle.aig_unroll.specs.Parts.Writing.{literal_line};

    type Item = Lit;

    ghost size = { λ c. length c.outputs };

    ghost at = { outputs_at };

    ghost text = { literal_line };

    fn is_empty(copies: &Frames) -> bool {
        copies.circuit().outputs.is_empty()
    }

    fn put<W: Sink>(output: &mut Output<W>, copies: &Frames, room: &mut [Lit]) {
        copies.put_outputs(room);
        put_lines(output, room);
    }
}

impl FrameSection for BadLines {
    ghost use Rattle.std.specs.Prelude.{length};
    ghost use Rattle.aig_unroll.specs.Unrolled.{bad_at};
    ghost use Rattle.aig_unroll.specs.Parts.Writing.{literal_line};

    type Item = Lit;

    ghost size = { λ c. length c.bad };

    ghost at = { bad_at };

    ghost text = { literal_line };

    fn is_empty(copies: &Frames) -> bool {
        copies.circuit().bad.is_empty()
    }

    fn put<W: Sink>(output: &mut Output<W>, copies: &Frames, room: &mut [Lit]) {
        copies.put_bad(room);
        put_lines(output, room);
    }
}

impl FrameSection for GateLines {
    ghost use Rattle.aig_unroll.specs.Unrolled.{gates_at};
    ghost use Rattle.aig_unroll.specs.Parts.Writing.{gate_line, gate_room};

    type Item = Gate;

    ghost size = { gate_room };

    ghost at = { gates_at };

    ghost text = { gate_line };

    fn is_empty(copies: &Frames) -> bool {
        copies.has_no_gates()
    }

    fn put<W: Sink>(output: &mut Output<W>, copies: &Frames, room: &mut [Gate]) {
        put_frame_gates::<GateLines, W>(output, copies, room);
    }
}

impl FrameSection for GateDeltas {
    ghost use Rattle.aig_binary.specs.BinaryText.{gate_text};
    ghost use Rattle.aig_unroll.specs.Unrolled.{gates_at};
    ghost use Rattle.aig_unroll.specs.Parts.Writing.{gate_room};

    type Item = Gate;

    ghost size = { gate_room };

    ghost at = { gates_at };

    ghost text = { gate_text };

    fn is_empty(copies: &Frames) -> bool {
        copies.has_no_gates()
    }

    fn put<W: Sink>(output: &mut Output<W>, copies: &Frames, room: &mut [Gate]) {
        put_frame_gates::<GateDeltas, W>(output, copies, room);
    }
}

/// Nothing is put where the sink failed: nobody takes it then.
fn put_frame_section<S: FrameSection, W: Sink>(
    output: &mut Output<W>,
    copies: &mut Frames,
    room: &mut [S::Item],
    frame: u32,
)
    requires within { frame < copies.old.frames }
    requires behind { output.old.failed ≡ false → 0 < frame → frame ≡ copies.old.frame + 1 }
    requires room { length room.old ≡ S.size copies.old.circuit }
    ensures kept { copies.new ≡ record copies.old { frame = copies.new.frame } }
    ensures here { output.new.failed ≡ false → copies.new.frame ≡ frame }
    ensures put { Appended output.old output.new
        (flat_map S.text (S.at copies.old.circuit copies.old.frames frame)) }
{
    if output.has_failed() {
        return;
    }
    copies.enter_frame(frame);
    S::put(output, copies, room);
}

/// Puts the text of a section in all frames. The room is for what one frame has of it. To
/// enter_frame the frames takes time for each latch, so where they have none of it they are passed
/// over.
pub(crate) fn put_section<S: FrameSection, W: Sink>(
    output: &mut Output<W>,
    copies: &mut Frames,
    room: &mut [S::Item],
)
    requires { length room.old ≡ S.size copies.old.circuit }
    ensures kept { copies.new ≡ record copies.old { frame = copies.new.frame } }
    ensures put { Appended output.old output.new (flat_map S.text
        (flat_map (S.at copies.old.circuit copies.old.frames)
        (range_with_len 0 copies.old.frames))) }
{
    if S::is_empty(copies) {
        return;
    }
    for frame in 0..copies.frames() {
        put_frame_section::<S, W>(output, copies, room, frame);
    }
}

/// The gates by their clauses.
pub(crate) struct GateClauses;

/// The bad states as literals of a clause.
pub(crate) struct BadLiterals;

/// How many variables the clauses have, and how many clauses there are.
pub(crate) fn clause_numbers(copies: &Frames) -> (u64, u64)
    requires { copies.now.frame ≡ 0 }
    ensures variables { result.0 ≡ (unrolled copies.now.circuit copies.now.frames).max_var + 1 }
    ensures clauses { result.1
        ≡ length (bad_clauses (unrolled copies.now.circuit copies.now.frames)) }
{
    let inputs = u64::from(copies.count_inputs());
    let gates = u64::from(copies.frames()) * gates_of_frame(copies.circuit()) as u64;
    (inputs + gates + 1, 3 * gates + 2)
}

/// Whether the clauses have a bad state to speak of, and numbers that are not too large.
pub(crate) fn check_clauses(copies: &Frames) -> Result<(), Stopped>
    requires { copies.now.frame ≡ 0 }
    ensures ok { OnOk result
        (HasClauses (unrolled copies.now.circuit copies.now.frames)) }
    ensures err { IfErr result
        (NotInClauses (unrolled copies.now.circuit copies.now.frames)) }
{
    if copies.circuit().bad.is_empty() {
        return Err(refused_whole(Kind::NoBadStates));
    }
    let (variables, _clauses) = clause_numbers(copies);
    if variables > u64::from(LARGEST) {
        return Err(refused_whole(Kind::TooLargeUnrolled));
    }
    Ok(())
}

impl GateText for GateClauses {
    ghost use Rattle.aig_cnf.specs.ClauseText.{gate_clauses_text};

    ghost one = { gate_clauses_text };

    fn put_some<W: Sink>(output: &mut Output<W>, gates: &[Gate]) {
        put_gates_clauses(output, gates);
    }
}

impl FrameSection for GateClauses {
    ghost use Rattle.aig_cnf.specs.ClauseText.{gate_clauses_text};
    ghost use Rattle.aig_unroll.specs.Unrolled.{gates_at};
    ghost use Rattle.aig_unroll.specs.Parts.Writing.{gate_room};

    type Item = Gate;

    ghost size = { gate_room };

    ghost at = { gates_at };

    ghost text = { gate_clauses_text };

    fn is_empty(copies: &Frames) -> bool {
        copies.has_no_gates()
    }

    fn put<W: Sink>(output: &mut Output<W>, copies: &Frames, room: &mut [Gate]) {
        put_frame_gates::<GateClauses, W>(output, copies, room);
    }
}

impl FrameSection for BadLiterals {
    ghost use Rattle.std.specs.Prelude.{length};
    ghost use Rattle.aig_cnf.specs.ClauseText.{literal_text};
    ghost use Rattle.aig_unroll.specs.Unrolled.{bad_at};

    type Item = Lit;

    ghost size = { λ c. length c.bad };

    ghost at = { bad_at };

    ghost text = { literal_text };

    fn is_empty(copies: &Frames) -> bool {
        copies.circuit().bad.is_empty()
    }

    fn put<W: Sink>(output: &mut Output<W>, copies: &Frames, room: &mut [Lit]) {
        copies.put_bad(room);
        put_literals(output, room);
    }
}
