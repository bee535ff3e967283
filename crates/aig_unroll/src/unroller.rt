//! The unrolled circuit, written frame by frame: it is never held.
ghost use Rattle.std.specs.Prelude.{◌≡◌, ◌<◌, ◌≤◌, length, IfErr, IfOk, OnErr, OnOk};
ghost use Rattle.aig_circuit.specs.Wellformed.{IsWellFormed};
ghost use Rattle.aig_io.specs.Output.{Appended};
ghost use Rattle.aig_io.specs.Devices.{took, TookBeginning};
ghost use Rattle.aig_text.specs.AsciiText.{ascii_text};
ghost use Rattle.aig_binary.specs.BinaryText.{binary_text};
ghost use Rattle.aig_cnf.specs.ClauseText.{cnf_text};
ghost use Rattle.aig_unroll.specs.Unrolled.{IsTooLarge, IsUnrolled, IsUnsupported, unrolled};
ghost use Rattle.aig_unroll.specs.Outcome.{HasClauses, NotInClauses, NotUnrolled};
ghost use Rattle.aig_unroll.specs.Parts.Writing.{gate_room};

use crate::frames::Frames;
use crate::unrolling::check_supported;
use crate::writing::{
    BadLines, BadLiterals, GateClauses, GateDeltas, GateLines, OutputLines, check_clauses,
    clause_numbers, header_numbers, put_inputs, put_section, room_of_gates,
};
use aig_binary::BINARY_WORD;
use aig_cnf::{put_clause, put_clause_end, put_clauses_header};
use aig_core::{Checked, Circuit, DeviceFault, Gate, Lit, Ordered, OutOfMemory, Output, Sink, Var};
use aig_fault::Stopped;
use aig_image::{Steps, into_binary};
use aig_text::{ASCII_WORD, put_header};
use std::alloc::Global;
use std::marker::Model;

/// A circuit unrolled over so many frames, ready to be written. It holds the circuit and room for
/// the outputs, the bad states and some of the gates of one frame, however many frames there are.
#[derive(Drop)]
pub struct Unrolling {
    copies: Frames,
    /// Room for the outputs of a frame.
    outputs: Vec<Lit>,
    /// Room for its bad states.
    bad: Vec<Lit>,
    /// Room for a piece of its gates.
    gates: Vec<Gate>,
}

impl Model for Unrolling {
    ghost use Rattle.aig_circuit.specs.declared.circuit.Circuit.{Circuit};
    ghost use Rattle.aig_unroll.specs.Unrolled.{unrolled};
    ghost use Rattle.aig_unroll.specs.Parts.Writing.{IsReadyToWrite};

    ghost Value = { Circuit };

    ghost view = { λ u. unrolled u.copies.circuit u.copies.frames };

    ghost invariant = { λ u. IsReadyToWrite u.copies u.outputs.items u.bad.items u.gates.items };
}

fn new_frame_room(
    alloc: Global,
    circuit: &Circuit,
) -> Result<(Vec<Lit>, Vec<Lit>, Vec<Gate>), OutOfMemory>
    requires { IsWellFormed circuit.now }
    ensures outputs { IfOk result (λ room. length room.0.items ≡ length circuit.now.outputs) }
    ensures bad { IfOk result (λ room. length room.1.items ≡ length circuit.now.bad) }
    ensures gates { IfOk result (λ room. length room.2.items ≡ gate_room circuit.now) }
{
    let no_gate = Gate {
        var: Var(0),
        left: Lit(0),
        right: Lit(0),
    };
    let outputs = vec![in alloc; Lit(0); circuit.outputs.len()]?;
    let bad = vec![in alloc; Lit(0); circuit.bad.len()]?;
    let gates = vec![in alloc; no_gate; room_of_gates(circuit)]?;
    Ok((outputs, bad, gates))
}

impl Unrolling {
    fn of_image(alloc: Global, image: Ordered, frames: u32) -> Result<Self, OutOfMemory>
        requires some { 1 ≤ frames }
        requires fits { ¬ IsTooLarge image frames }
        ensures { IfOk result (λ d. d ≡ unrolled image frames) }
    {
        let copies = Frames::new(alloc, image, frames)?;
        match new_frame_room(alloc, copies.circuit()) {
            Ok((outputs, bad, gates)) => Ok(Unrolling {
                copies,
                outputs,
                bad,
                gates,
            }),
            Err(refused) => {
                drop(copies); // for the proof
                Err(refused)
            }
        }
    }

    /// The circuit unrolled over so many frames, as `unroll` makes it. All memory that is ever
    /// taken is taken here: what the binary image takes, and room for what is written of one frame.
    ///
    /// A circuit with justice properties or fairness constraints is refused, and so is one whose
    /// unrolled circuit would be too large: both before any memory is taken.
    pub fn new(alloc: Global, checked: Checked, frames: u32) -> Result<Self, Stopped>
        requires { (1 ≤ frames) × (frames ≤ 1000000) }
        ensures ok { IfOk result (λ d. IsUnrolled checked frames d) }
        ensures supported { OnOk result ((¬ IsUnsupported checked)
            × (¬ IsTooLarge checked frames)) }
        ensures err { IfErr result (NotUnrolled checked frames) }
    {
        match check_supported(checked.circuit(), frames) {
            Ok(()) => {
                let image = into_binary(alloc, checked, &mut Steps::new())?;
                Ok(Unrolling::of_image(alloc, image, frames)?)
            }
            Err(fault) => {
                drop(checked); // for the proof
                Err(fault)
            }
        }
    }

    fn put_ascii<W: Sink>(self, output: &mut Output<W>)
        ensures { Appended output.old output.new (ascii_text self) }
    {
        let Unrolling {
            mut copies,
            mut outputs,
            mut bad,
            mut gates,
        } = self;
        put_header(output, ASCII_WORD, &header_numbers(&copies));
        put_inputs(output, copies.count_inputs());
        put_section::<OutputLines, W>(output, &mut copies, &mut outputs);
        put_section::<BadLines, W>(output, &mut copies, &mut bad);
        put_section::<GateLines, W>(output, &mut copies, &mut gates);
        drop(copies); // for the proof
    }

    fn put_binary<W: Sink>(self, output: &mut Output<W>)
        ensures { Appended output.old output.new (binary_text self) }
    {
        let Unrolling {
            mut copies,
            mut outputs,
            mut bad,
            mut gates,
        } = self;
        put_header(output, BINARY_WORD, &header_numbers(&copies));
        put_section::<OutputLines, W>(output, &mut copies, &mut outputs);
        put_section::<BadLines, W>(output, &mut copies, &mut bad);
        put_section::<GateDeltas, W>(output, &mut copies, &mut gates);
        drop(copies); // for the proof
    }

    /// Writes the canonical ASCII text of the unrolled circuit, in slices of at most 8,192 bytes.
    /// It takes no memory and fails only where the sink fails; the sink then took a beginning of
    /// the text, and is not called again.
    pub fn write_ascii<W: Sink>(self, sink: &mut W) -> Result<(), DeviceFault>
        ensures ok { OnOk result (W.history sink.new
            ≡ took (ascii_text self) (W.history sink.old)) }
        ensures err { OnErr result (TookBeginning (ascii_text self) (W.history sink.old)
            (W.history sink.new)) }
    {
        let mut output = Output::new(sink);
        self.put_ascii(&mut output);
        let (sent, _sink) = output.finish();
        sent?;
        Ok(())
    }

    /// Writes the canonical binary text of the unrolled circuit, in slices of at most 8,192 bytes.
    /// It takes no memory and fails only where the sink fails; the sink then took a beginning of
    /// the text, and is not called again.
    pub fn write_binary<W: Sink>(self, sink: &mut W) -> Result<(), DeviceFault>
        ensures ok { OnOk result (W.history sink.new
            ≡ took (binary_text self) (W.history sink.old)) }
        ensures err { OnErr result (TookBeginning (binary_text self) (W.history sink.old)
            (W.history sink.new)) }
    {
        let mut output = Output::new(sink);
        self.put_binary(&mut output);
        let (sent, _sink) = output.finish();
        sent?;
        Ok(())
    }

    /// Whether clauses can be made of the unrolled circuit. Its variables have numbers one larger
    /// there, for a solver's numbers of 32 bits with a sign; and without a bad state the clauses
    /// could not be satisfied, which is no answer.
    pub fn check_clauses(&self) -> Result<(), Stopped>
        ensures ok { OnOk result (HasClauses self.now) }
        ensures err { IfErr result (NotInClauses self.now) }
    {
        check_clauses(&self.copies)
    }

    fn put_cnf<W: Sink>(self, output: &mut Output<W>)
        ensures { Appended output.old output.new (cnf_text self) }
    {
        let Unrolling {
            mut copies,
            outputs,
            mut bad,
            mut gates,
        } = self;
        let (variables, clauses) = clause_numbers(&copies);
        put_clauses_header(output, variables, clauses);
        put_clause(output, &[Lit(1)]);
        put_section::<GateClauses, W>(output, &mut copies, &mut gates);
        put_section::<BadLiterals, W>(output, &mut copies, &mut bad);
        put_clause_end(output);
        drop(outputs); // for the proof
        drop(copies); // for the proof
    }

    /// Writes the clauses by which a bad state of the unrolled circuit is 1, as DIMACS text, in
    /// slices of at most 8,192 bytes. It takes no memory and fails only where the sink fails; the
    /// sink then took a beginning of the text, and is not called again.
    pub fn write_cnf<W: Sink>(self, sink: &mut W) -> Result<(), DeviceFault>
        ensures ok { OnOk result (W.history sink.new ≡ took (cnf_text self) (W.history sink.old)) }
        ensures err { OnErr result (TookBeginning (cnf_text self) (W.history sink.old)
            (W.history sink.new)) }
    {
        let mut output = Output::new(sink);
        self.put_cnf(&mut output);
        let (sent, _sink) = output.finish();
        sent?;
        Ok(())
    }
}
