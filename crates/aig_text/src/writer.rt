//! The canonical ASCII text of a circuit, written to a sink in blocks.
ghost use Rattle.std.specs.List.{flat_map};
ghost use Rattle.std.specs.Prelude.{◌≡◌, ◌-◌, ◌<◌, ◌∷◌, ℕ, List, OnErr, OnOk, Some};
ghost use Rattle.aig_io.specs.Output.{Appended};
ghost use Rattle.aig_io.specs.Devices.{took, TookBeginning};
ghost use Rattle.aig_text.specs.AsciiText.{ascii_text, comment_text, header_text};
ghost use Rattle.aig_text.specs.AsciiText.{line_text, more_numbers_text};
ghost use Rattle.aig_text.specs.AsciiText.{numbers_text, row_text, shortened};
ghost use Rattle.aig_text.specs.AsciiText.{spaced_number, symbol_text, tail_text};
ghost use Rattle.aig_text.specs.Sections.{header_row, rows_of, literal_rows_of};
ghost use Rattle.aig_rows.specs.Rows.{gate_row, input_row, latch_row};
ghost use Rattle.aig_rows.specs.Rows.{literal_row, reset_number, size_row};
ghost use Rattle.aig_text.specs.declared.writer.TheConstants.{FEW};

use crate::header_line::{ASCII_WORD, HEADER_LEAST, HEADER_NUMBERS};
use aig_core::{
    Checked, Circuit, DeviceFault, Gate, Latch, Listing, Lit, Output, Reset, Sink, Symbols, Var,
};

/// A line of at most so many numbers after the first is put at once.
const FEW: usize = 8;

fn put_spaced_number<W: Sink>(output: &mut Output<W>, number: u64)
    ensures { Appended output.old output.new (spaced_number number) }
{
    output.put(b" ");
    output.put_number(number);
}

fn put_spaced_numbers<W: Sink>(output: &mut Output<W>, numbers: &[u64])
    ensures { Appended output.old output.new (flat_map spaced_number numbers.now) }
{
    for number in numbers {
        put_spaced_number(output, *number);
    }
}

fn put_more_numbers<W: Sink>(output: &mut Output<W>, numbers: &[u64])
    ensures { Appended output.old output.new (more_numbers_text numbers.now) }
{
    put_spaced_numbers(output, numbers);
    output.put(b"\n");
}

/// Puts a numbered line: its first number and the others.
#[inline(always)]
pub fn put_numbers<W: Sink>(output: &mut Output<W>, first: u64, others: &[u64])
    ensures { Appended output.old output.new (numbers_text (first ∷ others.now)) }
{
    if others.len() <= FEW {
        output.put_row(first, others);
    } else {
        output.put_number(first);
        put_more_numbers(output, others);
    }
}

/// The numbers that are written of these: all up to the last that is not 0, and at least so many.
#[inline(always)]
#[tactic(auto, using(crate::proofs::Written::shortening))]
fn shorten(numbers: &[u64], least: usize) -> &[u64]
    ensures { result.now ≡ shortened least numbers.now }
{
    let mut end = numbers.len();
    while end > least && numbers[end - 1] == 0 {
        end -= 1;
    }
    let (written, _) = numbers.split_at(end);
    written
}

/// Puts the header line: its word and its numbers.
pub fn put_header<W: Sink>(output: &mut Output<W>, word: &[u8], numbers: &[u64])
    ensures { Appended output.old output.new (header_text word.now numbers.now) }
{
    output.put(word);
    put_more_numbers(output, shorten(numbers, HEADER_LEAST));
}

/// The number that says what a latch with this literal starts at.
#[inline(always)]
pub fn reset_number(own: u64, reset: Reset) -> u64
    ensures { result ≡ reset_number own reset }
{
    match reset {
        Reset::Zero => 0,
        Reset::One => 1,
        Reset::Uninit => own,
    }
}

/// What has a numbered line of its own in an ASCII file: an input, a latch, a literal, a gate, a
/// size.
pub trait NumberedLine {
    /// The line.
    ghost line: { Self → List ℕ };

    /// Adds the line.
    fn put_line<W: Sink>(&self, output: &mut Output<W>)
        ensures { Appended output.old output.new (line self.now) };
}

impl NumberedLine for Var {
    ghost line = { λ v. numbers_text (input_row v) };

    #[inline(always)]
    fn put_line<W: Sink>(&self, output: &mut Output<W>) {
        put_numbers(output, 2 * u64::from(self.0), &[]);
    }
}

impl NumberedLine for Latch {
    ghost line = { λ l. row_text 1 (latch_row l) };

    #[inline(always)]
    fn put_line<W: Sink>(&self, output: &mut Output<W>) {
        let own = 2 * u64::from(self.var.0);
        let next = u64::from(self.next.0);
        match reset_number(own, self.reset) {
            0 => put_numbers(output, own, &[next]),
            reset => put_numbers(output, own, &[next, reset]),
        }
    }
}

impl NumberedLine for Lit {
    ghost line = { λ l. numbers_text (literal_row l) };

    #[inline(always)]
    fn put_line<W: Sink>(&self, output: &mut Output<W>) {
        put_numbers(output, u64::from(self.0), &[]);
    }
}

impl NumberedLine for Gate {
    ghost line = { λ g. numbers_text (gate_row g) };

    #[inline(always)]
    fn put_line<W: Sink>(&self, output: &mut Output<W>) {
        let operands = [u64::from(self.left.0), u64::from(self.right.0)];
        put_numbers(output, 2 * u64::from(self.var.0), &operands);
    }
}

/// A size.
impl NumberedLine for u32 {
    ghost line = { λ size. numbers_text (size_row size) };

    #[inline(always)]
    fn put_line<W: Sink>(&self, output: &mut Output<W>) {
        put_numbers(output, u64::from(*self), &[]);
    }
}

/// Puts the numbered lines of a section, or of a piece of one.
#[inline(never)]
pub fn put_lines<T: NumberedLine, W: Sink>(output: &mut Output<W>, items: &[T])
    ensures { Appended output.old output.new (flat_map T.line items.now) }
{
    for item in items {
        item.put_line(output);
    }
}

fn put_symbols<W: Sink>(output: &mut Output<W>, symbols: &Symbols)
    ensures { Appended output.old output.new (flat_map symbol_text symbols.now) }
{
    output.put(symbols.as_text());
}

fn put_comment<W: Sink>(output: &mut Output<W>, comment: &Option<Listing<u8>>)
    ensures { Appended output.old output.new (comment_text comment.now) }
{
    if let Some(bytes) = comment {
        output.put(b"c\n");
        output.put(bytes.as_slice());
    }
}

/// Puts what follows the gates: the symbols, and the comment section where there is one.
pub fn put_tail<W: Sink>(output: &mut Output<W>, circuit: &Circuit)
    ensures { Appended output.old output.new (tail_text circuit.now) }
{
    put_symbols(output, &circuit.symbols);
    put_comment(output, &circuit.comment);
}

/// The numbered lines of the sections between latches and gates, which ASCII and binary files list
/// alike.
pub fn put_literal_sections<W: Sink>(output: &mut Output<W>, circuit: &Circuit)
    ensures { Appended output.old output.new (flat_map line_text (literal_rows_of circuit.now)) }
{
    put_lines(output, circuit.outputs.as_slice());
    put_lines(output, circuit.bad.as_slice());
    put_lines(output, circuit.constraints.as_slice());
    put_lines(output, circuit.justice.sizes.as_slice());
    put_lines(output, circuit.justice.literals.as_slice());
    put_lines(output, circuit.fairness.as_slice());
}

fn put_sections<W: Sink>(output: &mut Output<W>, circuit: &Circuit)
    ensures { Appended output.old output.new (flat_map line_text (rows_of circuit.now)) }
{
    put_lines(output, circuit.inputs.as_slice());
    put_lines(output, circuit.latches.as_slice());
    put_literal_sections(output, circuit);
    put_lines(output, circuit.gates.as_slice());
}

/// The numbers of the header: the largest index, and the counts.
pub fn header_numbers(circuit: &Circuit) -> [u64; HEADER_NUMBERS]
    ensures { result ≡ header_row circuit.now }
{
    [
        u64::from(circuit.max_var),
        circuit.inputs.len() as u64,
        circuit.latches.len() as u64,
        circuit.outputs.len() as u64,
        circuit.gates.len() as u64,
        circuit.bad.len() as u64,
        circuit.constraints.len() as u64,
        circuit.justice.sizes.len() as u64,
        circuit.fairness.len() as u64,
    ]
}

fn put_text<W: Sink>(output: &mut Output<W>, circuit: &Circuit)
    ensures { Appended output.old output.new (ascii_text circuit.now) }
{
    put_header(output, ASCII_WORD, &header_numbers(circuit));
    put_sections(output, circuit);
    put_tail(output, circuit);
}

/// Writes the canonical ASCII text of a circuit, in slices of at most 8,192 bytes. It takes no
/// memory and fails only where the sink fails; the sink then took a beginning of the text, and is
/// not called again.
pub fn write_ascii<W: Sink>(circuit: &Checked, sink: &mut W) -> Result<(), DeviceFault>
    ensures ok { OnOk result (W.history sink.new ≡ took (ascii_text circuit.now)
        (W.history sink.old)) }
    ensures err { OnErr result (TookBeginning (ascii_text circuit.now) (W.history sink.old)
        (W.history sink.new)) }
{
    let mut output = Output::new(sink);
    put_text(&mut output, circuit.circuit());
    let (sent, _sink) = output.finish();
    sent?;
    Ok(())
}
