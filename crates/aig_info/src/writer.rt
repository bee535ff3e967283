//! The text of what is counted, put on its way to a sink.
ghost use Rattle.std.specs.Prelude.{◌≡◌, ◌-◌, OnErr, OnOk};
ghost use Rattle.aig_io.specs.Devices.{TookBeginning, took};
ghost use Rattle.aig_io.specs.Output.{Appended};
ghost use Rattle.aig_info.specs.InfoText.{end_text, field_text, head_field, head_line, head_text};
ghost use Rattle.aig_info.specs.InfoText.{info_text, line_text, other_rows, row_text};
ghost use Rattle.aig_info.specs.InfoText.{rows_text, size_rows, use_rows};

use crate::info::{Info, Sizes, Used};
use aig_io::{DeviceFault, Output, Sink};

/// How the numbers are written.
#[derive(Clone, Copy, PartialEq)]
pub enum Form {
    /// A line for each, with its name.
    Lines,
    /// A JSON object in one line.
    Json,
}

fn put_head_line<W: Sink>(output: &mut Output<W>, number: u64)
    ensures { Appended output.old output.new (head_line number) }
{
    output.put(b"max_var ");
    output.put_number(number);
    output.put(b"\n");
}

fn put_head_field<W: Sink>(output: &mut Output<W>, number: u64)
    ensures { Appended output.old output.new (head_field number) }
{
    output.put(b"{\"max_var\":");
    output.put_number(number);
}

fn put_head<W: Sink>(output: &mut Output<W>, form: Form, number: u64)
    ensures { Appended output.old output.new (head_text form number) }
{
    match form {
        Form::Lines => put_head_line(output, number),
        Form::Json => put_head_field(output, number),
    }
}

fn put_line<W: Sink>(output: &mut Output<W>, name: &[u8], number: u64)
    ensures { Appended output.old output.new (line_text name.now number) }
{
    output.put(name);
    output.put(b" ");
    output.put_number(number);
    output.put(b"\n");
}

fn put_field<W: Sink>(output: &mut Output<W>, name: &[u8], number: u64)
    ensures { Appended output.old output.new (field_text name.now number) }
{
    output.put(b",\"");
    output.put(name);
    output.put(b"\":");
    output.put_number(number);
}

fn put_row<W: Sink>(output: &mut Output<W>, form: Form, name: &[u8], number: u64)
    ensures { Appended output.old output.new (row_text form (name.now, number)) }
{
    match form {
        Form::Lines => put_line(output, name, number),
        Form::Json => put_field(output, name, number),
    }
}

fn put_sizes<W: Sink>(output: &mut Output<W>, form: Form, sizes: &Sizes)
    ensures { Appended output.old output.new (rows_text form (size_rows sizes.now)) }
{
    put_row(output, form, b"inputs", sizes.inputs);
    put_row(output, form, b"latches", sizes.latches);
    put_row(output, form, b"outputs", sizes.outputs);
    put_row(output, form, b"gates", sizes.gates);
    put_row(output, form, b"bad", sizes.bad);
    put_row(output, form, b"constraints", sizes.constraints);
    put_row(output, form, b"justice", sizes.justice);
    put_row(output, form, b"fairness", sizes.fairness);
}

fn put_others<W: Sink>(output: &mut Output<W>, form: Form, info: &Info)
    ensures { Appended output.old output.new (rows_text form (other_rows info.now)) }
{
    put_row(output, form, b"latches_at_one", info.ones);
    put_row(output, form, b"uninitialised_latches", info.uninitialised);
    put_row(output, form, b"symbols", info.symbols);
    put_row(output, form, b"comment_bytes", info.comment);
    put_row(output, form, b"levels", info.levels);
}

/// Puts what is left of all.
fn put_unused<W: Sink>(output: &mut Output<W>, form: Form, name: &[u8], all: u64, used: u64)
    ensures { Appended output.old output.new (row_text form (name.now, all - used)) }
{
    put_row(output, form, name, all.saturating_sub(used));
}

fn put_use<W: Sink>(output: &mut Output<W>, form: Form, sizes: &Sizes, used: &Used)
    ensures { Appended output.old output.new (rows_text form (use_rows sizes.now used.now)) }
{
    put_row(output, form, b"used_inputs", used.inputs);
    put_row(output, form, b"used_latches", used.latches);
    put_row(output, form, b"used_gates", used.gates);
    put_unused(output, form, b"unused_inputs", sizes.inputs, used.inputs);
    put_unused(output, form, b"unused_latches", sizes.latches, used.latches);
    put_unused(output, form, b"unused_gates", sizes.gates, used.gates);
}

fn put_end<W: Sink>(output: &mut Output<W>, form: Form)
    ensures { Appended output.old output.new (end_text form) }
{
    match form {
        Form::Lines => output.put(b""),
        Form::Json => output.put(b"}\n"),
    }
}

/// Puts what is counted.
fn put_info<W: Sink>(output: &mut Output<W>, form: Form, info: &Info)
    ensures { Appended output.old output.new (info_text form info.now) }
{
    put_head(output, form, info.sizes.max_var);
    put_sizes(output, form, &info.sizes);
    put_others(output, form, info);
    put_use(output, form, &info.sizes, &info.used);
    put_end(output, form);
}

/// Writes what is counted. It fails only where the sink fails, which then took a beginning of it.
pub fn write_info<W: Sink>(form: Form, info: &Info, sink: &mut W) -> Result<(), DeviceFault>
    ensures ok { OnOk result (W.history sink.new
        ≡ took (info_text form info.now) (W.history sink.old)) }
    ensures err { OnErr result (TookBeginning (info_text form info.now)
        (W.history sink.old) (W.history sink.new)) }
{
    let mut output = Output::new(sink);
    put_info(&mut output, form, info);
    let (sent, _sink) = output.finish();
    sent?;
    Ok(())
}
