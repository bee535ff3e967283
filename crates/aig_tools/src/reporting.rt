//! What is reported on standard error. Whether it could be sent changes nothing: there is no other
//! place to report it. Formatting and sending take no memory, so that out of memory can be reported
//! too.
ghost use Rattle.std.specs.Prelude.{◌≡◌, ◌++◌, [], codes};
ghost use Rattle.aig_io.specs.Output.{Appended};
ghost use Rattle.aig_command.specs.Answer.{name_of};
ghost use Rattle.aig_tools.specs.Lines.{IsReported, cause_text, line_of, memory_line, name_at};
ghost use Rattle.aig_tools.specs.Lines.{refusal_line, shown, stop_line, subject_text, usage_text};
ghost use Rattle.aig_tools.specs.Lines.{why_text, words_line};

use aig_command::{Names, Usage};
use aig_commands::{Part, Refusal, Stopped};
use aig_core::{Output, Sink};
use aig_files::Reason;

/// The name of a source.
pub(crate) fn name_at(names: &Names, part: Part) -> &Option<String>
    ensures { name_of result.now ≡ name_at names.now part }
{
    match part {
        Part::Model => &names.model,
        Part::File => &names.file,
        Part::Refutation => &names.refutation,
    }
}

/// A file by its name, and a stream by `-`.
fn name_or_dash(name: &Option<String>) -> &str
    ensures { result.now ≡ shown (name_of name.now) }
{
    match name {
        Some(name) => name.as_str(),
        None => "-",
    }
}

/// Sends a text.
fn report_text<E: Sink>(errors: &mut E, text: &[u8])
    ensures { IsReported text.now (E.history errors.old) (E.history errors.new) }
{
    let mut output = Output::new(errors);
    output.put(text);
    let (_sent, _errors) = output.finish();
}

/// Sends a line about no file: the program's name, and what is wrong.
fn report_line<E: Sink>(errors: &mut E, text: &[u8])
    ensures { IsReported (line_of [] text.now) (E.history errors.old) (E.history errors.new) }
{
    let mut output = Output::new(errors);
    output.put(b"aiger: ");
    output.put(text);
    output.put(b"\n");
    let (_sent, _errors) = output.finish();
}

/// Reports that memory ran out. No file is at fault, so none is named.
pub(crate) fn report_memory<E: Sink>(errors: &mut E)
    ensures { IsReported memory_line (E.history errors.old) (E.history errors.new) }
{
    report_line(errors, b"out of memory");
}

/// Reports that an argument is no text.
pub(crate) fn report_words<E: Sink>(errors: &mut E)
    ensures { IsReported words_line (E.history errors.old) (E.history errors.new) }
{
    report_line(errors, b"an argument is not UTF-8 text");
}

/// Reports why arguments are refused.
pub(crate) fn report_usage<E: Sink>(errors: &mut E, usage: &Usage)
    ensures { IsReported (usage_text usage.now) (E.history errors.old) (E.history errors.new) }
{
    match usage {
        Usage::Words(text) => report_text(errors, text.as_bytes()),
        _ => report_line(errors, usage.words().as_bytes()),
    }
}

/// Puts a name and a colon.
fn put_name<E: Sink>(output: &mut Output<E>, name: &Option<String>)
    ensures { Appended output.old output.new (shown (name_of name.now) ++ codes ": ") }
{
    output.put(name_or_dash(name).as_bytes());
    output.put(b": ");
}

/// Puts what the line is about.
fn put_subject<E: Sink>(output: &mut Output<E>, names: &Names, part: Part, stopped: &Stopped)
    ensures { Appended output.old output.new (subject_text names.now part stopped.now) }
{
    match stopped {
        Stopped::OutOfMemory => output.put(b""),
        Stopped::WriteFailed => put_name(output, &names.destination),
        Stopped::ReadFailed => put_name(output, name_at(names, part)),
        Stopped::Refused(_) => put_name(output, name_at(names, part)),
    }
}

/// Puts why a file could not be used; of a stream it is not known.
fn put_why<E: Sink>(output: &mut Output<E>, name: &Option<String>, why: Option<Reason>)
    ensures { Appended output.old output.new (why_text (name_of name.now) why) }
{
    match (name, why) {
        (Some(_), Some(reason)) => {
            output.put(b": ");
            output.put(reason.words().as_bytes());
        }
        _ => output.put(b""),
    }
}

/// Puts why a job stopped, if that was a file.
fn put_cause<E: Sink>(
    output: &mut Output<E>,
    names: &Names,
    part: Part,
    stopped: &Stopped,
    why: Option<Reason>,
)
    ensures { Appended output.old output.new (cause_text names.now part stopped.now why) }
{
    match stopped {
        Stopped::OutOfMemory => output.put(b""),
        Stopped::WriteFailed => put_why(output, &names.destination, why),
        Stopped::ReadFailed => put_why(output, name_at(names, part), why),
        Stopped::Refused(_) => output.put(b""),
    }
}

/// Reports why a job stopped at this source, or after it, in one line that names what is at fault.
/// Where the files failed, it was for this reason.
pub(crate) fn report_stop<E: Sink>(
    errors: &mut E,
    names: &Names,
    part: Part,
    stopped: &Stopped,
    why: Option<Reason>,
)
    ensures { IsReported (stop_line names.now part stopped.now why)
        (E.history errors.old) (E.history errors.new) }
{
    let mut output = Output::new(errors);
    output.put(b"aiger: ");
    put_subject(&mut output, names, part, stopped);
    stopped.put(&mut output);
    put_cause(&mut output, names, part, stopped, why);
    output.put(b"\n");
    let (_sent, _errors) = output.finish();
}

/// Reports what the model has not, in one line that names it.
pub(crate) fn report_refusal<E: Sink>(errors: &mut E, names: &Names, refusal: Refusal)
    ensures { IsReported (refusal_line names.now refusal)
        (E.history errors.old) (E.history errors.new) }
{
    let mut output = Output::new(errors);
    output.put(b"aiger: ");
    put_name(&mut output, &names.model);
    refusal.words().put(&mut output);
    output.put(b"\n");
    let (_sent, _errors) = output.finish();
}
