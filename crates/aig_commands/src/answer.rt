//! What is written in the end of a job.
ghost use Rattle.std.specs.Prelude.{◌≡◌, IfErr, OnErr, OnOk};
ghost use Rattle.aig_fault.specs.declared.stopped.Stopped.TheVariants.{WriteFailed};
ghost use Rattle.aig_fault.specs.Words.{message_text};
ghost use Rattle.aig_io.specs.Devices.{took, TookBeginning};
ghost use Rattle.aig_commands.specs.Jobs.{text_of};
ghost use Rattle.aig_commands.specs.Refuting.{none_text};
ghost use Rattle.aig_commands.specs.Unrolling.{unrolled_text};

use aig_binary::{Ordered, write_binary};
use aig_command::UnrolledForm;
use aig_convert::{MappedImage, write_mapped};
use aig_core::{Checked, DeviceFault, Listing, Output, Sink};
use aig_cuts::{Cut, write_cut_clauses};
use aig_dot::{Picture, write_dot};
use aig_fault::{Message, Stopped};
use aig_info::{Form, Info, write_info};
use aig_live::FoundLasso;
use aig_replay::FoundWitness;
use aig_text::write_ascii;
use aig_unroll::Unrolling;

/// What is written.
#[derive(Drop)]
pub enum Answer {
    /// A circuit, in ASCII.
    Ascii(Checked),
    /// An image, in binary.
    Binary(Ordered),
    /// An image with a map, in binary.
    Mapped(MappedImage),
    /// An unrolled circuit, in this form.
    Unrolled(UnrolledForm, Unrolling),
    /// The clauses of a circuit by a plan.
    Clauses {
        plan: Listing<Cut>,
        circuit: Ordered,
    },
    /// A witness that a bad state is reached.
    Witness(FoundWitness),
    /// A witness that a justice property is met.
    Lasso(FoundLasso),
    /// That no run of so many steps has the property.
    NoneWithin(u32),
    /// That no run ever does.
    Never,
    /// What is counted of a circuit, in this form.
    Info(Form, Info),
    /// A picture of a circuit.
    Picture {
        picture: Picture,
        circuit: Checked,
    },
    /// A text that is shown.
    Text(String),
}

fn write_unrolled<W: Sink>(
    form: UnrolledForm,
    circuit: Unrolling,
    sink: &mut W,
) -> Result<(), DeviceFault>
    ensures ok { OnOk result (W.history sink.new
        ≡ took (unrolled_text form circuit) (W.history sink.old)) }
    ensures err { OnErr result (TookBeginning (unrolled_text form circuit)
        (W.history sink.old) (W.history sink.new)) }
{
    match form {
        UnrolledForm::Binary => circuit.write_binary(sink),
        UnrolledForm::Ascii => circuit.write_ascii(sink),
        UnrolledForm::Clauses { property: _ } => circuit.write_cnf(sink),
    }
}

/// Sends a text. On an error the sink took a beginning of it.
fn send_text<W: Sink>(text: &[u8], sink: &mut W) -> Result<(), DeviceFault>
    ensures ok { OnOk result (W.history sink.new ≡ took text.now (W.history sink.old)) }
    ensures err { OnErr result (TookBeginning text.now (W.history sink.old) (W.history sink.new)) }
{
    let mut output = Output::new(sink);
    output.put(text);
    let (sent, _sink) = output.finish();
    sent
}

/// Sends a message. On an error the sink took a beginning of it.
pub(crate) fn send_message<W: Sink>(message: &Message, sink: &mut W) -> Result<(), DeviceFault>
    ensures ok { OnOk result (W.history sink.new ≡ took (message_text message.now)
        (W.history sink.old)) }
    ensures err { OnErr result (TookBeginning (message_text message.now)
        (W.history sink.old) (W.history sink.new)) }
{
    let mut output = Output::new(sink);
    message.put(&mut output);
    let (sent, _sink) = output.finish();
    sent
}

/// Sends the line that no run of so many steps has the property.
fn send_none_within<W: Sink>(frames: u32, sink: &mut W) -> Result<(), DeviceFault>
    ensures ok { OnOk result (W.history sink.new ≡ took (none_text frames) (W.history sink.old)) }
    ensures err { OnErr result (TookBeginning (none_text frames)
        (W.history sink.old) (W.history sink.new)) }
{
    send_message(
        &Message::around("none within ", u64::from(frames), "\n"),
        sink,
    )
}

impl Answer {
    /// Writes its text. It fails only where the sink fails, which then took a beginning of it.
    pub fn write<W: Sink>(self, sink: &mut W) -> Result<(), Stopped>
        ensures ok { OnOk result (W.history sink.new ≡ took (text_of self) (W.history sink.old)) }
        ensures err { OnErr result (TookBeginning (text_of self)
            (W.history sink.old) (W.history sink.new)) }
        ensures stopped { IfErr result (λ stopped. stopped ≡ WriteFailed) }
    {
        match self {
            Answer::Ascii(circuit) => {
                let written = write_ascii(&circuit, sink);
                drop(circuit); // for the proof
                Ok(written?)
            }
            Answer::Binary(image) => {
                let written = write_binary(&image, sink);
                drop(image); // for the proof
                Ok(written?)
            }
            Answer::Mapped(image) => {
                let written = write_mapped(&image, sink);
                drop(image); // for the proof
                Ok(written?)
            }
            Answer::Unrolled(form, circuit) => Ok(write_unrolled(form, circuit, sink)?),
            Answer::Clauses { plan, circuit } => {
                let written = write_cut_clauses(&circuit, plan.as_slice(), sink);
                drop(circuit); // for the proof
                Ok(written?)
            }
            Answer::Witness(witness) => Ok(witness.write(sink)?),
            Answer::Lasso(lasso) => Ok(lasso.write(sink)?),
            Answer::NoneWithin(frames) => Ok(send_none_within(frames, sink)?),
            Answer::Never => Ok(send_text(b"never\n", sink)?),
            Answer::Info(form, info) => Ok(write_info(form, &info, sink)?),
            Answer::Picture { picture, circuit } => {
                let written = write_dot(&picture, circuit.circuit(), sink);
                drop(circuit); // for the proof
                Ok(written?)
            }
            Answer::Text(text) => Ok(send_text(text.as_bytes(), sink)?),
        }
    }
}
