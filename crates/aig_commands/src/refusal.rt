//! Why what the arguments speak of cannot be had of a circuit that was read. It is no fault of a
//! file.
ghost use Rattle.std.specs.Prelude.{◌≡◌};
ghost use Rattle.aig_fault.specs.Words.{message_text};
ghost use Rattle.aig_commands.specs.Refusals.{missing_words, refusal_text};

use aig_core::Kind;
use aig_fault::Message;

/// Why it cannot be had.
#[derive(Clone, Copy)]
pub enum Refusal {
    /// The circuit has nothing of this kind at this position.
    NotThere { kind: Kind, position: u32 },
    /// A picture would have so many gates, more than are to be drawn.
    TooManyGates(u64),
}

/// The words before the position of what is not there.
fn missing_words(kind: Kind) -> &'static str
    ensures { result.now ≡ missing_words kind }
{
    match kind {
        Kind::Input => "no input ",
        Kind::Latch => "no latch ",
        Kind::Output => "no output ",
        Kind::Bad => "no bad state ",
        Kind::Constraint => "no constraint ",
        Kind::Justice => "no justice property ",
        Kind::Fairness => "no fairness constraint ",
    }
}

impl Refusal {
    /// Why it cannot be had, in words.
    pub fn words(self) -> Message
        ensures { message_text result ≡ refusal_text self }
    {
        match self {
            Refusal::NotThere { kind, position } => {
                Message::around(missing_words(kind), u64::from(position), "")
            }
            Refusal::TooManyGates(gates) => Message::around(
                "",
                gates,
                " gates, more than --gates; draw less with --cone, or raise --gates",
            ),
        }
    }
}
