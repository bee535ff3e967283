//! The words of each fault.
ghost use Rattle.std.specs.Prelude.{◌≡◌, ◌++◌};
ghost use Rattle.aig_io.specs.Output.{Appended};
ghost use Rattle.aig_fault.specs.Words.{fault_text, kind_text, message_text, place_text};

use crate::fault::{Fault, Place};
use crate::kind::Kind;
use crate::message::Message;
use aig_io::{Output, Sink};

impl Place {
    /// What the words of a fault at this place begin with.
    pub fn words(self) -> Message
        ensures { message_text result ≡ place_text self }
    {
        match self {
            Place::Whole => Message::new(""),
            Place::Line(number) => Message::around("line ", number, ": "),
            Place::Gate(number) => Message::around("gate ", number, ": "),
            Place::MapLine(number) => Message::around("map line ", number, ": "),
            Place::Word(number) => Message::around("word ", number, ": "),
            Place::Value(number) => Message::around("value ", number, ": "),
            Place::Input(number) => Message::around("input ", number, ": "),
            Place::Output(number) => Message::around("output ", number, ": "),
            Place::Bad(number) => Message::around("bad state ", number, ": "),
        }
    }
}

impl Kind {
    /// What is wrong, in words that name this.
    pub fn words(self, subject: u32) -> Message
        ensures { message_text result ≡ kind_text self subject }
    {
        let subject = u64::from(subject);
        match self {
            Kind::NotAiger => Message::new("not an AIGER file"),
            Kind::BadHeader => Message::new("bad header"),
            Kind::TooLarge => Message::new("number above the limit"),
            Kind::BadLine => Message::new("bad line"),
            Kind::NotVariable => Message::new("not a variable"),
            Kind::LiteralRange => Message::new("literal out of range"),
            Kind::BadReset => Message::new("bad reset"),
            Kind::Truncated => Message::new("file ends too early"),
            Kind::BadDelta => Message::new("bad delta"),
            Kind::BadSymbol => Message::new("bad symbol line"),
            Kind::SymbolRange => Message::new("symbol position out of range"),
            Kind::SymbolTwice => Message::new("symbol given twice"),
            Kind::Redefined => Message::around("variable ", subject, " defined twice"),
            Kind::Undefined => Message::around("literal ", subject, " not defined"),
            Kind::Cyclic => Message::around("gate ", subject, " depends on a cycle"),
            Kind::NotOrdered => Message::new("not in binary order"),
            Kind::NoMap => Message::new("no map"),
            Kind::BadMapLine => Message::new("bad line"),
            Kind::MapMismatch => Message::new("map counts differ"),
            Kind::MapForged => Message::new("map does not belong to this circuit"),
            Kind::NotUnrollable => Message::new("justice or fairness cannot be unrolled"),
            Kind::TooLargeUnrolled => Message::new("too large to unroll"),
            Kind::BadStimulus => Message::new("bad stimulus line"),
            Kind::BadWitness => Message::new("bad witness line"),
            Kind::HasBad => Message::new("bad states are there already"),
            Kind::NoBadStates => Message::new("no bad states"),
            Kind::NoSuchBadState => Message::around("no bad state ", subject, ""),
            Kind::BadAnswer => Message::new("bad answer line"),
            Kind::Unsatisfiable => Message::new("unsatisfiable"),
            Kind::Unknown => Message::new("unknown"),
            Kind::NotReached => Message::new("no bad state is reached"),
            Kind::NoRefutation => Message::new("no refutation"),
            Kind::BadRefutation => Message::new("bad line"),
            Kind::DoesNotFollow => Message::new("does not follow"),
            Kind::BadInvariant => Message::new("bad line"),
            Kind::NotEachLatch => Message::new("not a character for each latch"),
            Kind::MetAtStart => Message::new("met by a first state"),
            Kind::TooLargeInvariant => Message::new("too large"),
            Kind::BadCounts => Message::new("counts do not fit"),
            Kind::BadValue => Message::new("neither 0, 1 nor 2"),
            Kind::NotComparable => Message::new("justice or fairness cannot be compared"),
            Kind::OtherInputs => Message::new("not as many inputs"),
            Kind::OtherOutputs => Message::new("not as many outputs and bad states"),
            Kind::TooLargeToCompare => Message::new("too large to compare"),
            Kind::NoName => Message::new("no name"),
            Kind::NameTwice => Message::new("name given twice"),
            Kind::NoSuchName => Message::new("no such name in the other file"),
            Kind::NoSuchJustice => Message::around("no justice property ", subject, ""),
            Kind::TooLargeJustice => Message::new("too large"),
        }
    }
}

impl Fault {
    /// Where it is wrong, and what.
    pub fn words(&self) -> (Message, Message)
        ensures { message_text result.0 ++ message_text result.1 ≡ fault_text self.now }
    {
        (self.place.words(), self.kind.words(self.subject))
    }

    /// Puts its words.
    pub fn put<W: Sink>(&self, output: &mut Output<W>)
        ensures { Appended output.old output.new (fault_text self.now) }
    {
        let (place, kind) = self.words();
        place.put(output);
        kind.put(output);
    }
}
