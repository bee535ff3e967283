//! What messages are made of.
ghost use Rattle.std.specs.Prelude.{◌≡◌, ◌++◌, ◌+◌, ◌-◌, ◌^◌, ◌<◌, Some, decimal};
ghost use Rattle.aig_io.specs.Output.{Appended};
ghost use Rattle.aig_fault.specs.Words.{message_text, number_text};

use aig_io::{Output, Sink};
use std::fmt;

/// A text that stands in the program, with a number in it or without one.
#[derive(Drop)]
pub struct Message {
    before: &'static str,
    number: Option<u64>,
    after: &'static str,
}

impl Message {
    /// A text without a number.
    pub fn new(text: &'static str) -> Self
        ensures { message_text result ≡ text.now }
    {
        Message {
            before: text,
            number: None,
            after: "",
        }
    }

    /// A number between two texts.
    pub fn around(before: &'static str, number: u64, after: &'static str) -> Self
        ensures { message_text result ≡ before.now ++ (decimal number ++ after.now) }
    {
        Message {
            before,
            number: Some(number),
            after,
        }
    }

    /// What stands before the number, the number, and what stands after it.
    pub fn parts(&self) -> (&'static str, Option<u64>, &'static str)
        ensures { result.0.now ++ (number_text result.1 ++ result.2.now) ≡ message_text self.now }
    {
        (self.before, self.number, self.after)
    }

    /// Puts the text.
    pub fn put<W: Sink>(&self, output: &mut Output<W>)
        ensures { Appended output.old output.new (message_text self.now) }
    {
        output.put(self.before.as_bytes());
        put_any_number(output, self.number);
        output.put(self.after.as_bytes());
    }
}

/// A number, where there is one.
fn put_any_number<W: Sink>(output: &mut Output<W>, number: Option<u64>)
    ensures { Appended output.old output.new (number_text number) }
{
    if let Some(number) = number {
        output.put_number(number);
    }
}

impl fmt::Display for Message {
    ghost output = { λ message. Some (message_text message) };

    fn fmt<W: fmt::Write>(&self, f: &mut fmt::Formatter<W>) -> fmt::Result {
        let before = self.before;
        let after = self.after;
        match self.number {
            Some(number) => write!(f, "{before}{number}{after}"),
            None => write!(f, "{before}{after}"),
        }
    }
}
