//! The words for an outcome. They need no memory: a block has room for all of them.
ghost use Rattle.std.specs.Prelude.{◌≡◌, ◌≤◌, ◌+◌, ◌++◌, [], length};
ghost use Rattle.aig_fault.specs.Words.{kind_of_number, message_text, number_text};
ghost use Rattle.aig_io.specs.declared.block.TheConstants.{ROOM};
ghost use Rattle.aig_library.specs.Message.{IsWritten, fault_words, outcome_text, place_of};
ghost use Rattle.aig_library.specs.Message.{words_of};

use crate::outcome::{
    BAD, GATE, INPUT, LINE, MAP_LINE, OUT_OF_MEMORY, OUTPUT, Outcome, REFUSED, SECOND_REFUSED,
    VALUE, WORD,
};
use aig_core::Block;
use aig_fault::{Kind, Message, Place};
use itoa::Buffer;
use std::fmt::Write;

/// Puts a text, for which there is room.
fn put(words: &mut Block, text: &str)
    requires { length words.old + length text.now ≤ ROOM }
    ensures { words.new ≡ words.old ++ text.now }
{
    let _fits = words.write_str(text);
}

/// Puts a number, where there is one. There is room for it.
fn put_any_number(words: &mut Block, number: Option<u64>)
    requires { length words.old + length (number_text number) ≤ ROOM }
    ensures { words.new ≡ words.old ++ number_text number }
{
    if let Some(number) = number {
        let mut digits = Buffer::new();
        put(words, digits.format(number));
    }
}

/// Puts a message, for which there is room.
fn put_message(words: &mut Block, message: &Message)
    requires { length words.old + length (message_text message.now) ≤ ROOM }
    ensures { words.new ≡ words.old ++ message_text message.now }
{
    let (before, number, after) = message.parts();
    put(words, before);
    put_any_number(words, number);
    put(words, after);
}

/// The place of these numbers.
fn place_of(place: u32, number: u64) -> Place
    ensures { result ≡ place_of place number }
{
    match place {
        LINE => Place::Line(number),
        GATE => Place::Gate(number),
        MAP_LINE => Place::MapLine(number),
        WORD => Place::Word(number),
        VALUE => Place::Value(number),
        INPUT => Place::Input(number),
        OUTPUT => Place::Output(number),
        BAD => Place::Bad(number),
        _ => Place::Whole,
    }
}

/// Puts what is wrong, where the number is that of a kind.
#[tactic(auto, using(crate::proofs::Messages::kind_short))]
fn put_kind(words: &mut Block, number: u32, subject: u32)
    requires { length words.old ≤ 32 }
    ensures value { words.new ≡ words.old ++ words_of (kind_of_number number) subject }
    ensures short { length words.new ≤ 80 }
{
    if let Some(kind) = Kind::of_number(number) {
        put_message(words, &kind.words(subject));
    }
}

/// Puts where it is wrong, and what.
#[tactic(auto, using(crate::proofs::Messages::place_short))]
fn put_fault(words: &mut Block, outcome: &Outcome)
    requires { words.old ≡ [] }
    ensures value { words.new ≡ fault_words outcome.now }
    ensures short { length words.new ≤ 80 }
{
    put_message(words, &place_of(outcome.place, outcome.number).words());
    put_kind(words, outcome.kind, outcome.subject);
}

/// Puts the words for an outcome.
fn put_words(words: &mut Block, outcome: &Outcome)
    requires { words.old ≡ [] }
    ensures value { words.new ≡ outcome_text outcome.now }
    ensures short { length words.new ≤ 80 }
{
    match outcome.status {
        OUT_OF_MEMORY => put(words, "out of memory"),
        REFUSED | SECOND_REFUSED => put_fault(words, outcome),
        _ => {}
    }
}

/// Puts the words for an outcome at the front of the output, where there is room for them, and
/// answers how many bytes they have. There are none, and the answer is 0, where the status tells of
/// no fault.
pub fn message(outcome: &Outcome, output: &mut [u8]) -> usize
    ensures written { IsWritten (outcome_text outcome.now) output.old output.new result }
    ensures short { result ≤ 80 }
{
    let mut words = Block::new();
    put_words(&mut words, outcome);
    let text = words.as_slice();
    if text.len() <= output.len() {
        output[..text.len()].copy_from_slice(text);
    }
    text.len()
}
