//! What is wrong with an input, and where.
use crate::kind::Kind;
use thiserror::Error;

/// Where an input is wrong.
#[derive(Clone, Copy, Debug, PartialEq, Eq)]
pub enum Place {
    /// No one place.
    Whole,
    /// A line, counted from 1.
    Line(u64),
    /// A gate of a binary file, counted from 1. The bytes of its gates belong to no line.
    Gate(u64),
    /// A line of the map, counted from 1.
    MapLine(u64),
    /// An entry of arrays: its first word, counted from 0.
    Word(u64),
    /// A value of an input or a latch, counted from 0.
    Value(u64),
    /// An input, counted from 0.
    Input(u64),
    /// An output, counted from 0.
    Output(u64),
    /// A bad state, counted from 0.
    Bad(u64),
}

/// The first fault of an input.
#[derive(Clone, Copy, Debug, PartialEq, Eq, Error)]
#[error("{place}{kind}", place = self.place.words(), kind = self.kind.words(self.subject))]
pub struct Fault {
    /// What is wrong.
    pub kind: Kind,
    /// Where it is wrong.
    pub place: Place,
    /// The variable, the literal or the bad state that the words name; 0 for none.
    pub subject: u32,
}
