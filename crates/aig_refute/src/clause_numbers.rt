//! The numbers of clauses, by which hints name them. Nothing of this is believed: a clause that is
//! found is read anew.

use crate::reader::RefutationFormat;
use std::alloc::{AllocError, Global};

/// A clause: its number, and where it begins.
#[derive(Clone, Copy, Debug, PartialEq, Eq)]
struct Numbered {
    number: u32,
    place: u32,
}

/// Where clauses begin, by their numbers. They are kept where a refutation names them.
#[derive(Drop)]
pub(crate) struct ClauseNumbers {
    format: RefutationFormat,
    /// In the order in which the clauses came, in which numbers should grow.
    clauses: Vec<Numbered>,
    /// The number of the next clause.
    next: u32,
}

impl ClauseNumbers {
    /// No clauses; the first one has the number 1.
    pub(crate) fn new(alloc: Global, format: RefutationFormat) -> ClauseNumbers {
        ClauseNumbers {
            format,
            clauses: Vec::new(alloc),
            next: 1,
        }
    }

    /// Whether clauses are found by their numbers.
    pub(crate) fn are_kept(&self) -> bool {
        self.format == RefutationFormat::Lrat
    }

    /// The next clause has this number.
    pub(crate) fn set_next(&mut self, number: u32) {
        self.next = number;
    }

    /// The next clause begins there, if the place has 32 bits.
    pub(crate) fn put(&mut self, at: usize) -> Result<(), AllocError> {
        if self.are_kept() {
            let place = u32::try_from(at).unwrap_or(u32::MAX);
            self.clauses.push(Numbered {
                number: self.next,
                place,
            })?;
            self.next = self.next.saturating_add(1);
        }
        Ok(())
    }

    /// How many numbers up to the last one no clause has.
    fn gaps(&self) -> usize {
        match self.clauses.last() {
            Some(clause) => (clause.number as usize).saturating_sub(self.clauses.len()),
            None => 0,
        }
    }

    /// Where the clause of this number begins, if numbers grow. Where none is left out, it is found
    /// at once.
    pub(crate) fn place_of(&self, number: u32) -> Option<u32> {
        let mut high = (number as usize).min(self.clauses.len());
        let mut low = (number as usize).saturating_sub(self.gaps().saturating_add(1));
        while low < high {
            let middle = low + (high - low) / 2;
            let found = *self.clauses.get(middle)?;
            if found.number == number {
                return Some(found.place);
            }
            if found.number < number {
                low = middle + 1;
            } else {
                high = middle;
            }
        }
        None
    }
}
