//! A count of steps that only clauses read.
ghost use Rattle.std.specs.Prelude.{◌≡◌, ◌+◌};
ghost use Rattle.aig_io.specs.Notes.{sum_of};
ghost use Rattle.aig_topo.specs.Counted.{Counted};

use aig_io::Record;
use std::marker::Model;

/// How many steps were made over gates: it takes no memory. It is lent to each search and to each
/// order, so that work that is thrown away counts too.
#[derive(Drop)]
pub struct Steps {
    made: Record,
}

impl Model for Steps {
    ghost Value = { Counted };

    ghost view = { λ a. record { count = sum_of a.made.notes } };
}

impl Steps {
    /// No step yet.
    pub fn new() -> Steps
        ensures { result.count ≡ 0 }
    {
        Steps {
            made: Record::new(),
        }
    }

    /// Counts so many steps more.
    #[inline(always)]
    pub fn add(&mut self, steps: u64)
        ensures { self.new.count ≡ self.old.count + steps }
    {
        self.made.note(&[steps], &[]);
    }
}
