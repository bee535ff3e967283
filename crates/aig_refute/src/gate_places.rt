//! Where the clauses of gates begin. They need no entries of a table: a gate's variable tells them.

/// How many words the clauses of a gate take: two of two literals, and one of three.
pub(crate) const WORDS_OF_A_GATE: usize = 10;

/// Where the second of them begins, behind the first.
pub(crate) const SECOND_CLAUSE: u32 = 3;

/// And the third.
pub(crate) const THIRD_CLAUSE: u32 = 6;

/// Gates whose variables follow one another, and whose clauses do.
#[derive(Clone, Copy, Debug, PartialEq, Eq)]
pub(crate) struct GatePlaces {
    /// The variable of the first of them.
    variable: usize,
    /// Where its clauses begin.
    place: usize,
    count: usize,
}

/// None.
pub(crate) const NO_GATES: GatePlaces = GatePlaces {
    variable: 0,
    place: 0,
    count: 0,
};

impl GatePlaces {
    /// Where the clauses of the next gate begin, if its clauses follow those before.
    fn end(self) -> usize {
        self.place
            .saturating_add(self.count.saturating_mul(WORDS_OF_A_GATE))
    }

    /// The clauses of this literal's gate begin there. Answers whether that is known from now on.
    pub(crate) fn set(&mut self, literal: u32, place: usize) -> bool {
        let variable = literal as usize / 2;
        if self.count == 0 {
            *self = GatePlaces {
                variable,
                place,
                count: 1,
            };
            return true;
        }
        if variable != self.variable.saturating_add(self.count) || place != self.end() {
            return false;
        }
        self.count = self.count.saturating_add(1);
        true
    }

    /// Where the clauses of this literal's gate begin, if that is known.
    pub(crate) fn get(self, literal: u32) -> Option<usize> {
        let at = (literal as usize / 2).checked_sub(self.variable)?;
        if at >= self.count {
            return None;
        }
        Some(
            self.place
                .saturating_add(at.saturating_mul(WORDS_OF_A_GATE)),
        )
    }
}
