//! Clauses, and what follows from them: what was given, and what a refutation adds.
ghost use Rattle.std.specs.Prelude.{◌≡◌, ◌≢◌, ℕ, All, Bool, List, true, false, fold, IfErr, IfOk, OnOk};
ghost use Rattle.aig_cnf.specs.Clauses.{HasTrue};
ghost use Rattle.aig_refute.specs.Agree.{Excludes, Grows, Supposes};
ghost use Rattle.aig_fault.specs.Stopping.{StopsFor};
ghost use Rattle.aig_refute.specs.Extended.{made_true};
ghost use Rattle.aig_refute.specs.Kept.{Change, ComesToRest, HaveSameLiterals, IsStored};
ghost use Rattle.aig_refute.specs.Lines.{next, reading_of};
ghost use Rattle.aig_refute.specs.Refuted.{Admits, AreInLines, AreStored, CanExtend, Followed, Gains};
ghost use Rattle.aig_refute.specs.Refuted.{HaveCome, IsWrongByte, IsWrongEnd, IsWrongWithin, Keeps};
ghost use Rattle.aig_refute.specs.Refuted.{Preserves};
ghost use Rattle.aig_refute.specs.Refuted.{base_of, changed, followed, is_refuted, words_of};
ghost use Rattle.aig_refute.specs.Store.{IsFalse};

use crate::clause_numbers::ClauseNumbers;
use crate::clause_table::ClauseTable;
use crate::kernel::Derived;
use crate::propagation::Propagation;
use crate::reader::{LineEnd, RefutationFormat, RefutationReader};
use crate::words::{largest, negation};
use aig_core::Gate;
use aig_fault::{Kind, Stopped, refused_at};
use std::alloc::{AllocError, Global};

/// Below so many words nothing is given back.
const LEAST_GARBAGE: usize = 100_000;

/// Clauses, and what follows from them.
#[derive(Drop)]
pub struct Checker {
    alloc: Global,
    pub(crate) propagation: Propagation,
    pub(crate) table: ClauseTable,
    numbers: ClauseNumbers,
    /// About how many words of the store belong to clauses that were let go.
    garbage: usize,
}

/// Keeps where a clause will be, by its literals if not by its number.
fn list_clause(
    table: &mut ClauseTable,
    numbers: &ClauseNumbers,
    clause: &[u32],
    at: usize,
) -> Result<(), AllocError> {
    if numbers.are_kept() {
        return Ok(());
    }
    table.list(clause, at)
}

impl Checker {
    /// No clauses, over literals below this one, for a refutation of this format.
    pub fn new(
        alloc: Global,
        format: RefutationFormat,
        literals: usize,
    ) -> Result<Checker, AllocError>
        ensures admits { IfOk result (λ checker. (a : ℕ → Bool) → Admits checker a) }
        ensures base { IfOk result (λ checker. base_of checker ≡ literals) }
    {
        Checker::with_room(alloc, format, literals, &[])
    }

    /// The same, with room for the clauses of gates, none of which is added. The error is that
    /// memory is refused.
    pub fn with_room(
        alloc: Global,
        format: RefutationFormat,
        literals: usize,
        gates: &[Gate],
    ) -> Result<Checker, AllocError>
        ensures admits { IfOk result (λ checker. (a : ℕ → Bool) → Admits checker a) }
        ensures base { IfOk result (λ checker. base_of checker ≡ literals) }
    {
        Ok(Checker {
            alloc,
            propagation: Propagation::new(alloc, literals, gates)?,
            table: ClauseTable::new(alloc, literals)?,
            numbers: ClauseNumbers::new(alloc, format),
            garbage: 0,
        })
    }

    /// The literals are below this one.
    pub fn literals(&self) -> usize {
        self.propagation.kernel.literals()
    }

    /// Whether no assignment satisfies the clauses.
    pub fn is_refuted(&self) -> bool
        ensures is { result ≡ is_refuted self.now }
        ensures none { result ≡ true → (a : ℕ → Bool) → ¬ Admits self.now a }
    {
        self.propagation.kernel.is_refuted()
    }

    /// Adds a clause that holds, and that the table need not find. Its number is the next. Where
    /// the store has more than 2^32 words, no literal watches it.
    pub(crate) fn add_unlisted(&mut self, clause: &[u32]) -> Result<(), AllocError>
        ensures { OnOk result (Gains clause.now self.old self.new) }
    {
        let at = self.propagation.kernel.end();
        self.numbers.put(at)?;
        self.propagation.kernel.push_clause(clause)?;
        if let Ok(place) = u32::try_from(at) {
            self.attach(place)?;
        }
        Ok(())
    }

    /// Adds a clause that holds. The error is that memory is refused, or that the clause has a
    /// literal that is not below `literals`.
    pub fn add_given(&mut self, clause: &[u32]) -> Result<(), AllocError>
        ensures { OnOk result (Gains clause.now self.old self.new) }
    {
        list_clause(
            &mut self.table,
            &self.numbers,
            clause,
            self.propagation.kernel.end(),
        )?;
        self.add_unlisted(clause)?;
        Ok(())
    }

    /// Lets a clause be watched, or follows what it says at once.
    #[tactic(auto, using(crate::proofs::Gained::preserves_refuted, crate::proofs::Gained::preserves_kernel))]
    fn attach(&mut self, clause: u32) -> Result<(), AllocError>
        ensures { Preserves self.old self.new }
    {
        if let Some((first, second)) = self.propagation.kernel.arrange(clause as usize) {
            self.propagation.watch(first, second, clause)?;
            self.propagation.watch(second, first, clause)?;
            return Ok(());
        }
        let is_refuted = self.propagation.follow(clause as usize)?;
        if is_refuted {
            self.propagation.kernel.refute();
        }
        Ok(())
    }

    /// Assumes that the literals of a clause are false, and answers whether one of them is true.
    #[tactic(auto, using(crate::proofs::Later::supposes_one, crate::proofs::Later::supposes_none))]
    fn assume_false(&mut self, clause: &[u32]) -> Result<bool, AllocError>
        ensures supposes { Supposes clause.now self.old.propagation.kernel
            self.new.propagation.kernel }
        ensures clash { IfOk result (λ c. c ≡ true
            → Excludes clause.now self.old.propagation.kernel) }
    {
        for k in 0..clause.len() {
            let literal = clause[k];
            if self.propagation.kernel.is_known(literal) {
                return Ok(true);
            }
            self.propagation.kernel.assign(negation(literal))?;
        }
        Ok(false)
    }

    /// Looks at the clauses of these numbers, one after the other, and answers whether one is false.
    #[tactic(auto, using(crate::proofs::Later::grows_both, crate::proofs::Later::grows_same))]
    fn follow_hints(&mut self, hints: &[u32]) -> Result<bool, AllocError>
        ensures grows { Grows self.old.propagation.kernel self.new.propagation.kernel }
        ensures clash { IfOk result (λ c. c ≡ true → (a : ℕ → Bool) → ¬ Admits self.old a) }
    {
        for k in 0..hints.len() {
            let Some(place) = self.numbers.place_of(hints[k]) else {
                return Ok(false);
            };
            if self.propagation.kernel.derive(place as usize)? == Derived::Conflict {
                return Ok(true);
            }
        }
        Ok(false)
    }

    /// Whether hints, or else unit propagation, find that not all literals of a clause can be false.
    #[tactic(auto, using(crate::proofs::Later::supposes_grown))]
    fn contradicts(&mut self, clause: &[u32], hints: &[u32]) -> Result<bool, AllocError>
        ensures supposes { Supposes clause.now self.old.propagation.kernel
            self.new.propagation.kernel }
        ensures clash { IfOk result (λ c. c ≡ true
            → Excludes clause.now self.old.propagation.kernel) }
    {
        if self.assume_false(clause)? {
            return Ok(true);
        }
        if self.follow_hints(hints)? {
            return Ok(true);
        }
        self.propagation.propagate()
    }

    /// Whether a clause follows by hints, or else by unit propagation.
    fn follows(&mut self, clause: &[u32], hints: &[u32]) -> Result<bool, AllocError>
        ensures preserves { OnOk result (Preserves self.old self.new) }
        ensures follows { IfOk result (λ yes. yes ≡ true → (a : ℕ → Bool)
            → Admits self.old a → HasTrue a clause.now) }
    {
        let base = self.propagation.kernel.known_count();
        let conflict = self.contradicts(clause, hints)?;
        self.propagation.forget(base);
        Ok(conflict)
    }

    /// Whether all clauses follow by unit propagation.
    fn follow_all(&mut self, clauses: &[Vec<u32>]) -> Result<bool, AllocError>
        ensures preserves { OnOk result (Preserves self.old self.new) }
        ensures follow { IfOk result (λ yes. yes ≡ true → (a : ℕ → Bool)
            → Admits self.old a → All (λ c. HasTrue a c.items) clauses.now) }
    {
        for k in 0..clauses.len() {
            let follows = self.follows(&clauses[k], &[])?;
            if !follows {
                return Ok(false);
            }
        }
        Ok(true)
    }

    /// Whether the pivot can be made true where a clause does not hold, by unit propagation.
    fn can_make_true(&mut self, clause: &[u32], pivot: u32) -> Result<bool, AllocError>
        ensures preserves { OnOk result (Preserves self.old self.new) }
        ensures made { IfOk result (λ yes. yes ≡ true → (a : ℕ → Bool)
            → Admits self.old a → IsFalse a clause.now → Admits self.new (made_true pivot a)) }
    {
        let alloc = self.alloc;
        match self.propagation.kernel.resolvents(alloc, clause, pivot)? {
            Some(joined) => {
                let do_follow = self.follow_all(&joined)?;
                Ok(do_follow)
            }
            None => Ok(false),
        }
    }

    /// Whether the first literal of a clause can be made true where that does not hold, by unit
    /// propagation.
    fn extends(&mut self, clause: &[u32]) -> Result<bool, AllocError>
        ensures preserves { OnOk result (Preserves self.old self.new) }
        ensures extends { IfOk result (λ yes. yes ≡ true → (a : ℕ → Bool)
            → Admits self.old a → CanExtend clause.now self.new a) }
    {
        if clause.is_empty() {
            return Ok(false);
        }
        let pivot = clause[0];
        if !self.propagation.kernel.is_new(pivot) {
            return Ok(false);
        }
        let can_extend = self.can_make_true(clause, pivot)?;
        Ok(can_extend)
    }

    /// There is room for the literals of a clause.
    #[tactic(auto, using(crate::proofs::Gained::preserves_kernel, crate::proofs::Gained::preserves_same))]
    fn make_room(&mut self, clause: &[u32]) -> Result<(), AllocError>
        ensures { OnOk result (Preserves self.old self.new) }
    {
        let most = largest(clause) as usize;
        if most >= self.literals() {
            let literals = (most | 1).saturating_add(1);
            self.propagation.make_room(literals)?;
            self.table.make_room(literals)?;
        }
        Ok(())
    }

    /// What follows where all clauses are looked at, until none says anything more: whether that is
    /// a contradiction. Each turn but the last finds a literal, so there are enough.
    #[tactic(auto, using(crate::proofs::Later::grows_both, crate::proofs::Later::grows_same))]
    fn exhaust(&mut self, clause: &[u32]) -> Result<bool, AllocError>
        ensures grows { Grows self.old.propagation.kernel self.new.propagation.kernel }
        ensures clash { IfOk result (λ c. c ≡ true
            → (a : ℕ → Bool) → ¬ Admits self.old a) }
        ensures rests { IfOk result (λ c. c ≡ false
            → ComesToRest (words_of self.new) clause.now) }
    {
        for _turn in 0..self.literals().saturating_add(1) {
            let Some(at) = self.propagation.kernel.find_saying() else {
                return self.propagation.kernel.is_contradiction(clause);
            };
            if self.propagation.follow(at)? {
                return Ok(true);
            }
        }
        Err(AllocError)
    }

    /// Whether not all literals of a clause can be false, where all clauses are looked at.
    #[tactic(auto, using(crate::proofs::Later::supposes_grown))]
    fn contradicts_after_all(&mut self, clause: &[u32]) -> Result<bool, AllocError>
        ensures supposes { Supposes clause.now self.old.propagation.kernel
            self.new.propagation.kernel }
        ensures clash { IfOk result (λ c. c ≡ true
            → Excludes clause.now self.old.propagation.kernel) }
        ensures rests { IfOk result (λ c. c ≡ false
            → ComesToRest (words_of self.new) clause.now) }
    {
        if self.assume_false(clause)? {
            return Ok(true);
        }
        self.exhaust(clause)
    }

    /// Whether a clause follows by unit propagation, as `follows`, but that clauses are looked at
    /// which it overlooks: so the answer no is proved too.
    pub(crate) fn follows_after_all(&mut self, clause: &[u32]) -> Result<bool, AllocError>
        ensures preserves { OnOk result (Preserves self.old self.new) }
        ensures follows { IfOk result (λ yes. yes ≡ true → (a : ℕ → Bool)
            → Admits self.old a → HasTrue a clause.now) }
        ensures rests { IfOk result (λ yes. yes ≡ false
            → ComesToRest (words_of self.new) clause.now) }
    {
        let base = self.propagation.kernel.known_count();
        let conflict = self.contradicts_after_all(clause)?;
        self.propagation.forget(base);
        Ok(conflict)
    }

    /// Whether a clause may be added: it follows, or brings in a new variable.
    fn is_right(&mut self, clause: &[u32], hints: &[u32]) -> Result<bool, AllocError>
        ensures preserves { OnOk result (Preserves self.old self.new) }
        ensures extends { IfOk result (λ yes. yes ≡ true → (a : ℕ → Bool)
            → Admits self.old a → CanExtend clause.now self.new a) }
        ensures rests { IfOk result (λ yes. yes ≡ false
            → ComesToRest (words_of self.new) clause.now) }
    {
        let follows = self.follows(clause, hints)?;
        if follows {
            return Ok(true);
        }
        let extends = self.extends(clause)?;
        if extends {
            return Ok(true);
        }
        let follows = self.follows_after_all(clause)?;
        Ok(follows)
    }

    /// Adds a clause if it follows, or brings in a new variable, and answers whether it does.
    fn add(&mut self, clause: &[u32], hints: &[u32]) -> Result<bool, AllocError>
        ensures keeps { OnOk result (Keeps self.old self.new) }
        ensures stored { OnOk result ((other : List ℕ) → IsStored (words_of self.old) other
            → IsStored (words_of self.new) other) }
        ensures added { IfOk result (λ yes. yes ≡ true
            → IsStored (words_of self.new) clause.now) }
        ensures rests { IfOk result (λ yes. yes ≡ false
            → ComesToRest (words_of self.new) clause.now) }
    {
        self.make_room(clause)?;
        let is_right = self.is_right(clause, hints)?;
        if is_right {
            self.add_given(clause)?;
        }
        Ok(is_right)
    }

    /// Lets a clause go, if it is found.
    fn let_go(&mut self, clause: &[u32])
        ensures keeps { Keeps self.old self.new }
        ensures stored { (other : List ℕ) → IsStored (words_of self.old) other
            → ¬ HaveSameLiterals clause.now other → IsStored (words_of self.new) other }
    {
        if let Some(place) = self.table.take(&self.propagation.kernel, clause) {
            self.propagation.kernel.retire(place as usize);
            self.garbage = self.garbage.saturating_add(clause.len());
        }
    }

    /// Gives the memory of clauses that were let go back.
    #[tactic(auto, using(crate::proofs::Gained::preserves_both, crate::proofs::Gained::preserves_kernel))]
    fn compact(&mut self) -> Result<(), AllocError>
        ensures { Preserves self.old self.new }
    {
        let places = self.propagation.compact()?;
        self.garbage = 0;
        self.table.clear()?;
        for k in 0..places.len() {
            let place = places[k];
            self.table
                .insert(self.propagation.kernel.clause(place as usize), place)?;
            self.attach(place)?;
        }
        Ok(())
    }

    /// Lets a clause go, if it is found, and gives memory back where there is much of it.
    fn remove(&mut self, clause: &[u32]) -> Result<(), AllocError>
        ensures keeps { Keeps self.old self.new }
        ensures stored { (other : List ℕ) → IsStored (words_of self.old) other
            → ¬ HaveSameLiterals clause.now other → IsStored (words_of self.new) other }
    {
        self.let_go(clause);
        if self.garbage > LEAST_GARBAGE && self.garbage > self.propagation.kernel.end() / 4 {
            self.compact()?;
        }
        Ok(())
    }

    /// Does what a line says.
    #[tactic(auto, using(crate::proofs::Kept::keeps_all, crate::proofs::Kept::keeps_same))]
    fn follow_line(&mut self, reader: &RefutationReader, end: LineEnd) -> Result<(), Stopped>
        ensures keeps { OnOk result (Keeps self.old self.new) }
        ensures changed { OnOk result ((given : List (List ℕ)) → (changes : List Change)
            → AreStored given changes self.old → (end ≢ LineEnd.Bad)
            × AreStored given (changed end (reading_of reader.now).clause changes) self.new) }
        ensures err { IfErr result (StopsFor (IsWrongEnd end (reading_of reader.now) self.old)) }
    {
        match end {
            LineEnd::Within => Ok(()),
            LineEnd::Bad => Err(refused_at(Kind::BadRefutation, reader.line())),
            LineEnd::Deleted => {
                self.remove(reader.clause())?;
                Ok(())
            }
            LineEnd::Added => {
                self.numbers.set_next(reader.number());
                let is_right = self.add(reader.clause(), reader.hints())?;
                if is_right {
                    Ok(())
                } else {
                    Err(refused_at(Kind::DoesNotFollow, reader.line()))
                }
            }
        }
    }

    /// Does what a byte ends.
    #[inline(always)]
    fn follow_byte(&mut self, reader: &mut RefutationReader, byte: u8) -> Result<(), Stopped>
        ensures keeps { OnOk result (Keeps self.old self.new) }
        ensures followed { OnOk result ((given : List (List ℕ)) → (f : Followed)
            → HaveCome given f reader.old self.old → ((next f.reading byte).end ≢ LineEnd.Bad)
            × HaveCome given (followed f byte) reader.new self.new) }
        ensures err { IfErr result (StopsFor (IsWrongByte byte reader.old self.old)) }
    {
        let end = reader.take(byte)?;
        if end != LineEnd::Within {
            self.follow_line(reader, end)?;
            reader.clear();
        }
        Ok(())
    }

    /// Follows a piece of a refutation, until the clauses are refuted or a line is wrong. What
    /// comes once they are is not looked at.
    #[tactic(auto, using(crate::proofs::Kept::keeps_both, crate::proofs::Kept::keeps_same))]
    pub fn follow(&mut self, reader: &mut RefutationReader, piece: &[u8]) -> Result<(), Stopped>
        ensures keeps { OnOk result (Keeps self.old self.new) }
        ensures still { OnOk result (is_refuted self.new ≡ false → is_refuted self.old ≡ false) }
        ensures followed { OnOk result (is_refuted self.new ≡ false → (given : List (List ℕ))
            → (f : Followed) → HaveCome given f reader.old self.old → AreInLines f piece.now
            × HaveCome given (fold followed f piece.now) reader.new self.new) }
        ensures err { IfErr result (StopsFor (IsWrongWithin piece.now reader.old self.old)) }
    {
        if self.is_refuted() {
            return Ok(());
        }
        for k in 0..piece.len() {
            self.follow_byte(reader, piece[k])?;
            if self.is_refuted() {
                return Ok(());
            }
        }
        Ok(())
    }
}
