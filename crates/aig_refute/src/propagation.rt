//! Unit propagation: looks for what follows, by two literals of each clause that watch it. It may
//! overlook things; what it finds is kept by the kernel, which looks again.
ghost use Rattle.std.specs.Prelude.{◌≡◌, ◌+◌, ◌<◌, ◌≤◌, ℕ, Bool, true, false, length, IfOk};
ghost use Rattle.aig_refute.specs.Agree.{Agrees, Extends, Grows};

use crate::gate_places::WORDS_OF_A_GATE;
use crate::kernel::{Derived, Kernel, Visit};
use crate::watches::{Watch, Watches};
use crate::words::{END, negation};
use aig_core::Gate;
use std::alloc::{AllocError, Global};

/// The clauses, by the literals that watch them.
#[derive(Drop)]
pub(crate) struct Propagation {
    alloc: Global,
    pub(crate) kernel: Kernel,
    watches: Watches,
    /// How many of the literals that are known have been looked at.
    next: usize,
}

/// No clause is watched, by literals below this one, with room for the watches of gates.
fn watches_for(alloc: Global, literals: usize, gates: &[Gate]) -> Result<Watches, AllocError> {
    let mut watches = Watches::new(alloc, literals)?;
    for gate in gates {
        let own = gate.var.0.wrapping_mul(2);
        for literal in [negation(own), negation(own), own] {
            watches.expect(literal);
        }
        for literal in [gate.left.0, negation(gate.left.0), gate.right.0] {
            watches.expect(literal);
        }
    }
    watches.make_expected_room()?;
    Ok(watches)
}

impl Propagation {
    /// No clauses, over literals below this one, with room for those of gates.
    pub(crate) fn new(
        alloc: Global,
        literals: usize,
        gates: &[Gate],
    ) -> Result<Propagation, AllocError>
        ensures agrees { IfOk result (λ propagation. (a : ℕ → Bool) → Agrees a propagation.kernel) }
        ensures base { IfOk result (λ propagation. propagation.kernel.store.base ≡ literals) }
    {
        let watches = watches_for(alloc, literals, gates)?;
        let words = gates.len().saturating_mul(WORDS_OF_A_GATE);
        Ok(Propagation {
            alloc,
            kernel: Kernel::new(alloc, literals, words)?,
            watches,
            next: 0,
        })
    }

    /// There is room for the literals below this one.
    #[tactic(auto, using(crate::proofs::Later::grows_both, crate::proofs::Later::grows_same))]
    pub(crate) fn make_room(&mut self, literals: usize) -> Result<(), AllocError>
        ensures { Grows self.old.kernel self.new.kernel }
    {
        self.watches.make_room(literals)?;
        self.kernel.make_room(literals)
    }

    /// A literal watches a clause from now on.
    #[inline(always)]
    pub(crate) fn watch(
        &mut self,
        literal: u32,
        blocking: u32,
        clause: u32,
    ) -> Result<(), AllocError>
        ensures { self.new.kernel ≡ self.old.kernel }
    {
        self.watches.push(literal, Watch::new(blocking, clause))
    }

    /// Looks at the clauses that a literal watches which has become false, and answers whether one
    /// is false: then the rest stays.
    #[inline(always)]
    #[tactic(auto, using(crate::proofs::Later::grows_both, crate::proofs::Later::grows_same))]
    fn pass(&mut self, literal: u32) -> Result<bool, AllocError>
        ensures grows { Grows self.old.kernel self.new.kernel }
        ensures conflict { IfOk result (λ c. c ≡ true
            → (a : ℕ → Bool) → ¬ Agrees a self.old.kernel) }
    {
        if literal == END {
            return Ok(false);
        }
        let (start, end) = self.watches.span(literal);
        let mut kept = start;
        for at in start..end {
            let watch = self.watches.at(at);
            if self.kernel.is_known(watch.blocking()) {
                kept = self.watches.put(kept, watch);
                continue;
            }
            match self.kernel.visit(watch.clause(), literal)? {
                Visit::Stayed(blocking) => {
                    kept = self.watches.put(kept, Watch::new(blocking, watch.clause()));
                }
                Visit::Moved(free, blocking) => {
                    self.watches
                        .push(free, Watch::new(blocking, watch.clause()))?;
                }
                Visit::Gone => {}
                Visit::Conflict => {
                    kept = self.watches.put_all(at, end, kept);
                    self.watches.set_end(literal, kept, end);
                    return Ok(true);
                }
            }
        }
        self.watches.set_end(literal, kept, end);
        Ok(false)
    }

    /// Follows what is known to its end, or to a clause that is false: then the answer is yes.
    #[tactic(auto, using(crate::proofs::Later::grows_both, crate::proofs::Later::grows_same))]
    pub(crate) fn propagate(&mut self) -> Result<bool, AllocError>
        ensures grows { Grows self.old.kernel self.new.kernel }
        ensures conflict { IfOk result (λ c. c ≡ true
            → (a : ℕ → Bool) → ¬ Agrees a self.old.kernel) }
    {
        for _turn in 0..self.kernel.literals() {
            let literal = match self.kernel.known_at(self.next) {
                Some(literal) => literal,
                None => return Ok(false),
            };
            self.next = self.next.saturating_add(1);
            if self.pass(negation(literal))? {
                return Ok(true);
            }
        }
        Ok(false)
    }

    /// Follows what the clause that begins there says to its end, or to a clause that is false: then
    /// the answer is yes.
    #[tactic(auto, using(crate::proofs::Later::grows_both, crate::proofs::Later::grows_same))]
    pub(crate) fn follow(&mut self, at: usize) -> Result<bool, AllocError>
        ensures grows { Grows self.old.kernel self.new.kernel }
        ensures conflict { IfOk result (λ c. c ≡ true
            → (a : ℕ → Bool) → ¬ Agrees a self.old.kernel) }
    {
        match self.kernel.derive(at)? {
            Derived::Conflict => Ok(true),
            _ => {
                let conflict = self.propagate()?;
                Ok(conflict)
            }
        }
    }

    /// Gives the memory of clauses that were let go back, and tells where each of the others begins:
    /// no literal watches it.
    pub(crate) fn compact(&mut self) -> Result<Vec<u32>, AllocError>
        ensures { Grows self.old.kernel self.new.kernel }
    {
        let places = self.kernel.compact(self.alloc)?;
        self.watches.clear();
        Ok(places)
    }

    /// Forgets all but the first so many literals.
    pub(crate) fn forget(&mut self, base: usize)
        requires { base ≤ length self.old.kernel.trail.items }
        ensures store { self.new.kernel.store ≡ self.old.kernel.store }
        ensures refuted { self.new.kernel.refuted ≡ self.old.kernel.refuted }
        ensures extends { Extends self.new.kernel.trail.items self.old.kernel.trail.items }
        ensures len { length self.new.kernel.trail.items ≡ base }
    {
        self.kernel.forget(base);
        self.next = base;
    }
}
