//! What can be checked of a circuit part by part, before its definitions and its uses are compared.
ghost use Rattle.std.specs.Prelude.{◌≡◌, ◌↔◌, ◌^◌, ◌<◌, ◌≤◌, ℕ, List, length, map, IsTrue};
ghost use Rattle.std.specs.List.{All, AllByRecursion, sum};
ghost use Rattle.aig_circuit.specs.declared.circuit.Symbol.{Symbol};
ghost use Rattle.aig_circuit.specs.Wellformed.{IsWithinLimits, IsVariableUpTo, count_of};
ghost use Rattle.aig_circuit.specs.Wellformed.{HasGoodSymbols, NameApart};
ghost use Rattle.aig_circuit.specs.Wellformed.{NameTheSame, IsAmong, line_feed};
ghost use Rattle.aig_circuit.specs.Wellformed.{literal_lists};
ghost use Rattle.aig_circuit.specs.Form.{IsInForm, HasEntriesInRange, AreInRange, IsLiteralUpTo};
ghost use Rattle.aig_circuit.specs.Parts.SymbolOrder.{place_of, IsRisingFrom};

use crate::circuit::{Circuit, Kind, LARGEST};
use crate::entry::Entry;
use crate::listing::Listing;
use crate::literal::{Lit, Var};
use crate::symbols::{BorrowedSymbol, EachSymbol, Symbols};

fn is_short_enough<T>(items: &Listing<T>) -> bool
    ensures { IsTrue result ↔ (length items.now ≤ LARGEST) }
{
    items.len() <= LARGEST as usize
}

fn are_short_enough(lists: &[&[Lit]]) -> bool
    ensures { IsTrue result ↔ AllByRecursion (λ (ls : List ℕ). length ls ≤ LARGEST)
        (map (λ ls. ls.now) lists.now) }
{
    for list in lists {
        if list.len() > LARGEST as usize {
            return false;
        }
    }
    true
}

fn sum_of_sizes(sizes: &[u32]) -> u64
    requires { length sizes.now ≤ LARGEST }
    ensures { result ≡ sum sizes.now }
{
    let mut all = 0;
    for size in sizes {
        all += u64::from(*size);
    }
    all
}

fn is_variable_up_to(max_var: u32, variable: Var) -> bool
    ensures { IsTrue result ↔ IsVariableUpTo max_var variable }
{
    1 <= variable.0 && variable.0 <= max_var
}

fn is_literal_up_to(max_var: u32, literal: Lit) -> bool
    ensures { IsTrue result ↔ IsLiteralUpTo max_var literal }
{
    literal.var().0 <= max_var
}

fn are_literals_up_to(max_var: u32, literals: &[Lit]) -> bool
    ensures { IsTrue result ↔ AllByRecursion (IsLiteralUpTo max_var) literals.now }
{
    for literal in literals {
        if !is_literal_up_to(max_var, *literal) {
            return false;
        }
    }
    true
}

fn are_lists_up_to(max_var: u32, lists: &[&[Lit]]) -> bool
    ensures { IsTrue result ↔ AllByRecursion (AllByRecursion (IsLiteralUpTo max_var))
        (map (λ ls. ls.now) lists.now) }
{
    for list in lists {
        if !are_literals_up_to(max_var, list) {
            return false;
        }
    }
    true
}

fn is_in_range<T: Entry>(max_var: u32, entry: &T) -> bool
    ensures { IsTrue result ↔ AreInRange max_var (T.defined entry.now) (T.used entry.now) }
{
    let uses = entry.uses();
    entry
        .definition()
        .is_none_or(|variable| is_variable_up_to(max_var, variable))
        && uses
            .first
            .is_none_or(|literal| is_literal_up_to(max_var, literal))
        && uses
            .second
            .is_none_or(|literal| is_literal_up_to(max_var, literal))
        && are_literals_up_to(max_var, uses.others)
}

fn are_in_range<T: Entry>(max_var: u32, entries: &Listing<T>) -> bool
    ensures { IsTrue result ↔ All (λ e. AreInRange max_var (T.defined e) (T.used e)) entries.now }
{
    entries.iter().all(|entry| is_in_range(max_var, entry))
}

fn is_one_line(name: &[u8]) -> bool
    ensures { IsTrue result ↔ ¬ IsAmong line_feed name.now }
{
    !name.contains(&b'\n')
}

/// A number that rises along the symbols as they usually stand: by kind, then by position.
fn place_of(symbol: &BorrowedSymbol) -> u64
    ensures place { result ≡ place_of symbol.now }
    ensures below { result < 2 ^ 35 }
{
    let first = match symbol.kind {
        Kind::Input => 0,
        Kind::Latch => 1 << 32,
        Kind::Output => 2 << 32,
        Kind::Bad => 3 << 32,
        Kind::Constraint => 4 << 32,
        Kind::Justice => 5 << 32,
        Kind::Fairness => 6 << 32,
    };
    first + u64::from(symbol.position)
}

/// Whether the symbols stand in the usual order: by kind, then by rising position.
fn are_in_order(symbols: &Symbols) -> bool
    ensures exact { IsTrue result ↔ IsRisingFrom 0 (map place_of symbols.now) }
    ensures apart { IsTrue result → NameApart symbols.now }
{
    let mut least = 0;
    for symbol in symbols.iter() {
        let place = place_of(&symbol);
        if place < least {
            return false;
        }
        least = place + 1;
    }
    true
}

fn name_the_same(first: &BorrowedSymbol, second: &BorrowedSymbol) -> bool
    ensures { IsTrue result ↔ NameTheSame first.now second.now }
{
    first.kind == second.kind && first.position == second.position
}

fn is_named_once(first: &BorrowedSymbol, mut others: EachSymbol) -> bool
    ensures { IsTrue result ↔ All (λ other. ¬ NameTheSame first.now other) others.entry }
{
    others.all(|other| !name_the_same(first, &other))
}

fn are_pairs_apart(symbols: &Symbols) -> bool
    ensures { IsTrue result ↔ NameApart symbols.now }
{
    let mut left = symbols.iter();
    while let Some(first) = left.next() {
        if !is_named_once(&first, left.again()) {
            return false;
        }
    }
    true
}

/// Symbols in the usual order are checked in one pass; in any other order all pairs are compared,
/// since no memory may be taken.
fn are_apart(symbols: &Symbols) -> bool
    ensures { IsTrue result ↔ NameApart symbols.now }
{
    are_in_order(symbols) || are_pairs_apart(symbols)
}

impl Circuit {
    /// The lists of literals beside latches and gates, in the order of a file.
    pub fn literal_lists(&self) -> [&[Lit]; 5]
        ensures { map (λ ls. ls.now) result ≡ literal_lists self.now }
    {
        [
            self.outputs.as_slice(),
            self.bad.as_slice(),
            self.constraints.as_slice(),
            self.justice.literals.as_slice(),
            self.fairness.as_slice(),
        ]
    }

    /// How many definitions a circuit has.
    pub fn definition_count(&self) -> usize {
        self.inputs
            .len()
            .saturating_add(self.latches.len())
            .saturating_add(self.gates.len())
    }

    /// Whether the sizes of the justice properties are those of the literals that there are.
    fn has_sizes_of_justice(&self) -> bool
        ensures { IsTrue result ↔ ((length self.now.justice.sizes ≤ LARGEST)
            × (sum self.now.justice.sizes ≡ length self.now.justice.literals)) }
    {
        is_short_enough(&self.justice.sizes)
            && sum_of_sizes(self.justice.sizes.as_slice()) == self.justice.literals.len() as u64
    }

    fn is_within_limits(&self) -> bool
        ensures { IsTrue result ↔ IsWithinLimits self.now }
    {
        self.max_var <= LARGEST
            && is_short_enough(&self.inputs)
            && is_short_enough(&self.latches)
            && is_short_enough(&self.gates)
            && are_short_enough(&self.literal_lists())
            && self.has_sizes_of_justice()
    }

    fn has_lists_in_range(&self) -> bool
        ensures { IsTrue result ↔ AllByRecursion (AllByRecursion (IsLiteralUpTo self.now.max_var))
            (literal_lists self.now) }
    {
        are_lists_up_to(self.max_var, &self.literal_lists())
    }

    fn has_entries_in_range(&self) -> bool
        ensures { IsTrue result ↔ HasEntriesInRange self.now }
    {
        are_in_range(self.max_var, &self.inputs)
            && are_in_range(self.max_var, &self.latches)
            && are_in_range(self.max_var, &self.gates)
            && self.has_lists_in_range()
    }

    fn has_place(&self, symbol: &BorrowedSymbol) -> bool
        ensures { IsTrue result ↔ (symbol.now.position < count_of self.now symbol.now.kind) }
    {
        let count = match symbol.kind {
            Kind::Input => self.inputs.len(),
            Kind::Latch => self.latches.len(),
            Kind::Output => self.outputs.len(),
            Kind::Bad => self.bad.len(),
            Kind::Constraint => self.constraints.len(),
            Kind::Justice => self.justice.sizes.len(),
            Kind::Fairness => self.fairness.len(),
        };
        (symbol.position as usize) < count
    }

    fn has_places(&self) -> bool
        ensures { IsTrue result
            ↔ All (λ (s : Symbol). s.position < count_of self.now s.kind) self.now.symbols }
    {
        self.symbols.iter().all(|symbol| self.has_place(&symbol))
    }

    /// Whether each symbol's name stands in one line.
    fn has_lines(&self) -> bool
        ensures { IsTrue result
            ↔ All (λ (s : Symbol). ¬ IsAmong line_feed s.name) self.now.symbols }
    {
        self.symbols.iter().all(|symbol| is_one_line(symbol.name))
    }

    fn has_good_symbols(&self) -> bool
        ensures { IsTrue result ↔ HasGoodSymbols self.now }
    {
        self.has_places() && self.has_lines() && are_apart(&self.symbols)
    }

    /// Whether the circuit is in form: the limits hold, variables and literals are in range, and
    /// symbols are good. Definitions and uses are not compared. It takes no memory. The time is
    /// linear in the circuit's size, unless the symbols are not sorted by kind and position: then
    /// all pairs of them are compared.
    #[tactic(auto, using(crate::proofs::Checking::by_parts, crate::proofs::Checking::in_range))]
    pub fn in_form(&self) -> bool
        ensures { IsTrue result ↔ IsInForm self.now }
    {
        self.is_within_limits() && self.has_entries_in_range() && self.has_good_symbols()
    }
}
