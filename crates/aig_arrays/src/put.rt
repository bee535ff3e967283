//! A circuit put into arrays: its words and its bytes, and how many there are.
ghost use Rattle.std.specs.Prelude.{◌≡◌, ◌+◌, ◌++◌, ◌^◌, ◌<◌, ◌≤◌, ℕ, List, None, drop, length};
ghost use Rattle.std.specs.List.{All, flat_map};
ghost use Rattle.std.specs.Option.{IfSome};
ghost use Rattle.aig_circuit.specs.Wellformed.{IsWellFormed};
ghost use Rattle.aig_circuit.specs.declared.circuit.Symbol.{Symbol as SymbolRecord};
ghost use Rattle.aig_circuit.specs.declared.circuit.TheConstants.{LARGEST};
ghost use Rattle.aig_rows.specs.Rows.{gate_row, input_row, latch_row, literal_row, size_row};
ghost use Rattle.aig_arrays.specs.Words.{HasWords, circuit_bytes, circuit_words, comment_of};
ghost use Rattle.aig_arrays.specs.Words.{counts_of, kind_word, names_of, section_words};
ghost use Rattle.aig_arrays.specs.Words.{bytes_length, symbol_row, symbol_words, words_length};
ghost use Rattle.aig_arrays.specs.Parts.Placed.{placed};

use crate::counts::Counts;
use aig_core::{BorrowedSymbol, Checked, Circuit, Gate, Kind, Latch, Listing, Lit, Symbols, Var};
use aig_text::reset_number;

/// An entry of a section, which has a row of words.
trait Entry {
    /// Its variable, if it defines one, has a literal.
    ghost fits: { Self → Type 0 };

    /// The numbers of its row in an ASCII file.
    ghost numbers: { Self → List ℕ };

    /// Puts the row from a place on, and answers where it ends.
    fn put(&self, words: &mut [u32], at: usize) -> usize
        requires fits { fits self.now }
        requires room { at + length (numbers self.now) ≤ length words.old }
        ensures end { result ≡ at + length (numbers self.now) }
        ensures words { words.new ≡ placed at (numbers self.now) words.old };
}

impl Entry for Var {
    ghost fits = { λ v. v ≤ LARGEST };

    ghost numbers = { input_row };

    #[inline(always)]
    fn put(&self, words: &mut [u32], at: usize) -> usize {
        words[at] = 2 * self.0;
        at + 1
    }
}

impl Entry for Latch {
    ghost fits = { λ l. l.var ≤ LARGEST };

    ghost numbers = { latch_row };

    #[inline(always)]
    fn put(&self, words: &mut [u32], at: usize) -> usize {
        let own = 2 * self.var.0;
        words[at] = own;
        words[at + 1] = self.next.0;
        words[at + 2] = reset_number(u64::from(own), self.reset) as u32;
        at + 3
    }
}

impl Entry for Lit {
    ghost fits = { λ _. Unit };

    ghost numbers = { literal_row };

    #[inline(always)]
    fn put(&self, words: &mut [u32], at: usize) -> usize {
        words[at] = self.0;
        at + 1
    }
}

/// A size.
impl Entry for u32 {
    ghost fits = { λ _. Unit };

    ghost numbers = { size_row };

    #[inline(always)]
    fn put(&self, words: &mut [u32], at: usize) -> usize {
        words[at] = *self;
        at + 1
    }
}

impl Entry for Gate {
    ghost fits = { λ g. g.var ≤ LARGEST };

    ghost numbers = { gate_row };

    #[inline(always)]
    fn put(&self, words: &mut [u32], at: usize) -> usize {
        words[at] = 2 * self.var.0;
        words[at + 1] = self.left.0;
        words[at + 2] = self.right.0;
        at + 3
    }
}

/// Puts the rows of entries from a place on, and answers where they end.
#[inline(never)]
fn put_rows<T: Entry>(words: &mut [u32], at: usize, items: &[T]) -> usize
    requires fit { All T.fits items.now }
    requires room { at + length (flat_map T.numbers items.now) ≤ length words.old }
    ensures end { result ≡ at + length (flat_map T.numbers items.now) }
    ensures words { words.new ≡ placed at (flat_map T.numbers items.now) words.old }
{
    let mut end = at;
    for item in items {
        end = item.put(words, end);
    }
    end
}

fn put_section<T: Entry>(words: &mut [u32], at: usize, section: &Listing<T>) -> usize
    requires fit { All T.fits section.now }
    requires room { at + length (flat_map T.numbers section.now) ≤ length words.old }
    ensures end { result ≡ at + length (flat_map T.numbers section.now) }
    ensures words { words.new ≡ placed at (flat_map T.numbers section.now) words.old }
{
    put_rows(words, at, section.as_slice())
}

/// Puts the rows of all sections, and answers where they end.
#[tactic(auto, using(crate::proofs::Written::lengths, crate::proofs::Written::defined_fit))]
fn put_sections(words: &mut [u32], circuit: &Circuit) -> usize
    requires good { IsWellFormed circuit.now }
    requires room { length (section_words circuit.now) ≤ length words.old }
    ensures end { result ≡ length (section_words circuit.now) }
    ensures words { words.new ≡ placed 0 (section_words circuit.now) words.old }
{
    let end = put_section(words, 0, &circuit.inputs);
    let end = put_section(words, end, &circuit.latches);
    let end = put_section(words, end, &circuit.outputs);
    let end = put_section(words, end, &circuit.bad);
    let end = put_section(words, end, &circuit.constraints);
    let end = put_section(words, end, &circuit.justice.sizes);
    let end = put_section(words, end, &circuit.justice.literals);
    let end = put_section(words, end, &circuit.fairness);
    put_section(words, end, &circuit.gates)
}

fn kind_word(kind: Kind) -> u32
    ensures { result ≡ kind_word kind }
{
    match kind {
        Kind::Input => 0,
        Kind::Latch => 1,
        Kind::Output => 2,
        Kind::Bad => 3,
        Kind::Constraint => 4,
        Kind::Justice => 5,
        Kind::Fairness => 6,
    }
}

/// Puts the words of a symbol, whose name begins at `start` among the names, from a place on.
#[inline(always)]
fn put_symbol(words: &mut [u32], at: usize, symbol: &BorrowedSymbol, start: u32)
    requires name { length symbol.now.name < 2 ^ 32 }
    requires room { at + 4 ≤ length words.old }
    ensures { words.new ≡ placed at (symbol_row start symbol.now) words.old }
{
    words[at] = kind_word(symbol.kind);
    words[at + 1] = symbol.position;
    words[at + 2] = start;
    words[at + 3] = symbol.name.len() as u32;
}

/// Puts the words of symbols from a place on.
fn put_symbols(words: &mut [u32], from: usize, symbols: &Symbols)
    requires names { length (flat_map (λ (s : SymbolRecord). s.name) symbols.now) < 2 ^ 32 }
    requires room { from + length (symbol_words 0 symbols.now) ≤ length words.old }
    ensures { words.new ≡ placed from (symbol_words 0 symbols.now) words.old }
{
    let mut at = from;
    let mut start = 0;
    for symbol in symbols.iter() {
        put_symbol(words, at, &symbol, start);
        at += 4;
        start += symbol.name.len() as u32;
    }
}

/// Writes the words of a circuit at the front.
pub fn put_words(circuit: &Checked, words: &mut [u32])
    requires words { HasWords circuit.now }
    requires room { length (circuit_words circuit.now) ≤ length words.old }
    ensures { words.new ≡ circuit_words circuit.now
        ++ drop (length (circuit_words circuit.now)) words.old }
{
    let circuit = circuit.circuit();
    let end = put_sections(words, circuit);
    put_symbols(words, end, &circuit.symbols);
}

/// Puts bytes from a place on.
fn put_text(bytes: &mut [u8], at: usize, text: &[u8])
    requires { at + length text.now ≤ length bytes.old }
    ensures { bytes.new ≡ placed at text.now bytes.old }
{
    bytes[at..at + text.len()].copy_from_slice(text);
}

/// Puts the names of symbols, and answers where they end.
fn put_names(bytes: &mut [u8], symbols: &Symbols) -> usize
    requires { length (flat_map (λ (s : SymbolRecord). s.name) symbols.now) ≤ length bytes.old }
    ensures end { result ≡ length (flat_map (λ (s : SymbolRecord). s.name) symbols.now) }
    ensures bytes { bytes.new
        ≡ placed 0 (flat_map (λ (s : SymbolRecord). s.name) symbols.now) bytes.old }
{
    let mut at = 0;
    for symbol in symbols.iter() {
        put_text(bytes, at, symbol.name);
        at += symbol.name.len();
    }
    at
}

/// The bytes of the comment, where there is one.
fn comment_of(circuit: &Circuit) -> &[u8]
    ensures { result.now ≡ comment_of circuit.now }
{
    match &circuit.comment {
        Some(comment) => comment.as_slice(),
        None => &[],
    }
}

/// Writes the bytes of a circuit at the front.
pub fn put_bytes(circuit: &Checked, bytes: &mut [u8])
    requires { length (circuit_bytes circuit.now) ≤ length bytes.old }
    ensures { bytes.new ≡ circuit_bytes circuit.now
        ++ drop (length (circuit_bytes circuit.now)) bytes.old }
{
    let circuit = circuit.circuit();
    let end = put_names(bytes, &circuit.symbols);
    put_text(bytes, end, comment_of(circuit));
}

/// How many bytes the names have, `None` where there are 2^32 or more.
fn count_name_bytes(symbols: &Symbols) -> Option<u32>
    ensures some { IfSome result (λ n.
        n ≡ length (flat_map (λ (s : SymbolRecord). s.name) symbols.now)) }
    ensures none { result ≡ None
        → ¬ (length (flat_map (λ (s : SymbolRecord). s.name) symbols.now) < 2 ^ 32) }
{
    let mut count: u32 = 0;
    for symbol in symbols.iter() {
        let Ok(more) = u32::try_from(symbol.name.len()) else {
            return None;
        };
        let Some(longer) = count.checked_add(more) else {
            return None;
        };
        count = longer;
    }
    Some(count)
}

fn count_symbols(symbols: &Symbols) -> Option<u32>
    ensures some { IfSome result (λ n. n ≡ length symbols.now) }
    ensures none { result ≡ None → ¬ (length symbols.now < 2 ^ 32) }
{
    u32::try_from(symbols.len()).ok()
}

fn counts_with(circuit: &Circuit, symbols: u32, name_bytes: u32) -> Counts
    requires good { IsWellFormed circuit.now }
    requires symbols { symbols ≡ length circuit.now.symbols }
    requires names { name_bytes ≡ length (names_of circuit.now) }
    ensures { result ≡ counts_of circuit.now }
{
    Counts {
        max_var: circuit.max_var,
        inputs: circuit.inputs.len() as u32,
        latches: circuit.latches.len() as u32,
        outputs: circuit.outputs.len() as u32,
        bad: circuit.bad.len() as u32,
        constraints: circuit.constraints.len() as u32,
        justice: circuit.justice.sizes.len() as u32,
        justice_literals: circuit.justice.literals.len() as u32,
        fairness: circuit.fairness.len() as u32,
        gates: circuit.gates.len() as u32,
        symbols,
        has_comment: u32::from(circuit.comment.is_some()),
        name_bytes: u64::from(name_bytes),
        comment_bytes: comment_of(circuit).len() as u64,
    }
}

/// How many of each kind a circuit has. `None` where its symbols, or the bytes of their names, are
/// 2^32 or more, so that words of 32 bits cannot tell them.
#[tactic(auto, using(crate::proofs::Written::words_counted, crate::proofs::Written::bytes_counted))]
pub fn counts_of(circuit: &Checked) -> Option<Counts>
    ensures some { IfSome result (λ n. (n ≡ counts_of circuit.now) × HasWords circuit.now) }
    ensures words { IfSome result (λ n. words_length n ≡ length (circuit_words circuit.now)) }
    ensures bytes { IfSome result (λ n. bytes_length n ≡ length (circuit_bytes circuit.now)) }
    ensures none { result ≡ None → ¬ HasWords circuit.now }
{
    let circuit = circuit.circuit();
    let symbols = count_symbols(&circuit.symbols)?;
    let name_bytes = count_name_bytes(&circuit.symbols)?;
    Some(counts_with(circuit, symbols, name_bytes))
}
