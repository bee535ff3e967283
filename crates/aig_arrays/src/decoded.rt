//! The circuit that is decoded from arrays.
ghost use Rattle.std.specs.Prelude.{◌≡◌, ◌+◌, ◌*◌, ◌≤◌, ◌==◌, IfOk, IfErr, MatchResult, Ok};
ghost use Rattle.std.specs.Prelude.{length};
ghost use Rattle.aig_circuit.specs.declared.circuit.Circuit.{Circuit as CircuitRecord};
ghost use Rattle.aig_arrays.specs.Outcomes.{GivesOrMemory};
ghost use Rattle.aig_fault.specs.declared.stopped.Stopped.TheVariants.{OutOfMemory};
ghost use Rattle.aig_arrays.specs.Decoded.{IsFirstFault, counts_fit, decoded, entries_decoded};
ghost use Rattle.aig_arrays.specs.Decoded.{comment_in, with_entries};
ghost use Rattle.aig_circuit.specs.Wellformed.{largest_index};
ghost use Rattle.std.specs.List.{sum};
ghost use Rattle.aig_arrays.specs.Words.{bytes_length};

use crate::counts::Counts;
use crate::entries::WordCursor;
use crate::sections::read_sections;
use crate::symbols::read_symbols;
use aig_core::{Checked, Circuit, Keep, Listing, Steps, check};
use aig_fault::{Kind, Stopped, refused_whole};
use aig_text::empty_circuit;
use std::alloc::{AllocError, Global};

/// How many words stand before the sizes of the justice properties.
fn before_sizes(n: &Counts) -> usize
    ensures { result ≡ n.now.inputs + 3 * n.now.latches + n.now.outputs + n.now.bad
        + n.now.constraints }
{
    n.inputs as usize
        + 3 * n.latches as usize
        + n.outputs as usize
        + n.bad as usize
        + n.constraints as usize
}

fn bytes_fit(n: &Counts, bytes: &[u8]) -> bool
    ensures { result ≡ (bytes_length n.now == length bytes.now) }
{
    let length = bytes.len() as u64;
    n.name_bytes <= length && n.comment_bytes == length - n.name_bytes
}

/// Whether numbers add up to this one.
fn add_up(numbers: &[u32], wanted: u32) -> bool
    ensures { result ≡ (sum numbers.now == wanted) }
{
    let wanted = u64::from(wanted);
    let mut all = 0;
    for number in numbers {
        all += u64::from(*number);
        if all > wanted {
            return false;
        }
    }
    all == wanted
}

/// Whether the counts are in range, and those of these words and bytes.
fn counts_fit(n: &Counts, words: &[u32], bytes: &[u8]) -> bool
    ensures { result ≡ counts_fit n.now words.now bytes.now }
{
    if !n.is_in_range() || !bytes_fit(n, bytes) {
        return false;
    }
    if n.words() != words.len() as u64 {
        return false;
    }
    let start = before_sizes(n);
    let sizes = &words[start..start + n.justice as usize];
    add_up(sizes, n.justice_literals)
}

fn comment_of(alloc: Global, n: &Counts, bytes: &[u8]) -> Result<Option<Listing<u8>>, AllocError>
    ensures { IfOk result (λ comment. comment ≡ comment_in n.now bytes.now) }
{
    if n.has_comment == 0 {
        return Ok(None);
    }
    Ok(Some(Listing::from_vec(Vec::from_slice(alloc, bytes)?)))
}

/// Adds what words and bytes tell, entry by entry. Definitions and uses are not checked here.
fn add_entries(
    alloc: Global,
    counts: &Counts,
    words: &[u32],
    bytes: &[u8],
    circuit: &mut Circuit,
) -> Result<(), Stopped>
    requires max_var { counts.now.max_var ≤ largest_index }
    requires names { counts.now.name_bytes ≤ length bytes.now }
    requires sizes { sum circuit.old.justice.sizes ≤ largest_index }
    ensures { GivesOrMemory (λ _. circuit.new) result
        (with_entries counts.now words.now bytes.now circuit.old) }
{
    let mut from = WordCursor { rest: words, at: 0 };
    read_sections(alloc, counts, circuit, &mut from)?;
    let (names, comment) = bytes.split_at(counts.name_bytes as usize);
    let end = read_symbols(alloc, counts, names, circuit, &mut from)?;
    if end != names.len() {
        return Err(refused_whole(Kind::BadCounts));
    }
    circuit.comment = comment_of(alloc, counts, comment)?;
    Ok(())
}

/// The circuit in form that words and bytes tell.
fn read_entries(
    alloc: Global,
    counts: &Counts,
    words: &[u32],
    bytes: &[u8],
) -> Result<Circuit, Stopped>
    ensures { GivesOrMemory (λ c. c) result (entries_decoded counts.now words.now bytes.now) }
{
    if !counts_fit(counts, words, bytes) {
        return Err(refused_whole(Kind::BadCounts));
    }
    let mut circuit = empty_circuit(alloc, counts.max_var);
    if let Err(fault) = add_entries(alloc, counts, words, bytes, &mut circuit) {
        drop(circuit); // for the proof
        return Err(fault);
    }
    Ok(circuit)
}

/// The well-formed circuit that words and bytes tell. What is wanted of its check later is kept.
/// The error is their first fault, or that memory ran out.
pub fn read_arrays(
    alloc: Global,
    counts: &Counts,
    words: &[u32],
    bytes: &[u8],
    keep: Keep,
) -> Result<Checked, Stopped>
    ensures ok { IfOk result (λ c. decoded counts.now words.now bytes.now ≡ Ok c) }
    ensures only { (c : CircuitRecord) → decoded counts.now words.now bytes.now ≡ Ok c
        → MatchResult result (λ d. d ≡ c) (λ e. e ≡ OutOfMemory) }
    ensures err { IfErr result (λ e. IsFirstFault e (decoded counts.now words.now bytes.now)) }
{
    let circuit = read_entries(alloc, counts, words, bytes)?;
    match check(alloc, circuit, keep, &mut Steps::new()) {
        Ok(checked) => Ok(checked),
        Err((circuit, fault)) => {
            drop(circuit); // for the proof
            Err(fault)
        }
    }
}
