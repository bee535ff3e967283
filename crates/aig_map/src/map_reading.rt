//! The map block of a circuit, read from its comment.
ghost use Rattle.std.specs.Prelude.{◌≡◌, ◌+◌, ◌^◌, ◌<◌, ◌≤◌, ℕ, List, [], Option, IfOk, IfSome};
ghost use Rattle.std.specs.Prelude.{◌-◌, drop, length};
ghost use Rattle.std.specs.Option.{unwrap_or};
ghost use Rattle.aig_circuit.specs.declared.circuit.TheConstants.{LARGEST as largest_index};
ghost use Rattle.aig_rows.specs.Outcomes.{Gives, GivesOrFails};
ghost use Rattle.aig_map.specs.MapSpelling.{after_text, first_line_at, gate_at};
ghost use Rattle.aig_map.specs.MapSpelling.{is_variable, last_number_at};
ghost use Rattle.aig_map.specs.MapSpelling.{variable_at};
ghost use Rattle.aig_fault.specs.Stopping.{fault_at};
ghost use Rattle.aig_fault.specs.declared.fault.Place.TheVariants.{Whole};
ghost use Rattle.aig_map.specs.MapReading.{bad_line, entries_at, counts_match, counted_line};
ghost use Rattle.aig_map.specs.MapReading.{rest_of_block, block_reading};
ghost use Rattle.aig_map.specs.Parts.MapOutcomes.{GivesOrMemory};
ghost use Rattle.aig_map.specs.Parts.Tables.{without_comment};

use crate::map_block::{FirstLine, MapBlock, MappedGate};
use aig_core::{Circuit, LARGEST, Listing, Var};
use aig_fault::{Fault, Kind, Place, Stopped};
use aig_text::{canonical_number, last_bytes};
use std::alloc::Global;

#[inline(always)]
fn is_variable(max_var: u64, index: u64) -> bool
    ensures { result ≡ is_variable max_var index }
{
    1 <= index && index <= max_var
}

fn after_text<'a>(bytes: &'a [u8], text: &[u8]) -> Option<&'a [u8]>
    ensures { Gives (λ x. x.now) result (after_text text.now bytes.now) }
{
    bytes.strip_prefix(text)
}

/// Whether operands were exchanged is one digit in every good line, read by its two bytes.
#[inline(always)]
#[tactic(auto, using(crate::proofs::BlockReading::Lines::flag_is_read))]
fn line_end_number(bytes: &[u8]) -> Option<(u64, &[u8])>
    ensures { Gives (λ x. (x.0, x.1.now)) result (last_number_at bytes.now) }
{
    if bytes.len() > 1 && bytes[1] == b'\n' && b'0' <= bytes[0] && bytes[0] <= b'1' {
        let (_, rest) = bytes.split_at(2);
        return Some((u64::from(bytes[0] - b'0'), rest));
    }
    canonical_number(bytes, b'\n')
}

/// A fault that has no one place.
fn whole(kind: Kind) -> Fault
    ensures { result ≡ fault_at kind Whole 0 }
{
    Fault {
        kind,
        place: Place::Whole,
        subject: 0,
    }
}

/// This line of the block, counted from 1, is missing or not of its form.
fn bad_line(line: u64) -> Fault
    ensures { result ≡ bad_line line }
{
    Fault {
        kind: Kind::BadMapLine,
        place: Place::MapLine(line),
        subject: 0,
    }
}

/// What one line of a block holds, after the first line.
trait BlockEntry: Drop {
    /// The entry on the line at the front, by the largest index and the count, and what follows it.
    ghost entry: { ℕ → ℕ → List ℕ → Option (Self × List ℕ) };

    /// Reads the line at the front; also what follows it.
    fn read_entry(bytes: &[u8], max_var: u64, count: u64) -> Option<(Self, &[u8])>
        requires max_var { max_var ≤ largest_index }
        requires count { count ≤ largest_index }
        ensures { Gives (λ x. (x.0, x.1.now)) result (entry max_var count bytes.now) };
}

impl BlockEntry for Var {
    ghost entry = { λ max_var _. variable_at max_var };

    #[inline(always)]
    #[tactic(auto, unfolding(crate::specs::MapSpelling::variable_at))]
    fn read_entry(bytes: &[u8], max_var: u64, _count: u64) -> Option<(Var, &[u8])> {
        let (index, rest) = canonical_number(bytes, b'\n')?;
        if !is_variable(max_var, index) {
            return None;
        }
        Some((Var(index as u32), rest))
    }
}

impl BlockEntry for MappedGate {
    ghost entry = { gate_at };

    #[inline(always)]
    #[tactic(auto, unfolding(crate::specs::MapSpelling::gate_at))]
    fn read_entry(bytes: &[u8], max_var: u64, count: u64) -> Option<(MappedGate, &[u8])> {
        let (index, rest) = canonical_number(bytes, b' ')?;
        let (place, rest) = canonical_number(rest, b' ')?;
        let (exchanged, rest) = line_end_number(rest)?;
        if !is_variable(max_var, index) || place >= count || exchanged > 1 {
            return None;
        }
        let gate = MappedGate {
            var: Var(index as u32),
            place: place as u32,
            exchanged: exchanged == 1,
        };
        Some((gate, rest))
    }
}

/// Reads so many lines, of which the first has this number in the block; also what follows them.
fn entries<'a, T: BlockEntry>(
    alloc: Global,
    bytes: &'a [u8],
    max_var: u64,
    count: u64,
    line: u64,
) -> Result<(Listing<T>, &'a [u8]), Stopped>
    requires max_var { max_var ≤ largest_index }
    requires count { count ≤ largest_index }
    requires line { line + count < 2 ^ 64 }
    ensures { GivesOrMemory (λ x. (x.0, x.1.now)) result
        (entries_at (T.entry max_var count) line count bytes.now) }
{
    let mut found = Listing::new(alloc);
    let mut rest = bytes;
    for at in 0..count {
        match T::read_entry(rest, max_var, count) {
            Some((recorded, after)) => {
                found.push(recorded)?;
                rest = after;
            }
            None => return Err(Stopped::Refused(bad_line(line + at))),
        }
    }
    Ok((found, rest))
}

#[tactic(auto, unfolding(crate::specs::MapSpelling::first_line_at))]
fn first_line(bytes: &[u8]) -> Option<(FirstLine, &[u8])>
    ensures line { Gives (λ x. (x.0, x.1.now)) result (first_line_at bytes.now) }
    ensures max_var { IfSome result (λ x. x.0.max_var ≤ largest_index) }
{
    let (version, rest) = canonical_number(bytes, b' ')?;
    let (max_var, rest) = canonical_number(rest, b' ')?;
    let (inputs, rest) = canonical_number(rest, b' ')?;
    let (latches, rest) = canonical_number(rest, b' ')?;
    let (gates, rest) = canonical_number(rest, b' ')?;
    let (comment, rest) = canonical_number(rest, b'\n')?;
    if version != 1 || max_var > u64::from(LARGEST) || comment > 1 {
        return None;
    }
    let first = FirstLine {
        max_var,
        inputs,
        latches,
        gates,
        has_comment: comment == 1,
    };
    Some((first, rest))
}

fn counts_match(image: &Circuit, front: FirstLine) -> bool
    requires { front.max_var ≤ largest_index }
    ensures { result ≡ counts_match image.now front }
{
    let inputs = image.inputs.len() as u64;
    let latches = image.latches.len() as u64;
    let gates = image.gates.len() as u64;
    front.inputs == inputs
        && front.latches == latches
        && front.gates == gates
        && inputs.saturating_add(latches).saturating_add(gates) <= front.max_var
}

fn comment_bytes(image: &Circuit) -> &[u8]
    ensures { result.now ≡ unwrap_or image.now.comment [] }
{
    match &image.comment {
        Some(comment) => comment.as_slice(),
        None => &[],
    }
}

#[tactic(auto, unfolding(crate::specs::MapReading::counted_line))]
fn counted_line(image: &Circuit) -> Result<(FirstLine, &[u8]), Fault>
    ensures line { GivesOrFails (λ x. (x.0, x.1.now)) result (counted_line image.now) }
    ensures max_var { IfOk result (λ x. x.0.max_var ≤ largest_index) }
    ensures counts { IfOk result (λ x. x.0.inputs + x.0.latches + x.0.gates ≤ x.0.max_var) }
{
    let Some(text) = after_text(comment_bytes(image), b"aigmap ") else {
        return Err(whole(Kind::NoMap));
    };
    let Some((front, rest)) = first_line(text) else {
        return Err(bad_line(1));
    };
    if counts_match(image, front) {
        Ok((front, rest))
    } else {
        Err(whole(Kind::MapMismatch))
    }
}

#[tactic(auto, unfolding(crate::specs::MapReading::rest_of_block))]
fn rest_of_block<'a>(
    alloc: Global,
    front: FirstLine,
    bytes: &'a [u8],
) -> Result<(MapBlock, &'a [u8]), Stopped>
    requires max_var { front.max_var ≤ largest_index }
    requires counts { front.inputs + front.latches + front.gates ≤ front.max_var }
    ensures { GivesOrMemory (λ x. (x.0, x.1.now)) result (rest_of_block front bytes.now) }
{
    let max_var = front.max_var;
    let (inputs, bytes) = entries::<Var>(alloc, bytes, max_var, front.inputs, 2)?;
    let line = 2 + front.inputs;
    let (latches, bytes) = entries::<Var>(alloc, bytes, max_var, front.latches, line)?;
    let line = line + front.latches;
    let (gates, bytes) = entries::<MappedGate>(alloc, bytes, max_var, front.gates, line)?;
    let line = line + front.gates;
    let Some(rest) = after_text(bytes, b"aigmap end\n") else {
        return Err(Stopped::Refused(bad_line(line)));
    };
    let block = MapBlock {
        max_var: max_var as u32,
        inputs,
        latches,
        gates,
        has_comment: front.has_comment,
    };
    Ok((block, rest))
}

/// The block at the front of a circuit's comment, and the comment after it.
#[tactic(auto, unfolding(crate::specs::MapReading::block_reading))]
fn read_block(alloc: Global, image: &Circuit) -> Result<(MapBlock, &[u8]), Stopped>
    ensures { GivesOrMemory (λ x. (x.0, x.1.now)) result (block_reading image.now) }
{
    match counted_line(image) {
        Ok((front, rest)) => rest_of_block(alloc, front, rest),
        Err(fault) => Err(Stopped::Refused(fault)),
    }
}

/// The comment is let go, and is empty where there is none.
fn take_comment(alloc: Global, image: &mut Circuit) -> Vec<u8>
    ensures comment { result.items ≡ unwrap_or image.old.comment [] }
    ensures bare { image.new ≡ without_comment image.old }
{
    match image.comment.take() {
        Some(comment) => comment.into_vec(),
        None => Vec::new(alloc),
    }
}

/// A block that was taken off a circuit, and what is left.
#[derive(Drop)]
pub struct TakenBlock {
    pub block: MapBlock,
    /// The comment after the block.
    pub comment: Vec<u8>,
    /// The circuit without a comment.
    pub image: Circuit,
}

/// Takes the block off the front of a circuit's comment. Its text is let go, since it takes more
/// memory than the gates.
pub fn take_block(alloc: Global, image: Circuit) -> Result<TakenBlock, Stopped>
    ensures read { GivesOrMemory (λ t. (t.block, t.comment.items)) result (block_reading image) }
    ensures bare { IfOk result (λ t. t.image ≡ without_comment image) }
{
    let (block, kept) = match read_block(alloc, &image) {
        Ok((block, comment)) => (block, comment.len()),
        Err(stopped) => {
            drop(image); // for the proof
            return Err(stopped);
        }
    };
    let mut image = image;
    let comment = last_bytes(take_comment(alloc, &mut image), kept)?;
    Ok(TakenBlock {
        block,
        comment,
        image,
    })
}
