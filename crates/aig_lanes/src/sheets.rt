//! Sheets: what literals are in all lanes.
ghost use Rattle.std.specs.Prelude.{◌≡◌, ◌+◌, ◌*◌, ◌/◌, ◌++◌, ◌<◌, ◌≤◌};
ghost use Rattle.std.specs.Prelude.{ℕ, List, [], IfOk, codes, length};
ghost use Rattle.std.specs.Prelude.{slice_index_or, take};
ghost use Rattle.std.specs.List.{All};
ghost use Rattle.aig_circuit.specs.declared.value.Val.{Val as Value};
ghost use Rattle.aig_lanes.specs.declared.run.Run.{Run as RunRecord};
ghost use Rattle.aig_places.specs.Lanes.{bit_in};
ghost use Rattle.aig_lanes.specs.Parts.Sheets.{BytesText, HoldsSteps, IsSheet};
ghost use Rattle.aig_lanes.specs.Parts.Sheets.{bytes_text, character_by, eight_at};
ghost use Rattle.aig_lanes.specs.Parts.Sheets.{overwritten, part, text_in};
ghost use Rattle.aig_step.specs.TraceText.{character_of, values_text};

use crate::byte_rows::ByteRows;
use crate::transposed::transpose;
use crate::vectors::{RunGroup, Vectors};
use aig_circuit::{Listing, OutOfMemory, Val};
use aig_places::Plane;
use std::alloc::{AllocError, Global};
use std::marker::Model;

/// How many steps the longest run in these eight lanes has, or this number if that is more.
fn longer_of(runs: &[Vectors], octet: usize, least: usize) -> usize
    requires { octet < 32 }
    ensures least { least ≤ result }
    ensures all { (l : ℕ) (d : RunRecord) → l / 8 ≡ octet → l < length runs.now
        → length (slice_index_or runs.now l d).steps ≤ result }
{
    let mut longest = least;
    for lane in 8 * octet..8 * octet + 8 {
        if lane < runs.len() && runs[lane].len() > longest {
            longest = runs[lane].len();
        }
    }
    longest
}

pub(crate) fn longest_in(groups: &[RunGroup], octet: usize) -> usize
    requires { octet < 32 }
    ensures { All (λ (runs : List RunRecord). (l : ℕ) (d : RunRecord) → l / 8 ≡ octet
        → l < length runs → length (slice_index_or runs l d).steps ≤ result) groups.now }
{
    let mut longest = 0;
    for group in groups {
        longest = longer_of(group.as_slice(), octet, longest);
    }
    longest
}

fn new_byte_rows(
    alloc: Global,
    width: usize,
    more: usize,
    groups: &[RunGroup],
) -> Result<Vec<ByteRows>, OutOfMemory>
    ensures is { IfOk result (λ byte_rows. IsSheet byte_rows.items) }
    ensures room { IfOk result (λ byte_rows.
        All (HoldsSteps width more byte_rows.items) groups.now) }
{
    let mut byte_rows = Vec::with_capacity(alloc, 32)?;
    for octet in 0..32usize {
        let Some(steps) = longest_in(groups, octet).checked_mul(width) else {
            return Err(OutOfMemory);
        };
        let Some(count) = steps.checked_add(more) else {
            return Err(OutOfMemory);
        };
        byte_rows.push(ByteRows::new(alloc, count)?)?;
    }
    Ok(byte_rows)
}

/// Puts the bytes of eight literals for each eight of lanes, as far as there are places.
#[inline(always)]
fn put_lane_bytes(byte_rows: &mut [ByteRows], at: usize, ones: &[u8; 256], zeros: &[u8; 256])
    requires { length byte_rows.old ≡ 32 }
    ensures text { (k j : ℕ) (d : BytesText) → k < 32
        → bytes_text j (slice_index_or byte_rows.new k d)
        ≡ overwritten at (bytes_text j (eight_at k ones.now zeros.now))
        (bytes_text j (slice_index_or byte_rows.old k d)) }
    ensures size { length byte_rows.new ≡ 32 }
    ensures ones { length ones.now ≡ 256 }
    ensures zeros { length zeros.now ≡ 256 }
{
    for k in 0..32 {
        let from = 8 * k;
        byte_rows[k].put(at, &ones[from..from + 8], &zeros[from..from + 8]);
    }
}

fn value_by(character: u8) -> Val
    ensures { (v : Value) → character ≡ character_of v → result ≡ v }
{
    match character {
        b'0' => Val::Zero,
        b'1' => Val::One,
        _ => Val::X,
    }
}

/// The values that characters stand for.
fn values_by(alloc: Global, text: &[u8]) -> Result<Listing<Val>, AllocError>
    ensures { IfOk result (λ values. (shown : List Value) → text.now ≡ values_text shown
        → values ≡ shown) }
{
    let mut values = Vec::with_capacity(alloc, text.len())?;
    for character in text {
        values.push(value_by(*character))?;
    }
    Ok(Listing::from_vec(values))
}

/// What literals are in all lanes.
#[derive(Drop)]
pub struct Sheet {
    byte_rows: Vec<ByteRows>,
}

impl Model for Sheet {
    ghost use Rattle.std.specs.Prelude.{List};
    ghost use Rattle.aig_lanes.specs.Parts.Sheets.{BytesText, IsSheet};

    ghost Value = { List BytesText };

    ghost view = { λ s. s.byte_rows.items };

    ghost invariant = { λ s. IsSheet s.byte_rows.items };
}

impl Sheet {
    pub(crate) fn new(
        alloc: Global,
        width: usize,
        more: usize,
        groups: &[RunGroup],
    ) -> Result<Self, OutOfMemory>
        ensures { IfOk result (λ sheet. All (HoldsSteps width more sheet) groups.now) }
    {
        Ok(Sheet {
            byte_rows: new_byte_rows(alloc, width, more, groups)?,
        })
    }

    /// Behind the plane of each literal stands that of its negation.
    #[inline(always)]
    pub(crate) fn put(&mut self, at: usize, planes: &[Plane; 16])
        ensures text { (l k : ℕ) → l < 256 → k < 8 → at + k < length (text_in l self.old)
            → slice_index_or (text_in l self.new) (at + k) 0
            ≡ character_by (bit_in l (slice_index_or planes.now (2 * k) []))
            (bit_in l (slice_index_or planes.now (2 * k + 1) [])) }
        ensures front { (l : ℕ) → l < 256
            → take at (text_in l self.new) ≡ take at (text_in l self.old) }
        ensures long { (l : ℕ) → length (text_in l self.new) ≡ length (text_in l self.old) }
    {
        put_lane_bytes(
            &mut self.byte_rows,
            at,
            &transpose(planes, 0),
            &transpose(planes, 1),
        );
    }

    /// Writes the characters that so many literals, from one on, have in a lane, from a place on,
    /// and answers where they end.
    #[inline(always)]
    pub(crate) fn write(
        &self,
        line: &mut [u8],
        at: usize,
        from: usize,
        count: usize,
        lane: usize,
    ) -> usize
        requires lane { lane < 256 }
        requires has { from + count ≤ length (text_in lane self.now) }
        requires room { at + count ≤ length line.old }
        ensures end { result ≡ at + count }
        ensures size { length line.new ≡ length line.old }
        ensures text { take result line.new
            ≡ take at line.old ++ part from count (text_in lane self.now) }
    {
        self.byte_rows[lane / 8].write(line, at, from, count, lane % 8);
        at + count
    }

    #[inline(always)]
    pub(crate) fn write_column(
        &self,
        line: &mut [u8],
        at: usize,
        from: usize,
        count: usize,
        lane: usize,
    ) -> usize
        requires lane { lane < 256 }
        requires has { from + count ≤ length (text_in lane self.now) }
        requires room { at + 1 + count ≤ length line.old }
        ensures end { result ≡ at + 1 + count }
        ensures size { length line.new ≡ length line.old }
        ensures text { take result line.new
            ≡ take at line.old ++ (codes " " ++ part from count (text_in lane self.now)) }
    {
        line[at] = b' ';
        self.write(line, at + 1, from, count, lane)
    }

    /// Their characters are written to a line first.
    pub(crate) fn values(
        &self,
        alloc: Global,
        line: &mut [u8],
        from: usize,
        count: usize,
        lane: usize,
    ) -> Result<Listing<Val>, AllocError>
        requires lane { lane < 256 }
        requires has { from + count ≤ length (text_in lane self.now) }
        requires room { count ≤ length line.old }
        ensures { IfOk result (λ values. (shown : List Value)
            → part from count (text_in lane self.now) ≡ values_text shown → values ≡ shown) }
    {
        let end = self.write(line, 0, from, count, lane);
        values_by(alloc, &line[..end])
    }
}
