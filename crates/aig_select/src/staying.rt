//! What stays of lists, by marks.
ghost use Rattle.std.specs.Prelude.{◌≡◌, ◌≤◌, ◌^◌, ◌<◌, None, false, length, slice_index_or, take, IfOk};
ghost use Rattle.aig_select.specs.Staying.{numbered, staying};

use aig_circuit::Listing;
use std::alloc::{AllocError, Global};

/// Whether a position is marked: behind the last mark none is.
#[inline(always)]
pub(crate) fn is_marked(marks: &[bool], at: usize) -> bool
    ensures { result ≡ slice_index_or marks.now at false }
{
    match marks.get(at) {
        Some(mark) => *mark,
        None => false,
    }
}

/// Moves what is marked to the front, and answers how much there is.
fn keep_marked<T: Copy>(marks: &[bool], items: &mut [T]) -> usize
    ensures { take result items.new ≡ staying marks.now items.old }
{
    let mut kept = 0;
    for at in 0..items.len() {
        let item = items[at];
        if is_marked(marks, at) {
            items[kept] = item;
            kept += 1;
        }
    }
    kept
}

/// What is marked of a list, in its own memory.
pub(crate) fn keep<T: Copy>(marks: &[bool], items: Listing<T>) -> Listing<T>
    ensures { result ≡ staying marks.now items }
{
    let mut found = items.into_vec();
    let kept = keep_marked(marks, &mut found);
    found.truncate(kept);
    Listing::from_vec(found)
}

/// The new positions of what is marked.
pub(crate) fn number_marked(alloc: Global, marks: &[bool]) -> Result<Vec<Option<u32>>, AllocError>
    requires { length marks.now < 2 ^ 32 }
    ensures { IfOk result (λ places. places.items ≡ numbered 0 marks.now) }
{
    let mut places = Vec::with_capacity(alloc, marks.len())?;
    let mut next = 0;
    for mark in marks {
        if *mark {
            places.push(Some(next))?;
            next += 1;
        } else {
            places.push(None)?;
        }
    }
    Ok(places)
}

/// The new position of what stood at a position, if it has one.
pub(crate) fn place_at(places: &[Option<u32>], position: u32) -> Option<u32>
    ensures { result ≡ slice_index_or places.now position None }
{
    match places.get(position as usize) {
        Some(place) => *place,
        None => None,
    }
}
