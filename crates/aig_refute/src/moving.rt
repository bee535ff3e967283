//! Another literal of a clause comes to watch it.
ghost use Rattle.std.specs.Prelude.{◌≡◌, ◌≢◌, ◌+◌, ◌<◌, ◌≤◌, ℕ, length, slice_index};
ghost use Rattle.aig_refute.specs.Rearranged.{IsRearranged};
ghost use Rattle.aig_refute.specs.Store.{IsWithin};

use crate::words::{END, swap_literals};

/// Where more literals of a clause than these were passed, those behind them come first. So a clause
/// whose literals become false one after the other is passed in linear time.
const MANY: usize = 32;

/// Two literals of a clause change places.
#[inline(always)]
fn swap(words: &mut [u32], i: usize, j: usize)
    requires order { i < j }
    requires inside { j < length words.old }
    requires within { IsWithin words.old i j }
    ensures { IsRearranged words.old words.new }
{
    swap_literals(words, i, j);
}

/// Literals of a clause from the one place up to the other change places with those behind them, as
/// many as there are.
// Not built into its caller, which seldom calls it, and needs the registers.
#[inline(never)]
fn put_behind(words: &mut [u32], from: usize, next: usize)
    requires order { from < next }
    requires live { (m : ℕ) → from ≤ m → m < next → slice_index words.old m ≢ END }
    ensures { IsRearranged words.old words.new }
{
    let mut i = from;
    let mut j = next;
    while i < next && j < words.len() && words[j] != END {
        swap(words, i, j);
        i += 1;
        j += 1;
    }
}

/// In the clause that begins there, a literal comes to the place of one that watches it.
#[inline(always)]
pub(crate) fn move_watch(words: &mut [u32], at: usize, place: usize, k: usize)
    requires order { (at ≤ place) × (place < k) × (at + 2 ≤ k) }
    requires inside { k < length words.old }
    requires within { IsWithin words.old at k }
    ensures { IsRearranged words.old words.new }
{
    swap(words, place, k);
    if k - at > MANY {
        put_behind(words, at + 2, k + 1);
    }
}
