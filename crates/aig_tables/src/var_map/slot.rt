//! Slots that variables and their values lie in.
ghost use Rattle.std.specs.Prelude.{◌≡◌};
ghost use Rattle.std.specs.List.{position_or_len};
ghost use Rattle.aig_tables.specs.Parts.Places.{ends_search};

/// A variable's index and its value. Where the index is 0 it is empty, and its value is never read.
#[derive(Clone, Copy)]
pub(super) struct Slot<T: Copy> {
    pub(super) index: u32,
    pub(super) value: T,
}

/// The first slot that has the index or is empty.
#[inline(always)]
pub(super) fn first_end<T: Copy>(slots: &[Slot<T>], index: u32) -> usize
    ensures { result ≡ position_or_len (ends_search index) slots.now }
{
    for place in 0..slots.len() {
        if slots[place].index == index || slots[place].index == 0 {
            return place;
        }
    }
    slots.len()
}
