//! Which clauses each literal watches. Lists of all literals stand in one array: one that outgrows
//! its room goes to the end of it.

use std::alloc::{AllocError, Global};

/// A clause that a literal watches, and its blocking literal: where that is true, nothing has to be
/// looked at. One word, so that it is kept by one load and one store.
#[derive(Clone, Copy, Debug, PartialEq, Eq)]
pub(crate) struct Watch(u64);

/// No watch stands in a place, so that the list in front of it may take it.
const FREE: Watch = Watch(u64::MAX);

impl Watch {
    /// Of the clause that begins there.
    #[inline(always)]
    pub(crate) fn new(blocking: u32, clause: u32) -> Watch {
        Watch(u64::from(clause) << 32 | u64::from(blocking))
    }

    #[inline(always)]
    pub(crate) fn blocking(self) -> u32 {
        (self.0 % (1 << 32)) as u32
    }

    #[inline(always)]
    pub(crate) fn clause(self) -> u32 {
        (self.0 >> 32) as u32
    }
}

/// Where the watches of a literal begin in the array, and how many there are.
#[derive(Clone, Copy, Debug, PartialEq, Eq)]
struct List {
    start: u32,
    len: u32,
}

const NO_LIST: List = List { start: 0, len: 0 };

/// The least room behind a list that goes to the end.
const LEAST_ROOM: u32 = 4;

/// Watches, by the literal that watches.
#[derive(Drop)]
pub(crate) struct Watches {
    alloc: Global,
    all: Vec<Watch>,
    lists: Vec<List>,
}

impl Watches {
    /// No clause is watched, by literals below this one.
    pub(crate) fn new(alloc: Global, literals: usize) -> Result<Watches, AllocError> {
        Ok(Watches {
            alloc,
            all: Vec::new(alloc),
            lists: vec![in alloc; NO_LIST; literals]?,
        })
    }

    /// There is to be room for one more watch of a literal.
    pub(crate) fn expect(&mut self, literal: u32) {
        let at = literal as usize;
        if at < self.lists.len() {
            self.lists[at].len = self.lists[at].len.saturating_add(1);
        }
    }

    /// Makes the room that there is to be, as far as 32 bits tell where a list begins.
    pub(crate) fn make_expected_room(&mut self) -> Result<(), AllocError> {
        let mut start: u32 = 0;
        for k in 0..self.lists.len() {
            let expected = self.lists[k].len;
            self.lists[k] = List { start, len: 0 };
            start = start.saturating_add(expected);
        }
        self.all = vec![in self.alloc; FREE; start as usize]?;
        Ok(())
    }

    /// There are lists for the literals below this one.
    pub(crate) fn make_room(&mut self, literals: usize) -> Result<(), AllocError> {
        for _literal in self.lists.len()..literals {
            self.lists.push(NO_LIST)?;
        }
        Ok(())
    }

    /// From where on up to where the watches of a literal stand.
    #[inline(always)]
    pub(crate) fn span(&self, literal: u32) -> (usize, usize) {
        match self.lists.get(literal as usize) {
            Some(list) => {
                let start = list.start as usize;
                (start, start + list.len as usize)
            }
            None => (0, 0),
        }
    }

    /// The watch that stands there.
    #[inline(always)]
    pub(crate) fn at(&self, place: usize) -> Watch {
        match self.all.get(place) {
            Some(watch) => *watch,
            None => FREE,
        }
    }

    /// Puts a watch there, and tells where the next place is.
    #[inline(always)]
    pub(crate) fn put(&mut self, place: usize, watch: Watch) -> usize {
        if place < self.all.len() {
            self.all[place] = watch;
        }
        place.wrapping_add(1)
    }

    /// Puts the watches from the one place up to the other there, and tells where the next place is.
    // Not built into its caller, which seldom calls it, and counts less then.
    #[inline(never)]
    pub(crate) fn put_all(&mut self, from: usize, end: usize, place: usize) -> usize {
        let mut next = place;
        for at in from..end {
            let watch = self.at(at);
            next = self.put(next, watch);
        }
        next
    }

    /// No watch stands from the one place up to the other any more.
    // Not built into its caller, which seldom calls it, and needs the registers.
    #[inline(never)]
    fn free(&mut self, from: usize, end: usize) {
        for at in from..end {
            self.put(at, FREE);
        }
    }

    /// The watches of a literal end there, and no more at the other place.
    #[inline(always)]
    pub(crate) fn set_end(&mut self, literal: u32, end: usize, before: usize) {
        let at = literal as usize;
        if at < self.lists.len() && end < before {
            let start = self.lists[at].start as usize;
            self.lists[at].len = (end.wrapping_sub(start) % (1 << 32)) as u32;
            self.free(end, before);
        }
    }

    /// Copies the watches of a list to the end of the array, and leaves as much room behind them.
    fn append(&mut self, list: List) -> Result<(), AllocError> {
        for k in 0..list.len {
            let watch = self.at(list.start as usize + k as usize);
            self.all.push(watch)?;
        }
        for _k in 0..list.len.max(LEAST_ROOM) {
            self.all.push(FREE)?;
        }
        Ok(())
    }

    /// A list goes to the end, if 32 bits tell where that is.
    fn move_to_end(&mut self, at: usize) -> Result<(), AllocError> {
        if at >= self.lists.len() {
            return Ok(());
        }
        let list = self.lists[at];
        if let Ok(start) = u32::try_from(self.all.len()) {
            self.append(list)?;
            let old = list.start as usize;
            self.free(old, old + list.len as usize);
            if at < self.lists.len() {
                self.lists[at] = List { start, ..list };
            }
        }
        Ok(())
    }

    /// Puts a watch behind those of a list, if a place is free there. Of what has no list, nothing
    /// is kept.
    #[inline(always)]
    fn push_within(&mut self, at: usize, watch: Watch) -> bool {
        if at >= self.lists.len() {
            return true;
        }
        let list = self.lists[at];
        let place = list.start as usize + list.len as usize;
        if place >= self.all.len() || self.all[place] != FREE {
            return false;
        }
        self.all[place] = watch;
        self.lists[at].len = list.len.wrapping_add(1);
        true
    }

    /// The same of a list with no free place behind it.
    // Not built into its caller, which seldom calls it, and needs the registers.
    #[inline(never)]
    fn push_behind(&mut self, at: usize, watch: Watch) -> Result<(), AllocError> {
        self.move_to_end(at)?;
        self.push_within(at, watch);
        Ok(())
    }

    /// A literal watches a clause from now on.
    #[inline(always)]
    pub(crate) fn push(&mut self, literal: u32, watch: Watch) -> Result<(), AllocError> {
        let at = literal as usize;
        if self.push_within(at, watch) {
            return Ok(());
        }
        self.push_behind(at, watch)
    }

    /// No clause is watched any more.
    pub(crate) fn clear(&mut self) {
        self.all.clear();
        for k in 0..self.lists.len() {
            self.lists[k] = NO_LIST;
        }
    }
}
