//! A window over the bytes of a source.
ghost use Rattle.std.specs.Prelude.{◌≡◌, ◌+◌, ◌^◌, ◌<◌, ◌≤◌, ◌++◌, []};
ghost use Rattle.std.specs.Prelude.{drop, length, IfErr, IfOk, IsTrue, OnOk};
ghost use Rattle.aig_io.specs.Devices.{GaveSome};
ghost use Rattle.aig_io.specs.Windows.{Filled};

use crate::device::Source;
use crate::room::{PIECE, make_room};
use crate::transfer::ReadError;
use std::alloc::{AllocError, Global};
use std::marker::Model;

/// Bytes that a source gave, not let go yet, and room after them.
#[derive(Drop)]
pub struct Window {
    bytes: Vec<u8>,
    len: usize,
}

impl Model for Window {
    ghost use Rattle.std.specs.Prelude.{List, ℕ, take, vec_len, ◌<◌, ◌≤◌};

    ghost Value = { List ℕ };

    ghost view = { λ w. take w.len w.bytes.items };

    ghost invariant = { λ w. (w.len ≤ vec_len w.bytes) × (1 < vec_len w.bytes) };
}

impl Window {
    /// Nothing came yet.
    pub fn new(alloc: Global) -> Result<Self, AllocError>
        ensures { IfOk result (λ window. window ≡ []) }
    {
        let mut bytes = Vec::new(alloc);
        bytes.resize(PIECE, 0)?;
        Ok(Window { bytes, len: 0 })
    }

    /// The bytes that it holds.
    pub fn as_slice(&self) -> &[u8]
        ensures { result.now ≡ self.now }
    {
        &self.bytes[..self.len]
    }

    /// The bytes that it holds, by themselves.
    pub fn into_bytes(self) -> Vec<u8>
        ensures { result.items ≡ self }
    {
        let Window { bytes, len } = self;
        let mut bytes = bytes;
        bytes.truncate(len);
        bytes
    }

    /// Lets the first bytes go.
    pub fn pass(&mut self, count: usize)
        requires { count ≤ length self.old }
        ensures { self.new ≡ drop count self.old }
    {
        let len = self.len;
        self.bytes.as_mut_slice().copy_within(count..len, 0);
        self.len = len - count;
    }

    /// Fetches more bytes, and answers whether any came. None come at the end of the source.
    pub fn fill<R: Source>(&mut self, source: &mut R) -> Result<bool, ReadError>
        ensures ok { IfOk result (λ more.
            Filled self.old self.new more (R.history source.old) (R.history source.new)) }
        ensures bound { OnOk result
            (R.bound source.new + length self.new ≡ R.bound source.old + length self.old) }
        ensures fewer { IfOk result (λ more.
            IsTrue more → R.bound source.new < R.bound source.old) }
        ensures limited { OnOk result (R.bound source.old ≤ 2 ^ 62) }
        ensures err { IfErr result (λ error.
            GaveSome error (R.history source.old) (R.history source.new)) }
    {
        make_room(&mut self.bytes, self.len)?;
        let count = source.fetch(&mut self.bytes[self.len..])?;
        self.len += count;
        Ok(count > 0)
    }
}
