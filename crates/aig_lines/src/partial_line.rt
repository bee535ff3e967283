//! The beginning of a line that has not ended yet.
ghost use Rattle.std.specs.Prelude.{◌≡◌, ◌==◌, ◌<◌, ◌≤◌, [], length, IfOk};
ghost use Rattle.aig_lines.specs.Keeping.{keeping_more};

use std::alloc::{AllocError, Global};
use std::marker::Model;

/// The first bytes of a line whose end has not come yet: all, or as many as there is room for.
#[derive(Drop)]
pub struct PartialLine {
    bytes: Vec<u8>,
    len: usize,
}

impl Model for PartialLine {
    ghost use Rattle.std.specs.Prelude.{◌≤◌, take, length};
    ghost use Rattle.aig_lines.specs.Keeping.{Keeping};

    ghost Value = { Keeping };

    ghost view = { λ k. record { bytes = take k.len k.bytes.items; room = length k.bytes.items } };

    ghost invariant = { λ k. k.len ≤ length k.bytes.items };
}

impl PartialLine {
    /// Nothing, with room for so many bytes.
    pub fn new(alloc: Global, room: usize) -> Result<Self, AllocError>
        ensures { IfOk result (λ kept. kept ≡ record { bytes = []; room = room }) }
    {
        Ok(PartialLine {
            bytes: vec![in alloc; 0; room]?,
            len: 0,
        })
    }

    /// Whether there is none.
    #[inline(always)]
    pub fn is_empty(&self) -> bool
        ensures { result ≡ (length self.now.bytes == 0) }
    {
        self.len == 0
    }

    /// The bytes.
    pub fn as_slice(&self) -> &[u8]
        ensures { result.now ≡ self.now.bytes }
    {
        &self.bytes[..self.len]
    }

    /// Keeps more of the line, as far as there is room.
    pub fn keep(&mut self, text: &[u8])
        ensures { self.new ≡ keeping_more self.old text.now }
    {
        let count = (self.bytes.len() - self.len).min(text.len());
        let end = self.len + count;
        self.bytes[self.len..end].copy_from_slice(&text[..count]);
        self.len = end;
    }

    /// Lets all bytes go.
    pub fn clear(&mut self)
        ensures { self.new ≡ record self.old { bytes = [] } }
    {
        self.len = 0;
    }
}
