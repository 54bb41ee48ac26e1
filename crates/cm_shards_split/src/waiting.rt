//! The bytes that wait for a file.
ghost use Rattle.std.specs.Prelude.{◌≡◌, ◌+◌, ◌≤◌, ◌++◌, [], length, IfOk};
ghost use Rattle.cm_shards_split.specs.Shares.{ended};
ghost use Rattle.cm_shards_split.specs.declared.waiting.TheConstants.{BUFFER};

use std::alloc::{AllocError, Global};
use std::marker::Model;

/// How many bytes wait for a file at most.
pub(crate) const BUFFER: usize = 65_536;

/// The bytes that wait for a file, at most `BUFFER`. Their memory is taken at the start. Contracts see them as a list.
#[derive(Drop)]
pub(crate) struct Waiting {
    bytes: Vec<u8>,
}

impl Model for Waiting {
    ghost use Rattle.std.specs.Prelude.{◌≤◌, ℕ, List, length};
    ghost use Rattle.std.specs.Vec.{vec_capacity};
    ghost use Rattle.cm_shards_split.specs.declared.waiting.TheConstants.{BUFFER};

    ghost Value = { List ℕ };

    ghost view = { λ w. w.bytes.items };

    ghost invariant = { λ w. record { few : length w.bytes.items ≤ BUFFER; room : BUFFER ≤ vec_capacity w.bytes } };
}

impl Waiting {
    /// No bytes. It takes the memory of all that may wait.
    pub(crate) fn new(alloc: Global) -> Result<Waiting, AllocError>
        ensures none { IfOk result (λ waiting. waiting ≡ []) }
    {
        Ok(Waiting {
            bytes: Vec::with_capacity(alloc, BUFFER)?,
        })
    }

    /// How many bytes wait.
    pub(crate) fn len(&self) -> usize
        ensures count { result ≡ length self.now }
        ensures few { result ≤ BUFFER }
    {
        self.bytes.len()
    }

    /// Lends the bytes.
    pub(crate) fn as_slice(&self) -> &[u8]
        ensures bytes { result.now ≡ self.now }
    {
        self.bytes.as_slice()
    }

    /// Adds a line with its end, for which there is room.
    pub(crate) fn add(&mut self, line: &[u8], end: u8)
        requires room { length self.old + length line.now + 1 ≤ BUFFER }
        ensures bytes { self.new ≡ self.old ++ ended end line.now }
    {
        // Neither takes memory.
        let _ = self.bytes.extend_from_slice(line);
        let _ = self.bytes.push(end);
    }

    /// Removes all bytes, and keeps their memory.
    pub(crate) fn clear(&mut self)
        ensures none { self.new ≡ [] }
    {
        self.bytes.clear();
    }
}
