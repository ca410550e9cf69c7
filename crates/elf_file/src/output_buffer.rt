//! Bytes on their way to an output, so that it is called once for many pieces.

ghost use Rattle.std.specs.Prelude.{◌≡◌, length};

use crate::file_pieces::Repetition;
use std::marker::Model;

/// The size of a buffer in bytes.
pub(crate) const ROOM: usize = 65536;

/// A block of zeros.
#[inline(always)]
pub(crate) fn zeros() -> [u8; ROOM]
    ensures { length result ≡ 65536 }
{
    [0; ROOM]
}

/// Bytes that wait to be written.
#[derive(Drop)]
pub(crate) struct Buffer {
    block: [u8; ROOM],
    filled: usize,
}

impl Model for Buffer {
    ghost use Rattle.std.specs.Prelude.{ℕ, List, ◌≤◌, take};

    ghost Value = { List ℕ };

    ghost view = { λ b. take b.filled b.block };

    ghost invariant = { λ b. b.filled ≤ 65536 };
}

impl Buffer {
    ghost use Rattle.std.specs.Prelude.{◌≡◌, ◌+◌, ◌≤◌, [], ◌++◌, length};

    /// No bytes.
    #[inline(always)]
    pub(crate) fn new() -> Buffer
        ensures { result ≡ [] }
    {
        Buffer {
            block: zeros(),
            filled: 0,
        }
    }

    /// How many bytes more have room.
    pub(crate) fn room(&self) -> usize
        ensures { result + length self.now ≡ 65536 }
    {
        ROOM - self.filled
    }

    /// The bytes.
    pub(crate) fn as_slice(&self) -> &[u8]
        ensures { result.now ≡ self.now }
    {
        &self.block[..self.filled]
    }

    /// Drops all bytes.
    pub(crate) fn clear(&mut self)
        ensures { self.new ≡ [] }
    {
        self.filled = 0;
    }

    /// Appends bytes that have room.
    pub(crate) fn put(&mut self, bytes: &[u8])
        requires { length self.old + length bytes.now ≤ 65536 }
        ensures { self.new ≡ self.old ++ bytes.now }
    {
        let end = self.filled + bytes.len();
        self.block[self.filled..end].copy_from_slice(bytes);
        self.filled = end;
    }

    /// Appends a repetition of this size that has room.
    pub(crate) fn put_repetition(&mut self, held: &Repetition, size: usize)
        requires size { size ≡ length held.now }
        requires room { length self.old + size ≤ 65536 }
        ensures { self.new ≡ self.old ++ held.now }
    {
        let end = self.filled + size;
        held.put(&mut self.block[self.filled..end]);
        self.filled = end;
    }
}
