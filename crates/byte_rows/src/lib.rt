//! Rows of bytes in one list of bytes, which only grows.
//!
//! Means: the list of the rows, each a list of bytes.
//! Above: a table of keys keeps each key's bytes once, and beside them the four bytes of its end.
//! Refuses: `push` for want of memory alone, and then the rows are as before.
//! Not promised: room that is kept for more rows. It doubles where it is used up.
#![tactic(auto)]

ghost use Rattle.std.specs.Prelude.{◌≡◌, ◌<◌, ◌≤◌, ◌+◌, ◌^◌, [], ◌∷◌, ◌++◌, length, slice_index, slice_index_or, slice_range};
ghost use Rattle.std.specs.Prelude.{OnOk, OnErr, IsTrue, ◌↔◌};
ghost use Rattle.std.specs.List.{concat};

use std::alloc::{AllocError, Global};
use std::marker::Model;

/// Rows of bytes, fewer than 2^32 bytes together.
#[derive(Drop)]
pub struct ByteRows {
    bytes: Vec<u8>,
    /// For each row the place after its last byte.
    ends: Vec<u32>,
}

impl Model for ByteRows {
    ghost use Rattle.std.specs.Prelude.{ℕ, List};
    ghost use Rattle.byte_rows.specs.Laid.{rows_from, AreEnds};

    ghost Value = { List (List ℕ) };

    ghost view = { λ r. rows_from 0 r.bytes.items r.ends.items };

    ghost invariant = { λ r. AreEnds 0 r.bytes.items r.ends.items };
}

/// The place where a row begins: after the last byte of the one before it.
fn start_of(ends: &Vec<u32>, i: usize) -> usize
    requires { i < length ends.now.items }
    ensures { result ≡ slice_index (0 ∷ ends.now.items) i }
{
    if i == 0 {
        return 0;
    }
    ends[i - 1] as usize
}

/// Whether the bytes from one place to another are these.
fn is_part(bytes: &Vec<u8>, start: usize, end: usize, part: &[u8]) -> bool
    requires ordered { start ≤ end }
    requires within { end ≤ length bytes.now.items }
    ensures { IsTrue result ↔ (slice_range bytes.now.items start end ≡ part.now) }
{
    &bytes[start..end] == part
}

impl ByteRows {
    /// No row is there.
    pub fn new(alloc: Global) -> ByteRows
        ensures { result ≡ [] }
    {
        ByteRows {
            bytes: Vec::new(alloc),
            ends: Vec::new(alloc),
        }
    }

    /// How many rows there are.
    pub fn len(&self) -> usize
        ensures { result ≡ length self.now }
    {
        self.ends.len()
    }

    /// Adds a row after the others.
    pub fn push(&mut self, row: &[u8]) -> Result<(), AllocError>
        requires few { length (concat self.old) + length row.now < 2 ^ 32 }
        ensures added { OnOk result (self.new ≡ self.old ++ row.now ∷ []) }
        ensures unchanged { OnErr result (self.new ≡ self.old) }
    {
        // Room for the end first: after a refusal the rows are as before.
        self.ends.reserve(1)?;
        self.bytes.extend_from_slice(row)?;
        match self.ends.push(self.bytes.len() as u32) {
            Ok(()) => {}
            Err(_) => unreachable!(),
        }
        Ok(())
    }

    /// Whether the row of this number is this one.
    pub fn is_equal(&self, i: usize, row: &[u8]) -> bool
        requires there { i < length self.now }
        ensures { IsTrue result ↔ (slice_index_or self.now i [] ≡ row.now) }
    {
        let start = start_of(&self.ends, i);
        let end = self.ends[i] as usize;
        is_part(&self.bytes, start, end, row)
    }
}

#[cfg(test)]
mod tests;
