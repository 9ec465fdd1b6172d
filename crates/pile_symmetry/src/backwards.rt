//! Bytes that are written from the last of them to the first.
ghost use Rattle.std.specs.Prelude.{◌≡◌, ◌+◌, ◌<◌, [], ◌∷◌, take, length};

use std::marker::Model;

/// At most 176 bytes, to which each new byte comes as the first.
#[derive(Drop)]
pub(crate) struct Backwards {
    /// The bytes stand from `start` up to 176, and eight more behind them say nothing.
    bytes: [u8; 184],
    start: usize,
}

impl Model for Backwards {
    ghost use Rattle.std.specs.Prelude.{ℕ, ◌≡◌, ◌-◌, ◌≤◌, List, take, drop, length};

    ghost Value = { List ℕ };

    ghost view = { λ b. take (176 - b.start) (drop b.start b.bytes) };

    ghost invariant = { λ b. (b.start ≤ 176) × (length b.bytes ≡ 184) };
}

impl Backwards {
    pub(crate) fn new() -> Backwards
        ensures { result ≡ [] }
    {
        Backwards {
            bytes: [0; 184],
            start: 176,
        }
    }

    /// Puts a byte before all others.
    pub(crate) fn put(&mut self, byte: u8)
        requires { length self.old < 176 }
        ensures { self.new ≡ byte ∷ self.old }
    {
        let start = self.start - 1;
        self.bytes[start] = byte;
        self.start = start;
    }

    /// The bytes.
    pub(crate) fn bytes(&self) -> &[u8]
        ensures { result.now ≡ self.now }
    {
        &self.bytes[self.start..176]
    }

    /// The bytes, and eight more that say nothing.
    pub(crate) fn padded(&self) -> &[u8]
        ensures bytes { take (length self.now) result.now ≡ self.now }
        ensures more { length result.now ≡ length self.now + 8 }
    {
        &self.bytes[self.start..]
    }
}
