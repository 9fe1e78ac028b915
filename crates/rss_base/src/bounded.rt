// Bytes that take no memory.
ghost use Rattle.std.specs.Prelude.{◌≡◌, ◌+◌, ◌≤◌, [], ◌∷◌, ◌++◌, length};

use std::marker::Model;

/// At most `N` bytes, kept in place.
#[derive(Drop)]
pub struct BoundedBytes<const N: usize> {
    bytes: [u8; N],
    len: usize,
}

impl<const N: usize> Model for BoundedBytes<N> {
    ghost use Rattle.std.specs.Prelude.{◌≤◌, List, ℕ, take};

    ghost Value = { List ℕ };

    ghost view = { λ b. take b.len b.bytes };

    ghost invariant = { λ b. b.len ≤ N };
}

impl<const N: usize> BoundedBytes<N> {
    /// No bytes.
    pub fn new() -> Self
        ensures { result ≡ [] }
    {
        BoundedBytes {
            bytes: [0; N],
            len: 0,
        }
    }

    pub fn push(&mut self, byte: u8)
        requires { length self.old + 1 ≤ N }
        ensures { self.new ≡ self.old ++ byte ∷ [] }
    {
        self.bytes[self.len] = byte;
        self.len += 1;
    }

    /// Puts these bytes after those that are there.
    pub fn extend_from_slice(&mut self, bytes: &[u8])
        requires { length self.old + length bytes.now ≤ N }
        ensures { self.new ≡ self.old ++ bytes.now }
    {
        let end = self.len + bytes.len();
        let all = &mut self.bytes[..];
        all[self.len..end].copy_from_slice(bytes);
        self.len = end;
    }

    /// Takes all bytes out. None of them is zeroed.
    pub fn clear(&mut self)
        ensures { self.new ≡ [] }
    {
        self.len = 0;
    }

    pub fn as_slice(&self) -> &[u8]
        ensures bytes { result.now ≡ self.now }
        ensures short { length self.now ≤ N }
    {
        &self.bytes[..self.len]
    }
}

/// How many bytes the longest body of a tuple has.
pub const BODY_BYTES: usize = 2400;

/// The bytes of a tuple, as they stand in a page.
pub type Body = BoundedBytes<BODY_BYTES>;

/// How many bytes the longest key of an image has.
pub const KEY_BYTES: usize = 120;

/// The bytes by which an image orders its tuples.
pub type Key = BoundedBytes<KEY_BYTES>;
