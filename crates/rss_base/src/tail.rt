// The last part of the log.
ghost use Rattle.std.specs.Prelude.{◌≡◌, ◌+◌, ◌<◌, [], ◌∷◌, ◌++◌, length};
ghost use Rattle.rss_base.specs.Sizes.{piece_bytes};

use std::marker::Model;

/// How many bytes of the log a piece has.
pub const PIECE_BYTES: usize = 4000;

/// The bytes of the log after its last full piece: fewer than a piece has.
#[derive(Drop)]
pub struct Tail {
    bytes: [u8; PIECE_BYTES],
    len: usize,
}

impl Model for Tail {
    ghost use Rattle.std.specs.Prelude.{◌<◌, List, ℕ, take};
    ghost use Rattle.rss_base.specs.Sizes.{piece_bytes};

    ghost Value = { List ℕ };

    ghost view = { λ t. take t.len t.bytes };

    ghost invariant = { λ t. t.len < piece_bytes };
}

impl Tail {
    /// No bytes.
    pub fn new() -> Self
        ensures { result ≡ [] }
    {
        Tail {
            bytes: [0; PIECE_BYTES],
            len: 0,
        }
    }

    /// These bytes.
    pub fn from_slice(bytes: &[u8]) -> Self
        requires { length bytes.now < piece_bytes }
        ensures { result ≡ bytes.now }
    {
        let mut piece = [0; PIECE_BYTES];
        piece[..bytes.len()].copy_from_slice(bytes);
        Tail {
            bytes: piece,
            len: bytes.len(),
        }
    }

    pub fn push(&mut self, byte: u8)
        requires { length self.old + 1 < piece_bytes }
        ensures { self.new ≡ self.old ++ byte ∷ [] }
    {
        self.bytes[self.len] = byte;
        self.len += 1;
    }

    pub fn as_slice(&self) -> &[u8]
        ensures bytes { result.now ≡ self.now }
        ensures short { length self.now < piece_bytes }
    {
        &self.bytes[..self.len]
    }
}
