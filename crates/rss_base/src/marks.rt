// Open transactions, as a checkpoint names them.
ghost use Rattle.std.specs.Prelude.{◌≡◌, ◌+◌, ◌≤◌, [], ◌∷◌, ◌++◌, length};

use std::marker::Model;

/// How many transactions may be open at a time.
pub const MARKS_MOST: usize = 32;

/// The open transactions of a checkpoint, each with the position of its first change that survives:
/// at most 32 pairs, kept in place.
#[derive(Drop)]
pub struct Marks {
    pairs: [(u32, u64); MARKS_MOST],
    len: usize,
}

impl Model for Marks {
    ghost use Rattle.std.specs.Prelude.{◌≤◌, List, ℕ, take};

    ghost Value = { List (ℕ × ℕ) };

    ghost view = { λ m. take m.len m.pairs };

    ghost invariant = { λ m. m.len ≤ 32 };
}

impl Marks {
    /// No transaction.
    pub fn new() -> Self
        ensures { result ≡ [] }
    {
        Marks {
            pairs: [(0, 0); MARKS_MOST],
            len: 0,
        }
    }

    pub fn push(&mut self, mark: (u32, u64))
        requires { length self.old + 1 ≤ 32 }
        ensures { self.new ≡ self.old ++ mark ∷ [] }
    {
        self.pairs[self.len] = mark;
        self.len += 1;
    }

    pub fn as_slice(&self) -> &[(u32, u64)]
        ensures marks { result.now ≡ self.now }
        ensures few { length self.now ≤ 32 }
    {
        &self.pairs[..self.len]
    }
}
