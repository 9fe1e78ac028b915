// Transactions that wait for one another.
ghost use Rattle.std.specs.Prelude.{◌≡◌, ◌+◌, ◌≤◌, [], ◌∷◌, ◌++◌, length};

use std::marker::Model;

/// How many transactions may wait for one another at most: as many as may be open.
pub const CYCLE_MOST: usize = 32;

/// Transactions each of which waits for the next one, and the last for the first: at most 32 numbers,
/// kept in place.
#[derive(Drop)]
pub struct Cycle {
    members: [u32; CYCLE_MOST],
    len: usize,
}

impl Model for Cycle {
    ghost use Rattle.std.specs.Prelude.{◌≤◌, List, ℕ, take};

    ghost Value = { List ℕ };

    ghost view = { λ c. take c.len c.members };

    ghost invariant = { λ c. c.len ≤ 32 };
}

impl Cycle {
    /// No transaction.
    pub fn new() -> Self
        ensures { result ≡ [] }
    {
        Cycle {
            members: [0; CYCLE_MOST],
            len: 0,
        }
    }

    pub fn push(&mut self, member: u32)
        requires { length self.old + 1 ≤ 32 }
        ensures { self.new ≡ self.old ++ member ∷ [] }
    {
        self.members[self.len] = member;
        self.len += 1;
    }

    pub fn as_slice(&self) -> &[u32]
        ensures members { result.now ≡ self.now }
        ensures few { length self.now ≤ 32 }
    {
        &self.members[..self.len]
    }
}
