// The lines of one owner.
ghost use Rattle.std.specs.Prelude.{◌≡◌, ◌==◌, [], ◌∷◌, ◌++◌, length, drop, slice_get};
ghost use Rattle.std.specs.Prelude.{IfOk, OnOk, OnErr, option_copied};
ghost use Rattle.rss_wait.specs.Queues.{owner_of, number_of, free_owner};

use crate::held::Held;
use crate::waits::Waits;
use std::alloc::{AllocError, Global};
use std::collections::VecDeque;
use std::marker::Model;

/// The lines of one owner, the first one first.
#[derive(Drop)]
pub(crate) struct Queue {
    lines: VecDeque<Held>,
}

impl Model for Queue {
    ghost use Rattle.std.specs.Prelude.{List};
    ghost use Rattle.rss_wait.specs.declared.held.Held.{Held};

    ghost Value = { List Held };

    ghost view = { λ q. q.lines.items };
}

impl Queue {
    /// One line.
    pub(crate) fn new(alloc: Global, line: Held) -> Result<Self, AllocError>
        ensures { IfOk result (λ queue. queue ≡ line ∷ []) }
    {
        let mut lines = VecDeque::new(alloc);
        lines.push_back(line)?;
        Ok(Queue { lines })
    }

    pub(crate) fn push(&mut self, line: Held) -> Result<(), AllocError>
        ensures pushed { OnOk result (self.new ≡ self.old ++ line ∷ []) }
        ensures same { OnErr result (self.new ≡ self.old) }
    {
        self.lines.push_back(line)?;
        Ok(())
    }

    pub(crate) fn pop(&mut self) -> Option<Held>
        ensures first { result ≡ slice_get self.old 0 }
        ensures rest { self.new ≡ drop 1 self.old }
    {
        self.lines.pop_front()
    }

    pub(crate) fn first(&self) -> Option<&Held>
        ensures { option_copied result ≡ slice_get self.now 0 }
    {
        self.lines.front()
    }

    pub(crate) fn is_empty(&self) -> bool
        ensures { result ≡ (length self.now == 0) }
    {
        self.lines.is_empty()
    }

    pub(crate) fn owner(&self) -> Option<u32>
        ensures { result ≡ owner_of self.now }
    {
        self.first().map(|line| line.owner)
    }

    pub(crate) fn number(&self) -> Option<u32>
        ensures { result ≡ number_of self.now }
    {
        self.first().map(|line| line.number)
    }

    /// The owner, if it doesn't wait.
    pub(crate) fn free_owner(&self, waits: &Waits) -> Option<u32>
        ensures { result ≡ free_owner waits.now.waits self.now }
    {
        let owner = self.owner()?;
        if waits.waits(owner) {
            None
        } else {
            Some(owner)
        }
    }
}
