// Which changes of each transaction are kept, as the records behind them say.
ghost use Rattle.std.specs.Prelude.{◌≡◌, ℕ, IfOk, OnOk, if◌then◌else◌, ◌==◌};
ghost use Rattle.rss_restart.specs.Events.{bound, every, passed};

use std::alloc::{AllocError, Global};
use std::collections::HashMap;

/// What a record says, as far as it decides which changes are kept. All but the last begin with the
/// number of their transaction.
#[derive(Clone, Copy)]
pub(crate) enum Event {
    Change(u32),
    Restore(u32, u64),
    End(u32),
    Abort(u32),
    Checkpoint,
}

/// Above the position of each record.
const EVERY: u64 = u64::MAX;

/// For each transaction the position below which its changes are kept, as far as a walk back through
/// the records has come.
#[derive(Drop)]
pub(crate) struct Bounds {
    /// That of a transaction of which no record was met.
    unmet: u64,
    /// That of one in front of its End record.
    ended: u64,
    /// Those of the other ones.
    met: HashMap<u32, u64>,
}

impl Bounds {
    /// For the changes that survive: none of a transaction of which nothing is met, and all in front
    /// of its End record.
    pub(crate) fn of_survival(alloc: Global) -> Self
        ensures none { (t : ℕ) → bound result t ≡ 0 }
        ensures ended { result.ended ≡ every }
    {
        Bounds {
            unmet: 0,
            ended: EVERY,
            met: HashMap::new(alloc),
        }
    }

    /// For the changes that are listed: all of a transaction of which nothing is met, and none in
    /// front of its End record.
    pub(crate) fn of_lists(alloc: Global) -> Self
        ensures all { (t : ℕ) → bound result t ≡ every }
        ensures ended { result.ended ≡ 0 }
    {
        Bounds {
            unmet: EVERY,
            ended: 0,
            met: HashMap::new(alloc),
        }
    }

    /// The transaction's changes below this position are kept.
    pub(crate) fn of(&self, by: u32) -> u64
        ensures { result ≡ bound self.now by }
    {
        match self.met.get(&by) {
            Some(position) => *position,
            None => self.unmet,
        }
    }

    /// Goes back over a record.
    pub(crate) fn pass(&mut self, event: Event) -> Result<(), AllocError>
        ensures passed { OnOk result ((t : ℕ) →
            bound self.new t ≡ passed self.old.ended event t (bound self.old t)) }
        ensures ended { self.new.ended ≡ self.old.ended }
    {
        match event {
            Event::Change(_) | Event::Checkpoint => Ok(()),
            Event::Restore(by, first) => self.set(by, self.of(by).min(first)),
            Event::End(by) => self.set(by, self.ended),
            Event::Abort(by) => self.set(by, 0),
        }
    }

    fn set(&mut self, by: u32, position: u64) -> Result<(), AllocError>
        ensures set { OnOk result ((t : ℕ) →
            bound self.new t ≡ (if t == by then position else bound self.old t)) }
        ensures ended { self.new.ended ≡ self.old.ended }
    {
        self.met.insert(by, position)?;
        Ok(())
    }
}
