// The records of ways back.
ghost use Rattle.std.specs.Prelude.{◌≡◌};
ghost use Rattle.rss_base.specs.DiskRule.{IsTold};
ghost use Rattle.rss_model.specs.Meter.{restore_size, end_size};
ghost use Rattle.rss_store.specs.Changing.{CutsAt, CutsAll};
ghost use Rattle.rss_store.specs.Commits.{HasLogRoom};
ghost use Rattle.rss_store.specs.Stores.{IsReady, Grows};

use crate::DurableStore;
use rss_base::LogRecord;
use rss_buffer::Saving;

impl<S: Saving> DurableStore<S> {
    ghost use Rattle.rss_store.specs.Parts.{view};

    /// Notes in the log that a transaction went back to before this position: its changes from
    /// there on were undone.
    pub fn cut(&mut self, transaction: u32, position: u64)
        requires ready { IsReady (view S.view self.old) }
        requires room { HasLogRoom (view S.view self.old).log restore_size (view S.view self.old).log.head }
        ensures ready { IsReady (view S.view self.new) }
        ensures cuts { IsTold (view S.view self.old).pages.disk
            → CutsAt (view S.view self.old) (view S.view self.new) transaction position }
        ensures log { Grows restore_size (view S.view self.old).log (view S.view self.new).log }
        ensures pages { self.new.tuples.pages ≡ self.old.tuples.pages }
        ensures catalog { (view S.view self.new).catalog ≡ (view S.view self.old).catalog }
        ensures root { (view S.view self.new).root ≡ (view S.view self.old).root }
    {
        self.log.append(&LogRecord::Restore(transaction, position));
    }

    /// Notes in the log that a transaction went back to its begin and is open no longer: its
    /// changes were undone.
    pub fn abort(&mut self, transaction: u32)
        requires ready { IsReady (view S.view self.old) }
        requires room { HasLogRoom (view S.view self.old).log end_size (view S.view self.old).log.head }
        ensures ready { IsReady (view S.view self.new) }
        ensures cuts { IsTold (view S.view self.old).pages.disk
            → CutsAll (view S.view self.old) (view S.view self.new) transaction }
        ensures log { Grows end_size (view S.view self.old).log (view S.view self.new).log }
        ensures pages { self.new.tuples.pages ≡ self.old.tuples.pages }
        ensures catalog { (view S.view self.new).catalog ≡ (view S.view self.old).catalog }
        ensures root { (view S.view self.new).root ≡ (view S.view self.old).root }
    {
        self.log.append(&LogRecord::Abort(transaction));
    }
}
