// Begins, save points and ends.
ghost use Rattle.std.specs.Prelude.{◌≡◌, ◌⊎◌, ◌+◌, ◌^◌, ◌<◌, ◌≤◌, ℕ, List, true, false, length, Err, IfOk, OnOk, OnErr};
ghost use Rattle.std.specs.FinMap.{len};
ghost use Rattle.rss_base.specs.DiskRule.{IsTold, WritesIn};
ghost use Rattle.rss_base.specs.declared.fault.PageFault.TheVariants.{Damaged};
ghost use Rattle.rss_base.specs.declared.place.Place.{Place as AnyPlace};
ghost use Rattle.rss_model.specs.Machine.{State};
ghost use Rattle.rss_model.specs.Meter.{end_size};
ghost use Rattle.rss_model.specs.Kept.{Kept, FitMixed};
ghost use Rattle.rss_model.specs.Steps.{begun, with_save, committing};
ghost use Rattle.rss_trans.specs.Transactions.{is_open, transaction_in};
ghost use Rattle.rss_store.specs.Commits.{IsEndPlace, new_pieces};
ghost use Rattle.rss_session.specs.Sessions.{IsReady, IsEarly};
ghost use Rattle.rss_session.specs.Shown.{Shows};
ghost use Rattle.rss_session.specs.Calls.{GoesOnIf, NoMoreSaves, OneSaveMore, StayOpen, OthersStayOpen, Appends, CommitsTables};
ghost use Rattle.rss_session.specs.Calls.{HasMarks};

use crate::Session;
use rss_base::PageFault;
use rss_buffer::Saving;
use std::alloc::AllocError;

impl<S: Saving> Session<S> {
    ghost use Rattle.rss_session.specs.Parts.{view};

    /// Opens a transaction. At most 32 are open at a time.
    pub fn begin(&mut self, transaction: u32) -> Result<(), AllocError>
        requires ready { IsReady (view S.view self.old) }
        requires closed { is_open (view S.view self.old).opened transaction ≡ false }
        requires few { len (view S.view self.old).opened.transactions < 32 }
        ensures ready { IsReady (view S.view self.new) }
        ensures begins { OnOk result ((state : State) → Shows (view S.view self.old) state
            → Shows (view S.view self.new) (begun transaction state)) }
        ensures same { OnErr result ((state : State) → Shows (view S.view self.old) state
            → Shows (view S.view self.new) state) }
        ensures saves { NoMoreSaves (view S.view self.old) (view S.view self.new) }
        ensures stay { StayOpen (view S.view self.old) (view S.view self.new) }
        ensures store { self.new.store ≡ self.old.store }
    {
        self.open.begin(transaction)
    }

    /// Sets a save point, and answers its number.
    pub fn save(&mut self, transaction: u32) -> Result<u32, AllocError>
        requires ready { IsReady (view S.view self.old) }
        requires open { is_open (view S.view self.old).opened transaction ≡ true }
        requires few { length (transaction_in (view S.view self.old).opened transaction).saves + 1 < 2 ^ 32 }
        ensures ready { IsReady (view S.view self.new) }
        ensures saves { IfOk result (λ save. (state : State) (marks : List ℕ)
            → HasMarks state transaction marks → Shows (view S.view self.old) state
            → (save ≡ length marks + 1)
            × Shows (view S.view self.new) (with_save transaction marks state)) }
        ensures same { OnErr result ((state : State) → Shows (view S.view self.old) state
            → Shows (view S.view self.new) state) }
        ensures more { OneSaveMore (view S.view self.old) (view S.view self.new) }
        ensures stay { StayOpen (view S.view self.old) (view S.view self.new) }
        ensures store { self.new.store ≡ self.old.store }
    {
        self.open.save(transaction)
    }

    /// Ends a transaction: its changes are committed. If it has none, nothing is written. It takes
    /// no memory.
    ///
    /// At each moment a stop leaves the committed tables of before, or those with its changes;
    /// after `Ok` only those with its changes.
    pub fn commit(&mut self, transaction: u32) -> Result<(), PageFault>
        requires ready { IsReady (view S.view self.old) }
        requires open { is_open (view S.view self.old).opened transaction ≡ true }
        requires early { IsEarly (view S.view self.old) end_size }
        ensures ready { OnOk result (IsReady (view S.view self.new)) }
        ensures shows { OnOk result (IsTold (view S.view self.old).store.pages.disk → (state : State)
            → Kept state → FitMixed (committing transaction state)
            → Shows (view S.view self.old) state
            → Shows (view S.view self.new) (committing transaction state)) }
        ensures sound { (place : AnyPlace) → result ≡ Err (Damaged place)
            → IsTold (view S.view self.old).store.pages.disk → ⊥ }
        ensures moments { CommitsTables (view S.view self.old) (view S.view self.new) transaction }
        ensures only { WritesIn
            (IsEndPlace (view S.view self.old).store.number (view S.view self.old).store.root
            (view S.view self.new).store.log.end)
            (view S.view self.old).store.pages.disk (view S.view self.new).store.pages.disk }
        ensures writes { (view S.view self.new).store.pages.writes
            ≤ (view S.view self.old).store.pages.writes + new_pieces (view S.view self.old).store.root
            ((view S.view self.old).store.log.end + end_size) + 2 }
        ensures asks { (view S.view self.new).store.pages.asks
            ≡ (view S.view self.old).store.pages.asks }
        ensures still { length (transaction_in (view S.view self.old).opened transaction).changes ≡ 0
            → self.new.store ≡ self.old.store }
        ensures others { OthersStayOpen transaction (view S.view self.old) (view S.view self.new) }
        ensures catalog { (view S.view self.new).store.catalog
            ≡ (view S.view self.old).store.catalog }
        ensures appends { Appends end_size (view S.view self.old) (view S.view self.new) }
        ensures checkpoint { (view S.view self.new).store.root.checkpoint
            ≡ (view S.view self.old).store.root.checkpoint }
        ensures goes { GoesOnIf ⊥ (view S.view self.old) (view S.view self.new) result }
    {
        let changed = self.open.newest(transaction, 0).is_some();
        self.open.gone(transaction);
        if !changed {
            return Ok(());
        }
        self.store.commit(transaction)
    }
}
