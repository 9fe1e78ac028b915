// Ways back.
ghost use Rattle.std.specs.Prelude.{◌≡◌, ◌≤◌, ℕ, List, true, length, Err, IfOk, OnOk};
ghost use Rattle.rss_base.specs.DiskRule.{IsTold};
ghost use Rattle.rss_base.specs.declared.fault.PageFault.TheVariants.{Damaged};
ghost use Rattle.rss_base.specs.declared.place.Place.{Place as AnyPlace};
ghost use Rattle.rss_model.specs.Machine.{State};
ghost use Rattle.rss_model.specs.Meter.{restore_size, end_size};
ghost use Rattle.rss_model.specs.Kept.{Kept};
ghost use Rattle.rss_model.specs.Steps.{left_at};
ghost use Rattle.rss_trans.specs.Transactions.{is_open, transaction_in};
ghost use Rattle.rss_session.specs.Sessions.{IsReady, IsEarly};
ghost use Rattle.rss_session.specs.Shown.{Shows};
ghost use Rattle.rss_session.specs.Calls.{GoesOn, Appends, KeepsTables, HasMarks, Restores, Aborts, ShowsNone};
ghost use Rattle.rss_session.specs.Calls.{NoMoreSaves, StayOpen, StaysListed, OthersStayOpen, TakesBack, GoesBack, HasNewest, TakesNewest, TakesBackOne};
ghost use Rattle.rss_store.specs.Changing.{AltersPages, MayNotTakeBack};

use crate::Session;
use rss_base::PageFault;
use rss_buffer::Saving;

impl<S: Saving> Session<S> {
    ghost use Rattle.rss_session.specs.Parts.{view};

    /// Takes a transaction back to a save point, 0 being its begin: undoes its changes since then, the
    /// newest first. Later save points are gone, and this one stays. It takes no memory.
    pub fn restore(&mut self, transaction: u32, save: u32) -> Result<(), PageFault>
        requires ready { IsReady (view S.view self.old) }
        requires open { is_open (view S.view self.old).opened transaction ≡ true }
        requires save { save ≤ length (transaction_in (view S.view self.old).opened transaction).saves }
        requires early { IsEarly (view S.view self.old) restore_size }
        ensures ready { OnOk result (IsReady (view S.view self.new)) }
        ensures shows { OnOk result (IsTold (view S.view self.old).store.pages.disk → (state : State)
            (marks : List ℕ) → Kept state → HasMarks state transaction marks
            → Shows (view S.view self.old) state
            → Restores (view S.view self.new) state transaction save marks) }
        ensures sound { (place : AnyPlace) → result ≡ Err (Damaged place)
            → IsTold (view S.view self.old).store.pages.disk → ShowsNone (view S.view self.old) }
        ensures moments { KeepsTables (view S.view self.old) (view S.view self.new) }
        ensures stay { OnOk result (StayOpen (view S.view self.old) (view S.view self.new)) }
        ensures listed { OnOk result (StaysListed (view S.view self.old) (view S.view self.new)) }
        ensures appends { Appends restore_size (view S.view self.old) (view S.view self.new) }
        ensures goes { GoesOn (view S.view self.old) (view S.view self.new) result }
    {
        let first = self.undo_after(transaction, save)?;
        self.open.cut(transaction, save);
        if let Some(first) = first {
            self.store.cut(transaction, first);
        }
        Ok(())
    }

    /// Undoes all changes of a transaction, the newest first, and lets it go. It takes no memory.
    pub fn abort(&mut self, transaction: u32) -> Result<(), PageFault>
        requires ready { IsReady (view S.view self.old) }
        requires open { is_open (view S.view self.old).opened transaction ≡ true }
        requires early { IsEarly (view S.view self.old) end_size }
        ensures ready { OnOk result (IsReady (view S.view self.new)) }
        ensures shows { OnOk result (IsTold (view S.view self.old).store.pages.disk → (state : State)
            → Kept state → Shows (view S.view self.old) state
            → Aborts (view S.view self.new) state transaction) }
        ensures sound { (place : AnyPlace) → result ≡ Err (Damaged place)
            → IsTold (view S.view self.old).store.pages.disk → ShowsNone (view S.view self.old) }
        ensures moments { KeepsTables (view S.view self.old) (view S.view self.new) }
        ensures others { OnOk result
            (OthersStayOpen transaction (view S.view self.old) (view S.view self.new)) }
        ensures listed { OnOk result (StaysListed (view S.view self.old) (view S.view self.new)) }
        ensures appends { Appends end_size (view S.view self.old) (view S.view self.new) }
        ensures goes { GoesOn (view S.view self.old) (view S.view self.new) result }
    {
        let first = self.undo_after(transaction, 0)?;
        self.open.gone(transaction);
        if first.is_some() {
            self.store.abort(transaction);
        }
        Ok(())
    }

    /// Undoes a transaction's changes since a save point, the newest first. Answers the position of
    /// the oldest of them, if there is one.
    fn undo_after(&mut self, transaction: u32, save: u32) -> Result<Option<u64>, PageFault>
        requires ready { IsReady (view S.view self.old) }
        requires open { is_open (view S.view self.old).opened transaction ≡ true }
        requires save { save ≤ length (transaction_in (view S.view self.old).opened transaction).saves }
        ensures ready { OnOk result (IsReady (view S.view self.new)) }
        ensures takes { IfOk result
            (TakesBack transaction save (view S.view self.old) (view S.view self.new)) }
        ensures back { IfOk result (λ first. IsTold (view S.view self.old).store.pages.disk
            → (state : State) (marks : List ℕ) → Kept state → HasMarks state transaction marks
            → Shows (view S.view self.old) state
            → GoesBack (view S.view self.new) state transaction (left_at marks save) first) }
        ensures sound { (place : AnyPlace) → result ≡ Err (Damaged place)
            → IsTold (view S.view self.old).store.pages.disk → ShowsNone (view S.view self.old) }
        ensures moments { KeepsTables (view S.view self.old) (view S.view self.new) }
        ensures appends { Appends 0 (view S.view self.old) (view S.view self.new) }
        ensures goes { GoesOn (view S.view self.old) (view S.view self.new) result }
    {
        let mut first = None;
        while let Some(position) = self.open.newest(transaction, save) {
            self.undo_newest(transaction, position)?;
            first = Some(position);
        }
        Ok(first)
    }

    /// Undoes a transaction's newest change, whose record begins at this position.
    fn undo_newest(&mut self, transaction: u32, position: u64) -> Result<(), PageFault>
        requires ready { IsReady (view S.view self.old) }
        requires open { is_open (view S.view self.old).opened transaction ≡ true }
        requires newest { HasNewest (view S.view self.old).opened transaction position }
        ensures ready { OnOk result (IsReady (view S.view self.new)) }
        ensures takes { OnOk result
            (TakesNewest transaction (view S.view self.old) (view S.view self.new)) }
        ensures back { OnOk result (IsTold (view S.view self.old).store.pages.disk
            → TakesBackOne (view S.view self.old) (view S.view self.new) transaction position) }
        ensures sound { (place : AnyPlace) → result ≡ Err (Damaged place)
            → IsTold (view S.view self.old).store.pages.disk
            → MayNotTakeBack (view S.view self.old).store position }
        ensures log { (view S.view self.new).store.log ≡ (view S.view self.old).store.log }
        ensures saves { NoMoreSaves (view S.view self.old) (view S.view self.new) }
        ensures did { AltersPages (view S.view self.old).store (view S.view self.new).store result }
    {
        self.store.undo(position)?;
        self.open.take_newest(transaction);
        Ok(())
    }
}
