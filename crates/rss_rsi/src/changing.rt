// Changes of tuples and of chains.
ghost use Rattle.std.specs.Prelude.{◌≡◌, ◌≤◌, true, false, OnOk};
ghost use Rattle.rss_base.specs.LogRecords.{IsChangeBounded};
ghost use Rattle.rss_trans.specs.Transactions.{is_open};
ghost use Rattle.rss_stored.specs.Calls.{calls_most};
ghost use Rattle.rss_session.specs.Calls.{StayOpen};
ghost use Rattle.rss_rsi.specs.Changing.{IsAsked, IsChangeOf};

use crate::Rss;
use rss_base::{CallError, Change};
use rss_buffer::Saving;

impl<S: Saving> Rss<S> {
    ghost use Rattle.rss_rsi.specs.Parts.{parts_of, session_of};

    /// Makes a change of a tuple or of a chain, if the rules on room and on the log let it through.
    /// Nothing is changed if they don't, nor if memory runs out.
    pub(crate) fn change(&mut self, transaction: u32, change: Change) -> Result<(), CallError>
        requires up { self.old.down ≡ false }
        requires asked { IsAsked (parts_of self.old) self.old.calls }
        requires few { self.old.calls ≤ calls_most }
        requires open { is_open (session_of self.old).opened transaction ≡ true }
        requires bounded { IsChangeBounded change }
        ensures did { IsChangeOf (session_of self.old) (session_of self.new)
            (self.new.down ≡ false) transaction change result }
        ensures stay { OnOk result (StayOpen (session_of self.old) (session_of self.new)) }
        ensures locks { self.new.locks ≡ self.old.locks }
        ensures scans { self.new.scans ≡ self.old.scans }
        ensures calls { self.new.calls ≡ self.old.calls }
    {
        let saves_first = self.session.weigh_change(transaction, &change)?;
        let Ok(()) = self.session.reserve(transaction) else {
            return Err(CallError::NoMemory);
        };
        self.down = true;
        self.session.make(transaction, change, saves_first)?;
        self.down = false;
        Ok(())
    }
}
