// The calls on transactions.
ghost use Rattle.std.specs.Prelude.{◌≡◌, ◌<◌, length, IsErrOf, OnOk};
ghost use Rattle.rss_base.specs.declared.answer.CallError.TheVariants.{NoMemory};
ghost use Rattle.rss_base.specs.declared.call.Call.TheVariants.{Begin, Save, Restore, End, Abort, Checkpoint};
ghost use Rattle.rss_stored.specs.Calls.{calls_most};
ghost use Rattle.rss_trans.specs.Transactions.{transaction_in};

use crate::Rss;
use rss_base::{CallError, Reply};
use rss_buffer::Saving;

impl<S: Saving> Rss<S> {
    ghost use Rattle.rss_stored.specs.Calls.{IsCallOf};
    ghost use Rattle.rss_rsi.specs.Parts.{view, parts_of, session_of, store_of};
    ghost use Rattle.rss_rsi.specs.Saving.{HasCheckpointOf};

    /// Begins a transaction.
    pub fn begin(&mut self, transaction: u32) -> Result<Reply, CallError>
        requires few { (view self.old).calls < calls_most }
        ensures did { IsCallOf (view self.old) (view self.new) (Begin transaction) result }
        ensures untouched { ((view self.old).is_up → ⊥) → self.new ≡ self.old }
    {
        self.ask()?;
        self.session.test_begin(transaction)?;
        let Ok(()) = self.session.begin(transaction) else {
            return Err(CallError::NoMemory);
        };
        Ok(Reply::Ok)
    }

    /// Sets a save point, and answers its number.
    pub fn save(&mut self, transaction: u32) -> Result<Reply, CallError>
        requires few { (view self.old).calls < calls_most }
        ensures did { IsCallOf (view self.old) (view self.new) (Save transaction) result }
        ensures untouched { ((view self.old).is_up → ⊥) → self.new ≡ self.old }
    {
        self.ask()?;
        self.session.test_open(transaction)?;
        let Ok(save) = self.session.save(transaction) else {
            return Err(CallError::NoMemory);
        };
        Ok(Reply::Number(save))
    }

    /// Takes a transaction back to a save point, 0 being its begin.
    pub fn restore(&mut self, transaction: u32, save: u32) -> Result<Reply, CallError>
        requires few { (view self.old).calls < calls_most }
        ensures did { IsCallOf (view self.old) (view self.new) (Restore transaction save) result }
        ensures untouched { ((view self.old).is_up → ⊥) → self.new ≡ self.old }
        ensures memory { IsErrOf result NoMemory → ⊥ }
    {
        self.ask()?;
        self.session.test_open(transaction)?;
        self.session.test_save(transaction, save)?;
        self.down = true;
        self.session.restore(transaction, save)?;
        self.down = false;
        Ok(Reply::Ok)
    }

    /// Ends a transaction: its changes are committed. If it changed nothing, nothing is written.
    pub fn end(&mut self, transaction: u32) -> Result<Reply, CallError>
        requires few { (view self.old).calls < calls_most }
        ensures did { IsCallOf (view self.old) (view self.new) (End transaction) result }
        ensures untouched { ((view self.old).is_up → ⊥) → self.new ≡ self.old }
        ensures memory { IsErrOf result NoMemory → ⊥ }
        ensures still { length (transaction_in (session_of self.old).opened transaction).changes ≡ 0
            → store_of self.new ≡ store_of self.old }
    {
        self.ask()?;
        self.session.test_open(transaction)?;
        self.down = true;
        self.session.commit(transaction)?;
        self.locks.release_all(transaction);
        self.scans.close_all(transaction);
        self.down = false;
        Ok(Reply::Ok)
    }

    /// Undoes all changes of a transaction, and lets it go.
    pub fn abort(&mut self, transaction: u32) -> Result<Reply, CallError>
        requires few { (view self.old).calls < calls_most }
        ensures did { IsCallOf (view self.old) (view self.new) (Abort transaction) result }
        ensures untouched { ((view self.old).is_up → ⊥) → self.new ≡ self.old }
        ensures memory { IsErrOf result NoMemory → ⊥ }
    {
        self.ask()?;
        self.session.test_open(transaction)?;
        self.down = true;
        self.session.abort(transaction)?;
        self.locks.release_all(transaction);
        self.scans.close_all(transaction);
        self.down = false;
        Ok(Reply::Ok)
    }

    /// Takes a checkpoint, from which on the log is kept: all pages come to the device. It is
    /// refused if what is free after it is less than what is owed to the changes of open
    /// transactions.
    pub fn checkpoint(&mut self) -> Result<Reply, CallError>
        requires few { (view self.old).calls < calls_most }
        ensures did { IsCallOf (view self.old) (view self.new) Checkpoint result }
        ensures saves { OnOk result (HasCheckpointOf (parts_of self.old) (parts_of self.new)) }
        ensures untouched { ((view self.old).is_up → ⊥) → self.new ≡ self.old }
        ensures memory { IsErrOf result NoMemory → ⊥ }
    {
        self.ask()?;
        self.session.test_checkpoint()?;
        self.down = true;
        self.session.checkpoint()?;
        self.down = false;
        Ok(Reply::Ok)
    }
}
