// Changes, made and taken back.
ghost use Rattle.std.specs.Prelude.{◌≡◌, ◌≤◌, Err, IfOk, OnOk, OnErr};
ghost use Rattle.rss_base.specs.DiskRule.{IsTold};
ghost use Rattle.rss_base.specs.LogRecords.{record_size, IsChangeBounded};
ghost use Rattle.rss_base.specs.declared.log_record.LogRecord.TheVariants as records;
ghost use Rattle.rss_base.specs.declared.fault.PageFault.TheVariants.{Damaged};
ghost use Rattle.rss_base.specs.declared.place.Place.{Place as AnyPlace};
ghost use Rattle.rss_store.specs.Changing.{MakesChange, TakesBackOne, AltersPages, MayNotMake, MayNotTakeBack};
ghost use Rattle.rss_store.specs.Commits.{HasLogRoom};
ghost use Rattle.rss_store.specs.Stores.{IsReady, Grows};

use crate::DurableStore;
use rss_access::{apply, undo};
use rss_base::{Change, LogRecord, PageFault, Place};
use rss_buffer::Saving;
use rss_restart::change_at;

impl<S: Saving> DurableStore<S> {
    ghost use Rattle.rss_store.specs.Parts.{view};

    /// Makes a change of a transaction, and puts its record after the others. Answers the record's
    /// position.
    ///
    /// It takes no memory, and two home or overflow pages at most. If there is no room, or the
    /// tuple or its place in a chain isn't as the change tells it, which no device shows that tells
    /// its contents, the fault is `Damaged`.
    pub fn change(&mut self, transaction: u32, change: Change) -> Result<u64, PageFault>
        requires ready { IsReady (view S.view self.old) }
        requires bounded { IsChangeBounded change }
        requires room { HasLogRoom (view S.view self.old).log
            (record_size (records.Change transaction change)) (view S.view self.old).log.head }
        ensures ready { OnOk result (IsReady (view S.view self.new)) }
        ensures at { IfOk result (λ at. at ≡ (view S.view self.old).log.end) }
        ensures log { OnOk result (Grows (record_size (records.Change transaction change))
            (view S.view self.old).log (view S.view self.new).log) }
        ensures unlogged { OnErr result ((view S.view self.new).log ≡ (view S.view self.old).log) }
        ensures makes { OnOk result (IsTold (view S.view self.old).pages.disk
            → MakesChange (view S.view self.old) (view S.view self.new) transaction change) }
        ensures sound { (place : AnyPlace) → result ≡ Err (Damaged place)
            → IsTold (view S.view self.old).pages.disk
            → MayNotMake (view S.view self.old) transaction change }
        ensures did { AltersPages (view S.view self.old) (view S.view self.new) result }
    {
        apply(&mut self.tuples, &mut self.catalog, &change)?;
        Ok(self.log.append(&LogRecord::Change(transaction, change)))
    }

    /// Undoes the change whose record begins at this position. It takes no memory, and two home or
    /// overflow pages at most.
    ///
    /// If there is no room, the fault is `Damaged`. So it is if no such record begins there, or the
    /// tuple or its place in a chain isn't as it tells, but no device shows that which tells its
    /// contents.
    pub fn undo(&mut self, position: u64) -> Result<(), PageFault>
        requires ready { IsReady (view S.view self.old) }
        requires low { (view S.view self.old).log.head ≤ position }
        requires high { position ≤ (view S.view self.old).log.end }
        ensures ready { OnOk result (IsReady (view S.view self.new)) }
        ensures takes { OnOk result (IsTold (view S.view self.old).pages.disk
            → TakesBackOne (view S.view self.old) (view S.view self.new) position) }
        ensures sound { (place : AnyPlace) → result ≡ Err (Damaged place)
            → IsTold (view S.view self.old).pages.disk → MayNotTakeBack (view S.view self.old) position }
        ensures log { (view S.view self.new).log ≡ (view S.view self.old).log }
        ensures did { AltersPages (view S.view self.old) (view S.view self.new) result }
    {
        let Some(change) = change_at(&self.log, position) else {
            return Err(PageFault::Damaged(Place::Log(position)));
        };
        undo(&mut self.tuples, &mut self.catalog, &change)
    }
}
