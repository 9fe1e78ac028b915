// The calls by which the disk is brought up to date.
ghost use Rattle.std.specs.Prelude.{◌≡◌, ◌⊎◌, ◌+◌, ◌*◌, ◌≤◌, OnOk, OnErr};
ghost use Rattle.rss_base.specs.DiskRule.{Pages as DevicePages, IsTold, Leaves, WritesIn, Passes};
ghost use Rattle.rss_base.specs.LogRecords.{record_size};
ghost use Rattle.rss_base.specs.declared.log_record.LogRecord.TheVariants as records;
ghost use Rattle.rss_base.specs.Paged.{Held, mapped_pages, WritesWaiting};
ghost use Rattle.rss_base.specs.Sizes.{format_version};
ghost use Rattle.rss_buffer.specs.Saving.{SavingCall};
ghost use Rattle.rss_buffer.specs.declared.stage.Stage.{Stage as AnyStage};
ghost use Rattle.rss_model.specs.Machine.{State};
ghost use Rattle.rss_model.specs.Meter.{end_size};
ghost use Rattle.rss_stored.specs.LogLaws.{committed_now};
ghost use Rattle.rss_stored.specs.Store.{Stored, size_of, IsStore};
ghost use Rattle.rss_store.specs.Commits.{HasLogRoom, IsEndPlace, MayCommit, CanCheckpoint};
ghost use Rattle.rss_store.specs.Commits.{IsSavedStore, CommitsPages, Saves, SamePages, least_mark, new_pieces};
ghost use Rattle.rss_store.specs.Commits.{changed_with, other_writes, StandsAtCheckpoint};
ghost use Rattle.rss_store.specs.Selecting.{CanSelect, IsNextStore, Selects};
ghost use Rattle.rss_store.specs.Shown.{HoldsTables, Shows};
ghost use Rattle.rss_store.specs.Stores.{IsReady, IsSaved, Grows};

use crate::DurableStore;
use crate::writing::{tail_of, write_pieces};
use rss_base::{LogRecord, Marks, PageFault, Root, VERSION};
use rss_buffer::Saving;

impl<S: Saving> DurableStore<S> {
    ghost use Rattle.rss_store.specs.Parts.{view};

    /// Ends a transaction: puts its End record after the others, writes the pieces of the log that
    /// became full since a root was written, and selects the other root with the rest of the log.
    /// No data slot and no map area is written, and the root keeps its version.
    ///
    /// At each moment a stop leaves the store of before or the one with the transaction committed;
    /// after `Ok` only the one with it committed.
    pub fn commit(&mut self, transaction: u32) -> Result<(), PageFault>
        requires ready { IsReady (view S.view self.old) }
        requires room { HasLogRoom (view S.view self.old).log end_size
            (view S.view self.old).log.head }
        ensures ready { OnOk result (IsReady (view S.view self.new)) }
        ensures moments { IsTold (view S.view self.old).pages.disk → (state : State)
            → Shows (view S.view self.old) state → MayCommit transaction state
            → Passes (view S.view self.old).pages.disk (view S.view self.new).pages.disk
            (λ image. HoldsTables state.size state.base image
            ⊎ HoldsTables state.size (committed_now transaction state).base image) }
        ensures shows { OnOk result (IsTold (view S.view self.old).pages.disk → (state : State)
            → Shows (view S.view self.old) state → MayCommit transaction state
            → Shows (view S.view self.new) (committed_now transaction state)) }
        ensures only { WritesIn
            (IsEndPlace (view S.view self.old).number (view S.view self.old).root
            (view S.view self.new).log.end)
            (view S.view self.old).pages.disk (view S.view self.new).pages.disk }
        ensures writes { (view S.view self.new).pages.writes ≤ (view S.view self.old).pages.writes
            + new_pieces (view S.view self.old).root ((view S.view self.old).log.end + end_size) + 2 }
        ensures log { Grows end_size (view S.view self.old).log (view S.view self.new).log }
        ensures pages { OnOk result (SamePages (view S.view self.old).pages (view S.view self.new).pages) }
        ensures size { size_of (view S.view self.new).root ≡ size_of (view S.view self.old).root }
        ensures version { OnOk result
            ((view S.view self.new).root.version ≡ (view S.view self.old).root.version) }
        ensures checkpoint { (view S.view self.new).root.checkpoint
            ≡ (view S.view self.old).root.checkpoint }
        ensures did { CommitsPages (view S.view self.old).pages (view S.view self.new).pages result }
        ensures catalog { (view S.view self.new).catalog ≡ (view S.view self.old).catalog }
    {
        self.log.append(&LogRecord::End(transaction));
        let next = Root {
            version: self.root.version,
            slots: self.root.slots,
            log_pages: self.root.log_pages,
            area: self.root.area,
            head: self.root.head,
            checkpoint: self.root.checkpoint,
            end: self.log.end(),
            tail: tail_of(&self.log),
        };
        self.select(next)
    }

    /// Takes a checkpoint. It writes the pages of the catalog that have changed, and saves all
    /// pages and their map to where no stop finds them. It puts a Checkpoint record after the
    /// others that names these transactions, each with the position of its first change. It selects
    /// the other root, with the newest version, with this map and with the log from the least of
    /// these positions on.
    ///
    /// At each moment a stop leaves the store of before or that of the checkpoint; after `Ok` only
    /// that of the checkpoint.
    pub fn checkpoint(&mut self, marks: Marks) -> Result<(), PageFault>
        requires ready { IsReady (view S.view self.old) }
        requires half { 2 * mapped_pages (view S.view self.old).pages.slots
            (view S.view self.old).pages.mapped ≤ (view S.view self.old).pages.slots }
        requires low { (view S.view self.old).log.head
            ≤ least_mark (view S.view self.old).log.end marks }
        requires room { HasLogRoom (view S.view self.old).log (record_size (records.Checkpoint marks))
            (least_mark (view S.view self.old).log.end marks) }
        ensures ready { OnOk result (IsReady (view S.view self.new)) }
        ensures moments { IsTold (view S.view self.old).pages.disk
            → (stored : Stored) (next : State)
            → CanCheckpoint (view S.view self.old) marks stored next
            → Passes (view S.view self.old).pages.disk (view S.view self.new).pages.disk
            (λ image. IsStore image stored ⊎ IsSavedStore (view S.view self.old) next image) }
        ensures shows { OnOk result (IsTold (view S.view self.old).pages.disk
            → (stored : Stored) (next : State)
            → CanCheckpoint (view S.view self.old) marks stored next
            → StandsAtCheckpoint (view S.view self.new) next) }
        ensures did { CommitsPages (view S.view self.old).pages (view S.view self.new).pages result }
        ensures writes { WritesWaiting
            (changed_with (view S.view self.old).pages (view S.view self.old).catalog)
            (other_writes (view S.view self.old) (record_size (records.Checkpoint marks)))
            (view S.view self.old).pages.writes (view S.view self.new).pages.writes }
        ensures saved { OnOk result (IsSaved (view S.view self.new)) }
        ensures saves { OnOk result (Saves marks (view S.view self.old) (view S.view self.new)) }
        ensures appends { (view S.view self.new).log.end
            ≤ (view S.view self.old).log.end + record_size (records.Checkpoint marks) }
        ensures size { size_of (view S.view self.new).root ≡ size_of (view S.view self.old).root }
        ensures version { OnOk result ((view S.view self.new).root.version ≡ format_version) }
        ensures listing { (view S.view self.new).catalog.listing
            ≡ (view S.view self.old).catalog.listing }
    {
        let head = least_mark(&marks, self.log.end());
        self.catalog.store(&mut self.tuples.pages)?;
        let area = 1 - self.root.area;
        self.tuples.pages.save(area)?;
        let checkpoint = self.log.append(&LogRecord::Checkpoint(marks));
        let next = Root {
            version: VERSION,
            slots: self.root.slots,
            log_pages: self.root.log_pages,
            area,
            head,
            checkpoint,
            end: self.log.end(),
            tail: tail_of(&self.log),
        };
        self.select(next)?;
        self.log.set_head(head);
        self.tuples.pages.adopt();
        Ok(())
    }

    /// Writes the pieces of the log that became full, and selects this root in place of the other.
    ///
    /// At each moment a stop leaves the store of before or the one of this root; after `Ok` only
    /// the one of this root.
    fn select(&mut self, next: Root) -> Result<(), PageFault>
        requires { CanSelect (view S.view self.old) next }
        ensures moments { IsTold (view S.view self.old).pages.disk
            → (stored after : Stored) (held : Held)
            → IsNextStore (view S.view self.old) next stored after held
            → Passes (view S.view self.old).pages.disk (view S.view self.new).pages.disk
            (λ image. IsStore image stored ⊎ IsStore image after) }
        ensures leaves { OnOk result (IsTold (view S.view self.old).pages.disk
            → (stored after : Stored) (held : Held)
            → IsNextStore (view S.view self.old) next stored after held → (image : DevicePages)
            → Leaves (view S.view self.new).pages.disk image → IsStore image after) }
        ensures only { WritesIn
            (IsEndPlace (view S.view self.old).number (view S.view self.old).root
            (view S.view self.old).log.end)
            (view S.view self.old).pages.disk (view S.view self.new).pages.disk }
        ensures writes { (view S.view self.new).pages.writes ≤ (view S.view self.old).pages.writes
            + new_pieces (view S.view self.old).root (view S.view self.old).log.end + 2 }
        ensures selected { OnOk result (Selects next (view S.view self.old) (view S.view self.new)) }
        ensures unselected { OnErr result
            ((view S.view self.new).root ≡ (view S.view self.old).root) }
        ensures stage { OnOk result
            ((S.saving self.old.tuples.pages).stage ≡ AnyStage.Saved next.area
            → (S.saving self.new.tuples.pages).stage ≡ AnyStage.Switched) }
        ensures size { size_of (view S.view self.new).root ≡ size_of (view S.view self.old).root }
        ensures log { (view S.view self.new).log ≡ (view S.view self.old).log }
        ensures catalog { (view S.view self.new).catalog ≡ (view S.view self.old).catalog }
        ensures did { SavingCall (view S.view self.old).pages (view S.view self.new).pages
            (S.saving self.old.tuples.pages) (S.saving self.new.tuples.pages) result }
    {
        write_pieces(&mut self.tuples.pages, &self.log, &self.root)?;
        self.number = self.tuples.pages.switch(self.number, &next)?;
        self.root = next;
        Ok(())
    }
}

/// The least of the marks' positions, or this one if there is none less.
pub(crate) fn least_mark(marks: &Marks, end: u64) -> u64
    ensures { result ≡ least_mark end marks.now }
{
    marks
        .as_slice()
        .iter()
        .fold(end, |least, mark| least.min(mark.1))
}
