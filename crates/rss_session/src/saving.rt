// Checkpoints.
ghost use Rattle.std.specs.Prelude.{◌≡◌, ◌⊎◌, ◌≤◌, length, Err, OnOk};
ghost use Rattle.std.specs.FinMap.{empty};
ghost use Rattle.rss_base.specs.DiskRule.{IsTold, Passes};
ghost use Rattle.rss_base.specs.Sizes.{largest_checkpoint};
ghost use Rattle.rss_base.specs.declared.fault.PageFault.TheVariants.{Damaged};
ghost use Rattle.rss_base.specs.declared.place.Place.{Place as AnyPlace};
ghost use Rattle.rss_model.specs.Machine.{State};
ghost use Rattle.rss_model.specs.Kept.{Kept};
ghost use Rattle.rss_model.specs.Rules.{saved_now};
ghost use Rattle.rss_model.specs.Steps.{redefined};
ghost use Rattle.rss_stored.specs.Store.{Stored, IsStore};
ghost use Rattle.rss_model.specs.Tables.{Tables};
ghost use Rattle.rss_trans.specs.Transactions.{Checkpoints};
ghost use Rattle.rss_store.specs.Commits.{CanCheckpoint, IsSavedStore, StandsAtCheckpoint};
ghost use Rattle.rss_session.specs.Sessions.{IsReady, CanSave, IsEarly};
ghost use Rattle.rss_session.specs.Shown.{Shows};
ghost use Rattle.rss_base.specs.LogRecords.{marks_most};
ghost use Rattle.rss_session.specs.Weighing.{HasSavedRoom, MaySave, named};
ghost use Rattle.rss_session.specs.Calls.{ChecksOn, Appends, KeepsTables, CountsAnew, IsRedefined, RedefinesTables, ShowsNone};
ghost use Rattle.rss_store.specs.Stores.{IsSaved};

use crate::Session;
use crate::bounding::{entries_of, survived_of};
use rss_base::{MARKS_MOST, Marks, PageFault, Place};
use rss_buffer::Saving;

impl<S: Saving> Session<S> {
    ghost use Rattle.rss_session.specs.Parts.{view};

    /// Takes a checkpoint: brings the pages and the catalog to the disk as they are now, with a record
    /// that names the transactions that have changes. From then on the log is kept from the first of
    /// these changes on, or from this record.
    ///
    /// At each moment a stop leaves the committed tables.
    pub fn checkpoint(&mut self) -> Result<(), PageFault>
        requires ready { IsReady (view S.view self.old) }
        requires may { MaySave (view S.view self.old) }
        requires early { IsEarly (view S.view self.old) largest_checkpoint }
        ensures ready { OnOk result (IsReady (view S.view self.new)) }
        ensures shows { OnOk result (IsTold (view S.view self.old).store.pages.disk → (state : State)
            → Kept state → Shows (view S.view self.old) state
            → Shows (view S.view self.new) (record state { meter = saved_now state })) }
        ensures stands { OnOk result (IsTold (view S.view self.old).store.pages.disk → (state : State)
            → Kept state → Shows (view S.view self.old) state
            → StandsAtCheckpoint (view S.view self.new).store
            (record state { meter = saved_now state })) }
        ensures sound { (place : AnyPlace) → result ≡ Err (Damaged place)
            → IsTold (view S.view self.old).store.pages.disk → ShowsNone (view S.view self.old) }
        ensures moments { KeepsTables (view S.view self.old) (view S.view self.new) }
        ensures anew { OnOk result (CountsAnew (view S.view self.old) (view S.view self.new)) }
        ensures saved { OnOk result (IsSaved (view S.view self.new).store) }
        ensures asks { (view S.view self.new).store.pages.asks
            ≡ (view S.view self.old).store.pages.asks }
        ensures appends { Appends largest_checkpoint (view S.view self.old) (view S.view self.new) }
        ensures goes { ChecksOn (view S.view self.old) (view S.view self.new) result }
    {
        self.save_all()
    }

    /// Commits what is defined in the catalog now, if no transaction is open: a checkpoint.
    ///
    /// At each moment a stop leaves the committed tables of before or the next ones; after `Ok`
    /// only the next ones.
    pub fn redefine(&mut self) -> Result<(), PageFault>
        requires ready { CanSave (view S.view self.old) }
        requires closed { (view S.view self.old).opened.transactions ≡ empty }
        requires early { IsEarly (view S.view self.old) largest_checkpoint }
        ensures ready { OnOk result (IsReady (view S.view self.new)) }
        ensures shows { OnOk result (IsTold (view S.view self.old).store.pages.disk
            → (state : State) (next : Tables)
            → IsRedefined (view S.view self.old) state next
            → Shows (view S.view self.new) (redefined next state)) }
        ensures sound { (place : AnyPlace) → result ≡ Err (Damaged place)
            → IsTold (view S.view self.old).store.pages.disk
            → (state : State) (next : Tables)
            → IsRedefined (view S.view self.old) state next → ⊥ }
        ensures moments { RedefinesTables (view S.view self.old) (view S.view self.new) }
        ensures anew { OnOk result (CountsAnew (view S.view self.old) (view S.view self.new)) }
        ensures saved { OnOk result (IsSaved (view S.view self.new).store) }
        ensures asks { (view S.view self.new).store.pages.asks
            ≡ (view S.view self.old).store.pages.asks }
        ensures appends { Appends largest_checkpoint (view S.view self.old) (view S.view self.new) }
        ensures goes { ChecksOn (view S.view self.old) (view S.view self.new) result }
    {
        self.save_all()
    }

    /// Takes a checkpoint of what the pages spell by the catalog, if there is room after it;
    /// otherwise `Damaged`, which no device shows that tells its contents.
    fn save_all(&mut self) -> Result<(), PageFault>
        requires ready { CanSave (view S.view self.old) }
        requires may { MaySave (view S.view self.old) }
        requires early { IsEarly (view S.view self.old) largest_checkpoint }
        ensures ready { OnOk result (IsReady (view S.view self.new)) }
        ensures shows { OnOk result (IsTold (view S.view self.old).store.pages.disk
            → (stored : Stored) (next : State)
            → CanCheckpoint (view S.view self.old).store (named (view S.view self.old).opened) stored next
            → StandsAtCheckpoint (view S.view self.new).store next) }
        ensures moments { IsTold (view S.view self.old).store.pages.disk
            → (stored : Stored) (next : State)
            → CanCheckpoint (view S.view self.old).store (named (view S.view self.old).opened) stored next
            → Passes (view S.view self.old).store.pages.disk (view S.view self.new).store.pages.disk
            (λ image. IsStore image stored ⊎ IsSavedStore (view S.view self.old).store next image) }
        ensures sound { (place : AnyPlace) → result ≡ Err (Damaged place)
            → IsTold (view S.view self.old).store.pages.disk
            → HasSavedRoom (view S.view self.old) → ⊥ }
        ensures anew { OnOk result (CountsAnew (view S.view self.old) (view S.view self.new)) }
        ensures few { length (named (view S.view self.old).opened) ≤ marks_most }
        ensures checkpoints { OnOk result
            (Checkpoints (view S.view self.old).opened (view S.view self.new).opened) }
        ensures saved { OnOk result (IsSaved (view S.view self.new).store) }
        ensures asks { (view S.view self.new).store.pages.asks
            ≡ (view S.view self.old).store.pages.asks }
        ensures appends { Appends largest_checkpoint (view S.view self.old) (view S.view self.new) }
        ensures goes { ChecksOn (view S.view self.old) (view S.view self.new) result }
    {
        let marks = self.marks();
        if !self.has_saved_room() {
            return Err(PageFault::Damaged(Place::Room));
        }
        self.store.checkpoint(marks)?;
        self.open.checkpointed();
        self.surviving = self.open.sums().p;
        self.entries = entries_of(&self.store.catalog);
        self.survived = survived_of(&self.store.catalog, &self.open);
        self.heap = self.store.heap();
        Ok(())
    }

    /// What the record of a checkpoint names.
    pub(crate) fn marks(&self) -> Marks
        ensures marks { result ≡ named (view S.view self.now).opened }
        ensures few { length result ≤ marks_most }
    {
        let mut marks = Marks::new();
        self.open.marks(&mut marks);
        prove!(marks.as_slice().len() <= MARKS_MOST);
        marks
    }
}
