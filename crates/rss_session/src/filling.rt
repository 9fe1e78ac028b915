// The room for an image that is to be made, its entries, and its tree.
ghost use Rattle.std.specs.Prelude.{◌≡◌, ◌+◌, ◌*◌, ◌≤◌, length, Err, IfErr, IfOk, OnOk};
ghost use Rattle.std.specs.FinMap.{empty};
ghost use Rattle.rss_base.specs.DiskRule.{IsTold};
ghost use Rattle.rss_base.specs.Runs.{run_pages};
ghost use Rattle.rss_base.specs.declared.fault.PageFault.TheVariants.{Damaged};
ghost use Rattle.rss_base.specs.declared.place.Place.{Place as AnyPlace};
ghost use Rattle.rss_base.specs.declared.place.Place.TheVariants.{Room};
ghost use Rattle.rss_model.specs.ReplyText.{IsShort};
ghost use Rattle.rss_session.specs.Calls.{GoesOn, KeepsTables, ShowsNone};
ghost use Rattle.rss_session.specs.Filling.{IsPlanned, room_for, RoomsImage, HasFewPages, TestsRoom, AreImageEntries, TestsKeys, MakesImage};
ghost use Rattle.rss_session.specs.Looks.{SearchesOn};
ghost use Rattle.rss_session.specs.Sessions.{IsReady};

use crate::Session;
use crate::uniques::duplicate;
use crate::weighing::room_of;
use rss_access::{entries_of, fill_image, image_bound, repeated};
use rss_base::{ImageEntry, Key, PageFault, Place, Refusal, Tid};
use rss_buffer::Saving;
use std::alloc::Global;

impl<S: Saving> Session<S> {
    ghost use Rattle.rss_session.specs.Parts.{view};

    /// Whether there is room for an image more after a checkpoint.
    pub fn test_image_room(&self, image: &ImageEntry) -> Result<(), Refusal>
        requires ready { IsReady (view S.view self.now) }
        requires planned { IsPlanned (view S.view self.now).store.catalog.listing image.now }
        ensures room { OnOk result (RoomsImage (view S.view self.now) image.now) }
        ensures tests { TestsRoom (view S.view self.now) image.now result }
    {
        let slots = self.store.slots();
        let needed = self.room_for(image);
        if needed > u64::from(slots) {
            return Err(Refusal::Full { slots, needed });
        }
        Ok(())
    }

    /// How many slots may be needed after a checkpoint, with an image more.
    fn room_for(&self, image: &ImageEntry) -> u64
        requires ready { IsReady (view S.view self.now) }
        requires planned { IsPlanned (view S.view self.now).store.catalog.listing image.now }
        ensures { result ≡ room_for (view S.view self.now) image.now }
    {
        let relation = self.store.catalog.relation(image.relation);
        let more = image_bound(relation, image, self.saved_most(image.relation));
        let images = self.images_bound(true, None) + more;
        room_of(u64::from(self.store.heap()), self.open.sums().p, 0, images)
    }

    /// Images have no more pages than they may have after a checkpoint; otherwise `Damaged`, which
    /// no device shows that tells its contents.
    pub(crate) fn check_image_pages(&self) -> Result<(), PageFault>
        requires ready { IsReady (view S.view self.now) }
        requires closed { (view S.view self.now).opened.transactions ≡ empty }
        ensures few { OnOk result (HasFewPages (view S.view self.now)) }
        ensures fault { IfErr result (λ why. why ≡ Damaged Room) }
        ensures sound { (place : AnyPlace) → result ≡ Err (Damaged place)
            → IsTold (view S.view self.now).store.pages.disk → ShowsNone (view S.view self.now) }
    {
        if u64::from(self.image_pages()) > self.images_bound(true, None) {
            return Err(PageFault::Damaged(Place::Room));
        }
        Ok(())
    }

    /// The entries of an image that was planned: those of all tuples of its relation, in the image's
    /// order. Memory may run out.
    pub fn entries_of(
        &mut self,
        alloc: Global,
        image: &ImageEntry,
    ) -> Result<Vec<(Key, Tid)>, PageFault>
        requires ready { IsReady (view S.view self.old) }
        requires planned { IsPlanned (view S.view self.old).store.catalog.listing image.now }
        ensures searches { SearchesOn (view S.view self.old) (view S.view self.new) result }
        ensures are { IfOk result (λ entries.
            AreImageEntries (view S.view self.new) image.now entries.items) }
    {
        let which = &image.fields[..usize::from(image.count)];
        entries_of(
            alloc,
            &mut self.store.tuples,
            &self.store.catalog,
            image.relation,
            which,
        )
    }

    /// If an image that was planned is unique, no two of its entries have one key.
    pub fn test_image_keys(&self, image: &ImageEntry, entries: &[(Key, Tid)]) -> Result<(), Refusal>
        requires ready { IsReady (view S.view self.now) }
        requires closed { (view S.view self.now).opened.transactions ≡ empty }
        requires entries { AreImageEntries (view S.view self.now) image.now entries.now }
        ensures tests { TestsKeys (view S.view self.now) image.now result }
        ensures short { IfErr result (λ why. IsShort (Err why)) }
    {
        if image.is_unique {
            if let Some(tid) = repeated(entries) {
                return Err(duplicate(image.name, tid));
            }
        }
        Ok(())
    }

    /// Lists an image that was planned, for which there is room, and builds its tree of its entries.
    /// `redefine` commits it. At each moment a stop leaves the committed tables.
    pub fn fill_image(&mut self, image: ImageEntry, entries: &[(Key, Tid)]) -> Result<(), PageFault>
        requires ready { IsReady (view S.view self.old) }
        requires closed { (view S.view self.old).opened.transactions ≡ empty }
        requires planned { IsPlanned (view S.view self.old).store.catalog.listing image }
        requires room { RoomsImage (view S.view self.old) image }
        requires entries { AreImageEntries (view S.view self.old) image entries.now }
        ensures makes { OnOk result
            (MakesImage image (view S.view self.old) (view S.view self.new)) }
        ensures sound { (place : AnyPlace) → result ≡ Err (Damaged place)
            → IsTold (view S.view self.old).store.pages.disk → ShowsNone (view S.view self.old) }
        ensures moments { KeepsTables (view S.view self.old) (view S.view self.new) }
        ensures goes { GoesOn (view S.view self.old) (view S.view self.new) result }
        ensures costs { ((view S.view self.new).store.pages.asks
            ≤ (view S.view self.old).store.pages.asks + 255 * length entries.now)
            × ((view S.view self.new).store.pages.writes
            ≤ (view S.view self.old).store.pages.writes
            + run_pages * (1022 * length entries.now + 2)) }
    {
        self.check_image_pages()?;
        let number = self.store.catalog.add_image(ImageEntry {
            root: 0,
            levels: 1,
            ..image
        });
        fill_image(
            &mut self.store.tuples.pages,
            &mut self.store.catalog,
            number,
            entries,
        )
    }
}
