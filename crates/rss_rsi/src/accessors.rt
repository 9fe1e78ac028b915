// What is counted of a store.
ghost use Rattle.std.specs.Prelude.{◌≡◌, is_some, IfSome, IfNone};
ghost use Rattle.std.specs.FinMap.{get};
ghost use Rattle.rss_base.specs.Listings.{IsUnlisted};
ghost use Rattle.rss_base.specs.Paged.{mapped_pages};
ghost use Rattle.rss_base.specs.declared.refusal.Kind.TheVariants.{Image as ImageKind};
ghost use Rattle.rss_access.specs.Written.{heap_now};
ghost use Rattle.rss_model.specs.Machine.{State};
ghost use Rattle.rss_model.specs.Meter.{room_number, log_room};
ghost use Rattle.rss_rsi.specs.Scanning.{IsOfLevels};

use crate::Rss;
use rss_base::{Kind, Name, SYSTEM_PAGES};
use rss_buffer::Saving;

impl<S: Saving> Rss<S> {
    ghost use Rattle.rss_rsi.specs.Parts.{pages_below, session_of, view};

    /// How many slots the device has for pages.
    pub fn slots(&self) -> u32
        ensures { result ≡ (view self.now).slots }
    {
        self.session.store.slots()
    }

    /// How many pages are mapped: those of the system space, of the heap and of images.
    pub fn mapped(&self) -> u32
        ensures { result ≡ mapped_pages (S.view (pages_below self.now)).slots
            (S.view (pages_below self.now)).mapped }
    {
        self.session.mapped()
    }

    /// How many home and overflow pages there are, of a store that isn't down.
    pub fn heap(&self) -> u32
        ensures { (view self.now).is_up → result ≡ heap_now (S.view (pages_below self.now)) }
    {
        self.mapped()
            .saturating_sub(self.session.image_pages())
            .saturating_sub(SYSTEM_PAGES)
    }

    /// How many levels of nodes the image of this name has, if it is defined.
    pub fn levels(&self, image: &Name) -> Option<u8>
        ensures some { IfSome result
            (IsOfLevels (session_of self.now).store.catalog.listing image.now) }
        ensures none { IfNone result
            (IsUnlisted ImageKind (session_of self.now).store.catalog.listing image.now) }
        ensures states { (state : State) → (view self.now).shows state
            → is_some result ≡ is_some (get state.base.definitions.images image.now) }
    {
        let catalog = &self.session.store.catalog;
        let number = catalog.find(Kind::Image, image)?;
        Some(catalog.image(number).levels)
    }

    /// How many slots may be needed, by the rule of room, as each state counts them that is shown:
    /// a change is refused if one more might need more than there are.
    pub fn room(&self) -> u64
        ensures { (state : State) → (view self.now).shows state
            → result ≡ room_number state.base.definitions state.meter }
    {
        self.session.room()
    }

    /// How many bytes the log has room for, as each state counts them that is shown, if the store isn't
    /// down.
    pub fn log_free(&self) -> u64
        ensures { (view self.now).is_up → (state : State) → (view self.now).shows state
            → result ≡ log_room state.size.log_pages state.meter }
    {
        self.session.store.log_free()
    }

    /// The pages.
    pub fn pages(&self) -> &S
        ensures { result.now ≡ pages_below self.now }
    {
        self.session.pages()
    }

    /// The pages, as the last call left them.
    pub fn into_pages(self) -> S
        ensures { result ≡ pages_below self }
    {
        let Rss {
            session,
            locks: _,
            scans: _,
            calls: _,
            down: _,
            alloc: _,
        } = self;
        session.into_pages()
    }
}
