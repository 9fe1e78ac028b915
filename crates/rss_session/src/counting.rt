// What is counted of a session.
ghost use Rattle.std.specs.Prelude.{◌≡◌, ◌-◌, ◌^◌, min};
ghost use Rattle.rss_base.specs.Paged.{mapped_of, mapped_pages};
ghost use Rattle.rss_base.specs.declared.key.Space.TheVariants.{Image};
ghost use Rattle.rss_model.specs.Machine.{State};
ghost use Rattle.rss_model.specs.Meter.{room_number};
ghost use Rattle.rss_session.specs.Sessions.{counts};
ghost use Rattle.rss_session.specs.Shown.{Shows};
ghost use Rattle.rss_session.specs.Weighing.{room_of};

use crate::Session;
use rss_base::SYSTEM_PAGES;
use rss_buffer::Saving;

impl<S: Saving> Session<S> {
    ghost use Rattle.rss_session.specs.Parts.{view};

    /// How many pages are mapped: those of the system space, of the heap and of images.
    pub fn mapped(&self) -> u32
        ensures { result ≡ mapped_pages (view S.view self.now).store.pages.slots
            (view S.view self.now).store.pages.mapped }
    {
        self.store.tuples.pages.shadow().mapped()
    }

    /// How many of them are pages of images.
    pub fn image_pages(&self) -> u32
        ensures { result ≡ mapped_of (view S.view self.now).store.pages.mapped Image
            (view S.view self.now).store.pages.slots }
    {
        self.store.tuples.pages.image_pages()
    }

    /// How many slots may be needed, by the rule of room, as far as a u64 counts.
    pub fn room(&self) -> u64
        ensures room { result ≡ min (room_of (view S.view self.now).heap
            (view S.view self.now).surviving (view S.view self.now).opened.since
            (counts (view S.view self.now)).images) (2 ^ 64 - 1) }
        ensures states { (state : State) → Shows (view S.view self.now) state
            → result ≡ room_number state.base.definitions state.meter }
    {
        // A state counts no more than there are slots, which are a u32.
        let _slots = self.store.slots();
        let survived = self.surviving.saturating_mul(2);
        let since = self.open.sums().s.saturating_mul(4);
        let pages = u64::from(self.heap) + u64::from(SYSTEM_PAGES);
        let images = self.images_bound(false, None);
        survived
            .saturating_add(since)
            .saturating_add(pages)
            .saturating_add(images)
            .saturating_mul(2)
    }

    /// The pages.
    pub fn pages(&self) -> &S
        ensures { result.now ≡ self.now.store.tuples.pages }
    {
        self.store.pages()
    }

    /// The pages, as the last call left them.
    pub fn into_pages(self) -> S
        ensures { result ≡ self.store.tuples.pages }
    {
        let Session {
            store,
            open: _,
            heap: _,
            surviving: _,
            entries: _,
            survived: _,
        } = self;
        store.into_pages()
    }
}
