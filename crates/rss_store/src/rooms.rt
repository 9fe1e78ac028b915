// Whether a store has room for its pages.
ghost use Rattle.std.specs.Prelude.{◌≡◌, ◌↔◌, ◌+◌, ◌*◌, ◌^◌, ◌≤◌, IsTrue};
ghost use Rattle.rss_base.specs.Sizes.{images_most};
ghost use Rattle.rss_model.specs.Spares.{listed_bound, live_of};
ghost use Rattle.rss_store.specs.Opening.{HasRoomAtRest};
ghost use Rattle.rss_store.specs.Stores.{IsReady};

use crate::DurableStore;
use rss_access::image_bound;
use rss_base::{Kind, SYSTEM_PAGES};
use rss_buffer::Saving;
use rss_catalog::Catalog;

impl<S: Saving> DurableStore<S> {
    ghost use Rattle.rss_store.specs.Parts.{view};

    /// Whether there are as many slots as may be needed if nothing is open, and images have no more
    /// pages than they may.
    pub(crate) fn has_room(&self) -> bool
        requires { IsReady (view S.view self.now) }
        ensures { IsTrue result ↔ HasRoomAtRest (view S.view self.now) }
    {
        let images = images_bound(&self.catalog);
        let room = 2 * (u64::from(self.heap()) + images + u64::from(SYSTEM_PAGES));
        room <= u64::from(self.slots()) && u64::from(self.tuples.pages.image_pages()) <= images
    }
}

/// How many pages images may have, by how many tuples their relations have.
fn images_bound(catalog: &Catalog) -> u64
    ensures is { result ≡ listed_bound catalog.now.listing (live_of catalog.now.listing) }
    ensures small { result ≤ images_most * (2 ^ 32 + 2) }
{
    let mut bound = 0;
    for place in 0..catalog.last_image() {
        if catalog.used(Kind::Image, place + 1) {
            let image = catalog.image(place + 1);
            let relation = catalog.relation(image.relation);
            bound += image_bound(relation, image, u64::from(relation.live));
        }
    }
    bound
}
