// Looks at images.
ghost use Rattle.std.specs.Prelude.{◌≡◌, ◌+◌, ◌*◌, ◌≤◌, true, Some, is_some, IfOk, IfSome};
ghost use Rattle.rss_base.specs.Listings.{image_at};
ghost use Rattle.rss_base.specs.Runs.{run_pages};
ghost use Rattle.rss_base.specs.TupleTypes.{kinds, SpellsSome};
ghost use Rattle.rss_base.specs.declared.image.ImageEntry.{ImageEntry as AnImage};
ghost use Rattle.rss_base.specs.declared.relation.RelationEntry.{RelationEntry as AnyEntry};
ghost use Rattle.rss_stored.specs.Store.{IsListedImage};
ghost use Rattle.rss_access.specs.Imaging.{IsKeyLong};
ghost use Rattle.rss_session.specs.Imaging.{FindsOwner, FindsNextEntry};
ghost use Rattle.rss_session.specs.Looks.{LooksOn, CostsNothing, KeepsPages};
ghost use Rattle.rss_session.specs.Sessions.{IsReady};

use crate::Session;
use rss_access::{find_owner, next_entry};
use rss_base::{Key, PageFault, Tid};
use rss_buffer::Saving;

impl<S: Saving> Session<S> {
    ghost use Rattle.rss_session.specs.Parts.{view};

    /// The tuple other than `own` that has, in the unique image `number`, the key of a tuple with
    /// the values of these bytes, if there is one. `own` is the tuple that the key is for.
    pub fn find_owner(
        &mut self,
        number: u8,
        values: &[u8],
        own: Option<Tid>,
    ) -> Result<Option<Tid>, PageFault>
        requires ready { IsReady (view S.view self.old) }
        requires there { is_some (image_at (view S.view self.old).store.catalog.listing number)
            ≡ true }
        requires spelled { (image : AnImage) (relation : AnyEntry)
            → IsListedImage (view S.view self.old).store.catalog.listing number image relation
            → SpellsSome (kinds relation.fields) values.now }
        ensures looks { LooksOn (view S.view self.old) (view S.view self.new) result }
        ensures pages { KeepsPages (view S.view self.old) (view S.view self.new) }
        ensures costs { (image : AnImage)
            → image_at (view S.view self.old).store.catalog.listing number ≡ Some image
            → ((view S.view self.new).store.pages.asks
            ≤ (view S.view self.old).store.pages.asks + 2 * (image.levels + 1))
            × ((view S.view self.new).store.pages.writes
            ≤ (view S.view self.old).store.pages.writes + run_pages * (2 * (image.levels + 1))) }
        ensures owner { IfOk result
            (FindsOwner (view S.view self.old) number values.now own) }
    {
        find_owner(
            &mut self.store.tuples,
            &self.store.catalog,
            number,
            values,
            own,
        )
    }

    /// The pair of the image `number` after the one that was given last, if there is one; before
    /// the first, the first pair whose key is at or above `start`.
    pub fn next_entry(
        &mut self,
        number: u8,
        start: &Key,
        last: &Option<(Key, Tid)>,
    ) -> Result<Option<(Key, Tid)>, PageFault>
        requires ready { IsReady (view S.view self.old) }
        requires there { is_some (image_at (view S.view self.old).store.catalog.listing number)
            ≡ true }
        requires long { IsKeyLong (view S.view self.old).store.catalog.listing number start.now }
        requires last_long { IfSome last.now (λ pair.
            IsKeyLong (view S.view self.old).store.catalog.listing number pair.0) }
        ensures looks { LooksOn (view S.view self.old) (view S.view self.new) result }
        ensures pages { KeepsPages (view S.view self.old) (view S.view self.new) }
        ensures idle { CostsNothing (view S.view self.old) (view S.view self.new) }
        ensures costs { (image : AnImage)
            → image_at (view S.view self.old).store.catalog.listing number ≡ Some image
            → ((view S.view self.new).store.pages.asks
            ≤ (view S.view self.old).store.pages.asks + (image.levels + 1))
            × ((view S.view self.new).store.pages.writes
            ≤ (view S.view self.old).store.pages.writes + run_pages * (image.levels + 1)) }
        ensures next { IfOk result (FindsNextEntry (view S.view self.old) number start.now last.now) }
        ensures wide { IfOk result (λ found. IfSome found (λ pair.
            IsKeyLong (view S.view self.old).store.catalog.listing number pair.0)) }
    {
        next_entry(
            &mut self.store.tuples,
            &self.store.catalog,
            number,
            start,
            last,
        )
    }
}
