// A session over a store that was opened.
ghost use Rattle.std.specs.Prelude.{◌≡◌};
ghost use Rattle.std.specs.FinMap.{empty};
ghost use Rattle.rss_model.specs.Machine.{State, StoreSize, IsAtRest};
ghost use Rattle.rss_model.specs.Tables.{Tables};
ghost use Rattle.rss_model.specs.Ruled.{HasBothRooms};
ghost use Rattle.rss_store.specs.Opening.{HasRoomAtRest};
ghost use Rattle.rss_store.specs.Parts.{view as store_view};
ghost use Rattle.rss_store.specs.Shown.{Shows as StoreShows};
ghost use Rattle.rss_store.specs.Stores.{IsReady as IsStoreReady, IsSaved};
ghost use Rattle.rss_session.specs.Sessions.{IsReady};
ghost use Rattle.rss_session.specs.Shown.{Shows, IsRested};

use crate::Session;
use crate::bounding::{entries_of, none_survived};
use rss_buffer::Saving;
use rss_store::DurableStore;
use rss_trans::Open;
use std::alloc::Global;

impl<S: Saving> Session<S> {
    ghost use Rattle.rss_session.specs.Parts.{view};

    /// The session of a store that was just opened. No transaction is open. It takes no memory.
    pub fn new(alloc: Global, store: DurableStore<S>) -> Self
        requires ready { IsStoreReady (store_view S.view store) }
        requires saved { IsSaved (store_view S.view store) }
        requires room { HasRoomAtRest (store_view S.view store) }
        ensures ready { IsReady (view S.view result) }
        ensures shows { (size : StoreSize) (tables : Tables) (state : State)
            → StoreShows (store_view S.view store) state → IsAtRest size tables state
            → HasBothRooms state → IsRested (view S.view result) state
            → Shows (view S.view result) state }
        ensures store { result.store ≡ store }
        ensures open { (view S.view result).opened.transactions ≡ empty }
    {
        let heap = store.heap();
        let entries = entries_of(&store.catalog);
        Session {
            store,
            open: Open::new(alloc),
            heap,
            surviving: 0,
            entries,
            survived: none_survived(),
        }
    }
}
