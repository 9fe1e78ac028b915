// The laws of restart.
ghost use Rattle.rss_access.specs.Changes.{both};
ghost use Rattle.rss_restart.specs.Opened.{CanRestartOpened, MayCallOpened, RestartGivesTables};

use rss_base::Pages;
use rss_catalog::Catalog;
use rss_log::Log;
use rss_tuple::Store;

/// A store that was just opened can be restarted from its last checkpoint: `restart` may be called
/// of its pages, its catalog and its log, with room for each change. What is recovered are the
/// tables to which the store opens.
pub fn stores_can_restart<P: Pages>(tuples: &Store<P>, catalog: &Catalog, log: &Log)
    ensures can { CanRestartOpened (both (P.view tuples.now.pages) catalog.now) log.now }
    ensures call { MayCallOpened (both (P.view tuples.now.pages) catalog.now) log.now }
    ensures gives { RestartGivesTables }
{}
