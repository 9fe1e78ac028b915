// The laws of stores, and of their logs.
ghost use Rattle.rss_stored.specs.Store.{OpensOnce, OpeningsAreMetered, OpeningsHaveRoom, RestartRecovers, StoresFit, StoresHaveRoom};
ghost use Rattle.rss_stored.specs.LogLaws.{ChangeTies, RestoreTies, AbortTies, ChangesTurnBack, EndTies, CheckpointTies};
ghost use Rattle.rss_stored.specs.LogLaws.{RestTies, RestartTies, DiskHasLog, DiskHasRoom};

/// Pages open to one size and one set of tables at most.
pub fn stores_open_once()
    ensures { OpensOnce }
{}

/// The tables of a store fit.
pub fn tables_fit()
    ensures { StoresFit }
{}

/// Each page of a store has room in two slots. A store that was opened has room for all pages and
/// for what its log is owed, and its meter says what every step keeps.
pub fn stores_have_room()
    ensures stores { StoresHaveRoom }
    ensures openings { OpeningsHaveRoom }
    ensures metered { OpeningsAreMetered }
{}

/// What restart does on the tables of a store's checkpoint gives those that are recovered.
pub fn restart_of_a_store()
    ensures { RestartRecovers }
{}

/// Each kind of step keeps the tie of the state to an engine's log, with its records, what they mean
/// and what the meter counts of them. The log has the records of the changes that a way back undoes.
pub fn logs_tie()
    ensures change { ChangeTies }
    ensures restore { RestoreTies }
    ensures abort { AbortTies }
    ensures turn_back { ChangesTurnBack }
    ensures end { EndTies }
    ensures checkpoint { CheckpointTies }
{}

/// A store that was left at rest is tied as it is opened, and any other by the checkpoint that ends
/// its restart.
pub fn openings_tie()
    ensures rest { RestTies }
    ensures restart { RestartTies }
{}

/// If a state is tied to an engine's log, what is on the disk of it is the log of a store with the
/// committed tables. It has room for a restart, whatever is only in memory.
pub fn disk_has_log()
    ensures log { DiskHasLog }
    ensures room { DiskHasRoom }
{}
