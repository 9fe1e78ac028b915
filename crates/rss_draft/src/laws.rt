// The laws of a draft.
ghost use Rattle.rss_draft.specs.Fitting.{FittingIsTested};
ghost use Rattle.rss_draft.specs.Drafts.{DraftsBegin, TuplesFollow, ChainsFollow, DraftsTellTables};
ghost use Rattle.rss_draft.specs.Lookups.{LookupsBegin, ConnectsFollow, DisconnectsFollow, ChangesFollow};

/// Tables that fit still do after a change exactly if it fits: if what comes may, and what goes is
/// in no link.
pub fn changes_keep_fit()
    ensures { FittingIsTested }
{}

/// A draft that says nothing stands for the tables that it is kept beside. With one tuple or one
/// chain more it stands for those in which that is put. It stands for no others.
pub fn drafts_follow()
    ensures begin { DraftsBegin }
    ensures tuples { TuplesFollow }
    ensures chains { ChainsFollow }
    ensures tell { DraftsTellTables }
{}

/// What is looked up goes with a change that can be made: where its child stands, or its tuple's keys
/// and how many tuples its relation has.
pub fn lookups_follow()
    ensures begin { LookupsBegin }
    ensures connects { ConnectsFollow }
    ensures disconnects { DisconnectsFollow }
    ensures changes { ChangesFollow }
{}
