// The laws of the machine, and of a log over it.
ghost use Rattle.std.specs.Prelude.{length, not, ◌≡◌, ◌++◌, ◌<◌, ◌≤◌, ℕ, List, ◌∷◌};
ghost use Rattle.std.specs.List.{AllByRecursion};
ghost use Rattle.rss_model.specs.Tables.{Contents, content};
ghost use Rattle.rss_model.specs.Changes.{Change, after, own, others};
ghost use Rattle.rss_model.specs.Records.{Placed, Listed, Changed, Restore, End, Abort, Rise, changes_in, is_by, is_cut};
ghost use Rattle.rss_model.specs.Restart.{OnlyBy};
ghost use Rattle.rss_model.specs.Recovers.{NamesLists, Recovers, Restarts};
ghost use Rattle.rss_model.specs.Ties.{Undoes, Log, records, lists, pushed, saved, checkpointed, cut_own, StandsAt, Ties};
ghost use Rattle.rss_model.specs.Changes.{UndoTurnsBack};
ghost use Rattle.rss_model.specs.Commits.{CommitsOnly, OpenLeavesNoTrace};
ghost use Rattle.rss_model.specs.Kept.{SavingNeedsNoMore, StepsKeep, RestKeeps, StepsLeaveSize, KeptFit, EachFits, FirstFindsBase, LastLeavesNow, OwnersAreAlone, StepsKeepRoom};
ghost use Rattle.rss_model.specs.Ruled.{RulingIsExact, RulingLetsThrough, MeterFollows, SavingFirstPasses, SavedGoesOn, ChangesKeepRooms, CheckpointsKeepRooms, CheckpointsPassAtRest, RestoresKeepRooms, AbortsKeepRooms, EndsKeepRooms, DefinitionsKeepRooms, StepsKeepRooms};
ghost use Rattle.rss_model.specs.Ruled.{ChangesFitLog, WaysBackFitLog, EndsFitLog, CheckpointsFitLog};
ghost use Rattle.rss_model.specs.WaysBack.{WaysBackSucceed, CheckpointsSucceed};
ghost use Rattle.rss_model.specs.Locks.{JoinDisagrees};
ghost use Rattle.rss_model.specs.Steps.{FreeIsFound};
ghost use Rattle.rss_model.specs.Serial.{IsSerial};
ghost use Rattle.rss_model.specs.Spares.{NumberLeavesRoom, SparesTwo, MakesOnceMore, times_in_restart, times_in_session};
ghost use Rattle.rss_model.specs.Spares.{SessionBegins, SessionChanges, SessionGoesBack, SessionForgets, SparesForAll, SparesForNext};

/// Only the end of a transaction and a call that defines change the committed tables. The end
/// brings in that transaction's own changes and no others, so a transaction that never ends leaves
/// no trace.
pub fn what_commits()
    ensures commits { CommitsOnly }
    ensures no_trace { OpenLeavesNoTrace }
{}

/// Whatever step the machine makes, it keeps what is said to be kept, and so does a machine in
/// which nothing is open. The store's size stays.
pub fn steps_keep()
    ensures steps { StepsKeep }
    ensures rest { RestKeeps }
    ensures size { StepsLeaveSize }
{}

/// The committed tables fit, those now, and the committed ones with what one transaction had made
/// at any time. An item is changed by only one transaction, from what is committed to what is there
/// now.
pub fn kept_tables()
    ensures fit { KeptFit }
    ensures each { EachFits }
    ensures first { FirstFindsBase }
    ensures last { LastLeavesNow }
    ensures owners { OwnersAreAlone }
{}

/// Each step leaves room for all pages: a way back always has it.
pub fn room_is_kept()
    ensures { StepsKeepRoom }
{}

/// From a checkpoint on, there are two spare pages for each change that is still to be made, undone
/// or made again. So it is in a restart and in a session, as long as none has taken more than two.
pub fn pages_are_spare()
    ensures number { NumberLeavesRoom }
    ensures restart { SparesTwo times_in_restart }
    ensures session { SparesTwo times_in_session }
    ensures more { MakesOnceMore }
{}

/// What a session keeps from a checkpoint on, whatever it makes and takes back. So there is room
/// for taking back all changes that are listed, and for the next one if the room number allows it.
pub fn sessions_have_room()
    ensures begins { SessionBegins }
    ensures changes { SessionChanges }
    ensures goes_back { SessionGoesBack }
    ensures forgets { SessionForgets }
    ensures back { SparesForAll }
    ensures next { SparesForNext }
{}

/// From a state in which nothing is open, a run commits what its transactions commit one after
/// another, in the order of their ends, with the replies that they got.
pub fn runs_are_serial()
    ensures { IsSerial }
{}

/// An insert is refused for want of a free identifier exactly if there is none.
pub fn free_identifiers()
    ensures { FreeIsFound }
{}

/// A change that is undone leaves what there was before it.
pub fn undo_turns_back()
    ensures { UndoTurnsBack }
{}

/// A checkpoint never makes a change need more slots than it needs without one.
pub fn room_rule()
    ensures { SavingNeedsNoMore }
{}

/// What comes of a change by the exact rule, with the numbers that a refusal tells.
pub fn exact_rule()
    ensures verdicts { RulingIsExact }
    ensures lets_through { RulingLetsThrough }
    ensures meter { MeterFollows }
    ensures saves { SavingFirstPasses }
    ensures saved { SavedGoesOn }
{}

/// By it there is always room, for all pages and in the log for what it owes. A change that is let
/// through, a checkpoint that isn't refused, a way back, an end and a definition each leave it so.
pub fn rooms_are_kept()
    ensures changes { ChangesKeepRooms }
    ensures checkpoints { CheckpointsKeepRooms }
    ensures at_rest { CheckpointsPassAtRest }
    ensures restores { RestoresKeepRooms }
    ensures aborts { AbortsKeepRooms }
    ensures ends { EndsKeepRooms }
    ensures definitions { DefinitionsKeepRooms }
    ensures steps { StepsKeepRooms }
{}

/// And the log has room for each record before it is appended.
pub fn records_fit()
    ensures changes { ChangesFitLog }
    ensures back { WaysBackFitLog }
    ensures ends { EndsFitLog }
    ensures checkpoints { CheckpointsFitLog }
{}

/// An end, an abort and the way back to a save point succeed, if the transaction is open and has the
/// save point. A checkpoint succeeds, or is refused for want of room in the log.
pub fn ways_back_succeed()
    ensures back { WaysBackSucceed }
    ensures checkpoint { CheckpointsSucceed }
{}

/// A mode that was joined disagrees with what one of its parts disagrees with.
pub fn joined_locks()
    ensures { JoinDisagrees }
{}

/// Undoing on the checkpoint's tables what is lost, and then redoing what survives, gives the
/// tables that are recovered, and each step finds the content that its change tells.
pub fn restart_recovers()
    ensures { (from until : ℕ) (tables base : Contents) (older newer : List Placed) → Rise from (older ++ newer) until → Recovers tables older newer base → Restarts tables older newer base }
{}

/// If an engine's log is tied to the machine, what is on the disk recovers the machine's committed
/// tables, whatever is only in memory.
pub fn ties_recover()
    ensures { (base : Contents) (changes : List Change) (tables : Contents) (log : Log) → Ties base changes tables log → Recovers tables log.older log.written base }
{}

/// Each kind of step keeps the tie.
pub fn ties_are_kept()
    ensures change { (base : Contents) (changes : List Change) (tables : Contents) (log : Log) → Ties base changes tables log → (c : Change) (size : ℕ) → 0 < size → c.old ≡ content (after base changes) c.item → OnlyBy c.by c.item changes
        → Ties base (c ∷ changes) tables (pushed log (Changed c) size) }
    ensures restore { (base : Contents) (changes : List Change) (tables : Contents) (log : Log) → Ties base changes tables log → (t n first size : ℕ) → 0 < size → StandsAt t n first (lists log)
        → Ties base (cut_own t n changes) tables (pushed log (Restore t first) size) }
    ensures abort { (base : Contents) (changes : List Change) (tables : Contents) (log : Log) → Ties base changes tables log → (t size : ℕ) → 0 < size
        → Ties base (others t changes) tables (pushed log (Abort t) size) }
    ensures end { (base : Contents) (changes : List Change) (tables : Contents) (log : Log) → Ties base changes tables log → (t size : ℕ) → 0 < size
        → Ties (after base (own t changes)) (others t changes) tables (saved (pushed log (End t) size)) }
    ensures checkpoint { (base : Contents) (changes : List Change) (tables : Contents) (log : Log) → Ties base changes tables log → (head size : ℕ) (dropped kept : List Placed) (named : List (ℕ × ℕ)) → 0 < size → records log ≡ dropped ++ kept → Rise log.head dropped head → Rise head kept log.end → AllByRecursion (λ l. head ≤ l.at) (lists log) → NamesLists named (lists log)
        → Ties base changes (after base changes) (checkpointed log head kept named size) }
{}

/// What an abort, the way back to a save point and an end make of the tables of now.
pub fn tables_of_now()
    ensures abort { (base : Contents) (changes : List Change) (tables : Contents) (log : Log) → Ties base changes tables log → (t : ℕ) → Undoes base (λ l. not (is_by t l)) (lists log) }
    ensures restore { (base : Contents) (changes : List Change) (tables : Contents) (log : Log) → Ties base changes tables log → (t first : ℕ) → Undoes base (λ l. not (is_cut t first l)) (lists log) }
    ensures place { (t n : ℕ) (ls : List Listed) → n < length (own t (changes_in ls)) → (first : ℕ) × StandsAt t n first ls }
    ensures end { (base : Contents) (changes : List Change) (tables : Contents) (log : Log) → Ties base changes tables log → (t : ℕ) → after (after base (own t changes)) (others t changes) ≡ after base changes }
{}
