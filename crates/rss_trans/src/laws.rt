// What is kept of open transactions is what the machine has of them.
ghost use Rattle.rss_trans.specs.Told.{AbortTells, AllStay, BackListed, BeginTells, ChangeTells};
ghost use Rattle.rss_trans.specs.Told.{ChangersTold, ChangesTold, CheckpointTells, CountTold};
ghost use Rattle.rss_trans.specs.Told.{CutTells, DeletesTold, EndTells, GoneListed, KeysTold};
ghost use Rattle.rss_trans.specs.Told.{ListedOnce, MakersOpen, NamesCounted, NamesFew};
ghost use Rattle.rss_trans.specs.Told.{NamesSpelled, NamesTold, NewestTold, NoneTells, OpenTold};
ghost use Rattle.rss_trans.specs.Told.{OwedTold, PositionsTold, RecountedTells, RelistedTells};
ghost use Rattle.rss_trans.specs.Told.{SameTells, SaveTells, SavesTold, SinceSaved, SinceStays};
ghost use Rattle.rss_trans.specs.Told.{SinceTold, StandsBefore, SumsTold, TakenTells, TiedListed};

/// What is kept of the open transactions tells the machine's save points and changes, and the calls
/// do to it what the machine does to those.
pub fn transactions_stay_told()
    ensures none { NoneTells }
    ensures same { SameTells }
    ensures checkpoint { CheckpointTells }
    ensures relisted { RelistedTells }
    ensures recounted { RecountedTells }
    ensures begin { BeginTells }
    ensures change { ChangeTells }
    ensures save { SaveTells }
    ensures cut { CutTells }
    ensures taken { TakenTells }
    ensures end { EndTells }
    ensures abort { AbortTells }
{}

/// The log of an engine lists the machine's changes with their stamps. No other list does, and it
/// goes with them on a way back and when a transaction goes.
pub fn lists_stay()
    ensures tied { TiedListed }
    ensures once { ListedOnce }
    ensures back { BackListed }
    ensures gone { GoneListed }
    ensures stands { StandsBefore }
    ensures all { AllStay }
{}

/// What the open transactions answer is what the machine has.
pub fn answers_are_told()
    ensures opened { OpenTold }
    ensures keys { KeysTold }
    ensures count { CountTold }
    ensures saves { SavesTold }
    ensures changes { ChangesTold }
    ensures makers { MakersOpen }
    ensures positions { PositionsTold }
    ensures newest { NewestTold }
{}

/// The sums over the open transactions are those over the machine's changes, and the counts since a
/// checkpoint are its meter's.
pub fn sums_are_told()
    ensures changes { SumsTold }
    ensures changers { ChangersTold }
    ensures owed { OwedTold }
    ensures deletes { DeletesTold }
    ensures since { SinceTold }
    ensures saved { SinceSaved }
    ensures stays { SinceStays }
{}

/// What a checkpoint's record names are the transactions that have changes, each with the position
/// of its first one, and it can be spelled.
pub fn names_are_told()
    ensures names { NamesTold }
    ensures count { NamesCounted }
    ensures few { NamesFew }
    ensures spelled { NamesSpelled }
{}
