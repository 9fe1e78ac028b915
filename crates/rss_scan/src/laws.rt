// The open scans are the relation machine's.
ghost use Rattle.rss_scan.specs.Ties.{AddedSpelled, ClosedSpelled, CountedSpelled, FoundSpelled};
ghost use Rattle.rss_scan.specs.Ties.{GivenSpelled, NoneSpelled, RemovedSpelled};

/// What the calls make of the open scans is what the machine makes of its own, which have
/// values where these have the bytes of keys, however the one is spelled as the other.
pub fn scans_stay_spelled()
    ensures none { NoneSpelled }
    ensures added { AddedSpelled }
    ensures given { GivenSpelled }
    ensures removed { RemovedSpelled }
    ensures closed { ClosedSpelled }
    ensures found { FoundSpelled }
    ensures counted { CountedSpelled }
{}
