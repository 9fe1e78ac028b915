// The laws of the first place at which pages are no store.
ghost use Rattle.rss_check.specs.Faults.{FaultsAreOne, StoresHaveNone, OthersHaveOne};

/// There is one first place at most at which pages are no store. In a store there is none, and in
/// other pages it can't be that there is none.
pub fn faults_are_first()
    ensures one { FaultsAreOne }
    ensures none { StoresHaveNone }
    ensures some { OthersHaveOne }
{}
