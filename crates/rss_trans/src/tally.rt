// Counts of changes.
ghost use Rattle.std.specs.Prelude.{◌≡◌, ◌+◌, ◌-◌, ◌^◌, ◌<◌, ◌≤◌, if◌then◌else◌};
ghost use Rattle.rss_trans.specs.Tallies.{less_by, more_by};

/// How many changes there are, and how many of them take a tuple away.
#[derive(Clone, Copy)]
pub(crate) struct Tally {
    pub(crate) changes: u64,
    pub(crate) deletes: u64,
}

impl Tally {
    pub(crate) const ZERO: Tally = Tally {
        changes: 0,
        deletes: 0,
    };

    /// With one change more.
    pub(crate) fn more(self, is_delete: bool) -> Tally
        requires changes { self.changes + 1 < 2 ^ 64 }
        requires deletes { self.deletes + 1 < 2 ^ 64 }
        ensures { result ≡ more_by is_delete self }
    {
        Tally {
            changes: self.changes + 1,
            deletes: self.deletes + u64::from(is_delete),
        }
    }

    /// With one change less.
    pub(crate) fn less(self, is_delete: bool) -> Tally
        requires changes { 1 ≤ self.changes }
        requires deletes { (if is_delete then 1 else 0) ≤ self.deletes }
        ensures { result ≡ less_by is_delete self }
    {
        Tally {
            changes: self.changes - 1,
            deletes: self.deletes - u64::from(is_delete),
        }
    }
}
