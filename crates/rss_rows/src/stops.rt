// Stops in the middle of a run, and the tables that an opening finds after them.
use crate::harness::{Row, SMALL, WHOLE, assert_script, has_writes, store_with_r};
use rss_base::Page;
use rss_device::{MemDevice, Unsynced};
use rss_images::{UNSYNCED, assert_same, assert_same_slices, copy_of_pages, failing_at, image_at};
use rss_scripts::{run_script, without_moments};
use rss_top::Status;
use std::alloc::Global;
use std::test::Fail;

/// The tables that an opening finds: those before a commit, or those after it.
#[derive(Clone, Copy, Debug, PartialEq, Eq)]
pub(crate) enum Tables {
    Before,
    After,
}

/// A script that tells the tables before a commit from those after it.
#[derive(Clone, Copy)]
pub(crate) struct Probe<'a> {
    pub(crate) script: &'a [u8],
    pub(crate) before: &'a [u8],
    pub(crate) after: &'a [u8],
}

impl Probe<'_> {
    /// Opens a store and runs the script. Answers none where it gets any other replies.
    pub(crate) fn finds(&self, alloc: Global, pages: Vec<Page>) -> Result<Option<Tables>, Fail> {
        let device = MemDevice::new(alloc, pages)?;
        let (status, replies, _) = run_script(alloc, device, self.script, WHOLE)?;
        if status != Status::Ok {
            return Ok(None);
        }
        Ok(self.tables(replies.as_slice()))
    }

    /// Which tables have these replies.
    fn tables(&self, replies: &[u8]) -> Option<Tables> {
        if replies == self.before {
            Some(Tables::Before)
        } else if replies == self.after {
            Some(Tables::After)
        } else {
            None
        }
    }

    /// What an opening finds after a stop.
    pub(crate) fn finds_after(
        &self,
        alloc: Global,
        device: &MemDevice,
        moment: usize,
        unsynced: Unsynced,
    ) -> Result<Option<Tables>, Fail> {
        self.finds(alloc, image_at(alloc, device, moment, unsynced)?)
    }
}

/// A script with one commit, and what tells whether it was made.
#[derive(Clone, Copy)]
pub(crate) struct Commit<'a> {
    /// How many commits came before it.
    pub(crate) number: u32,
    pub(crate) row: Row<'a>,
    pub(crate) probe: Probe<'a>,
    /// How many writes the opening makes, where the log isn't at rest: of pages with tuples and of the
    /// catalog, of the map, of a root, and of the selector.
    pub(crate) opening: usize,
    /// How many the commit makes: of pages of the catalog and of the map where it defines, of the log, of
    /// the other root, and of the selector, which is the last.
    pub(crate) writes: usize,
    /// The root that the selector names then. It named the other one before.
    pub(crate) root: u8,
}

impl Commit<'_> {
    /// How many writes the run makes.
    fn all_writes(&self) -> usize {
        self.opening.saturating_add(self.writes)
    }

    /// What an opening finds after a stop at a moment, where the write of the selector makes this one.
    fn finds_at(&self, moment: usize, switched: usize, unsynced: Unsynced) -> Tables {
        if moment < switched {
            Tables::Before
        } else if moment == switched {
            self.finds_unsynced(unsynced)
        } else {
            Tables::After
        }
    }

    /// What an opening finds while the selector isn't synced.
    fn finds_unsynced(&self, unsynced: Unsynced) -> Tables {
        let is_selected = match unsynced {
            Unsynced::Old => false,
            Unsynced::New => true,
            Unsynced::Filled(byte) => 1 + byte % 2 == self.root,
        };
        if is_selected {
            Tables::After
        } else {
            Tables::Before
        }
    }
}

/// A commit over a store without tuples.
pub(crate) static FIRST: Commit<'static> = Commit {
    number: 0,
    row: Row {
        script: b"\
begin 1
insert 1 r 7
fetch 1 r 0.0
end 1
",
        replies: b"\
ok
ok 0.0
ok 7
ok
",
    },
    probe: Probe {
        script: b"\
begin 1
fetch 1 r 0.0
end 1
",
        before: b"\
ok
refused 9 no tuple r 0.0
ok
",
        after: b"\
ok
ok 7
ok
",
    },
    opening: 0,
    // The root, whose tail has the log, and the selector.
    writes: 2,
    root: 2,
};

/// A commit over the store that the first one left.
static SECOND: Commit<'static> = Commit {
    number: 1,
    row: Row {
        script: b"\
begin 1
insert 1 r 8
end 1
",
        replies: b"\
ok
ok 0.1
ok
",
    },
    probe: Probe {
        script: b"\
begin 1
fetch 1 r 0.0
fetch 1 r 0.1
end 1
",
        before: b"\
ok
ok 7
refused 9 no tuple r 0.1
ok
",
        after: b"\
ok
ok 7
ok 8
ok
",
    },
    // The home page, that of the count, the map, root 1 and the selector.
    opening: 5,
    writes: 2,
    root: 2,
};

/// A call of the device that fails in the run of the first commit, and what the run leaves.
#[derive(Clone, Copy)]
struct Failure {
    call: &'static str,
    replies: &'static [u8],
    /// What an opening finds where no stop comes.
    held: Tables,
    /// What an opening finds where a stop comes right after the run, for each of `UNSYNCED`.
    finds: [Tables; 4],
}

/// A call of the opening.
const OPENING: Failure = Failure {
    call: "a call of the opening",
    replies: b"",
    held: Tables::Before,
    finds: [Tables::Before; 4],
};

/// A call of the commit, before the selector's.
const UNSELECTED: Failure = Failure {
    call: "a call of the commit",
    replies: b"ok\nok 0.0\nok 7\n",
    ..OPENING
};

/// The last calls of the device in the run of the first commit, in their order.
static FAILURES: [Failure; 4] = [
    Failure {
        call: "the write of root 2",
        ..UNSELECTED
    },
    Failure {
        call: "the sync of root 2",
        ..UNSELECTED
    },
    // A write that fails tears its page, which still reads as before.
    Failure {
        call: "the write of the selector",
        finds: [
            Tables::Before,
            Tables::Before,
            Tables::Before,
            Tables::After,
        ],
        ..UNSELECTED
    },
    Failure {
        call: "the sync of the selector",
        held: Tables::After,
        finds: [Tables::Before, Tables::After, Tables::Before, Tables::After],
        ..UNSELECTED
    },
];

/// No run has as many calls of the device.
const MANY_CALLS: u64 = 1000;

/// Runs a commit.
fn run_commit(alloc: Global, device: MemDevice, commit: &Commit) -> Result<MemDevice, Fail> {
    let case = ("commit", commit.number);
    let after = assert_script(alloc, device, &commit.row, WHOLE, case)?;
    assert_same(&has_writes(&after, commit.all_writes()), &true, case)?;
    Ok(after)
}

/// The moment that the write of the selector made.
fn switched_at(device: &MemDevice, commit: &Commit) -> Result<usize, Fail> {
    let write = commit.all_writes().checked_sub(1).ok_or("a commit writes")?;
    Ok(
        device
            .moment_of_write(write)
            .ok_or("a write that isn't there")?,
    )
}

/// Stops the run of a commit that is over, at one of its moments.
fn assert_stop(
    alloc: Global,
    device: &MemDevice,
    commit: &Commit,
    (moment, want, unsynced): (usize, Tables, Unsynced),
) -> Result<(), Fail> {
    let found = commit.probe.finds_after(alloc, device, moment, unsynced)?;
    let case = (unsynced, "at moment", moment, "of commit", commit.number);
    assert_same(&found, &Some(want), case)?;
    Ok(())
}

/// Stops it at one of its moments, with each of what the stop may leave.
fn assert_stops_at(
    alloc: Global,
    device: &MemDevice,
    commit: &Commit,
    (moment, switched): (usize, usize),
    left: &[Unsynced],
) -> Result<(), Fail> {
    for unsynced in left {
        let want = commit.finds_at(moment, switched, *unsynced);
        assert_stop(alloc, device, commit, (moment, want, *unsynced))?;
    }
    Ok(())
}

/// Stops the run of a commit that is over, at each of its moments, with what the stop may leave.
fn assert_stops(
    alloc: Global,
    device: &MemDevice,
    commit: &Commit,
    left: &[Unsynced],
) -> Result<(), Fail> {
    let switched = switched_at(device, commit)?;
    for moment in 0..=device.moment() {
        assert_stops_at(alloc, device, commit, (moment, switched), left)?;
    }
    Ok(())
}

/// Makes a commit over a store, and stops it. Answers the store, with no moments yet.
pub(crate) fn assert_commit(
    alloc: Global,
    device: MemDevice,
    commit: &Commit,
    left: &[Unsynced],
) -> Result<MemDevice, Fail> {
    let after = run_commit(alloc, device, commit)?;
    assert_stops(alloc, &after, commit, left)?;
    Ok(without_moments(alloc, &after)?)
}

/// A store without tuples of which this call fails.
fn failing_store(alloc: Global, call: u64) -> Result<MemDevice, Fail> {
    Ok(failing_at(alloc, store_with_r(alloc, SMALL)?, call)?)
}

/// Runs the first commit over a store of which this call fails.
fn run_failing(alloc: Global, call: u64) -> Result<(Status, Vec<u8>, MemDevice), Fail> {
    Ok(run_script(alloc, failing_store(alloc, call)?, FIRST.row.script, WHOLE)?)
}

/// How many calls of the device the run of the first commit makes: the first call that it can't
/// fail at.
fn calls_of_first(alloc: Global) -> Result<u64, Fail> {
    for call in 0..MANY_CALLS {
        let (status, _, _) = run_failing(alloc, call)?;
        if status == Status::Ok {
            return Ok(call);
        }
    }
    Err("the run has too many calls".into())
}

/// Opens what a run that met a failure leaves, with no stop and after one.
fn assert_left(alloc: Global, device: &MemDevice, failure: &Failure) -> Result<(), Fail> {
    let found = FIRST.probe.finds(alloc, copy_of_pages(alloc, device)?)?;
    assert_same(&found, &Some(failure.held), (failure.call, "with no stop"))?;
    for (unsynced, tables) in UNSYNCED.iter().zip(&failure.finds) {
        let found = FIRST
            .probe
            .finds_after(alloc, device, device.moment(), *unsynced)?;
        assert_same(&found, &Some(*tables), (failure.call, *unsynced))?;
    }
    Ok(())
}

/// Runs the first commit over a device that fails a call. Answers the device that it left.
fn fail_first(alloc: Global, call: u64, failure: &Failure) -> Result<MemDevice, Fail> {
    let (status, replies, after) = run_failing(alloc, call)?;
    assert_same(&status, &Status::DeviceFault, failure.call)?;
    assert_same_slices(replies.as_slice(), failure.replies, failure.call)?;
    Ok(after)
}

/// Fails a call, and opens what that leaves, with no stop and after one.
fn assert_failure(alloc: Global, call: u64, failure: &Failure) -> Result<(), Fail> {
    let device = fail_first(alloc, call, failure)?;
    assert_left(alloc, &device, failure)
}

/// What a run of a commit that met a failure leaves opens to the tables before or after, with no stop
/// and after one.
fn assert_whole(alloc: Global, device: &MemDevice, commit: &Commit, call: u64) -> Result<(), Fail> {
    let case = ("commit", commit.number, "call", call);
    let found = commit.probe.finds(alloc, copy_of_pages(alloc, device)?)?;
    assert_same(&found.is_some(), &true, (case, "with no stop"))?;
    for unsynced in &UNSYNCED {
        let found = commit
            .probe
            .finds_after(alloc, device, device.moment(), *unsynced)?;
        assert_same(&found.is_some(), &true, (case, *unsynced))?;
    }
    Ok(())
}

/// Runs a commit over a store of which this call fails. Answers how the run ended.
fn fail_call(alloc: Global, store: &MemDevice, commit: &Commit, call: u64) -> Result<Status, Fail> {
    let device = failing_at(alloc, without_moments(alloc, store)?, call)?;
    let (status, _, after) = run_script(alloc, device, commit.row.script, WHOLE)?;
    assert_whole(alloc, &after, commit, call)?;
    Ok(status)
}

/// Makes runs, in each of which another call of the device fails, from the first on, up to the one that
/// makes fewer calls. Each other one ends with status 4.
pub(crate) fn assert_each_fails<F: FnMut(u64) -> Result<Status, Fail>>(
    mut run: F,
) -> Result<(), Fail>
    requires { F.IsAlwaysCallable run }
{
    for call in 0..MANY_CALLS {
        let status = run(call)?;
        if status == Status::Ok {
            return Ok(());
        }
        assert_same(&status, &Status::DeviceFault, ("call", call))?;
    }
    Err("the run has too many calls".into())
}

/// Fails each device call of a commit over a store. The run ends with status 4, and leaves the tables
/// before or after.
pub(crate) fn assert_failures(
    alloc: Global,
    store: &MemDevice,
    commit: &Commit,
) -> Result<(), Fail> {
    assert_each_fails(|call| fail_call(alloc, store, commit, call))
}

#[test]
fn a_commit_stopped_at_each_moment_opens_to_the_tables_before_or_after(
    rt: HostRuntime,
) -> Result<(), Fail> {
    let mut device = store_with_r(rt.alloc(), SMALL)?;
    for commit in [&FIRST, &SECOND] {
        device = assert_commit(rt.alloc(), device, commit, &UNSYNCED)?;
    }
    Ok(())
}

#[test]
fn a_device_call_that_fails_ends_the_run_with_status_4(rt: HostRuntime) -> Result<(), Fail> {
    let calls = calls_of_first(rt.alloc())?;
    let opening = calls
        .checked_sub(FAILURES.len() as u64)
        .ok_or("the run has too few calls")?;
    for call in 0..opening {
        assert_failure(rt.alloc(), call, &OPENING)?;
    }
    for (call, failure) in (opening..calls).zip(&FAILURES) {
        assert_failure(rt.alloc(), call, failure)?;
    }
    Ok(())
}
