// Lines that define segments and relations and that take them away, stopped and with device calls that
// fail. Each is a commit of one page of the catalog.
use crate::harness::{ABSENT, PROBE, Row, SMALL, UNDEFINED, empty_store};
use crate::stops::{Commit, Probe, assert_commit, assert_failures};
use rss_images::UNSYNCED;
use rss_scripts::without_moments;
use std::test::Fail;

/// A line that is one commit: the page of the catalog, the map, the root and the selector.
fn defining(
    number: u32,
    script: &'static [u8],
    probe: Probe<'static>,
    root: u8,
) -> Commit<'static> {
    Commit {
        number,
        row: Row {
            script,
            replies: b"ok\n",
        },
        probe,
        opening: 0,
        writes: 4,
        root,
    }
}

/// Whether the segment isn't there, or is.
const SEGMENT: Probe<'static> = Probe {
    script: b"segment s\n",
    before: b"ok\n",
    after: b"refused 6 name taken\n",
};

/// Whether the relation isn't there, or is.
const RELATION: Probe<'static> = Probe {
    script: PROBE,
    before: UNDEFINED,
    after: ABSENT,
};

/// What a probe tells, the other way round.
fn turned(probe: Probe<'static>) -> Probe<'static> {
    Probe {
        script: probe.script,
        before: probe.after,
        after: probe.before,
    }
}

/// All kinds of definitions, each over the store that the one before it left.
fn definitions() -> [Commit<'static>; 4] {
    [
        defining(0, b"segment s\n", SEGMENT, 2),
        defining(1, b"relation r s a:int\n", RELATION, 1),
        defining(2, b"drop relation r\n", turned(RELATION), 2),
        defining(3, b"drop segment s\n", turned(SEGMENT), 1),
    ]
}

#[test]
fn a_definition_stopped_at_each_moment_is_there_or_not(rt: HostRuntime) -> Result<(), Fail> {
    let mut device = empty_store(rt.alloc(), SMALL)?;
    for commit in &definitions() {
        device = assert_commit(rt.alloc(), device, commit, &UNSYNCED)?;
    }
    Ok(())
}

#[test]
fn a_definition_with_a_device_call_that_fails_is_there_or_not(rt: HostRuntime) -> Result<(), Fail> {
    let mut device = empty_store(rt.alloc(), SMALL)?;
    for commit in &definitions() {
        let store = without_moments(rt.alloc(), &device)?;
        assert_failures(rt.alloc(), &store, commit)?;
        device = assert_commit(rt.alloc(), device, commit, &[])?;
    }
    Ok(())
}
