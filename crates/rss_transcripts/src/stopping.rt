// Runs that are stopped at each of their moments, openings that are, and device calls that fail.
use crate::lines::Lines;
use crate::part::Part;
use crate::running::WHOLE;
use anyhow::{Result, bail, ensure};
use rss_device::{MemDevice, Unsynced};
use rss_images::{UNSYNCED, failing_at};
use rss_scripts::{run_script, without_moments};
use rss_top::Status;
use std::alloc::Global;

/// A run, with the store before it and the one that it left.
#[derive(Clone, Copy)]
pub(crate) struct Ran<'a> {
    pub(crate) lines: &'a Lines,
    pub(crate) before: &'a MemDevice,
    pub(crate) after: &'a MemDevice,
}

/// How the lines that commit begin.
const COMMITS: [&[u8]; 7] = [
    b"end ",
    b"segment ",
    b"relation ",
    b"image ",
    b"unique ",
    b"link ",
    b"drop ",
];

/// No run has as many calls of the device.
const MANY_CALLS: u64 = 10_000;

/// What a stop at a moment leaves.
pub(crate) fn image_at(
    alloc: Global,
    device: &MemDevice,
    moment: usize,
    unsynced: Unsynced,
) -> Result<MemDevice> {
    ensure!(moment <= device.moment(), "there is no such moment");
    Ok(MemDevice::new(alloc, device.image_at(alloc, moment, unsynced)?)?)
}

/// How many commits are found in a store: those of the first part that has the replies of its lines.
fn commits_found(alloc: Global, store: MemDevice, found: &[Part]) -> Result<Option<usize>> {
    let Some(first) = found.first() else {
        return Ok(None);
    };
    let (_, replies, _) = run_script(alloc, store, first.lines.script.as_slice(), WHOLE)?;
    Ok(
        found
            .iter()
            .position(|part| part.lines.replies.as_slice() == replies.as_slice()),
    )
}

/// Where so many commits are found whatever a stop at the moment before leaves, this one leaves as many,
/// or one more. Answers how many are found whatever it leaves.
fn assert_stop(
    alloc: Global,
    after: &MemDevice,
    found: &[Part],
    moment: usize,
    committed: usize,
) -> Result<usize> {
    let next = committed.saturating_add(1);
    let mut fewest = next;
    for unsynced in UNSYNCED {
        let image = image_at(alloc, after, moment, unsynced)?;
        let here = commits_found(alloc, image, found)?;
        if here == Some(committed) {
            fewest = committed;
        } else if here != Some(next) {
            bail!("a stop at moment {moment}, {unsynced:?}, leaves the commits {here:?}");
        }
    }
    Ok(fewest)
}

/// Stops a run at each of its moments.
fn assert_stops(alloc: Global, after: &MemDevice, found: &[Part], all: usize) -> Result<()> {
    let mut committed = 0;
    for moment in 0..=after.moment() {
        committed = assert_stop(alloc, after, found, moment, committed)?;
    }
    ensure!(committed == all, "the run leaves {committed} commits");
    Ok(())
}

/// An opening that is stopped at a moment is made again.
fn assert_opening(
    alloc: Global,
    opened: &MemDevice,
    found: &[Part],
    moment: usize,
    all: usize,
) -> Result<()> {
    for unsynced in UNSYNCED {
        let image = image_at(alloc, opened, moment, unsynced)?;
        let here = commits_found(alloc, image, found)?;
        if here != Some(all) {
            bail!("an opening stopped at moment {moment}, {unsynced:?}, leaves {here:?}");
        }
    }
    Ok(())
}

/// Opens what a run left, which writes, and stops the opening at each of its moments.
fn assert_openings(alloc: Global, after: &MemDevice, found: &[Part], all: usize) -> Result<()> {
    let (_, _, opened) = run_script(alloc, without_moments(alloc, after)?, b"", WHOLE)?;
    ensure!(
        opened.moment_of_write(0).is_some(),
        "the opening writes nothing"
    );
    for moment in 0..=opened.moment() {
        assert_opening(alloc, &opened, found, moment, all)?;
    }
    Ok(())
}

fn is_commit(line: &[u8]) -> bool {
    COMMITS.iter().any(|word| line.starts_with(word))
}

/// How many of the first lines of a script commit, of so many.
fn commits_in(script: &[u8], lines: usize) -> usize {
    script
        .split(|byte| *byte == b'\n')
        .take(lines)
        .filter(|line| is_commit(line))
        .count()
}

/// Behind so many replies a call of the device failed. Without the failure the device opens to the tables
/// before the next line or after it.
fn assert_left(
    alloc: Global,
    left: &MemDevice,
    script: &[u8],
    found: &[Part],
    replies: usize,
) -> Result<()> {
    let here = commits_found(alloc, without_moments(alloc, left)?, found)?;
    if here == Some(commits_in(script, replies)) {
        return Ok(());
    }
    let next = commits_in(script, replies.saturating_add(1));
    if here != Some(next) {
        bail!("a fault behind {replies} replies leaves the commits {here:?}");
    }
    Ok(())
}

/// Runs lines over a store of which this call fails. Answers how that ended.
fn fail_call(alloc: Global, ran: Ran, found: &[Part], call: u64) -> Result<Status> {
    let device = failing_at(alloc, without_moments(alloc, ran.before)?, call)?;
    let script = ran.lines.script.as_slice();
    let (status, replies, left) = run_script(alloc, device, script, WHOLE)?;
    let is_front = ran.lines.replies.as_slice().starts_with(replies.as_slice());
    ensure!(is_front, "other replies, where call {call} fails");
    let count = replies
        .as_slice()
        .iter()
        .filter(|byte| **byte == b'\n')
        .count();
    assert_left(alloc, &left, script, found, count)?;
    Ok(status)
}

/// Fails each call of the device once, in the opening and in the run.
fn assert_faults(alloc: Global, ran: Ran, found: &[Part]) -> Result<()> {
    for call in 0..MANY_CALLS {
        let status = fail_call(alloc, ran, found, call)?;
        if status == Status::Ok {
            return Ok(());
        }
        ensure!(
            status == Status::DeviceFault,
            "call {call} fails, and it ended with {status:?}"
        );
    }
    bail!("too many calls");
}

/// A run makes the commits of these parts, the first of which is none, wherever it is stopped.
pub(crate) fn assert_commits(alloc: Global, ran: Ran, found: &[Part]) -> Result<()> {
    let Some(all) = found.len().checked_sub(1) else {
        return Ok(());
    };
    assert_stops(alloc, ran.after, found, all)?;
    assert_openings(alloc, ran.after, found, all)?;
    assert_faults(alloc, ran, found)
}
