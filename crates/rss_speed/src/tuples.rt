// How fast the calls are over a relation without images.
use crate::{
    RELATION, Work, begin, define, end, end_of_batch, insert, one_value, rate, scan_all, set_value,
    test_calls,
};
use anyhow::{Result, bail};
use rss_base::{Reply, Tid, Tuple};
use rss_buffer::Saving;
use rss_rsi::Rss;
use std::alloc::Global;
use std::time::Instant;

/// How many fetches are made.
const FETCHES: u32 = 1_000_000;

/// How many updates are made.
const UPDATES: u32 = 200_000;

/// From one tuple that is fetched or changed to the next.
const STEP: usize = 7919;

fn fetch<S: Saving>(store: &mut Rss<S>, tid: Tid, row: &mut Tuple) -> Result<i64> {
    test_calls(store)?;
    match store.fetch_into(1, &RELATION, tid, row) {
        Ok(()) => one_value(row),
        Err(error) => bail!("a fetch was answered {error:?}"),
    }
}

/// Gives a tuple this value, by way of `row`.
fn update<S: Saving>(store: &mut Rss<S>, tid: Tid, row: &mut Tuple, value: u32) -> Result<()> {
    set_value(row, i64::from(value))?;
    test_calls(store)?;
    match store.update(1, &RELATION, tid, row) {
        Ok(_) => Ok(()),
        Err(error) => bail!("an update was answered {error:?}"),
    }
}

/// Commits of one insert.
fn commit_each<S: Saving>(
    store: &mut Rss<S>,
    alloc: Global,
    commits: u32,
    tids: &mut Vec<Tid>,
) -> Result<()> {
    let mut row = Tuple::new(alloc);
    for value in 0..commits {
        begin(store)?;
        tids.push(insert(store, &mut row, value)?)?;
        end(store)?;
    }
    Ok(())
}

/// Inserts in transactions of a batch.
fn insert_all<S: Saving>(
    store: &mut Rss<S>,
    alloc: Global,
    commits: u32,
    work: Work,
    tids: &mut Vec<Tid>,
) -> Result<()> {
    let mut row = Tuple::new(alloc);
    begin(store)?;
    for value in commits..work.tuples {
        tids.push(insert(store, &mut row, value)?)?;
        end_of_batch(store, value, work)?;
    }
    end(store)
}

/// Fetches of tuples that are far apart.
fn fetch_some<S: Saving>(store: &mut Rss<S>, alloc: Global, tids: &[Tid]) -> Result<()> {
    let mut row = Tuple::new(alloc);
    begin(store)?;
    let mut place = 0;
    for _ in 0..FETCHES {
        let Some(tid) = tids.get(place) else {
            bail!("no tuples");
        };
        let _ = fetch(store, *tid, &mut row)?;
        place = (place + STEP) % tids.len().max(1);
    }
    end(store)
}

/// Updates of tuples that are far apart, in transactions of a batch.
fn update_some<S: Saving>(
    store: &mut Rss<S>,
    alloc: Global,
    work: Work,
    tids: &[Tid],
) -> Result<()> {
    let mut row = Tuple::new(alloc);
    begin(store)?;
    let mut place = 0;
    for value in 0..UPDATES {
        let Some(tid) = tids.get(place) else {
            bail!("no tuples");
        };
        update(store, *tid, &mut row, value)?;
        end_of_batch(store, value, work)?;
        place = (place + STEP) % tids.len().max(1);
    }
    end(store)
}

/// Goes through the whole relation.
fn scan_relation<S: Saving>(store: &mut Rss<S>, alloc: Global, work: Work) -> Result<()> {
    begin(store)?;
    test_calls(store)?;
    match store.open_relation(1, &RELATION) {
        Ok(Reply::Number(scan)) => scan_all(store, alloc, scan, work)?,
        other => bail!("a scan was answered {other:?}"),
    }
    end(store)
}

/// Does the work over a store, and prints how many a second it makes of commits, inserts, fetches and
/// updates, and of the tuples of a scan.
pub(crate) fn measure_tuples<S: Saving>(
    rt: &HostRuntime,
    store: &mut Rss<S>,
    commits: u32,
    work: Work,
) -> Result<()> {
    let alloc = rt.alloc();
    define(store, alloc)?;
    let mut tids = Vec::new(alloc);
    let start = Instant::now(rt)?;
    commit_each(store, alloc, commits, &mut tids)?;
    let committed = Instant::now(rt)?;
    insert_all(store, alloc, commits, work, &mut tids)?;
    let inserted = Instant::now(rt)?;
    fetch_some(store, alloc, tids.as_slice())?;
    let fetched = Instant::now(rt)?;
    update_some(store, alloc, work, tids.as_slice())?;
    let updated = Instant::now(rt)?;
    scan_relation(store, alloc, work)?;
    let scanned = Instant::now(rt)?;
    println!(rt;
        "rss {} {} {} {} {}",
        rate(commits, committed.duration_since(start)),
        rate(
            work.tuples.saturating_sub(commits),
            inserted.duration_since(committed)
        ),
        rate(FETCHES, fetched.duration_since(inserted)),
        rate(UPDATES, updated.duration_since(fetched)),
        rate(work.tuples, scanned.duration_since(updated))
    )?;
    Ok(())
}
