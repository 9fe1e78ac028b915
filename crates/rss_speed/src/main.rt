//! How fast the engine's calls are, made in-process over a file. It measures commits of one insert,
//! inserts and updates in transactions of a batch with their commits, fetches, and a scan. Over a
//! relation with an image it measures inserts, look-ups and a scan. `examples/peers.sh` runs it
//! beside other engines.
#![tactic(auto)]

mod images;
mod tuples;

ghost use Rattle.std.specs.Prelude.{◌≡◌, ◌<◌, true, OnOk};
ghost use Rattle.rss_model.specs.Defining.{DefinesNames, LocksGranule};
ghost use Rattle.rss_rsi.specs.Parts.{view};
ghost use Rattle.rss_stored.specs.Calls.{calls_most};

use crate::images::{Keys, measure_image};
use crate::tuples::measure_tuples;
use anyhow::{Result, bail, ensure};
use rss_base::{Call, FieldDef, FieldKind, Fields, Name, Reply, Tid, Tuple, Value};
use rss_buffer::Saving;
use rss_device::FileDevice;
use rss_rsi::{MOST_FRAMES, Rss, format, open};
use rss_stored::{CALLS_MOST, Engine};
use std::alloc::Global;
use std::env;
use std::process::ExitCode;
use std::time::Duration;

/// How large the store is.
const SLOTS: u32 = 65_536;

const LOG_PAGES: u32 = 160;

/// What is defined: a segment, and in it a relation of one INT.
pub(crate) const SEGMENT: Name = Name {
    bytes: *b"s\0\0\0\0\0\0\0\0\0\0\0\0\0\0\0",
};

pub(crate) const RELATION: Name = Name {
    bytes: *b"r\0\0\0\0\0\0\0\0\0\0\0\0\0\0\0",
};

pub(crate) const FIELD: Name = Name {
    bytes: *b"a\0\0\0\0\0\0\0\0\0\0\0\0\0\0\0",
};

/// How many tuples there are to be, and how many inserts a transaction.
#[derive(Clone, Copy)]
pub(crate) struct Work {
    pub(crate) tuples: u32,
    pub(crate) batch: u32,
}

/// What is measured.
#[derive(Clone, Copy)]
enum Measure {
    /// Only tuples, with so many commits of one insert first.
    Tuples(u32),
    /// A relation with an image, whose keys are these.
    Image(Keys),
}

/// Makes a call, if the engine may be asked for one more.
pub(crate) fn ask<E: Engine>(engine: &mut E, call: &Call) -> Result<Reply>
    requires names { DefinesNames call.now }
    requires granule { LocksGranule call.now }
{
    ensure!(engine.calls() < CALLS_MOST, "too many calls");
    match engine.call(call) {
        Ok(reply) => Ok(reply),
        Err(error) => bail!("{call:?} was answered {error:?}"),
    }
}

/// Defines the segment and its relation.
pub(crate) fn define<E: Engine>(engine: &mut E, alloc: Global) -> Result<()> {
    let mut fields = Fields::new(alloc);
    fields.push(FieldDef {
        name: FIELD,
        kind: FieldKind::Int,
        added: false,
    })?;
    ask(engine, &Call::MakeSegment(SEGMENT))?;
    ask(engine, &Call::MakeRelation(RELATION, SEGMENT, fields))?;
    Ok(())
}

pub(crate) fn begin<E: Engine>(engine: &mut E) -> Result<()> {
    ask(engine, &Call::Begin(1))?;
    Ok(())
}

pub(crate) fn end<E: Engine>(engine: &mut E) -> Result<()> {
    ask(engine, &Call::End(1))?;
    Ok(())
}

/// Tests that the store may be asked for one more call.
pub(crate) fn test_calls<S: Saving>(store: &Rss<S>) -> Result<()>
    ensures { OnOk result ((view store.now).calls < calls_most) }
{
    ensure!(store.calls() < CALLS_MOST, "too many calls");
    Ok(())
}

/// Makes it the tuple of one INT.
pub(crate) fn set_value(tuple: &mut Tuple, value: i64) -> Result<()> {
    tuple.clear();
    tuple.push(Value::Int(value))?;
    Ok(())
}

/// Puts a tuple of this value, in the memory of `row`.
pub(crate) fn insert<S: Saving>(store: &mut Rss<S>, row: &mut Tuple, value: u32) -> Result<Tid> {
    set_value(row, i64::from(value))?;
    test_calls(store)?;
    match store.insert(1, &RELATION, row) {
        Ok(Reply::Tid(tid)) => Ok(tid),
        other => bail!("an insert was answered {other:?}"),
    }
}

/// Ends the transaction after the last call of its batch, of calls that are numbered from 0 on, and begins
/// the next.
pub(crate) fn end_of_batch<E: Engine>(engine: &mut E, call: u32, work: Work) -> Result<()> {
    if call % work.batch.max(1) == work.batch.max(1) - 1 {
        end(engine)?;
        begin(engine)?;
    }
    Ok(())
}

/// The value of a tuple of one INT.
pub(crate) fn one_value(tuple: &Tuple) -> Result<i64> {
    match tuple.as_slice() {
        [Value::Int(value)] => Ok(*value),
        _ => bail!("a tuple of other fields"),
    }
}

/// The next tuple's value, if there is one. The tuple comes into the memory of `row`.
pub(crate) fn next<S: Saving>(
    store: &mut Rss<S>,
    scan: u32,
    row: &mut Tuple,
) -> Result<Option<i64>> {
    test_calls(store)?;
    match store.next_into(1, scan, row) {
        Ok(Some(_)) => Ok(Some(one_value(row)?)),
        Ok(None) => Ok(None),
        Err(error) => bail!("a scan was answered {error:?}"),
    }
}

/// Goes through as many tuples of a scan as there are to be.
pub(crate) fn scan_all<S: Saving>(
    store: &mut Rss<S>,
    alloc: Global,
    scan: u32,
    work: Work,
) -> Result<()> {
    let mut row = Tuple::new(alloc);
    for _ in 0..work.tuples {
        if next(store, scan, &mut row)?.is_none() {
            bail!("the scan ends early");
        }
    }
    Ok(())
}

/// How many a second.
pub(crate) fn rate(count: u32, time: Duration) -> u128 {
    u128::from(count) * 1_000_000_000 / time.as_nanos().max(1)
}

/// The file and the work that the words of the command line name.
fn read_words(words: &[String]) -> Option<(&str, Measure, Work)> {
    let [_, file, first, tuples, batch] = words else {
        return None;
    };
    let work = Work {
        tuples: tuples.parse().ok()?,
        batch: batch.parse().ok()?,
    };
    let measure = match Keys::named(first.as_str()) {
        Some(keys) => Measure::Image(keys),
        None => Measure::Tuples(first.parse().ok()?),
    };
    Some((file.as_str(), measure, work))
}

/// Makes the file a store, and does the work over it.
fn run(rt: &HostRuntime, file: &str, measure: Measure, work: Work) -> Result<()> {
    let mut device = FileDevice::new(rt, file);
    format(rt.alloc(), &mut device, SLOTS, LOG_PAGES)?;
    let mut store = open(rt.alloc(), device, MOST_FRAMES).map_err(|unopened| unopened.fault)?;
    let measured = match measure {
        Measure::Tuples(commits) => measure_tuples(rt, &mut store, commits, work),
        Measure::Image(keys) => measure_image(rt, &mut store, work, keys),
    };
    let _ = store.into_pages().into_device();
    measured
}

fn main(rt: HostRuntime) -> Result<ExitCode> {
    let words: Vec<String> = env::args(&rt)?.collect(rt.alloc())?;
    let Some((file, measure, work)) = read_words(words.as_slice()) else {
        eprintln!(&rt; "usage: rss_speed FILE COMMITS|rising|scattered|unique TUPLES BATCH")?;
        return Ok(ExitCode::from(1));
    };
    run(&rt, file, measure, work)?;
    Ok(ExitCode::SUCCESS)
}
