// The tables that a store opens to.
ghost use Rattle.rss_model.specs.Defining.{DefinesNames, LocksGranule};

use anyhow::{Result, bail, ensure};
use rss_base::{Call, CallError, Kind, Name, Page, Refusal, Reply, Tuple, Value};
use rss_device::MemDevice;
use rss_rsi::{MOST_FRAMES, open};
use rss_stored::{CALLS_MOST, Engine};
use std::alloc::Global;

/// The relation whose tuples are shown.
const RELATION: Name = Name {
    bytes: *b"r\0\0\0\0\0\0\0\0\0\0\0\0\0\0\0",
};

/// A relation has no more tuples.
const MOST_TUPLES: u32 = 1 << 20;

/// The INT of a tuple of one field.
fn int_of(tuple: &Tuple) -> Result<i64> {
    match tuple.as_slice() {
        [Value::Int(number)] => Ok(*number),
        _ => bail!("a tuple of other fields"),
    }
}

/// Makes a call, if the engine may be asked for one more.
fn ask<E: Engine>(engine: &mut E, call: &Call) -> Result<Result<Reply, CallError>>
    requires names { DefinesNames call.now }
    requires granule { LocksGranule call.now }
{
    ensure!(engine.calls() < CALLS_MOST, "too many calls");
    Ok(engine.call(call))
}

/// All tuples, in the order of their identifiers, and none if there is no such relation.
fn scan_all<E: Engine>(engine: &mut E, alloc: Global) -> Result<Vec<i64>> {
    let mut values = Vec::new(alloc);
    if let Err(error) = ask(engine, &Call::Begin(1))? {
        bail!("a begin was answered {error:?}");
    }
    let scan = match ask(engine, &Call::OpenRelation(1, RELATION))? {
        Ok(Reply::Number(scan)) => scan,
        Err(CallError::Refused(Refusal::NoSuch(Kind::Relation))) => return Ok(values),
        other => bail!("a scan was answered {other:?}"),
    };
    for _ in 0..MOST_TUPLES {
        match ask(engine, &Call::Next(1, scan))? {
            Ok(Reply::Row(_, tuple)) => values.push(int_of(&tuple)?)?,
            Ok(Reply::End) => break,
            other => bail!("a scan was answered {other:?}"),
        }
    }
    Ok(values)
}

/// The tuples of the store in these pages, in the order of their identifiers.
pub(crate) fn values_in(alloc: Global, pages: Vec<Page>) -> Result<Vec<i64>> {
    let mut store = match open(alloc, MemDevice::new(alloc, pages)?, MOST_FRAMES) {
        Ok(store) => store,
        Err(unopened) => bail!("a stop left no store: {}", unopened.fault),
    };
    let values = scan_all(&mut store, alloc);
    let _ = store.into_pages().into_device();
    values
}
