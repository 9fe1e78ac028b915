// What an engine counts: its pages, and the room that its changes may need.
ghost use Rattle.std.specs.Prelude.{◌<◌};
ghost use Rattle.rss_stored.specs.Calls.{calls_most};

use crate::harness::{SMALL, store_with_r};
use rss_base::{Call, CallError, Name, Reply, Tid, Tuple, Value};
use rss_buffer::Saving;
use rss_images::assert_same;
use rss_rsi::{LEAST_FRAMES, MOST_FRAMES, Rss, open};
use rss_stored::{CALLS_MOST, Engine};
use std::alloc::Global;
use std::test::Fail;

/// The relation of one INT.
const R: Name = Name {
    bytes: *b"r\0\0\0\0\0\0\0\0\0\0\0\0\0\0\0",
};

/// The identifier of its first tuple.
const FIRST: Tid = Tid { page: 0, slot: 0 };

/// A call in transaction 1.
#[derive(Clone, Copy, Debug)]
enum Step {
    Begin,
    Insert(i64),
    Delete(Tid),
    End,
    Checkpoint,
}

/// What an engine counts: how many pages are mapped, how many of them are home and overflow pages, and
/// how many slots the changes may need, and how many bytes the log has room for.
type Counts = (u32, u32, u64, u64);

/// Calls over a store of 64 slots with a relation, the identifier that each gives, and the counts after
/// it.
static STEPS: [(Step, Option<Tid>, Counts); 8] = [
    (Step::Begin, None, (10, 0, 20, ROOM)),
    (Step::Insert(7), Some(FIRST), (11, 1, 28, ROOM - 22)),
    (Step::End, None, (11, 1, 28, ROOM - 27)),
    (Step::Checkpoint, None, (11, 1, 22, ROOM - 29)),
    (Step::Begin, None, (11, 1, 22, ROOM - 29)),
    // The page goes with its last tuple.
    (Step::Delete(FIRST), None, (10, 0, 30, ROOM - 51)),
    (Step::End, None, (10, 0, 30, ROOM - 56)),
    (Step::Checkpoint, None, (10, 0, 20, ROOM - 58)),
];

/// How many bytes the log of 8 pages has room for behind the three Checkpoint records of the format and
/// of the definitions.
const ROOM: u64 = 9 * 4000 - 1 - 6;

fn counts_of<S: Saving>(store: &Rss<S>) -> Counts {
    (store.mapped(), store.heap(), store.room(), store.log_free())
}

fn insert<E: Engine>(alloc: Global, engine: &mut E, value: i64) -> Result<Reply, CallError>
    requires { (E.view engine.old).calls < calls_most }
{
    match Tuple::single(alloc, Value::Int(value)) {
        Ok(tuple) => engine.call(&Call::Insert(1, R, tuple)),
        Err(_) => Err(CallError::NoMemory),
    }
}

/// Makes a call. Answers the identifier that it gives, if any.
fn make<E: Engine>(alloc: Global, engine: &mut E, step: Step) -> Result<Option<Tid>, Fail> {
    if engine.calls() >= CALLS_MOST {
        return Err("too many calls".into());
    }
    let answer = match step {
        Step::Begin => engine.call(&Call::Begin(1)),
        Step::Insert(value) => insert(alloc, engine, value),
        Step::Delete(tid) => engine.call(&Call::Delete(1, R, tid)),
        Step::End => engine.call(&Call::End(1)),
        Step::Checkpoint => engine.call(&Call::Checkpoint),
    };
    match answer {
        Ok(Reply::Ok) => Ok(None),
        Ok(Reply::Tid(tid)) => Ok(Some(tid)),
        _ => Err("a call was not done".into()),
    }
}

fn assert_steps<S: Saving>(alloc: Global, store: &mut Rss<S>) -> Result<(), Fail> {
    assert_same(&store.slots(), &SMALL, "the slots")?;
    assert_same(&counts_of(store), &(10, 0, 20, ROOM), "at the opening")?;
    for (step, tid, counts) in &STEPS {
        let found = make(alloc, store, *step)?;
        assert_same(&found, tid, *step)?;
        assert_same(&counts_of(store), counts, *step)?;
    }
    Ok(())
}

/// The steps, with so many pages in memory.
fn assert_counts(alloc: Global, frames: u32) -> Result<(), Fail> {
    if frames < LEAST_FRAMES || frames > MOST_FRAMES {
        return Err("so many frames no store has".into());
    }
    let Ok(mut store) = open(alloc, store_with_r(alloc, SMALL)?, frames) else {
        return Err("there is no store".into());
    };
    let asserted = assert_steps(alloc, &mut store);
    let _ = store.into_pages().into_device();
    asserted
}

#[test]
fn an_engine_counts_its_pages_and_its_room(rt: HostRuntime) -> Result<(), Fail> {
    assert_counts(rt.alloc(), MOST_FRAMES)?;
    assert_counts(rt.alloc(), LEAST_FRAMES)
}
