// Who holds a relation, as an engine tells it.
ghost use Rattle.std.specs.Prelude.{◌<◌};
ghost use Rattle.rss_stored.specs.Calls.{calls_most};

use crate::harness::{SMALL, store_with_r};
use rss_base::{Call, CallError, Item, Name, Reply};
use rss_buffer::Saving;
use rss_images::assert_same;
use rss_rsi::{MOST_FRAMES, Rss, open};
use rss_stored::{CALLS_MOST, Engine};
use std::alloc::Global;
use std::test::Fail;

/// The relation, and its segment.
const RELATION: Name = Name {
    bytes: *b"r\0\0\0\0\0\0\0\0\0\0\0\0\0\0\0",
};

const SEGMENT: Name = Name {
    bytes: *b"s\0\0\0\0\0\0\0\0\0\0\0\0\0\0\0",
};

/// A call of a transaction. It locks the relation shared.
#[derive(Clone, Copy, Debug)]
enum Step {
    Begin(u32),
    Lock(u32),
    End(u32),
}

/// Calls, and the least transaction that holds the relation, and so its segment, behind each.
static STEPS: [(Step, Option<u32>); 7] = [
    (Step::Begin(1), None),
    (Step::Begin(2), None),
    (Step::Lock(2), Some(2)),
    (Step::Lock(1), Some(1)),
    (Step::Lock(2), Some(1)),
    (Step::End(1), Some(2)),
    (Step::End(2), None),
];

fn make<E: Engine>(engine: &mut E, step: Step) -> Result<Reply, CallError>
    requires { (E.view engine.old).calls < calls_most }
{
    match step {
        Step::Begin(transaction) => engine.call(&Call::Begin(transaction)),
        Step::Lock(transaction) => {
            engine.call(&Call::Lock(transaction, Item::Relation(RELATION), false))
        }
        Step::End(transaction) => engine.call(&Call::End(transaction)),
    }
}

fn assert_step<S: Saving>(store: &mut Rss<S>, step: Step, want: &Option<u32>) -> Result<(), Fail> {
    if store.calls() >= CALLS_MOST {
        return Err("too many calls".into());
    }
    if make(store, step).is_err() {
        return Err("a call was not done".into());
    }
    assert_same(&store.holder(&Item::Relation(RELATION)), want, step)?;
    assert_same(&store.holder(&Item::Segment(SEGMENT)), want, step)
}

fn assert_steps<S: Saving>(store: &mut Rss<S>) -> Result<(), Fail> {
    for (step, holder) in &STEPS {
        assert_step(store, *step, holder)?;
    }
    Ok(())
}

#[test]
fn an_engine_tells_the_least_that_holds(rt: HostRuntime) -> Result<(), Fail> {
    let Ok(mut store) = open(rt.alloc(), store_with_r(rt.alloc(), SMALL)?, MOST_FRAMES) else {
        return Err("there is no store".into());
    };
    let asserted = assert_steps(&mut store);
    let _ = store.into_pages().into_device();
    asserted
}
