//! A program that builds on the store: it makes a device one, defines a relation, inserts two tuples
//! in a transaction, and fetches them again after the store was opened anew.
#![tactic(auto)]

ghost use Rattle.std.specs.Prelude.{◌≡◌, true, [], ◌∷◌, IfOk, OnOk};
ghost use Rattle.rss_base.specs.declared.value.Value.TheVariants.{Int};
ghost use Rattle.rss_base.specs.declared.call.Call.TheVariants.{Insert, Fetch};
ghost use Rattle.rss_base.specs.declared.answer.Reply.TheVariants.{Tid as Identifier, Tuple as Found};
ghost use Rattle.rss_model.specs.Defining.{DefinesNames, LocksGranule};
ghost use Rattle.rss_embed.specs.Made.{Made};
ghost use Rattle.rss_rsi.specs.Parts.{view};

use rss_base::{
    Call, CallError, FieldDef, FieldKind, Fields, Name, OpenFault, Reply, Tid, Tuple, Value,
};
use rss_buffer::Saving;
use rss_device::MemDevice;
use rss_rsi::{MOST_FRAMES, Rss, format, open};
use rss_stored::{CALLS_MOST, Engine};
use std::alloc::{AllocError, Global};
use std::io;
use thiserror::Error;

/// What is defined: a segment, and in it a relation of one INT.
const SEGMENT: Name = Name {
    bytes: *b"s\0\0\0\0\0\0\0\0\0\0\0\0\0\0\0",
};

const RELATION: Name = Name {
    bytes: *b"r\0\0\0\0\0\0\0\0\0\0\0\0\0\0\0",
};

const FIELD: Name = Name {
    bytes: *b"a\0\0\0\0\0\0\0\0\0\0\0\0\0\0\0",
};

#[derive(Debug, Drop, Error)]
enum Failure {
    #[error("there is no store: {0:?}")]
    Store(#[from] OpenFault),
    #[error("the store was asked for as many calls as it may be")]
    Calls,
    #[error("a call failed: {0:?}")]
    Call(CallError),
    #[error("another reply than that of the call: {0:?}")]
    Reply(Reply),
    #[error("memory ran out")]
    Memory(#[from] AllocError),
    #[error("nothing could be printed: {0}")]
    Print(#[from] io::Error),
}

impl From<CallError> for Failure {
    fn from(error: CallError) -> Self {
        Failure::Call(error)
    }
}

/// Makes a call, if the engine may be asked for one more.
fn ask<E: Engine>(engine: &mut E, call: &Call) -> Result<Reply, Failure>
    requires names { DefinesNames call.now }
    requires granule { LocksGranule call.now }
    ensures { IfOk result (Made (E.view engine.old) (E.view engine.new) call.now) }
{
    if engine.calls() >= CALLS_MOST {
        return Err(Failure::Calls);
    }
    Ok(engine.call(call)?)
}

/// Defines the segment and its relation, each a commit of its own.
fn define<E: Engine>(engine: &mut E, alloc: Global) -> Result<(), Failure> {
    let mut fields = Fields::new(alloc);
    fields.push(FieldDef {
        name: FIELD,
        kind: FieldKind::Int,
        added: false,
    })?;
    ask(engine, &Call::MakeSegment(SEGMENT))?;
    ask(engine, &Call::MakeRelation(RELATION, SEGMENT, fields))?;
    Ok(())
}

/// Inserts a tuple of one INT in transaction 1.
fn insert<E: Engine>(engine: &mut E, alloc: Global, value: i64) -> Result<Tid, Failure>
    ensures { IfOk result (λ tid. Made (E.view engine.old) (E.view engine.new)
        (Insert 1 RELATION (Int value ∷ [])) (Identifier tid)) }
{
    let tuple = Tuple::single(alloc, Value::Int(value))?;
    match ask(engine, &Call::Insert(1, RELATION, tuple))? {
        Reply::Tid(tid) => Ok(tid),
        other => Err(Failure::Reply(other)),
    }
}

/// Defines the relation, inserts two tuples, and commits them together. Answers their identifiers.
fn insert_both<E: Engine>(engine: &mut E, alloc: Global) -> Result<[Tid; 2], Failure> {
    define(engine, alloc)?;
    ask(engine, &Call::Begin(1))?;
    let first = insert(engine, alloc, 7)?;
    let second = insert(engine, alloc, -7)?;
    ask(engine, &Call::End(1))?;
    Ok([first, second])
}

/// Fetches a tuple in transaction 1, into `row`.
fn fetch<S: Saving>(store: &mut Rss<S>, tid: Tid, row: &mut Tuple) -> Result<(), Failure>
    ensures { OnOk result (Made (view store.old) (view store.new)
        (Fetch 1 RELATION tid) (Found row.new)) }
{
    if store.calls() >= CALLS_MOST {
        return Err(Failure::Calls);
    }
    store.fetch_into(1, &RELATION, tid, row)?;
    Ok(())
}

/// Prints each of these tuples, as a run from now on finds them.
fn print_all<S: Saving, R: Print>(
    rt: &R,
    alloc: Global,
    store: &mut Rss<S>,
    tids: &[Tid],
) -> Result<(), Failure> {
    ask(store, &Call::Begin(1))?;
    let mut row = Tuple::new(alloc);
    for tid in tids {
        fetch(store, *tid, &mut row)?;
        println!(rt; "{}.{} holds {:?}", tid.page, tid.slot, row.as_slice())?;
    }
    Ok(())
}

fn main(rt: HostRuntime) -> Result<(), Failure> {
    let mut device = MemDevice::empty(rt.alloc());
    format(rt.alloc(), &mut device, 64, 8)?;
    let mut store = open(rt.alloc(), device, MOST_FRAMES).map_err(|unopened| unopened.fault)?;
    let tids = insert_both(&mut store, rt.alloc());
    // A store is given back as its device, whatever came out.
    let device = store.into_pages().into_device();
    let tids = tids?;
    let mut store = open(rt.alloc(), device, MOST_FRAMES).map_err(|unopened| unopened.fault)?;
    let printed = print_all(&rt, rt.alloc(), &mut store, &tids);
    let _ = store.into_pages().into_device();
    printed
}
