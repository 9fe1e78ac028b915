// Logs, and what they recover, in plain lists.
ghost use Rattle.std.specs.Prelude.{◌≡◌, length, IfSome};
ghost use Rattle.rss_base.specs.LogRecords.{IsBounded, IsChangeBounded, HasSlot};

use rss_base::{Body, Change, LogRecord, Marks, Tail, Tid};
use rss_device::MemDevice;
use rss_images::filled_pages;
use rss_log::Log;
use rss_record::{RECORD_BYTES, write_record};
use std::alloc::Global;
use std::test::Fail;

/// How many tuples there may be: those with identifiers 0.0 to 0.7.
pub(crate) const TUPLES: usize = 8;

/// The number of their relation.
pub(crate) const RELATION: u8 = 1;

/// The number of the link, in whose one chain they stand.
const LINK: u8 = 1;

/// How many log pages the device has.
const LOG_PAGES: u32 = 16;

/// What each tuple holds, if there is one.
pub(crate) type Values = [Option<u8>; TUPLES];

/// What a transaction does, by its number. Beside the log only values are kept, and not the chain.
#[derive(Clone, Copy, Debug)]
pub(crate) enum Step {
    /// It gives a tuple this value, or takes it away.
    Put(u32, usize, Option<u8>),
    /// It goes back to where it had made so many of its changes.
    Back(u32, usize),
    End(u32),
    Abort(u32),
    /// It puts a tuple into the chain, right after another one or first, or takes it out there.
    Join(u32, usize, Option<usize>),
    Leave(u32, usize, Option<usize>),
    /// The tables are saved.
    Checkpoint,
}

/// A change that is neither committed nor undone.
#[derive(Clone, Copy, Debug)]
struct Made {
    at: u64,
    by: u32,
    tuple: usize,
    from: Option<u8>,
    to: Option<u8>,
}

/// A log, and the tables as the definition has them.
#[derive(Drop)]
pub(crate) struct Written {
    pub log: Log,
    /// Where the last Checkpoint record begins.
    pub checkpoint: u64,
    /// The tables at the last checkpoint.
    pub saved: Values,
    /// Those that are committed.
    pub base: Values,
    /// Those with what is open.
    now: Values,
    open: Vec<Made>,
}

impl Written {
    /// A log that begins with a checkpoint of empty tables.
    pub(crate) fn new(alloc: Global) -> Result<Self, Fail> {
        let mut written = Written {
            log: new_log(alloc)?,
            checkpoint: 0,
            saved: [None; TUPLES],
            base: [None; TUPLES],
            now: [None; TUPLES],
            open: Vec::new(alloc),
        };
        written.step(Step::Checkpoint)?;
        Ok(written)
    }

    pub(crate) fn steps(&mut self, steps: &[Step]) -> Result<(), Fail> {
        for step in steps {
            self.step(*step)?;
        }
        Ok(())
    }

    pub(crate) fn step(&mut self, step: Step) -> Result<(), Fail> {
        match step {
            Step::Put(by, tuple, to) => self.put(by, tuple, to),
            Step::Back(by, count) => self.back(by, count),
            Step::End(by) => self.end(by),
            Step::Abort(by) => self.abort(by),
            Step::Join(by, tuple, left) => self.relink(by, connect(tuple, left)),
            Step::Leave(by, tuple, left) => self.relink(by, disconnect(tuple, left)),
            Step::Checkpoint => self.save(),
        }
    }

    /// Whether another transaction has changed the tuple.
    pub(crate) fn is_taken(&self, by: u32, tuple: usize) -> bool {
        self.open
            .iter()
            .any(|made| made.tuple == tuple && made.by != by)
    }

    fn put(&mut self, by: u32, tuple: usize, to: Option<u8>) -> Result<(), Fail> {
        let from = held(&self.now, tuple);
        let Some(change) = change_of(tuple, from, to) else {
            return Ok(());
        };
        let at = append(&mut self.log, &LogRecord::Change(by, change))?;
        set(&mut self.now, tuple, to);
        self.open.push(Made {
            at,
            by,
            tuple,
            from,
            to,
        })?;
        Ok(())
    }

    /// Appends the record of a change of the chain.
    fn relink(&mut self, by: u32, change: Change) -> Result<(), Fail>
        requires { IsChangeBounded change }
    {
        append(&mut self.log, &LogRecord::Change(by, change))?;
        Ok(())
    }

    fn back(&mut self, by: u32, count: usize) -> Result<(), Fail> {
        let Some(made) = self.open.iter().filter(|made| made.by == by).nth(count) else {
            return Ok(());
        };
        let first = made.at;
        append(&mut self.log, &LogRecord::Restore(by, first))?;
        self.cut(by, first);
        Ok(())
    }

    fn abort(&mut self, by: u32) -> Result<(), Fail> {
        append(&mut self.log, &LogRecord::Abort(by))?;
        self.cut(by, 0);
        Ok(())
    }

    /// Undoes a transaction's changes from a position on.
    fn cut(&mut self, by: u32, first: u64) {
        undo(&self.open, by, first, &mut self.now);
        self.open.retain(|made| made.by != by || made.at < first);
    }

    fn end(&mut self, by: u32) -> Result<(), Fail> {
        append(&mut self.log, &LogRecord::End(by))?;
        apply(&self.open, by, &mut self.base);
        self.open.retain(|made| made.by != by);
        Ok(())
    }

    fn save(&mut self) -> Result<(), Fail> {
        self.checkpoint = append(&mut self.log, &LogRecord::Checkpoint(Marks::new()))?;
        self.saved = self.now;
        Ok(())
    }
}

/// What a tuple holds.
fn held(values: &Values, tuple: usize) -> Option<u8> {
    values.get(tuple).copied().flatten()
}

pub(crate) fn set(values: &mut Values, tuple: usize, to: Option<u8>) {
    if tuple < TUPLES {
        values[tuple] = to;
    }
}

/// Undoes a transaction's changes from a position on, the newest first.
fn undo(open: &Vec<Made>, by: u32, first: u64, values: &mut Values) {
    for made in open.iter().rev() {
        if made.by == by && made.at >= first {
            set(values, made.tuple, made.from);
        }
    }
}

/// Makes a transaction's changes.
fn apply(open: &Vec<Made>, by: u32, values: &mut Values) {
    for made in open.iter() {
        if made.by == by {
            set(values, made.tuple, made.to);
        }
    }
}

/// The bytes of a tuple's values.
fn values_of(value: u8) -> Body
    ensures { length result ≡ 8 }
{
    let mut values = Body::new();
    values.extend_from_slice(&[0, 0, 0, 0, 0, 0, 0, value]);
    values
}

pub(crate) fn tid_of(tuple: usize) -> Tid
    ensures { HasSlot result }
{
    Tid {
        page: 0,
        slot: (tuple % TUPLES) as u16,
    }
}

/// The change of a tuple that holds one thing, and then another.
fn change_of(tuple: usize, from: Option<u8>, to: Option<u8>) -> Option<Change>
    ensures { IfSome result IsChangeBounded }
{
    let relation = RELATION;
    let tid = tid_of(tuple);
    match (from, to) {
        (None, None) => None,
        (None, Some(value)) => Some(Change::Insert {
            relation,
            tid,
            values: values_of(value),
        }),
        (Some(value), None) => Some(Change::Delete {
            relation,
            tid,
            values: values_of(value),
        }),
        (Some(old), Some(new)) => Some(Change::Update {
            relation,
            tid,
            from: values_of(old),
            to: values_of(new),
        }),
    }
}

/// The changes by which a tuple comes into the chain, right after another one or first, and goes.
fn connect(tuple: usize, left: Option<usize>) -> Change
    ensures { IsChangeBounded result }
{
    Change::Connect {
        link: LINK,
        parent: None,
        child: tid_of(tuple),
        left: place_of(left),
    }
}

fn disconnect(tuple: usize, left: Option<usize>) -> Change
    ensures { IsChangeBounded result }
{
    Change::Disconnect {
        link: LINK,
        parent: None,
        child: tid_of(tuple),
        left: place_of(left),
    }
}

fn place_of(tuple: Option<usize>) -> Option<Tid>
    ensures { IfSome result HasSlot }
{
    match tuple {
        Some(tuple) => Some(tid_of(tuple)),
        None => None,
    }
}

/// Appends a record. The error is that there is no room for it.
fn append(log: &mut Log, record_value: &LogRecord) -> Result<u64, Fail>
    requires { IsBounded record_value.now }
{
    let mut into = [0u8; RECORD_BYTES];
    let size = u64::from(write_record(record_value, &mut into));
    if log.free() < size || log.end().checked_add(size).is_none() {
        return Err("the log is full".into());
    }
    Ok(log.append(record_value))
}

fn new_log(alloc: Global) -> Result<Log, Fail> {
    let pages = filled_pages(alloc, LOG_PAGES as usize, 0)?;
    let mut device = MemDevice::new(alloc, pages)?;
    Ok(Log::load(alloc, &mut device, 0, LOG_PAGES, 0, 0, &Tail::new())?)
}
