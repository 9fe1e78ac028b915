// The calls of C. A slice is a pointer and a length there, and a `Global` no parameter.
ghost use Rattle.std.specs.Prelude.{◌≡◌, ◌↔◌, None, IsTrue};
ghost use Rattle.rss_c.specs.Texts.{text_view};
ghost use Rattle.rss_c.specs.Handles.{held, is_up, number_of, AreEmployees, CountsGenerated, CountsIn, FormatsIn, GeneratesAs, LevelsIn, OpensIn, ReadsIn, RunsIn, TakesIn};

use crate::counts::RssCounts;
use crate::ended::Ended;
use crate::handle::RssStore;
use crate::open_store::OpenStore;
use crate::page::RssPage;
use crate::step::RssStep;
use crate::telling::{status_of, tell};
use crate::text::RssText;
use rss_base::write_all;
use rss_line::{MOST_EMPLOYEES, count_generated, generate};
use rss_top::Status;
use std::alloc::Global;

/// The number of a call's end.
fn number_of(end: Result<(), Ended>) -> u32
    ensures { result ≡ number_of end }
{
    match end {
        Ok(()) => 0,
        Err(end) => end.number(),
    }
}

/// Whether a script is generated with so many employees.
fn are_employees(count: u32) -> bool
    ensures { IsTrue result ↔ AreEmployees count }
{
    1 <= count && count <= MOST_EMPLOYEES
}

/// Makes an empty store of so many slots and log pages, if none is open in the handle, and opens
/// it. Its first steps make it in a file.
#[unsafe(no_mangle)]
pub extern "C" fn rss_format(alloc: Global, store: &mut RssStore, slots: u32, log_pages: u32) -> u32
    ensures { FormatsIn slots log_pages result (held store.old) (held store.new) }
{
    if store.is_open() {
        return Ended::AlreadyOpen.number();
    }
    match OpenStore::make(alloc, slots, log_pages) {
        Ok(made) => {
            store.put(made);
            0
        }
        Err(refused) => Ended::As(status_of(refused.fault)).number(),
    }
}

/// Opens the store of these bytes, if none is open in the handle.
#[unsafe(no_mangle)]
pub extern "C" fn rss_open(
    alloc: Global,
    store: &mut RssStore,
    bytes: &[u8],
    text: &mut RssText,
) -> u32
    ensures { OpensIn bytes.now (text_view text.new) result (held store.old) (held store.new) }
{
    text.clear();
    if store.is_open() {
        return Ended::AlreadyOpen.number();
    }
    match OpenStore::open(alloc, bytes) {
        Ok(opened) => {
            store.put(opened);
            0
        }
        Err(refused) => Ended::As(tell(alloc, status_of(refused.fault), text)).number(),
    }
}

/// Runs a line over the store that is open. Its reply is in the text.
#[unsafe(no_mangle)]
pub extern "C" fn rss_run_line(
    alloc: Global,
    store: &mut RssStore,
    line: &[u8],
    text: &mut RssText,
) -> u32
    ensures { RunsIn line.now (text_view text.new) result (held store.old) (held store.new) }
{
    text.clear();
    let Some(mut open) = store.take(alloc) else {
        return Ended::NotOpen.number();
    };
    let end = open.run(alloc, line, text);
    store.put(open);
    number_of(end)
}

/// Whether a store is open that answers lines.
#[unsafe(no_mangle)]
pub extern "C" fn rss_is_up(alloc: Global, store: &mut RssStore) -> bool
    ensures same { held store.new ≡ held store.old }
    ensures up { result ≡ is_up (held store.old) }
{
    let Some(open) = store.take(alloc) else {
        return false;
    };
    let up = open.is_up();
    store.put(open);
    up
}

/// Takes the next step that the store's file is to do, and answers whether there is one.
#[unsafe(no_mangle)]
pub extern "C" fn rss_next_step(alloc: Global, store: &mut RssStore, step: &mut RssStep) -> bool
    ensures { TakesIn step.new result (held store.old) (held store.new) }
{
    let Some(mut open) = store.take(alloc) else {
        return false;
    };
    let taken = open.take_step(step);
    store.put(open);
    taken
}

/// Reads a page of the store, and answers whether there is one at this place.
#[unsafe(no_mangle)]
pub extern "C" fn rss_page(alloc: Global, store: &mut RssStore, at: u64, page: &mut RssPage) -> bool
    ensures same { held store.new ≡ held store.old }
    ensures page { ReadsIn at page.new result (held store.old) }
{
    let Some(open) = store.take(alloc) else {
        return false;
    };
    let found = open.read(at, page);
    store.put(open);
    found
}

/// Counts what there is of the store that is open, and answers whether one is.
#[unsafe(no_mangle)]
pub extern "C" fn rss_count(alloc: Global, store: &mut RssStore, counts: &mut RssCounts) -> bool
    ensures same { held store.new ≡ held store.old }
    ensures counts { CountsIn counts.old counts.new result (held store.old) }
{
    let Some(open) = store.take(alloc) else {
        return false;
    };
    *counts = open.counts();
    store.put(open);
    true
}

/// How many levels of nodes the image of this name has; 0 if none is defined, or no store is open.
#[unsafe(no_mangle)]
pub extern "C" fn rss_levels(alloc: Global, store: &mut RssStore, name: &[u8]) -> u8
    ensures same { held store.new ≡ held store.old }
    ensures levels { LevelsIn name.now result (held store.old) }
{
    let Some(open) = store.take(alloc) else {
        return 0;
    };
    let levels = open.levels(name);
    store.put(open);
    levels
}

/// How many lines the script has that is generated with so many employees; 0 if none is.
#[unsafe(no_mangle)]
pub extern "C" fn rss_generated_lines(employees: u32) -> u64
    ensures { CountsGenerated employees result }
{
    if !are_employees(employees) {
        return 0;
    }
    count_generated(employees)
}

/// Writes line `at` of the script that is generated from a number, with so many employees, if there
/// is one. The lines are counted from 0.
#[unsafe(no_mangle)]
pub extern "C" fn rss_generated_line(
    alloc: Global,
    number: u64,
    employees: u32,
    at: u64,
    text: &mut RssText,
) -> u32
    ensures { GeneratesAs number employees at (text_view text.new) result }
{
    text.clear();
    if !are_employees(employees) {
        return Ended::NoLine.number();
    }
    let line = match generate(alloc, number, employees, at) {
        Ok(Some(line)) => line,
        Ok(None) => return Ended::NoLine.number(),
        Err(_) => return Ended::As(Status::NoMemory).number(),
    };
    match write_all(text, line.as_slice()) {
        Ok(()) => 0,
        Err(_) => Ended::As(Status::WriteFault).number(),
    }
}

/// Closes the store that is open, if one is. What no `end` has committed is dropped.
#[unsafe(no_mangle)]
pub extern "C" fn rss_close(alloc: Global, store: &mut RssStore)
    ensures { held store.new ≡ None }
{
    drop(store.take(alloc));
}
