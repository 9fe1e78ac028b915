// Many transactions over a larger store, stopped at each of their moments.
use crate::harness::{Row, store_with_r};
use crate::lines::{
    write_absent, write_fetched, write_fetches, write_inserted, write_inserts, write_lines,
};
use crate::stops::{Commit, Probe, assert_commit};
use rss_device::{MemDevice, Unsynced};
use std::alloc::Global;
use std::test::Fail;

/// How many transactions there are, and how many tuples each inserts.
const TRANSACTIONS: u32 = 8;

const INSERTS: u32 = 100;

/// How many slots the store has: as many as a transaction needs with no checkpoint within it.
const SLOTS: u32 = 1024;

/// How many pages the map of the store has.
const MAP_PAGES: usize = 2;

/// Where the log of the store ends at first: three Checkpoint records, of the format and of the
/// definitions.
const FIRST_END: usize = 3 * CHECKPOINT_BYTES;

/// How many bytes the log has of a Checkpoint record, of a transaction, and of a piece.
const CHECKPOINT_BYTES: usize = 2;

const TRANSACTION_BYTES: usize = INSERTS as usize * 22 + 5;

const PIECE_BYTES: usize = 4000;

/// A transaction as text: a script that inserts tuples, one that fetches them, and what each gets.
#[derive(Drop)]
struct Transaction {
    insert: String,
    inserted: String,
    fetch: String,
    before: String,
    after: String,
}

fn no_transaction(alloc: Global) -> Transaction {
    Transaction {
        insert: String::new(alloc),
        inserted: String::new(alloc),
        fetch: String::new(alloc),
        before: String::new(alloc),
        after: String::new(alloc),
    }
}

/// Writes the script that inserts the tuples of these places, and its replies.
fn write_insert(made: &mut Transaction, first: u32, end: u32) -> Result<(), Fail> {
    write_lines(&mut made.insert, "begin 1\n")?;
    write_inserts(&mut made.insert, first, end)?;
    write_lines(&mut made.insert, "end 1\n")?;
    write_lines(&mut made.inserted, "ok\n")?;
    write_inserted(&mut made.inserted, first, end)?;
    write_lines(&mut made.inserted, "ok\n")?;
    Ok(())
}

/// Writes the script that fetches them, and its replies. Of the others the last is fetched too.
fn write_fetch(made: &mut Transaction, first: u32, end: u32) -> Result<(), Fail> {
    let last = first.saturating_sub(1);
    write_lines(&mut made.fetch, "begin 1\n")?;
    write_fetches(&mut made.fetch, last, end)?;
    write_lines(&mut made.before, "ok\n")?;
    write_fetched(&mut made.before, last, first)?;
    write_absent(&mut made.before, first, end)?;
    write_lines(&mut made.after, "ok\n")?;
    write_fetched(&mut made.after, last, end)?;
    Ok(())
}

/// A transaction that inserts the tuples of these places behind the others.
fn new_transaction(alloc: Global, first: u32, end: u32) -> Result<Transaction, Fail> {
    let mut made = no_transaction(alloc);
    write_insert(&mut made, first, end)?;
    write_fetch(&mut made, first, end)?;
    Ok(made)
}

/// How many home pages have a tuple of these places.
fn home_pages(first: u32, end: u32) -> u32 {
    let last = end.saturating_sub(1);
    (last / 128).saturating_sub(first / 128) + 1
}

/// Where the log ends behind the transaction of this number. In front of each but the first one the
/// opening takes a checkpoint.
fn log_end(number: u32) -> usize {
    let transactions = (number as usize + 1) * TRANSACTION_BYTES;
    FIRST_END + transactions + number as usize * CHECKPOINT_BYTES
}

/// How many writes the opening before a transaction makes: of the home pages with tuples of the one
/// before it, of the page of their count, of the map, of a root and of the selector; and of a piece of
/// the log, where the Checkpoint record makes it full.
fn opening_writes(number: u32, first: u32) -> usize {
    let Some(before) = number.checked_sub(1) else {
        return 0;
    };
    let homes = home_pages(first.saturating_sub(INSERTS), first) as usize;
    let end = log_end(before);
    let pieces = pieces_between(end, end.saturating_add(CHECKPOINT_BYTES));
    homes
        .saturating_add(pieces)
        .saturating_add(1 + MAP_PAGES + 2)
}

/// How many pieces of the log become full between two of its ends.
fn pieces_between(from: usize, until: usize) -> usize {
    (until / PIECE_BYTES).saturating_sub(from / PIECE_BYTES)
}

/// Commits the transaction of this number, counted from 0, which inserts the tuples from this place
/// on, and stops it. Answers the store, with no moments yet.
fn assert_transaction(
    alloc: Global,
    device: MemDevice,
    number: u32,
    first: u32,
    unsynced: Unsynced,
) -> Result<MemDevice, Fail> {
    let end = first.saturating_add(INSERTS);
    let made = new_transaction(alloc, first, end)?;
    let last = log_end(number);
    let commit = Commit {
        number,
        row: Row {
            script: made.insert.as_bytes(),
            replies: made.inserted.as_bytes(),
        },
        probe: Probe {
            script: made.fetch.as_bytes(),
            before: made.before.as_bytes(),
            after: made.after.as_bytes(),
        },
        opening: opening_writes(number, first),
        // The pieces of the log that become full, the root and the selector.
        writes: pieces_between(last.saturating_sub(TRANSACTION_BYTES), last).saturating_add(2),
        root: 2,
    };
    assert_commit(alloc, device, &commit, &[unsynced])
}

/// Makes all transactions over a store without tuples, and stops each.
fn assert_transactions(alloc: Global, unsynced: Unsynced) -> Result<(), Fail> {
    let mut device = store_with_r(alloc, SLOTS)?;
    for number in 0..TRANSACTIONS {
        device = assert_transaction(alloc, device, number, INSERTS * number, unsynced)?;
    }
    Ok(())
}

// One test for each of `UNSYNCED`, since all four together would take long.

#[test]
fn transactions_stopped_with_old_pages_keep_what_was_committed(
    rt: HostRuntime,
) -> Result<(), Fail> {
    assert_transactions(rt.alloc(), Unsynced::Old)
}

#[test]
fn transactions_stopped_with_new_pages_keep_what_was_committed(
    rt: HostRuntime,
) -> Result<(), Fail> {
    assert_transactions(rt.alloc(), Unsynced::New)
}

#[test]
fn transactions_stopped_with_pages_of_zeros_keep_what_was_committed(
    rt: HostRuntime,
) -> Result<(), Fail> {
    assert_transactions(rt.alloc(), Unsynced::Filled(0))
}

#[test]
fn transactions_stopped_with_pages_of_255s_keep_what_was_committed(
    rt: HostRuntime,
) -> Result<(), Fail> {
    assert_transactions(rt.alloc(), Unsynced::Filled(255))
}
