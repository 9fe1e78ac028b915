// Locks beside a table of modes and a plain list.
use crate::harness::{LockTable, TRANSACTIONS, name};
use rss_base::{Item, Mode, Name, Need, Text, Tid, Tuple, Value};
use rss_images::{Draws, assert_same, assert_same_slices};
use std::alloc::Global;
use std::test::Fail;

const MODES: [Mode; 5] = [Mode::IS, Mode::IX, Mode::S, Mode::SIX, Mode::X];

/// Which modes two transactions can't hold at a time: a row for each that is held, in the order of
/// `MODES`.
const DISAGREE: [[bool; 5]; 5] = [
    [false, false, false, false, true],
    [false, false, true, true, true],
    [false, true, false, true, true],
    [false, true, true, true, true],
    [true, true, true, true, true],
];

fn disagree(held: usize, needed: usize) -> bool {
    match DISAGREE.get(held) {
        Some(row) => row.get(needed) == Some(&true),
        None => false,
    }
}

/// How many kinds of items there are. A chain may have a parent or none.
const KINDS: u32 = 6;

/// Relations whose tuples are locked.
fn relations() -> [Name; 3] {
    [name(b'a'), name(b'b'), name(b'c')]
}

fn tid(number: u32) -> Tid {
    Tid {
        page: number / 3,
        slot: (number % 3) as u16,
    }
}

/// The item with a number: of the kind that the number leaves, divided by 6.
fn item(alloc: Global, number: u32) -> Result<Item, Fail> {
    let count = number / KINDS;
    let letter = name(b'a' + (count % 3) as u8);
    let item = match number % KINDS {
        0 => Item::Segment(name(b'a' + (count % 26) as u8)),
        1 => Item::Relation(name(b'a' + (count % 26) as u8)),
        2 => Item::Tuple(letter, tid(count)),
        3 => Item::Chain(name(b'a' + (count % 26) as u8), None),
        4 => Item::Chain(letter, Some(tid(count))),
        _ => {
            let mut values = Tuple::single(alloc, Value::Int(-7))?;
            values.push(Value::Text(Text::from_slice(alloc, b"text")?))?;
            values.push(Value::Int(i64::from(count)))?;
            Item::Key(letter, values)
        }
    };
    Ok(item)
}

/// A need: an item by its number, and a mode by its place in `MODES`.
type Wish = (u32, usize);

fn need(alloc: Global, wish: Wish) -> Result<Need, Fail> {
    let mode = *MODES.get(wish.1).ok_or("no mode")?;
    Ok(Need {
        item: item(alloc, wish.0)?,
        mode,
    })
}

fn needs(alloc: Global, wishes: &[Wish]) -> Result<Vec<Need>, Fail> {
    let mut all = Vec::new(alloc);
    for wish in wishes {
        all.push(need(alloc, *wish)?)?;
    }
    Ok(all)
}

/// Takes what these wishes say.
fn take(
    alloc: Global,
    table: &mut LockTable,
    transaction: u32,
    wishes: &[Wish],
) -> Result<(), Fail> {
    table.take(transaction, needs(alloc, wishes)?)
}

fn check(
    alloc: Global,
    table: &LockTable,
    transaction: u32,
    wishes: &[Wish],
) -> Result<Option<(u32, u32)>, Fail> {
    table.check(transaction, &needs(alloc, wishes)?)
}

#[test]
fn pairs_of_modes(rt: HostRuntime) -> Result<(), Fail> {
    let alloc = rt.alloc();
    for kind in 0..KINDS {
        for held in 0..MODES.len() {
            for needed in 0..MODES.len() {
                let case = (kind, held, needed);
                let mut table = LockTable::new(alloc);
                take(alloc, &mut table, 5, &[(kind, held)])?;
                let other = kind + KINDS;
                let found = check(alloc, &table, 9, &[(other, 4), (kind, needed)])?;
                let want = if disagree(held, needed) {
                    Some((1, 5))
                } else {
                    None
                };
                assert_same(&found, &want, case)?;
                assert_same(&check(alloc, &table, 5, &[(kind, needed)])?, &None, case)?;
            }
        }
    }
    Ok(())
}

#[test]
fn joined_modes(rt: HostRuntime) -> Result<(), Fail> {
    let alloc = rt.alloc();
    for kind in 0..KINDS {
        for first in 0..MODES.len() {
            for second in 0..MODES.len() {
                let mut table = LockTable::new(alloc);
                take(alloc, &mut table, 0, &[(kind, first), (kind, second)])?;
                for needed in 0..MODES.len() {
                    let found = check(alloc, &table, 1, &[(kind, needed)])?;
                    let bars = disagree(first, needed) || disagree(second, needed);
                    let want = if bars { Some((0, 0)) } else { None };
                    assert_same(&found, &want, (kind, first, second, needed))?;
                }
                table.release_all(0);
                assert_same(
                    &check(alloc, &table, 1, &[(kind, 4)])?,
                    &None,
                    (kind, "released"),
                )?;
            }
        }
    }
    Ok(())
}

/// The locks on one item, in the order in which they were taken: whose each is, and its mode.
type Row = Vec<(u32, usize)>;

/// The least transaction other than `besides` with a lock that a mode disagrees with, or with any
/// lock if no mode is given.
fn least(row: &[(u32, usize)], besides: Option<u32>, mode: Option<usize>) -> Option<u32> {
    let mut least: Option<u32> = None;
    for lock in row {
        let bars = match mode {
            Some(mode) => disagree(lock.1, mode),
            None => true,
        };
        if bars && Some(lock.0) != besides {
            least = Some(match least {
                Some(found) => found.min(lock.0),
                None => lock.0,
            });
        }
    }
    least
}

fn first_bar(rows: &[Row], transaction: u32, wishes: &[Wish]) -> Option<(usize, u32)> {
    for (place, wish) in wishes.iter().enumerate() {
        if let Some(row) = rows.get(wish.0 as usize)
            && let Some(holder) = least(row, Some(transaction), Some(wish.1))
        {
            return Some((place, holder));
        }
    }
    None
}

/// The identifiers of tuples of the first relations on which others have locks.
fn barred(alloc: Global, rows: &[Row], transaction: u32, relations: u32) -> Result<Vec<Tid>, Fail> {
    let mut tids = Vec::new(alloc);
    for number in 0..ITEMS {
        let count = number / KINDS;
        if number % KINDS == 2
            && count % 3 < relations
            && let Some(row) = rows.get(number as usize)
            && row.iter().any(|lock| lock.0 != transaction)
        {
            tids.push(tid(count))?;
        }
    }
    tids.sort_unstable();
    Ok(tids)
}

/// How many items are locked, and how many calls a seed draws: 100,000 in the four tests.
const ITEMS: u32 = 150;

const CALLS: u32 = 25_000;

/// Up to three needs, most of them to share.
fn wishes(alloc: Global, draws: &mut Draws) -> Result<Vec<Wish>, Fail> {
    let mut wishes = Vec::new(alloc);
    for _ in 0..1 + draws.below(3) {
        let mode = draws.below(8).min(6) as usize;
        wishes.push((draws.below(ITEMS), if mode < 5 { mode } else { 0 }))?;
    }
    Ok(wishes)
}

/// The rows after a call that takes.
fn add(rows: &mut [Row], transaction: u32, wishes: &[Wish]) -> Result<(), Fail> {
    for wish in wishes {
        let row = rows.get_mut(wish.0 as usize).ok_or("no item")?;
        row.push((transaction, wish.1))?;
    }
    Ok(())
}

/// A call on the table, and what the rows say of it.
fn call(
    alloc: Global,
    table: &mut LockTable,
    rows: &mut [Row],
    draws: &mut Draws,
    number: u32,
) -> Result<(), Fail> {
    let transaction = draws.below(TRANSACTIONS);
    match draws.below(64) {
        0..=3 => {
            table.release_all(transaction);
            for row in rows.iter_mut() {
                row.retain(|lock| lock.0 != transaction);
            }
        }
        4..=9 => {
            let asked = draws.below(ITEMS);
            let row = rows.get(asked as usize).ok_or("no item")?;
            let holder = table.holder(&item(alloc, asked)?);
            assert_same(&holder, &least(row, None, None), (number, asked))?;
        }
        10 => {
            let asked = draws.below(4);
            let names = relations();
            let listed = names.get(..asked as usize).ok_or("no relations")?;
            let found = table.barred(alloc, transaction, listed)?;
            let want = barred(alloc, rows, transaction, asked)?;
            assert_same_slices(&found, &want, (number, asked))?;
        }
        _ => {
            let asked = wishes(alloc, draws)?;
            let found = check(alloc, table, transaction, &asked)?.map(|(place, holder)| (
                place as usize,
                holder,
            ));
            assert_same(
                &found,
                &first_bar(rows, transaction, &asked),
                (number, transaction),
            )?;
            if found.is_none() {
                take(alloc, table, transaction, &asked)?;
                add(rows, transaction, &asked)?;
            }
        }
    }
    Ok(())
}

/// Calls that a seed draws.
fn play(alloc: Global, seed: u64) -> Result<(), Fail> {
    let mut table = LockTable::new(alloc);
    let mut rows: Vec<Row> = Vec::new(alloc);
    for _ in 0..ITEMS {
        rows.push(Vec::new(alloc))?;
    }
    let mut draws = Draws::new(seed);
    for number in 0..CALLS {
        call(alloc, &mut table, &mut rows, &mut draws, number)?;
    }
    Ok(())
}

#[test]
fn beside_plain_rows_first(rt: HostRuntime) -> Result<(), Fail> {
    play(rt.alloc(), 1)
}

#[test]
fn beside_plain_rows_second(rt: HostRuntime) -> Result<(), Fail> {
    play(rt.alloc(), 2)
}

#[test]
fn beside_plain_rows_third(rt: HostRuntime) -> Result<(), Fail> {
    play(rt.alloc(), 3)
}

#[test]
fn beside_plain_rows_fourth(rt: HostRuntime) -> Result<(), Fail> {
    play(rt.alloc(), 4)
}
