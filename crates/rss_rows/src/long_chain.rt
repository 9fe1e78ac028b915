// A chain of 10,000 tuples, each connected in a spot of its own and taken out again.
use crate::harness::{Row, WHOLE, assert_script, empty_store, store_after};
use crate::lines::write_lines;
use rss_device::MemDevice;
use rss_images::assert_same;
use rss_rsi::{MOST_FRAMES, open};
use rss_scripts::without_moments;
use std::alloc::Global;
use std::fmt::Write;
use std::test::Fail;

/// How many tuples there are, and how many lines a transaction has.
const TUPLES: u32 = 10_000;

const BATCH: u32 = 100;

/// How many slots the store has.
const SLOTS: u32 = 4096;

const DEFINITIONS: &[u8] = b"segment s\nrelation r s t:text20\nlink l r\n";

/// The least number of overflow pages: tuples grow behind their inserts until a home page, which has 128 of
/// them, has no room for all.
const OVERFLOW: u32 = 20;

/// The system's ten pages, and the home pages.
const OTHERS: u32 = 10 + 79;

/// A script with what it gets.
#[derive(Drop)]
struct Told {
    script: String,
    replies: String,
}

impl Told {
    fn new(alloc: Global) -> Self {
        Told {
            script: String::new(alloc),
            replies: String::new(alloc),
        }
    }

    /// A line that is answered `ok`, of a transaction of many such lines.
    fn step(&mut self, number: u32) -> Result<(), Fail> {
        self.replies.push_str("ok\n")?;
        if number % BATCH == BATCH - 1 {
            self.script.push_str("end 1\nbegin 1\n")?;
            self.replies.push_str("ok\nok\n")?;
        }
        Ok(())
    }

    fn begin(&mut self) -> Result<(), Fail> {
        self.script.push_str("begin 1\n")?;
        self.replies.push_str("ok\n")?;
        Ok(())
    }

    fn end(&mut self) -> Result<(), Fail> {
        self.script.push_str("end 1\n")?;
        self.replies.push_str("ok\n")?;
        Ok(())
    }

    fn assert(&self, alloc: Global, device: MemDevice, case: &str) -> Result<MemDevice, Fail> {
        let row = Row {
            script: self.script.as_bytes(),
            replies: self.replies.as_bytes(),
        };
        let device = assert_script(alloc, device, &row, WHOLE, case)?;
        Ok(without_moments(alloc, &device)?)
    }
}

/// The next number of a linear congruential generator, and a place below `below` that it draws.
fn draw(state: &mut u64, below: usize) -> usize {
    *state = state
        .wrapping_mul(6_364_136_223_846_793_005)
        .wrapping_add(1_442_695_040_888_963_407);
    ((*state >> 33) as usize) % below.max(1)
}

/// Writes the tuple of a place as it is named in a line.
fn write_tid(text: &mut String, place: u32) -> Result<(), Fail> {
    write!(text, "{}.{}", place / 128, place % 128)?;
    Ok(())
}

/// Inserts the tuples, empty, and then gives each its text.
fn filled(alloc: Global) -> Result<MemDevice, Fail> {
    let mut script = String::new(alloc);
    write_lines(&mut script, "begin 1\n")?;
    for place in 0..TUPLES {
        write_lines(&mut script, "insert 1 r \"\"\n")?;
        if (place + 1) % BATCH == 0 {
            write_lines(&mut script, "end 1\nbegin 1\n")?;
        }
    }
    for place in 0..TUPLES {
        writeln!(
            script,
            "update 1 r {}.{} \"{place:020}\"",
            place / 128,
            place % 128
        )?;
        if (place + 1) % BATCH == 0 {
            write_lines(&mut script, "end 1\nbegin 1\n")?;
        }
    }
    write_lines(&mut script, "end 1\n")?;
    let device = store_after(alloc, empty_store(alloc, SLOTS)?, DEFINITIONS)?;
    store_after(alloc, device, script.as_bytes())
}

/// Connects each tuple, first or behind another one. Answers their order.
fn connect_all(alloc: Global, told: &mut Told) -> Result<Vec<u32>, Fail> {
    let mut order = Vec::new(alloc);
    let mut state = 1;
    told.begin()?;
    for place in 0..TUPLES {
        let spot = draw(&mut state, order.len() + 1).min(order.len());
        told.script.push_str("connect 1 l ")?;
        write_tid(&mut told.script, place)?;
        if spot == 0 {
            told.script.push_str(" first\n")?;
        } else if spot == order.len() && place % 2 == 0 {
            told.script.push_str(" last\n")?;
        } else {
            told.script.push_str(" after ")?;
            write_tid(&mut told.script, order[spot - 1])?;
            told.script.push_str("\n")?;
        }
        order.insert(spot, place)?;
        told.step(place)?;
    }
    told.end()?;
    Ok(order)
}

/// Scans the chain, and finds the tuples in this order.
fn scan(told: &mut Told, order: &[u32]) -> Result<(), Fail> {
    told.begin()?;
    told.script.push_str("open 1 link l\n")?;
    told.replies.push_str("ok 0\n")?;
    for place in order {
        told.script.push_str("next 1 0\n")?;
        told.replies.push_str("ok ")?;
        write_tid(&mut told.replies, *place)?;
        writeln!(told.replies, " \"{place:020}\"")?;
    }
    told.script.push_str("next 1 0\n")?;
    told.replies.push_str("end\n")?;
    told.end()
}

/// Takes tuples out of the chain, until so many are left in it.
fn disconnect_to(told: &mut Told, order: &mut Vec<u32>, left: usize) -> Result<(), Fail> {
    let mut state = 2;
    told.begin()?;
    for number in 0..TUPLES {
        if order.len() <= left {
            break;
        }
        let spot = draw(&mut state, order.len());
        if spot < order.len() {
            let place = order.remove(spot);
            told.script.push_str("disconnect 1 l ")?;
            write_tid(&mut told.script, place)?;
            told.script.push_str("\n")?;
            told.step(number)?;
        }
    }
    told.end()
}

/// The store has overflow pages.
fn assert_overflow(alloc: Global, device: MemDevice) -> Result<MemDevice, Fail> {
    let Ok(store) = open(alloc, device, MOST_FRAMES) else {
        return Err("there is no store".into());
    };
    let mapped = store.mapped();
    let device = store.into_pages().into_device();
    assert_same(&(mapped >= OTHERS + OVERFLOW), &true, mapped)?;
    Ok(without_moments(alloc, &device)?)
}

#[test]
fn a_long_chain_is_made_and_taken_apart(rt: HostRuntime) -> Result<(), Fail> {
    let device = assert_overflow(rt.alloc(), filled(rt.alloc())?)?;
    let mut told = Told::new(rt.alloc());
    let mut order = connect_all(rt.alloc(), &mut told)?;
    let device = told.assert(rt.alloc(), device, "connected")?;
    let mut told = Told::new(rt.alloc());
    scan(&mut told, order.as_slice())?;
    disconnect_to(&mut told, &mut order, 1000)?;
    scan(&mut told, order.as_slice())?;
    let device = told.assert(rt.alloc(), device, "taken apart")?;
    // The next run finds the rest.
    let mut told = Told::new(rt.alloc());
    scan(&mut told, order.as_slice())?;
    disconnect_to(&mut told, &mut order, 0)?;
    scan(&mut told, order.as_slice())?;
    told.assert(rt.alloc(), device, "empty")?;
    Ok(())
}
