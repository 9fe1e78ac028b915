// The log over a device, as it runs.
use crate::harness::{append, body_of, bytes_of, load, piece, set_head, try_at};
use rss_base::{Body, Change, Device, LogRecord, Marks, OpenFault, Page, Tail, Tid};
use rss_device::MemDevice;
use rss_images::{Draws, assert_same, assert_same_slices, assert_some, failing_at, filled_pages};
use rss_log::Log;
use std::alloc::Global;
use std::collections::VecDeque;
use std::test::Fail;

/// How many records each ring gets, and the sizes of the rings.
const RECORDS: usize = 2500;

const RINGS: [u32; 4] = [8, 13, 29, 64];

/// Values of a length up to 2,048, mostly short ones.
fn any_values(draws: &mut Draws) -> Result<Body, Fail> {
    let byte = draws.below(256) as u8;
    let most = if draws.below(4) == 0 { 2049 } else { 64 };
    let size = draws.below(most) as usize;
    body_of(&[byte; 2048][..size])
}

fn any_tid(draws: &mut Draws) -> Tid {
    Tid {
        page: draws.below(65_536),
        slot: draws.below(128) as u16,
    }
}

fn any_change(draws: &mut Draws) -> Result<Change, Fail> {
    let tid = any_tid(draws);
    let change = match draws.below(4) {
        0 => Change::Insert {
            relation: 1,
            tid,
            values: any_values(draws)?,
        },
        1 => Change::Delete {
            relation: 2,
            tid,
            values: any_values(draws)?,
        },
        2 => Change::Update {
            relation: 48,
            tid,
            from: any_values(draws)?,
            to: any_values(draws)?,
        },
        _ => Change::Connect {
            link: 64,
            parent: Some(any_tid(draws)),
            child: tid,
            left: None,
        },
    };
    Ok(change)
}

fn any_record(draws: &mut Draws) -> Result<LogRecord, Fail> {
    let record_value = match draws.below(8) {
        0 => LogRecord::End(7),
        1 => LogRecord::Restore(7, u64::from(draws.below(1 << 31))),
        2 => LogRecord::Checkpoint(any_marks(draws)),
        _ => LogRecord::Change(1, any_change(draws)?),
    };
    Ok(record_value)
}

fn any_marks(draws: &mut Draws) -> Marks {
    let mut marks = Marks::new();
    for _ in 0..draws.below(33) {
        if marks.as_slice().len() < 32 {
            marks.push((9, u64::from(draws.below(1 << 31))));
        }
    }
    marks
}

/// A log over a device whose pages are its log pages, and beside it the list of its records: the
/// position and the bytes of each.
#[derive(Drop)]
struct Trial {
    pages: u32,
    device: MemDevice,
    log: Log,
    list: VecDeque<(u64, Vec<u8>)>,
    /// Up to where the pieces stand on the device.
    saved: u64,
}

/// Gives up the oldest record.
fn drop_oldest(trial: &mut Trial) -> Result<(), Fail> {
    let _ = trial.list.pop_front();
    let head = match trial.list.front() {
        Some((position, _)) => *position,
        None => trial.log.end(),
    };
    set_head(&mut trial.log, head)
}

/// Appends a record to both, if the log has room once the oldest ones are given up.
fn add(alloc: Global, trial: &mut Trial, added: &LogRecord) -> Result<(), Fail> {
    let bytes = bytes_of(alloc, added)?;
    for _ in 0..RECORDS {
        if let Some(position) = append(alloc, &mut trial.log, added)? {
            trial.list.push_back((position, bytes))?;
            return Ok(());
        }
        drop_oldest(trial)?;
    }
    Err("no room".into())
}

/// Writes the pieces that became full since the last time, and loads the log anew.
fn save_and_load(alloc: Global, trial: &mut Trial) -> Result<(), Fail> {
    let first = trial.saved.max(trial.log.head()) / 4000;
    for number in first..trial.log.end() / 4000 {
        let mut page: Page = [0xee; 4096];
        piece(&trial.log, number, &mut page)?;
        let at = number % u64::from(trial.pages.max(1));
        if at < trial.device.size()? {
            trial.device.write(at, &page)?;
        }
    }
    let mut tail = Tail::new();
    trial.log.tail(&mut tail);
    trial.saved = trial.log.end();
    let (head, end) = (trial.log.head(), trial.log.end());
    trial.log = load(alloc, &mut trial.device, trial.pages, head, end, &tail)??;
    Ok(())
}

/// The log has a record at a position. Answers the position after it.
fn assert_at(alloc: Global, trial: &Trial, position: u64, want: &[u8]) -> Result<u64, Fail> {
    let case = ("log pages", trial.pages, "position", position);
    let (found, next) = assert_some(try_at(&trial.log, position)?, case)?;
    let bytes = bytes_of(alloc, &found)?;
    assert_same_slices(bytes.as_slice(), want, case)?;
    Ok(next)
}

/// The log has the records of the list, one after another from head to end.
fn assert_listed(alloc: Global, trial: &Trial) -> Result<(), Fail> {
    let mut position = trial.log.head();
    for (at, bytes) in &trial.list {
        assert_same(&position, at, ("log pages", trial.pages))?;
        position = assert_at(alloc, trial, position, bytes.as_slice())?;
    }
    let case = ("log pages", trial.pages, "the end");
    assert_same(&position, &trial.log.end(), case)?;
    assert_same(&try_at(&trial.log, position)?.is_some(), &false, case)?;
    Ok(())
}

fn new_trial(alloc: Global, pages: u32) -> Result<Trial, Fail> {
    let mut device = MemDevice::new(alloc, filled_pages(alloc, pages as usize, 0x55)?)?;
    let log = load(alloc, &mut device, pages, 0, 0, &Tail::new())??;
    Ok(Trial {
        pages,
        device,
        log,
        list: VecDeque::new(alloc),
        saved: 0,
    })
}

/// Appends so many records to a log over so many log pages, and loads it anew now and then.
fn assert_ring(alloc: Global, pages: u32) -> Result<(), Fail> {
    let mut draws = Draws::new(u64::from(pages));
    let mut trial = new_trial(alloc, pages)?;
    for _ in 0..RECORDS {
        let added = any_record(&mut draws)?;
        add(alloc, &mut trial, &added)?;
        if draws.below(200) == 0 {
            save_and_load(alloc, &mut trial)?;
            assert_listed(alloc, &trial)?;
        }
    }
    assert_listed(alloc, &trial)
}

#[test]
fn ten_thousand_records_are_those_of_a_list(rt: HostRuntime) -> Result<(), Fail> {
    for pages in RINGS {
        assert_ring(rt.alloc(), pages)?;
    }
    Ok(())
}

/// The head and the end of a log from the fourth byte of its second piece up to the fourth of its
/// sixth, and its last bytes.
const HEAD: u64 = 4003;

const END: u64 = 20_003;

const LAST: &[u8] = b"\x09\0\x09";

/// Positions of it, and whether a record begins there.
const POSITIONS: [(u64, bool); 3] = [(HEAD, false), (20_000, true), (20_002, false)];

/// Bytes of the page of its third piece, by their places: the last of the piece, and the first
/// after it, which is as it was.
const BYTES: [(usize, u8); 2] = [(3999, 0x55), (4000, 0xee)];

/// The calls of a load of it, of which one fails. After the one that asks for the size it reads
/// four pages, and there is no sixth.
const CALLS: [(u64, Option<OpenFault>); 5] = [
    (1, Some(OpenFault::Device)),
    (2, Some(OpenFault::Device)),
    (3, Some(OpenFault::Device)),
    (4, Some(OpenFault::Device)),
    (5, None),
];

/// A device of eight log pages.
fn eight_pages(alloc: Global) -> Result<MemDevice, Fail> {
    Ok(MemDevice::new(alloc, filled_pages(alloc, 8, 0x55)?)?)
}

/// Loads the log from such a device.
fn load_part(alloc: Global, device: &mut MemDevice) -> Result<Result<Log, OpenFault>, Fail> {
    load(alloc, device, 8, HEAD, END, &Tail::from_slice(LAST))
}

#[test]
fn a_load_has_what_its_pages_have(rt: HostRuntime) -> Result<(), Fail> {
    let log = load_part(rt.alloc(), &mut eight_pages(rt.alloc())?)??;
    assert_same(&log.free(), &19_996, "the free bytes")?;
    for (position, want) in POSITIONS {
        let found = try_at(&log, position)?.is_some();
        assert_same(&found, &want, ("position", position))?;
    }
    let mut page = [0xee; 4096];
    piece(&log, 2, &mut page)?;
    for (at, want) in BYTES {
        assert_same(&page.get(at), &Some(&want), ("byte", at))?;
    }
    Ok(())
}

#[test]
fn a_load_reads_the_pages_of_its_pieces_alone(rt: HostRuntime) -> Result<(), Fail> {
    for (call, want) in CALLS {
        let mut device = failing_at(rt.alloc(), eight_pages(rt.alloc())?, call)?;
        let fault = load_part(rt.alloc(), &mut device)?.err();
        assert_same(&fault, &want, ("call", call))?;
    }
    Ok(())
}
