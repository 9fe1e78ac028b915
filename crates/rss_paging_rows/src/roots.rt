// Roots, as bytes and on a device.
use crate::harness::{
    SMALL_PAGES, first_root, others_from, pages_with_root, small_store, switch_from,
};
use rss_base::{Device, Failed, OpenFault, Page, Place, Root, Tail, VERSION};
use rss_device::{MemDevice, Unsynced};
use rss_images::{
    UNSYNCED, assert_same, assert_same_slices, copy_of_pages, failing_at, image_at, turn,
};
use rss_root::{decode, encode, load};
use std::alloc::Global;
use std::test::Fail;

/// The first 24 bytes of the first root of a store of 64 slots.
const FRONT: [u8; 24] = [
    0x52, 0x53, 0x53, 0x52, 0x00, 0x03, 0x00, 0x00, 0x00, 0x00, 0x00, 0x40, 0x00, 0x00, 0x00, 0x08,
    0x00, 0x00, 0x00, 0x00, 0x00, 0x00, 0x00, 0x00,
];

/// Its other bytes that aren't 0, by their places.
const REST: [(usize, u8); 2] = [(47, 2), (96, 9)];

/// What is compared of a root that was loaded: its number, its area, its checkpoint, its end and the
/// first byte of its tail.
#[derive(Clone, Copy, Debug, PartialEq, Eq)]
struct Loaded {
    number: u8,
    area: u8,
    checkpoint: u64,
    end: u64,
    first: u8,
}

const LOADS: Loaded = Loaded {
    number: 1,
    area: 0,
    checkpoint: 0,
    end: 2,
    first: 9,
};

const OTHER_AREA: Loaded = Loaded { area: 1, ..LOADS };

const LATER_CHECKPOINT: Loaded = Loaded {
    checkpoint: 1,
    ..LOADS
};

const LATER_END: Loaded = Loaded { end: 3, ..LOADS };

const OTHER_TAIL: Loaded = Loaded { first: 8, ..LOADS };

type Answer = Result<Loaded, OpenFault>;

const NOT_ROOT_1: Answer = Err(OpenFault::NotAStore(Place::Root(1)));

const NOT_ROOT_2: Answer = Err(OpenFault::NotAStore(Place::Root(2)));

const NOT_SIZE: Answer = Err(OpenFault::NotAStore(Place::Size));

/// Bytes of a store's first pages: page, offset, the bits that are turned, and what a load answers
/// then.
const TURNED: [(usize, usize, u8, Answer); 34] = [
    // The mark, the versions 2 and 1, which mean the same, and 0 and 4, and the zeros behind them.
    (1, 0, 1, NOT_ROOT_1),
    (1, 3, 128, NOT_ROOT_1),
    (1, 4, 1, NOT_ROOT_1),
    (1, 5, 1, Ok(LOADS)),
    (1, 5, 2, Ok(LOADS)),
    (1, 5, 3, NOT_ROOT_1),
    (1, 5, 7, NOT_ROOT_1),
    (1, 6, 255, NOT_ROOT_1),
    (1, 7, 1, NOT_ROOT_1),
    // No slots, and then 65, of which the device has another size.
    (1, 11, 64, NOT_ROOT_1),
    (1, 11, 1, NOT_SIZE),
    (1, 8, 1, NOT_ROOT_1),
    // No log pages, and then 9.
    (1, 15, 8, NOT_ROOT_1),
    (1, 15, 1, NOT_SIZE),
    // The area and the zeros behind it.
    (1, 16, 1, Ok(OTHER_AREA)),
    (1, 16, 2, NOT_ROOT_1),
    (1, 17, 1, NOT_ROOT_1),
    (1, 23, 1, NOT_ROOT_1),
    // A head behind the checkpoint, a checkpoint at the end, and an end at the checkpoint and at
    // 2 ^ 63.
    (1, 31, 1, NOT_ROOT_1),
    (1, 39, 2, NOT_ROOT_1),
    (1, 39, 1, Ok(LATER_CHECKPOINT)),
    (1, 47, 2, NOT_ROOT_1),
    (1, 47, 1, Ok(LATER_END)),
    (1, 40, 128, NOT_ROOT_1),
    // The zeros before the tail, the tail, and the zeros behind it.
    (1, 48, 1, NOT_ROOT_1),
    (1, 95, 1, NOT_ROOT_1),
    (1, 96, 1, Ok(OTHER_TAIL)),
    (1, 98, 1, NOT_ROOT_1),
    (1, 4095, 1, NOT_ROOT_1),
    // The root that isn't selected, and all of the selector but one bit, mean nothing.
    (2, 0, 255, Ok(LOADS)),
    (2, 4095, 1, Ok(LOADS)),
    (0, 0, 254, Ok(LOADS)),
    (0, 1, 255, Ok(LOADS)),
    // That bit selects the other root, which is none.
    (0, 0, 1, NOT_ROOT_2),
];

/// A head, an end, and whether the largest Checkpoint record has room after it in 8 log pages and
/// the root's tail.
const ROOMS: [(u64, u64, bool); 6] = [
    // 9 * 4000 - 1 - 386
    (0, 35_613, true),
    (0, 35_614, false),
    (3999, 35_613, true),
    (3999, 35_614, false),
    // 10 * 4000 - 1 - 386
    (4000, 39_613, true),
    (4000, 39_614, false),
];

/// The root that an opening finds: the one before a switch, or the one after it.
#[derive(Clone, Copy, Debug, PartialEq, Eq)]
enum Found {
    Before,
    After,
}

/// What a load finds after a stop, for each of `UNSYNCED`.
type Finds = [Found; 4];

const OLD_ROOT: Finds = [Found::Before; 4];

const NEW_ROOT: Finds = [Found::After; 4];

/// The same while a selector isn't synced that names root 2, or one that names root 1.
const TO_2_UNSYNCED: Finds = [Found::Before, Found::After, Found::Before, Found::After];

const TO_1_UNSYNCED: Finds = [Found::Before, Found::After, Found::After, Found::Before];

/// A switch: the number of the root before it, the ends of the logs of both roots, and what a stop
/// leaves at each of its moments, of the two switches that follow one another.
#[derive(Clone, Copy)]
struct Switch {
    name: &'static str,
    valid: u8,
    before: u64,
    after: u64,
    stops: [(&'static str, usize, Finds); 5],
}

const TO_ROOT_2: Switch = Switch {
    name: "from root 1 to root 2",
    valid: 1,
    before: 2,
    after: 3,
    stops: [
        ("entry", 0, OLD_ROOT),
        ("root 2 written", 1, OLD_ROOT),
        ("root 2 synced", 2, OLD_ROOT),
        ("the selector written", 3, TO_2_UNSYNCED),
        ("the selector synced", 4, NEW_ROOT),
    ],
};

const TO_ROOT_1: Switch = Switch {
    name: "from root 2 to root 1",
    valid: 2,
    before: 3,
    after: 5,
    stops: [
        ("entry", 4, OLD_ROOT),
        ("root 1 written", 5, OLD_ROOT),
        ("root 1 synced", 6, OLD_ROOT),
        ("the selector written", 7, TO_1_UNSYNCED),
        ("the selector synced", 8, NEW_ROOT),
    ],
};

/// The writes of both switches, and the moments right after them.
const WRITES: [(usize, usize); 4] = [(0, 1), (1, 3), (2, 5), (3, 7)];

/// The calls of a load, in their order, and what it answers if one fails. There is no fifth call.
const LOAD_CALLS: [(u64, &str, Answer); 5] = [
    (0, "the sync", Err(OpenFault::Device)),
    (1, "the size", Err(OpenFault::Device)),
    (2, "the selector", Err(OpenFault::Device)),
    (3, "the root", Err(OpenFault::Device)),
    (4, "no call", Ok(LOADS)),
];

/// The calls of a switch, in their order, and what a load finds if one fails and no stop comes.
const SWITCH_CALLS: [(u64, &str, Found); 4] = [
    (0, "the write of the root", Found::Before),
    (1, "the sync of the root", Found::Before),
    (2, "the write of the selector", Found::Before),
    (3, "the sync of the selector", Found::After),
];

/// A root of a store of 64 slots and 8 log pages, whose log has only zeros.
fn root_between(head: u64, end: u64) -> Root {
    let zeros = [0u8; 4000];
    Root {
        version: VERSION,
        slots: 64,
        log_pages: 8,
        area: 0,
        head,
        checkpoint: head,
        end,
        tail: Tail::from_slice(&zeros[..(end % 4000) as usize]),
    }
}

/// The device of a store of 64 slots with its first root.
fn first_device(alloc: Global) -> Result<MemDevice, Fail> {
    Ok(MemDevice::new(alloc, small_store(alloc)?)?)
}

/// Loads the root of a device.
fn answer_of<D: Device>(device: &mut D) -> Answer {
    let (root, number) = load(device)?;
    Ok(Loaded {
        number,
        area: root.area,
        checkpoint: root.checkpoint,
        end: root.end,
        first: root.tail.as_slice().first().copied().unwrap_or(0),
    })
}

/// Loads the root of these pages.
fn answer_in(alloc: Global, pages: Vec<Page>) -> Result<Answer, Fail> {
    let mut device = MemDevice::new(alloc, pages)?;
    Ok(answer_of(&mut device))
}

/// Loads the root of a store of which bits of a byte are turned.
fn answer_turned(alloc: Global, at: usize, offset: usize, bits: u8) -> Result<Answer, Fail> {
    let mut pages = small_store(alloc)?;
    turn(pages.as_mut_slice(), at, offset, bits)?;
    answer_in(alloc, pages)
}

/// Loads the root of a device of so many pages.
fn answer_of_size(alloc: Global, size: usize) -> Result<Answer, Fail> {
    answer_in(alloc, pages_with_root(alloc, size, &first_root(64, 0))?)
}

/// The device of a store of 64 slots of which this call fails.
fn failing_device(alloc: Global, call: u64) -> Result<MemDevice, Fail> {
    Ok(failing_at(alloc, first_device(alloc)?, call)?)
}

/// Loads the root of a device of which this call fails.
fn answer_failing(alloc: Global, call: u64) -> Result<Answer, Fail> {
    let mut device = failing_device(alloc, call)?;
    Ok(answer_of(&mut device))
}

/// Which of a switch's roots is found in these pages.
fn found_in(alloc: Global, pages: Vec<Page>, switch: &Switch) -> Result<Found, Fail> {
    let end = answer_in(alloc, pages)??.end;
    if end == switch.before {
        Ok(Found::Before)
    } else if end == switch.after {
        Ok(Found::After)
    } else {
        Err("another root".into())
    }
}

/// Makes a switch.
fn make(device: &mut MemDevice, switch: &Switch) -> Result<Result<u8, Failed>, Fail> {
    switch_from(device, switch.valid, &root_between(0, switch.after))
}

/// Which of a switch's roots is found after a stop.
fn found_after(
    alloc: Global,
    device: &MemDevice,
    switch: &Switch,
    moment: usize,
    unsynced: Unsynced,
) -> Result<Found, Fail> {
    found_in(alloc, image_at(alloc, device, moment, unsynced)?, switch)
}

/// Which of a switch's roots is found if no stop comes.
fn found_on(alloc: Global, device: &MemDevice, switch: &Switch) -> Result<Found, Fail> {
    found_in(alloc, copy_of_pages(alloc, device)?, switch)
}

/// Stops a device at a moment.
fn assert_stop(
    alloc: Global,
    device: &MemDevice,
    switch: &Switch,
    (when, moment, finds): (&str, usize, &Finds),
) -> Result<(), Fail> {
    for (unsynced, want) in UNSYNCED.iter().zip(finds) {
        let found = found_after(alloc, device, switch, moment, *unsynced)?;
        assert_same(&found, want, (switch.name, when, *unsynced))?;
    }
    Ok(())
}

/// Stops it at each moment of a switch.
fn assert_stops(alloc: Global, device: &MemDevice, switch: &Switch) -> Result<(), Fail> {
    for (when, moment, finds) in &switch.stops {
        assert_stop(alloc, device, switch, (when, *moment, finds))?;
    }
    Ok(())
}

/// The writes of both switches have their moments, and after the last one comes a sync.
fn assert_writes(device: &MemDevice) -> Result<(), Fail> {
    for (write, moment) in &WRITES {
        let found = device.moment_of_write(*write);
        assert_same(&found, &Some(*moment), ("write", *write))?;
    }
    assert_same(&device.moment(), &8, "the last moment")?;
    Ok(())
}

/// Makes a switch, which names this root.
fn assert_made(device: &mut MemDevice, switch: &Switch, root: u8) -> Result<(), Fail> {
    assert_same(&make(device, switch)?, &Ok(root), switch.name)?;
    Ok(())
}

/// Switches a device from root 1 and back, and stops it at each moment.
fn assert_switches(
    alloc: Global,
    device: &mut MemDevice,
    there: &Switch,
    back: &Switch,
) -> Result<(), Fail> {
    assert_made(device, there, 2)?;
    assert_made(device, back, 1)?;
    assert_writes(device)?;
    assert_stops(alloc, device, there)?;
    assert_stops(alloc, device, back)
}

/// Makes a switch over a device that fails a call, and loads what that leaves.
fn assert_failed_switch(
    alloc: Global,
    device: &mut MemDevice,
    switch: &Switch,
    (call, want): (&str, Found),
) -> Result<(), Fail> {
    assert_same(&make(device, switch)?, &Err(Failed), call)?;
    assert_same(&found_on(alloc, device, switch)?, &want, call)?;
    Ok(())
}

/// Fails each call of a switch.
fn assert_failed_switches(alloc: Global, switch: &Switch) -> Result<(), Fail> {
    for (call, name, want) in &SWITCH_CALLS {
        let mut device = failing_device(alloc, *call)?;
        assert_failed_switch(alloc, &mut device, switch, (name, *want))?;
    }
    Ok(())
}

/// The bytes of a page from this place on that aren't 0.
fn assert_rest(alloc: Global, page: &Page) -> Result<(), Fail> {
    let others = others_from(alloc, page, 24)?;
    assert_same_slices(others.as_slice(), &REST, "the others")?;
    Ok(())
}

#[test]
fn a_root_has_the_bytes_of_its_format(rt: HostRuntime) -> Result<(), Fail> {
    let page = encode(&first_root(64, 0));
    assert_same_slices(&page[..24], &FRONT, "the front")?;
    assert_rest(rt.alloc(), &page)
}

#[test]
fn each_field_turned_names_its_place(rt: HostRuntime) -> Result<(), Fail> {
    let answer = answer_of_size(rt.alloc(), SMALL_PAGES)?;
    assert_same(&answer, &Ok(LOADS), "as it was made")?;
    for (at, offset, bits, want) in &TURNED {
        let answer = answer_turned(rt.alloc(), *at, *offset, *bits)?;
        assert_same(&answer, want, ("page", *at, "byte", *offset, *bits))?;
    }
    Ok(())
}

#[test]
fn a_device_of_another_size_is_named(rt: HostRuntime) -> Result<(), Fail> {
    for size in &[0, 1, 2, 76, 78] {
        let answer = answer_of_size(rt.alloc(), *size)?;
        assert_same(&answer, &NOT_SIZE, ("pages", *size))?;
    }
    Ok(())
}

#[test]
fn the_log_needs_room_for_a_checkpoint(rt: HostRuntime) -> Result<(), Fail> {
    for (head, end, fits) in &ROOMS {
        let page = encode(&root_between(*head, *end));
        assert_same(&decode(&page).is_some(), fits, (*head, *end))?;
    }
    Ok(())
}

#[test]
fn a_switch_stopped_at_each_write_finds_the_old_root_or_the_new_one(
    rt: HostRuntime,
) -> Result<(), Fail> {
    let mut device = first_device(rt.alloc())?;
    assert_switches(rt.alloc(), &mut device, &TO_ROOT_2, &TO_ROOT_1)
}

#[test]
fn a_failed_call_of_a_load_is_a_device_fault(rt: HostRuntime) -> Result<(), Fail> {
    for (call, name, want) in &LOAD_CALLS {
        assert_same(&answer_failing(rt.alloc(), *call)?, want, *name)?;
    }
    Ok(())
}

#[test]
fn a_failed_call_of_a_switch_is_a_device_fault(rt: HostRuntime) -> Result<(), Fail> {
    assert_failed_switches(rt.alloc(), &TO_ROOT_2)
}

#[test]
fn a_switch_has_no_fifth_call(rt: HostRuntime) -> Result<(), Fail> {
    let mut device = failing_device(rt.alloc(), 4)?;
    assert_made(&mut device, &TO_ROOT_2, 2)
}
