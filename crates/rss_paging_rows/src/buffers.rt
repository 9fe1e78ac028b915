// Pages over a device and in memory, as they run.
use crate::caller::keep;
use crate::harness::{first_root, home, is_half_free, page_at, pages_with_root};
use rss_base::{Page, PageFault, PageKey, Pages, Space, log_at};
use rss_buffer::{Buffer, Saving, Stage};
use rss_device::{MemDevice, MemPages, Unsynced};
use rss_images::{UNSYNCED, assert_same, assert_same_slices, copy_of_pages, failing_at, image_at};
use rss_pagemap::read_table;
use rss_root::load;
use std::alloc::Global;
use std::test::Fail;

/// A store of 128 slots, and how many pages its device has.
pub(crate) const SLOTS: u32 = 128;

const DEVICE_PAGES: usize = 141;

/// Where its eight log pages begin.
const LOG_AT: usize = 5;

/// How many pages are kept, in how few frames.
const KEPT: usize = 60;

const FRAMES: u32 = 8;

/// How many calls of the device an opening takes, and how many there are when the second round is
/// done. After the opening's come 25 reads, four writes of the eight pages that are in memory, one
/// of the map, and the four calls of a switch.
pub(crate) const OPENING: u64 = 5;

const DONE: u64 = 39;

/// The pages of the home space of segment 1 by the rounds in which they were written.
type Rounds = [Option<u8>; KEPT];

const FIRST_ROUND: Rounds = [Some(1); KEPT];

/// Reads of which the device's second one fails: the page that is read, and whether it is found.
const READS_OF_TWO: [(&str, u32, bool); 6] = [
    ("once", 0, true),
    ("twice", 0, true),
    ("three times", 0, true),
    ("the second read of the device", 1, false),
    ("its third read", 1, true),
    ("at last", 0, true),
];

/// Reads after those of nine pages, of which the device's tenth one fails. The first page is in
/// memory and the second isn't, which wasn't used for the longest time.
const READS_AFTER_NINE: [(&str, u32, bool); 2] = [
    ("the first page", 0, true),
    ("the second page", 1, false),
];

/// Why something wasn't done to pages.
#[derive(Clone, Copy, Debug, PartialEq)]
pub(crate) enum Undone {
    Fault(PageFault),
    /// It may not be done, for this reason.
    Refused(&'static str),
}

impl From<PageFault> for Undone {
    fn from(fault: PageFault) -> Self {
        Undone::Fault(fault)
    }
}

/// A step of a save.
#[derive(Clone, Copy)]
pub(crate) enum Step {
    /// Fills a log page with a byte.
    Piece(u32, u8),
    Save(u8),
    /// From the root with the first number to one with this area.
    Switch(u8, u8),
    Adopt,
}

/// The steps that save the first round, and those that save the second.
pub(crate) const FIRST_SAVE: [Step; 3] = [Step::Save(1), Step::Switch(1, 1), Step::Adopt];

const SECOND_SAVE: [Step; 3] = [Step::Save(0), Step::Switch(2, 0), Step::Adopt];

/// The second save, with a log page written before each of its first two steps.
const SECOND_SAVE_WITH_PIECES: [Step; 5] = [
    Step::Piece(0, 7),
    Step::Save(0),
    Step::Piece(7, 8),
    Step::Switch(2, 0),
    Step::Adopt,
];

/// The page `number` in this round.
pub(crate) fn page_of(number: u32, round: u8) -> Page {
    let mut page = [round; 4096];
    let [.., low] = number.to_be_bytes();
    page[0] = low;
    page[4095] = low;
    page
}

/// The round in which the second one leaves a page. In it 25 pages are read, 30 are written, five are
/// given back, and two of these are taken and written again.
fn second_round_of(number: usize) -> Option<u8> {
    match number {
        0..30 => Some(2),
        30..32 => Some(3),
        32..35 => None,
        _ => Some(1),
    }
}

fn second_round() -> Rounds {
    let mut rounds = FIRST_ROUND;
    for number in 0..KEPT {
        rounds[number] = second_round_of(number);
    }
    rounds
}

/// Opens the pages of a device, if half of its slots have room for them.
pub(crate) fn open(alloc: Global, device: MemDevice) -> Result<Buffer<MemDevice>, Fail> {
    let mut device = device;
    let (root, _) = load(&mut device)?;
    let table = read_table(alloc, &mut device, &root)?;
    if !is_half_free(&table) {
        return Err("too many pages".into());
    }
    match Buffer::new(alloc, device, &root, table, FRAMES) {
        Ok(buffer) => Ok(buffer),
        Err(unopened) => Err(unopened.fault.into()),
    }
}

/// The pages of a store that has none.
pub(crate) fn empty(alloc: Global) -> Result<Buffer<MemDevice>, Fail> {
    let pages = pages_with_root(alloc, DEVICE_PAGES, &first_root(SLOTS, 0))?;
    open(alloc, MemDevice::new(alloc, pages)?)
}

/// Takes a home page of segment 1, if one can be taken.
fn take<P: Pages>(pages: &mut P) -> Result<u32, Undone> {
    if pages.spare() == 0 {
        return Err(Undone::Refused("no page can be taken"));
    }
    Ok(pages.take(1, Space::Home)?)
}

/// Reads a page, if it is mapped.
pub(crate) fn read<P: Pages>(pages: &mut P, key: PageKey) -> Result<Page, Undone> {
    if !pages.has(key) {
        return Err(Undone::Refused("a page that isn't mapped"));
    }
    let mut page = [0; 4096];
    pages.read(key, &mut page)?;
    Ok(page)
}

/// Writes a page, if it is mapped.
pub(crate) fn write<P: Pages>(pages: &mut P, key: PageKey, page: &Page) -> Result<(), Undone> {
    if !pages.has(key) {
        return Err(Undone::Refused("a page that isn't mapped"));
    }
    Ok(pages.write(key, page)?)
}

/// Gives a page back, if it is mapped.
pub(crate) fn give<P: Pages>(pages: &mut P, key: PageKey) -> Result<(), Undone> {
    if !pages.has(key) {
        return Err(Undone::Refused("a page that isn't mapped"));
    }
    Ok(pages.give(key)?)
}

/// Fills a log page with a byte, if there is one with the number `number`.
fn write_piece<S: Saving>(pages: &mut S, number: u32, byte: u8) -> Result<(), Undone> {
    if number >= pages.log_pages() {
        return Err(Undone::Refused("no such log page"));
    }
    let at = log_at(pages.slots()) + u64::from(number);
    Ok(pages.write_piece(at, &[byte; 4096])?)
}

/// Saves, if this area may be written.
fn save<S: Saving>(pages: &mut S, area: u8) -> Result<(), Undone> {
    if area > 1 || area == pages.area() {
        return Err(Undone::Refused("no area to save to"));
    }
    Ok(pages.save(area)?)
}

/// Switches from the root `valid` to one with this area.
fn switch<S: Saving>(pages: &mut S, valid: u8, area: u8) -> Result<(), Undone> {
    if valid < 1 || valid > 2 {
        return Err(Undone::Refused("no such root"));
    }
    pages.switch(valid, &first_root(SLOTS, area))?;
    Ok(())
}

/// Adopts what is saved and selected.
fn adopt<S: Saving>(pages: &mut S) -> Result<(), Undone> {
    if pages.stage() != Stage::Switched {
        return Err(Undone::Refused("nothing to adopt"));
    }
    if pages.shadow().mapped() > pages.slots() / 2 {
        return Err(Undone::Refused("too many pages"));
    }
    pages.adopt();
    Ok(())
}

/// Does a step of a save, if it may be done.
fn do_step<S: Saving>(pages: &mut S, step: Step) -> Result<(), Undone> {
    match step {
        Step::Piece(number, byte) => write_piece(pages, number, byte),
        Step::Save(area) => save(pages, area),
        Step::Switch(valid, area) => switch(pages, valid, area),
        Step::Adopt => adopt(pages),
    }
}

/// Does the steps of a save, up to the first that fails.
pub(crate) fn do_steps<S: Saving>(pages: &mut S, steps: &[Step]) -> Result<(), Undone> {
    for step in steps {
        do_step(pages, *step)?;
    }
    Ok(())
}

/// Takes the pages from `first` to `end`, and writes each in a round.
fn take_pages<P: Pages>(pages: &mut P, first: u32, end: u32, round: u8) -> Result<(), Undone> {
    for number in first..end {
        take(pages)?;
        write(pages, home(1, number), &page_of(number, round))?;
    }
    Ok(())
}

fn read_pages<P: Pages>(pages: &mut P, first: u32, end: u32) -> Result<(), Undone> {
    for number in first..end {
        read(pages, home(1, number))?;
    }
    Ok(())
}

fn write_pages<P: Pages>(pages: &mut P, first: u32, end: u32, round: u8) -> Result<(), Undone> {
    for number in first..end {
        write(pages, home(1, number), &page_of(number, round))?;
    }
    Ok(())
}

fn give_pages<P: Pages>(pages: &mut P, first: u32, end: u32) -> Result<(), Undone> {
    for number in first..end {
        give(pages, home(1, number))?;
    }
    Ok(())
}

/// Makes the first round.
fn make_first<P: Pages>(pages: &mut P) -> Result<(), Undone> {
    take_pages(pages, 0, KEPT as u32, 1)
}

/// Makes the second round, up to the first step that fails.
fn make_second<P: Pages>(pages: &mut P) -> Result<(), Undone> {
    read_pages(pages, 35, KEPT as u32)?;
    write_pages(pages, 0, 30, 2)?;
    give_pages(pages, 30, 35)?;
    take_pages(pages, 30, 32, 3)
}

/// The round in which a page was written, if it is mapped.
fn round_of<P: Pages>(pages: &mut P, number: u32) -> Result<Option<u8>, Undone> {
    if !pages.has(home(1, number)) {
        return Ok(None);
    }
    let page = read(pages, home(1, number))?;
    if page != page_of(number, page[1]) {
        return Err(Undone::Refused("a page that was not written"));
    }
    Ok(Some(page[1]))
}

/// Reads all pages.
fn rounds_of<P: Pages>(pages: &mut P) -> Result<Rounds, Undone> {
    let mut rounds = [None; KEPT];
    for number in 0..KEPT {
        rounds[number] = round_of(pages, number as u32)?;
    }
    Ok(rounds)
}

/// What an opening of these pages finds.
fn rounds_in(alloc: Global, pages: Vec<Page>) -> Result<Rounds, Fail> {
    let mut pages = open(alloc, MemDevice::new(alloc, pages)?)?;
    Ok(rounds_of(&mut pages)?)
}

/// What an opening finds after a stop at a moment.
fn rounds_after(
    alloc: Global,
    device: &MemDevice,
    moment: usize,
    unsynced: Unsynced,
) -> Result<Rounds, Fail> {
    rounds_in(alloc, image_at(alloc, device, moment, unsynced)?)
}

/// Makes and saves the first round.
fn save_first<S: Saving>(pages: &mut S) -> Result<(), Undone> {
    make_first(pages)?;
    do_steps(pages, &FIRST_SAVE)
}

/// Makes and saves the second round, up to the first step that fails.
fn save_second<S: Saving>(pages: &mut S, save: &[Step]) -> Result<(), Undone> {
    make_second(pages)?;
    do_steps(pages, save)
}

/// The device of pages to which something was done.
pub(crate) fn device_of(
    pages: Buffer<MemDevice>,
    done: Result<(), Undone>,
) -> Result<MemDevice, Fail> {
    match done {
        Ok(()) => Ok(pages.into_device()),
        Err(undone) => Err(undone.into()),
    }
}

/// The same if it was seen to be done.
pub(crate) fn device_after(
    pages: Buffer<MemDevice>,
    seen: Result<(), Fail>,
) -> Result<MemDevice, Fail> {
    let device = pages.into_device();
    seen?;
    Ok(device)
}

/// The device of a store with the first round.
fn first_device(alloc: Global) -> Result<MemDevice, Fail> {
    let mut pages = empty(alloc)?;
    let done = save_first(&mut pages);
    device_of(pages, done)
}

/// The pages of that device.
fn first_store(alloc: Global) -> Result<Vec<Page>, Fail> {
    Ok(copy_of_pages(alloc, &first_device(alloc)?)?)
}

/// A device of these pages.
fn copy_of(alloc: Global, pages: &[Page]) -> Result<MemDevice, Fail> {
    Ok(MemDevice::new(alloc, Vec::from_slice(alloc, pages)?)?)
}

/// Opens the pages of a device of which this call fails.
fn open_failing(alloc: Global, pages: &[Page], call: u64) -> Result<Buffer<MemDevice>, Fail> {
    open(alloc, failing_at(alloc, copy_of(alloc, pages)?, call)?)
}

/// Opens the store with the first round on a device of which this call fails.
pub(crate) fn open_first(alloc: Global, call: u64) -> Result<Buffer<MemDevice>, Fail> {
    let store = first_store(alloc)?;
    open_failing(alloc, store.as_slice(), call)
}

/// The device of a store with the first round, on which the second was made and so far saved.
fn second_device(alloc: Global, save: &[Step]) -> Result<MemDevice, Fail> {
    let mut pages = open(alloc, MemDevice::new(alloc, first_store(alloc)?)?)?;
    let done = save_second(&mut pages, save);
    device_of(pages, done)
}

/// All pages are of these rounds.
fn assert_rounds<P: Pages>(pages: &mut P, want: &Rounds, when: &str) -> Result<(), Fail> {
    assert_same_slices(&rounds_of(pages)?, want, when)?;
    Ok(())
}

/// Does the steps of a save. All pages are read before the first, and after each.
fn assert_saved<S: Saving>(pages: &mut S, save: &[Step], want: &Rounds) -> Result<(), Fail> {
    assert_rounds(pages, want, "written")?;
    for step in save {
        do_step(pages, *step)?;
        assert_rounds(pages, want, "on the way to the disk")?;
    }
    Ok(())
}

/// Makes and saves the first round over pages that have none.
fn assert_first<S: Saving>(pages: &mut S) -> Result<(), Fail> {
    make_first(pages)?;
    assert_saved(pages, &FIRST_SAVE, &FIRST_ROUND)
}

/// Makes and saves the second round over those of the first.
fn assert_second<S: Saving>(pages: &mut S) -> Result<(), Fail> {
    assert_rounds(pages, &FIRST_ROUND, "opened")?;
    make_second(pages)?;
    assert_saved(pages, &SECOND_SAVE, &second_round())
}

/// The second round is there once more.
fn assert_opened_again<P: Pages>(pages: &mut P) -> Result<(), Fail> {
    Ok(assert_rounds(pages, &second_round(), "opened again")?)
}

/// The device on which the first round is so made and saved.
fn first_asserted(alloc: Global) -> Result<MemDevice, Fail> {
    let mut pages = empty(alloc)?;
    let done = assert_first(&mut pages);
    device_after(pages, done)
}

/// The device on which the second is.
fn second_asserted(alloc: Global) -> Result<MemDevice, Fail> {
    let mut pages = open(alloc, first_asserted(alloc)?)?;
    let done = assert_second(&mut pages);
    device_after(pages, done)
}

/// Stops a device at a moment of the second round. What that leaves is one of the two rounds, and
/// if nothing is switched the first.
fn assert_stop(
    alloc: Global,
    device: &MemDevice,
    moment: usize,
    is_switching: bool,
) -> Result<(), Fail> {
    for unsynced in &UNSYNCED {
        let rounds = rounds_after(alloc, device, moment, *unsynced)?;
        if !is_switching || rounds != second_round() {
            assert_same_slices(&rounds, &FIRST_ROUND, (*unsynced, "at moment", moment))?;
        }
    }
    Ok(())
}

/// Stops it at each moment but the last; up to this one nothing is switched.
fn assert_stops(alloc: Global, device: &MemDevice, saved: usize) -> Result<(), Fail> {
    for moment in 0..device.moment() {
        assert_stop(alloc, device, moment, moment > saved)?;
    }
    Ok(())
}

/// Stops it at the last moment.
fn assert_end(alloc: Global, device: &MemDevice) -> Result<(), Fail> {
    for unsynced in &UNSYNCED {
        let rounds = rounds_after(alloc, device, device.moment(), *unsynced)?;
        assert_same_slices(&rounds, &second_round(), (*unsynced, "at the end"))?;
    }
    Ok(())
}

/// What a second save leaves in which a call of the device fails.
fn device_of_failure(alloc: Global, store: &[Page], call: u64) -> Result<MemDevice, Fail> {
    let mut pages = open_failing(alloc, store, call)?;
    assert_fails(&mut pages, call)?;
    Ok(pages.into_device())
}

/// Fails a call of the device in the second round.
fn assert_failure(alloc: Global, store: &[Page], call: u64) -> Result<(), Fail> {
    let device = device_of_failure(alloc, store, call)?;
    assert_stop(alloc, &device, device.moment(), true)
}

/// Fails each of them.
fn assert_failures(alloc: Global, store: &[Page]) -> Result<(), Fail> {
    for call in OPENING..DONE {
        assert_failure(alloc, store, call)?;
    }
    Ok(())
}

/// Makes and saves the second round.
fn assert_done<S: Saving>(pages: &mut S) -> Result<(), Fail> {
    let done = save_second(pages, &SECOND_SAVE);
    assert_same(&done, &Ok(()), "no call fails")?;
    Ok(())
}

/// Makes it and saves it over a device that fails.
fn assert_fails<S: Saving>(pages: &mut S, call: u64) -> Result<(), Fail> {
    let done = save_second(pages, &SECOND_SAVE);
    let want = Err(Undone::Fault(PageFault::Device));
    assert_same(&done, &want, ("call", call))?;
    Ok(())
}

/// Reads these pages, and finds each as it was written in the first round, or the device fails.
fn assert_reads<P: Pages>(pages: &mut P, reads: &[(&str, u32, bool)]) -> Result<(), Fail> {
    for (when, number, is_read) in reads {
        let want = if *is_read {
            Ok(page_of(*number, 1))
        } else {
            Err(Undone::Fault(PageFault::Device))
        };
        assert_same(&read(pages, home(1, *number)), &want, *when)?;
    }
    Ok(())
}

/// Reads eight pages, the first of them again, and a ninth.
fn read_nine_pages<P: Pages>(pages: &mut P) -> Result<(), Undone> {
    read_pages(pages, 0, 8)?;
    read_pages(pages, 0, 1)?;
    read_pages(pages, 8, 9)
}

/// Reads nine pages so, and then these.
fn assert_reads_after_nine<P: Pages>(
    pages: &mut P,
    reads: &[(&str, u32, bool)],
) -> Result<(), Fail> {
    read_nine_pages(pages)?;
    assert_reads(pages, reads)
}

/// Reads all pages twice.
fn assert_read_twice<P: Pages>(pages: &mut P) -> Result<(), Fail> {
    assert_rounds(pages, &FIRST_ROUND, "once")?;
    assert_rounds(pages, &FIRST_ROUND, "twice")
}

/// The device on which all pages were read twice.
fn device_read_twice(alloc: Global) -> Result<MemDevice, Fail> {
    let mut pages = open(alloc, MemDevice::new(alloc, first_store(alloc)?)?)?;
    let done = assert_read_twice(&mut pages);
    device_after(pages, done)
}

/// Fills a log page with sevens.
fn fill_piece<S: Saving>(pages: &mut S, number: u32) -> Result<(), Fail> {
    write_piece(pages, number, 7)?;
    assert_rounds(pages, &FIRST_ROUND, "a log page is written")
}

/// A device on which a log page was so filled.
fn device_with_piece(alloc: Global, store: &[Page], number: u32) -> Result<MemDevice, Fail> {
    let mut pages = open(alloc, copy_of(alloc, store)?)?;
    let done = fill_piece(&mut pages, number);
    device_after(pages, done)
}

/// The pages of a device, but that a log page is filled so.
fn pages_with_piece(alloc: Global, store: &[Page], number: u32) -> Result<Vec<Page>, Fail> {
    let mut pages = Vec::from_slice(alloc, store)?;
    if let Some(page) = pages.get_mut(LOG_AT + number as usize) {
        *page = [7; 4096];
    }
    Ok(pages)
}

/// Fills a log page, and finds it on the device with all else as it was.
fn assert_piece(alloc: Global, store: &[Page], number: u32) -> Result<(), Fail> {
    let device = device_with_piece(alloc, store, number)?;
    let want = pages_with_piece(alloc, store, number)?;
    let is_alone = device.pages() == want.as_slice();
    assert_same(&is_alone, &true, ("log page", number))?;
    Ok(())
}

fn assert_pieces(alloc: Global, store: &[Page]) -> Result<(), Fail> {
    for number in 0..8 {
        assert_piece(alloc, store, number)?;
    }
    Ok(())
}

/// The first and the last log page are as they were written on the way, and so are all pages.
fn assert_saved_with_pieces(alloc: Global, device: &MemDevice) -> Result<(), Fail> {
    for (number, byte) in [(0, 7), (7, 8)] {
        let page = page_at(device, LOG_AT + number)?;
        assert_same(&page, &[byte; 4096], ("log page", number))?;
    }
    let rounds = rounds_in(alloc, copy_of_pages(alloc, device)?)?;
    assert_same_slices(&rounds, &second_round(), "the pages")?;
    Ok(())
}

/// Keeps a page that is filled with a byte, and answers its number.
fn keep_filled<P: Pages>(pages: &mut P, byte: u8) -> Result<u32, Undone> {
    if pages.spare() == 0 {
        return Err(Undone::Refused("no page can be taken"));
    }
    let mut page = [0; 4096];
    let number = keep(pages, 1, &[byte; 4096], &mut page)?;
    if page != [byte; 4096] {
        return Err(Undone::Refused("a page that was not written"));
    }
    Ok(number)
}

/// Keeps so many pages, and answers their numbers as they were taken.
fn kept<P: Pages>(alloc: Global, pages: &mut P, count: u8) -> Result<Vec<u32>, Fail> {
    let mut numbers = Vec::new(alloc);
    for round in 0..count {
        numbers.push(keep_filled(pages, round)?)?;
    }
    Ok(numbers)
}

/// What a caller finds: it keeps 20 pages, gives two of them back, and keeps three.
fn found<P: Pages>(alloc: Global, pages: &mut P) -> Result<Vec<u32>, Fail> {
    kept(alloc, pages, 20)?;
    give(pages, home(1, 3))?;
    give(pages, home(1, 11))?;
    kept(alloc, pages, 3)
}

fn assert_found<P: Pages>(alloc: Global, pages: &mut P, place: &str) -> Result<(), Fail> {
    let numbers = found(alloc, pages)?;
    assert_same_slices(numbers.as_slice(), &[3, 11, 20], place)?;
    Ok(())
}

/// So many pages are the same in both places.
fn assert_same_pages<P: Pages, Q: Pages>(on_device: &mut P, in_memory: &mut Q) -> Result<(), Fail> {
    for number in 0..21 {
        let page = read(on_device, home(1, number))?;
        let here = read(in_memory, home(1, number));
        assert_same(&here, &Ok(page), ("page", number))?;
    }
    Ok(())
}

/// A caller finds the same in both places.
fn assert_alike<P: Pages, Q: Pages>(
    alloc: Global,
    on_device: &mut P,
    in_memory: &mut Q,
) -> Result<(), Fail> {
    assert_found(alloc, on_device, "on a device")?;
    assert_found(alloc, in_memory, "in memory")?;
    assert_same(&on_device.spare(), &in_memory.spare(), "the spare pages")?;
    assert_same_pages(on_device, in_memory)
}

#[test]
fn sixty_pages_in_eight_frames_are_read_as_they_were_written(rt: HostRuntime) -> Result<(), Fail> {
    let mut pages = open(rt.alloc(), second_asserted(rt.alloc())?)?;
    assert_opened_again(&mut pages)
}

#[test]
fn a_stop_at_each_moment_finds_the_pages_of_before_the_switch_or_after_it(
    rt: HostRuntime,
) -> Result<(), Fail> {
    let saved = second_device(rt.alloc(), &SECOND_SAVE[..1])?.moment();
    let device = second_device(rt.alloc(), &SECOND_SAVE)?;
    assert_stops(rt.alloc(), &device, saved)?;
    assert_end(rt.alloc(), &device)
}

#[test]
fn a_failed_call_of_the_device_is_a_device_fault_and_no_page_is_lost(
    rt: HostRuntime,
) -> Result<(), Fail> {
    let store = first_store(rt.alloc())?;
    assert_failures(rt.alloc(), store.as_slice())
}

#[test]
fn a_second_save_has_no_further_call_of_the_device(rt: HostRuntime) -> Result<(), Fail> {
    let mut pages = open_first(rt.alloc(), DONE)?;
    assert_done(&mut pages)?;
    Ok(())
}

#[test]
fn a_page_in_memory_is_not_read_again(rt: HostRuntime) -> Result<(), Fail> {
    let mut pages = open_first(rt.alloc(), OPENING + 1)?;
    assert_reads(&mut pages, &READS_OF_TWO)
}

#[test]
fn the_page_that_was_not_used_for_the_longest_time_leaves_memory(
    rt: HostRuntime,
) -> Result<(), Fail> {
    let mut pages = open_first(rt.alloc(), OPENING + 9)?;
    assert_reads_after_nine(&mut pages, &READS_AFTER_NINE)
}

#[test]
fn pages_that_are_only_read_are_not_written(rt: HostRuntime) -> Result<(), Fail> {
    let device = device_read_twice(rt.alloc())?;
    // An opening syncs, and that is all.
    assert_same(&device.moment(), &1, "the last moment")?;
    Ok(())
}

#[test]
fn a_log_page_is_written_and_no_other_page(rt: HostRuntime) -> Result<(), Fail> {
    let store = first_store(rt.alloc())?;
    assert_pieces(rt.alloc(), store.as_slice())
}

#[test]
fn pages_are_saved_while_log_pages_are_written(rt: HostRuntime) -> Result<(), Fail> {
    let device = second_device(rt.alloc(), &SECOND_SAVE_WITH_PIECES)?;
    assert_saved_with_pieces(rt.alloc(), &device)
}

#[test]
fn a_caller_finds_the_same_over_a_device_and_in_memory(rt: HostRuntime) -> Result<(), Fail> {
    let mut on_device = empty(rt.alloc())?;
    let mut in_memory = MemPages::new(rt.alloc(), SLOTS)?;
    assert_alike(rt.alloc(), &mut on_device, &mut in_memory)
}
