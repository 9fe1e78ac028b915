// Devices that are made stores.
use crate::harness::{UNDEFINED, assert_probe, assert_untouched, has_writes, store_with_tuple};
use rss_device::{MemDevice, MemSink, MemSource};
use rss_images::{assert_same, assert_same_slices, failing_at};
use rss_scripts::{format_device, run_words};
use rss_top::Status;
use std::alloc::Global;
use std::test::Fail;

/// Sizes of a store, and how many pages its device has.
static SIZES: [(&str, &str, usize); 2] = [("64", "8", 77), ("513", "9", 529)];

/// Sizes that no store has. Of the last two the lowest 32 bits are such as a store has.
static WRONG: [(&str, &str); 8] = [
    ("63", "8"),
    ("64", "7"),
    ("65537", "8"),
    ("64", "4097"),
    ("0", "0"),
    ("18446744073709551615", "18446744073709551615"),
    ("4294967360", "8"),
    ("64", "4294967304"),
];

/// The calls of the device in a format of 64 slots: the new size, the ten pages of the system space,
/// the map, the root, the selector and the sync.
const CALLS: u64 = 15;

/// Makes a device a store, which is empty and has so many pages.
fn assert_format(
    alloc: Global,
    device: MemDevice,
    (slots, log_pages, pages): (&str, &str, usize),
) -> Result<(), Fail> {
    let (status, line, device) = format_device(alloc, device, slots, log_pages)?;
    assert_same(&status, &Status::Ok, slots)?;
    assert_same_slices(line.as_slice(), b"ok\n", slots)?;
    assert_same(&device.pages().len(), &pages, slots)?;
    assert_probe(alloc, device, UNDEFINED, slots)
}

/// A device with a store that has a tuple.
fn stored(alloc: Global) -> Result<MemDevice, Fail> {
    Ok(MemDevice::new(alloc, store_with_tuple(alloc)?)?)
}

/// Formats a device of which this call fails.
fn format_failing(alloc: Global, call: u64) -> Result<(Status, Vec<u8>, MemDevice), Fail> {
    let device = failing_at(alloc, MemDevice::empty(alloc), call)?;
    Ok(format_device(alloc, device, "64", "8")?)
}

fn assert_fails(alloc: Global, call: u64) -> Result<(), Fail> {
    let (status, line, _) = format_failing(alloc, call)?;
    assert_same(&status, &Status::DeviceFault, ("call", call))?;
    assert_same_slices(line.as_slice(), &[], ("call", call))?;
    Ok(())
}

/// Formats a device of no pages, where the second byte of the answer can't be written.
fn format_unanswered(alloc: Global) -> Result<MemDevice, Fail> {
    let mut source = MemSource::new(b"");
    let mut sink = MemSink::new(alloc).taking(1).failing_at(1);
    let words = ["format", "FILE", "64", "8"];
    let device = MemDevice::empty(alloc);
    let (status, device) = run_words(alloc, &words, &mut source, &mut sink, device)?;
    assert_same(&status, &Status::WriteFault, "the format")?;
    assert_same_slices(sink.bytes(), b"o", "the format")?;
    Ok(device)
}

#[test]
fn a_format_makes_an_empty_store(rt: HostRuntime) -> Result<(), Fail> {
    for size in &SIZES {
        assert_format(rt.alloc(), MemDevice::empty(rt.alloc()), *size)?;
        assert_format(rt.alloc(), stored(rt.alloc())?, *size)?;
    }
    Ok(())
}

#[test]
fn a_format_of_a_wrong_size_touches_nothing(rt: HostRuntime) -> Result<(), Fail> {
    for (slots, log_pages) in &WRONG {
        let words = ["format", "FILE", slots, log_pages];
        let case = (*slots, *log_pages);
        assert_untouched(rt.alloc(), &words, Status::WrongSize, case)?;
    }
    Ok(())
}

#[test]
fn a_format_that_fails_says_nothing(rt: HostRuntime) -> Result<(), Fail> {
    for call in 0..CALLS {
        assert_fails(rt.alloc(), call)?;
    }
    let (status, _, device) = format_failing(rt.alloc(), CALLS)?;
    assert_same(&status, &Status::Ok, "there is no further call")?;
    assert_same(&has_writes(&device, 13), &true, "the writes")?;
    Ok(())
}

#[test]
fn a_format_whose_line_fails_has_made_the_store(rt: HostRuntime) -> Result<(), Fail> {
    let device = format_unanswered(rt.alloc())?;
    assert_probe(rt.alloc(), device, UNDEFINED, "formatted")
}
