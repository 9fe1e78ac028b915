// Devices, sources, sinks and lists as they run.
ghost use Rattle.std.specs.Prelude.{◌≡◌, ◌<◌};

use rss_base::{Device, Failed, Page, Sink, Source, Text, Tuple, Value, write_all};
use rss_device::{
    FileDevice, MemDevice, MemSink, MemSource, ReaderSource, StoreFiles, Unsynced, WriterSink,
};
use rss_images::{assert_same, assert_same_slices, image_at};
use std::alloc::Global;
use std::rt::Files;
use std::test::Fail;
use std::{env, fs, process};

const TEXT: &[u8] = b"begin 1\nend 1\n";

/// A stop: when it comes, the moment, what it leaves of a page that isn't synced, and the bytes that
/// fill the two pages of a device then.
type Stop = (&'static str, usize, Unsynced, [u8; 2]);

/// Stops of a device of which the second page is written and synced.
static STOPS: [Stop; 6] = [
    ("entry", 0, Unsynced::Filled(255), [1, 2]),
    ("written", 1, Unsynced::Old, [1, 2]),
    ("written", 1, Unsynced::New, [1, 3]),
    ("written", 1, Unsynced::Filled(255), [1, 255]),
    ("synced", 2, Unsynced::Old, [1, 3]),
    ("synced", 2, Unsynced::Filled(255), [1, 3]),
];

/// The same of a write that fails, of the next one, which doesn't, and of a sync that fails.
static STOPS_OF_FAILURES: [Stop; 6] = [
    ("torn", 1, Unsynced::Old, [1, 2]),
    ("torn", 1, Unsynced::New, [1, 2]),
    ("torn", 1, Unsynced::Filled(255), [1, 255]),
    ("written", 2, Unsynced::Old, [1, 2]),
    ("written", 2, Unsynced::New, [1, 4]),
    ("written", 2, Unsynced::Filled(255), [1, 255]),
];

/// The same of a write of both pages.
static STOPS_OF_RUN: [Stop; 6] = [
    ("within", 1, Unsynced::Old, [1, 2]),
    ("within", 1, Unsynced::New, [3, 2]),
    ("within", 1, Unsynced::Filled(255), [255, 2]),
    ("written", 2, Unsynced::Old, [1, 2]),
    ("written", 2, Unsynced::New, [3, 4]),
    ("written", 2, Unsynced::Filled(255), [255, 255]),
];

/// The same of one that fails.
static STOPS_OF_TORN_RUN: [Stop; 4] = [
    ("within", 1, Unsynced::New, [1, 2]),
    ("within", 1, Unsynced::Filled(255), [255, 2]),
    ("torn", 2, Unsynced::New, [1, 2]),
    ("torn", 2, Unsynced::Filled(255), [255, 255]),
];

/// The writes of such a device, and the moments that they made.
static WRITES_OF_FAILURES: [(usize, Option<usize>); 3] = [(0, Some(1)), (1, Some(2)), (2, None)];

/// Puts what a source gives up to its end, read through a buffer, behind what was read before.
fn read_on<S: Source>(source: &mut S, buffer: &mut [u8], all: &mut Vec<u8>) -> Result<(), Fail> {
    for _ in 0..100 {
        let n = source.read(buffer)?;
        if n == 0 {
            break;
        }
        all.extend_from_slice(&buffer[..n])?;
    }
    Ok(())
}

/// What a source gives up to its end, read through this buffer.
fn read_to_end<S: Source>(
    alloc: Global,
    source: &mut S,
    buffer: &mut [u8],
) -> Result<Vec<u8>, Fail> {
    let mut all = Vec::new(alloc);
    read_on(source, buffer, &mut all)?;
    Ok(all)
}

fn page_full_of(byte: u8) -> Page {
    [byte; 4096]
}

fn is_full_of<D: Device>(device: &mut D, at: u64, byte: u8) -> Result<bool, Failed>
    requires { at < (D.view device.old).size }
    ensures { (D.view device.new).size ≡ (D.view device.old).size }
{
    let mut page = [!byte; 4096];
    device.read(at, &mut page)?;
    Ok(page.iter().all(|b| *b == byte))
}

/// Makes a device three pages, and writes the first two together and the last alone.
pub(crate) fn write_three<D: Device>(device: &mut D) -> Result<(), Failed> {
    device.set_size(3)?;
    device.write_run(0, &[page_full_of(5), page_full_of(7)])?;
    device.write(2, &page_full_of(9))?;
    device.sync()
}

/// Whether a device has these three pages, and no others.
pub(crate) fn has_three<D: Device>(device: &mut D) -> Result<bool, Failed> {
    if device.size()? != 3 {
        return Ok(false);
    }
    Ok(is_full_of(device, 0, 5)? && is_full_of(device, 1, 7)? && is_full_of(device, 2, 9)?)
}

/// A device has them.
pub(crate) fn assert_three<D: Device>(device: &mut D) -> Result<(), Fail> {
    assert_same(&has_three(device), &Ok(true), "the three pages")
}

/// A path where no file is.
pub(crate) fn new_path(rt: &HostRuntime, name: &str) -> Result<String, Fail> {
    let directory = env::temp_dir(rt)?;
    let id = process::id(rt.process());
    Ok(format!(in rt.alloc(); "{}/rss_file_{name}_{id}", directory.display())?)
}

/// Makes a file of three pages.
fn make_file<S: StoreFiles>(rt: &S, path: &str) -> Result<(), Fail> {
    let mut device = FileDevice::new(rt, path);
    assert_same(&device.size(), &Err(Failed), "no file")?;
    write_three(&mut device)?;
    Ok(())
}

/// How many pages a file has by its length.
static SIZES: [(usize, u64); 7] = [
    (0, 0),
    (5, 0),
    (4096, 1),
    (12_287, 2),
    (12_288, 3),
    (12_289, u64::MAX),
    (16_384, 4),
];

/// Opens it, and finds its size as its length changes.
fn assert_file<S: StoreFiles + Files>(rt: &S, path: &str) -> Result<(), Fail> {
    let mut device = FileDevice::new(rt, path);
    assert_three(&mut device)?;
    let bytes = [0u8; 16_384];
    for (length, pages) in &SIZES {
        fs::write(rt, path, &bytes[..(*length).min(bytes.len())])?;
        assert_same(&device.size(), &Ok(*pages), *length)?;
    }
    Ok(())
}

fn assert_source_fails<S: Source>(alloc: Global, source: &mut S) -> Result<(), Fail> {
    let mut buffer = [0; 8];
    assert_same(&source.read(&mut buffer), &Ok(3), "the first read")?;
    assert_same(&source.read(&mut buffer), &Err(Failed), "the second")?;
    let rest = read_to_end(alloc, source, &mut buffer)?;
    assert_same_slices(rest.as_slice(), b"in 1\nend 1\n", "the rest")?;
    Ok(())
}

fn assert_sink_fails(sink: MemSink) -> Result<(), Fail> {
    let mut sink = sink;
    assert_same(&write_all(&mut sink, TEXT), &Err(Failed), "the text")?;
    assert_same_slices(sink.bytes(), b"begin ", "what was written")?;
    let bytes = sink.into_bytes();
    assert_same_slices(bytes.as_slice(), b"begin ", "the bytes")?;
    Ok(())
}

/// A device of two pages.
fn two_pages(alloc: Global) -> Result<MemDevice, Fail> {
    let pages = vec![in alloc; page_full_of(1), page_full_of(2)]?;
    Ok(MemDevice::new(alloc, pages)?)
}

/// Writes the second page of a device. It fails where there is none.
fn write_second(device: &mut MemDevice, byte: u8) -> Result<(), Failed> {
    if device.pages().len() < 2 {
        return Err(Failed);
    }
    device.write(1, &page_full_of(byte))
}

/// Writes both pages of a device together. It fails where there are none.
fn write_both(device: &mut MemDevice) -> Result<(), Failed> {
    if device.pages().len() < 2 {
        return Err(Failed);
    }
    device.write_run(0, &[page_full_of(3), page_full_of(4)])
}

/// Each stop leaves its bytes in the two pages.
fn assert_stops(alloc: Global, device: &MemDevice, stops: &[Stop]) -> Result<(), Fail> {
    for (when, moment, unsynced, bytes) in stops {
        let image = image_at(alloc, device, *moment, *unsynced)?;
        let is_left = image.as_slice()
            == [page_full_of(bytes[0]), page_full_of(bytes[1])].as_slice();
        assert_same(&is_left, &true, (*when, *unsynced))?;
    }
    Ok(())
}

/// Writes the second page, and syncs it.
fn write_and_sync(device: &mut MemDevice) -> Result<(), Fail> {
    assert_same(&write_second(device, 3), &Ok(()), "the write")?;
    assert_same(&device.moment(), &1, "the write")?;
    assert_same(&device.sync(), &Ok(()), "the sync")?;
    assert_same(&device.moment(), &2, "the sync")
}

/// Writes the second page, which fails, and again, and syncs it, which fails.
fn fail_calls(device: &mut MemDevice) -> Result<(), Fail> {
    assert_same(&write_second(device, 3), &Err(Failed), "a write")?;
    assert_same(&device.moment(), &1, "a write")?;
    assert_same(&write_second(device, 4), &Ok(()), "the next one")?;
    assert_same(&device.sync(), &Err(Failed), "the sync")?;
    assert_same(&device.moment(), &2, "the sync")
}

fn push_bytes(text: &mut Text, bytes: &[u8]) -> Result<(), Fail> {
    for byte in bytes {
        text.push(*byte)?;
    }
    Ok(())
}

/// A text of these bytes.
fn text_of(alloc: Global, bytes: &[u8]) -> Result<Text, Fail> {
    let mut text = Text::new(alloc);
    push_bytes(&mut text, bytes)?;
    Ok(text)
}

/// A tuple of 7 and a text.
fn tuple_of(alloc: Global, text: Text) -> Result<Tuple, Fail> {
    let mut tuple = Tuple::new(alloc);
    tuple.push(Value::Int(7))?;
    tuple.push(Value::Text(text))?;
    Ok(tuple)
}

fn is_of_seven(tuple: &Tuple, text: &[u8]) -> bool {
    matches!(tuple.as_slice(), [Value::Int(7), Value::Text(last)] if last.as_slice() == text)
}

#[test]
fn file_device_keeps_its_pages(rt: HostRuntime) -> Result<(), Fail> {
    let path = new_path(&rt, "pages")?;
    make_file(&rt, path.as_str())?;
    assert_file(&rt, path.as_str())?;
    fs::remove_file(&rt, path.as_str())?;
    Ok(())
}

#[test]
fn reader_source_gives_its_text(rt: HostRuntime) -> Result<(), Fail> {
    let mut source = ReaderSource::new(TEXT);
    let all = read_to_end(rt.alloc(), &mut source, &mut [0; 4])?;
    assert_same_slices(all.as_slice(), TEXT, "the text")?;
    Ok(())
}

#[test]
fn writer_sink_writes_its_text(rt: HostRuntime) -> Result<(), Fail> {
    let mut written = Vec::new(rt.alloc());
    write_all(&mut WriterSink::new(&mut written), TEXT)?;
    assert_same_slices(written.as_slice(), TEXT, "the text")?;
    Ok(())
}

#[test]
fn memory_fails_where_it_is_told_to(rt: HostRuntime) -> Result<(), Fail> {
    let mut source = MemSource::new(TEXT).in_pieces(3).failing_at(1);
    assert_source_fails(rt.alloc(), &mut source)?;
    assert_sink_fails(MemSink::new(rt.alloc()).taking(3).failing_at(2))?;
    Ok(())
}

#[test]
fn a_stop_leaves_unsynced_pages_open(rt: HostRuntime) -> Result<(), Fail> {
    let mut device = two_pages(rt.alloc())?;
    write_and_sync(&mut device)?;
    assert_stops(rt.alloc(), &device, &STOPS)
}

#[test]
fn a_call_that_fails_brings_nothing_to_the_disk(rt: HostRuntime) -> Result<(), Fail> {
    let calls = vec![in rt.alloc(); 0, 2]?;
    let mut device = two_pages(rt.alloc())?.failing_at(calls);
    fail_calls(&mut device)?;
    for (write, moment) in &WRITES_OF_FAILURES {
        assert_same(&device.moment_of_write(*write), moment, ("write", *write))?;
    }
    assert_stops(rt.alloc(), &device, &STOPS_OF_FAILURES)
}

#[test]
fn a_stop_comes_between_the_pages_of_a_run(rt: HostRuntime) -> Result<(), Fail> {
    let mut device = two_pages(rt.alloc())?;
    assert_same(&write_both(&mut device), &Ok(()), "the run")?;
    assert_stops(rt.alloc(), &device, &STOPS_OF_RUN)
}

#[test]
fn a_run_that_fails_is_one_call_and_tears_each_of_its_pages(rt: HostRuntime) -> Result<(), Fail> {
    let calls = vec![in rt.alloc(); 0]?;
    let mut device = two_pages(rt.alloc())?.failing_at(calls);
    assert_same(&write_both(&mut device), &Err(Failed), "the run")?;
    assert_stops(rt.alloc(), &device, &STOPS_OF_TORN_RUN)?;
    assert_same(&write_both(&mut device), &Ok(()), "the next one")
}

#[test]
fn lists_keep_what_is_pushed(rt: HostRuntime) -> Result<(), Fail> {
    let text = text_of(rt.alloc(), TEXT)?;
    assert_same_slices(text.as_slice(), TEXT, "the text")?;
    let tuple = tuple_of(rt.alloc(), text)?;
    assert_same(&is_of_seven(&tuple, TEXT), &true, "the tuple")?;
    Ok(())
}
