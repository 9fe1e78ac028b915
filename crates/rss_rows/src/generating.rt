// Scripts that are generated, by the words that ask for them.
use crate::harness::NEVER;
use rss_base::Source;
use rss_device::{MemDevice, MemSink, MemSource};
use rss_images::{assert_same, assert_same_slices};
use rss_scripts::run_words;
use rss_top::Status;
use std::alloc::Global;
use std::test::Fail;

/// A script that isn't read.
const UNREAD: &[u8] = b"begin 1";

/// Words that are good, and how many lines their script has.
struct Row {
    number: &'static str,
    count: &'static str,
    lines: usize,
}

static ROWS: [Row; 5] = [
    Row {
        number: "0",
        count: "1",
        lines: 35,
    },
    Row {
        number: "18446744073709551615",
        count: "1",
        lines: 35,
    },
    Row {
        number: "7",
        count: "10",
        lines: 55,
    },
    Row {
        number: "7",
        count: "51",
        lines: 150,
    },
    Row {
        number: "1",
        count: "100000",
        lines: 230_528,
    },
];

/// Generates a script to a sink that fails at a write. Neither the device nor the source is touched.
fn generate(
    alloc: Global,
    number: &str,
    count: &str,
    write: u64,
) -> Result<(Status, MemSink), Fail> {
    let mut source = MemSource::new(UNREAD);
    let mut sink = MemSink::new(alloc).failing_at(write);
    let words = ["gen", number, count];
    let device = MemDevice::empty(alloc);
    let (status, device) = run_words(alloc, &words, &mut source, &mut sink, device)?;
    assert_same(&device.moment(), &0, words)?;
    assert_same(&source.read(&mut [0; 100]), &Ok(UNREAD.len()), words)?;
    Ok((status, sink))
}

fn count_lines(bytes: &[u8]) -> usize {
    let mut lines: usize = 0;
    for byte in bytes {
        if *byte == b'\n' {
            lines = lines.saturating_add(1);
        }
    }
    lines
}

#[test]
fn good_words_generate_as_many_lines(rt: HostRuntime) -> Result<(), Fail> {
    for row in &ROWS {
        let (status, sink) = generate(rt.alloc(), row.number, row.count, NEVER)?;
        assert_same(&status, &Status::Ok, row.count)?;
        assert_same(&count_lines(sink.bytes()), &row.lines, row.count)?;
    }
    Ok(())
}

#[test]
fn a_fault_of_the_sink_leaves_the_lines_before(rt: HostRuntime) -> Result<(), Fail> {
    let rows: [(u64, &[u8]); 3] = [
        (0, b""),
        (1, b"segment s\n"),
        (2, b"segment s\nrelation dept s no:int name:text20\n"),
    ];
    for (write, front) in &rows {
        let (status, sink) = generate(rt.alloc(), "1", "1", *write)?;
        assert_same(&status, &Status::WriteFault, *write)?;
        assert_same_slices(sink.bytes(), front, *write)?;
    }
    Ok(())
}
