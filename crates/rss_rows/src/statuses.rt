// How a run ends, and what it leaves.
use crate::harness::{ABSENT, NEVER, PRESENT, SMALL, assert_probe, assert_untouched, store_with_r};
use crate::lines::{count_lines, first_lines};
use rss_device::{MemDevice, MemSink, MemSource};
use rss_images::{assert_same, assert_same_slices};
use rss_scripts::run_words;
use rss_top::Status;
use std::alloc::Global;
use std::test::Fail;

/// A script with one commit.
const COMMIT: &[u8] = b"begin 1\ninsert 1 r 8\nend 1\nfetch 1 r 0.0";

/// Its replies.
const REPLIES: &[u8] = b"ok\nok 0.0\nok\nrefused 2 no transaction\n";

/// A fault of the source or the sink while the commit's script is run.
#[derive(Drop)]
struct Fault {
    name: &'static str,
    /// How many bytes a read gives.
    piece: usize,
    /// The read that fails, and the write.
    read: u64,
    write: u64,
    status: Status,
    replies: &'static [u8],
    /// What the probe gets afterwards.
    leaves: &'static [u8],
}

static FAULTS: [Fault; 6] = [
    Fault {
        name: "no fault",
        piece: 8,
        read: NEVER,
        write: NEVER,
        status: Status::Ok,
        replies: REPLIES,
        leaves: PRESENT,
    },
    Fault {
        name: "the first read",
        piece: 8,
        read: 0,
        write: NEVER,
        status: Status::ReadFault,
        replies: b"",
        leaves: ABSENT,
    },
    Fault {
        name: "a read within the second line",
        piece: 9,
        read: 1,
        write: NEVER,
        status: Status::ReadFault,
        replies: b"ok\n",
        leaves: ABSENT,
    },
    Fault {
        name: "the read of the end",
        piece: 100,
        read: 1,
        write: NEVER,
        status: Status::ReadFault,
        replies: b"ok\nok 0.0\nok\n",
        leaves: PRESENT,
    },
    Fault {
        name: "the first write",
        piece: 8,
        read: NEVER,
        write: 0,
        status: Status::WriteFault,
        replies: b"",
        leaves: ABSENT,
    },
    Fault {
        name: "the write that acknowledges the commit",
        piece: 8,
        read: NEVER,
        write: 2,
        status: Status::WriteFault,
        replies: b"ok\nok 0.0\n",
        leaves: PRESENT,
    },
];

/// Words that are no command, after the program's own name.
static WORDS: [&[&str]; 53] = [
    &[],
    &["run"],
    &["FILE"],
    &["Run", "FILE"],
    &["FILE", "run"],
    &["run", "FILE", "FILE"],
    &["run", "FILE", "64", "8"],
    &["format"],
    &["format", "FILE"],
    &["format", "FILE", "64"],
    &["format", "FILE", "64", "8", "8"],
    &["Format", "FILE", "64", "8"],
    &["format", "FILE", "064", "8"],
    &["format", "FILE", "+64", "8"],
    &["format", "FILE", "64", ""],
    &["format", "FILE", "64", "18446744073709551616"],
    &["gen"],
    &["gen", "1"],
    &["gen", "1", "1", "1"],
    &["gen", "FILE", "1", "1"],
    &["Gen", "1", "1"],
    &["gen", "1", "0"],
    &["gen", "1", "100001"],
    &["gen", "01", "1"],
    &["gen", "1", "01"],
    &["gen", "00", "1"],
    &["gen", "+1", "1"],
    &["gen", "1", "+1"],
    &["gen", "-1", "1"],
    &["gen", "1", "-1"],
    &["gen", "", "1"],
    &["gen", "18446744073709551616", "1"],
    &["gen", "--", "1"],
    &["trial"],
    &["trial", "FILE"],
    &["trial", "FILE", "1"],
    &["trial", "1", "1"],
    &["trial", "FILE", "1", "1", "1"],
    &["Trial", "FILE", "1", "1"],
    &["trial", "FILE", "1", "0"],
    &["trial", "FILE", "1", "100001"],
    &["trial", "FILE", "01", "1"],
    &["trial", "FILE", "1", "+1"],
    &["trial", "FILE", "18446744073709551616", "1"],
    &["talk"],
    &["Talk", "FILE"],
    &["talk", "FILE", "FILE"],
    &["talk", "FILE", "64", "8"],
    &["talk", "-FILE"],
    &["run", "-FILE"],
    &["trial", "-FILE", "1", "1"],
    &["format", "-FILE", "64", "8"],
    &["--help"],
];

/// Runs the commit's script over a store without tuples, with a fault. Answers the device that this left.
fn run_with(alloc: Global, fault: &Fault) -> Result<MemDevice, Fail> {
    let mut source = MemSource::new(COMMIT)
        .in_pieces(fault.piece)
        .failing_at(fault.read);
    let mut sink = MemSink::new(alloc).failing_at(fault.write);
    let device = store_with_r(alloc, SMALL)?;
    let (status, device) = run_words(alloc, &["run", "FILE"], &mut source, &mut sink, device)?;
    assert_same(&status, &fault.status, fault.name)?;
    assert_same_slices(sink.bytes(), fault.replies, fault.name)?;
    Ok(device)
}

#[test]
fn a_fault_of_the_source_or_the_sink_ends_the_run(rt: HostRuntime) -> Result<(), Fail> {
    for fault in &FAULTS {
        let device = run_with(rt.alloc(), fault)?;
        assert_probe(rt.alloc(), device, fault.leaves, fault.name)?;
    }
    Ok(())
}

/// What the probe gets behind so many lines of the script, of which the third commits.
fn left_by(lines: usize) -> &'static [u8] {
    if lines >= 3 { PRESENT } else { ABSENT }
}

/// A script that comes byte by byte, of which the read fails that follows so many bytes: the lines were run
/// whose ends they have.
fn failing_read(given: usize) -> Fault {
    let lines = COMMIT
        .iter()
        .take(given)
        .filter(|byte| **byte == b'\n')
        .count();
    Fault {
        name: "a read",
        piece: 1,
        read: given as u64,
        write: NEVER,
        status: Status::ReadFault,
        replies: first_lines(REPLIES, lines),
        leaves: left_by(lines),
    }
}

/// The reply fails that follows so many others: its line was run too.
fn failing_write(replies: usize) -> Fault {
    Fault {
        name: "a write",
        piece: 100,
        read: NEVER,
        write: replies as u64,
        status: Status::WriteFault,
        replies: first_lines(REPLIES, replies),
        leaves: left_by(replies.saturating_add(1)),
    }
}

#[test]
fn each_read_and_each_write_fails_once(rt: HostRuntime) -> Result<(), Fail> {
    for given in 0..=COMMIT.len() {
        let fault = failing_read(given);
        let device = run_with(rt.alloc(), &fault)?;
        assert_probe(rt.alloc(), device, fault.leaves, ("a read behind", given))?;
    }
    for replies in 0..count_lines(REPLIES, b"") {
        let fault = failing_write(replies);
        let device = run_with(rt.alloc(), &fault)?;
        assert_probe(
            rt.alloc(),
            device,
            fault.leaves,
            ("a write behind", replies),
        )?;
    }
    Ok(())
}

#[test]
fn words_that_are_no_command_touch_nothing(rt: HostRuntime) -> Result<(), Fail> {
    for words in &WORDS {
        assert_untouched(rt.alloc(), words, Status::Words, *words)?;
    }
    Ok(())
}
