// Scripts whose lines are told, each before its reply.
use crate::harness::{NEVER, SMALL, WHOLE, empty_store};
use rss_device::{MemSink, MemSource};
use rss_images::{assert_same, assert_same_slices};
use rss_scripts::run_words;
use rss_top::Status;
use std::alloc::Global;
use std::test::Fail;

/// A script with two blank lines. The last one has no end.
const SCRIPT: &[u8] = b"\
segment s
relation r s a:int

begin 1
insert 1 r 7
insert 1 r -9223372036854775808
  # two tuples
fetch 1 r 0.0
fetch 1 r 0.1
fetch 1 r 0.2
begin 1
commit 1
end 1
end 1";

/// What is told of each of its lines that isn't blank.
static TOLD: [&[u8]; 12] = [
    b"segment s\nok\n",
    b"relation r s a:int\nok\n",
    b"begin 1\nok\n",
    b"insert 1 r 7\nok 0.0\n",
    b"insert 1 r -9223372036854775808\nok 0.1\n",
    b"fetch 1 r 0.0\nok 7\n",
    b"fetch 1 r 0.1\nok -9223372036854775808\n",
    b"fetch 1 r 0.2\nrefused 9 no tuple r 0.2\n",
    b"begin 1\nrefused 3 already open\n",
    b"commit 1\nrefused 1 words\n",
    b"end 1\nok\n",
    b"end 1\nrefused 2 no transaction\n",
];

/// How many bytes a line has that is too long to be a call.
const LONG: usize = 9000;

/// Talks over an empty store, with a script in pieces of so many bytes, a read that fails, and a write.
fn talk(
    alloc: Global,
    script: &[u8],
    piece: usize,
    read: u64,
    write: u64,
) -> Result<(Status, MemSink), Fail> {
    let mut source = MemSource::new(script).in_pieces(piece).failing_at(read);
    let mut sink = MemSink::new(alloc).failing_at(write);
    let device = empty_store(alloc, SMALL)?;
    let (status, _) = run_words(alloc, &["talk", "FILE"], &mut source, &mut sink, device)?;
    Ok((status, sink))
}

/// A line of so many bytes behind another, and one behind it.
fn long_script(alloc: Global) -> Result<Vec<u8>, Fail> {
    let mut script = Vec::new(alloc);
    script.extend_from_slice(b"begin 1\n")?;
    for _ in 0..LONG {
        script.push(b'#')?;
    }
    script.extend_from_slice(b"\nend 1\n")?;
    Ok(script)
}

#[test]
fn each_line_is_told_before_its_reply(rt: HostRuntime) -> Result<(), Fail> {
    let mut told = Vec::new(rt.alloc());
    for pair in &TOLD {
        told.extend_from_slice(pair)?;
    }
    for piece in [1, 3, WHOLE] {
        let (status, sink) = talk(rt.alloc(), SCRIPT, piece, NEVER, NEVER)?;
        assert_same(&status, &Status::Ok, piece)?;
        assert_same_slices(sink.bytes(), told.as_slice(), piece)?;
    }
    Ok(())
}

#[test]
fn a_sink_that_fails_has_what_was_told_before(rt: HostRuntime) -> Result<(), Fail> {
    let mut told = Vec::new(rt.alloc());
    let mut write: u64 = 0;
    for pair in &TOLD {
        let (status, sink) = talk(rt.alloc(), SCRIPT, WHOLE, NEVER, write)?;
        assert_same(&status, &Status::WriteFault, write)?;
        assert_same_slices(sink.bytes(), told.as_slice(), write)?;
        told.extend_from_slice(pair)?;
        write = write.saturating_add(1);
    }
    Ok(())
}

#[test]
fn a_line_that_is_too_long_is_told_whole(rt: HostRuntime) -> Result<(), Fail> {
    let script = long_script(rt.alloc())?;
    let mut told = Vec::new(rt.alloc());
    told.extend_from_slice(b"begin 1\nok\n")?;
    for _ in 0..LONG {
        told.push(b'#')?;
    }
    told.extend_from_slice(b"\nrefused 1 words\nend 1\nok\n")?;
    for piece in [1000, WHOLE] {
        let (status, sink) = talk(rt.alloc(), script.as_slice(), piece, NEVER, NEVER)?;
        assert_same(&status, &Status::Ok, piece)?;
        assert_same_slices(sink.bytes(), told.as_slice(), piece)?;
    }
    Ok(())
}

#[test]
fn nothing_is_told_of_a_line_that_a_fault_cuts(rt: HostRuntime) -> Result<(), Fail> {
    let script = long_script(rt.alloc())?;
    for read in [1, 5, 9] {
        let (status, sink) = talk(rt.alloc(), script.as_slice(), 1000, read, NEVER)?;
        assert_same(&status, &Status::ReadFault, read)?;
        assert_same_slices(sink.bytes(), b"begin 1\nok\n", read)?;
    }
    Ok(())
}
