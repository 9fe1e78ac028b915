// Texts, from the line that has them to the reply.
use rss_base::{Call, Reply};
use rss_images::assert_same_slices;
use rss_line::{Line, Names, read_line, say};
use std::alloc::Global;
use std::test::Fail;

/// The values of inserts, as they are printed.
static VALUES: [&[u8]; 7] = [
    b" \"\"",
    b" \"\"\"\"",
    b" \"a \"\"b\"\"  c\"",
    b" \"\xc3\xa4 \xe2\x98\x83 \xf0\x9f\x99\x82\"",
    b" \"x\" \"y\" \"\"",
    b" 1 -2 \"3\"",
    b"",
];

/// Reads an insert with these values, and prints what it has as a tuple.
fn printed(alloc: Global, values: &[u8]) -> Result<Vec<u8>, Fail> {
    let mut line = Vec::from_slice(alloc, b"insert 1 r")?;
    line.extend_from_slice(values)?;
    let names = Names::new(alloc);
    let Ok(Line::Call { call, .. }) = read_line(alloc, line.as_slice(), &names) else {
        return Err("the line is no call".into());
    };
    let Call::Insert(1, _, tuple) = call else {
        return Err("the line is no insert".into());
    };
    let mut reply = Vec::new(alloc);
    say(&Ok(Reply::Tuple(tuple)), &mut reply)?;
    Ok(reply)
}

/// They come back as they were written.
fn assert_printed(alloc: Global, values: &[u8]) -> Result<(), Fail> {
    let mut want = Vec::from_slice(alloc, b"ok")?;
    want.extend_from_slice(values)?;
    want.push(b'\n')?;
    let reply = printed(alloc, values)?;
    assert_same_slices(reply.as_slice(), want.as_slice(), values)
}

#[test]
fn a_text_comes_back_as_it_was_written(rt: HostRuntime) -> Result<(), Fail> {
    for values in &VALUES {
        assert_printed(rt.alloc(), values)?;
    }
    Ok(())
}
