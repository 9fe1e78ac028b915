// Lines of scripts and replies: of texts, and over many tuples, each of which has its place as value.
use std::fmt::Write;
use std::test::Fail;

/// Writes lines as they stand.
pub(crate) fn write_lines(text: &mut String, lines: &str) -> Result<(), Fail> {
    text.push_str(lines)?;
    Ok(())
}

/// Writes the lines that insert the tuples of these places.
pub(crate) fn write_inserts(script: &mut String, first: u32, end: u32) -> Result<(), Fail> {
    for place in first..end {
        writeln!(script, "insert 1 r {place}")?;
    }
    Ok(())
}

/// Writes what those get.
pub(crate) fn write_inserted(replies: &mut String, first: u32, end: u32) -> Result<(), Fail> {
    for place in first..end {
        writeln!(replies, "ok {}.{}", place / 128, place % 128)?;
    }
    Ok(())
}

/// Writes the lines that fetch the tuples of these places.
pub(crate) fn write_fetches(script: &mut String, first: u32, end: u32) -> Result<(), Fail> {
    for place in first..end {
        writeln!(script, "fetch 1 r {}.{}", place / 128, place % 128)?;
    }
    Ok(())
}

/// Writes what those get where the tuples are there.
pub(crate) fn write_fetched(replies: &mut String, first: u32, end: u32) -> Result<(), Fail> {
    for place in first..end {
        writeln!(replies, "ok {place}")?;
    }
    Ok(())
}

/// Writes what they get where the tuples aren't there.
pub(crate) fn write_absent(replies: &mut String, first: u32, end: u32) -> Result<(), Fail> {
    for place in first..end {
        writeln!(
            replies,
            "refused 9 no tuple r {}.{}",
            place / 128,
            place % 128
        )?;
    }
    Ok(())
}

/// Writes a text of so many of these letters, as it stands in a line, behind a space.
pub(crate) fn write_text(line: &mut String, letter: char, length: u32) -> Result<(), Fail> {
    line.push_str(" \"")?;
    for _ in 0..length {
        line.push(letter)?;
    }
    line.push_str("\"")?;
    Ok(())
}

/// How many lines a text has that begin so.
pub(crate) fn count_lines(text: &[u8], begin: &[u8]) -> usize {
    let mut lines: usize = 0;
    for line in text.split(|byte| *byte == b'\n') {
        if !line.is_empty() && line.starts_with(begin) {
            lines = lines.saturating_add(1);
        }
    }
    lines
}

/// The first lines of a text, so many of them, or all of it.
pub(crate) fn first_lines(text: &[u8], count: usize) -> &[u8] {
    let mut lines: usize = 0;
    for (at, byte) in text.iter().enumerate() {
        if lines == count {
            return &text[..at];
        }
        if *byte == b'\n' {
            lines = lines.saturating_add(1);
        }
    }
    text
}
