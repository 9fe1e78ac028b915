// Lines of a transcript as they are run: what stands between braces is a number, a text that comes many
// times, or a byte.
use anyhow::{Context, Result, bail};
use std::alloc::Global;

/// The number that decimals spell.
pub(crate) fn number_of(word: &str) -> Result<u32> {
    match word.parse::<u32>() {
        Ok(number) => Ok(number),
        Err(_) => bail!("no number: {word}"),
    }
}

/// The number of the round, or what comes of it by `+`, `/` or `%`.
fn value_of(term: &str, n: u32) -> Result<u32> {
    if term.is_empty() {
        return Ok(n);
    }
    if let Some(more) = term.strip_prefix("+") {
        return n
            .checked_add(number_of(more)?)
            .context("too large a number");
    }
    if let Some(by) = term.strip_prefix("/") {
        return n.checked_div(number_of(by)?).context("a division by 0");
    }
    let Some(by) = term.strip_prefix("%") else {
        bail!("no number: n{term}");
    };
    n.checked_rem(number_of(by)?).context("a division by 0")
}

/// Writes a text so many times.
fn write_often(text: &str, count: u32, into: &mut Vec<u8>) -> Result<()> {
    for _ in 0..count {
        into.extend_from_slice(text.as_bytes())?;
    }
    Ok(())
}

/// Writes what a mark between braces stands for: `0xff` a byte, `TEXT*COUNT` a text so many times, and
/// `n`, `n+1`, `n/128` or `n%128` the number of the round.
fn write_mark(alloc: Global, mark: &str, n: u32, into: &mut Vec<u8>) -> Result<()> {
    if let Some((text, count)) = mark.rsplit_once("*") {
        return write_often(text, number_of(count)?, into);
    }
    if let Some(digits) = mark.strip_prefix("0x") {
        let Ok(byte) = u8::from_str_radix(digits, 16) else {
            bail!("no byte: {mark}");
        };
        into.push(byte)?;
        return Ok(());
    }
    let Some(term) = mark.strip_prefix("n") else {
        bail!("a mark that stands for nothing: {mark}");
    };
    let value = value_of(term, n)?;
    into.extend_from_slice(format!(in alloc; "{value}")?.as_bytes())?;
    Ok(())
}

/// Writes a line, in the round of number `n`, with its end.
pub(crate) fn write_line(alloc: Global, line: &str, n: u32, into: &mut Vec<u8>) -> Result<()> {
    let mut rest = line;
    for _ in 0..line.len() {
        let Some((plain, marked)) = rest.split_once("{") else {
            break;
        };
        let Some((mark, behind)) = marked.split_once("}") else {
            bail!("a brace that isn't closed: {line}");
        };
        into.extend_from_slice(plain.as_bytes())?;
        write_mark(alloc, mark, n, into)?;
        rest = behind;
    }
    into.extend_from_slice(rest.as_bytes())?;
    into.push(b'\n')?;
    Ok(())
}
