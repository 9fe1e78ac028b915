// The parts of a transcript.
use crate::lines::Lines;
use crate::spelling::number_of;
use anyhow::{Result, bail};
use std::alloc::Global;

/// What the lines of a part are.
#[derive(Clone, Copy, Debug, PartialEq, Eq)]
pub(crate) enum Kind {
    /// A run over an empty store of so many slots and log pages. Each case begins with what it leaves.
    Store(u32, u32),
    /// A run over that.
    Case,
    /// A run over what the run before left.
    Again,
    /// A run over each that a stop at the last moment of the run before may leave.
    Stopped,
    /// What is found after one commit more of the run before, wherever a stop comes.
    Found,
    /// How many pages the run before wrote.
    Writes(u32),
    /// How many pages are mapped after it.
    Mapped(u32),
    /// How many levels the image `i` has after it.
    Levels(u32),
    /// The version of the root that is named after it.
    Version(u32),
    /// Changes to what the run before left, which make another store.
    Made,
    /// Lines that are run over changed pages.
    Probe,
    /// Changes to what the run before left, and what the probe then gets. It writes nothing.
    Turned,
    /// The same, and an opening may write.
    Recovered,
}

/// A part, and the line at which it begins.
#[derive(Drop)]
pub(crate) struct Part {
    pub(crate) kind: Kind,
    pub(crate) lines: Lines,
    pub(crate) place: usize,
}

impl Part {
    /// One of no lines.
    pub(crate) fn new(alloc: Global, kind: Kind, place: usize) -> Self {
        Part {
            kind,
            lines: Lines::new(alloc),
            place,
        }
    }
}

/// Two numbers with a space between them.
pub(crate) fn two_numbers(words: &str) -> Result<(u32, u32)> {
    let Some((first, second)) = words.split_once(" ") else {
        bail!("no two numbers: {words}");
    };
    Ok((number_of(first)?, number_of(second)?))
}

/// The part that words begin, where they are a word and a number.
fn counted_kind(words: &str) -> Result<Kind> {
    let Some((word, count)) = words.split_once(" ") else {
        bail!("no part: {words}");
    };
    match word.as_bytes() {
        b"writes" => Ok(Kind::Writes(number_of(count)?)),
        b"mapped" => Ok(Kind::Mapped(number_of(count)?)),
        b"levels" => Ok(Kind::Levels(number_of(count)?)),
        b"version" => Ok(Kind::Version(number_of(count)?)),
        _ => bail!("no part: {words}"),
    }
}

/// The part that words begin.
pub(crate) fn kind_of(words: &str) -> Result<Kind> {
    if let Some(sizes) = words.strip_prefix("store ") {
        let (slots, log_pages) = two_numbers(sizes)?;
        return Ok(Kind::Store(slots, log_pages));
    }
    match words.as_bytes() {
        b"case" => Ok(Kind::Case),
        b"again" => Ok(Kind::Again),
        b"stopped" => Ok(Kind::Stopped),
        b"found" => Ok(Kind::Found),
        b"made" => Ok(Kind::Made),
        b"probe" => Ok(Kind::Probe),
        b"turned" => Ok(Kind::Turned),
        b"recovered" => Ok(Kind::Recovered),
        _ => counted_kind(words),
    }
}
