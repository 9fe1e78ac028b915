// Lines of a script, with the replies that they get.
use crate::spelling::write_line;
use anyhow::{Result, bail};
use std::alloc::Global;

/// A script, and what it gets.
#[derive(Drop)]
pub(crate) struct Lines {
    pub(crate) script: Vec<u8>,
    pub(crate) replies: Vec<u8>,
    /// The line of the transcript in which each reply stands, counted from 1.
    pub(crate) places: Vec<usize>,
}

impl Lines {
    /// No lines.
    pub(crate) fn new(alloc: Global) -> Self {
        Lines {
            script: Vec::new(alloc),
            replies: Vec::new(alloc),
            places: Vec::new(alloc),
        }
    }

    /// Adds a line of a transcript, in the round of number `n`. It has its reply after an arrow, or ends
    /// in one if it gets none.
    pub(crate) fn push(&mut self, alloc: Global, text: &str, n: u32, place: usize) -> Result<()> {
        if let Some((line, reply)) = text.rsplit_once(" -> ") {
            write_line(alloc, line, n, &mut self.script)?;
            write_line(alloc, reply, n, &mut self.replies)?;
            self.places.push(place)?;
            return Ok(());
        }
        let Some(line) = text.strip_suffix(" ->") else {
            bail!("line {place}: it has no reply");
        };
        write_line(alloc, line, n, &mut self.script)
    }
}
