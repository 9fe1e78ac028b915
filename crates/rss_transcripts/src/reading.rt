// A transcript as it is read, line by line.
use crate::part::{Kind, Part, kind_of, two_numbers};
use anyhow::{Result, bail};
use std::alloc::Global;

/// What a line says.
#[derive(Clone, Copy)]
enum Said<'a> {
    /// Nothing: it is empty, or begins with `#`.
    Nothing,
    /// The lines up to the next end come in rounds, which are numbered from the first on up to below the
    /// second.
    For(u32, u32),
    End,
    Part(Kind),
    /// A line of a script with its reply.
    Line(&'a str),
}

fn meaning_of(line: &str) -> Result<Said<'_>> {
    if line.is_empty() || line.starts_with("#") {
        return Ok(Said::Nothing);
    }
    let Some(words) = line.strip_prefix("@") else {
        return Ok(Said::Line(line));
    };
    if words == "end" {
        return Ok(Said::End);
    }
    if let Some(range) = words.strip_prefix("for ") {
        let (first, end) = two_numbers(range)?;
        return Ok(Said::For(first, end));
    }
    Ok(Said::Part(kind_of(words)?))
}

/// Lines that come in rounds: how these are numbered, and the place after the line that says so.
#[derive(Clone, Copy)]
struct Rounds {
    first: u32,
    end: u32,
    from: usize,
}

/// The parts that were read, and the rounds whose end wasn't.
#[derive(Drop)]
struct Reader {
    alloc: Global,
    parts: Vec<Part>,
    rounds: Option<Rounds>,
}

impl Reader {
    /// Adds a line to the last part. Its place is counted from 1.
    fn push(&mut self, line: &str, n: u32, place: usize) -> Result<()> {
        let alloc = self.alloc;
        let Some(part) = self.parts.last_mut() else {
            bail!("line {place}: it is in no part");
        };
        part.lines.push(alloc, line, n, place)
    }

    /// Adds the lines of a round.
    fn push_round(&mut self, lines: &[&str], n: u32, from: usize) -> Result<()> {
        for (number, line) in lines.iter().enumerate() {
            if let Said::Line(line) = meaning_of(line)? {
                self.push(line, n, from.saturating_add(number).saturating_add(1))?;
            }
        }
        Ok(())
    }

    /// Adds the lines of all rounds.
    fn end_rounds(&mut self, lines: &[&str], at: usize) -> Result<()> {
        let Some(rounds) = self.rounds.take() else {
            bail!("an end of no rounds");
        };
        let Some(block) = lines.get(rounds.from..at) else {
            bail!("rounds without lines");
        };
        for n in rounds.first..rounds.end {
            self.push_round(block, n, rounds.from)?;
        }
        Ok(())
    }

    /// Takes the line at a place, counted from 0.
    fn take(&mut self, lines: &[&str], at: usize, line: &str) -> Result<()> {
        let place = at.saturating_add(1);
        match meaning_of(line)? {
            Said::Nothing => {}
            Said::For(first, end) => {
                self.rounds = Some(Rounds {
                    first,
                    end,
                    from: place,
                });
            }
            Said::End => self.end_rounds(lines, at)?,
            Said::Part(kind) => self.parts.push(Part::new(self.alloc, kind, place))?,
            Said::Line(line) => {
                if self.rounds.is_none() {
                    self.push(line, 0, place)?;
                }
            }
        }
        Ok(())
    }
}

/// The parts of a transcript.
pub(crate) fn read(alloc: Global, text: &str) -> Result<Vec<Part>> {
    let lines: Vec<&str> = text.lines().collect(alloc)?;
    let mut reader = Reader {
        alloc,
        parts: Vec::new(alloc),
        rounds: None,
    };
    for (at, line) in lines.as_slice().iter().enumerate() {
        if let Err(error) = reader.take(lines.as_slice(), at, line) {
            bail!("line {}: {error}", at.saturating_add(1));
        }
    }
    if reader.rounds.is_some() {
        bail!("rounds that have no end");
    }
    Ok(reader.parts)
}
