// A generated script, read as a source.
ghost use Rattle.std.specs.Prelude.{◌≤◌, length};
ghost use Rattle.rss_model.specs.Generator.{generated, most_employees};

use crate::generating::whole_line;
use rss_base::{Failed, Source, Text};
use rss_line::count_generated;
use std::alloc::{AllocError, Global};

/// Gives the script that is generated from a number, with so many employees. A line is made once the
/// one before it was given, so the memory that this takes doesn't grow with the script. A read that
/// finds no memory for a line fails.
#[derive(Drop)]
pub struct GeneratedScript {
    alloc: Global,
    number: u64,
    count: u32,
    /// The place of the line that is to be made next.
    next: u64,
    /// The line that was made last, with its end.
    line: Text,
    /// How many bytes of it were given.
    given: usize,
    faults: u64,
    ghost some: { 1 ≤ count },
    ghost few: { count ≤ most_employees },
    ghost placed: { next ≤ length (generated number count) },
    ghost within: { given ≤ length line },
}

impl GeneratedScript {
    ghost use Rattle.std.specs.Prelude.{◌≡◌, ◌<◌, ◌≤◌, [], length, OnOk, Some};
    ghost use Rattle.rss_model.specs.Generator.{generated, most_employees};
    ghost use Rattle.rss_model.specs.Script.{joined};
    ghost use Rattle.rss_top.specs.GeneratedScript.{left_of, view_of};

    pub fn new(alloc: Global, number: u64, count: u32) -> Self
        requires some { 1 ≤ count }
        requires few { count ≤ most_employees }
        ensures { (view_of result).bytes ≡ Some (joined (generated number count)) }
    {
        GeneratedScript {
            alloc,
            number,
            count,
            next: 0,
            line: Text::new(alloc),
            given: 0,
            faults: 0,
        }
    }

    /// Makes the next line, if the one before it was given and there is one more.
    fn advance(&mut self) -> Result<(), AllocError>
        ensures same { view_of self.new ≡ view_of self.old }
        ensures more { OnOk result (self.new.given ≡ length self.new.line
            → left_of self.new ≡ []) }
    {
        if self.given < self.line.as_slice().len() || self.next >= count_generated(self.count) {
            return Ok(());
        }
        self.line = whole_line(self.alloc, self.number, self.count, self.next)?;
        self.given = 0;
        self.next += 1;
        Ok(())
    }
}

impl Source for GeneratedScript {
    ghost use Rattle.rss_top.specs.GeneratedScript.{view_of};

    ghost view = { view_of };

    fn read(&mut self, into: &mut [u8]) -> Result<usize, Failed> {
        let Ok(()) = self.advance() else {
            self.faults = self.faults.saturating_add(1);
            return Err(Failed);
        };
        let left = &self.line.as_slice()[self.given..];
        let n = left.len().min(into.len());
        into[..n].copy_from_slice(&left[..n]);
        self.given += n;
        Ok(n)
    }
}
