// A generated script, written to the sink.
ghost use Rattle.std.specs.Prelude.{◌≡◌, ◌<◌, ◌≤◌, [], ◌∷◌, ◌++◌, length, slice_index_or, IfOk};
ghost use Rattle.rss_lines.specs.Lines.{line_end};
ghost use Rattle.rss_model.specs.Generator.{generated, most_employees};
ghost use Rattle.rss_top.specs.Generated.{WritesLines};

use crate::Status;
use rss_base::{Sink, Text, write_all};
use rss_line::{count_generated, generate};
use std::alloc::{AllocError, Global};

/// A line of the script with its end, by its place.
pub fn whole_line(alloc: Global, number: u64, count: u32, index: u64) -> Result<Text, AllocError>
    requires some { 1 ≤ count }
    requires few { count ≤ most_employees }
    requires within { index < length (generated number count) }
    ensures { IfOk result (λ line.
        line ≡ slice_index_or (generated number count) index [] ++ line_end ∷ []) }
{
    let Some(mut line) = generate(alloc, number, count, index)? else {
        unreachable!()
    };
    line.push(b'\n')?;
    Ok(line)
}

/// Writes the script that is generated from a number, with so many employees. A line is made,
/// written and forgotten, so the memory that this takes doesn't grow with the script.
pub fn write_script<K: Sink>(alloc: Global, number: u64, count: u32, sink: &mut K) -> Status
    requires some { 1 ≤ count }
    requires few { count ≤ most_employees }
    ensures { WritesLines (generated number count) result (K.view sink.old) (K.view sink.new) }
{
    for index in 0..count_generated(count) {
        let Ok(line) = whole_line(alloc, number, count, index) else {
            return Status::NoMemory;
        };
        let Ok(()) = write_all(sink, line.as_slice()) else {
            return Status::WriteFault;
        };
    }
    Status::Ok
}
