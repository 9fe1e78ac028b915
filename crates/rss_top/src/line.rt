// One line of a script.
ghost use Rattle.std.specs.Prelude.{◌<◌};
ghost use Rattle.rss_stored.specs.Calls.{calls_most};
ghost use Rattle.rss_top.specs.Lines.{seen, seen_with, told_over, RunsLine};

use crate::Status;
use crate::hearing::hear;
use crate::telling::{Plain, Teller};
use crate::writing::write_text;
use rss_base::Sink;
use rss_line::Names;
use rss_stored::Engine;
use std::alloc::Global;

/// Runs one line: makes its call, and then writes what is told of it. There is room for that before
/// the call, so that want of memory changes no table.
pub fn tell_line<E: Engine, T: Teller, K: Sink>(
    engine: &mut E,
    alloc: Global,
    names: &mut Names,
    teller: &mut T,
    line: &[u8],
    text: &mut Vec<u8>,
    sink: &mut K,
) -> Result<(), Status>
    requires up { (E.view engine.old).is_up }
    requires few { (E.view engine.old).calls < calls_most }
    ensures { RunsLine
        (seen (told_over T.telling names.old.variables (T.memory teller.old) (E.view engine.old))
        (K.view sink.old))
        (seen (told_over T.telling names.new.variables (T.memory teller.new) (E.view engine.new))
        (K.view sink.new))
        line.now result }
{
    let Ok(()) = teller.prepare(line, text) else {
        return Err(Status::NoMemory);
    };
    let got = hear(engine, alloc, names, line);
    match &got {
        Ok(heard) => {
            teller.tell(line, heard, text);
            write_text(text.as_slice(), sink)
        }
        Err(status) => Err(*status),
    }
}

/// Runs one line: makes its call, and then writes its reply.
pub fn line<E: Engine, K: Sink>(
    engine: &mut E,
    alloc: Global,
    names: &mut Names,
    bytes: &[u8],
    reply: &mut Vec<u8>,
    sink: &mut K,
) -> Result<(), Status>
    requires up { (E.view engine.old).is_up }
    requires few { (E.view engine.old).calls < calls_most }
    ensures { RunsLine
        (seen_with names.old.variables (E.view engine.old) (K.view sink.old))
        (seen_with names.new.variables (E.view engine.new) (K.view sink.new))
        bytes.now result }
{
    tell_line(engine, alloc, names, &mut Plain, bytes, reply, sink)
}
