// A sink over a writer.
ghost use Rattle.std.specs.Prelude.{◌≡◌, ◌<◌, ◌≤◌, length, IfOk};
ghost use Rattle.std.specs.Io.KnownBytes.{WriteAppends};

use crate::failing::failed;
use rss_base::{Failed, Sink};
use std::io;
use std::io::{ErrorKind, Write};

/// A writer that passes on at once what it takes, as standard output does: it is never flushed. The
/// sink tells what was written if the writer does.
#[derive(Drop)]
pub struct WriterSink<W: Write + Drop> {
    writer: W,
    faults: u64,
}

impl<W: Write + Drop> WriterSink<W> {
    pub fn new(writer: W) -> Self
        ensures written { (⟦<WriterSink<W> as Sink>⟧.view result).bytes ≡ W.contents writer }
        ensures faults { (⟦<WriterSink<W> as Sink>⟧.view result).faults ≡ 0 }
    {
        WriterSink { writer, faults: 0 }
    }
}

impl<W: Write + Drop> Sink for WriterSink<W> {
    ghost view = { λ s. record { bytes = W.contents s.writer; faults = s.faults } };

    fn write(&mut self, from: &[u8]) -> Result<usize, Failed> {
        if from.is_empty() {
            return Ok(0);
        }
        match write_some(&mut self.writer, from) {
            Ok(n) => Ok(n),
            Err(_) => Err(failed(&mut self.faults)),
        }
    }
}

/// Writes at least a byte. A write is tried again if a signal interrupts, but not without end.
fn write_some<W: Write>(writer: &mut W, from: &[u8]) -> io::Result<usize>
    ensures within { IfOk result (λ n. n ≤ length from.now) }
    ensures some { IfOk result (λ n. 0 < n) }
    ensures bytes { WriteAppends (W.contents writer.old) (W.contents writer.new) result from.now }
{
    for _ in 0..16 {
        match writer.write(from) {
            Err(error) if error.kind() == ErrorKind::Interrupted => {}
            Err(error) => return Err(error),
            Ok(0) => return Err(io::Error::from(ErrorKind::WriteZero)),
            Ok(n) => return Ok(n),
        }
    }
    Err(io::Error::from(ErrorKind::Interrupted))
}
