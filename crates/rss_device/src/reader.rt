// A source over a reader.
ghost use Rattle.std.specs.Prelude.{◌≡◌, ◌≤◌, length, IfOk};
ghost use Rattle.std.specs.Io.KnownBytes.{ReadConsumes};

use crate::failing::failed;
use rss_base::{Failed, Source};
use std::io;
use std::io::{ErrorKind, Read};

/// The bytes of a reader. It tells those that are left if the reader does.
#[derive(Drop)]
pub struct ReaderSource<R: Read + Drop> {
    reader: R,
    faults: u64,
}

impl<R: Read + Drop> ReaderSource<R> {
    pub fn new(reader: R) -> Self
        ensures left { (⟦<ReaderSource<R> as Source>⟧.view result).bytes ≡ R.remaining reader }
        ensures faults { (⟦<ReaderSource<R> as Source>⟧.view result).faults ≡ 0 }
    {
        ReaderSource { reader, faults: 0 }
    }
}

impl<R: Read + Drop> Source for ReaderSource<R> {
    ghost view = { λ s. record { bytes = R.remaining s.reader; faults = s.faults } };

    fn read(&mut self, into: &mut [u8]) -> Result<usize, Failed> {
        match read_some(&mut self.reader, into) {
            Ok(n) => Ok(n),
            Err(_) => Err(failed(&mut self.faults)),
        }
    }
}

/// Reads, again if a signal interrupts, but not without end.
fn read_some<R: Read>(reader: &mut R, into: &mut [u8]) -> io::Result<usize>
    ensures within { IfOk result (λ n. n ≤ length into.old) }
    ensures bytes { ReadConsumes (R.remaining reader.old) (R.remaining reader.new) result into.new }
{
    for _ in 0..16 {
        match reader.read(into) {
            Err(error) if error.kind() == ErrorKind::Interrupted => {}
            Err(error) => return Err(error),
            Ok(n) => return Ok(n),
        }
    }
    Err(io::Error::from(ErrorKind::Interrupted))
}
