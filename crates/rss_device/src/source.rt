// A source in memory.
ghost use Rattle.std.specs.Prelude.{◌≡◌, ◌↔◌, ◌-◌, ◌^◌, length, min, max, None, Some, IfOk, IsErr};
ghost use Rattle.rss_base.specs.Streams.{ReadsBytes};
ghost use Rattle.rss_device.specs.Failing.{after_call};
ghost use Rattle.rss_device.specs.MemSource.{bytes_left, view_of, piece_of, failing_read};

use crate::failing::{failed, is_due};
use rss_base::{Failed, Source};

/// Bytes in memory.
#[derive(Drop)]
pub struct MemSource<'a> {
    left: &'a [u8],
    piece: usize,
    reads_before_fault: Option<u64>,
    faults: u64,
}

impl<'a> MemSource<'a> {
    /// These bytes, each read as many as fit its buffer.
    pub fn new(bytes: &'a [u8]) -> Self
        ensures left { (⟦<MemSource<'a> as Source>⟧.view result).bytes ≡ Some bytes.now }
        ensures faults { (⟦<MemSource<'a> as Source>⟧.view result).faults ≡ 0 }
        ensures piece { piece_of result ≡ 2 ^ 64 - 1 }
        ensures failing { failing_read result ≡ None }
    {
        MemSource {
            left: bytes,
            piece: usize::MAX,
            reads_before_fault: None,
            faults: 0,
        }
    }

    /// Gives at most `piece` bytes a read, but at least one.
    pub fn in_pieces(self, piece: usize) -> Self
        ensures view { view_of result ≡ view_of self.entry }
        ensures piece { piece_of result ≡ piece }
        ensures failing { failing_read result ≡ failing_read self.entry }
    {
        MemSource { piece, ..self }
    }

    /// Fails the read `call`, counted from 0 from here on, and no other.
    pub fn failing_at(self, call: u64) -> Self
        ensures view { view_of result ≡ view_of self.entry }
        ensures piece { piece_of result ≡ piece_of self.entry }
        ensures failing { failing_read result ≡ Some call }
    {
        MemSource {
            reads_before_fault: Some(call),
            ..self
        }
    }
}

impl Source for MemSource<'_> {
    ghost view = { view_of };

    // What every source does.
    fn read(&mut self, into: &mut [u8]) -> Result<usize, Failed>
        ensures reads { ReadsBytes (length into.old) into.new
            (view_of self.old) (view_of self.new) result }

        // When this one fails, and how much it gives.
        ensures due { IsErr result ↔ (failing_read self.old ≡ Some 0) }
        ensures next { failing_read self.new ≡ after_call (failing_read self.old) }
        ensures piece { IfOk result (λ n. n ≡ min (max (piece_of self.old) 1)
            (min (length into.old) (length (bytes_left self.old)))) }
        ensures same_piece { piece_of self.new ≡ piece_of self.old }
    {
        if is_due(&mut self.reads_before_fault) {
            return Err(failed(&mut self.faults));
        }
        let n = self.piece.max(1).min(into.len()).min(self.left.len());
        into[..n].copy_from_slice(&self.left[..n]);
        self.left = &self.left[n..];
        Ok(n)
    }
}
