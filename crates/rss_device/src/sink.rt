// A sink in memory.
ghost use Rattle.std.specs.Prelude.{◌≡◌, ◌-◌, ◌^◌, [], length, min, max, None, Some, IfOk, IsErr};
ghost use Rattle.rss_base.specs.Streams.{WritesBytes};
ghost use Rattle.rss_device.specs.Failing.{after_call};
ghost use Rattle.rss_device.specs.MemSink.{view_of, most_taken, failing_write};

use crate::failing::{failed, is_due};
use rss_base::{Failed, Sink};
use std::alloc::Global;

/// Keeps the bytes in memory. A write that finds no memory for them fails.
#[derive(Drop)]
pub struct MemSink {
    bytes: Vec<u8>,
    at_most: usize,
    writes_before_fault: Option<u64>,
    faults: u64,
}

impl MemSink {
    /// A sink that takes all bytes of each write.
    pub fn new(alloc: Global) -> Self
        ensures written { (⟦<MemSink as Sink>⟧.view result).bytes ≡ Some [] }
        ensures faults { (⟦<MemSink as Sink>⟧.view result).faults ≡ 0 }
        ensures taken { most_taken result ≡ 2 ^ 64 - 1 }
        ensures failing { failing_write result ≡ None }
    {
        MemSink {
            bytes: Vec::new(alloc),
            at_most: usize::MAX,
            writes_before_fault: None,
            faults: 0,
        }
    }

    /// Takes at most so many bytes a write, but at least one.
    pub fn taking(self, at_most: usize) -> Self
        ensures view { view_of result ≡ view_of self }
        ensures taken { most_taken result ≡ at_most }
        ensures failing { failing_write result ≡ failing_write self }
    {
        MemSink { at_most, ..self }
    }

    /// Fails the write `call`, counted from 0 from here on, and no other.
    pub fn failing_at(self, call: u64) -> Self
        ensures view { view_of result ≡ view_of self }
        ensures taken { most_taken result ≡ most_taken self }
        ensures failing { failing_write result ≡ Some call }
    {
        MemSink {
            writes_before_fault: Some(call),
            ..self
        }
    }

    pub fn bytes(&self) -> &[u8]
        ensures { (⟦<MemSink as Sink>⟧.view self.now).bytes ≡ Some result.now }
    {
        self.bytes.as_slice()
    }

    pub fn into_bytes(self) -> Vec<u8>
        ensures { (⟦<MemSink as Sink>⟧.view self).bytes ≡ Some result.items }
    {
        self.bytes
    }
}

impl Sink for MemSink {
    ghost view = { view_of };

    // What every sink does.
    fn write(&mut self, from: &[u8]) -> Result<usize, Failed>
        ensures writes { WritesBytes from.now (view_of self.old) (view_of self.new) result }

        // When this one fails, if memory is not what it lacks, and how much it takes.
        ensures due { failing_write self.old ≡ Some 0 → IsErr result }
        ensures next { failing_write self.new ≡ after_call (failing_write self.old) }
        ensures taken { IfOk result (λ n. n ≡ min (max (most_taken self.old) 1) (length from.now)) }
        ensures same_taken { most_taken self.new ≡ most_taken self.old }
    {
        if is_due(&mut self.writes_before_fault) {
            return Err(failed(&mut self.faults));
        }
        let n = self.at_most.max(1).min(from.len());
        if self.bytes.extend_from_slice(&from[..n]).is_err() {
            return Err(failed(&mut self.faults));
        }
        Ok(n)
    }
}
