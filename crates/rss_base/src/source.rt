// What a script is read from.
ghost use Rattle.std.specs.Prelude.{length};
ghost use Rattle.rss_base.specs.Streams.{Stream, ReadsBytes};

use crate::Failed;

/// Bytes that come in, in pieces.
pub trait Source {
    /// What there is to see of it: the bytes still to come, and how often it failed.
    ghost view: { Self → Stream };

    /// Puts the next bytes at the front of `into` and answers how many they are. None for a buffer
    /// that isn't empty is the end of the input.
    fn read(&mut self, into: &mut [u8]) -> Result<usize, Failed>
        ensures { ReadsBytes (length into.old) into.new (view self.old) (view self.new) result };
}
