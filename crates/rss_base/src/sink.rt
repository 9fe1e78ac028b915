// What replies are written to.
ghost use Rattle.std.specs.Prelude.{OnOk};
ghost use Rattle.rss_base.specs.Faults.{HasCause};
ghost use Rattle.rss_base.specs.Streams.{Stream, Takes, TakesFront, WritesBytes};

use crate::Failed;

/// Takes bytes, in pieces.
pub trait Sink {
    /// What there is to see of it: what was written, and how often it failed.
    ghost view: { Self → Stream };

    /// Takes the front of `from`, at least a byte if there is one, and answers how many it took. A
    /// failure takes nothing.
    fn write(&mut self, from: &[u8]) -> Result<usize, Failed>
        ensures { WritesBytes from.now (view self.old) (view self.new) result };
}

/// Writes all the bytes, or at a failure their front.
pub fn write_all<K: Sink>(sink: &mut K, bytes: &[u8]) -> Result<(), Failed>
    ensures takes { OnOk result (Takes (K.view sink.old).bytes bytes.now (K.view sink.new).bytes) }
    ensures front { TakesFront (K.view sink.old).bytes bytes.now (K.view sink.new).bytes }
    ensures cause { HasCause (K.view sink.old).faults (K.view sink.new).faults result }
{
    let mut done = 0;
    while done < bytes.len() {
        done += sink.write(&bytes[done..])?;
    }
    Ok(())
}
