// The line that a call wrote, as C gets it.
ghost use Rattle.std.specs.Prelude.{◌≡◌, ◌+◌, ◌≤◌, ◌++◌, length, take};
ghost use Rattle.rss_c.specs.Texts.{text_view, empty_text};

use rss_base::{Failed, Sink};

/// How many bytes the longest line has, with its end.
pub const TEXT_BYTES: usize = 8192;

/// The line that a call wrote, with its end. A call empties it first.
#[repr(C)]
#[derive(Drop)]
pub struct RssText {
    /// How many of the bytes the line has.
    length: usize,
    bytes: [u8; TEXT_BYTES],
    /// How many writes found no room.
    faults: u64,
}

impl RssText {
    /// Empties it.
    pub(crate) fn clear(&mut self)
        ensures { text_view self.new ≡ empty_text }
    {
        self.length = 0;
        self.faults = 0;
    }

    /// Appends these bytes, for which there is room.
    fn put(&mut self, bytes: &[u8])
        requires { self.old.length + length bytes.now ≤ 8192 }
        ensures bytes { take self.new.length self.new.bytes
            ≡ take self.old.length self.old.bytes ++ bytes.now }
        ensures faults { self.new.faults ≡ self.old.faults }
    {
        let end = self.length + bytes.len();
        self.bytes[self.length..end].copy_from_slice(bytes);
        self.length = end;
    }
}

impl Sink for RssText {
    ghost view = { text_view };

    fn write(&mut self, from: &[u8]) -> Result<usize, Failed> {
        if from.is_empty() {
            return Ok(0);
        }
        let n = from.len().min(TEXT_BYTES.saturating_sub(self.length));
        if n == 0 {
            self.faults = self.faults.saturating_add(1);
            return Err(Failed);
        }
        self.put(&from[..n]);
        Ok(n)
    }
}
