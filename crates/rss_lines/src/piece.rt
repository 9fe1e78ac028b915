// A piece of a source: how it is read, and where the first line in it ends.
ghost use Rattle.std.specs.Prelude.{◌≡◌, ◌<◌, ◌≤◌, slice_index, length, take, IfSome, IfNone};
ghost use Rattle.rss_base.specs.Streams.{ReadsBytes};
ghost use Rattle.rss_model.specs.Script.{IsUnbroken};
ghost use Rattle.rss_lines.specs.Lines.{line_end};

use memchr::memchr;
use rss_base::{Failed, Source};

/// Where the first line of these bytes ends, if one does.
pub fn end_of_line(bytes: &[u8]) -> Option<usize>
    ensures within { IfSome result (λ at. at < length bytes.now) }
    ensures end { IfSome result (λ at. slice_index bytes.now at ≡ line_end) }
    ensures line { IfSome result (λ at. IsUnbroken (take at bytes.now)) }
    ensures none { IfNone result (IsUnbroken bytes.now) }
{
    memchr(b'\n', bytes)
}

/// Reads at most so many bytes into the front of a buffer.
pub(crate) fn read_piece<O: Source>(
    source: &mut O,
    piece: &mut [u8],
    most: usize,
) -> Result<usize, Failed>
    requires { most ≤ length piece.old }
    ensures { ReadsBytes most piece.new (O.view source.old) (O.view source.new) result }
{
    match source.read(&mut piece[..most]) {
        Ok(count) => Ok(count),
        Err(failed) => Err(failed),
    }
}
