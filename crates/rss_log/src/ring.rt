// Bytes in a ring, by their positions.
ghost use Rattle.std.specs.Prelude.{◌≡◌, ◌+◌, ◌%◌, ◌<◌, ◌≤◌, length, take};
ghost use Rattle.rss_log.specs.Rings.{ring_bytes, with_part, IsPut};

/// Where a position stands in a ring.
fn place_of(position: u64, length: usize) -> usize
    requires { 0 < length }
    ensures { result ≡ position % length }
{
    (position % length as u64) as usize
}

/// Writes bytes from a place on.
fn put_at(into: &mut [u8], at: usize, bytes: &[u8])
    requires { at + length bytes.now ≤ length into.old }
    ensures { into.new ≡ with_part into.old at bytes.now }
{
    into[at..at + bytes.len()].copy_from_slice(bytes);
}

/// Writes bytes to a ring from a position on.
pub(crate) fn put(ring: &mut [u8], position: u64, bytes: &[u8])
    requires some { 0 < length ring.old }
    requires fits { length bytes.now ≤ length ring.old }
    ensures { IsPut position bytes.now ring.old ring.new }
{
    let at = place_of(position, ring.len());
    let room = ring.len() - at;
    if bytes.len() <= room {
        put_at(ring, at, bytes);
    } else {
        put_at(ring, at, &bytes[..room]);
        put_at(ring, 0, &bytes[room..]);
    }
}

/// Copies bytes from a ring, from a position on.
pub(crate) fn copy(ring: &[u8], position: u64, into: &mut [u8])
    requires some { 0 < length ring.now }
    requires fits { length into.old ≤ length ring.now }
    ensures { into.new ≡ ring_bytes ring.now position (length into.old) }
{
    let at = place_of(position, ring.len());
    let room = ring.len() - at;
    let size = into.len();
    if size <= room {
        put_at(into, 0, &ring[at..at + size]);
    } else {
        put_at(into, 0, &ring[at..]);
        put_at(into, room, &ring[..size - room]);
    }
}

/// Copies so many bytes from a ring, from a position on, to the front of others.
pub(crate) fn copy_front(ring: &[u8], position: u64, into: &mut [u8], size: usize)
    requires some { 0 < length ring.now }
    requires fits { size ≤ length ring.now }
    requires room { size ≤ length into.old }
    ensures { take size into.new ≡ ring_bytes ring.now position size }
{
    copy(ring, position, &mut into[..size]);
}
