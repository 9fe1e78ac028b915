// The unit in which a device is read and written.
ghost use Rattle.std.specs.Prelude.{◌≡◌, ◌+◌, ◌≤◌, slice_range};
ghost use Rattle.rss_base.specs.Sizes.{page_bytes};
ghost use Rattle.rss_base.specs.Steps.{with_bytes};

/// How many bytes a page has.
pub const PAGE_BYTES: usize = 4096;

/// How many tuples a page has an entry for.
pub const PAGE_ENTRIES: usize = 128;

/// A page of a device.
pub type Page = [u8; PAGE_BYTES];

/// Copies so many bytes of a page, from a place on, to a place of another one.
pub fn copy_bytes(from: &Page, from_at: usize, to: &mut Page, to_at: usize, count: usize)
    requires from_within { from_at + count ≤ page_bytes }
    requires to_within { to_at + count ≤ page_bytes }
    ensures { to.new ≡ with_bytes to.old to_at (slice_range from.now from_at (from_at + count)) }
{
    to[to_at..to_at + count].copy_from_slice(&from[from_at..from_at + count]);
}
