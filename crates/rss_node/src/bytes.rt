// Edits of the bytes of a page.
ghost use Rattle.std.specs.Prelude.{◌≡◌, ◌↔◌, IsTrue, ◌+◌, ◌-◌, ◌≤◌, ◌++◌, length, take, drop};
ghost use Rattle.rss_base.specs.Sizes.{page_bytes};
ghost use Rattle.rss_node.specs.Nodes.{part};

use rss_base::{Page, put_bytes};

/// Writes bytes from a place on, and after them those that stood from one place to another.
pub(crate) fn put_and_move(page: &mut Page, at: usize, bytes: &[u8], from: usize, end: usize)
    requires order { from ≤ end }
    requires within { end ≤ page_bytes }
    requires before { at ≤ from }
    requires room { at + (length bytes.now + (end - from)) ≤ page_bytes }
    ensures { page.new ≡ take at page.old ++ (bytes.now ++ (part page.old from (end - from)
        ++ drop (at + (length bytes.now + (end - from))) page.old)) }
{
    page.copy_within(from..end, at + bytes.len());
    put_bytes(page, at, bytes);
}

/// So many bytes from a place on.
pub(crate) fn part_of(page: &Page, at: usize, count: usize) -> &[u8]
    requires { at + count ≤ page_bytes }
    ensures { result.now ≡ part page.now at count }
{
    &page[at..at + count]
}

/// Whether these bytes stand from a place on.
pub(crate) fn is_part(page: &Page, at: usize, expected: &[u8]) -> bool
    requires { at + length expected.now ≤ page_bytes }
    ensures { IsTrue result ↔ (part page.now at (length expected.now) ≡ expected.now) }
{
    part_of(page, at, expected.len()) == expected
}
