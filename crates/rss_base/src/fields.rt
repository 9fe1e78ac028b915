// The fields of a page: big-endian numbers, and bytes in a row.
ghost use Rattle.std.specs.Prelude.{◌≡◌, ◌+◌, ◌≤◌, ◌++◌, length, take, drop};
ghost use Rattle.std.specs.Int.{w16, w32, w64, from_be_bytes, to_be_bytes};
ghost use Rattle.rss_base.specs.Sizes.{page_bytes};

use crate::Page;
use byteorder::{BigEndian, ByteOrder};

/// The number in the two bytes from a place on.
pub fn u16_at(page: &Page, at: usize) -> u16
    requires { at + 2 ≤ page_bytes }
    ensures { result ≡ from_be_bytes w16 (take 2 (drop at page.now)) }
{
    BigEndian::read_u16(&page[at..at + 2])
}

/// The number in the four bytes from a place on.
pub fn u32_at(page: &Page, at: usize) -> u32
    requires { at + 4 ≤ page_bytes }
    ensures { result ≡ from_be_bytes w32 (take 4 (drop at page.now)) }
{
    BigEndian::read_u32(&page[at..at + 4])
}

/// The number in the eight bytes from a place on.
pub fn u64_at(page: &Page, at: usize) -> u64
    requires { at + 8 ≤ page_bytes }
    ensures { result ≡ from_be_bytes w64 (take 8 (drop at page.now)) }
{
    BigEndian::read_u64(&page[at..at + 8])
}

/// Writes these bytes from a place on.
pub fn put_bytes(page: &mut Page, at: usize, bytes: &[u8])
    requires { at + length bytes.now ≤ page_bytes }
    ensures { page.new ≡ take at page.old ++ bytes.now ++ drop (at + length bytes.now) page.old }
{
    page[at..at + bytes.len()].copy_from_slice(bytes);
}

/// Writes a number in the two bytes from a place on.
pub fn put_u16(page: &mut Page, at: usize, number: u16)
    requires { at + 2 ≤ page_bytes }
    ensures { page.new ≡ take at page.old ++ to_be_bytes w16 number ++ drop (at + 2) page.old }
{
    BigEndian::write_u16(&mut page[at..at + 2], number);
}

/// Writes a number in the four bytes from a place on.
pub fn put_u32(page: &mut Page, at: usize, number: u32)
    requires { at + 4 ≤ page_bytes }
    ensures { page.new ≡ take at page.old ++ to_be_bytes w32 number ++ drop (at + 4) page.old }
{
    BigEndian::write_u32(&mut page[at..at + 4], number);
}

/// Writes a number in the eight bytes from a place on.
pub fn put_u64(page: &mut Page, at: usize, number: u64)
    requires { at + 8 ≤ page_bytes }
    ensures { page.new ≡ take at page.old ++ to_be_bytes w64 number ++ drop (at + 8) page.old }
{
    BigEndian::write_u64(&mut page[at..at + 8], number);
}
