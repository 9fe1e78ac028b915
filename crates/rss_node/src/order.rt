// The order of bytes.
ghost use Rattle.std.specs.Prelude.{◌≡◌, ◌≤◌, length, take};
ghost use Rattle.std.specs.Int.{w64, to_be_bytes};
ghost use Rattle.std.specs.Ordering.{nat_cmp};
ghost use Rattle.std.specs.Cmp.Lexicographic.{slice_cmp};

use std::cmp::Ordering;

/// How many bytes a word has.
const WORD_BYTES: usize = 8;

/// The first word of some bytes, as the number that it spells.
fn word_of(bytes: &[u8]) -> u64
    requires { 8 ≤ length bytes.now }
    ensures { to_be_bytes w64 result ≡ take 8 bytes.now }
{
    let mut word = [0u8; WORD_BYTES];
    word.copy_from_slice(&bytes[..WORD_BYTES]);
    u64::from_be_bytes(word)
}

/// The order of bytes. The first words, as numbers, decide most of it.
pub fn compare_bytes(a: &[u8], b: &[u8]) -> Ordering
    ensures { result ≡ slice_cmp nat_cmp a.now b.now }
{
    if a.len() < WORD_BYTES || b.len() < WORD_BYTES {
        return a.cmp(b);
    }
    by_word(a, b)
}

/// The same of bytes that have a word.
fn by_word(a: &[u8], b: &[u8]) -> Ordering
    requires first { 8 ≤ length a.now }
    requires second { 8 ≤ length b.now }
    ensures { result ≡ slice_cmp nat_cmp a.now b.now }
{
    let first = word_of(a);
    let second = word_of(b);
    if first < second {
        return Ordering::Less;
    }
    if second < first {
        return Ordering::Greater;
    }
    a.cmp(b)
}
