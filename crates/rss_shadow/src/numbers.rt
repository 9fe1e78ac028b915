// Numbers in use.
ghost use Rattle.std.specs.Prelude.{◌≡◌, ◌≢◌, ◌-◌, ◌/◌, ◌^◌, ◌<◌, ◌≤◌, ◌==◌, ◌+◌, ℕ, true, false};
ghost use Rattle.std.specs.Prelude.{length, replicate, slice_index, slice_set, IfOk, IfSome};
ghost use Rattle.std.specs.Prelude.{IfNone};
ghost use Rattle.rss_base.specs.Sizes.{slots_most};
ghost use Rattle.std.specs.Int.{bit_at};
ghost use Rattle.rss_base.specs.Paged.{IsFirstFrom, NoneFrom};
ghost use Rattle.rss_shadow.specs.Numbers.{AreClear, IsPut, IsSetFrom, IsAbsent, IsClear, IsOpen};
ghost use Rattle.rss_shadow.specs.Numbers.{IsSetOn};

use std::alloc::{AllocError, Global};
use std::marker::Model;

/// How many bits a word has.
const WORD_BITS: u32 = 64;

/// The numbers below a bound, of which some are in use.
///
/// A bit for each number tells whether it is in use. Over these stands a bit for each word, which
/// tells whether all its bits are set, and over those the same once more. So the first number from
/// one on that isn't in use is found by looking at five words at most.
#[derive(Drop)]
pub(crate) struct NumberSet {
    len: u32,
    numbers: Vec<u64>,
    full_words: Vec<u64>,
    full_groups: [u64; 1],
}

impl Model for NumberSet {
    ghost use Rattle.std.specs.Prelude.{List, Bool};
    ghost use Rattle.rss_shadow.specs.Numbers.{in_use, AreNumbers};

    ghost Value = { List Bool };

    ghost view = { λ s. in_use s.len s.numbers.items };

    ghost invariant = { λ s. AreNumbers s.len s.numbers.items s.full_words.items s.full_groups };
}

impl NumberSet {
    /// No number below this bound is in use.
    pub(crate) fn new(alloc: Global, len: u32) -> Result<Self, AllocError>
        requires some { 0 < len }
        requires few { len ≤ slots_most }
        ensures { IfOk result (λ set. set ≡ replicate len false) }
    {
        let words = len.div_ceil(WORD_BITS);
        let groups = words.div_ceil(WORD_BITS);
        Ok(NumberSet {
            len,
            numbers: clear_below(alloc, len)?,
            full_words: clear_below(alloc, words)?,
            full_groups: [set_from(groups)],
        })
    }

    /// Each number below this bound is in use.
    pub(crate) fn all(alloc: Global, len: u32) -> Result<Self, AllocError>
        requires some { 0 < len }
        requires few { len ≤ slots_most }
        ensures { IfOk result (λ set. set ≡ replicate len true) }
    {
        let words = len.div_ceil(WORD_BITS);
        let groups = words.div_ceil(WORD_BITS);
        Ok(NumberSet {
            len,
            numbers: vec![in alloc; u64::MAX; words as usize]?,
            full_words: vec![in alloc; u64::MAX; groups as usize]?,
            full_groups: [u64::MAX],
        })
    }

    pub(crate) fn insert(&mut self, number: u32)
        requires { number < length self.old }
        ensures { self.new ≡ slice_set self.old number true }
    {
        self.put(number, true);
    }

    pub(crate) fn remove(&mut self, number: u32)
        requires { number < length self.old }
        ensures { self.new ≡ slice_set self.old number false }
    {
        self.put(number, false);
    }

    /// Sets or clears the bit of a number, and the bits above that tell of its word and its group.
    fn put(&mut self, number: u32, used: bool)
        requires { number < length self.old }
        ensures { self.new ≡ slice_set self.old number used }
    {
        let word = number / WORD_BITS;
        let word_full = put_bit(&mut self.numbers, number, used);
        let group_full = put_bit(&mut self.full_words, word, word_full);
        put_bit(&mut self.full_groups, word / WORD_BITS, group_full);
    }

    /// The first number from this one on that isn't in use.
    pub(crate) fn first_absent(&self, from: u32) -> Option<u32>
        ensures within { IfSome result (λ number. number < length self.now) }
        ensures some { IfSome result (IsFirstFrom (IsAbsent self.now) from) }
        ensures none { IfNone result (NoneFrom (IsAbsent self.now) from) }
    {
        let word = from / WORD_BITS + 1;
        let group = word / WORD_BITS + 1;
        let open_group = first_clear(&self.full_groups, group, None);
        let open_word = first_clear(&self.full_words, word, open_group);
        first_clear(&self.numbers, from, open_word)
    }
}

/// The first bit from this one on that is clear. It is in this bit's word, or in the next one that
/// isn't full.
fn first_clear(words: &[u64], from: u32, next: Option<u32>) -> Option<u32>
    requires few { length words.now ≤ 1024 }
    requires some { IfSome next (IsFirstFrom (IsOpen words.now) (from / 64 + 1)) }
    requires none { IfNone next (NoneFrom (IsOpen words.now) (from / 64 + 1)) }
    ensures some { IfSome result (IsFirstFrom (IsClear words.now) from) }
    ensures none { IfNone result (NoneFrom (IsClear words.now) from) }
{
    let here = clear_in_word(words, from);
    if here.is_some() {
        return here;
    }
    clear_in_word(words, next? * WORD_BITS)
}

/// The first bit from this one on that is clear, if this bit's word has one.
fn clear_in_word(words: &[u64], from: u32) -> Option<u32>
    ensures some { IfSome result (IsFirstFrom (IsClear words.now) from) }
    ensures none { IfNone result (IsSetOn words.now from) }
{
    let at = (from / WORD_BITS) as usize;
    if at >= words.len() {
        return None;
    }
    let bit = with_bits_below(words[at], from % WORD_BITS).trailing_ones();
    if bit >= WORD_BITS {
        return None;
    }
    Some(from / WORD_BITS * WORD_BITS + bit)
}

/// The word with all bits below this one set.
fn with_bits_below(word: u64, bit: u32) -> u64
    requires { bit < 64 }
    ensures below { (other : ℕ) → other < bit → bit_at result other ≡ 1 }
    ensures others { (other : ℕ) → bit ≤ other → other < 64
        → bit_at result other ≡ bit_at word other }
{
    word | !(u64::MAX << bit)
}

/// Sets or clears the bit of a number in words, and tells whether its word is full then.
fn put_bit(words: &mut [u64], number: u32, value: bool) -> bool
    requires { number / 64 < length words.old }
    ensures put { IsPut words.old number value words.new }
    ensures full { result ≡ (slice_index words.new (number / 64) == 2 ^ 64 - 1) }
{
    let at = (number / WORD_BITS) as usize;
    let word = with_bit(words[at], number % WORD_BITS, value);
    words[at] = word;
    word == u64::MAX
}

/// The word with this bit set or clear.
fn with_bit(word: u64, bit: u32, value: bool) -> u64
    requires { bit < 64 }
    ensures here { (bit_at result bit == 1) ≡ value }
    ensures others { (other : ℕ) → other < 64 → other ≢ bit
        → bit_at result other ≡ bit_at word other }
{
    if value {
        word | (1 << bit)
    } else {
        word & !(1 << bit)
    }
}

/// Words of bits, of which those below a bound are clear and those from it on are set.
fn clear_below(alloc: Global, bound: u32) -> Result<Vec<u64>, AllocError>
    requires some { 0 < bound }
    requires few { bound ≤ slots_most }
    ensures { IfOk result (λ words. AreClear bound words.items) }
{
    let words = bound.div_ceil(WORD_BITS) as usize;
    let mut bits = vec![in alloc; 0u64; words]?;
    bits[words - 1] = set_from(bound % WORD_BITS);
    Ok(bits)
}

/// A word whose bits from this one on are set; none if it is 0.
fn set_from(bit: u32) -> u64
    requires { bit < 64 }
    ensures { IsSetFrom bit result }
{
    if bit == 0 { 0 } else { u64::MAX << bit }
}
