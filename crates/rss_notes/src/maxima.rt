// Numbers, and the maxima of their groups.
ghost use Rattle.std.specs.Prelude.{◌≡◌, ◌+◌, ◌*◌, ◌/◌, ◌^◌, ◌<◌, ◌≤◌, ℕ, length, take, drop};
ghost use Rattle.std.specs.Prelude.{replicate, slice_index, slice_set, IfSome, IfNone, IfOk};
ghost use Rattle.rss_notes.specs.Maxima.{AllBelow, IsFirstFrom, IsLevel, StartsAt, greatest};
ghost use Rattle.rss_notes.specs.Maxima.{Shares};

use std::alloc::{AllocError, Global};
use std::marker::Model;

/// How many numbers there are at most.
pub const NUMBERS_MOST: usize = 65_536;

/// How many bits of a place tell it from the others of its group, so that a group has sixteen.
const GROUP_BITS: u32 = 4;

const GROUP: usize = 16;

/// The bits of a place that the topmost maxima leave out: each of them stands for 4,096 numbers.
const TOP_BITS: u32 = 12;

/// Where the maxima of 256 numbers stand, those of 16, and the numbers themselves.
const SECOND: usize = 16;

const THIRD: usize = 272;

const NUMBERS: usize = 4368;

/// At most 65,536 numbers, all 0 at first.
///
/// They stand at the end of one block that is taken by `new`. In front of them are maxima: of each
/// sixteen numbers, then of each sixteen of these, and so on, until sixteen are left for all
/// numbers. A change writes three of them, and a search looks at a hundred or so at most.
#[derive(Drop)]
pub struct Maxima {
    tree: Vec<u16>,
}

impl Model for Maxima {
    ghost use Rattle.std.specs.Prelude.{List, ℕ, drop};
    ghost use Rattle.rss_notes.specs.Maxima.{IsTree};

    ghost Value = { List ℕ };

    ghost view = { λ m. drop 4368 m.tree.items };

    ghost invariant = { λ m. IsTree m.tree.items };
}

impl Maxima {
    /// So many numbers, all 0. It is the one call that takes memory: two bytes a number, and 8,736
    /// more.
    pub fn new(alloc: Global, len: usize) -> Result<Self, AllocError>
        requires { len ≤ NUMBERS_MOST }
        ensures { IfOk result (λ numbers. numbers ≡ replicate len 0) }
    {
        let tree = vec![in alloc; 0; NUMBERS + len]?;
        Ok(Maxima { tree })
    }

    /// How many numbers there are.
    pub fn len(&self) -> usize
        ensures count { result ≡ length self.now }
        ensures most { result ≤ NUMBERS_MOST }
    {
        self.tree.len() - NUMBERS
    }

    pub fn get(&self, place: usize) -> u16
        requires { place < length self.now }
        ensures { result ≡ slice_index self.now place }
    {
        self.tree[NUMBERS + place]
    }

    pub fn set(&mut self, place: usize, number: u16)
        requires { place < length self.old }
        ensures { self.new ≡ slice_set self.old place number }
    {
        self.tree[NUMBERS + place] = number;
        let mut node = NUMBERS + place;
        while node >= GROUP {
            node = node / GROUP - 1;
            let first = GROUP * (node + 1);
            self.tree[node] = greatest_in(&self.tree, first);
        }
    }

    /// The first place from this one on whose number is at least so great. Takes time in proportion
    /// to the logarithm of how many numbers there are.
    pub fn first(&self, from: usize, least: u16) -> Option<usize>
        ensures some { IfSome result (IsFirstFrom self.now from least) }
        ensures none { IfNone result (AllBelow least self.now from (length self.now)) }
    {
        let mut at = from;
        let mut bits = 0;
        while at < self.len() {
            if self.greatest_at(at, bits) < least {
                at = behind_group(at, bits);
                if bits < TOP_BITS && (at >> bits) % GROUP == 0 {
                    bits += GROUP_BITS;
                }
            } else if bits == 0 {
                return Some(at);
            } else {
                bits -= GROUP_BITS;
            }
        }
        None
    }

    /// The greatest of the numbers whose places are like this one but for so many low bits.
    fn greatest_at(&self, at: usize, bits: u32) -> u16
        requires within { at < length self.now }
        requires level { IsLevel bits }
        ensures bounds { (k : ℕ) → k < length self.now → Shares bits at k
            → slice_index self.now k ≤ result }
        ensures number { bits ≡ 0 → result ≡ slice_index self.now at }
    {
        self.tree[start_of(bits) + (at >> bits)]
    }
}

/// Where the nodes stand that leave out so many low bits of a place.
fn start_of(bits: u32) -> usize
    requires { IsLevel bits }
    ensures { StartsAt bits result }
{
    match bits {
        0 => NUMBERS,
        4 => THIRD,
        8 => SECOND,
        _ => 0,
    }
}

/// The first place after those that are like this one but for so many low bits.
fn behind_group(at: usize, bits: u32) -> usize
    requires within { at < NUMBERS_MOST }
    requires level { IsLevel bits }
    ensures later { at < result }
    ensures near { result ≤ 131072 }
    ensures group { (k : ℕ) → at ≤ k → k < result → Shares bits at k }
{
    ((at >> bits) + 1) << bits
}

/// The greatest of the sixteen numbers from a place on, or of those that there are.
fn greatest_in(tree: &[u16], first: usize) -> u16
    requires { first ≤ length tree.now }
    ensures { result ≡ greatest (take 16 (drop first tree.now)) }
{
    let end = tree.len().min(first + GROUP);
    let mut most: u16 = 0;
    for number in &tree[first..end] {
        most = most.max(*number);
    }
    most
}
