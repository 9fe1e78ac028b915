// What is asked of a node by itself, where an image is checked.
ghost use Rattle.std.specs.Prelude.{◌≡◌, ◌+◌, ◌<◌, ◌≤◌, true, false, length};
ghost use Rattle.std.specs.Ordering.{nat_cmp};
ghost use Rattle.std.specs.Cmp.Lexicographic.{slice_cmp};
ghost use Rattle.rss_base.specs.Entries.{IsLess};
ghost use Rattle.rss_levels.specs.Entries.{Each};
ghost use Rattle.rss_node.specs.Nodes.{entry_at};
ghost use Rattle.rss_base.specs.Tids.{IsSpelledTid};
ghost use Rattle.rss_node.specs.Pairs.{key_from, tid_from};
ghost use Rattle.rss_image.specs.Images.{has_slot, has_page};
ghost use Rattle.rss_image.specs.Fitting.{IsFineEntry, IsBranch, IsFit, IsUnderLimit, AreBetween};

use crate::halving::zeros;
use crate::removing::is_same;
use rss_base::{Key, PAGE_ENTRIES, Tid};
use rss_node::{LentNode, NO_PAGE, Pair, compare_bytes, split_pair};
use std::cmp::Ordering;

/// Whether an identifier may be a tuple's, in a store of so many slots.
fn may_be(tid: Tid, slots: u32) -> bool
    ensures yes { result ≡ true → (tid.slot < 128) × (tid.page < slots) }
    ensures no { result ≡ false → tid.slot < 128 → tid.page < slots → ⊥ }
{
    usize::from(tid.slot) < PAGE_ENTRIES && tid.page < slots
}

/// The same identifier: four bytes spell its page, and two its slot.
fn spelled(tid: Tid) -> Tid
    ensures same { result ≡ tid }
    ensures spelled { IsSpelledTid tid }
{
    tid
}

/// The key and the identifier of an entry.
pub(crate) fn keyed_at(node: &LentNode<'_>, at: usize) -> (Key, Tid)
    requires narrow { node.now.width ≤ 120 }
    requires within { at < length node.now.entries }
    ensures key { result.0 ≡ key_from node.now.width (entry_at node.now.entries at).pair }
    ensures tid { result.1 ≡ tid_from node.now.width (entry_at node.now.entries at).pair }
    ensures long { length (entry_at node.now.entries at).pair ≡ node.now.width + 6 }
{
    let (key, tid) = split_pair(node.pair(at), node.width());
    (key, spelled(tid))
}

/// Whether an entry of a node fits.
fn is_fine(node: &LentNode<'_>, at: usize, level: u8, slots: u32) -> bool
    requires narrow { node.now.width ≤ 120 }
    requires within { at < length node.now.entries }
    ensures yes { result ≡ true
        → IsFineEntry node.now.width slots level (entry_at node.now.entries at) }
    ensures no { result ≡ false
        → IsFineEntry node.now.width slots level (entry_at node.now.entries at) → ⊥ }
{
    let (_key, tid) = keyed_at(node, at);
    may_be(tid, slots) && (level > 0 || node.child(at) == 0)
}

/// Whether all entries of a node fit.
fn are_fine(node: &LentNode<'_>, level: u8, slots: u32) -> bool
    requires narrow { node.now.width ≤ 120 }
    ensures yes { result ≡ true → Each (IsFineEntry node.now.width slots level) node.now.entries }
    ensures no { result ≡ false → Each (IsFineEntry node.now.width slots level) node.now.entries → ⊥ }
{
    for at in 0..node.count() {
        if !is_fine(node, at, level, slots) {
            return false;
        }
    }
    true
}

/// Whether a node is as an inner one.
fn is_branch(node: &LentNode<'_>) -> bool
    requires narrow { node.now.width ≤ 120 }
    ensures yes { result ≡ true → IsBranch node.now.width node.now.next node.now.entries }
    ensures no { result ≡ false → IsBranch node.now.width node.now.next node.now.entries → ⊥ }
{
    node.next() == NO_PAGE
        && node.count() > 0
        && is_same(node.pair(0), zeros(node.width()).as_slice())
}

/// Whether a node of a level fits by itself.
pub(crate) fn is_fit(node: &LentNode<'_>, level: u8, slots: u32) -> bool
    requires narrow { node.now.width ≤ 120 }
    ensures yes { result ≡ true
        → IsFit node.now.width slots level node.now.next node.now.entries }
    ensures no { result ≡ false
        → IsFit node.now.width slots level node.now.next node.now.entries → ⊥ }
{
    (level == 0 || is_branch(node)) && are_fine(node, level, slots)
}

/// Whether a pair is below another, as bytes.
fn is_less(a: &[u8], b: &[u8]) -> bool
    ensures yes { result ≡ true → IsLess a.now b.now }
    ensures no { result ≡ false → IsLess a.now b.now → ⊥ }
{
    match compare_bytes(a, b) {
        Ordering::Less => true,
        _ => false,
    }
}

/// Whether a pair is below a bound, if there is one.
fn is_under(pair: &[u8], limit: &Option<Pair>) -> bool
    ensures yes { result ≡ true → IsUnderLimit limit.now pair.now }
    ensures no { result ≡ false → IsUnderLimit limit.now pair.now → ⊥ }
{
    match limit {
        Some(limit) => is_less(pair, limit.as_slice()),
        None => true,
    }
}

/// Whether the entries of a node rise from a bound on, and end before another one.
pub(crate) fn are_between(node: &LentNode<'_>, low: &Pair, limit: &Option<Pair>) -> bool
    ensures yes { result ≡ true → AreBetween low.now node.now.entries limit.now }
    ensures no { result ≡ false → AreBetween low.now node.now.entries limit.now → ⊥ }
{
    let count = node.count();
    if count == 0 {
        return is_under(low.as_slice(), limit);
    }
    if is_less(node.pair(0), low.as_slice()) {
        return false;
    }
    for at in 1..count {
        if !is_less(node.pair(at - 1), node.pair(at)) {
            return false;
        }
    }
    is_under(node.pair(count - 1), limit)
}
