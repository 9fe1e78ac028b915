// Images that are checked.
ghost use Rattle.std.specs.Prelude.{◌≡◌, ℕ, ◌+◌, ◌*◌, ◌<◌, ◌≤◌, ◌++◌, ◌∷◌, ◌^◌, List, [], None, true, false, IfOk, IfSome, length};
ghost use Rattle.rss_base.specs.DiskRule.{IsTold};
ghost use Rattle.rss_base.specs.Steps.{PagesCall, no_page as no_pages};
ghost use Rattle.rss_base.specs.Entries.{Entry, no_page};
ghost use Rattle.rss_base.specs.Nodes.{node_most, node_least};
ghost use Rattle.rss_levels.specs.Entries.{Pairwise};
ghost use Rattle.rss_levels.specs.Rows.{Row, HoldsAt, IsBefore, first, marks};
ghost use Rattle.rss_node.specs.Nodes.{NodeView, AreNodes, IsNodeOf, Spells, entry_at};
ghost use Rattle.rss_image.specs.Trees.{HoldsNode};
ghost use Rattle.rss_image.specs.Images.{nodes_of};
ghost use Rattle.rss_image.specs.Fitting.{IsFit};
ghost use Rattle.rss_image.specs.Marks.{IsMappedIn, MarksImage, MarksOnly, MarksUnder};
ghost use Rattle.rss_image.specs.Checking.{AreSeen, IsSeen, IsCensus, HasSoundImage, SeesLeaf, NeverLeads, HoldsNone, NeverFits, FitsIn, HoldsFit, SeesIn, NeverIn, IsChildAt, NeverHasEntry, HasEntryAt, leaf_part, SeesUnder, NeverStands, repeated as is_repeated, with_seen, with_bound};

use crate::fitting::{are_between, is_fit, keyed_at};
use crate::halving::zeros;
use crate::image::Image;
use crate::marks::mark;
use crate::store::{damaged, load_page, node_key};
use rss_base::{Key, Page, PageFault, Pages, Tid, node_most};
use rss_node::{LentNode, NO_PAGE, Nodes, Pair};
use rss_value::compare_keys;
use std::cmp::Ordering;

/// What a tree that was checked has.
#[derive(Clone, Copy, Debug, PartialEq, Eq)]
pub struct Census {
    pub pairs: u64,
    pub pages: u32,
    /// The first tuple whose key is that of the pair before its own.
    pub repeats: Option<Tid>,
}

/// What was seen of a tree, from its last leaf back to some place.
#[derive(Drop)]
pub(crate) struct Seen {
    /// The first leaf that was seen.
    pub next: u32,
    /// Its bound: what comes before is below it.
    pub low: Option<Pair>,
    /// The first pair that was seen.
    pub first: Option<(Key, Tid)>,
    pub pairs: u64,
    pub pages: u32,
    pub repeats: Option<Tid>,
}

/// The identifier of the first pair, if its key is the one before it, otherwise the one that was
/// known.
fn repeated(key: &Key, first: &Option<(Key, Tid)>, known: Option<Tid>) -> Option<Tid>
    ensures { result ≡ is_repeated key.now first.now known }
{
    match first {
        Some((next, tid)) => match compare_keys(key, next) {
            Ordering::Equal => Some(*tid),
            _ => known,
        },
        None => known,
    }
}

/// The same pair.
fn copy_of(pair: &Pair) -> Pair
    ensures { result ≡ pair.now }
{
    let mut copy = Pair::new();
    copy.extend_from_slice(pair.as_slice());
    copy
}

/// The bound of a child of a node: the first one has the node's own.
fn bound_of(node: &LentNode<'_>, at: usize, low: &Pair) -> Pair
    requires { at < length node.now.entries }
    ensures { result ≡ (entry_at (with_bound low.now node.now.entries) at).pair }
{
    if at == 0 {
        return copy_of(low);
    }
    node.own_pair(at)
}

impl Seen {
    /// Nothing was seen.
    fn none() -> Seen
        ensures seen { (width : ℕ) → IsSeen width [] 0 result }
        ensures pairs { result.pairs ≡ 0 }
        ensures pages { result.pages ≡ 0 }
    {
        Seen {
            next: NO_PAGE,
            low: None,
            first: None,
            pairs: 0,
            pages: 0,
            repeats: None,
        }
    }

    /// Sees the pair before those that were seen.
    fn see(&mut self, key: Key, tid: Tid)
        requires few { self.old.pairs + 1 < 2 ^ 64 }
        ensures { self.new ≡ with_seen key tid self.old }
    {
        self.repeats = repeated(&key, &self.first, self.repeats);
        self.first = Some((key, tid));
        self.pairs += 1;
    }

    /// Sees the pairs of a leaf.
    fn see_leaf(&mut self, node: &LentNode<'_>)
        requires narrow { node.now.width ≤ 120 }
        requires few { self.old.pairs + length node.now.entries < 2 ^ 64 }
        ensures next { self.new.next ≡ self.old.next }
        ensures low { self.new.low ≡ self.old.low }
        ensures pages { self.new.pages ≡ self.old.pages }
        ensures pairs { self.new.pairs ≡ self.old.pairs + length node.now.entries }
        ensures seen { (entries : List Entry) → AreSeen node.now.width entries self.old
            → AreSeen node.now.width (node.now.entries ++ entries) self.new }
    {
        let mut at = node.count();
        while at > 0 {
            at -= 1;
            let (key, tid) = keyed_at(node, at);
            self.see(key, tid);
        }
    }
}

/// Sees a leaf before those that were seen, and answers whether it fits there.
fn check_leaf(node: &LentNode<'_>, number: u32, low: &Pair, seen: &mut Seen) -> bool
    requires narrow { node.now.width ≤ 120 }
    requires few { seen.old.pairs + length node.now.entries < 2 ^ 64 }
    ensures pages { result ≡ true → seen.new.pages ≡ seen.old.pages }
    ensures pairs { result ≡ true → seen.new.pairs ≡ seen.old.pairs + length node.now.entries }
    ensures yes { result ≡ true → SeesLeaf node.now.width node.now.next
        (leaf_part number low.now node.now.entries) seen.old seen.new }
    ensures no { result ≡ false → NeverLeads node.now.width node.now.next
        (leaf_part number low.now node.now.entries) seen.old }
{
    if node.next() != seen.next {
        return false;
    }
    if !are_between(node, low, &seen.low) {
        return false;
    }
    seen.see_leaf(node);
    seen.next = number;
    seen.low = Some(copy_of(low));
    true
}

/// The node of a level in the page of a number, if it fits by itself and has at least so many entries.
fn fit_in<'a>(
    page: &'a Page,
    of: Nodes,
    level: u8,
    number: u32,
    fewest: usize,
    slots: u32,
) -> Option<LentNode<'a>>
    requires { AreNodes of }
    ensures spelled { IfSome result (Spells page.now) }
    ensures is { IfSome result (IsNodeOf of level number) }
    ensures fit { IfSome result (λ node.
        IsFit node.width slots level node.next node.entries) }
    ensures filled { IfSome result (λ node. fewest ≤ length node.entries) }
    ensures few { IfSome result (λ node. length node.entries ≤ node_most node.width) }
    ensures none { result ≡ None → NeverFits of slots level number fewest page.now }
{
    let node = LentNode::read(page, of, level, number)?;
    if node.count() < fewest {
        return None;
    }
    if !is_fit(&node, level, slots) {
        return None;
    }
    Some(node)
}

/// Sees the leaf in the page of a number before those that were seen, and answers whether it fits there.
fn leaf_in(
    page: &Page,
    of: Nodes,
    number: u32,
    low: &Pair,
    fewest: usize,
    slots: u32,
    seen: &mut Seen,
) -> bool
    requires of { AreNodes of }
    requires few { seen.old.pairs ≤ 512 * seen.old.pages }
    requires room { seen.old.pages < slots }
    ensures few { result ≡ true → seen.new.pairs ≤ 512 * seen.new.pages }
    ensures sees { result ≡ true
        → SeesIn of slots number low.now fewest page.now seen.old seen.new }
    ensures never { result ≡ false
        → NeverIn of slots number low.now fewest page.now seen.old }
{
    let Some(node) = fit_in(page, of, 0, number, fewest, slots) else {
        return false;
    };
    seen.pages += 1;
    check_leaf(&node, number, low, seen)
}

/// The same of a page that is brought into memory.
fn find_leaf<P: Pages>(
    pages: &mut P,
    of: Nodes,
    number: u32,
    low: &Pair,
    fewest: usize,
    seen: &mut Seen,
) -> Result<bool, PageFault>
    requires of { AreNodes of }
    requires few { seen.old.pairs ≤ 512 * seen.old.pages }
    requires room { seen.old.pages < (P.view pages.old).slots }
    ensures few { IfOk result (λ fits. fits ≡ true → seen.new.pairs ≤ 512 * seen.new.pages) }
    ensures sees { IfOk result (λ fits. fits ≡ true → IsTold (P.view pages.old).disk
        → SeesUnder of (P.view pages.old) 0 number low.now fewest seen.old seen.new) }
    ensures never { IfOk result (λ fits. fits ≡ false → IsTold (P.view pages.old).disk
        → NeverStands of (P.view pages.old) 0 number low.now fewest seen.old) }
    ensures mapped { IfOk result (λ fits. fits ≡ true → IsMappedIn of (P.view pages.old) number) }
    ensures did { PagesCall no_pages 1 1 (P.view pages.old) (P.view pages.new) result }
{
    let slots = pages.slots();
    let key = node_key(of, number);
    if !pages.has(key) {
        return Ok(false);
    }
    pages.load(key)?;
    Ok(leaf_in(pages.loaded(key), of, number, low, fewest, slots, seen))
}

/// How many entries the node of a level in the page of a number has, if it fits by itself and has at
/// least so many.
fn count_in(
    page: &Page,
    of: Nodes,
    level: u8,
    number: u32,
    fewest: usize,
    slots: u32,
) -> Option<usize>
    requires { AreNodes of }
    ensures some { IfSome result (FitsIn of slots level number fewest page.now) }
    ensures none { result ≡ None → NeverFits of slots level number fewest page.now }
{
    let node = fit_in(page, of, level, number, fewest, slots)?;
    Some(node.count())
}

/// The same of a page that is brought into memory.
fn find_count<P: Pages>(
    pages: &mut P,
    of: Nodes,
    level: u8,
    number: u32,
    fewest: usize,
) -> Result<Option<usize>, PageFault>
    requires of { AreNodes of }
    ensures some { IfOk result (λ found. IfSome found (λ count. IsTold (P.view pages.old).disk
        → HoldsFit of (P.view pages.old) level number fewest count)) }
    ensures none { IfOk result (λ found. found ≡ None → IsTold (P.view pages.old).disk
        → HoldsNone of (P.view pages.old) level number fewest) }
    ensures mapped { IfOk result (λ found. IfSome found (λ count.
        IsMappedIn of (P.view pages.old) number)) }
    ensures did { PagesCall no_pages 1 1 (P.view pages.old) (P.view pages.new) result }
{
    let slots = pages.slots();
    let key = node_key(of, number);
    if !pages.has(key) {
        return Ok(None);
    }
    pages.load(key)?;
    Ok(count_in(pages.loaded(key), of, level, number, fewest, slots))
}

/// A child of a node, with its bound.
#[derive(Drop)]
pub(crate) struct Child {
    pub bound: Pair,
    pub number: u32,
}

/// The child of an entry of the node of a level, in the page of a number. None if the bytes are no such
/// node's, or if it has no such entry.
fn child_in(page: &Page, of: Nodes, level: u8, number: u32, at: usize, low: &Pair) -> Option<Child>
    requires { AreNodes of }
    ensures some { IfSome result (λ child. (node : NodeView) → IsNodeOf of level number node
        → Spells page.now node → IsChildAt low.now node.entries at child) }
    ensures none { result ≡ None → NeverHasEntry of level number at page.now }
{
    let node = LentNode::read(page, of, level, number)?;
    if at >= node.count() {
        return None;
    }
    Some(Child {
        bound: bound_of(&node, at, low),
        number: node.child(at),
    })
}

/// The same of a page that is brought into memory.
fn find_child<P: Pages>(
    pages: &mut P,
    of: Nodes,
    level: u8,
    number: u32,
    at: usize,
    low: &Pair,
) -> Result<Child, PageFault>
    requires of { AreNodes of }
    requires there { IsTold (P.view pages.old).disk
        → HasEntryAt of (P.view pages.old).held level number at }
    ensures child { IfOk result (λ child. IsTold (P.view pages.old).disk
        → (next : ℕ) (entries : List Entry)
        → HoldsNode of (P.view pages.old).held level number next entries
        → IsChildAt low.now entries at child) }
    ensures did { PagesCall no_pages 1 1 (P.view pages.old) (P.view pages.new) result }
{
    let key = load_page(pages, of, number)?;
    match child_in(pages.loaded(key), of, level, number, at, low) {
        Some(child) => Ok(child),
        None => Err(damaged(of, number)),
    }
}

/// Sees what stands under a node of a level, from right to left, and answers whether it fits before
/// what was seen. The pages of nodes that fit are marked.
fn check_under<P: Pages>(
    pages: &mut P,
    of: Nodes,
    level: u8,
    number: u32,
    low: &Pair,
    fewest: usize,
    seen: &mut Seen,
    marks: &mut [u64],
) -> Result<bool, PageFault>
    requires of { AreNodes of }
    requires few { seen.old.pairs ≤ 512 * seen.old.pages }
    ensures few { IfOk result (λ fits. fits ≡ true → seen.new.pairs ≤ 512 * seen.new.pages) }
    ensures sees { IfOk result (λ fits. fits ≡ true → IsTold (P.view pages.old).disk
        → SeesUnder of (P.view pages.old) level number low.now fewest seen.old seen.new) }
    ensures never { IfOk result (λ fits. fits ≡ false → IsTold (P.view pages.old).disk
        → NeverStands of (P.view pages.old) level number low.now fewest seen.old) }
    ensures marked { IfOk result (λ fits. fits ≡ true → IsTold (P.view pages.old).disk
        → MarksUnder of (P.view pages.old) level number marks.old marks.new) }
    ensures reached { MarksOnly (IsMappedIn of (P.view pages.old)) marks.old marks.new }
    ensures did { (most : ℕ) × PagesCall no_pages most most
        (P.view pages.old) (P.view pages.new) result }
{
    if seen.pages >= pages.slots() {
        return Ok(false);
    }
    if level == 0 {
        if !find_leaf(pages, of, number, low, fewest, seen)? {
            return Ok(false);
        }
        mark(marks, number);
        return Ok(true);
    }
    let Some(count) = find_count(pages, of, level, number, fewest)? else {
        return Ok(false);
    };
    seen.pages += 1;
    mark(marks, number);
    let mut at = count;
    while at > 0 {
        at -= 1;
        let child = find_child(pages, of, level, number, at, low)?;
        let fits = check_under(
            pages,
            of,
            level - 1,
            child.number,
            &child.bound,
            node_most(of.width) / 2,
            seen,
            marks,
        )?;
        if !fits {
            return Ok(false);
        }
    }
    Ok(true)
}

/// How many entries the root of a tree of so many levels has at least.
fn fewest_of(levels: u8) -> usize
    ensures leaf { levels ≡ 1 → result ≡ 0 }
    ensures inner { 1 < levels → result ≡ 2 }
{
    if levels == 1 { 0 } else { 2 }
}

impl Image {
    /// Checks the pages of an image. `None` answers that they are no tree of one, whose identifiers
    /// name pages that the store may have.
    pub fn check<P: Pages>(&self, pages: &mut P) -> Result<Option<Census>, PageFault>
        requires of { AreNodes (nodes_of self.now) }
        ensures sound { IfOk result (λ found. IsTold (P.view pages.old).disk
            → IfSome found (IsCensus self.now (P.view pages.old))) }
        ensures none { IfOk result (λ found. found ≡ None → IsTold (P.view pages.old).disk
            → HasSoundImage self.now (P.view pages.old) → ⊥) }
        ensures did { (most : ℕ) × PagesCall no_pages most most
            (P.view pages.old) (P.view pages.new) result }
    {
        self.check_marking(pages, &mut [])
    }

    /// The same, and it marks the tree's pages, each by its number in the space of images. Numbers for
    /// which there is no bit are passed over. If there is no tree, or on a fault, some pages may be
    /// marked that are mapped.
    pub fn check_marking<P: Pages>(
        &self,
        pages: &mut P,
        marks: &mut [u64],
    ) -> Result<Option<Census>, PageFault>
        requires of { AreNodes (nodes_of self.now) }
        ensures sound { IfOk result (λ found. IsTold (P.view pages.old).disk
            → IfSome found (IsCensus self.now (P.view pages.old))) }
        ensures none { IfOk result (λ found. found ≡ None → IsTold (P.view pages.old).disk
            → HasSoundImage self.now (P.view pages.old) → ⊥) }
        ensures marked { IfOk result (λ found. IfSome found (λ census.
            IsTold (P.view pages.old).disk
            → MarksImage self.now (P.view pages.old).held marks.old marks.new)) }
        ensures reached { MarksOnly (IsMappedIn (nodes_of self.now) (P.view pages.old))
            marks.old marks.new }
        ensures did { (most : ℕ) × PagesCall no_pages most most
            (P.view pages.old) (P.view pages.new) result }
    {
        if self.levels == 0 {
            return Ok(None);
        }
        let of = Nodes {
            segment: self.segment,
            image: self.number,
            width: self.width,
        };
        let low = zeros(self.width);
        let mut seen = Seen::none();
        let fewest = fewest_of(self.levels);
        let fits = check_under(
            pages,
            of,
            self.levels - 1,
            self.root,
            &low,
            fewest,
            &mut seen,
            marks,
        )?;
        if !fits {
            return Ok(None);
        }
        Ok(Some(Census {
            pairs: seen.pairs,
            pages: seen.pages,
            repeats: seen.repeats,
        }))
    }
}
