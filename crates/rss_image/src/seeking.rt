// Pairs that are sought.
ghost use Rattle.std.specs.Prelude.{◌≡◌, ◌+◌, ◌-◌, ◌<◌, ◌≤◌, ℕ, List, None, IfOk, OnOk, IfSome, length};
ghost use Rattle.rss_base.specs.DiskRule.{IsTold};
ghost use Rattle.rss_base.specs.Entries.{Entry};
ghost use Rattle.rss_base.specs.Steps.{PagesCall, no_page};
ghost use Rattle.rss_levels.specs.Sought.{first_from};
ghost use Rattle.rss_node.specs.Nodes.{NodeView, AreNodes, IsNodeOf, Spells, entry_at};
ghost use Rattle.rss_image.specs.Seeking.{MaySeek, HasPlace, HasSpot, HasEntries, HasPage, GoesBelow, NeverBelow, LooksIn, IsAsLong, NeverBegins};
ghost use Rattle.rss_image.specs.Trees.{HasNode, HoldsNode};

use crate::store::{damaged, load_page};
use rss_base::{Page, PageFault, Pages};
use rss_node::{LentNode, Nodes, Pair};

/// What a search finds in a leaf: the first pair that isn't passed, otherwise the next leaf's page.
#[derive(Drop)]
pub(crate) enum InLeaf {
    Here(Pair),
    Next(u32),
}

/// The child under which a search for a pair goes on, in the page of a node of a level. None if the bytes
/// are no such node's, or if no entry is passed.
fn below_in(page: &Page, of: Nodes, level: u8, number: u32, pair: &Pair) -> Option<u32>
    requires { AreNodes of }
    ensures some { IfSome result (GoesBelow of level number page.now pair.now) }
    ensures none { result ≡ None → NeverBelow of level number page.now pair.now }
{
    let node = LentNode::read(page, of, level, number)?;
    let at = node.place(pair, true);
    if at == 0 {
        return None;
    }
    Some(node.child(at - 1))
}

/// The same in the page of a number, which is brought into memory.
fn find_below<P: Pages>(
    pages: &mut P,
    of: Nodes,
    level: u8,
    number: u32,
    pair: &Pair,
) -> Result<u32, PageFault>
    requires of { AreNodes of }
    requires long { length pair.now ≡ of.width + 6 }
    requires inner { 0 < level }
    requires there { IsTold (P.view pages.old).disk
        → ∥ HasSpot of (P.view pages.old).held level number pair.now ∥₁ }
    ensures below { IfOk result (λ child. IsTold (P.view pages.old).disk
        → HasPage of (P.view pages.old).held number
        (λ page. GoesBelow of level number page pair.now child)) }
    ensures did { PagesCall no_page 1 1 (P.view pages.old) (P.view pages.new) result }
{
    let key = load_page(pages, of, number)?;
    match below_in(pages.loaded(key), of, level, number, pair) {
        Some(child) => Ok(child),
        None => Err(damaged(of, number)),
    }
}

/// What a search for a pair finds in the page of a leaf. None if the bytes are no such leaf's.
fn look_in(page: &Page, of: Nodes, number: u32, pair: &Pair, beyond: bool) -> Option<InLeaf>
    requires { AreNodes of }
    ensures some { IfSome result (LooksIn of number page.now pair.now beyond) }
    ensures long { IfSome result (IsAsLong of.width) }
    ensures none { result ≡ None → (node : NodeView) → IsNodeOf of 0 number node
        → Spells page.now node → ⊥ }
{
    let node = LentNode::read(page, of, 0, number)?;
    let at = node.place(pair, beyond);
    if at < node.count() {
        return Some(InLeaf::Here(node.own_pair(at)));
    }
    Some(InLeaf::Next(node.next()))
}

/// The same in the page of a number, which is brought into memory.
fn look<P: Pages>(
    pages: &mut P,
    of: Nodes,
    number: u32,
    pair: &Pair,
    beyond: bool,
) -> Result<InLeaf, PageFault>
    requires of { AreNodes of }
    requires there { IsTold (P.view pages.old).disk
        → ∥ HasNode of (P.view pages.old).held 0 number ∥₁ }
    ensures looks { IfOk result (λ found. IsTold (P.view pages.old).disk
        → HasPage of (P.view pages.old).held number
        (λ page. LooksIn of number page pair.now beyond found)) }
    ensures long { IfOk result (IsAsLong of.width) }
    ensures did { PagesCall no_page 1 1 (P.view pages.old) (P.view pages.new) result }
{
    let key = load_page(pages, of, number)?;
    match look_in(pages.loaded(key), of, number, pair, beyond) {
        Some(found) => Ok(found),
        None => Err(damaged(of, number)),
    }
}

/// The first pair in the page of a leaf. None if the bytes are no such leaf's, or if it has no entries.
fn front_in(page: &Page, of: Nodes, number: u32) -> Option<Pair>
    requires { AreNodes of }
    ensures some { IfSome result (λ found. (node : NodeView) → IsNodeOf of 0 number node
        → Spells page.now node → found ≡ (entry_at node.entries 0).pair) }
    ensures long { IfSome result (λ found. length found ≡ of.width + 6) }
    ensures none { result ≡ None → NeverBegins of number page.now }
{
    let node = LentNode::read(page, of, 0, number)?;
    if node.count() == 0 {
        return None;
    }
    Some(node.own_pair(0))
}

/// The same in the page of a number, which is brought into memory.
fn front<P: Pages>(pages: &mut P, of: Nodes, number: u32) -> Result<Pair, PageFault>
    requires of { AreNodes of }
    requires there { IsTold (P.view pages.old).disk
        → ∥ HasEntries of (P.view pages.old).held number ∥₁ }
    ensures found { IfOk result (λ found. IsTold (P.view pages.old).disk
        → (next : ℕ) (entries : List Entry)
        → HoldsNode of (P.view pages.old).held 0 number next entries
        → found ≡ (entry_at entries 0).pair) }
    ensures long { IfOk result (λ found. length found ≡ of.width + 6) }
    ensures did { PagesCall no_page 1 1 (P.view pages.old) (P.view pages.new) result }
{
    let key = load_page(pages, of, number)?;
    match front_in(pages.loaded(key), of, number) {
        Some(found) => Ok(found),
        None => Err(damaged(of, number)),
    }
}

/// The first pair of a leaf that isn't passed, otherwise the first one of the next leaf.
fn first_in<P: Pages>(
    pages: &mut P,
    of: Nodes,
    number: u32,
    pair: &Pair,
    beyond: bool,
) -> Result<Option<Pair>, PageFault>
    requires of { AreNodes of }
    requires there { IsTold (P.view pages.old).disk
        → ∥ HasPlace of (P.view pages.old).held 0 number pair.now ∥₁ }
    ensures found { IfOk result (λ found. IsTold (P.view pages.old).disk
        → (pairs : List (List ℕ)) → MaySeek of (P.view pages.old).held 0 number pair.now pairs
        → found ≡ first_from beyond pair.now pairs) }
    ensures long { IfOk result (λ found. IfSome found (λ pair. length pair ≡ of.width + 6)) }
    ensures did { PagesCall no_page 2 2 (P.view pages.old) (P.view pages.new) result }
{
    let looked = look(pages, of, number, pair, beyond)?;
    match looked {
        InLeaf::Here(found) => Ok(Some(found)),
        InLeaf::Next(next) => {
            if next >= pages.slots() {
                return Ok(None);
            }
            let first = front(pages, of, next)?;
            Ok(Some(first))
        }
    }
}

/// The first pair under a node that isn't passed, or after it in the next leaf.
pub(crate) fn seek_in<P: Pages>(
    pages: &mut P,
    of: Nodes,
    level: u8,
    number: u32,
    pair: &Pair,
    beyond: bool,
) -> Result<Option<Pair>, PageFault>
    requires of { AreNodes of }
    requires long { length pair.now ≡ of.width + 6 }
    requires there { IsTold (P.view pages.old).disk
        → ∥ HasPlace of (P.view pages.old).held level number pair.now ∥₁ }
    ensures found { IfOk result (λ found. IsTold (P.view pages.old).disk
        → (pairs : List (List ℕ)) → MaySeek of (P.view pages.old).held level number pair.now pairs
        → found ≡ first_from beyond pair.now pairs) }
    ensures long { IfOk result (λ found. IfSome found (λ pair. length pair ≡ of.width + 6)) }
    ensures did { PagesCall no_page (level + 2) (level + 2)
        (P.view pages.old) (P.view pages.new) result }
{
    if level == 0 {
        return first_in(pages, of, number, pair, beyond);
    }
    let child = find_below(pages, of, level, number, pair)?;
    seek_in(pages, of, level - 1, child, pair, beyond)
}
