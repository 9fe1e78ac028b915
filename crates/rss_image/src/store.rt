// Nodes in pages.
ghost use Rattle.std.specs.Prelude.{◌≡◌, ◌+◌, ◌<◌, [], ◌∷◌, ℕ, true, false, None, IfOk, OnOk};
ghost use Rattle.rss_base.specs.DiskRule.{IsTold};
ghost use Rattle.rss_base.specs.Paged.{page_key};
ghost use Rattle.rss_base.specs.Steps.{PagesCall, no_page, pages_in};
ghost use Rattle.rss_base.specs.declared.key.Space.TheVariants.{Image};
ghost use Rattle.rss_base.specs.declared.fault.PageFault.TheVariants.{Damaged};
ghost use Rattle.rss_base.specs.declared.place.Place.TheVariants.{Page as PagePlace};
ghost use Rattle.rss_base.specs.declared.key.PageKey.{PageKey as Key};
ghost use Rattle.rss_node.specs.Nodes.{AreNodes, IsNodeOf};
ghost use Rattle.rss_image.specs.Trees.{cells_of, HoldsNode, HasNode, KeepsPages, LosesNoPage, Writes};

use rss_base::{PageFault, PageKey, Pages, Place, Space};
use rss_node::{LentNode, Node, Nodes};

/// The image page `number`.
pub(crate) fn node_key(of: Nodes, number: u32) -> PageKey
    ensures { result ≡ page_key of.segment Image number }
{
    PageKey {
        segment: of.segment,
        space: Space::Image,
        number,
    }
}

/// The page isn't what it should be.
pub(crate) fn damaged(of: Nodes, number: u32) -> PageFault
    ensures { result ≡ Damaged (PagePlace (page_key of.segment Image number)) }
{
    PageFault::Damaged(Place::Page(node_key(of, number)))
}

/// Brings the page of a number into memory, where `loaded` lends it, and answers its key.
pub(crate) fn load_page<P: Pages>(
    pages: &mut P,
    of: Nodes,
    number: u32,
) -> Result<PageKey, PageFault>
    requires mapped { IsTold (P.view pages.old).disk
        → (P.view pages.old).mapped (page_key of.segment Image number) ≡ true }
    ensures is { IfOk result (λ key. key ≡ page_key of.segment Image number) }
    ensures there { IfOk result (λ key. (P.view pages.new).in_memory key ≡ true) }
    ensures did { PagesCall no_page 1 1 (P.view pages.old) (P.view pages.new) result }
{
    let key = node_key(of, number);
    if !pages.has(key) {
        return Err(damaged(of, number));
    }
    pages.load(key)?;
    Ok(key)
}

/// Copies the node of a level in the page of a number, to edit it.
pub(crate) fn read_node<P: Pages>(
    pages: &mut P,
    of: Nodes,
    level: u8,
    number: u32,
    into: &mut Node,
) -> Result<(), PageFault>
    requires of { AreNodes of }
    requires there { IsTold (P.view pages.old).disk
        → ∥ HasNode of (P.view pages.old).held level number ∥₁ }
    ensures holds { OnOk result (IsTold (P.view pages.old).disk
        → HoldsNode of (P.view pages.old).held level number into.new.next into.new.entries) }
    ensures is { OnOk result (IsNodeOf of level number into.new) }
    ensures did { PagesCall no_page 1 1 (P.view pages.old) (P.view pages.new) result }
{
    let key = load_page(pages, of, number)?;
    match LentNode::read(pages.loaded(key), of, level, number) {
        Some(node) => {
            into.fill_from(&node);
            Ok(())
        }
        None => Err(damaged(of, number)),
    }
}

/// Writes a node to its page.
pub(crate) fn write_node<P: Pages>(
    pages: &mut P,
    of: Nodes,
    level: u8,
    number: u32,
    node: &Node,
) -> Result<(), PageFault>
    requires is { IsNodeOf of level number node.now }
    requires mapped { IsTold (P.view pages.old).disk
        → (P.view pages.old).mapped (page_key of.segment Image number) ≡ true }
    ensures writes { OnOk result (IsTold (P.view pages.old).disk
        → Writes of level number node.now (P.view pages.old) (P.view pages.new)) }
    ensures mapped { OnOk result ((P.view pages.new).mapped ≡ (P.view pages.old).mapped) }
    ensures spare { OnOk result ((P.view pages.new).spare ≡ (P.view pages.old).spare) }
    ensures did { PagesCall (pages_in of.segment Image) 0 1
        (P.view pages.old) (P.view pages.new) result }
{
    let key = node_key(of, number);
    if !pages.has(key) {
        return Err(damaged(of, number));
    }
    pages.write(key, node.page())?;
    Ok(())
}

/// Takes a page for a node.
pub(crate) fn take_page<P: Pages>(pages: &mut P, of: Nodes, at: u32) -> Result<u32, PageFault>
    requires of { AreNodes of }
    requires room { IsTold (P.view pages.old).disk → 0 < (P.view pages.old).spare }
    ensures fresh { IfOk result (λ number. IsTold (P.view pages.old).disk
        → cells_of of (P.view pages.old).held number ≡ None) }
    ensures keeps { IfOk result (λ number. IsTold (P.view pages.old).disk
        → KeepsPages of [] (P.view pages.old) (P.view pages.new)) }
    ensures loses_none { IfOk result (λ number. IsTold (P.view pages.old).disk
        → LosesNoPage of [] (number ∷ []) (P.view pages.old) (P.view pages.new)) }
    ensures mapped { IfOk result (λ number.
        (P.view pages.new).mapped (page_key of.segment Image number) ≡ true) }
    ensures grows { OnOk result ((key : Key) → (P.view pages.old).mapped key ≡ true
        → (P.view pages.new).mapped key ≡ true) }
    ensures spare { IfOk result (λ number. (P.view pages.old).spare
        ≡ (P.view pages.new).spare + 1) }
    ensures did { PagesCall (pages_in of.segment Image) 0 1
        (P.view pages.old) (P.view pages.new) result }
{
    if pages.spare() == 0 {
        return Err(damaged(of, at));
    }
    let number = pages.take(of.segment, Space::Image)?;
    Ok(number)
}

/// Gives the page of a node back.
pub(crate) fn give_page<P: Pages>(pages: &mut P, of: Nodes, number: u32) -> Result<(), PageFault>
    requires mapped { IsTold (P.view pages.old).disk
        → (P.view pages.old).mapped (page_key of.segment Image number) ≡ true }
    ensures keeps { OnOk result (IsTold (P.view pages.old).disk
        → KeepsPages of (number ∷ []) (P.view pages.old) (P.view pages.new)) }
    ensures loses_none { OnOk result (IsTold (P.view pages.old).disk
        → LosesNoPage of (number ∷ []) [] (P.view pages.old) (P.view pages.new)) }
    ensures given { OnOk result ((P.view pages.new).mapped
        (page_key of.segment Image number) ≡ false) }
    ensures spare { OnOk result ((P.view pages.new).spare ≡ (P.view pages.old).spare + 1) }
    ensures did { PagesCall (pages_in of.segment Image) 0 0
        (P.view pages.old) (P.view pages.new) result }
{
    let key = node_key(of, number);
    if !pages.has(key) {
        return Err(damaged(of, number));
    }
    pages.give(key)?;
    Ok(())
}
