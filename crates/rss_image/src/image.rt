// Images.
ghost use Rattle.std.specs.Prelude.{◌≡◌, ◌↔◌, IsTrue, ◌+◌, ◌-◌, ◌*◌, ◌<◌, ◌≤◌, [], OnOk, OnErr, IfOk, IfSome, Some, None, true, false, length};
ghost use Rattle.rss_base.specs.DiskRule.{IsTold};
ghost use Rattle.rss_base.specs.Steps.{PagesCall, no_page, pages_in};
ghost use Rattle.rss_base.specs.declared.key.Space.TheVariants.{Image as ImageSpace};
ghost use Rattle.rss_base.specs.Sizes.{page_entries};
ghost use Rattle.rss_node.specs.Nodes.{AreNodes};
ghost use Rattle.rss_node.specs.Pairs.{pair_bytes};
ghost use Rattle.rss_image.specs.Images.{nodes_of, Becomes, StartsMade, MayPut, HasSpare, PutsPair, PutsMade, MayCut, CutsPair, CutsMade, HasImage, Finds, FindsAnother, Has, DestroysImage, least_tid, found_bytes};
ghost use Rattle.rss_image.specs.Emptied.{inner_most};

use crate::emptying::give_under;
use crate::inserting::insert_in;
use crate::removing::{is_same, remove_in};
use crate::rooting::{add_root, drop_root};
use crate::seeking::seek_in;
use crate::store::{damaged, take_page, write_node};
use rss_base::{Key, PageFault, Pages, Tid};
use rss_node::{Node, Nodes, Pair, pair_of, split_pair};
use rss_value::compare_keys;
use std::cmp::Ordering;

/// How many levels an image has at most.
const MOST_LEVELS: u8 = 5;

/// An ordered image, by its root. It is seen as a sorted list of pairs.
#[derive(Clone, Copy, Debug, PartialEq, Eq)]
pub struct Image {
    pub segment: u8,
    pub number: u8,
    pub width: u8,
    pub root: u32,
    pub levels: u8,
}

/// A pair that was found, as its key and its identifier.
fn keyed(found: Option<Pair>, width: u8) -> Option<(Key, Tid)>
    requires narrow { width ≤ 120 }
    requires long { IfSome found (λ pair. length pair ≡ width + 6) }
    ensures found { found_bytes result ≡ found }
    ensures wide { IfSome result (λ pair. length pair.0 ≡ width) }
{
    match found {
        Some(pair) => Some(split_pair(pair.as_slice(), width)),
        None => None,
    }
}

impl Image {
    /// An image without pairs.
    pub fn create<P: Pages>(
        pages: &mut P,
        segment: u8,
        number: u8,
        width: u8,
    ) -> Result<Image, PageFault>
        requires of { AreNodes (record { segment = segment; image = number; width = width }) }
        requires room { 0 < (P.view pages.old).spare }
        ensures is { IfOk result (λ image. nodes_of image
            ≡ record { segment = segment; image = number; width = width }) }
        ensures low { IfOk result (λ image. 1 ≤ image.levels) }
        ensures created { IfOk result (λ image. IsTold (P.view pages.old).disk
            → Becomes image image (P.view pages.old) (P.view pages.new) [] []) }
        ensures made { IfOk result (λ image. IsTold (P.view pages.old).disk
            → StartsMade image (P.view pages.new)) }
        ensures did { PagesCall (pages_in segment ImageSpace) 0 2
            (P.view pages.old) (P.view pages.new) result }
    {
        let of = Nodes {
            segment,
            image: number,
            width,
        };
        let root = take_page(pages, of, 0)?;
        let node = Node::blank(of, 0, root);
        write_node(pages, of, 0, root, &node)?;
        Ok(Image {
            segment,
            number,
            width,
            root,
            levels: 1,
        })
    }

    /// Gives all pages of an image back. If this fails, some of them may still be mapped.
    pub fn destroy<P: Pages>(self, pages: &mut P) -> Result<(), PageFault>
        requires of { AreNodes (nodes_of self) }
        requires low { 1 ≤ self.levels }
        requires there { IsTold (P.view pages.old).disk
            → ∥ HasImage self (P.view pages.old).held ∥₁ }
        ensures destroyed { OnOk result (IsTold (P.view pages.old).disk
            → DestroysImage self (P.view pages.old) (P.view pages.new)) }
        ensures did { PagesCall (pages_in self.segment ImageSpace)
            (inner_most self.width (self.levels - 1)) (inner_most self.width (self.levels - 1))
            (P.view pages.old) (P.view pages.new) result }
    {
        let of = Nodes {
            segment: self.segment,
            image: self.number,
            width: self.width,
        };
        give_under(pages, of, self.levels - 1, self.root)
    }

    /// Puts a pair into the list.
    pub fn insert<P: Pages>(&mut self, pages: &mut P, key: &Key, tid: Tid) -> Result<(), PageFault>
        requires of { AreNodes (nodes_of self.old) }
        requires low { 1 ≤ self.old.levels }
        requires long { length key.now ≡ self.old.width }
        requires slot { tid.slot < page_entries }
        requires may { IsTold (P.view pages.old).disk
            → ∥ MayPut self.old (P.view pages.old).held (pair_bytes key.now tid) ∥₁ }
        requires room { IsTold (P.view pages.old).disk
            → HasSpare self.old (P.view pages.old) }
        ensures of { nodes_of self.new ≡ nodes_of self.old }
        ensures low { 1 ≤ self.new.levels }
        ensures kept { OnErr result (self.new ≡ self.old) }
        ensures puts { OnOk result (IsTold (P.view pages.old).disk
            → PutsPair (pair_bytes key.now tid) self.old self.new
            (P.view pages.old) (P.view pages.new)) }
        ensures made { OnOk result (IsTold (P.view pages.old).disk
            → PutsMade (pair_bytes key.now tid) self.old self.new
            (P.view pages.old) (P.view pages.new)) }
        ensures did { PagesCall (pages_in self.old.segment ImageSpace) self.old.levels
            (4 * self.old.levels + 2) (P.view pages.old) (P.view pages.new) result }
    {
        let of = Nodes {
            segment: self.segment,
            image: self.number,
            width: self.width,
        };
        if self.levels > MOST_LEVELS {
            return Err(damaged(of, self.root));
        }
        let pair = pair_of(key, tid);
        match insert_in(pages, of, self.levels - 1, self.root, &pair)? {
            None => Ok(()),
            Some(split) => {
                let root = add_root(pages, of, self.levels, self.root, &split)?;
                self.root = root;
                self.levels += 1;
                Ok(())
            }
        }
    }

    /// Takes a pair out of the list.
    pub fn remove<P: Pages>(&mut self, pages: &mut P, key: &Key, tid: Tid) -> Result<(), PageFault>
        requires of { AreNodes (nodes_of self.old) }
        requires low { 1 ≤ self.old.levels }
        requires long { length key.now ≡ self.old.width }
        requires may { IsTold (P.view pages.old).disk
            → ∥ MayCut self.old (P.view pages.old).held (pair_bytes key.now tid) ∥₁ }
        ensures of { nodes_of self.new ≡ nodes_of self.old }
        ensures low { 1 ≤ self.new.levels }
        ensures kept { OnErr result (self.new ≡ self.old) }
        ensures cuts { OnOk result (IsTold (P.view pages.old).disk
            → CutsPair (pair_bytes key.now tid) self.old self.new
            (P.view pages.old) (P.view pages.new)) }
        ensures made { OnOk result (IsTold (P.view pages.old).disk
            → CutsMade self.old self.new (P.view pages.old) (P.view pages.new)) }
        ensures did { PagesCall (pages_in self.old.segment ImageSpace) (3 * self.old.levels)
            (6 * self.old.levels) (P.view pages.old) (P.view pages.new) result }
    {
        let of = Nodes {
            segment: self.segment,
            image: self.number,
            width: self.width,
        };
        let pair = pair_of(key, tid);
        let left = remove_in(pages, of, self.levels - 1, self.root, &pair)?;
        if self.levels == 1 {
            return Ok(());
        }
        if left > 1 {
            return Ok(());
        }
        let root = drop_root(pages, of, self.levels - 1, self.root)?;
        self.root = root;
        self.levels -= 1;
        Ok(())
    }

    /// The first pair at or above a key.
    pub fn seek<P: Pages>(&self, pages: &mut P, key: &Key) -> Result<Option<(Key, Tid)>, PageFault>
        requires of { AreNodes (nodes_of self.now) }
        requires low { 1 ≤ self.now.levels }
        requires long { length key.now ≡ self.now.width }
        requires there { IsTold (P.view pages.old).disk
            → ∥ HasImage self.now (P.view pages.old).held ∥₁ }
        ensures found { IfOk result (λ found. IsTold (P.view pages.old).disk
            → Finds false (pair_bytes key.now least_tid) self.now (P.view pages.old) found) }
        ensures wide { IfOk result (λ found. IfSome found (λ pair. length pair.0 ≡ self.now.width)) }
        ensures did { PagesCall no_page (self.now.levels + 1) (self.now.levels + 1)
            (P.view pages.old) (P.view pages.new) result }
    {
        let of = Nodes {
            segment: self.segment,
            image: self.number,
            width: self.width,
        };
        let pair = pair_of(key, Tid { page: 0, slot: 0 });
        let found = seek_in(pages, of, self.levels - 1, self.root, &pair, false)?;
        Ok(keyed(found, self.width))
    }

    /// The first pair above another.
    pub fn after<P: Pages>(
        &self,
        pages: &mut P,
        key: &Key,
        tid: Tid,
    ) -> Result<Option<(Key, Tid)>, PageFault>
        requires of { AreNodes (nodes_of self.now) }
        requires low { 1 ≤ self.now.levels }
        requires long { length key.now ≡ self.now.width }
        requires there { IsTold (P.view pages.old).disk
            → ∥ HasImage self.now (P.view pages.old).held ∥₁ }
        ensures found { IfOk result (λ found. IsTold (P.view pages.old).disk
            → Finds true (pair_bytes key.now tid) self.now (P.view pages.old) found) }
        ensures wide { IfOk result (λ found. IfSome found (λ pair. length pair.0 ≡ self.now.width)) }
        ensures did { PagesCall no_page (self.now.levels + 1) (self.now.levels + 1)
            (P.view pages.old) (P.view pages.new) result }
    {
        let of = Nodes {
            segment: self.segment,
            image: self.number,
            width: self.width,
        };
        let pair = pair_of(key, tid);
        let found = seek_in(pages, of, self.levels - 1, self.root, &pair, true)?;
        Ok(keyed(found, self.width))
    }

    /// A tuple that has this key, if there is one, other than `own`, the tuple that the key is for; a
    /// new one is none yet. In a unique image it is the one that stands in the way.
    pub fn another<P: Pages>(
        &self,
        pages: &mut P,
        key: &Key,
        own: Option<Tid>,
    ) -> Result<Option<Tid>, PageFault>
        requires of { AreNodes (nodes_of self.now) }
        requires low { 1 ≤ self.now.levels }
        requires long { length key.now ≡ self.now.width }
        requires there { IsTold (P.view pages.old).disk
            → ∥ HasImage self.now (P.view pages.old).held ∥₁ }
        ensures found { IfOk result (λ found. IsTold (P.view pages.old).disk
            → FindsAnother key.now own self.now (P.view pages.old) found) }
        ensures did { PagesCall no_page (2 * (self.now.levels + 1)) (2 * (self.now.levels + 1))
            (P.view pages.old) (P.view pages.new) result }
    {
        let Some(first) = having(self.seek(pages, key)?, key) else {
            return Ok(None);
        };
        if !is_own(own, first) {
            return Ok(Some(first));
        }
        Ok(having(self.after(pages, key, first)?, key))
    }

    /// Whether a tuple has this key.
    pub fn has<P: Pages>(&self, pages: &mut P, key: &Key, tid: Tid) -> Result<bool, PageFault>
        requires of { AreNodes (nodes_of self.now) }
        requires low { 1 ≤ self.now.levels }
        requires long { length key.now ≡ self.now.width }
        requires there { IsTold (P.view pages.old).disk
            → ∥ HasImage self.now (P.view pages.old).held ∥₁ }
        ensures found { IfOk result (λ has. IsTold (P.view pages.old).disk
            → Has (pair_bytes key.now tid) self.now (P.view pages.old) has) }
        ensures did { PagesCall no_page (self.now.levels + 1) (self.now.levels + 1)
            (P.view pages.old) (P.view pages.new) result }
    {
        let of = Nodes {
            segment: self.segment,
            image: self.number,
            width: self.width,
        };
        let pair = pair_of(key, tid);
        let found = seek_in(pages, of, self.levels - 1, self.root, &pair, false)?;
        Ok(is_found(&found, &pair))
    }
}

/// Whether this pair was found.
fn is_found(found: &Option<Pair>, pair: &Pair) -> bool
    ensures { IsTrue result ↔ (found.now ≡ Some pair.now) }
{
    match found {
        Some(other) => is_same(other.as_slice(), pair.as_slice()),
        None => false,
    }
}

/// The identifier of a pair that was found, if it has this key.
fn having(found: Option<(Key, Tid)>, key: &Key) -> Option<Tid>
    ensures some { IfSome result (λ tid. found ≡ Some (key.now, tid)) }
    ensures none { result ≡ None → (tid : Tid) → found ≡ Some (key.now, tid) → ⊥ }
{
    match found {
        Some((has, tid)) => match compare_keys(&has, key) {
            Ordering::Equal => Some(tid),
            _ => None,
        },
        None => None,
    }
}

/// Whether a tuple is this one.
fn is_own(own: Option<Tid>, tid: Tid) -> bool
    ensures yes { result ≡ true → own ≡ Some tid }
    ensures no { result ≡ false → own ≡ Some tid → ⊥ }
{
    match own {
        Some(tuple) => tuple.page == tid.page && tuple.slot == tid.slot,
        None => false,
    }
}
