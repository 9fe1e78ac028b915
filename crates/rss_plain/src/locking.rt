// Which locks calls ask for, and who bars them.
ghost use Rattle.std.specs.Prelude.{◌≡◌, ◌++◌, [], ◌∷◌, None, option_map, IfNone, IfOk, IfSome, OnOk};
ghost use Rattle.rss_base.specs.declared.item.Item.TheVariants.{Segment as SegmentItem, Tuple as TupleItem};
ghost use Rattle.rss_model.specs.Locks.{first_bar, is_held_by_another};
ghost use Rattle.rss_model.specs.Machine.{now};
ghost use Rattle.rss_model.specs.Needs.{chain_needs, connect_needs, disconnect_needs, image_scan_needs};
ghost use Rattle.rss_model.specs.Needs.{link_scan_needs, lock_needs, need, parent_needs};
ghost use Rattle.rss_model.specs.Needs.{relation_needs, segment_needs, upper_needs};
ghost use Rattle.rss_model.specs.Refusals.{busy, image_of, link_of};
ghost use Rattle.rss_model.specs.Tables.{segment_of};
ghost use Rattle.rss_plain.specs.Tests.{IsBarredAt, tuple_needs};
ghost use Rattle.rss_plain.specs.View.{machine};

use crate::definitions::Link;
use crate::plain::Plain;
use rss_base::{Item, Mode, Name, Need, Refusal, Tid};
use std::alloc::AllocError;

pub(crate) fn push(needs: &mut Vec<Need>, item: Item, mode: Mode) -> Result<(), AllocError>
    ensures { OnOk result (needs.new.items ≡ needs.old.items ++ need item mode ∷ []) }
{
    needs.push(Need { item, mode })?;
    Ok(())
}

impl Plain {
    /// The first of these locks that another transaction bars.
    pub(crate) fn if_busy(&self, t: u32, mut needs: Vec<Need>) -> Option<Refusal>
        ensures { result ≡ option_map busy (first_bar (machine self.now).locks t needs.items) }
    {
        let (place, holder) = self.first_barred(t, &needs)?;
        let Need { item, .. } = needs.swap_remove(place);
        Some(Refusal::Busy { item, holder })
    }

    /// The place of the first one, and the least transaction that bars it.
    fn first_barred(&self, t: u32, needs: &[Need]) -> Option<(usize, u32)>
        ensures some { IfSome result (λ found.
            IsBarredAt (machine self.now).locks t needs.now found.0 found.1) }
        ensures none { IfNone result (first_bar (machine self.now).locks t needs.now ≡ None) }
    {
        for place in 0..needs.len() {
            if let Some((_, holder)) = self.locks.check(t, &needs[place..place + 1]) {
                return Some((place, holder));
            }
        }
        None
    }

    /// Whether another transaction holds a tuple.
    pub(crate) fn is_held(&self, t: u32, relation: Name, tid: Tid) -> bool
        ensures { result ≡ is_held_by_another (machine self.now).locks t (TupleItem relation tid) }
    {
        // X disagrees with every mode.
        let need = Need {
            item: Item::Tuple(relation, tid),
            mode: Mode::X,
        };
        self.locks.check(t, &[need]).is_some()
    }

    fn push_segment(
        &self,
        needs: &mut Vec<Need>,
        relation: &Name,
        mode: Mode,
    ) -> Result<(), AllocError>
        ensures { OnOk result (needs.new.items ≡ needs.old.items
            ++ segment_needs (segment_of (now (machine self.now)) relation.now) mode) }
    {
        match self.relation(relation) {
            Some(relation) => push(needs, Item::Segment(relation.segment()), mode),
            None => Ok(()),
        }
    }

    /// A relation, and its segment before it.
    pub(crate) fn push_relation(
        &self,
        needs: &mut Vec<Need>,
        relation: &Name,
        coarse: Mode,
        mode: Mode,
    ) -> Result<(), AllocError>
        ensures { OnOk result (needs.new.items ≡ needs.old.items
            ++ relation_needs (now (machine self.now)) relation.now coarse mode) }
    {
        self.push_segment(needs, relation, coarse)?;
        push(needs, Item::Relation(*relation), mode)
    }

    /// A tuple, and what it stands in before it.
    pub(crate) fn push_tuple(
        &self,
        needs: &mut Vec<Need>,
        relation: &Name,
        tid: Tid,
        coarse: Mode,
        mode: Mode,
    ) -> Result<(), AllocError>
        ensures { OnOk result (needs.new.items ≡ needs.old.items
            ++ tuple_needs (now (machine self.now)) relation.now tid coarse mode) }
    {
        self.push_relation(needs, relation, coarse, coarse)?;
        push(needs, Item::Tuple(*relation, tid), mode)
    }

    pub(crate) fn relation_needs(
        &self,
        relation: &Name,
        coarse: Mode,
        mode: Mode,
    ) -> Result<Vec<Need>, AllocError>
        ensures { IfOk result (λ needs.
            needs.items ≡ relation_needs (now (machine self.now)) relation.now coarse mode) }
    {
        let mut needs = Vec::new(self.alloc);
        self.push_relation(&mut needs, relation, coarse, mode)?;
        Ok(needs)
    }

    pub(crate) fn tuple_needs(
        &self,
        relation: &Name,
        tid: Tid,
        coarse: Mode,
        mode: Mode,
    ) -> Result<Vec<Need>, AllocError>
        ensures { IfOk result (λ needs.
            needs.items ≡ tuple_needs (now (machine self.now)) relation.now tid coarse mode) }
    {
        let mut needs = Vec::new(self.alloc);
        self.push_tuple(&mut needs, relation, tid, coarse, mode)?;
        Ok(needs)
    }

    // ---- links

    /// The chain below a parent, and the parent before it, if the link has parents.
    fn push_chain(
        &self,
        needs: &mut Vec<Need>,
        name: &Name,
        link: &Link,
        parent: Option<Tid>,
    ) -> Result<(), AllocError>
        ensures { OnOk result (needs.new.items ≡ needs.old.items
            ++ chain_needs (now (machine self.now)) name.now link.now.parent parent) }
    {
        let Some(relation) = link.parent() else {
            return push(needs, Item::Chain(*name, None), Mode::X);
        };
        let Some(parent) = parent else {
            return Ok(());
        };
        self.push_tuple(needs, &relation, parent, Mode::IS, Mode::S)?;
        push(needs, Item::Chain(*name, Some(parent)), Mode::X)
    }

    /// The parent of a chain, if the link has parents.
    fn push_upper(
        &self,
        needs: &mut Vec<Need>,
        link: &Link,
        parent: Option<Tid>,
    ) -> Result<(), AllocError>
        ensures { OnOk result (needs.new.items ≡ needs.old.items
            ++ upper_needs (now (machine self.now)) link.now.parent parent) }
    {
        match (link.parent(), parent) {
            (Some(relation), Some(parent)) => {
                self.push_tuple(needs, &relation, parent, Mode::IS, Mode::S)
            }
            _ => Ok(()),
        }
    }

    pub(crate) fn connect_needs(
        &self,
        name: &Name,
        child: Tid,
        parent: Option<Tid>,
    ) -> Result<Vec<Need>, AllocError>
        ensures { IfOk result (λ needs. needs.items
            ≡ connect_needs (now (machine self.now)) name.now child parent
            (link_of (machine self.now) name.now)) }
    {
        let mut needs = Vec::new(self.alloc);
        if let Some(link) = self.link(name) {
            self.push_tuple(&mut needs, &link.child(), child, Mode::IX, Mode::X)?;
            self.push_chain(&mut needs, name, link, parent)?;
        }
        Ok(needs)
    }

    pub(crate) fn disconnect_needs(&self, name: &Name, child: Tid) -> Result<Vec<Need>, AllocError>
        ensures { IfOk result (λ needs. needs.items
            ≡ disconnect_needs (now (machine self.now)) name.now child
            (link_of (machine self.now) name.now)) }
    {
        let mut needs = Vec::new(self.alloc);
        if let Some(link) = self.link(name) {
            self.push_tuple(&mut needs, &link.child(), child, Mode::IX, Mode::X)?;
            if let Some(parent) = self.parent_in(name, child) {
                self.push_chain(&mut needs, name, link, parent)?;
            }
        }
        Ok(needs)
    }

    pub(crate) fn parent_needs(&self, name: &Name, child: Tid) -> Result<Vec<Need>, AllocError>
        ensures { IfOk result (λ needs. needs.items
            ≡ parent_needs (now (machine self.now)) child (link_of (machine self.now) name.now)) }
    {
        let mut needs = Vec::new(self.alloc);
        if let Some(link) = self.link(name) {
            self.push_tuple(&mut needs, &link.child(), child, Mode::IS, Mode::S)?;
        }
        Ok(needs)
    }

    pub(crate) fn link_scan_needs(
        &self,
        name: &Name,
        parent: Option<Tid>,
    ) -> Result<Vec<Need>, AllocError>
        ensures { IfOk result (λ needs. needs.items
            ≡ link_scan_needs (now (machine self.now)) parent
            (link_of (machine self.now) name.now)) }
    {
        let mut needs = Vec::new(self.alloc);
        if let Some(link) = self.link(name) {
            self.push_upper(&mut needs, link, parent)?;
            self.push_relation(&mut needs, &link.child(), Mode::IS, Mode::S)?;
        }
        Ok(needs)
    }

    // ---- others

    pub(crate) fn image_scan_needs(&self, name: &Name) -> Result<Vec<Need>, AllocError>
        ensures { IfOk result (λ needs. needs.items
            ≡ image_scan_needs (now (machine self.now)) (image_of (machine self.now) name.now)) }
    {
        match self.image(name) {
            Some(image) => self.relation_needs(&image.relation(), Mode::IS, Mode::S),
            None => Ok(Vec::new(self.alloc)),
        }
    }

    /// Those of a segment or a relation.
    pub(crate) fn lock_needs(&self, item: &Item, exclusive: bool) -> Result<Vec<Need>, AllocError>
        ensures { IfOk result (λ needs. needs.items
            ≡ lock_needs (now (machine self.now)) item.now exclusive) }
    {
        match (item, exclusive) {
            (Item::Segment(name), false) => self.segment_needs(name, Mode::S),
            (Item::Segment(name), true) => self.segment_needs(name, Mode::X),
            (Item::Relation(name), false) => self.relation_needs(name, Mode::IS, Mode::S),
            (Item::Relation(name), true) => self.relation_needs(name, Mode::IX, Mode::X),
            _ => Ok(Vec::new(self.alloc)),
        }
    }

    fn segment_needs(&self, name: &Name, mode: Mode) -> Result<Vec<Need>, AllocError>
        ensures { IfOk result (λ needs. needs.items ≡ need (SegmentItem name.now) mode ∷ []) }
    {
        let mut needs = Vec::new(self.alloc);
        push(&mut needs, Item::Segment(*name), mode)?;
        Ok(needs)
    }
}
