// The locks of calls.
ghost use Rattle.std.specs.Prelude.{◌≡◌, ◌+◌, ◌<◌, ◌≤◌, [], ◌∷◌, ◌++◌, Err, None, false, true, is_some, option_copied, option_to_list, vec_len, IfOk, IfSome, OnOk};
ghost use Rattle.std.specs.FinMap.{get};
ghost use Rattle.rss_base.specs.Listings.{IsNumberOf, image_at};
ghost use Rattle.rss_base.specs.declared.call.Call.TheVariants.{Lock};
ghost use Rattle.rss_base.specs.declared.item.Item.TheVariants.{Segment, Relation, Tuple as TupleItem};
ghost use Rattle.rss_base.specs.declared.refusal.Kind.TheVariants.{Relation as RelationKind, Image as ImageKind};
ghost use Rattle.rss_base.specs.declared.refusal.Refusal.TheVariants.{Busy};
ghost use Rattle.rss_lock.specs.Table.{told};
ghost use Rattle.rss_stored.specs.Calls.{calls_most};
ghost use Rattle.rss_model.specs.Defining.{IsGranule, LocksGranule};
ghost use Rattle.rss_model.specs.Locks.{first_bar, granted, least_holder};
ghost use Rattle.rss_model.specs.Machine.{State};
ghost use Rattle.rss_model.specs.Needs.{need, image_scan_needs, lock_needs, relation_needs};
ghost use Rattle.rss_model.specs.ReplyText.{IsShort};
ghost use Rattle.rss_session.specs.Admissions.{IsGranuleOf};
ghost use Rattle.rss_trans.specs.Transactions.{is_open};
ghost use Rattle.rss_rsi.specs.Linking.{ListsBehind};
ghost use Rattle.rss_rsi.specs.Locking.{putting, IsSayable, AreSayable, Lists, ListsAccess, MayBeOf, ClaimEnds};

use crate::Rss;
use rss_base::{
    CallError, Item, Kind, Mode, Name, Need, Refusal, Reply, Tid, Tuple, name_is_whole,
};
use rss_buffer::Saving;
use std::alloc::AllocError;

/// For what a call goes to a tuple.
#[derive(Clone, Copy)]
pub(crate) enum Access {
    Read,
    Change,
}

impl<S: Saving> Rss<S> {
    ghost use Rattle.rss_stored.specs.Calls.{IsCallOf};
    ghost use Rattle.rss_rsi.specs.Parts.{parts_of, session_of, view};

    /// Locks a segment or a relation, shared or exclusive, until the transaction ends.
    pub fn lock(
        &mut self,
        transaction: u32,
        item: &Item,
        exclusive: bool,
    ) -> Result<Reply, CallError>
        requires few { (view self.old).calls < calls_most }
        requires granule { LocksGranule (Lock transaction item.now exclusive) }
        ensures did { IsCallOf (view self.old) (view self.new)
            (Lock transaction item.now exclusive) result }
        ensures untouched { ((view self.old).is_up → ⊥) → self.new ≡ self.old }
    {
        self.ask()?;
        self.session.test_open(transaction)?;
        let number = self.session.test_granule(item)?;
        let Ok(needs) = self.granule_needs(number, item, exclusive) else {
            return Err(CallError::NoMemory);
        };
        let needs = self.claim(transaction, needs)?;
        self.hold(transaction, needs);
        Ok(Reply::Ok)
    }

    /// The least transaction that holds an item.
    pub fn holder(&self, item: &Item) -> Option<u32>
        ensures { (state : State) → (view self.now).shows state
            → result ≡ least_holder state.locks item.now }
    {
        self.locks.holder(item)
    }

    /// The locks of a segment or a relation, whose number is `number`.
    fn granule_needs(
        &self,
        number: u8,
        item: &Item,
        exclusive: bool,
    ) -> Result<Vec<Need>, AllocError>
        requires granule { IsGranule item.now }
        requires known { IsGranuleOf (session_of self.now).store.catalog.listing item.now number }
        ensures lists { IfOk result (λ needs. Lists (parts_of self.now)
            (λ tables. lock_needs tables item.now exclusive) needs.items) }
        ensures few { IfOk result (λ needs. vec_len needs ≤ 2) }
        ensures sayable { IfOk result (λ needs. AreSayable needs.items) }
    {
        match (item, exclusive) {
            (Item::Segment(name), false) => self.segment_needs(name, Mode::S),
            (Item::Segment(name), true) => self.segment_needs(name, Mode::X),
            (Item::Relation(name), false) => self.relation_needs(number, name, Mode::IS, Mode::S),
            (Item::Relation(name), true) => self.relation_needs(number, name, Mode::IX, Mode::X),
            _ => unreachable!(),
        }
    }

    fn segment_needs(&self, segment: &Name, mode: Mode) -> Result<Vec<Need>, AllocError>
        ensures is { IfOk result (λ needs. needs.items ≡ need (Segment segment.now) mode ∷ []) }
        ensures sayable { IfOk result (λ needs. AreSayable needs.items) }
    {
        let mut needs = Vec::new(self.alloc);
        needs.push(segment_need(segment, mode))?;
        Ok(needs)
    }

    /// The locks of a relation, whose number is `number`, and of its segment before it.
    pub(crate) fn relation_needs(
        &self,
        number: u8,
        relation: &Name,
        coarse: Mode,
        mode: Mode,
    ) -> Result<Vec<Need>, AllocError>
        requires known { IsNumberOf RelationKind (session_of self.now).store.catalog.listing
            relation.now number }
        ensures lists { IfOk result (λ needs. Lists (parts_of self.now)
            (λ tables. relation_needs tables relation.now coarse mode) needs.items) }
        ensures few { IfOk result (λ needs. vec_len needs ≤ 2) }
        ensures sayable { IfOk result (λ needs. AreSayable needs.items) }
    {
        let mut needs = Vec::with_capacity(self.alloc, 3)?;
        self.push_relation(&mut needs, number, relation, coarse, mode)?;
        Ok(needs)
    }

    /// Puts the locks of a relation, whose number is `number`, and of its segment before it, after
    /// others.
    pub(crate) fn push_relation(
        &self,
        needs: &mut Vec<Need>,
        number: u8,
        relation: &Name,
        coarse: Mode,
        mode: Mode,
    ) -> Result<(), AllocError>
        requires known { IsNumberOf RelationKind (session_of self.now).store.catalog.listing
            relation.now number }
        requires sayable { AreSayable needs.old.items }
        ensures pushed { OnOk result (ListsBehind (parts_of self.now)
            (λ tables. relation_needs tables relation.now coarse mode)
            needs.old.items needs.new.items) }
        ensures few { OnOk result (vec_len needs.new ≤ vec_len needs.old + 2) }
        ensures sayable { OnOk result (AreSayable needs.new.items) }
    {
        let segment = self.session.store.catalog.relation(number).segment;
        if let Some(segment) = self.session.store.catalog.name_at(Kind::Segment, segment) {
            needs.push(segment_need(&segment, coarse))?;
        }
        needs.push(relation_need(relation, mode))?;
        Ok(())
    }

    /// The locks of a scan of the image `number`: its relation is read.
    pub(crate) fn image_needs(&self, number: u8) -> Result<Vec<Need>, AllocError>
        requires { is_some (image_at (session_of self.now).store.catalog.listing number) ≡ true }
        ensures lists { IfOk result (λ needs. (image : Name)
            → IsNumberOf ImageKind (session_of self.now).store.catalog.listing image number
            → Lists (parts_of self.now)
            (λ tables. image_scan_needs tables (get tables.definitions.images image)) needs.items) }
        ensures few { IfOk result (λ needs. vec_len needs ≤ 2) }
        ensures sayable { IfOk result (λ needs. AreSayable needs.items) }
    {
        let relation = self.session.store.catalog.image(number).relation;
        let name = self.session.store.catalog.relation(relation).name;
        self.relation_needs(relation, &name, Mode::IS, Mode::S)
    }

    /// The locks with which a tuple of a relation, whose number is `number`, is read, or changed to
    /// the values of `to`, if it is given any. It has the values of `found`, if it is there.
    pub(crate) fn tuple_needs(
        &self,
        number: u8,
        relation: &Name,
        tid: Tid,
        access: Access,
        found: &Option<Tuple>,
        to: Option<&Tuple>,
    ) -> Result<Vec<Need>, AllocError>
        requires known { IsNumberOf RelationKind (session_of self.now).store.catalog.listing
            relation.now number }
        requires found { IfSome found.now
            (MayBeOf (session_of self.now).store.catalog.listing number) }
        requires to { IfSome (option_copied to)
            (MayBeOf (session_of self.now).store.catalog.listing number) }
        ensures lists { IfOk result (λ needs. ListsAccess (parts_of self.now) access relation.now tid
            found.now (option_to_list (option_copied to.entry)) needs.items) }
        ensures few { IfOk result (λ needs. vec_len needs ≤ 300) }
        ensures sayable { IfOk result (λ needs. AreSayable needs.items) }
    {
        match (access, found) {
            (Access::Read, _) => self.plain_needs(number, relation, tid, Mode::IS, Mode::S),
            (Access::Change, None) => self.plain_needs(number, relation, tid, Mode::IX, Mode::X),
            (Access::Change, Some(was)) => {
                let mut needs = self.plain_needs(number, relation, tid, Mode::IX, Mode::X)?;
                self.push_keys(&mut needs, number, Some(was), to)?;
                Ok(needs)
            }
        }
    }

    /// The locks of a tuple of a relation, whose number is `number`, and of what it stands in.
    pub(crate) fn plain_needs(
        &self,
        number: u8,
        relation: &Name,
        tid: Tid,
        coarse: Mode,
        mode: Mode,
    ) -> Result<Vec<Need>, AllocError>
        requires known { IsNumberOf RelationKind (session_of self.now).store.catalog.listing
            relation.now number }
        ensures lists { IfOk result (λ needs. Lists (parts_of self.now)
            (λ tables. relation_needs tables relation.now coarse coarse
            ++ need (TupleItem relation.now tid) mode ∷ []) needs.items) }
        ensures few { IfOk result (λ needs. vec_len needs ≤ 3) }
        ensures sayable { IfOk result (λ needs. AreSayable needs.items) }
    {
        let mut needs = self.relation_needs(number, relation, coarse, coarse)?;
        needs.push(tuple_need(relation, tid, mode))?;
        Ok(needs)
    }

    /// The locks with which a tuple of these values is put, and that of the new tuple after them.
    pub(crate) fn new_needs(
        &self,
        number: u8,
        relation: &Name,
        tid: Tid,
        tuple: &Tuple,
    ) -> Result<Vec<Need>, AllocError>
        requires known { IsNumberOf RelationKind (session_of self.now).store.catalog.listing
            relation.now number }
        requires tuple { MayBeOf (session_of self.now).store.catalog.listing number tuple.now }
        ensures lists { IfOk result (λ needs. Lists (parts_of self.now)
            (λ tables. putting tables relation.now tid tuple.now) needs.items) }
        ensures some { IfOk result (λ needs. 1 ≤ vec_len needs) }
        ensures few { IfOk result (λ needs. vec_len needs ≤ 300) }
        ensures sayable { IfOk result (λ needs. AreSayable needs.items) }
    {
        let mut needs = self.relation_needs(number, relation, Mode::IX, Mode::IX)?;
        self.push_keys(&mut needs, number, None, Some(tuple))?;
        needs.push(tuple_need(relation, tid, Mode::X))?;
        Ok(needs)
    }

    /// Nobody bars the transaction from these locks, and memory is taken for them. They are handed
    /// back.
    pub(crate) fn claim(
        &mut self,
        transaction: u32,
        mut needs: Vec<Need>,
    ) -> Result<Vec<Need>, CallError>
        requires few { vec_len needs ≤ 300 }
        requires sayable { AreSayable needs.items }
        ensures ends { ClaimEnds (told self.old.locks) (told self.new.locks) transaction needs.items
            result }
        ensures same { IfOk result (λ claimed. claimed ≡ needs) }
        ensures locks { (told self.new.locks).locks ≡ (told self.old.locks).locks }
        ensures session { self.new.session ≡ self.old.session }
        ensures scans { self.new.scans ≡ self.old.scans }
        ensures down { self.new.down ≡ self.old.down }
        ensures calls { self.new.calls ≡ self.old.calls }
    {
        if let Some((place, holder)) = self.locks.check(transaction, &needs) {
            let need = needs.swap_remove(place as usize);
            return Err(CallError::Refused(busy(need, holder)));
        }
        match self.locks.reserve(needs.len() as u32) {
            Ok(()) => Ok(needs),
            Err(_) => Err(CallError::NoMemory),
        }
    }

    /// Takes locks that were claimed.
    pub(crate) fn hold(&mut self, transaction: u32, needs: Vec<Need>)
        requires up { self.old.down ≡ false }
        requires open { is_open (session_of self.old).opened transaction ≡ true }
        requires free { first_bar (told self.old.locks).locks transaction needs.items ≡ None }
        requires room { vec_len needs ≤ (told self.old.locks).spare }
        ensures locks { (told self.new.locks).locks
            ≡ granted transaction needs.items (told self.old.locks).locks }
        ensures session { self.new.session ≡ self.old.session }
        ensures scans { self.new.scans ≡ self.old.scans }
        ensures down { self.new.down ≡ self.old.down }
        ensures calls { self.new.calls ≡ self.old.calls }
    {
        let _count = self.session.open_count();
        self.locks.take(transaction, needs);
    }
}

fn segment_need(segment: &Name, mode: Mode) -> Need
    ensures is { result ≡ need (Segment segment.now) mode }
    ensures sayable { IsSayable (Segment segment.now) }
{
    name_is_whole(*segment);
    Need {
        item: Item::Segment(*segment),
        mode,
    }
}

fn relation_need(relation: &Name, mode: Mode) -> Need
    ensures is { result ≡ need (Relation relation.now) mode }
    ensures sayable { IsSayable (Relation relation.now) }
{
    name_is_whole(*relation);
    Need {
        item: Item::Relation(*relation),
        mode,
    }
}

pub(crate) fn tuple_need(relation: &Name, tid: Tid, mode: Mode) -> Need
    ensures is { result ≡ need (TupleItem relation.now tid) mode }
    ensures sayable { IsSayable (TupleItem relation.now tid) }
{
    name_is_whole(*relation);
    Need {
        item: Item::Tuple(*relation, tid),
        mode,
    }
}

/// The refusal that tells of an item, and who holds it.
fn busy(need: Need, holder: u32) -> Refusal
    requires { IsSayable need.item }
    ensures is { result ≡ Busy need.item holder }
    ensures short { IsShort (Err (Busy need.item holder)) }
{
    let Need { item, .. } = need;
    Refusal::Busy { item, holder }
}
