// What the calls on links look for.
ghost use Rattle.std.specs.Prelude.{◌≡◌, ◌≤◌, true, false, Err, is_some, vec_len, IfErr, IfOk, IfSome, OnOk};
ghost use Rattle.rss_base.specs.Listings.{IsNumberOf, link_at, relation_at};
ghost use Rattle.rss_base.specs.LogRecords.{HasSlot};
ghost use Rattle.rss_base.specs.declared.answer.CallError.TheVariants.{Refused};
ghost use Rattle.rss_base.specs.declared.refusal.Kind.TheVariants.{Link as LinkKind};
ghost use Rattle.rss_base.specs.declared.refusal.Refusal.TheVariants.{Connected, NotConnected};
ghost use Rattle.rss_base.specs.declared.relation.RelationEntry.{RelationEntry as AnyEntry};
ghost use Rattle.rss_lock.specs.Table.{told};
ghost use Rattle.rss_members.specs.Calls.{HasForm, above_in};
ghost use Rattle.rss_model.specs.Chains.{chain_with, left_of};
ghost use Rattle.rss_model.specs.Locks.{first_bar};
ghost use Rattle.rss_model.specs.Machine.{now};
ghost use Rattle.rss_model.specs.ReplyText.{IsShort};
ghost use Rattle.rss_model.specs.Refusals.{unless_spot, unless_live, if_connected};
ghost use Rattle.rss_session.specs.Linking.{SaysOfLink, SaysOfChain, FindsMembership};
ghost use Rattle.rss_trans.specs.Transactions.{is_open};
ghost use Rattle.rss_rsi.specs.Linking.{TestEnds, passes_all, if_placed, connect_tests, stray_tests, below_test, above_test, kept_by, IsRefused, IsPlaced, MayBeTold, IsMisnamed};

use crate::Rss;
use crate::looking::no_tuple;
use rss_base::{CallError, Name, Need, PAGE_ENTRIES, Place, Refusal, Spot, Tid, name_is_whole};
use rss_buffer::Saving;
use rss_members::Membership;

impl<S: Saving> Rss<S> {
    ghost use Rattle.rss_rsi.specs.Parts.{session_of};

    /// The tuple after which a tuple comes into the chain of a parent at a spot, if after any. The
    /// call that puts it there is refused if there is no such tuple or no such parent, if the tuple
    /// stands in a chain of the link, and if there is no such spot.
    pub(crate) fn test_connect(
        &mut self,
        link: &Name,
        number: u8,
        child: Tid,
        parent: Option<Tid>,
        spot: &Spot,
    ) -> Result<Option<Tid>, CallError>
        requires up { self.old.down ≡ false }
        requires known { IsNumberOf LinkKind (session_of self.old).store.catalog.listing
            link.now number }
        requires form { HasForm (session_of self.old).store.catalog.listing number parent }
        ensures ends { TestEnds (session_of self.old) (session_of self.new) (self.new.down ≡ false)
            (connect_tests link.now child parent spot.now) result }
        ensures left { IfOk result (λ left. SaysOfChain (session_of self.old) number parent
            (λ chain. left ≡ left_of spot.now chain)) }
        ensures named { IfOk result (λ left. IfSome parent MayBeTold × HasSlot child
            × IfSome left MayBeTold) }
        ensures calls { self.new.calls ≡ self.old.calls }
        ensures locks { self.new.locks ≡ self.old.locks }
        ensures scans { self.new.scans ≡ self.old.scans }
    {
        self.test_child(link, number, child)?;
        self.test_parent(link, number, parent)?;
        self.test_outside(link, number, child)?;
        self.find_spot(link, number, parent, spot)
    }

    /// Why a tuple that stands in no chain of a link can't be taken out of one: there is no such tuple,
    /// or it isn't connected.
    pub(crate) fn why_outside(&mut self, link: &Name, number: u8, child: Tid) -> CallError
        requires up { self.old.down ≡ false }
        requires known { IsNumberOf LinkKind (session_of self.old).store.catalog.listing
            link.now number }
        ensures ends { TestEnds {T = Unit {0}} (session_of self.old) (session_of self.new)
            (self.new.down ≡ false) (stray_tests link.now child) (Err result) }
        ensures calls { self.new.calls ≡ self.old.calls }
        ensures locks { self.new.locks ≡ self.old.locks }
        ensures scans { self.new.scans ≡ self.old.scans }
    {
        match self.test_child(link, number, child) {
            Ok(()) => not_connected(link),
            Err(why) => why,
        }
    }

    /// The parent in whose chain a tuple stands, if it stands in one. The call that asks for it is
    /// refused if there is no such tuple.
    pub(crate) fn find_parent(
        &mut self,
        link: &Name,
        number: u8,
        child: Tid,
    ) -> Result<Option<Tid>, CallError>
        requires up { self.old.down ≡ false }
        requires known { IsNumberOf LinkKind (session_of self.old).store.catalog.listing
            link.now number }
        ensures ends { TestEnds (session_of self.old) (session_of self.new) (self.new.down ≡ false)
            (below_test link.now child) result }
        ensures finds { IfOk result (λ found. SaysOfLink (session_of self.old) number
            (λ state name. found ≡ above_in (chain_with (now state).contents name child))) }
        ensures calls { self.new.calls ≡ self.old.calls }
        ensures locks { self.new.locks ≡ self.old.locks }
        ensures scans { self.new.scans ≡ self.old.scans }
    {
        self.test_child(link, number, child)?;
        match self.place_of(number, child)? {
            Some(place) => Ok(place.parent),
            None => Ok(None),
        }
    }

    /// The parent of a chain is there, if there is one.
    pub(crate) fn test_parent(
        &mut self,
        link: &Name,
        number: u8,
        parent: Option<Tid>,
    ) -> Result<(), CallError>
        requires up { self.old.down ≡ false }
        requires known { IsNumberOf LinkKind (session_of self.old).store.catalog.listing
            link.now number }
        requires form { HasForm (session_of self.old).store.catalog.listing number parent }
        ensures ends { TestEnds (session_of self.old) (session_of self.new) (self.new.down ≡ false)
            (above_test link.now parent) result }
        ensures named { OnOk result (IfSome parent MayBeTold) }
        ensures calls { self.new.calls ≡ self.old.calls }
        ensures locks { self.new.locks ≡ self.old.locks }
        ensures scans { self.new.scans ≡ self.old.scans }
    {
        let Some(tid) = parent else {
            return Ok(());
        };
        let Some(relation) = self.session.store.catalog.link(number).parent else {
            unreachable!()
        };
        self.test_there(relation, tid)
    }

    /// The tuple is one of the link's child relation.
    fn test_child(&mut self, link: &Name, number: u8, child: Tid) -> Result<(), CallError>
        requires up { self.old.down ≡ false }
        requires known { IsNumberOf LinkKind (session_of self.old).store.catalog.listing
            link.now number }
        ensures ends { TestEnds (session_of self.old) (session_of self.new) (self.new.down ≡ false)
            (below_test link.now child) result }
        ensures slot { OnOk result (HasSlot child) }
        ensures calls { self.new.calls ≡ self.old.calls }
        ensures locks { self.new.locks ≡ self.old.locks }
        ensures scans { self.new.scans ≡ self.old.scans }
    {
        let relation = self.session.store.catalog.link(number).child;
        self.test_there(relation, child)
    }

    /// There is a tuple with this identifier in the relation `number`.
    fn test_there(&mut self, number: u8, tid: Tid) -> Result<(), CallError>
        requires up { self.old.down ≡ false }
        requires known { is_some (relation_at (session_of self.old).store.catalog.listing number)
            ≡ true }
        ensures ends { (relation : AnyEntry)
            → relation_at (session_of self.old).store.catalog.listing number ≡ Some relation
            → TestEnds (session_of self.old) (session_of self.new) (self.new.down ≡ false)
            (λ state. unless_live state relation.name tid) result }
        ensures slot { OnOk result (HasSlot tid) }
        ensures calls { self.new.calls ≡ self.old.calls }
        ensures locks { self.new.locks ≡ self.old.locks }
        ensures scans { self.new.scans ≡ self.old.scans }
    {
        let entry = self.session.store.catalog.relation(number);
        let (name, segment) = (entry.name, entry.segment);
        if usize::from(tid.slot) >= PAGE_ENTRIES {
            return Err(no_tuple(&name, tid));
        }
        self.down = true;
        let found = self.session.look(segment, number, tid)?;
        self.down = false;
        match found {
            Some(_) => Ok(()),
            None => Err(no_tuple(&name, tid)),
        }
    }

    /// The tuple stands in no chain of the link.
    fn test_outside(&mut self, link: &Name, number: u8, child: Tid) -> Result<(), CallError>
        requires up { self.old.down ≡ false }
        requires known { IsNumberOf LinkKind (session_of self.old).store.catalog.listing
            link.now number }
        ensures ends { TestEnds (session_of self.old) (session_of self.new) (self.new.down ≡ false)
            (if_placed link.now child) result }
        ensures calls { self.new.calls ≡ self.old.calls }
        ensures locks { self.new.locks ≡ self.old.locks }
        ensures scans { self.new.scans ≡ self.old.scans }
    {
        match self.place_of(number, child)? {
            Some(_) => Err(connected(link)),
            None => Ok(()),
        }
    }

    /// The tuple after which a spot is in the chain of a parent, if after any.
    fn find_spot(
        &mut self,
        link: &Name,
        number: u8,
        parent: Option<Tid>,
        spot: &Spot,
    ) -> Result<Option<Tid>, CallError>
        requires up { self.old.down ≡ false }
        requires known { IsNumberOf LinkKind (session_of self.old).store.catalog.listing
            link.now number }
        requires form { HasForm (session_of self.old).store.catalog.listing number parent }
        ensures ends { TestEnds (session_of self.old) (session_of self.new) (self.new.down ≡ false)
            (λ state. unless_spot state link.now parent spot.now) result }
        ensures left { IfOk result (λ left. SaysOfChain (session_of self.old) number parent
            (λ chain. left ≡ left_of spot.now chain)) }
        ensures named { IfOk result (λ left. IfSome left MayBeTold) }
        ensures calls { self.new.calls ≡ self.old.calls }
        ensures locks { self.new.locks ≡ self.old.locks }
        ensures scans { self.new.scans ≡ self.old.scans }
    {
        let segment = self.segment_below(number);
        self.down = true;
        let found = self.session.find_left(number, parent, spot)?;
        let Some(left) = found else {
            self.down = false;
            return Err(not_connected(link));
        };
        test_slot(segment, left)?;
        self.down = false;
        Ok(left)
    }

    /// Where a tuple stands in the chains of the link `number`, if it stands in one.
    pub(crate) fn place_of(
        &mut self,
        number: u8,
        child: Tid,
    ) -> Result<Option<Membership>, CallError>
        requires up { self.old.down ≡ false }
        requires known { is_some (link_at (session_of self.old).store.catalog.listing number) ≡ true }
        ensures ends { TestEnds (session_of self.old) (session_of self.new) (self.new.down ≡ false)
            passes_all result }
        ensures finds { IfOk result (FindsMembership (session_of self.old) number child) }
        ensures placed { IfOk result (λ found. IfSome found (IsPlaced child)) }
        ensures calls { self.new.calls ≡ self.old.calls }
        ensures locks { self.new.locks ≡ self.old.locks }
        ensures scans { self.new.scans ≡ self.old.scans }
    {
        let segment = self.segment_below(number);
        self.down = true;
        let found = self.session.find_place(number, child)?;
        if let Some(place) = &found {
            test_slot(segment, Some(child))?;
            test_slot(segment, place.parent)?;
            test_slot(segment, place.left)?;
        }
        self.down = false;
        Ok(found)
    }

    /// A tuple of the relation `number` stands in no chain of any link, and has none.
    pub(crate) fn test_unconnected(&mut self, number: u8, tid: Tid) -> Result<(), CallError>
        requires up { self.old.down ≡ false }
        requires known { is_some (relation_at (session_of self.old).store.catalog.listing number)
            ≡ true }
        ensures ends { (relation : AnyEntry)
            → relation_at (session_of self.old).store.catalog.listing number ≡ Some relation
            → TestEnds (session_of self.old) (session_of self.new) (self.new.down ≡ false)
            (λ state. if_connected state relation.name tid) result }
        ensures calls { self.new.calls ≡ self.old.calls }
        ensures locks { self.new.locks ≡ self.old.locks }
        ensures scans { self.new.scans ≡ self.old.scans }
    {
        self.down = true;
        let found = self.session.find_connected(number, tid)?;
        self.down = false;
        match found {
            Some(link) => Err(connected(&link)),
            None => Ok(()),
        }
    }

    /// The segment of a link's child relation.
    fn segment_below(&self, number: u8) -> u8
        requires { is_some (link_at (session_of self.now).store.catalog.listing number) ≡ true }
    {
        let catalog = &self.session.store.catalog;
        catalog.relation(catalog.link(number).child).segment
    }

    /// Takes the locks of a call that is refused for what it has found, and hands the refusal on. For any
    /// other error none are taken.
    pub(crate) fn keep(&mut self, transaction: u32, needs: Vec<Need>, why: CallError) -> CallError
        requires up { IsRefused why → self.old.down ≡ false }
        requires open { IsRefused why → is_open (session_of self.old).opened transaction ≡ true }
        requires free { first_bar (told self.old.locks).locks transaction needs.items ≡ None }
        requires room { vec_len needs ≤ (told self.old.locks).spare }
        ensures is { result ≡ why }
        ensures locks { (told self.new.locks).locks
            ≡ kept_by why transaction needs.items (told self.old.locks).locks }
        ensures session { self.new.session ≡ self.old.session }
        ensures scans { self.new.scans ≡ self.old.scans }
        ensures down { self.new.down ≡ self.old.down }
        ensures calls { self.new.calls ≡ self.old.calls }
    {
        if let CallError::Refused(_) = &why {
            self.hold(transaction, needs);
        }
        why
    }
}

/// An identifier that a page gives of a tuple, if it gives one, is such as tuples have. Only a device
/// that doesn't tell its contents gives another.
fn test_slot(segment: u8, given: Option<Tid>) -> Result<(), CallError>
    ensures fine { OnOk result (IfSome given MayBeTold) }
    ensures damaged { IfErr result (IsMisnamed segment given) }
{
    let Some(tid) = given else {
        return Ok(());
    };
    if usize::from(tid.slot) >= PAGE_ENTRIES {
        return Err(CallError::Damaged(Place::Tuple(segment, tid)));
    }
    Ok(())
}

/// The tuple stands in a chain of the link, or has one.
fn connected(link: &Name) -> CallError
    ensures is { result ≡ Refused (Connected link.now) }
    ensures short { IsShort (Err (Connected link.now)) }
{
    name_is_whole(*link);
    CallError::Refused(Refusal::Connected(*link))
}

/// The tuple doesn't stand in the chain of the link.
pub(crate) fn not_connected(link: &Name) -> CallError
    ensures is { result ≡ Refused (NotConnected link.now) }
    ensures short { IsShort (Err (NotConnected link.now)) }
{
    name_is_whole(*link);
    CallError::Refused(Refusal::NotConnected(*link))
}
