// What the calls on a tuple that is there begin with.
ghost use Rattle.std.specs.Prelude.{◌≡◌, true, false, Some, None, Err, is_some, option_copied, option_to_list, IfOk, IfErr, IfSome, OnOk, IsErrOf};
ghost use Rattle.rss_base.specs.Listings.{IsNumberOf, relation_at};
ghost use Rattle.rss_base.specs.declared.answer.CallError.TheVariants.{Refused, NoMemory};
ghost use Rattle.rss_base.specs.declared.place.Place.TheVariants.{Tuple as TuplePlace};
ghost use Rattle.rss_base.specs.declared.refusal.Kind.TheVariants.{Relation as RelationKind};
ghost use Rattle.rss_base.specs.declared.refusal.Refusal.TheVariants.{NoTuple};
ghost use Rattle.rss_model.specs.ReplyText.{IsShort};
ghost use Rattle.rss_trans.specs.Transactions.{is_open};
ghost use Rattle.rss_rsi.specs.Locking.{MayBeOf};
ghost use Rattle.rss_base.specs.TupleTypes.{kinds};
ghost use Rattle.rss_base.specs.declared.relation.RelationEntry.{RelationEntry as AnyEntry};
ghost use Rattle.rss_session.specs.Looks.{CostsNothing};
ghost use Rattle.rss_tuple.specs.Located.{IsInMemory};
ghost use Rattle.rss_rsi.specs.Looking.{MayLook, LooksFor, LooksUp, FindsHeld, FindsAny, EndsEach, CostsTwo};
ghost use Rattle.rss_rsi.specs.Bodies.{StandsThere, ComesOf, TupleComes, IsDownBy};

use crate::Rss;
use crate::locking::Access;
use rss_access::{made_into, spelled_in};
use rss_base::{CallError, Name, Need, PAGE_ENTRIES, Place, Refusal, Tid, Tuple, name_is_whole};
use rss_buffer::Saving;
use rss_catalog::Catalog;
use rss_tuple::BodyAt;
use std::alloc::Global;

/// A tuple, and the locks that the call needs that looks for it.
#[derive(Drop)]
pub(crate) struct Found {
    pub(crate) tuple: Tuple,
    pub(crate) needs: Vec<Need>,
}

impl<S: Saving> Rss<S> {
    ghost use Rattle.rss_rsi.specs.Parts.{parts_of, session_of, view};

    /// The tuple with this identifier of a relation, whose number is `number`, with the locks that
    /// the call needs, which are claimed. The call gives it the values of `to`, if it gives it any.
    /// No tuple is changed. The call that looks for it is refused if another transaction holds what
    /// it needs, and then if there is no such tuple; that refusal keeps the locks. The tuple gets
    /// the memory of `row`, whose values go.
    pub(crate) fn find(
        &mut self,
        transaction: u32,
        number: u8,
        relation: &Name,
        tid: Tid,
        access: Access,
        to: Option<&Tuple>,
        row: Tuple,
    ) -> Result<Found, CallError>
        requires up { self.old.down ≡ false }
        requires open { is_open (session_of self.old).opened transaction ≡ true }
        requires known { IsNumberOf RelationKind
            (session_of self.old).store.catalog.listing relation.now number }
        requires to { IfSome (option_copied to)
            (MayBeOf (session_of self.old).store.catalog.listing number) }
        ensures up { OnOk result (self.new.down ≡ false) }
        ensures calls { OnOk result (self.new.calls ≡ self.old.calls) }
        ensures finds { IfOk result (λ found. FindsHeld (parts_of self.old) (parts_of self.new)
            transaction number relation.now tid access (option_to_list (option_copied to.entry))
            found.tuple found.needs.items) }
        ensures scans { OnOk result (self.new.scans ≡ self.old.scans) }
        ensures fails { IfErr result (λ why. EndsEach
            (LooksFor (parts_of self.old) transaction relation.now tid access
            (option_to_list (option_copied to.entry)))
            (view self.old) (view self.new) (Err why)) }
    {
        let found = self.look_up(number, tid, row)?;
        let Ok(needs) = self.tuple_needs(number, relation, tid, access, &found, to) else {
            return Err(CallError::NoMemory);
        };
        let needs = self.claim(transaction, needs)?;
        match found {
            Some(tuple) => Ok(Found { tuple, needs }),
            None => {
                self.hold(transaction, needs);
                Err(no_tuple(relation, tid))
            }
        }
    }

    /// The tuple with this identifier of the relation `number`, if there is one, in the memory of
    /// `row`. Nothing is changed.
    fn look_up(&mut self, number: u8, tid: Tid, row: Tuple) -> Result<Option<Tuple>, CallError>
        requires up { self.old.down ≡ false }
        requires known { is_some (relation_at (session_of self.old).store.catalog.listing number)
            ≡ true }
        ensures up { OnOk result (self.new.down ≡ false) }
        ensures calls { OnOk result (self.new.calls ≡ self.old.calls) }
        ensures locks { self.new.locks ≡ self.old.locks }
        ensures scans { self.new.scans ≡ self.old.scans }
        ensures looks { IfOk result (LooksUp (session_of self.old) (session_of self.new)) }
        ensures finds { IfOk result (FindsAny (parts_of self.old) number tid) }
        ensures fails { IfErr result (λ why. EndsEach MayLook (view self.old) (view self.new)
            (Err why)) }
    {
        if usize::from(tid.slot) >= PAGE_ENTRIES {
            return Ok(None);
        }
        let segment = self.session.store.catalog.relation(number).segment;
        self.down = true;
        let found = self.session.look(segment, number, tid)?;
        self.down = false;
        let Some(at) = found else {
            return Ok(None);
        };
        let tuple = self.tuple_at(number, segment, tid, at, row)?;
        Ok(Some(tuple))
    }

    /// Where the body of the tuple with this identifier stands, which the relation `number` has, in
    /// this segment. It takes no memory. Its one error beside those of the pages is damage at the
    /// tuple, if there is none: only a device that doesn't tell its contents lacks it.
    pub(crate) fn there(&mut self, number: u8, segment: u8, tid: Tid) -> Result<BodyAt, CallError>
        requires up { self.old.down ≡ false }
        ensures calls { self.new.calls ≡ self.old.calls }
        ensures locks { self.new.locks ≡ self.old.locks }
        ensures scans { self.new.scans ≡ self.old.scans }
        ensures ends { StandsThere (session_of self.old) (session_of self.new)
            (self.new.down ≡ false) segment number tid result }
        ensures memory { IsErrOf result NoMemory → ⊥ }
        ensures costs { CostsTwo (session_of self.old) (session_of self.new) }
        ensures idle { CostsNothing (session_of self.old) (session_of self.new) }
    {
        self.down = true;
        let Some(at) = self.session.look(segment, number, tid)? else {
            return Err(CallError::Damaged(Place::Tuple(segment, tid)));
        };
        self.down = false;
        Ok(at)
    }

    /// The tuple of the relation `number`, in this segment, whose body stands there, in the memory
    /// of `row`. It touches no page.
    pub(crate) fn tuple_at(
        &mut self,
        number: u8,
        segment: u8,
        tid: Tid,
        at: BodyAt,
        row: Tuple,
    ) -> Result<Tuple, CallError>
        requires up { self.old.down ≡ false }
        requires known { is_some (relation_at (session_of self.old).store.catalog.listing number)
            ≡ true }
        requires there { IsInMemory (session_of self.old).store.pages at }
        ensures session { self.new.session ≡ self.old.session }
        ensures calls { self.new.calls ≡ self.old.calls }
        ensures locks { self.new.locks ≡ self.old.locks }
        ensures scans { self.new.scans ≡ self.old.scans }
        ensures comes { (relation : AnyEntry)
            → relation_at (session_of self.old).store.catalog.listing number ≡ Some relation
            → TupleComes (session_of self.old) number relation (TuplePlace segment tid) at result }
        ensures ends { IsDownBy result self.new.down }
    {
        let read = self.read_at(number, segment, tid, at, row);
        self.down = is_damage(&read);
        read
    }

    /// The same, but nothing is said of whether the engine goes down.
    fn read_at(
        &self,
        number: u8,
        segment: u8,
        tid: Tid,
        at: BodyAt,
        row: Tuple,
    ) -> Result<Tuple, CallError>
        requires known { is_some (relation_at (session_of self.now).store.catalog.listing number)
            ≡ true }
        requires there { IsInMemory (session_of self.now).store.pages at }
        ensures { (relation : AnyEntry)
            → relation_at (session_of self.now).store.catalog.listing number ≡ Some relation
            → TupleComes (session_of self.now) number relation (TuplePlace segment tid) at result }
    {
        let catalog = &self.session.store.catalog;
        let body = self.session.body(at);
        tuple_in(self.alloc, catalog, number, segment, tid, body, row)
    }
}

/// The tuple of the relation `number`, in this segment, that a body is of, in the memory of `row`.
/// If it is of none, that is damage at the tuple: only a device that doesn't tell its contents has
/// such a body.
fn tuple_in(
    alloc: Global,
    catalog: &Catalog,
    number: u8,
    segment: u8,
    tid: Tid,
    body: &[u8],
    mut row: Tuple,
) -> Result<Tuple, CallError>
    requires { is_some (relation_at catalog.now.listing number) ≡ true }
    ensures { (relation : AnyEntry) → relation_at catalog.now.listing number ≡ Some relation
        → ComesOf catalog.now.listing number (kinds relation.fields) (TuplePlace segment tid)
        body.now result }
{
    let fields = catalog.relation(number).fields.as_slice();
    let Some(bytes) = spelled_in(catalog, number, fields, body) else {
        return Err(CallError::Damaged(Place::Tuple(segment, tid)));
    };
    match made_into(alloc, fields, bytes, &mut row) {
        Ok(()) => Ok(row),
        Err(_) => Err(CallError::NoMemory),
    }
}

/// Whether a tuple isn't read since something is damaged.
fn is_damage(read: &Result<Tuple, CallError>) -> bool
    ensures { IsDownBy read.now result }
{
    match read {
        Ok(_) => false,
        Err(why) => match why {
            CallError::Damaged(_) => true,
            CallError::Refused(_) | CallError::Device | CallError::NoMemory | CallError::Down => {
                false
            }
        },
    }
}

/// No tuple of the relation has this identifier.
pub(crate) fn no_tuple(relation: &Name, tid: Tid) -> CallError
    ensures is { result ≡ Refused (NoTuple relation.now tid) }
    ensures short { IsShort (Err (NoTuple relation.now tid)) }
{
    name_is_whole(*relation);
    CallError::Refused(Refusal::NoTuple(*relation, tid))
}
