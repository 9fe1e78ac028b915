// The identifier of a new tuple.
ghost use Rattle.std.specs.Prelude.{◌≡◌, true, false, None, Ok, Err, is_some, IfOk, IfErr, OnOk, OnErr};
ghost use Rattle.rss_base.specs.Listings.{relation_at};
ghost use Rattle.rss_base.specs.declared.answer.CallError.TheVariants.{Refused};
ghost use Rattle.rss_base.specs.declared.item.Item.TheVariants.{Tuple};
ghost use Rattle.rss_base.specs.declared.refusal.LimitKind.TheVariants.{Identifiers};
ghost use Rattle.rss_base.specs.declared.refusal.Refusal.TheVariants.{Limit};
ghost use Rattle.rss_lock.specs.Locks.{is_barred};
ghost use Rattle.rss_lock.specs.Table.{told};
ghost use Rattle.rss_model.specs.Locks.{is_held_by_another};
ghost use Rattle.rss_session.specs.Looks.{LooksOn, KeepsPages, FindsPlace, HasNoPlace};
ghost use Rattle.rss_tuple.specs.Calls.{MayPut, IsBodyLength};
ghost use Rattle.rss_rsi.specs.Looking.{EndsEach};
ghost use Rattle.rss_rsi.specs.Placing.{IsPlaceFor, LooksAnyhow, PlacesTuple};

use crate::Rss;
use crate::locking::tuple_need;
use rss_base::{CallError, LimitKind, Mode, Name, Refusal, Tid};
use rss_buffer::Saving;

impl<S: Saving> Rss<S> {
    ghost use Rattle.rss_rsi.specs.Parts.{parts_of, session_of, view};

    /// The identifier that a transaction's new tuple gets in the relation `number`, with a body of
    /// this length: one that no tuple of the segment has, and none that another transaction holds.
    /// Nothing is changed, and the call that puts the tuple is refused if none is free.
    ///
    /// What others hold is asked for the identifier that is chosen, and gathered only if they hold
    /// that one. Nothing is asked if they hold nothing.
    pub(crate) fn place_for(
        &mut self,
        transaction: u32,
        number: u8,
        length: u16,
    ) -> Result<Tid, CallError>
        requires up { self.old.down ≡ false }
        requires known { is_some (relation_at (session_of self.old).store.catalog.listing number)
            ≡ true }
        requires length { IsBodyLength length }
        ensures up { OnOk result (self.new.down ≡ false) }
        ensures calls { OnOk result (self.new.calls ≡ self.old.calls) }
        ensures locks { self.new.locks ≡ self.old.locks }
        ensures scans { self.new.scans ≡ self.old.scans }
        ensures looks { IfOk result (λ tid. LooksOn (session_of self.old) (session_of self.new)
            (Ok tid)) }
        ensures place { IfOk result (IsPlaceFor (parts_of self.old) transaction number length) }
        ensures fails { IfErr result (λ why. EndsEach
            (PlacesTuple (parts_of self.old) transaction number)
            (view self.old) (view self.new) (Err why)) }
    {
        let segment = self.session.store.catalog.relation(number).segment;
        let Some(first) = self.choose(segment, length, &[])? else {
            return Err(none_free());
        };
        if self.locks.is_alone(transaction) {
            return Ok(first);
        }
        let Ok(names) = self.session.store.catalog.relations_in(self.alloc, segment) else {
            return Err(CallError::NoMemory);
        };
        if !self.is_held(transaction, &names, first) {
            return Ok(first);
        }
        let mut barred = Vec::new(self.alloc);
        let Ok(()) = self.locks.barred(transaction, &names, &mut barred) else {
            return Err(CallError::NoMemory);
        };
        match self.choose(segment, length, &barred)? {
            Some(tid) => Ok(tid),
            None => Err(none_free()),
        }
    }

    /// The identifier that a new tuple gets in a segment, with a body of this length, with these
    /// barred, if one is free.
    fn choose(&mut self, segment: u8, length: u16, barred: &[Tid]) -> Result<Option<Tid>, CallError>
        requires up { self.old.down ≡ false }
        requires may { MayPut segment length }
        ensures up { OnOk result (self.new.down ≡ false) }
        ensures down { OnErr result (self.new.down ≡ true) }
        ensures calls { self.new.calls ≡ self.old.calls }
        ensures locks { self.new.locks ≡ self.old.locks }
        ensures scans { self.new.scans ≡ self.old.scans }
        ensures looks { LooksAnyhow (session_of self.old) (session_of self.new) result }
        ensures pages { OnOk result (KeepsPages (session_of self.old) (session_of self.new)) }
        ensures finds { IfOk result (λ found.
            FindsPlace (session_of self.old) segment length barred.now found) }
        ensures none { IfOk result (λ found. found ≡ None
            → HasNoPlace (session_of self.old) segment barred.now) }
    {
        self.down = true;
        let found = self.session.choose(segment, length, barred)?;
        self.down = false;
        Ok(found)
    }

    /// Whether another transaction holds this identifier in one of these relations.
    fn is_held(&self, transaction: u32, relations: &[Name], tid: Tid) -> bool
        ensures { result ≡ is_barred (told self.now.locks).locks transaction relations.now tid }
    {
        relations
            .iter()
            .any(|relation| self.is_held_in(transaction, relation, tid))
    }

    /// Whether another transaction holds this identifier in the relation.
    fn is_held_in(&self, transaction: u32, relation: &Name, tid: Tid) -> bool
        ensures { result ≡ is_held_by_another (told self.now.locks).locks transaction
            (Tuple relation.now tid) }
    {
        // X disagrees with every mode.
        let need = tuple_need(relation, tid, Mode::X);
        self.locks.check(transaction, &[need]).is_some()
    }
}

/// No identifier is free.
fn none_free() -> CallError
    ensures { result ≡ Refused (Limit Identifiers) }
{
    CallError::Refused(Refusal::Limit(LimitKind::Identifiers))
}
