// Scans.
ghost use Rattle.std.specs.Prelude.{◌≡◌, ◌<◌, [], true, false, Some, None, Err, is_some, option_map, IsSome, IfOk, IfErr, OnOk, OnErr};
ghost use Rattle.std.specs.Prelude.{IsErrOf};
ghost use Rattle.rss_base.specs.Listings.{IsNumberOf, relation_at};
ghost use Rattle.rss_base.specs.declared.answer.CallError.TheVariants.{Refused, NoMemory};
ghost use Rattle.rss_base.specs.declared.call.Call.TheVariants.{OpenRelation, OpenImage, Next, CloseScan};
ghost use Rattle.rss_base.specs.declared.refusal.Kind.TheVariants.{Scan as ScanKind, Link as LinkKind};
ghost use Rattle.rss_base.specs.declared.refusal.Refusal.TheVariants.{NoSuch};
ghost use Rattle.rss_members.specs.Calls.{HasForm};
ghost use Rattle.rss_stored.specs.Calls.{calls_most};
ghost use Rattle.rss_rsi.specs.Looking.{EndsEach};
ghost use Rattle.rss_rsi.specs.Placing.{MayCost};
ghost use Rattle.rss_rsi.specs.Linking.{TestEnds};
ghost use Rattle.rss_rsi.specs.Replies.{as_row};
ghost use Rattle.rss_rsi.specs.Scanning.{FindsBehind, FindsMember, LooksBehind, FindsNext, GoesAlongImage, IsNextOf, ReadEnds, CostsLevels, lost_test};
ghost use Rattle.rss_scan.specs.Scans.{cursor_of};
ghost use Rattle.rss_session.specs.Looks.{CostsNothing};

use crate::Rss;
use crate::linked::not_connected;
use rss_base::{
    CallError, Key, Kind, LimitKind, Mode, Name, Refusal, Reply, Tid, Tuple, tid_is_spelled,
};
use rss_buffer::Saving;
use rss_scan::{Cursor, Path};
use std::mem::replace;

impl<S: Saving> Rss<S> {
    ghost use Rattle.rss_stored.specs.Calls.{IsCallOf};
    ghost use Rattle.rss_rsi.specs.Parts.{parts_of, session_of, view};

    /// Opens a scan of a relation, and answers its number: the least that isn't in use. The relation is
    /// locked for reading until the transaction ends, and the scan ends with it.
    pub fn open_relation(&mut self, transaction: u32, relation: &Name) -> Result<Reply, CallError>
        requires few { (view self.old).calls < calls_most }
        ensures did { IsCallOf (view self.old) (view self.new)
            (OpenRelation transaction relation.now) result }
        ensures untouched { ((view self.old).is_up → ⊥) → self.new ≡ self.old }
    {
        self.ask()?;
        let number = self.session.admit(transaction, relation)?;
        if self.scans.is_full() {
            return Err(CallError::Refused(Refusal::Limit(LimitKind::Scans)));
        }
        let Ok(needs) = self.relation_needs(number, relation, Mode::IS, Mode::S) else {
            return Err(CallError::NoMemory);
        };
        let needs = self.claim(transaction, needs)?;
        self.hold(transaction, needs);
        let Some(scan) = self.scans.add(transaction, Path::Relation(*relation)) else {
            unreachable!()
        };
        Ok(Reply::Number(scan))
    }

    /// Opens a scan of an image, from the first key on that is not below this one, or from the least,
    /// and answers its number: the least that isn't in use. The relation of the image is locked for
    /// reading until the transaction ends, and the scan ends with it.
    pub fn open_image(
        &mut self,
        transaction: u32,
        image: &Name,
        from: &Option<Tuple>,
    ) -> Result<Reply, CallError>
        requires few { (view self.old).calls < calls_most }
        ensures did { IsCallOf (view self.old) (view self.new)
            (OpenImage transaction image.now from.now) result }
        ensures untouched { ((view self.old).is_up → ⊥) → self.new ≡ self.old }
    {
        self.ask()?;
        let number = self.session.admit_image(transaction, image, from)?;
        if self.scans.is_full() {
            return Err(CallError::Refused(Refusal::Limit(LimitKind::Scans)));
        }
        let Ok(needs) = self.image_needs(number) else {
            return Err(CallError::NoMemory);
        };
        let needs = self.claim(transaction, needs)?;
        self.hold(transaction, needs);
        let start = self.session.start_key(number, from);
        let Some(scan) = self.scans.add(transaction, Path::Image(*image, start)) else {
            unreachable!()
        };
        Ok(Reply::Number(scan))
    }

    /// Gives the next tuple of a scan with its identifier, or tells that there is none, in the
    /// tables as they are now. Of a relation it is the tuple with the least identifier above the
    /// one that was given last. Of an image it is that of the next entry, and of a link the one
    /// right after it in the chain. It is refused if the tuple that was given last is in that chain
    /// no more. It locks nothing more. If all pages are in memory, the device is asked for nothing,
    /// and they stay there.
    pub fn next(&mut self, transaction: u32, scan: u32) -> Result<Reply, CallError>
        requires few { (view self.old).calls < calls_most }
        ensures did { IsCallOf (view self.old) (view self.new) (Next transaction scan) result }
        ensures untouched { ((view self.old).is_up → ⊥) → self.new ≡ self.old }
        ensures costs { CostsLevels (parts_of self.old) (parts_of self.new) transaction scan }
        ensures idle { CostsNothing (session_of self.old) (session_of self.new) }
    {
        let mut row = Tuple::new(self.alloc);
        match self.next_into(transaction, scan, &mut row)? {
            Some(tid) => Ok(Reply::Row(tid, row)),
            None => Ok(Reply::End),
        }
    }

    /// As `next`, with the tuple in the memory of `row`, whose values go. If no tuple is given, `row`
    /// is left with no values.
    pub fn next_into(
        &mut self,
        transaction: u32,
        scan: u32,
        row: &mut Tuple,
    ) -> Result<Option<Tid>, CallError>
        requires few { (view self.old).calls < calls_most }
        ensures did { IsCallOf (view self.old) (view self.new) (Next transaction scan)
            (as_row result row.new) }
        ensures untouched { ((view self.old).is_up → ⊥) → self.new ≡ self.old }
        ensures end { IfOk result (λ found. found ≡ None → row.new ≡ []) }
        ensures fails { OnErr result (row.new ≡ []) }
        ensures costs { CostsLevels (parts_of self.old) (parts_of self.new) transaction scan }
        ensures idle { CostsNothing (session_of self.old) (session_of self.new) }
    {
        let old = replace(row, Tuple::new(self.alloc));
        self.ask()?;
        self.session.test_open(transaction)?;
        if self.scans.get(transaction, scan).is_none() {
            return Err(no_scan());
        }
        match self.find_next(transaction, scan, old)? {
            Some((key, tid, tuple)) => {
                self.scans.gave(scan, &key, tid);
                *row = tuple;
                Ok(Some(tid))
            }
            None => Ok(None),
        }
    }

    /// Closes a scan.
    pub fn close_scan(&mut self, transaction: u32, scan: u32) -> Result<Reply, CallError>
        requires few { (view self.old).calls < calls_most }
        ensures did { IsCallOf (view self.old) (view self.new) (CloseScan transaction scan) result }
        ensures untouched { ((view self.old).is_up → ⊥) → self.new ≡ self.old }
        ensures memory { IsErrOf result NoMemory → ⊥ }
    {
        self.ask()?;
        self.session.test_open(transaction)?;
        if self.scans.get(transaction, scan).is_none() {
            return Err(no_scan());
        }
        self.scans.close(scan);
        Ok(Reply::Ok)
    }

    /// What a scan of a transaction gives next, with its key; the tuple in the memory of `row`. Nothing is
    /// changed.
    fn find_next(
        &mut self,
        transaction: u32,
        scan: u32,
        row: Tuple,
    ) -> Result<Option<(Key, Tid, Tuple)>, CallError>
        requires up { self.old.down ≡ false }
        requires there { IsSome (cursor_of (parts_of self.old).scans transaction scan) }
        ensures up { OnOk result (self.new.down ≡ false) }
        ensures calls { OnOk result (self.new.calls ≡ self.old.calls) }
        ensures locks { self.new.locks ≡ self.old.locks }
        ensures scans { self.new.scans ≡ self.old.scans }
        ensures looks { IfOk result (LooksBehind (session_of self.old) (session_of self.new)) }
        ensures finds { IfOk result (FindsNext (parts_of self.old) transaction scan) }
        ensures fails { IfErr result (λ why. EndsEach (IsNextOf (parts_of self.old) transaction scan)
            (view self.old) (view self.new) (Err why)) }
        ensures costs { CostsLevels (parts_of self.old) (parts_of self.new) transaction scan }
        ensures idle { CostsNothing (session_of self.old) (session_of self.new) }
    {
        let Some(cursor) = self.scans.get(transaction, scan) else {
            unreachable!()
        };
        match &cursor.path {
            Path::Relation(relation) => {
                let after = last_of(cursor);
                // A relation that isn't there has no tuples.
                let Some(number) = self.session.store.catalog.find(Kind::Relation, relation) else {
                    return Ok(None);
                };
                match self.find_behind(number, after, row)? {
                    Some((tid, tuple)) => Ok(Some((Key::new(), tid, tuple))),
                    None => Ok(None),
                }
            }
            Path::Image(image, _) => {
                // An image that isn't there has no entries.
                let Some(number) = self.session.store.catalog.find(Kind::Image, image) else {
                    return Ok(None);
                };
                self.find_entry(transaction, scan, number, row)
            }
            Path::Link(link, parent) => {
                let (link, parent) = (*link, *parent);
                let after = last_of(cursor);
                // A scan goes along links that are there alone.
                let Some(number) = self.session.store.catalog.find(Kind::Link, &link) else {
                    unreachable!()
                };
                match self.find_member(&link, number, parent, after, row)? {
                    Some((tid, tuple)) => Ok(Some((Key::new(), tid, tuple))),
                    None => Ok(None),
                }
            }
        }
    }

    /// The next entry of a scan that goes along the image `number`, with its tuple in the memory of
    /// `row`. Nothing is changed.
    fn find_entry(
        &mut self,
        transaction: u32,
        scan: u32,
        number: u8,
        row: Tuple,
    ) -> Result<Option<(Key, Tid, Tuple)>, CallError>
        requires up { self.old.down ≡ false }
        requires along { GoesAlongImage (parts_of self.old) transaction scan number }
        ensures up { OnOk result (self.new.down ≡ false) }
        ensures calls { OnOk result (self.new.calls ≡ self.old.calls) }
        ensures locks { self.new.locks ≡ self.old.locks }
        ensures scans { self.new.scans ≡ self.old.scans }
        ensures looks { IfOk result (LooksBehind (session_of self.old) (session_of self.new)) }
        ensures finds { IfOk result (FindsNext (parts_of self.old) transaction scan) }
        ensures fails { IfErr result (λ why. EndsEach MayCost (view self.old) (view self.new)
            (Err why)) }
        ensures costs { CostsLevels (parts_of self.old) (parts_of self.new) transaction scan }
        ensures idle { CostsNothing (session_of self.old) (session_of self.new) }
    {
        let Some(cursor) = self.scans.get(transaction, scan) else {
            unreachable!()
        };
        let Path::Image(_, start) = &cursor.path else {
            unreachable!()
        };
        self.down = true;
        let found = self.session.next_entry(number, start, &cursor.last)?;
        self.down = false;
        let Some((key, tid)) = found else {
            return Ok(None);
        };
        tid_is_spelled(Some(tid));
        let relation = self.session.store.catalog.image(number).relation;
        let segment = self.session.store.catalog.relation(relation).segment;
        let at = self.there(relation, segment, tid)?;
        let tuple = self.tuple_at(relation, segment, tid, at, row)?;
        Ok(Some((key, tid, tuple)))
    }

    /// The tuple right after this one in the chain of a parent, or the first of all, if there is
    /// one, in the memory of `row`. Nothing is changed. The call that looks for it is refused if
    /// that one isn't in the chain.
    fn find_member(
        &mut self,
        link: &Name,
        number: u8,
        parent: Option<Tid>,
        after: Option<Tid>,
        row: Tuple,
    ) -> Result<Option<(Tid, Tuple)>, CallError>
        requires up { self.old.down ≡ false }
        requires known { IsNumberOf LinkKind (session_of self.old).store.catalog.listing
            link.now number }
        requires form { HasForm (session_of self.old).store.catalog.listing number parent }
        ensures calls { self.new.calls ≡ self.old.calls }
        ensures locks { self.new.locks ≡ self.old.locks }
        ensures scans { self.new.scans ≡ self.old.scans }
        ensures ends { TestEnds (session_of self.old) (session_of self.new) (self.new.down ≡ false)
            (lost_test link.now parent after) result }
        ensures finds { IfOk result (FindsMember (session_of self.old) link.now parent after) }
        ensures idle { CostsNothing (session_of self.old) (session_of self.new) }
    {
        self.down = true;
        let found = self.session.next_member(number, parent, after)?;
        self.down = false;
        let Some(next) = found else {
            return Err(not_connected(link));
        };
        let Some(tid) = next else {
            return Ok(None);
        };
        let relation = self.session.store.catalog.link(number).child;
        let tuple = self.read(relation, tid, row)?;
        Ok(Some((tid, tuple)))
    }

    /// The tuple with this identifier of the relation `number`, which has one, in the memory of
    /// `row`.
    fn read(&mut self, number: u8, tid: Tid, row: Tuple) -> Result<Tuple, CallError>
        requires up { self.old.down ≡ false }
        requires known { is_some (relation_at (session_of self.old).store.catalog.listing number)
            ≡ true }
        ensures calls { self.new.calls ≡ self.old.calls }
        ensures locks { self.new.locks ≡ self.old.locks }
        ensures scans { self.new.scans ≡ self.old.scans }
        ensures ends { ReadEnds (session_of self.old) (session_of self.new) (self.new.down ≡ false)
            number tid result }
        ensures idle { CostsNothing (session_of self.old) (session_of self.new) }
    {
        let segment = self.session.store.catalog.relation(number).segment;
        let at = self.there(number, segment, tid)?;
        self.tuple_at(number, segment, tid, at, row)
    }

    /// The tuple of the relation `number` with the least identifier after this one, or the least of
    /// all, if there is one, in the memory of `row`. Nothing is changed.
    fn find_behind(
        &mut self,
        number: u8,
        after: Option<Tid>,
        row: Tuple,
    ) -> Result<Option<(Tid, Tuple)>, CallError>
        requires up { self.old.down ≡ false }
        requires known { is_some (relation_at (session_of self.old).store.catalog.listing number)
            ≡ true }
        ensures up { OnOk result (self.new.down ≡ false) }
        ensures calls { OnOk result (self.new.calls ≡ self.old.calls) }
        ensures locks { self.new.locks ≡ self.old.locks }
        ensures scans { self.new.scans ≡ self.old.scans }
        ensures looks { IfOk result (LooksBehind (session_of self.old) (session_of self.new)) }
        ensures finds { IfOk result (FindsBehind (parts_of self.old) number after) }
        ensures fails { IfErr result (λ why. EndsEach MayCost (view self.old) (view self.new)
            (Err why)) }
        ensures idle { CostsNothing (session_of self.old) (session_of self.new) }
    {
        let segment = self.session.store.catalog.relation(number).segment;
        self.down = true;
        let found = self.session.next_tuple(segment, number, after)?;
        self.down = false;
        let Some((tid, at)) = found else {
            return Ok(None);
        };
        tid_is_spelled(Some(tid));
        let tuple = self.tuple_at(number, segment, tid, at, row)?;
        Ok(Some((tid, tuple)))
    }
}

/// The identifier that a scan gave last, if it gave any.
fn last_of(cursor: &Cursor) -> Option<Tid>
    ensures { result ≡ option_map (λ given. given.1) cursor.now.last }
{
    match &cursor.last {
        Some((_, tid)) => Some(*tid),
        None => None,
    }
}

/// The transaction has no such scan.
fn no_scan() -> CallError
    ensures { result ≡ Refused (NoSuch ScanKind) }
{
    CallError::Refused(Refusal::NoSuch(Kind::Scan))
}
