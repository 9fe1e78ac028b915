// A store that is open.
ghost use Rattle.std.proofs.Props.{props};
ghost use Rattle.rss_tuple.proofs.Props.{AreHeaps-prop};
ghost use Rattle.std.specs.Prelude.{◌≡◌, ◌+◌, ◌<◌, false, true, IfErr, OnOk};
ghost use Rattle.rss_base.specs.declared.answer.CallError.TheVariants.{Down};
ghost use Rattle.std.specs.FinMap.{empty};
ghost use Rattle.rss_lock.specs.Table.{told};
ghost use Rattle.rss_scan.specs.Scans.{told as scans_told};
ghost use Rattle.rss_stored.specs.Calls.{calls_most};
ghost use Rattle.rss_session.proofs.Props.{AreRising-prop};
ghost use Rattle.rss_session.specs.Parts.{view as session_view};
ghost use Rattle.rss_rsi.specs.RsiLaws.{AreLong-prop};
ghost use Rattle.rss_rsi.specs.Views.{IsReady};

use rss_base::{Call, CallError, Reply};
use rss_buffer::Saving;
use rss_lock::Locks;
use rss_scan::Scans;
use rss_session::Session;
use rss_stored::Engine;
use std::alloc::Global;

/// A store that is open: its tables and its log, with the transactions that are open in it, the
/// locks that they hold, and their scans.
///
/// A transaction's changes go to the pages and to the log in memory at once, and are committed when
/// it ends. Up to 32 are open at a time, and their calls come in any order: a call whose item
/// another transaction holds is refused.
///
/// Each call has a method of its own, which answers as `Engine` says. While a call changes pages
/// the store counts as down, and so it stays if the call fails.
pub struct Rss<S: Saving> {
    pub(crate) session: Session<S>,
    /// What its transactions hold.
    pub(crate) locks: Locks,
    /// Their open scans.
    pub(crate) scans: Scans,
    /// How many calls it was asked for while it was up.
    pub(crate) calls: u32,
    /// A call has met a fault, or is changing pages.
    pub(crate) down: bool,
    pub(crate) alloc: Global,
    ghost ready: { down ≡ false
        → IsReady (record {
          session = session_view S.view session;
          locks = told locks;
          scans = scans_told scans;
        }) calls } by { Prim.hlevel (props, AreHeaps-prop, AreRising-prop, AreLong-prop) },
}

impl<S: Saving> Rss<S> {
    ghost use Rattle.rss_rsi.specs.Parts.{parts_of};

    /// The store of a session in which no transaction is open. It is up, and was asked for no call.
    pub(crate) fn new(alloc: Global, session: Session<S>, scans: Scans) -> Self
        requires ready { IsReady (record {
          session = session_view S.view session;
          locks = record { locks = empty; spare = 0 };
          scans = empty;
        }) 0 }
        requires none_scanned { scans_told scans ≡ empty }
        ensures session { result.session ≡ session }
        ensures none_locked { (told result.locks).locks ≡ empty }
        ensures none_scanned { scans_told result.scans ≡ empty }
        ensures calls { result.calls ≡ 0 }
        ensures up { result.down ≡ false }
    {
        Rss {
            session,
            locks: Locks::new(alloc),
            scans,
            calls: 0,
            down: false,
            alloc,
        }
    }

    /// Whether the store answers calls. If so, the call is counted.
    pub(crate) fn ask(&mut self) -> Result<(), CallError>
        requires few { self.old.calls < calls_most }
        ensures up { OnOk result (self.new.down ≡ false) }
        ensures counted { OnOk result (self.new.calls ≡ self.old.calls + 1) }
        ensures session { self.new.session ≡ self.old.session }
        ensures locks { self.new.locks ≡ self.old.locks }
        ensures scans { self.new.scans ≡ self.old.scans }
        ensures ready { OnOk result (IsReady (parts_of self.new) self.old.calls) }
        ensures was_up { OnOk result (self.old.down ≡ false) }
        ensures down { IfErr result (λ why. (why ≡ Down) × (self.old.down ≡ true)
            × (self.new ≡ self.old)) }
    {
        if self.down {
            return Err(CallError::Down);
        }
        self.calls += 1;
        Ok(())
    }
}

impl<S: Saving> Engine for Rss<S> {
    ghost use Rattle.rss_rsi.specs.Parts.{pages_below, view};
    ghost use Rattle.rss_rsi.specs.RsiLaws.{opens_shown};

    ghost view = { λ e. view e };

    ghost opens = { λ e up told state shown. opens_shown shown
        (S.stays (pages_below e) (e.ready up).session.store.settled_now told) };

    fn call(&mut self, call: &Call) -> Result<Reply, CallError> {
        match call {
            Call::Begin(transaction) => self.begin(*transaction),
            Call::Save(transaction) => self.save(*transaction),
            Call::Restore(transaction, save) => self.restore(*transaction, *save),
            Call::End(transaction) => self.end(*transaction),
            Call::Abort(transaction) => self.abort(*transaction),
            Call::Insert(transaction, relation, tuple) => {
                self.insert(*transaction, relation, tuple)
            }
            Call::Fetch(transaction, relation, tid) => self.fetch(*transaction, relation, *tid),
            Call::Update(transaction, relation, tid, tuple) => {
                self.update(*transaction, relation, *tid, tuple)
            }
            Call::Delete(transaction, relation, tid) => self.delete(*transaction, relation, *tid),
            Call::Connect(transaction, link, child, parent, spot) => {
                self.connect(*transaction, link, *child, *parent, spot)
            }
            Call::Disconnect(transaction, link, child) => {
                self.disconnect(*transaction, link, *child)
            }
            Call::Parent(transaction, link, child) => self.parent(*transaction, link, *child),
            Call::OpenRelation(transaction, relation) => self.open_relation(*transaction, relation),
            Call::OpenImage(transaction, image, from) => self.open_image(*transaction, image, from),
            Call::OpenLink(transaction, link, parent) => {
                self.open_link(*transaction, link, *parent)
            }
            Call::Next(transaction, scan) => self.next(*transaction, *scan),
            Call::CloseScan(transaction, scan) => self.close_scan(*transaction, *scan),
            Call::Lock(transaction, item, exclusive) => self.lock(*transaction, item, *exclusive),
            Call::Checkpoint => self.checkpoint(),
            Call::MakeSegment(name) => self.make_segment(name),
            Call::MakeRelation(name, segment, fields) => self.make_relation(name, segment, fields),
            Call::MakeImage(name, relation, is_unique, fields) => {
                self.make_image(name, relation, *is_unique, fields.as_slice())
            }
            Call::MakeLink(name, parent, child) => self.make_link(name, parent, child),
            Call::DropSegment(name) => self.drop_segment(name),
            Call::DropRelation(name) => self.drop_relation(name),
            Call::DropImage(name) => self.drop_image(name),
            Call::DropLink(name) => self.drop_link(name),
        }
    }

    fn calls(&self) -> u32 {
        self.calls
    }
}
