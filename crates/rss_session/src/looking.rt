// Looks at tuples.
ghost use Rattle.std.specs.Prelude.{◌≡◌, ◌+◌, ◌*◌, ◌≤◌, true, is_some, None, Some, IfOk, IfSome};
ghost use Rattle.rss_base.specs.DiskRule.{IsTold};
ghost use Rattle.rss_base.specs.Listings.{relation_at};
ghost use Rattle.rss_base.specs.Runs.{run_pages};
ghost use Rattle.rss_base.specs.declared.relation.RelationEntry.{RelationEntry as AnyEntry};
ghost use Rattle.rss_session.specs.Sessions.{IsReady};
ghost use Rattle.rss_session.specs.Looks.{LooksOn, CostsNothing, KeepsPages, FindsTupleAt, FindsNextTupleAt, FindsPlace, HasNoPlace};
ghost use Rattle.rss_tuple.specs.Located.{body_there, IsInMemory};
ghost use Rattle.rss_tuple.specs.Calls.{IsSegment, MayPut};

use crate::Session;
use rss_access::{find, find_next};
use rss_base::{PageFault, Tid};
use rss_buffer::Saving;
use rss_tuple::{BodyAt, Tuples};

impl<S: Saving> Session<S> {
    ghost use Rattle.rss_session.specs.Parts.{view};

    /// Where the body of the tuple with this identifier stands, if that is one of the relation
    /// `number`, which stands in this segment. It asks for two pages at most, which may drive out
    /// as many, each with a run of pages.
    pub fn look(&mut self, segment: u8, number: u8, tid: Tid) -> Result<Option<BodyAt>, PageFault>
        requires { IsReady (view S.view self.old) }
        ensures looks { LooksOn (view S.view self.old) (view S.view self.new) result }
        ensures idle { CostsNothing (view S.view self.old) (view S.view self.new) }
        ensures costs { ((view S.view self.new).store.pages.asks
            ≤ (view S.view self.old).store.pages.asks + 2)
            × ((view S.view self.new).store.pages.writes
            ≤ (view S.view self.old).store.pages.writes + run_pages * 2) }
        ensures finds { IfOk result (λ found. IsTold (view S.view self.old).store.pages.disk
            → FindsTupleAt (view S.view self.old) segment number tid
            (view S.view self.new).store.pages.held found) }
        ensures there { IfOk result (λ found.
            IfSome found (IsInMemory (view S.view self.new).store.pages)) }
    {
        find(&mut self.store.tuples, segment, number, tid)
    }

    /// The least identifier after this one, or the least of all, that a tuple of the relation
    /// `number` has, which stands in this segment; and the place of the tuple's body.
    pub fn next_tuple(
        &mut self,
        segment: u8,
        number: u8,
        after: Option<Tid>,
    ) -> Result<Option<(Tid, BodyAt)>, PageFault>
        requires ready { IsReady (view S.view self.old) }
        requires segment { IsSegment segment }
        ensures looks { LooksOn (view S.view self.old) (view S.view self.new) result }
        ensures idle { CostsNothing (view S.view self.old) (view S.view self.new) }
        ensures finds { IfOk result (λ found. IsTold (view S.view self.old).store.pages.disk
            → FindsNextTupleAt (view S.view self.old) segment number after
            (view S.view self.new).store.pages.held found) }
        ensures there { IfOk result (λ found.
            IfSome found (λ next. IsInMemory (view S.view self.new).store.pages next.1)) }
    {
        find_next(&mut self.store.tuples, segment, number, after)
    }

    /// Lends the bytes of a body, without a copy of them.
    pub fn body(&self, at: BodyAt) -> &[u8]
        requires { IsInMemory (view S.view self.now).store.pages at }
        ensures { IsTold (view S.view self.now).store.pages.disk
            → body_there (view S.view self.now).store.pages.held at ≡ Some result.now }
    {
        self.store.tuples.body(at)
    }

    /// The identifier that a new tuple gets in a segment, with a body of this length: one that no tuple
    /// of the segment has and that isn't barred, if there is one.
    pub fn choose(
        &mut self,
        segment: u8,
        length: u16,
        barred: &[Tid],
    ) -> Result<Option<Tid>, PageFault>
        requires ready { IsReady (view S.view self.old) }
        requires may { MayPut segment length }
        ensures looks { LooksOn (view S.view self.old) (view S.view self.new) result }
        ensures pages { KeepsPages (view S.view self.old) (view S.view self.new) }
        ensures finds { IfOk result (λ found.
            FindsPlace (view S.view self.old) segment length barred.now found) }
        ensures none { IfOk result (λ found. found ≡ None
            → HasNoPlace (view S.view self.old) segment barred.now) }
    {
        self.store.tuples.choose(segment, length, barred)
    }
}
