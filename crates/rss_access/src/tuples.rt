// Tuples in their pages.
ghost use Rattle.std.specs.Prelude.{◌≡◌, ◌↔◌, ℕ, ◌+◌, ◌*◌, length, None, Some, IsSome};
ghost use Rattle.std.specs.Prelude.{IsTrue, IfOk, IfSome, OnOk, slice_get};
ghost use Rattle.rss_base.specs.DiskRule.{IsTold};
ghost use Rattle.rss_base.specs.Steps.{PagesCall, no_page};
ghost use Rattle.rss_tuple.specs.Calls.{IsSegment, MayPut, MayInsert};
ghost use Rattle.rss_tuple.specs.TupleSteps.{tuples_in};
ghost use Rattle.rss_tuple.specs.Checked.{pages_of};
ghost use Rattle.rss_tuple.specs.Heaps.{AreHeaps};
ghost use Rattle.rss_tuple.specs.Located.{IsInMemory};
ghost use Rattle.rss_access.specs.Tuples.{body_at, CanChange, ChangesTuple, FindsBodyAt, FindsNextBodyAt};

use rss_base::{PageFault, Pages, Tid};
use rss_tuple::{BodyAt, Store, Tuples};

/// Puts a tuple with this body at an identifier that none has.
pub(crate) fn put_at<P: Pages>(
    tuples: &mut Store<P>,
    segment: u8,
    tid: Tid,
    body: &[u8],
) -> Result<(), PageFault>
    requires { MayInsert (tuples_in (P.view tuples.old.pages)) segment tid (length body.now) }
    ensures changes { OnOk result (ChangesTuple segment tid (Some body.now)
        (P.view tuples.old.pages) (P.view tuples.new.pages)) }
    ensures did { PagesCall (pages_of segment) ((P.view tuples.old.pages).slots + 4)
        ((P.view tuples.old.pages).slots + 4)
        (P.view tuples.old.pages) (P.view tuples.new.pages) result }
{
    tuples.insert_at(segment, tid, body)
}

/// Where the body of the tuple of a segment with this identifier stands, if that is one of the
/// relation `number`.
pub fn find<P: Pages>(
    tuples: &mut Store<P>,
    segment: u8,
    number: u8,
    tid: Tid,
) -> Result<Option<BodyAt>, PageFault>
    requires { IsTold (P.view tuples.old.pages).disk → AreHeaps (P.view tuples.old.pages) }
    ensures finds { IfOk result (λ found. IsTold (P.view tuples.old.pages).disk → FindsBodyAt
        segment number tid (P.view tuples.old.pages) (P.view tuples.new.pages).held found) }
    ensures there { IfOk result (λ found. IfSome found (IsInMemory (P.view tuples.new.pages))) }
    ensures heaps { OnOk result (IsTold (P.view tuples.old.pages).disk
        → AreHeaps (P.view tuples.new.pages)) }
    ensures did { PagesCall no_page 2 2 (P.view tuples.old.pages) (P.view tuples.new.pages) result }
{
    let Some(at) = tuples.locate(segment, tid)? else {
        return Ok(None);
    };
    if is_of(tuples.body(at), number) {
        Ok(Some(at))
    } else {
        Ok(None)
    }
}

/// Whether a body is that of a tuple of the relation `number`.
fn is_of(body: &[u8], number: u8) -> bool
    ensures { IsTrue result ↔ (slice_get body.now 0 ≡ Some number) }
{
    body.first() == Some(&number)
}

/// The least identifier after this one, or the least of all, that a tuple of the relation `number`
/// has in a segment, and the place of the tuple's body.
pub fn find_next<P: Pages>(
    tuples: &mut Store<P>,
    segment: u8,
    number: u8,
    after: Option<Tid>,
) -> Result<Option<(Tid, BodyAt)>, PageFault>
    requires segment { IsSegment segment }
    requires heaps { IsTold (P.view tuples.old.pages).disk → AreHeaps (P.view tuples.old.pages) }
    ensures finds { IfOk result (λ found. IsTold (P.view tuples.old.pages).disk → FindsNextBodyAt
        segment number after (P.view tuples.old.pages) (P.view tuples.new.pages).held found) }
    ensures there { IfOk result (λ found.
        IfSome found (λ next. IsInMemory (P.view tuples.new.pages) next.1)) }
    ensures heaps { OnOk result (IsTold (P.view tuples.old.pages).disk
        → AreHeaps (P.view tuples.new.pages)) }
    ensures did { (most : ℕ) × PagesCall no_page most most
        (P.view tuples.old.pages) (P.view tuples.new.pages) result }
{
    let mut last = after;
    while let Some((tid, at)) = tuples.next_body(segment, last)? {
        if is_of(tuples.body(at), number) {
            return Ok(Some((tid, at)));
        }
        last = Some(tid);
    }
    Ok(None)
}

/// Gives a tuple another body.
pub fn update<P: Pages>(
    tuples: &mut Store<P>,
    segment: u8,
    tid: Tid,
    body: &[u8],
) -> Result<(), PageFault>
    requires may { CanChange (P.view tuples.old.pages) }
    requires put { MayPut segment (length body.now) }
    requires live { IsTold (P.view tuples.old.pages).disk
        → IsSome (body_at (P.view tuples.old.pages) segment tid) }
    ensures changes { OnOk result (ChangesTuple segment tid (Some body.now)
        (P.view tuples.old.pages) (P.view tuples.new.pages)) }
    ensures did { PagesCall (pages_of segment) (3 * (P.view tuples.old.pages).slots + 7)
        (3 * (P.view tuples.old.pages).slots + 7)
        (P.view tuples.old.pages) (P.view tuples.new.pages) result }
{
    tuples.replace(segment, tid, body)
}

/// Takes a tuple away.
pub fn delete<P: Pages>(tuples: &mut Store<P>, segment: u8, tid: Tid) -> Result<(), PageFault>
    requires may { CanChange (P.view tuples.old.pages) }
    requires segment { IsSegment segment }
    requires live { IsTold (P.view tuples.old.pages).disk
        → IsSome (body_at (P.view tuples.old.pages) segment tid) }
    ensures changes { OnOk result (ChangesTuple segment tid None
        (P.view tuples.old.pages) (P.view tuples.new.pages)) }
    ensures did { PagesCall (pages_of segment) 4 4
        (P.view tuples.old.pages) (P.view tuples.new.pages) result }
{
    tuples.remove(segment, tid)
}
