// The bodies of a link's tuples.
ghost use Rattle.std.specs.Prelude.{◌≡◌, ◌≢◌, ◌+◌, ◌*◌, ◌<◌, ◌≤◌, ◌^◌, length, Some, IfOk, IfErr, OnOk};
ghost use Rattle.rss_base.specs.Steps.{no_page};
ghost use Rattle.rss_base.specs.declared.fault.PageFault.TheVariants.{Device as PageDevice};
ghost use Rattle.rss_base.specs.declared.fault.PageFault.TheVariants.{Damaged as PageDamaged, NoMemory as PageNoMemory};
ghost use Rattle.rss_base.specs.declared.place.Place.{Place as AnyPlace};
ghost use Rattle.rss_base.specs.declared.place.Place.TheVariants.{Tuple as TuplePlace};
ghost use Rattle.rss_tuple.specs.Calls.{IsSegment, HasTuple};
ghost use Rattle.rss_tuple.specs.Placing.{TakesOnly};
ghost use Rattle.rss_tuple.specs.TupleSteps.{TuplesCall, no_tuple, only_tuple, pages_for};
ghost use Rattle.rss_link.specs.Blocks.{IsStanding, kept_ends};
ghost use Rattle.rss_link.specs.Links.{Says, SaysEnds};
ghost use Rattle.rss_link.specs.Calls.{TellsBodies, HoldsHeaps, seen, IsFaultAt, IsParentFault};
ghost use Rattle.rss_link.specs.Edits.{MayReadChild, MayReadEnds, Reaches, bytes_of, PutsBytes};

use crate::blocks::{Standing, ends_at, standing_at};
use crate::link::{Chains, Ends};
use rss_base::{Body, PageFault, Place, Tid};
use rss_tuple::Tuples;

impl Chains {
    /// What the body of a child says of it.
    pub(crate) fn standing<T: Tuples>(
        &self,
        tuples: &mut T,
        child: Tid,
    ) -> Result<Standing, PageFault>
        requires { MayReadChild self.now (T.view tuples.old) child }
        ensures says { IfOk result (λ standing. TellsBodies (T.view tuples.old)
            → Says self.now (T.view tuples.old).bodies child standing) }
        ensures fits { IfOk result (IsStanding self.now.unary) }
        ensures faults { IfErr result (IsFaultAt self.now.child_segment child) }
        ensures did { TuplesCall no_page no_tuple 2 (T.view tuples.old) (T.view tuples.new) result }
    {
        let mut body = Body::new();
        read(tuples, self.child_segment, child, &mut body)?;
        match standing_at(body.as_slice(), usize::from(self.child_at), self.unary) {
            Some(standing) => Ok(standing),
            None => Err(damaged(self.child_segment, child)),
        }
    }

    /// The ends of the chain of a parent: what its body says of them, or those that are kept for a
    /// unary link.
    pub(crate) fn ends<T: Tuples>(
        &self,
        kept: &Ends,
        tuples: &mut T,
        parent: Option<Tid>,
    ) -> Result<Ends, PageFault>
        requires { MayReadEnds self.now (seen kept.now (T.view tuples.old)) parent }
        ensures says { IfOk result (λ ends. TellsBodies (T.view tuples.old)
            → SaysEnds self.now (kept_ends kept.now) (T.view tuples.old).bodies parent
            (kept_ends ends)) }
        ensures faults { IfErr result (IsParentFault self.now parent) }
        ensures did { TuplesCall no_page no_tuple 2 (T.view tuples.old) (T.view tuples.new) result }
    {
        let Some(parent) = parent else {
            return Ok(*kept);
        };
        let mut body = Body::new();
        read(tuples, self.parent_segment, parent, &mut body)?;
        match ends_at(body.as_slice(), usize::from(self.parent_at)) {
            Some(ends) => Ok(ends),
            None => Err(damaged(self.parent_segment, parent)),
        }
    }
}

/// Puts bytes into the body of a tuple, from a place on.
pub(crate) fn put<T: Tuples>(
    tuples: &mut T,
    segment: u8,
    tid: Tid,
    at: usize,
    bytes: &[u8],
) -> Result<(), PageFault>
    requires segment { IsSegment segment }
    requires some { 0 < length bytes.now }
    requires short { at + length bytes.now < 2 ^ 17 }
    requires heaps { HoldsHeaps (T.view tuples.old) }
    requires reaches { TellsBodies (T.view tuples.old)
        → ∥ Reaches (T.view tuples.old).bodies segment tid (at + length bytes.now) ∥₁ }
    ensures puts { OnOk result (TellsBodies (T.view tuples.old) → PutsBytes
        (bytes_of segment tid at bytes.now) (T.view tuples.old).bodies (T.view tuples.new).bodies) }
    ensures takes { OnOk result (TellsBodies (T.view tuples.old)
        → TakesOnly no_page (T.view tuples.old).pages (T.view tuples.new).pages) }
    ensures faults { IfErr result (IsFaultAt segment tid) }
    ensures did { TuplesCall (pages_for segment tid) (only_tuple segment tid)
        ((T.view tuples.old).pages.slots + 9) (T.view tuples.old) (T.view tuples.new) result }
{
    let mut body = Body::new();
    read(tuples, segment, tid, &mut body)?;
    let old = body.as_slice();
    let end = at + bytes.len();
    if old.len() < end {
        return Err(damaged(segment, tid));
    }
    let mut new = Body::new();
    new.extend_from_slice(&old[..at]);
    new.extend_from_slice(bytes);
    new.extend_from_slice(&old[end..]);
    match tuples.replace(segment, tid, new.as_slice()) {
        Ok(()) => Ok(()),
        Err(fault) => Err(fault_at(segment, tid, fault)),
    }
}

/// Copies the body of a tuple.
fn read<T: Tuples>(tuples: &mut T, segment: u8, tid: Tid, into: &mut Body) -> Result<(), PageFault>
    requires { HasTuple (T.view tuples.old) segment tid }
    ensures read { OnOk result (TellsBodies (T.view tuples.old)
        → (T.view tuples.old).bodies segment tid ≡ Some into.new) }
    ensures faults { IfErr result (IsFaultAt segment tid) }
    ensures did { TuplesCall no_page no_tuple 2 (T.view tuples.old) (T.view tuples.new) result }
{
    match tuples.fetch(segment, tid, into) {
        Ok(true) => Ok(()),
        Ok(false) => Err(damaged(segment, tid)),
        Err(fault) => Err(fault_at(segment, tid, fault)),
    }
}

/// Why a tuple can't be read or written; damage is that of this tuple.
fn fault_at(segment: u8, tid: Tid, fault: PageFault) -> PageFault
    requires { fault ≢ PageNoMemory }
    ensures at { IsFaultAt segment tid result }
    ensures failed { result ≡ PageDevice → fault ≡ PageDevice }
    ensures damaged { (place : AnyPlace) → result ≡ PageDamaged place
        → (found : AnyPlace) × (fault ≡ PageDamaged found) }
{
    match fault {
        PageFault::Damaged(_) => damaged(segment, tid),
        PageFault::Device | PageFault::NoMemory => fault,
    }
}

/// A tuple isn't what it should be.
pub(crate) fn damaged(segment: u8, tid: Tid) -> PageFault
    ensures { result ≡ PageDamaged (TuplePlace segment tid) }
{
    PageFault::Damaged(Place::Tuple(segment, tid))
}
