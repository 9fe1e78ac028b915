// Tuples by their segments and identifiers.
ghost use Rattle.std.specs.Prelude.{◌≡◌, ◌+◌, ◌≤◌, length, None, Some, IsTrue, IfOk, IfSome, OnOk};
ghost use Rattle.rss_base.specs.DiskRule.{IsTold};
ghost use Rattle.rss_base.specs.Steps.{no_page};
ghost use Rattle.rss_tuple.specs.Directory.{bodies_of, with_body};
ghost use Rattle.rss_tuple.specs.Heaps.{body_most, AreHeaps};
ghost use Rattle.rss_tuple.specs.Located.{body_there, IsInMemory, IsLocated};
ghost use Rattle.rss_tuple.specs.TupleSteps.{TuplesView, TuplesCall, no_tuple, only_tuple, pages_for};
ghost use Rattle.rss_base.specs.Tids.{IsAfter};
ghost use Rattle.rss_tuple.specs.Finding.{IsFetched, FindsNext};
ghost use Rattle.rss_tuple.specs.Placing.{TakesOnly};
ghost use Rattle.rss_tuple.specs.Calls.{IsSegment, IsBodyLength, MayPut, MayInsert, HasTuple, MayReplace};
ghost use Rattle.rss_tuple.specs.Calls.{IsNoLonger, IsNowhere, damaged_home};
ghost use Rattle.rss_tuple.specs.Calls.{Chooses, PutsTuple};

use crate::body_at::BodyAt;
use rss_base::{Body, PageFault, Tid};

/// The tuples of a store: a finite map from the identifiers of each segment to bodies of 1 to 2,400
/// bytes, in the pages below.
///
/// Segments are numbered from 1 to 8. Of bodies and pages something is said if the device tells its
/// contents. Then `Damaged` never comes; if it doesn't tell, `Damaged` names the page that isn't
/// what it should be. After an error of a call that changes tuples, nothing is known of them.
pub trait Tuples {
    /// What there is to see of them.
    ghost view: { Self → TuplesView };

    /// The identifier that a new tuple with a body of this length gets: one that no tuple has and
    /// that isn't barred. None exactly if there is none.
    fn choose(&mut self, segment: u8, length: u16, barred: &[Tid]) -> Result<Option<Tid>, PageFault>
        requires may { MayPut segment length }
        requires heaps { IsTold (view self.old).pages.disk → AreHeaps (view self.old).pages }
        ensures { Chooses segment length barred.now (view self.old) (view self.new) result };

    /// Puts a tuple at an identifier that none has. The home page is taken if it isn't mapped.
    fn insert_at(&mut self, segment: u8, tid: Tid, body: &[u8]) -> Result<(), PageFault>
        requires { MayInsert (view self.old) segment tid (length body.now) }
        ensures { PutsTuple segment tid body.now ((view self.old).pages.slots + 4)
            (view self.old) (view self.new) result };

    /// Finds out where the body of a tuple stands, if there is one. Asks for two pages at most. The
    /// page may leave memory with the next call that changes `self`.
    fn locate(&mut self, segment: u8, tid: Tid) -> Result<Option<BodyAt>, PageFault>
        requires heaps { IsTold (view self.old).pages.disk → AreHeaps (view self.old).pages }
        ensures found { IfOk result (λ found. IsTold (view self.old).pages.disk
            → IsLocated (view self.new).pages.held ((view self.old).bodies segment tid) found) }
        ensures there { IfOk result (λ found. IfSome found (IsInMemory (view self.new).pages)) }
        ensures did { TuplesCall no_page no_tuple 2 (view self.old) (view self.new) result };

    /// Lends the bytes of a body, without a copy of them.
    fn body(&self, at: BodyAt) -> &[u8]
        requires { IsInMemory (view self.now).pages at }
        ensures are { IsTold (view self.now).pages.disk
            → body_there (view self.now).pages.held at ≡ Some result.now }
        ensures many { length result.now ≡ at.length };

    /// Finds out whether a tuple stands at an identifier, and if so, copies its body. Asks for two
    /// pages at most.
    fn fetch(&mut self, segment: u8, tid: Tid, into: &mut Body) -> Result<bool, PageFault>
        requires heaps { IsTold (view self.old).pages.disk → AreHeaps (view self.old).pages }
        ensures fetched { IfOk result (λ live. IsTold (view self.old).pages.disk
            → IsFetched ((view self.old).bodies segment tid) live into.new) }
        ensures body { IfOk result (λ live. IsTrue live → IsBodyLength (length into.new)) }
        ensures did { TuplesCall no_page no_tuple 2 (view self.old) (view self.new) result }
    {
        let Some(at) = self.locate(segment, tid)? else {
            return Ok(false);
        };
        fill(into, self.body(at));
        Ok(true)
    }

    /// Puts another body in place of that of a tuple. Takes no page if the body isn't longer.
    fn replace(&mut self, segment: u8, tid: Tid, body: &[u8]) -> Result<(), PageFault>
        requires { MayReplace (view self.old) segment tid (length body.now) }
        ensures puts { PutsTuple segment tid body.now ((view self.old).pages.slots + 7)
            (view self.old) (view self.new) result }
        ensures no_page { OnOk result (IsTold (view self.old).pages.disk
            → IsNoLonger (view self.old) segment tid (length body.now)
            → TakesOnly no_page (view self.old).pages (view self.new).pages) }
        ensures nowhere { IsNowhere (view self.old) segment tid
            → result ≡ damaged_home segment tid };

    /// Takes a tuple away. A page whose entries are all empty then is given back.
    fn remove(&mut self, segment: u8, tid: Tid) -> Result<(), PageFault>
        requires { HasTuple (view self.old) segment tid }
        ensures gone { OnOk result (IsTold (view self.old).pages.disk → (view self.new).bodies
            ≡ with_body (view self.old).bodies segment tid None) }
        ensures takes { OnOk result (TakesOnly no_page (view self.old).pages
            (view self.new).pages) }
        ensures nowhere { IsNowhere (view self.old) segment tid
            → result ≡ damaged_home segment tid }
        ensures did { TuplesCall (pages_for segment tid) (only_tuple segment tid) 4
            (view self.old) (view self.new) result };

    /// The least identifier after this one at which a tuple stands, or the least of all if none is
    /// given. On any device the answer stands after it.
    fn next_live(&mut self, segment: u8, after: Option<Tid>) -> Result<Option<Tid>, PageFault>
        requires segment { IsSegment segment }
        requires heaps { IsTold (view self.old).pages.disk → AreHeaps (view self.old).pages }
        ensures next { IfOk result (λ found. IsTold (view self.old).pages.disk
            → FindsNext (view self.old) segment after found) }
        ensures behind { IfOk result (λ found. IfSome found (IsAfter after)) }
        ensures did { TuplesCall no_page no_tuple (view self.old).pages.slots
            (view self.old) (view self.new) result };

    /// The bodies are those that the pages say.
    ghost are_in_pages: { (tuples : Self)
        → (view tuples).bodies ≡ bodies_of (view tuples).pages.held };
}

/// Puts these bytes into a body, in place of those that it has.
fn fill(into: &mut Body, bytes: &[u8])
    requires { length bytes.now ≤ body_most }
    ensures { into.new ≡ bytes.now }
{
    into.clear();
    into.extend_from_slice(bytes);
}
