// Whether bodies spell chains.
ghost use Rattle.std.specs.Prelude.{◌≡◌, ℕ, ◌≤◌, true, false, IfOk, IfSome, MatchOption};
ghost use Rattle.rss_base.specs.Steps.{no_page};
ghost use Rattle.rss_base.specs.declared.tid.Tid.{Tid as SomeTid};
ghost use Rattle.rss_tuple.specs.Calls.{IsSegment};
ghost use Rattle.rss_tuple.specs.TupleSteps.{TuplesCall, no_tuple};
ghost use Rattle.rss_link.specs.Blocks.{kept_ends};
ghost use Rattle.rss_link.specs.Calls.{TellsBodies, HoldsHeaps, seen, IsLink};
ghost use Rattle.rss_link.specs.Checking.{HasChains, IsFoundBody, IsCounted, IsNoChild};
ghost use Rattle.rss_link.specs.Checking.{IsCount, IsWalked, NoneIsWalked, IsFollowed, NotFollowed};
ghost use Rattle.rss_link.specs.Checking.{IsTaken, IsNotTaken, IsTally, AreDistinct};

use crate::blocks::{Standing, ends_at, standing_at};
use crate::link::{Chains, Ends, Relations};
use rss_base::{Body, PageFault, Tid};
use rss_tuple::Tuples;

impl Chains {
    /// Whether the bodies of the relations' tuples, and the ends that are kept for a unary link, spell
    /// chains. Nothing is changed.
    pub fn check<T: Tuples>(
        &self,
        ends: &Ends,
        tuples: &mut T,
        relations: Relations,
    ) -> Result<bool, PageFault>
        requires segments { IsLink self.now }
        requires heaps { HoldsHeaps (T.view tuples.old) }
        ensures yes { IfOk result (λ spelled. spelled ≡ true → TellsBodies (T.view tuples.old)
            → HasChains self.now relations (seen ends.now (T.view tuples.old))) }
        ensures no { IfOk result (λ spelled. spelled ≡ false → TellsBodies (T.view tuples.old)
            → HasChains self.now relations (seen ends.now (T.view tuples.old)) → ⊥) }
        ensures did { (most : ℕ) × TuplesCall no_page no_tuple most
            (T.view tuples.old) (T.view tuples.new) result }
    {
        let Some(standing) = self.count_standing(tuples, relations)? else {
            return Ok(false);
        };
        if self.unary {
            self.walk_alone(ends, tuples, relations, standing)
        } else {
            self.walk_all(ends, tuples, relations, standing)
        }
    }

    /// How many children say that they stand in some chain. None if a child can be none of a link.
    fn count_standing<T: Tuples>(
        &self,
        tuples: &mut T,
        relations: Relations,
    ) -> Result<Option<u64>, PageFault>
        requires segment { IsSegment self.now.child_segment }
        requires heaps { HoldsHeaps (T.view tuples.old) }
        ensures counts { IfOk result (λ found. TellsBodies (T.view tuples.old) → MatchOption found
            ((tid : SomeTid) × IsNoChild self.now relations (T.view tuples.old).bodies tid)
            (IsCount self.now relations (T.view tuples.old).bodies)) }
        ensures did { (most : ℕ) × TuplesCall no_page no_tuple most
            (T.view tuples.old) (T.view tuples.new) result }
    {
        let mut count = 0;
        let mut last = None;
        while let Some(tid) = tuples.next_live(self.child_segment, last)? {
            let Some(stands) = self.says_place(tuples, relations, tid)? else {
                return Ok(None);
            };
            count += u64::from(stands);
            last = Some(tid);
        }
        Ok(Some(count))
    }

    /// Whether a tuple is a child and says that it stands in some chain. None if it is a child and
    /// can be none of a link.
    fn says_place<T: Tuples>(
        &self,
        tuples: &mut T,
        relations: Relations,
        tid: Tid,
    ) -> Result<Option<bool>, PageFault>
        requires heaps { HoldsHeaps (T.view tuples.old) }
        ensures says { IfOk result (λ found. TellsBodies (T.view tuples.old) → MatchOption found
            (IsNoChild self.now relations (T.view tuples.old).bodies tid)
            (IsCounted self.now relations (T.view tuples.old).bodies tid)) }
        ensures did { TuplesCall no_page no_tuple 2 (T.view tuples.old) (T.view tuples.new) result }
    {
        let mut body = Body::new();
        if !find(tuples, self.child_segment, relations.child, tid, &mut body)? {
            return Ok(Some(false));
        }
        if self.is_mixed(relations) {
            return Ok(None);
        }
        Ok(
            match standing_at(body.as_slice(), usize::from(self.child_at), self.unary) {
                Some(Standing::Within { .. }) => Some(true),
                Some(Standing::Outside) => Some(false),
                None => None,
            },
        )
    }

    /// Whether each child is a parent too.
    fn is_mixed(&self, relations: Relations) -> bool
        ensures yes { result ≡ true → AreDistinct self.now relations → ⊥ }
        ensures no { result ≡ false → AreDistinct self.now relations }
    {
        !self.unary
            && self.child_segment == self.parent_segment
            && relations.child == relations.parent
    }

    /// Walks the one chain of a unary link, and answers whether it has so many members.
    fn walk_alone<T: Tuples>(
        &self,
        ends: &Ends,
        tuples: &mut T,
        relations: Relations,
        standing: u64,
    ) -> Result<bool, PageFault>
        requires unary { self.now.unary ≡ true }
        requires heaps { HoldsHeaps (T.view tuples.old) }
        ensures walks { IfOk result (λ are. TellsBodies (T.view tuples.old)
            → IsTally self.now relations (seen ends.now (T.view tuples.old)) standing are) }
        ensures did { (most : ℕ) × TuplesCall no_page no_tuple most
            (T.view tuples.old) (T.view tuples.new) result }
    {
        let Some(walked) = self.walk(tuples, relations, None, *ends, standing)? else {
            return Ok(false);
        };
        Ok(walked == standing)
    }

    /// Walks the chains of all parents, and answers whether they have so many members together.
    fn walk_all<T: Tuples>(
        &self,
        ends: &Ends,
        tuples: &mut T,
        relations: Relations,
        standing: u64,
    ) -> Result<bool, PageFault>
        requires binary { self.now.unary ≡ false }
        requires segment { IsSegment self.now.parent_segment }
        requires heaps { HoldsHeaps (T.view tuples.old) }
        ensures walks { IfOk result (λ are. TellsBodies (T.view tuples.old)
            → IsTally self.now relations (seen ends.now (T.view tuples.old)) standing are) }
        ensures did { (most : ℕ) × TuplesCall no_page no_tuple most
            (T.view tuples.old) (T.view tuples.new) result }
    {
        let mut left = standing;
        let mut last = None;
        while let Some(tid) = tuples.next_live(self.parent_segment, last)? {
            let Some(count) = self.walk_below(ends, tuples, relations, tid, left)? else {
                return Ok(false);
            };
            left -= count;
            last = Some(tid);
        }
        Ok(left == 0)
    }

    /// How many members the chain of a tuple has, if it is a parent, and 0 if it isn't. None if a
    /// parent has no chain, or one of more than `most`.
    fn walk_below<T: Tuples>(
        &self,
        ends: &Ends,
        tuples: &mut T,
        relations: Relations,
        tid: Tid,
        most: u64,
    ) -> Result<Option<u64>, PageFault>
        requires binary { self.now.unary ≡ false }
        requires heaps { HoldsHeaps (T.view tuples.old) }
        ensures takes { IfOk result (λ found. TellsBodies (T.view tuples.old) → MatchOption found
            (IsNotTaken self.now relations (seen ends.now (T.view tuples.old)) tid most)
            (IsTaken self.now relations (seen ends.now (T.view tuples.old)) tid)) }
        ensures few { IfOk result (λ found. IfSome found (λ count. count ≤ most)) }
        ensures did { (cost : ℕ) × TuplesCall no_page no_tuple cost
            (T.view tuples.old) (T.view tuples.new) result }
    {
        let mut body = Body::new();
        if !find(
            tuples,
            self.parent_segment,
            relations.parent,
            tid,
            &mut body,
        )? {
            return Ok(Some(0));
        }
        match ends_at(body.as_slice(), usize::from(self.parent_at)) {
            Some(ends) => self.walk(tuples, relations, Some(tid), ends, most),
            None => Ok(None),
        }
    }

    /// How many members the chain of a parent with these ends has. None if there is no chain, or
    /// one of more than `most`.
    fn walk<T: Tuples>(
        &self,
        tuples: &mut T,
        relations: Relations,
        parent: Option<Tid>,
        ends: Ends,
        most: u64,
    ) -> Result<Option<u64>, PageFault>
        requires heaps { HoldsHeaps (T.view tuples.old) }
        ensures walks { IfOk result (λ found. TellsBodies (T.view tuples.old) → MatchOption found
            (NoneIsWalked self.now relations (T.view tuples.old).bodies parent (kept_ends ends) most)
            (IsWalked self.now relations (T.view tuples.old).bodies parent (kept_ends ends))) }
        ensures few { IfOk result (λ found. IfSome found (λ count. count ≤ most)) }
        ensures did { (cost : ℕ) × TuplesCall no_page no_tuple cost
            (T.view tuples.old) (T.view tuples.new) result }
    {
        let mut count = 0;
        let mut previous = None;
        let mut next = ends.first;
        while let Some(tid) = next {
            if count == most {
                return Ok(None);
            }
            match self.follow(tuples, relations, parent, previous, tid)? {
                Some(behind) => next = behind,
                None => return Ok(None),
            }
            count += 1;
            previous = Some(tid);
        }
        if previous != ends.last {
            return Ok(None);
        }
        Ok(Some(count))
    }

    /// What is after a child in the chain of a parent. None if the child doesn't say that it stands
    /// there after `previous`.
    fn follow<T: Tuples>(
        &self,
        tuples: &mut T,
        relations: Relations,
        parent: Option<Tid>,
        previous: Option<Tid>,
        tid: Tid,
    ) -> Result<Option<Option<Tid>>, PageFault>
        requires heaps { HoldsHeaps (T.view tuples.old) }
        ensures follows { IfOk result (λ found. TellsBodies (T.view tuples.old) → MatchOption found
            (NotFollowed self.now relations (T.view tuples.old).bodies parent previous tid)
            (IsFollowed self.now relations (T.view tuples.old).bodies parent previous tid)) }
        ensures did { TuplesCall no_page no_tuple 2 (T.view tuples.old) (T.view tuples.new) result }
    {
        let mut body = Body::new();
        if !find(tuples, self.child_segment, relations.child, tid, &mut body)? {
            return Ok(None);
        }
        let Some(
            Standing::Within {
                parent: other,
                previous: before,
                next,
            },
        ) = standing_at(body.as_slice(), usize::from(self.child_at), self.unary)
        else {
            return Ok(None);
        };
        if other != parent || before != previous {
            return Ok(None);
        }
        Ok(Some(next))
    }
}

/// Whether a tuple is one of the relation `number`. If so, its body is put into `into`.
fn find<T: Tuples>(
    tuples: &mut T,
    segment: u8,
    number: u8,
    tid: Tid,
    into: &mut Body,
) -> Result<bool, PageFault>
    requires heaps { HoldsHeaps (T.view tuples.old) }
    ensures finds { IfOk result (λ there. TellsBodies (T.view tuples.old)
        → IsFoundBody number ((T.view tuples.old).bodies segment tid) there into.new) }
    ensures did { TuplesCall no_page no_tuple 2 (T.view tuples.old) (T.view tuples.new) result }
{
    let live = tuples.fetch(segment, tid, into)?;
    Ok(live && into.as_slice().first() == Some(&number))
}
