// What is asked of a link.
ghost use Rattle.std.specs.Prelude.{◌≡◌, ◌↔◌, Some, IfOk, IfErr, IsTrue};
ghost use Rattle.rss_base.specs.Prefixes.{first_of, last_of};
ghost use Rattle.rss_base.specs.Steps.{no_page};
ghost use Rattle.rss_tuple.specs.TupleSteps.{TuplesCall, no_tuple};
ghost use Rattle.rss_link.specs.Chains.{Stands};
ghost use Rattle.rss_link.specs.Calls.{seen, MayAsk, MayAskParent, Answers, AnswersOf};
ghost use Rattle.rss_link.specs.Calls.{Follows, IsChildOf, IsTheOne, IsFaultAt, IsParentFault};

use crate::blocks::Standing;
use crate::link::{Chains, Ends};
use rss_base::{PageFault, Tid};
use rss_tuple::Tuples;

impl Chains {
    /// The first child of a parent, or the first member of a unary link, which has no parent. None
    /// exactly if the chain is empty.
    pub fn first<T: Tuples>(
        &self,
        ends: &Ends,
        tuples: &mut T,
        parent: Option<Tid>,
    ) -> Result<Option<Tid>, PageFault>
        requires { MayAskParent self.now (seen ends.now (T.view tuples.old)) parent }
        ensures first { IfOk result (λ found. AnswersOf self.now (seen ends.now (T.view tuples.old))
            parent (λ chain. found ≡ first_of chain)) }
        ensures faults { IfErr result (IsParentFault self.now parent) }
        ensures did { TuplesCall no_page no_tuple 2 (T.view tuples.old) (T.view tuples.new) result }
    {
        Ok(self.ends(ends, tuples, parent)?.first)
    }

    /// The last one.
    pub fn last<T: Tuples>(
        &self,
        ends: &Ends,
        tuples: &mut T,
        parent: Option<Tid>,
    ) -> Result<Option<Tid>, PageFault>
        requires { MayAskParent self.now (seen ends.now (T.view tuples.old)) parent }
        ensures last { IfOk result (λ found. AnswersOf self.now (seen ends.now (T.view tuples.old))
            parent (λ chain. found ≡ last_of chain)) }
        ensures faults { IfErr result (IsParentFault self.now parent) }
        ensures did { TuplesCall no_page no_tuple 2 (T.view tuples.old) (T.view tuples.new) result }
    {
        Ok(self.ends(ends, tuples, parent)?.last)
    }

    /// The tuple right after a child in its chain. None exactly if there is none, or the child is
    /// in no chain.
    pub fn after<T: Tuples>(&self, tuples: &mut T, child: Tid) -> Result<Option<Tid>, PageFault>
        requires { MayAsk self.now (T.view tuples.old) child }
        ensures after { IfOk result (λ found. Answers self.now (T.view tuples.old) child
            (λ lists. IsTheOne (λ next. Follows lists child next) found)) }
        ensures faults { IfErr result (IsFaultAt self.now.child_segment child) }
        ensures did { TuplesCall no_page no_tuple 2 (T.view tuples.old) (T.view tuples.new) result }
    {
        Ok(match self.standing(tuples, child)? {
            Standing::Within { next, .. } => next,
            Standing::Outside => None,
        })
    }

    /// The tuple right before it.
    pub fn before<T: Tuples>(&self, tuples: &mut T, child: Tid) -> Result<Option<Tid>, PageFault>
        requires { MayAsk self.now (T.view tuples.old) child }
        ensures before { IfOk result (λ found. Answers self.now (T.view tuples.old) child
            (λ lists. IsTheOne (λ previous. Follows lists previous child) found)) }
        ensures faults { IfErr result (IsFaultAt self.now.child_segment child) }
        ensures did { TuplesCall no_page no_tuple 2 (T.view tuples.old) (T.view tuples.new) result }
    {
        Ok(match self.standing(tuples, child)? {
            Standing::Within { previous, .. } => previous,
            Standing::Outside => None,
        })
    }

    /// The parent of the chain that has a child. None exactly if the child is in no chain, or the
    /// link is unary.
    pub fn parent<T: Tuples>(&self, tuples: &mut T, child: Tid) -> Result<Option<Tid>, PageFault>
        requires { MayAsk self.now (T.view tuples.old) child }
        ensures parent { IfOk result (λ found. Answers self.now (T.view tuples.old) child
            (λ lists. IsTheOne (λ parent. IsChildOf lists (Some parent) child) found)) }
        ensures faults { IfErr result (IsFaultAt self.now.child_segment child) }
        ensures did { TuplesCall no_page no_tuple 2 (T.view tuples.old) (T.view tuples.new) result }
    {
        Ok(match self.standing(tuples, child)? {
            Standing::Within { parent, .. } => parent,
            Standing::Outside => None,
        })
    }

    /// Whether a child is in a chain.
    pub fn stands<T: Tuples>(&self, tuples: &mut T, child: Tid) -> Result<bool, PageFault>
        requires { MayAsk self.now (T.view tuples.old) child }
        ensures stands { IfOk result (λ is_there. Answers self.now (T.view tuples.old) child
            (λ lists. IsTrue is_there ↔ Stands lists child)) }
        ensures faults { IfErr result (IsFaultAt self.now.child_segment child) }
        ensures did { TuplesCall no_page no_tuple 2 (T.view tuples.old) (T.view tuples.new) result }
    {
        Ok(match self.standing(tuples, child)? {
            Standing::Within { .. } => true,
            Standing::Outside => false,
        })
    }
}
