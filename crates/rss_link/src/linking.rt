// How a child gets into a chain, and out of it.
ghost use Rattle.std.specs.Prelude.{◌≡◌, ◌+◌, ◌*◌, true, OnOk, IfOk, IfErr};
ghost use Rattle.rss_base.specs.Prefixes.{Ends as SomeEnds};
ghost use Rattle.rss_base.specs.Steps.{no_page};
ghost use Rattle.rss_tuple.specs.Placing.{TakesOnly};
ghost use Rattle.rss_tuple.specs.TupleSteps.{TuplesCall, no_tuple};
ghost use Rattle.rss_link.specs.Blocks.{HasKind};
ghost use Rattle.rss_link.specs.Chains.{Linkage};
ghost use Rattle.rss_link.specs.Links.{AreApart};
ghost use Rattle.rss_link.specs.Calls.{seen, spot, MayConnect, MayDisconnect, Connects, Disconnects};
ghost use Rattle.rss_link.specs.Calls.{seen_with, KeepsRoom, IsLink, TellsBodies, link_pages, link_tuples};
ghost use Rattle.rss_link.specs.Calls.{IsFaultAt, IsPointerFault, IsLinkFault};
ghost use Rattle.rss_link.specs.Edits.{MayReadChild, MayReadNext, FindsNext, MayTurn, IsTurnOf};
ghost use Rattle.rss_link.specs.Edits.{Restates, turn, Turns};

use crate::blocks::{Pointer, Standing, end_in, pointer_bytes, pointer_in, standing_bytes};
use crate::bodies::{damaged, put};
use crate::link::{Chains, Ends};
use rss_base::{PageFault, Tid};
use rss_tuple::Tuples;

impl Chains {
    /// Puts a child into the chain of a parent, or, if the link is unary and there is no parent,
    /// into its one chain: right after `left`, or first if that is None. The child's body is
    /// written first, then that of `left` or the chain's first, then that of the tuple that is to
    /// follow or the chain's last. After an error nothing is known of them.
    pub fn connect<T: Tuples>(
        &self,
        ends: &mut Ends,
        tuples: &mut T,
        child: Tid,
        parent: Option<Tid>,
        left: Option<Tid>,
    ) -> Result<(), PageFault>
        requires { MayConnect self.now (spot child parent left) (seen ends.old (T.view tuples.old)) }
        ensures connects { OnOk result (Connects self.now (spot child parent left)
            (seen ends.old (T.view tuples.old)) (seen ends.new (T.view tuples.new))) }
        ensures room { OnOk result (KeepsRoom self.now
            (seen ends.old (T.view tuples.old)) (seen ends.new (T.view tuples.new))) }
        ensures faults { IfErr result (IsLinkFault self.now) }
        ensures did { TuplesCall (link_pages self.now) (link_tuples self.now)
            (3 * (T.view tuples.old).pages.slots + 29) (T.view tuples.old) (T.view tuples.new) result }
    {
        let right = self.behind(ends, tuples, parent, left)?;
        let standing = Standing::Within {
            parent,
            previous: left,
            next: right,
        };
        self.restate(tuples, child, standing)?;
        self.turn(ends, tuples, Pointer::Next, parent, left, Some(child))?;
        self.turn(ends, tuples, Pointer::Previous, parent, right, Some(child))
    }

    /// Takes a child out of its chain. Bodies are written in the same order, and after an error nothing
    /// is known of them.
    pub fn disconnect<T: Tuples>(
        &self,
        ends: &mut Ends,
        tuples: &mut T,
        child: Tid,
    ) -> Result<(), PageFault>
        requires { MayDisconnect self.now child (seen ends.old (T.view tuples.old)) }
        ensures disconnects { OnOk result (Disconnects self.now child
            (seen ends.old (T.view tuples.old)) (seen ends.new (T.view tuples.new))) }
        ensures room { OnOk result (KeepsRoom self.now
            (seen ends.old (T.view tuples.old)) (seen ends.new (T.view tuples.new))) }
        ensures faults { IfErr result (IsLinkFault self.now) }
        ensures did { TuplesCall (link_pages self.now) (link_tuples self.now)
            (3 * (T.view tuples.old).pages.slots + 29) (T.view tuples.old) (T.view tuples.new) result }
    {
        let Standing::Within {
            parent,
            previous,
            next,
        } = self.standing(tuples, child)?
        else {
            return Err(damaged(self.child_segment, child));
        };
        self.restate(tuples, child, Standing::Outside)?;
        self.turn(ends, tuples, Pointer::Next, parent, previous, next)?;
        self.turn(ends, tuples, Pointer::Previous, parent, next, previous)
    }

    /// The first tuple after `left` in the chain of a parent, or of all if that is None.
    fn behind<T: Tuples>(
        &self,
        ends: &Ends,
        tuples: &mut T,
        parent: Option<Tid>,
        left: Option<Tid>,
    ) -> Result<Option<Tid>, PageFault>
        requires { MayReadNext self.now (seen ends.now (T.view tuples.old)) parent left }
        ensures finds { IfOk result
            (FindsNext self.now (seen ends.now (T.view tuples.old)) parent left) }
        ensures faults { IfErr result (IsPointerFault self.now parent left) }
        ensures did { TuplesCall no_page no_tuple 2 (T.view tuples.old) (T.view tuples.new) result }
    {
        match left {
            Some(left) => self.after(tuples, left),
            None => self.first(ends, tuples, parent),
        }
    }

    /// Has a child's body say another standing of it.
    fn restate<T: Tuples>(
        &self,
        tuples: &mut T,
        child: Tid,
        standing: Standing,
    ) -> Result<(), PageFault>
        requires segments { IsLink self.now }
        requires may { MayReadChild self.now (T.view tuples.old) child }
        ensures restates { OnOk result (TellsBodies (T.view tuples.old)
            → (kept : SomeEnds) (linkage : Linkage)
            → AreApart self.now linkage → linkage.children child ≡ true
            → Restates self.now child standing linkage
            (seen_with kept (T.view tuples.old)) (seen_with kept (T.view tuples.new))) }
        ensures takes { OnOk result (TellsBodies (T.view tuples.old)
            → TakesOnly no_page (T.view tuples.old).pages (T.view tuples.new).pages) }
        ensures faults { IfErr result (IsFaultAt self.now.child_segment child) }
        ensures did { TuplesCall (link_pages self.now) (link_tuples self.now)
            ((T.view tuples.old).pages.slots + 9) (T.view tuples.old) (T.view tuples.new) result }
    {
        let block = standing_bytes(standing, self.unary);
        let at = usize::from(self.child_at);
        put(tuples, self.child_segment, child, at, block.as_slice())
    }

    /// Turns the next or the previous pointer of a child to another tuple, or an end of the chain
    /// of its parent if `from` is None.
    fn turn<T: Tuples>(
        &self,
        ends: &mut Ends,
        tuples: &mut T,
        which: Pointer,
        parent: Option<Tid>,
        from: Option<Tid>,
        to: Option<Tid>,
    ) -> Result<(), PageFault>
        requires segments { IsLink self.now }
        requires kind { HasKind self.now.unary parent }
        requires may { MayTurn self.now (seen ends.old (T.view tuples.old)) parent from }
        ensures turns { OnOk result (TellsBodies (T.view tuples.old)
            → (linkage : Linkage) → AreApart self.now linkage
            → IsTurnOf self.now linkage (turn which parent from to)
            → Turns self.now (turn which parent from to) linkage
            (seen ends.old (T.view tuples.old)) (seen ends.new (T.view tuples.new))) }
        ensures room { OnOk result (KeepsRoom self.now
            (seen ends.old (T.view tuples.old)) (seen ends.new (T.view tuples.new))) }
        ensures faults { IfErr result (IsPointerFault self.now parent from) }
        ensures did { TuplesCall (link_pages self.now) (link_tuples self.now)
            ((T.view tuples.old).pages.slots + 9) (T.view tuples.old) (T.view tuples.new) result }
    {
        let bytes = pointer_bytes(to);
        match (from, parent) {
            (Some(child), _) => {
                let at = usize::from(self.child_at) + pointer_in(which, self.unary);
                put(tuples, self.child_segment, child, at, &bytes)
            }
            (None, Some(parent)) => {
                let at = usize::from(self.parent_at) + end_in(which);
                put(tuples, self.parent_segment, parent, at, &bytes)
            }
            (None, None) => {
                match which {
                    Pointer::Next => ends.first = to,
                    Pointer::Previous => ends.last = to,
                }
                Ok(())
            }
        }
    }
}
