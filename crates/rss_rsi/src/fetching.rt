// The calls that give a tuple.
ghost use Rattle.std.specs.Prelude.{◌≡◌, ◌<◌, [], OnErr};
ghost use Rattle.rss_base.specs.declared.call.Call.TheVariants.{Fetch};
ghost use Rattle.rss_stored.specs.Calls.{calls_most};
ghost use Rattle.rss_rsi.specs.Replies.{as_tuple};

use crate::Rss;
use crate::locking::Access;
use rss_base::{CallError, Name, Reply, Tid, Tuple};
use rss_buffer::Saving;
use std::mem::replace;

impl<S: Saving> Rss<S> {
    ghost use Rattle.rss_stored.specs.Calls.{IsCallOf};
    ghost use Rattle.rss_rsi.specs.Parts.{view};

    /// Gives a tuple.
    pub fn fetch(&mut self, transaction: u32, relation: &Name, tid: Tid) -> Result<Reply, CallError>
        requires few { (view self.old).calls < calls_most }
        ensures did { IsCallOf (view self.old) (view self.new)
            (Fetch transaction relation.now tid) result }
        ensures untouched { ((view self.old).is_up → ⊥) → self.new ≡ self.old }
    {
        let mut tuple = Tuple::new(self.alloc);
        self.fetch_into(transaction, relation, tid, &mut tuple)?;
        Ok(Reply::Tuple(tuple))
    }

    /// As `fetch`, with the tuple in the memory of `row`, whose values go. If no tuple is given, `row`
    /// is left with no values.
    pub fn fetch_into(
        &mut self,
        transaction: u32,
        relation: &Name,
        tid: Tid,
        row: &mut Tuple,
    ) -> Result<(), CallError>
        requires few { (view self.old).calls < calls_most }
        ensures did { IsCallOf (view self.old) (view self.new)
            (Fetch transaction relation.now tid) (as_tuple result row.new) }
        ensures untouched { ((view self.old).is_up → ⊥) → self.new ≡ self.old }
        ensures fails { OnErr result (row.new ≡ []) }
    {
        let old = replace(row, Tuple::new(self.alloc));
        self.ask()?;
        let number = self.session.admit(transaction, relation)?;
        let found = self.find(transaction, number, relation, tid, Access::Read, None, old)?;
        self.hold(transaction, found.needs);
        *row = found.tuple;
        Ok(())
    }
}
