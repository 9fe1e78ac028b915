// The call that takes a tuple away.
ghost use Rattle.std.specs.Prelude.{◌≡◌, ◌<◌};
ghost use Rattle.rss_base.specs.declared.call.Call.TheVariants.{Delete};
ghost use Rattle.rss_stored.specs.Calls.{calls_most};

use crate::Rss;
use crate::locking::Access;
use crate::values::values_of;
use rss_base::{CallError, Change, Name, Reply, Tid, Tuple};
use rss_buffer::Saving;

impl<S: Saving> Rss<S> {
    ghost use Rattle.rss_stored.specs.Calls.{IsCallOf};
    ghost use Rattle.rss_rsi.specs.Parts.{view};

    /// Takes a tuple away that stands in no chain and has none.
    pub fn delete(
        &mut self,
        transaction: u32,
        relation: &Name,
        tid: Tid,
    ) -> Result<Reply, CallError>
        requires few { (view self.old).calls < calls_most }
        ensures did { IsCallOf (view self.old) (view self.new)
            (Delete transaction relation.now tid) result }
        ensures untouched { ((view self.old).is_up → ⊥) → self.new ≡ self.old }
    {
        self.ask()?;
        let number = self.session.admit(transaction, relation)?;
        let row = Tuple::new(self.alloc);
        let found = self.find(
            transaction,
            number,
            relation,
            tid,
            Access::Change,
            None,
            row,
        )?;
        match self.test_unconnected(number, tid) {
            Ok(()) => (),
            Err(why) => return Err(self.keep(transaction, found.needs, why)),
        }
        let entry = self.session.store.catalog.relation(number);
        let change = Change::Delete {
            relation: number,
            tid,
            values: values_of(entry.fields.as_slice(), &found.tuple),
        };
        self.change(transaction, change)?;
        self.hold(transaction, found.needs);
        Ok(Reply::Ok)
    }
}
