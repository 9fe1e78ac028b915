// The call that gives a tuple other values.
ghost use Rattle.std.specs.Prelude.{◌≡◌, ◌<◌};
ghost use Rattle.rss_base.specs.declared.call.Call.TheVariants.{Update};
ghost use Rattle.rss_stored.specs.Calls.{calls_most};

use crate::Rss;
use crate::locking::Access;
use crate::values::values_of;
use rss_base::{CallError, Change, Name, Reply, Tid, Tuple};
use rss_buffer::Saving;

impl<S: Saving> Rss<S> {
    ghost use Rattle.rss_stored.specs.Calls.{IsCallOf};
    ghost use Rattle.rss_rsi.specs.Parts.{view};

    /// Gives a tuple other values.
    pub fn update(
        &mut self,
        transaction: u32,
        relation: &Name,
        tid: Tid,
        tuple: &Tuple,
    ) -> Result<Reply, CallError>
        requires few { (view self.old).calls < calls_most }
        ensures did { IsCallOf (view self.old) (view self.new)
            (Update transaction relation.now tid tuple.now) result }
        ensures untouched { ((view self.old).is_up → ⊥) → self.new ≡ self.old }
    {
        self.ask()?;
        let number = self.session.admit_tuple(transaction, relation, tuple)?;
        let entry = self.session.store.catalog.relation(number);
        let to = values_of(entry.fields.as_slice(), tuple);
        let row = Tuple::new(self.alloc);
        let found = self.find(
            transaction,
            number,
            relation,
            tid,
            Access::Change,
            Some(tuple),
            row,
        )?;
        let owned = self.find_duplicate(number, &to, Some(tid))?;
        if let Some(why) = owned {
            self.hold(transaction, found.needs);
            return Err(CallError::Refused(why));
        }
        let entry = self.session.store.catalog.relation(number);
        let change = Change::Update {
            relation: number,
            tid,
            from: values_of(entry.fields.as_slice(), &found.tuple),
            to,
        };
        self.change(transaction, change)?;
        self.hold(transaction, found.needs);
        Ok(Reply::Ok)
    }
}
