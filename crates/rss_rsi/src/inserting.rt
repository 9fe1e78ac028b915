// The call that puts a tuple.
ghost use Rattle.std.specs.Prelude.{◌≡◌, ◌<◌};
ghost use Rattle.rss_base.specs.declared.call.Call.TheVariants.{Insert};
ghost use Rattle.rss_stored.specs.Calls.{calls_most};

use crate::Rss;
use crate::values::{body_len, values_of};
use rss_base::{CallError, Change, Name, Reply, Tuple};
use rss_buffer::Saving;

impl<S: Saving> Rss<S> {
    ghost use Rattle.rss_stored.specs.Calls.{IsCallOf};
    ghost use Rattle.rss_rsi.specs.Parts.{view};

    /// Puts a tuple, and answers its identifier.
    pub fn insert(
        &mut self,
        transaction: u32,
        relation: &Name,
        tuple: &Tuple,
    ) -> Result<Reply, CallError>
        requires few { (view self.old).calls < calls_most }
        ensures did { IsCallOf (view self.old) (view self.new)
            (Insert transaction relation.now tuple.now) result }
        ensures untouched { ((view self.old).is_up → ⊥) → self.new ≡ self.old }
    {
        self.ask()?;
        let number = self.session.admit_tuple(transaction, relation, tuple)?;
        self.session.test_limit(number)?;
        let fields = self
            .session
            .store
            .catalog
            .relation(number)
            .fields
            .as_slice();
        let values = values_of(fields, tuple);
        let catalog = &self.session.store.catalog;
        let length = body_len(catalog, number, values.as_slice());
        let tid = self.place_for(transaction, number, length)?;
        let Ok(needs) = self.new_needs(number, relation, tid, tuple) else {
            return Err(CallError::NoMemory);
        };
        let mut needs = self.claim(transaction, needs)?;
        let owned = self.find_duplicate(number, &values, None)?;
        if let Some(why) = owned {
            // No tuple comes, and its identifier isn't held.
            let Some(_) = needs.pop() else { unreachable!() };
            self.hold(transaction, needs);
            return Err(CallError::Refused(why));
        }
        let change = Change::Insert {
            relation: number,
            tid,
            values,
        };
        self.change(transaction, change)?;
        self.hold(transaction, needs);
        Ok(Reply::Tid(tid))
    }
}
