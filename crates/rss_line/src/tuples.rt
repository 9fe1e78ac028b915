// The lines of tuples.
ghost use Rattle.rss_base.specs.declared.call.Call.TheVariants.{Fetch, Delete};
ghost use Rattle.rss_model.specs.Forms.{OnTuple, InsertForm, UpdateForm};
ghost use Rattle.rss_line.specs.Reads.{ReadsWords, NeedsNoMemory};

use crate::reader::Reader;
use crate::{LineFault, Names};
use rss_base::Call;
use std::alloc::Global;

impl<'a> Reader<'a> {
    pub(crate) fn insert(&mut self, alloc: Global) -> Result<Call, LineFault>
        ensures { ReadsWords InsertForm self.old result }
    {
        let target = self.target()?;
        let values = self.values(alloc)?;
        Ok(Call::Insert(target.transaction, target.name, values))
    }

    pub(crate) fn fetch(&mut self, names: &Names) -> Result<Call, LineFault>
        ensures reads { ReadsWords (OnTuple names.now.variables Fetch) self.old result }
        ensures memory { NeedsNoMemory result }
    {
        let target = self.target()?;
        let tid = self.tid(names)?;
        self.ended(Call::Fetch(target.transaction, target.name, tid))
    }

    pub(crate) fn update(&mut self, alloc: Global, names: &Names) -> Result<Call, LineFault>
        ensures { ReadsWords (UpdateForm names.now.variables) self.old result }
    {
        let target = self.target()?;
        let tid = self.tid(names)?;
        let values = self.values(alloc)?;
        Ok(Call::Update(target.transaction, target.name, tid, values))
    }

    pub(crate) fn delete(&mut self, names: &Names) -> Result<Call, LineFault>
        ensures reads { ReadsWords (OnTuple names.now.variables Delete) self.old result }
        ensures memory { NeedsNoMemory result }
    {
        let target = self.target()?;
        let tid = self.tid(names)?;
        self.ended(Call::Delete(target.transaction, target.name, tid))
    }
}
