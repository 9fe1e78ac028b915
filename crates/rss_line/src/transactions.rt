// The lines of transactions.
ghost use Rattle.rss_base.specs.declared.call.Call.TheVariants.{Begin, Save, Restore, End, Abort};
ghost use Rattle.rss_base.specs.declared.item.Item.TheVariants.{Segment, Relation};
ghost use Rattle.rss_model.specs.Script.{IsTransaction};
ghost use Rattle.rss_model.specs.Forms.{Word, OneOf, Ordered, Numbered, LockOf, locks};
ghost use Rattle.rss_line.specs.Reads.{ReadsWords, NeedsNoMemory};

use crate::reader::Reader;
use crate::{LineFault, Names};
use rss_base::{Call, Item};

impl<'a> Reader<'a> {
    pub(crate) fn begin(&mut self) -> Result<Call, LineFault>
        ensures reads { ReadsWords (Ordered Begin) self.old result }
        ensures memory { NeedsNoMemory result }
    {
        let transaction = self.transaction()?;
        self.ended(Call::Begin(transaction))
    }

    pub(crate) fn save(&mut self) -> Result<Call, LineFault>
        ensures reads { ReadsWords (Ordered Save) self.old result }
        ensures memory { NeedsNoMemory result }
    {
        let transaction = self.transaction()?;
        self.ended(Call::Save(transaction))
    }

    pub(crate) fn restore(&mut self, names: &Names) -> Result<Call, LineFault>
        ensures reads { ReadsWords (Numbered names.now.variables Restore) self.old result }
        ensures memory { NeedsNoMemory result }
    {
        let transaction = self.transaction()?;
        let save = self.number(names)?;
        self.ended(Call::Restore(transaction, save))
    }

    pub(crate) fn end(&mut self) -> Result<Call, LineFault>
        ensures reads { ReadsWords (Ordered End) self.old result }
        ensures memory { NeedsNoMemory result }
    {
        let transaction = self.transaction()?;
        self.ended(Call::End(transaction))
    }

    pub(crate) fn abort(&mut self) -> Result<Call, LineFault>
        ensures reads { ReadsWords (Ordered Abort) self.old result }
        ensures memory { NeedsNoMemory result }
    {
        let transaction = self.transaction()?;
        self.ended(Call::Abort(transaction))
    }

    fn lock_segment(&mut self, transaction: u32) -> Result<Call, LineFault>
        ensures reads { ReadsWords (LockOf transaction Segment) self.old result }
        ensures memory { NeedsNoMemory result }
    {
        let name = self.name()?;
        let exclusive = self.mode()?;
        self.ended(Call::Lock(transaction, Item::Segment(name), exclusive))
    }

    fn lock_relation(&mut self, transaction: u32) -> Result<Call, LineFault>
        ensures reads { ReadsWords (LockOf transaction Relation) self.old result }
        ensures memory { NeedsNoMemory result }
    {
        let name = self.name()?;
        let exclusive = self.mode()?;
        self.ended(Call::Lock(transaction, Item::Relation(name), exclusive))
    }

    pub(crate) fn lock(&mut self) -> Result<Call, LineFault>
        ensures reads { ReadsWords (Word IsTransaction (λ t. OneOf (locks t))) self.old result }
        ensures memory { NeedsNoMemory result }
    {
        let transaction = self.transaction()?;
        match self.word()? {
            "segment" => self.lock_segment(transaction),
            "relation" => self.lock_relation(transaction),
            _ => Err(LineFault::Words),
        }
    }
}
