// The lines of scans.
ghost use Rattle.rss_base.specs.declared.call.Call.TheVariants.{OpenRelation, Next, CloseScan};
ghost use Rattle.rss_model.specs.Script.{IsTransaction};
ghost use Rattle.rss_model.specs.Forms.{Word, OneOf, Named, Numbered, ImageScan, LinkScan, scans};
ghost use Rattle.rss_line.specs.Reads.{ReadsWords, NeedsNoMemory};

use crate::reader::Reader;
use crate::{LineFault, Names};
use rss_base::Call;
use std::alloc::Global;

impl<'a> Reader<'a> {
    fn open_relation(&mut self, transaction: u32) -> Result<Call, LineFault>
        ensures reads { ReadsWords (Named (OpenRelation transaction)) self.old result }
        ensures memory { NeedsNoMemory result }
    {
        let relation = self.name()?;
        self.ended(Call::OpenRelation(transaction, relation))
    }

    fn open_image(&mut self, alloc: Global, transaction: u32) -> Result<Call, LineFault>
        ensures { ReadsWords (ImageScan transaction) self.old result }
    {
        let image = self.name()?;
        if self.is_at_end() {
            return Ok(Call::OpenImage(transaction, image, None));
        }
        self.fixed("from")?;
        let values = self.values(alloc)?;
        Ok(Call::OpenImage(transaction, image, Some(values)))
    }

    fn open_link(&mut self, names: &Names, transaction: u32) -> Result<Call, LineFault>
        ensures reads { ReadsWords (LinkScan names.now.variables transaction) self.old result }
        ensures memory { NeedsNoMemory result }
    {
        let link = self.name()?;
        if self.is_at_end() {
            return Ok(Call::OpenLink(transaction, link, None));
        }
        let parent = self.tid(names)?;
        self.ended(Call::OpenLink(transaction, link, Some(parent)))
    }

    pub(crate) fn open(&mut self, alloc: Global, names: &Names) -> Result<Call, LineFault>
        ensures { ReadsWords
            (Word IsTransaction (λ t. OneOf (scans names.now.variables t))) self.old result }
    {
        let transaction = self.transaction()?;
        match self.word()? {
            "relation" => self.open_relation(transaction),
            "image" => self.open_image(alloc, transaction),
            "link" => self.open_link(names, transaction),
            _ => Err(LineFault::Words),
        }
    }

    pub(crate) fn next(&mut self, names: &Names) -> Result<Call, LineFault>
        ensures reads { ReadsWords (Numbered names.now.variables Next) self.old result }
        ensures memory { NeedsNoMemory result }
    {
        let transaction = self.transaction()?;
        let scan = self.number(names)?;
        self.ended(Call::Next(transaction, scan))
    }

    pub(crate) fn close(&mut self, names: &Names) -> Result<Call, LineFault>
        ensures reads { ReadsWords (Numbered names.now.variables CloseScan) self.old result }
        ensures memory { NeedsNoMemory result }
    {
        let transaction = self.transaction()?;
        let scan = self.number(names)?;
        self.ended(Call::CloseScan(transaction, scan))
    }
}
