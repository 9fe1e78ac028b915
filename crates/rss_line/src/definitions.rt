// The lines of definitions.
ghost use Rattle.rss_base.specs.declared.call.Call.TheVariants.{MakeSegment, MakeRelation, MakeImage};
ghost use Rattle.rss_base.specs.declared.call.Call.TheVariants.{DropSegment, DropRelation, DropImage, DropLink};
ghost use Rattle.rss_model.specs.Script.{AreNames, AreFieldWords};
ghost use Rattle.rss_model.specs.Forms.{OneOf, Named, DefinedOf, LinkForm, drops};
ghost use Rattle.rss_line.specs.Reads.{ReadsWords, NeedsNoMemory};

use crate::LineFault;
use crate::reader::Reader;
use rss_base::Call;
use std::alloc::Global;

impl<'a> Reader<'a> {
    pub(crate) fn make_segment(&mut self) -> Result<Call, LineFault>
        ensures reads { ReadsWords (Named MakeSegment) self.old result }
        ensures memory { NeedsNoMemory result }
    {
        let name = self.name()?;
        self.ended(Call::MakeSegment(name))
    }

    pub(crate) fn make_relation(&mut self, alloc: Global) -> Result<Call, LineFault>
        ensures { ReadsWords (DefinedOf AreFieldWords MakeRelation) self.old result }
    {
        let name = self.name()?;
        let segment = self.name()?;
        let fields = self.fields(alloc)?;
        Ok(Call::MakeRelation(name, segment, fields))
    }

    pub(crate) fn make_image(&mut self, alloc: Global, is_unique: bool) -> Result<Call, LineFault>
        ensures { ReadsWords
            (DefinedOf AreNames (λ name relation. MakeImage name relation is_unique)) self.old result }
    {
        let name = self.name()?;
        let relation = self.name()?;
        let fields = self.names(alloc)?;
        Ok(Call::MakeImage(name, relation, is_unique, fields))
    }

    pub(crate) fn make_link(&mut self) -> Result<Call, LineFault>
        ensures reads { ReadsWords LinkForm self.old result }
        ensures memory { NeedsNoMemory result }
    {
        let name = self.name()?;
        let relation = self.name()?;
        if self.is_at_end() {
            return Ok(Call::MakeLink(name, None, relation));
        }
        let child = self.name()?;
        self.ended(Call::MakeLink(name, Some(relation), child))
    }

    fn drop_segment(&mut self) -> Result<Call, LineFault>
        ensures reads { ReadsWords (Named DropSegment) self.old result }
        ensures memory { NeedsNoMemory result }
    {
        let name = self.name()?;
        self.ended(Call::DropSegment(name))
    }

    fn drop_relation(&mut self) -> Result<Call, LineFault>
        ensures reads { ReadsWords (Named DropRelation) self.old result }
        ensures memory { NeedsNoMemory result }
    {
        let name = self.name()?;
        self.ended(Call::DropRelation(name))
    }

    fn drop_image(&mut self) -> Result<Call, LineFault>
        ensures reads { ReadsWords (Named DropImage) self.old result }
        ensures memory { NeedsNoMemory result }
    {
        let name = self.name()?;
        self.ended(Call::DropImage(name))
    }

    fn drop_link(&mut self) -> Result<Call, LineFault>
        ensures reads { ReadsWords (Named DropLink) self.old result }
        ensures memory { NeedsNoMemory result }
    {
        let name = self.name()?;
        self.ended(Call::DropLink(name))
    }

    /// The call that takes a definition away.
    pub(crate) fn drop_definition(&mut self) -> Result<Call, LineFault>
        ensures reads { ReadsWords (OneOf drops) self.old result }
        ensures memory { NeedsNoMemory result }
    {
        match self.word()? {
            "segment" => self.drop_segment(),
            "relation" => self.drop_relation(),
            "image" => self.drop_image(),
            "link" => self.drop_link(),
            _ => Err(LineFault::Words),
        }
    }
}
