// The lines of links.
ghost use Rattle.rss_base.specs.declared.call.Call.TheVariants.{Disconnect, Parent};
ghost use Rattle.rss_model.specs.Forms.{OneOf, OnTuple, AfterForm, PlaceForm, ConnectForm, spots};
ghost use Rattle.rss_line.specs.Reads.{ReadsWords, Behind, NeedsNoMemory};

use crate::number::read_tid_in;
use crate::reader::Reader;
use crate::{LineFault, Names};
use rss_base::{Call, Spot, Tid};

impl<'a> Reader<'a> {
    /// The spot that begins with this word.
    fn spot_behind(&mut self, names: &Names, word: &str) -> Result<Spot, LineFault>
        ensures reads { ReadsWords (Behind (spots names.now.variables) word.now) self.old result }
        ensures memory { NeedsNoMemory result }
    {
        match word {
            "first" => self.ended(Spot::First),
            "last" => self.ended(Spot::Last),
            "after" => self.spot_after(names),
            _ => Err(LineFault::Words),
        }
    }

    fn spot_after(&mut self, names: &Names) -> Result<Spot, LineFault>
        ensures reads { ReadsWords (AfterForm names.now.variables) self.old result }
        ensures memory { NeedsNoMemory result }
    {
        let tid = self.tid(names)?;
        self.ended(Spot::After(tid))
    }

    fn spot(&mut self, names: &Names) -> Result<Spot, LineFault>
        ensures reads { ReadsWords (OneOf (spots names.now.variables)) self.old result }
        ensures memory { NeedsNoMemory result }
    {
        let word = self.word()?;
        self.spot_behind(names, word)
    }

    /// A spot, and before it the parent of the chain if the link has parents.
    fn place(&mut self, names: &Names) -> Result<(Option<Tid>, Spot), LineFault>
        ensures reads { ReadsWords (PlaceForm names.now.variables) self.old result }
        ensures memory { NeedsNoMemory result }
    {
        let word = self.word()?;
        if let Some(parent) = read_tid_in(word, names) {
            let spot = self.spot(names)?;
            return Ok((Some(parent), spot));
        }
        let spot = self.spot_behind(names, word)?;
        Ok((None, spot))
    }

    pub(crate) fn connect(&mut self, names: &Names) -> Result<Call, LineFault>
        ensures reads { ReadsWords (ConnectForm names.now.variables) self.old result }
        ensures memory { NeedsNoMemory result }
    {
        let target = self.target()?;
        let child = self.tid(names)?;
        let (parent, spot) = self.place(names)?;
        Ok(Call::Connect(target.transaction, target.name, child, parent, spot))
    }

    pub(crate) fn disconnect(&mut self, names: &Names) -> Result<Call, LineFault>
        ensures reads { ReadsWords (OnTuple names.now.variables Disconnect) self.old result }
        ensures memory { NeedsNoMemory result }
    {
        let target = self.target()?;
        let child = self.tid(names)?;
        self.ended(Call::Disconnect(target.transaction, target.name, child))
    }

    pub(crate) fn parent(&mut self, names: &Names) -> Result<Call, LineFault>
        ensures reads { ReadsWords (OnTuple names.now.variables Parent) self.old result }
        ensures memory { NeedsNoMemory result }
    {
        let target = self.target()?;
        let child = self.tid(names)?;
        self.ended(Call::Parent(target.transaction, target.name, child))
    }
}
