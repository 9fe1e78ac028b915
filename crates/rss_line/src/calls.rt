// The call that a line is.
ghost use Rattle.std.specs.Prelude.{◌≡◌};
ghost use Rattle.rss_model.specs.Forms.{IsStatement, calls};
ghost use Rattle.rss_line.specs.Reads.{ReadsWords, Behind};

use crate::name::read_variable;
use crate::reader::Reader;
use crate::{LineFault, Names};
use rss_base::{Call, Name};
use std::alloc::Global;

impl<'a> Reader<'a> {
    /// The call that begins with this word.
    fn call(&mut self, alloc: Global, names: &Names, verb: &str) -> Result<Call, LineFault>
        ensures { ReadsWords (Behind (calls names.now.variables) verb.now) self.old result }
    {
        match verb {
            "insert" => self.insert(alloc),
            "fetch" => self.fetch(names),
            "update" => self.update(alloc, names),
            "delete" => self.delete(names),
            "next" => self.next(names),
            "begin" => self.begin(),
            "end" => self.end(),
            "connect" => self.connect(names),
            "disconnect" => self.disconnect(names),
            "parent" => self.parent(names),
            "open" => self.open(alloc, names),
            "close" => self.close(names),
            "save" => self.save(),
            "restore" => self.restore(names),
            "abort" => self.abort(),
            "lock" => self.lock(),
            "checkpoint" => self.ended(Call::Checkpoint),
            "segment" => self.make_segment(),
            "relation" => self.make_relation(alloc),
            "image" => self.make_image(alloc, false),
            "unique" => self.make_image(alloc, true),
            "link" => self.make_link(),
            "drop" => self.drop_definition(),
            _ => Err(LineFault::Words),
        }
    }

    /// The call that the line is, and the variable that is to stand for its reply.
    pub fn statement(
        &mut self,
        alloc: Global,
        names: &Names,
    ) -> Result<(Option<Name>, Call), LineFault>
        ensures { ReadsWords (IsStatement names.now.variables) self.old result }
    {
        let first = self.word()?;
        if let Some(variable) = read_variable(first) {
            self.fixed("=")?;
            let verb = self.word()?;
            let call = self.call(alloc, names, verb)?;
            return Ok((Some(variable), call));
        }
        let call = self.call(alloc, names, first)?;
        Ok((None, call))
    }
}
