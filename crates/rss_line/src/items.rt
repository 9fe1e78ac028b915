// What the words of a line stand for.
ghost use Rattle.rss_model.specs.Script.{IsTransaction, IsNameWord, IsTidIn, IsNumberIn, IsMode};
ghost use Rattle.rss_model.specs.Script.{IsField, StandFor, AreNames, AreFieldWords};
ghost use Rattle.rss_line.specs.Reads.{ReadsAs, ReadsWord, ReadsTarget, ReadsWords, NeedsNoMemory};

use crate::field::read_field;
use crate::name::read_name;
use crate::number::{read_number_in, read_tid_in, read_transaction};
use crate::reader::Reader;
use crate::{LineFault, Names};
use rss_base::{FieldDef, Fields, MOST_FIELDS, Name, NameList, Tid};
use std::alloc::Global;

/// A transaction, and what it calls on: a relation or a link.
#[derive(Drop)]
pub struct Target {
    pub transaction: u32,
    pub name: Name,
}

/// How an item is locked: whether exclusively.
fn read_mode(word: &str) -> Option<bool>
    ensures { ReadsAs (IsMode word.now) result }
{
    match word {
        "exclusive" => Some(true),
        "shared" => Some(false),
        _ => None,
    }
}

impl<'a> Reader<'a> {
    pub(crate) fn transaction(&mut self) -> Result<u32, LineFault>
        ensures reads { ReadsWord IsTransaction self.old self.new result }
        ensures memory { NeedsNoMemory result }
    {
        read_transaction(self.bytes()).ok_or(LineFault::Words)
    }

    pub(crate) fn name(&mut self) -> Result<Name, LineFault>
        ensures reads { ReadsWord IsNameWord self.old self.new result }
        ensures memory { NeedsNoMemory result }
    {
        read_name(self.bytes()).ok_or(LineFault::Words)
    }

    pub(crate) fn target(&mut self) -> Result<Target, LineFault>
        ensures reads { ReadsTarget self.old self.new result }
        ensures memory { NeedsNoMemory result }
    {
        let transaction = self.transaction()?;
        let name = self.name()?;
        Ok(Target { transaction, name })
    }

    /// An identifier, or a variable that stands for one.
    pub(crate) fn tid(&mut self, names: &Names) -> Result<Tid, LineFault>
        ensures reads { ReadsWord (IsTidIn names.now.variables) self.old self.new result }
        ensures memory { NeedsNoMemory result }
    {
        read_tid_in(self.word()?, names).ok_or(LineFault::Words)
    }

    /// The number of a scan or a save point, or a variable that stands for a number.
    pub(crate) fn number(&mut self, names: &Names) -> Result<u32, LineFault>
        ensures reads { ReadsWord (IsNumberIn names.now.variables) self.old self.new result }
        ensures memory { NeedsNoMemory result }
    {
        read_number_in(self.word()?, names).ok_or(LineFault::Words)
    }

    /// How an item is locked: whether exclusively.
    pub(crate) fn mode(&mut self) -> Result<bool, LineFault>
        ensures reads { ReadsWord IsMode self.old self.new result }
        ensures memory { NeedsNoMemory result }
    {
        read_mode(self.word()?).ok_or(LineFault::Words)
    }

    /// The names up to the line's end, however many there are.
    fn name_list(&mut self, alloc: Global) -> Result<NameList, LineFault>
        ensures { ReadsWords (StandFor IsNameWord) self.old result }
    {
        let mut names = NameList::new(alloc);
        while !self.is_at_end() {
            let name = self.name()?;
            names.push(name)?;
        }
        Ok(names)
    }

    /// The names up to the line's end: one at least.
    pub(crate) fn names(&mut self, alloc: Global) -> Result<NameList, LineFault>
        ensures { ReadsWords AreNames self.old result }
    {
        let names = self.name_list(alloc)?;
        if names.as_slice().is_empty() {
            Err(LineFault::Words)
        } else {
            Ok(names)
        }
    }

    fn field(&mut self) -> Result<FieldDef, LineFault>
        ensures reads { ReadsWord IsField self.old self.new result }
        ensures memory { NeedsNoMemory result }
    {
        read_field(self.word()?).ok_or(LineFault::Words)
    }

    /// The fields up to the line's end, however many there are.
    fn field_list(&mut self, alloc: Global) -> Result<Fields, LineFault>
        ensures { ReadsWords (StandFor IsField) self.old result }
    {
        let mut fields = Fields::new(alloc);
        while !self.is_at_end() {
            let field = self.field()?;
            fields.push(field)?;
        }
        Ok(fields)
    }

    /// The fields of a relation up to the line's end: one at least, and as many at most as it may
    /// have.
    pub(crate) fn fields(&mut self, alloc: Global) -> Result<Fields, LineFault>
        ensures { ReadsWords AreFieldWords self.old result }
    {
        let fields = self.field_list(alloc)?;
        let count = fields.as_slice().len();
        if count == 0 || count > MOST_FIELDS {
            Err(LineFault::Words)
        } else {
            Ok(fields)
        }
    }
}
