// Whose call a line is. No variable is looked up and nothing is kept, so no memory is taken.
ghost use Rattle.std.specs.Prelude.{◌≡◌, ◌∷◌, ℕ, Some, IfSome};
ghost use Rattle.rss_model.specs.Spellings.{quote};
ghost use Rattle.rss_model.specs.Forms.{OneOf};
ghost use Rattle.rss_line.specs.Reads.{ReadsAs, ReadsWord, ReadsWords, Behind, NeedsNoMemory, SkipsText};
ghost use Rattle.rss_line.specs.Owners.{IsOwnedBy, IsAnyTid, IsAnyNumber, IsAnyValue, AreAnyValues};
ghost use Rattle.rss_line.specs.Owners.{AnyNumbered, AnyNamed, OnAnyTuple, AnyInsert, AnyUpdate, AnyAfter};
ghost use Rattle.rss_line.specs.Owners.{any_spots, AnyPlace, AnyConnect, AnyImageScan, AnyLinkScan};
ghost use Rattle.rss_line.specs.Owners.{any_scans, AnyLock, any_locks, arguments, owned, HasOwner};

use crate::LineFault;
use crate::name::read_variable;
use crate::number::{read_count, read_tid};
use crate::reader::Reader;
use crate::reading::LINE_LIMIT;

/// The transaction whose call a line is under some variables, if it is one's.
pub fn owner(line: &[u8]) -> Option<u32>
    ensures owned { IfSome result (λ t. IsOwnedBy t line.now) }
    ensures only { (t : ℕ) → IsOwnedBy t line.now → result ≡ Some t }
{
    if line.len() > LINE_LIMIT {
        return None;
    }
    Reader::new(line).owner().ok()
}

/// An identifier, or any variable.
fn skip_tid(word: &str) -> Option<()>
    ensures { ReadsAs (IsAnyTid word.now) result }
{
    if read_variable(word).is_some() {
        return Some(());
    }
    if read_tid(word).is_some() {
        return Some(());
    }
    None
}

/// A number, or any variable.
fn skip_number(word: &str) -> Option<()>
    ensures { ReadsAs (IsAnyNumber word.now) result }
{
    if read_variable(word).is_some() {
        return Some(());
    }
    if read_count(word).is_some() {
        return Some(());
    }
    None
}

impl<'a> Reader<'a> {
    fn any_tid(&mut self) -> Result<(), LineFault>
        ensures reads { ReadsWord IsAnyTid self.old self.new result }
        ensures memory { NeedsNoMemory result }
    {
        skip_tid(self.word()?).ok_or(LineFault::Words)
    }

    fn any_number(&mut self) -> Result<(), LineFault>
        ensures reads { ReadsWord IsAnyNumber self.old self.new result }
        ensures memory { NeedsNoMemory result }
    {
        skip_number(self.word()?).ok_or(LineFault::Words)
    }

    /// The text whose opening quote was read, up to its closing quote.
    fn skip_text(&mut self) -> Result<(), LineFault>
        ensures skips { SkipsText self.old self.new result }
        ensures memory { NeedsNoMemory result }
    {
        while self.text_byte()?.is_some() {}
        Ok(())
    }

    /// The value whose opening quote was read.
    fn any_quoted(&mut self) -> Result<(), LineFault>
        ensures reads { ReadsWord IsAnyValue (quote ∷ self.old) self.new result }
        ensures memory { NeedsNoMemory result }
    {
        self.skip_text()?;
        if self.is_apart() {
            Ok(())
        } else {
            Err(LineFault::Words)
        }
    }

    fn any_value(&mut self) -> Result<(), LineFault>
        ensures reads { ReadsWord IsAnyValue self.old self.new result }
        ensures memory { NeedsNoMemory result }
    {
        self.skip_spaces();
        if self.opens_text() {
            return self.any_quoted();
        }
        self.plain_value()?;
        Ok(())
    }

    /// The values up to the line's end.
    fn any_values(&mut self) -> Result<(), LineFault>
        ensures reads { ReadsWords AreAnyValues self.old result }
        ensures memory { NeedsNoMemory result }
    {
        while !self.is_at_end() {
            self.any_value()?;
        }
        Ok(())
    }

    fn any_numbered(&mut self) -> Result<(), LineFault>
        ensures reads { ReadsWords AnyNumbered self.old result }
        ensures memory { NeedsNoMemory result }
    {
        self.any_number()?;
        self.ended(())
    }

    fn any_named(&mut self) -> Result<(), LineFault>
        ensures reads { ReadsWords AnyNamed self.old result }
        ensures memory { NeedsNoMemory result }
    {
        let _name = self.name()?;
        self.ended(())
    }

    fn on_any_tuple(&mut self) -> Result<(), LineFault>
        ensures reads { ReadsWords OnAnyTuple self.old result }
        ensures memory { NeedsNoMemory result }
    {
        let _name = self.name()?;
        self.any_tid()?;
        self.ended(())
    }

    fn any_insert(&mut self) -> Result<(), LineFault>
        ensures reads { ReadsWords AnyInsert self.old result }
        ensures memory { NeedsNoMemory result }
    {
        let _name = self.name()?;
        self.any_values()
    }

    fn any_update(&mut self) -> Result<(), LineFault>
        ensures reads { ReadsWords AnyUpdate self.old result }
        ensures memory { NeedsNoMemory result }
    {
        let _name = self.name()?;
        self.any_tid()?;
        self.any_values()
    }

    fn any_after(&mut self) -> Result<(), LineFault>
        ensures reads { ReadsWords AnyAfter self.old result }
        ensures memory { NeedsNoMemory result }
    {
        self.any_tid()?;
        self.ended(())
    }

    /// The spot that begins with this word.
    fn any_spot_behind(&mut self, word: &str) -> Result<(), LineFault>
        ensures reads { ReadsWords (Behind any_spots word.now) self.old result }
        ensures memory { NeedsNoMemory result }
    {
        match word {
            "first" => self.ended(()),
            "last" => self.ended(()),
            "after" => self.any_after(),
            _ => Err(LineFault::Words),
        }
    }

    fn any_spot(&mut self) -> Result<(), LineFault>
        ensures reads { ReadsWords (OneOf any_spots) self.old result }
        ensures memory { NeedsNoMemory result }
    {
        let word = self.word()?;
        self.any_spot_behind(word)
    }

    /// A spot, and maybe a parent before it.
    fn any_place(&mut self) -> Result<(), LineFault>
        ensures reads { ReadsWords AnyPlace self.old result }
        ensures memory { NeedsNoMemory result }
    {
        let word = self.word()?;
        match skip_tid(word) {
            Some(()) => self.any_spot(),
            None => self.any_spot_behind(word),
        }
    }

    fn any_connect(&mut self) -> Result<(), LineFault>
        ensures reads { ReadsWords AnyConnect self.old result }
        ensures memory { NeedsNoMemory result }
    {
        let _name = self.name()?;
        self.any_tid()?;
        self.any_place()
    }

    fn any_image_scan(&mut self) -> Result<(), LineFault>
        ensures reads { ReadsWords AnyImageScan self.old result }
        ensures memory { NeedsNoMemory result }
    {
        let _image = self.name()?;
        if self.is_at_end() {
            return Ok(());
        }
        self.fixed("from")?;
        self.any_values()
    }

    fn any_link_scan(&mut self) -> Result<(), LineFault>
        ensures reads { ReadsWords AnyLinkScan self.old result }
        ensures memory { NeedsNoMemory result }
    {
        let _link = self.name()?;
        if self.is_at_end() {
            return Ok(());
        }
        self.any_tid()?;
        self.ended(())
    }

    /// What a scan goes over.
    fn any_scan(&mut self) -> Result<(), LineFault>
        ensures reads { ReadsWords (OneOf any_scans) self.old result }
        ensures memory { NeedsNoMemory result }
    {
        match self.word()? {
            "relation" => self.any_named(),
            "image" => self.any_image_scan(),
            "link" => self.any_link_scan(),
            _ => Err(LineFault::Words),
        }
    }

    fn any_lock(&mut self) -> Result<(), LineFault>
        ensures reads { ReadsWords AnyLock self.old result }
        ensures memory { NeedsNoMemory result }
    {
        let _name = self.name()?;
        let _exclusive = self.mode()?;
        self.ended(())
    }

    /// What is locked.
    fn any_item(&mut self) -> Result<(), LineFault>
        ensures reads { ReadsWords (OneOf any_locks) self.old result }
        ensures memory { NeedsNoMemory result }
    {
        match self.word()? {
            "segment" => self.any_lock(),
            "relation" => self.any_lock(),
            _ => Err(LineFault::Words),
        }
    }

    /// What stands after the transaction of a call that begins with this word.
    fn arguments(&mut self, verb: &str) -> Result<(), LineFault>
        ensures reads { ReadsWords (Behind arguments verb.now) self.old result }
        ensures memory { NeedsNoMemory result }
    {
        match verb {
            "begin" => self.ended(()),
            "save" => self.ended(()),
            "restore" => self.any_numbered(),
            "end" => self.ended(()),
            "abort" => self.ended(()),
            "insert" => self.any_insert(),
            "fetch" => self.on_any_tuple(),
            "update" => self.any_update(),
            "delete" => self.on_any_tuple(),
            "connect" => self.any_connect(),
            "disconnect" => self.on_any_tuple(),
            "parent" => self.on_any_tuple(),
            "open" => self.any_scan(),
            "next" => self.any_numbered(),
            "close" => self.any_numbered(),
            "lock" => self.any_item(),
            _ => Err(LineFault::Words),
        }
    }

    /// The transaction of the call that begins with this word.
    fn owner_behind(&mut self, verb: &str) -> Result<u32, LineFault>
        ensures reads { ReadsWords (Behind (owned arguments) verb.now) self.old result }
        ensures memory { NeedsNoMemory result }
    {
        let transaction = self.transaction()?;
        self.arguments(verb)?;
        Ok(transaction)
    }

    /// The transaction whose call the line is.
    fn owner(&mut self) -> Result<u32, LineFault>
        ensures reads { ReadsWords HasOwner self.old result }
        ensures memory { NeedsNoMemory result }
    {
        let first = self.word()?;
        if let Some(_variable) = read_variable(first) {
            self.fixed("=")?;
            let verb = self.word()?;
            return self.owner_behind(verb);
        }
        self.owner_behind(first)
    }
}
