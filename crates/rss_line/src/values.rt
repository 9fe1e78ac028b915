// The values of a line.
ghost use Rattle.std.specs.Prelude.{◌≡◌, ◌≤◌, ◌∷◌, length};
ghost use Rattle.std.specs.List.{prefix_len};
ghost use Rattle.rss_model.specs.Spellings.{quote};
ghost use Rattle.rss_model.specs.Script.{IsValue, AreValues};
ghost use Rattle.rss_line.specs.Reads.{IsPlainValue, ReadsAs, ReadsWord, ReadsQuote, ReadsByte, ReadsText};
ghost use Rattle.rss_line.specs.Reads.{is_unquoted, ReadsUnquoted, HasLength, ReadsWords, NeedsNoMemory};

use crate::LineFault;
use crate::number::read_int;
use crate::reader::Reader;
use rss_base::{MOST_FIELDS, Text, Tuple, Value};
use std::alloc::Global;

/// A value without quotes: a number, or the word for what is undefined.
fn read_plain_value(word: &[u8]) -> Option<Value>
    ensures { ReadsAs (IsPlainValue word.now) result }
{
    if let Some(number) = read_int(word) {
        Some(Value::Int(number))
    } else if word == b"undefined".as_slice() {
        Some(Value::Undefined)
    } else {
        None
    }
}

/// How many bytes stand before the first quote.
fn count_unquoted(bytes: &[u8]) -> usize
    ensures count { result ≡ prefix_len is_unquoted bytes.now }
    ensures bound { result ≤ length bytes.now }
{
    bytes.iter().take_while(|byte| **byte != b'"').count()
}

/// How many bytes the text has whose opening quote stands before these bytes.
fn text_length(bytes: &[u8]) -> Result<usize, LineFault>
    ensures length { HasLength bytes.now result }
    ensures memory { NeedsNoMemory result }
{
    let mut reader = Reader::new(bytes);
    let mut length = 0;
    while reader.text_byte()?.is_some() {
        length += 1;
    }
    Ok(length)
}

impl<'a> Reader<'a> {
    /// The value that stands without quotes.
    pub(crate) fn plain_value(&mut self) -> Result<Value, LineFault>
        ensures reads { ReadsWord IsPlainValue self.old self.new result }
        ensures memory { NeedsNoMemory result }
    {
        read_plain_value(self.bytes()).ok_or(LineFault::Words)
    }

    /// Whether a quote is next, which is then read.
    pub(crate) fn opens_text(&mut self) -> bool
        ensures { ReadsQuote self.old self.new result }
    {
        if let [b'"', rest @ ..] = self.rest {
            self.rest = rest;
            true
        } else {
            false
        }
    }

    /// The next byte of a text: two quotes are one byte, and a single one ends the text.
    pub(crate) fn text_byte(&mut self) -> Result<Option<u8>, LineFault>
        ensures { ReadsByte self.old self.new result }
    {
        let (byte, rest) = match self.rest {
            [b'"', b'"', rest @ ..] => (Some(b'"'), rest),
            [b'"', rest @ ..] => (None, rest),
            [byte, rest @ ..] => (Some(*byte), rest),
            [] => return Err(LineFault::Words),
        };
        self.rest = rest;
        Ok(byte)
    }

    /// The bytes of the text whose opening quote was read, up to its closing quote, if no quote
    /// stands in it. If one does, nothing is read.
    fn unquoted(&mut self) -> Option<&'a [u8]>
        ensures { ReadsUnquoted self.old self.new result }
    {
        let (text, rest) = self.rest.split_at(count_unquoted(self.rest));
        let mut behind = Reader::new(rest);
        let Ok(None) = behind.text_byte() else {
            return None;
        };
        *self = behind;
        Some(text)
    }

    /// The text whose opening quote was read, up to its closing quote, in one allocation.
    fn text(&mut self, alloc: Global) -> Result<Text, LineFault>
        ensures { ReadsText self.old self.new result }
    {
        match self.unquoted() {
            Some(bytes) => Ok(Text::from_slice(alloc, bytes)?),
            None => self.text_of_bytes(alloc),
        }
    }

    /// The same, byte by byte, since a quote in a text stands twice.
    fn text_of_bytes(&mut self, alloc: Global) -> Result<Text, LineFault>
        ensures { ReadsText self.old self.new result }
    {
        let mut text = Text::with_capacity(alloc, text_length(self.rest)?)?;
        while let Some(byte) = self.text_byte()? {
            text.push(byte)?;
        }
        Ok(text)
    }

    /// The value whose opening quote was read. It may have any bytes.
    fn quoted(&mut self, alloc: Global) -> Result<Value, LineFault>
        ensures { ReadsWord IsValue (quote ∷ self.old) self.new result }
    {
        let text = self.text(alloc)?;
        if self.is_apart() {
            Ok(Value::Text(text))
        } else {
            Err(LineFault::Words)
        }
    }

    fn value(&mut self, alloc: Global) -> Result<Value, LineFault>
        ensures { ReadsWord IsValue self.old self.new result }
    {
        self.skip_spaces();
        if self.opens_text() {
            self.quoted(alloc)
        } else {
            self.plain_value()
        }
    }

    /// The values up to the line's end. Their tuple takes one allocation, if they are no more than
    /// a relation has fields.
    pub(crate) fn values(&mut self, alloc: Global) -> Result<Tuple, LineFault>
        ensures { ReadsWords AreValues self.old result }
    {
        // A value takes two bytes at least, with the space before it.
        let room = MOST_FIELDS.min(self.rest.len() / 2);
        let mut tuple = Tuple::with_capacity(alloc, room)?;
        while !self.is_at_end() {
            let value = self.value(alloc)?;
            tuple.push(value)?;
        }
        Ok(tuple)
    }
}
