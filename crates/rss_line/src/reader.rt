// The bytes and the words of a line, read one after another.
ghost use Rattle.std.specs.Prelude.{◌≡◌, ◌≤◌, ◌↔◌, IsTrue, Ok, length};
ghost use Rattle.std.specs.List.{list_all, prefix_len};
ghost use Rattle.rss_model.specs.Script.{IsApart};
ghost use Rattle.rss_model.specs.Forms.{IsEmpty, Last};
ghost use Rattle.rss_line.specs.Reads.{is_space, IsOver, Skips, ReadsFront, ReadsPlain};
ghost use Rattle.rss_line.specs.Reads.{ReadsWord, ReadsWords, IsPlain, IsThe, NeedsNoMemory};

use crate::LineFault;
use std::marker::Model;
use std::str;

/// How many spaces the bytes begin with.
fn count_spaces(bytes: &[u8]) -> usize
    ensures count { result ≡ prefix_len is_space bytes.now }
    ensures bound { result ≤ length bytes.now }
{
    bytes.iter().take_while(|byte| **byte == b' ').count()
}

/// Whether a line is over after its spaces: if it ends there, or a comment begins.
fn is_over(bytes: &[u8]) -> bool
    ensures { IsTrue result ↔ IsOver bytes.now }
{
    matches!(bytes, [] | [b'#', ..])
}

/// The bytes of a line that were not read yet.
#[derive(Drop)]
pub struct Reader<'a> {
    pub(crate) rest: &'a [u8],
}

impl<'a> Model for Reader<'a> {
    ghost use Rattle.std.specs.Prelude.{List, ℕ};

    ghost Value = { List ℕ };

    ghost view = { λ r. r.rest.now };
}

impl<'a> Reader<'a> {
    pub fn new(line: &'a [u8]) -> Self
        ensures { result ≡ line.now }
    {
        Reader { rest: line }
    }

    /// Whether no word is left, or what is left is a comment.
    pub fn is_empty(&self) -> bool
        ensures { IsTrue result ↔ IsEmpty self.now }
    {
        let (_, rest) = self.rest.split_at(count_spaces(self.rest));
        is_over(rest)
    }

    /// Whether no word is left.
    pub fn is_at_end(&self) -> bool
        ensures { result ≡ list_all is_space self.now }
    {
        self.rest.iter().all(|byte| *byte == b' ')
    }

    pub(crate) fn skip_spaces(&mut self)
        ensures { Skips self.old self.new }
    {
        let (_, rest) = self.rest.split_at(count_spaces(self.rest));
        self.rest = rest;
    }

    /// The bytes up to a space or the end.
    fn front(&mut self) -> &'a [u8]
        ensures { ReadsFront self.old result.now self.new }
    {
        let length = self.rest.iter().take_while(|byte| **byte != b' ').count();
        let (word, rest) = self.rest.split_at(length);
        self.rest = rest;
        word
    }

    /// The bytes of the next word, which is no text between quotes.
    pub(crate) fn bytes(&mut self) -> &'a [u8]
        ensures { ReadsPlain self.old self.new (Ok result) }
    {
        self.skip_spaces();
        self.front()
    }

    /// The next word, which is no text between quotes.
    pub(crate) fn word(&mut self) -> Result<&'a str, LineFault>
        ensures reads { ReadsPlain self.old self.new result }
        ensures memory { NeedsNoMemory result }
    {
        let Ok(word) = str::from_utf8(self.bytes()) else {
            return Err(LineFault::Words);
        };
        Ok(word)
    }

    /// The next word, which is this one.
    pub(crate) fn fixed(&mut self, expected: &str) -> Result<(), LineFault>
        requires { IsPlain expected.now }
        ensures reads { ReadsWord (IsThe expected.now) self.old self.new result }
        ensures memory { NeedsNoMemory result }
    {
        if self.word()? == expected {
            Ok(())
        } else {
            Err(LineFault::Words)
        }
    }

    /// What was read, if no word is left.
    pub(crate) fn ended<T: Drop>(&self, read: T) -> Result<T, LineFault>
        ensures reads { ReadsWords (Last read) self.now result }
        ensures memory { NeedsNoMemory result }
    {
        if self.is_at_end() {
            Ok(read)
        } else {
            Err(LineFault::Words)
        }
    }

    /// Whether a word may end here.
    pub(crate) fn is_apart(&self) -> bool
        ensures { IsTrue result ↔ IsApart self.now }
    {
        matches!(self.rest, [] | [b' ', ..])
    }
}
