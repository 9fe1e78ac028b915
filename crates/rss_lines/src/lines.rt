// The lines of a source.
ghost use Rattle.std.specs.Prelude.{◌≡◌, ◌≤◌, [], length, false, IfOk, OnOk, OnErr};
ghost use Rattle.rss_lines.specs.Lines.{at_start, Advances};
ghost use Rattle.rss_lines.specs.Pieces.{passed, FindsEnd, Fills};

use crate::Unread;
use crate::piece::{end_of_line, read_piece};
use rss_base::Source;
use std::alloc::{AllocError, Global};
use std::marker::Model;

/// How many bytes of the source are asked for at a time.
const PIECE_BYTES: usize = 65_536;

/// A script has fewer bytes than this.
pub const SCRIPT_BYTES: usize = 1 << 30;

/// The lines of a source, one after another, from a source of fewer than 2^30 bytes. It is read in
/// pieces of at most 65,536 bytes.
#[derive(Drop)]
pub struct Lines {
    keep: usize,
    taken: usize,
    over: bool,
    line: Vec<u8>,
    /// What was read last. The bytes from `from` until `until` stand after the line.
    piece: Vec<u8>,
    from: usize,
    until: usize,
}

impl Model for Lines {
    ghost use Rattle.std.specs.Prelude.{◌-◌, take, drop};
    ghost use Rattle.rss_lines.specs.Lines.{LinesView};

    ghost Value = { LinesView };

    ghost use Rattle.rss_lines.specs.Held.{IsHeld};

    ghost view = { λ l. record {
      keep = l.keep;
      taken = l.taken;
      line = l.line.items;
      rest = take (l.until - l.from) (drop l.from l.piece.items);
      over = l.over;
    } };

    ghost invariant = { IsHeld };
}

impl Lines {
    /// Of each line so many bytes are kept.
    pub fn new(alloc: Global, keep: usize) -> Result<Self, AllocError>
        requires { 1 ≤ keep }
        ensures { IfOk result (λ lines. lines ≡ at_start keep) }
    {
        Ok(Lines {
            keep,
            taken: 0,
            over: false,
            line: Vec::new(alloc),
            piece: vec![in alloc; 0u8; PIECE_BYTES]?,
            from: 0,
            until: 0,
        })
    }

    /// What is kept of the line that was found last, without its end.
    pub fn line(&self) -> &[u8]
        ensures { result.now ≡ self.now.line }
    {
        self.line.as_slice()
    }

    /// What was read after the line.
    fn rest(&self) -> &[u8]
        ensures { result.now ≡ self.now.rest }
    {
        &self.piece[self.from..self.until]
    }

    /// Finds the next line, and reads the source if none ends in what was read. The last line may
    /// have no end. False if the script is over, and from then on: a source that was over isn't
    /// read again. What an error cuts off is lost: the next call goes on after the front of the
    /// line that was looked through.
    pub fn advance<O: Source>(&mut self, source: &mut O) -> Result<bool, Unread>
        ensures { Advances self.old self.new (O.view source.old) (O.view source.new) result }
    {
        self.line.clear();
        if self.over {
            return Ok(false);
        }
        while !self.find()? {
            if !self.fill(source)? {
                return Ok(!self.line().is_empty());
            }
        }
        Ok(true)
    }

    /// Looks for the end of the line in what was read, and passes it with all that stands before it,
    /// or all that was read.
    fn find(&mut self) -> Result<bool, AllocError>
        ensures found { IfOk result (λ found. FindsEnd self.old self.new found) }
        ensures unmade { OnErr result (self.new ≡ self.old) }
    {
        match end_of_line(self.rest()) {
            Some(at) => {
                self.pass(at)?;
                self.from += 1;
                Ok(true)
            }
            None => {
                self.pass(self.until - self.from)?;
                Ok(false)
            }
        }
    }

    /// Lets so many bytes that were read go to the line, of which so much is kept.
    fn pass(&mut self, count: usize) -> Result<(), AllocError>
        requires { count ≤ length self.old.rest }
        ensures passed { OnOk result (self.new ≡ passed self.old count) }
        ensures unmade { OnErr result (self.new ≡ self.old) }
    {
        let room = self.keep - self.line.len();
        let kept = count.min(room);
        self.line
            .extend_from_slice(&self.piece[self.from..self.from + kept])?;
        self.from += count;
        Ok(())
    }

    /// Reads the next piece, if all that was read was passed. False at the source's end.
    fn fill<O: Source>(&mut self, source: &mut O) -> Result<bool, Unread>
        requires going { self.old.over ≡ false }
        requires none { self.old.rest ≡ [] }
        ensures { Fills self.old self.new (O.view source.old) (O.view source.new) result }
    {
        let most = PIECE_BYTES.min(SCRIPT_BYTES - self.taken);
        if most == 0 {
            return Err(Unread::TooLong);
        }
        self.from = 0;
        self.until = 0;
        let count = read_piece(source, &mut self.piece, most)?;
        self.until = count;
        self.taken += count;
        self.over = count == 0;
        Ok(count > 0)
    }
}
