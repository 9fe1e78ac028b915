// What the words of the command line ask for.
ghost use Rattle.std.specs.Prelude.{map, string_bytes, IfOk, OnErr};
ghost use Rattle.rss_words.specs.Words.{IsCommand, Reads};

use crate::good::are_good;
use crate::parsing::parse;
use crate::task::Task;
use std::alloc::{AllocError, Global};

/// What is to be done.
#[derive(Clone, Copy)]
pub enum Command {
    /// A script is run over the store of a file.
    OnFile(Task),
    /// A file is made an empty store.
    Format { slots: u64, log_pages: u64 },
    /// A script is generated.
    Generate { number: u64, count: u32 },
    /// A script is generated and run over the store of a file, and its replies are counted.
    Trial { number: u64, count: u32 },
}

/// The command of these words, the program's own name first. Words that are none are told as such
/// whether there is memory or not, so they are tested before they are read.
pub fn read_command(alloc: Global, words: &[String]) -> Result<Option<Command>, AllocError>
    ensures read { IfOk result (Reads (map string_bytes words.now)) }
    ensures memory { OnErr result (IsCommand (map string_bytes words.now)) }
{
    if !are_good(words) {
        return Ok(None);
    }
    Ok(Some(parse(alloc, words)?))
}
