//! Runs transcripts over devices in memory: lines of scripts with the replies that stand beside them,
//! what a stop at each moment leaves, and what bytes that are turned make of a store.
//! `data/` holds them, and `list` there names them. The program runs where they lie, or is given the way
//! there, as `data/`. It writes the name of each transcript that is met, and what isn't met of another.
//!
//! In a transcript stand:
//!
//! - `insert 1 r 5 -> ok 0.0`: a line with its reply. A line that gets none ends in ` ->`.
//! - `# ..`: a remark.
//! - `{x*255}` in a line: a text so many times. `{0xff}`: a byte.
//! - `@for 0 128` and `@end`: the lines between them come once for each number from the first on up to
//!   below the second, as `{n}`, `{n+1}`, `{n/128}` and `{n%128}`.
//! - `@store 64 8`: a run over an empty store of so many slots and log pages.
//! - `@case`: a run over what that one left. `@again`: one over what the run before left. `@stopped`: one
//!   over each that a stop at the last moment of the run before may leave.
//! - `@found`, right after a run: what is found before its first commit, and in each further such part
//!   after one commit more. The run is stopped at each of its moments, with the pages that aren't synced
//!   old, new, zeros and 255s: as many commits are found as at the moment before, or one more. The opening
//!   of what it left is stopped so too. And each call of the device fails once, in the opening and the run.
//! - `@writes 2`, `@mapped 13`, `@levels 1`, `@version 3`: how many pages the run before wrote, how many
//!   are mapped after it, how many levels the image `i` has, and the version of the root that is named.
//! - `@made`: changes to the pages that the run before left, as `turn PAGE PLACE BITS`,
//!   `set PAGE PLACE BYTE ..`, `copy PAGE PAGE`, `size PAGES` or `zeros PAGES`, with `; ` between them.
//! - `@probe`: lines that are run over changed pages. `@turned`: such changes, which aren't kept, and what
//!   the probe gets, which writes nothing. `@recovered`: the same where the opening may write.
#![tactic(auto)]

mod counting;
mod lines;
mod part;
mod playing;
mod reading;
mod running;
mod spelling;
mod stopping;
mod turning;

use anyhow::{Result, bail};
use playing::play_file;
use std::{env, fs};

fn main(rt: HostRuntime) -> Result<()> {
    let words: Vec<String> = env::args(&rt)?.collect(rt.alloc())?;
    let folder = words.as_slice().get(1).map_or("", |word| word.as_str());
    let list = fs::read_to_string(&rt, format!(in rt.alloc(); "{folder}list")?.as_str())?;
    let mut failures: u32 = 0;
    for name in list.lines() {
        match play_file(&rt, folder, name) {
            Ok(()) => println!(rt; "{name}")?,
            Err(error) => {
                println!(rt; "FAILED {name}: {error}")?;
                failures = failures.saturating_add(1);
            }
        }
    }
    if failures > 0 {
        bail!("{failures} failed");
    }
    Ok(())
}
