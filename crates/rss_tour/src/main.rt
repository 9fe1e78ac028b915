//! A tour of a stop: runs the script of standard input over a new store of 64 slots and 8 log pages
//! in memory. It tells of each moment of the run which page was written. It also tells which tables
//! a stop there leaves, by what it leaves of the pages that weren't synced.
#![tactic(auto)]

mod pages;
mod stops;
mod tables;
mod tour;

use anyhow::Result;
use std::io;
use tour::Tour;

fn main(rt: HostRuntime) -> Result<()> {
    let script = io::read_to_string(rt.alloc(), rt.reader())?;
    let mut tour = Tour::new(rt.alloc())?;
    tour.begin(&rt)?;
    for byte in script.as_bytes() {
        tour.take(&rt, *byte)?;
    }
    tour.end(&rt)
}
