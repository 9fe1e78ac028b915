//! Runs the examples over devices in memory, as `examples/check` does with the program over files,
//! and once more with as few pages in memory as there may be.
//! `data/` holds them: `list` names each with the store that it wants, and beside each script stand
//! its replies. At last it generates a script. The program runs where they lie, or is given the way there, as `data/`.
#![tactic(auto)]

mod example;
mod generated;

use anyhow::Result;
use example::run_example;
use generated::generate;
use rss_device::MemDevice;
use std::{env, fs};

fn main(rt: HostRuntime) -> Result<()> {
    let words: Vec<String> = env::args(&rt)?.collect(rt.alloc())?;
    let folder = words.as_slice().get(1).map_or("", |word| word.as_str());
    let list = fs::read_to_string(&rt, format!(in rt.alloc(); "{folder}list")?.as_str())?;
    let mut device = MemDevice::empty(rt.alloc());
    for line in list.lines() {
        device = run_example(&rt, folder, line, device)?;
    }
    generate(&rt, folder)
}
