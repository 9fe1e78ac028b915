// A generated script.
use anyhow::{Context, Result, ensure};
use rss_device::{MemDevice, MemSink, MemSource};
use rss_scripts::run_words;
use rss_top::Status;
use std::fs;
use std::rt::Files;

/// Generates the script of these words, and it is the one that lies beside the examples.
pub(crate) fn generate<R: Files + AllocGlobal + Print>(rt: &R, folder: &str) -> Result<()> {
    let path = format!(in rt.alloc(); "{folder}generated")?;
    let script = fs::read(rt, path.as_str()).context(format_args!("reading {path}"))?;
    let mut source = MemSource::new(b"");
    let mut sink = MemSink::new(rt.alloc());
    let words = ["gen", "1", "1"];
    let device = MemDevice::empty(rt.alloc());
    let (status, _) = run_words(rt.alloc(), &words, &mut source, &mut sink, device)?;
    ensure!(status == Status::Ok, "gen 1 1: ended with {status:?}");
    ensure!(sink.bytes() == script.as_slice(), "gen 1 1: another script");
    println!(rt; "gen 1 1")?;
    Ok(())
}
