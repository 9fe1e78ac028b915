//! The program `rss`: makes a file a store, runs a script of standard input over the store of a file,
//! and generates a script.
#![tactic(auto)]

use rss_device::{FileDevice, ReaderSource, WriterSink};
use rss_top::{Status, exit_code, run};
use rss_words::file_word;
use std::process::ExitCode;
use std::{env, io};

/// The words of the command line, the program's own name first. Words that are no text are no
/// command.
fn words(rt: &HostRuntime) -> Result<Vec<String>, Status> {
    match env::args(rt) {
        Ok(words) => words.collect(rt.alloc()).map_err(|_| Status::NoMemory),
        Err(error) if error.kind() == io::ErrorKind::OutOfMemory => Err(Status::NoMemory),
        Err(_) => Err(Status::Words),
    }
}

/// Does what the words ask for. If they name no file, none is opened.
fn run_words(rt: &HostRuntime, words: &[String]) -> Status {
    let mut source = ReaderSource::new(rt.reader());
    let mut sink = WriterSink::new(io::writer(rt));
    let device = FileDevice::new(rt, file_word(words).unwrap_or(""));
    let (status, _) = run(rt.alloc(), words, &mut source, &mut sink, device);
    status
}

fn main(rt: HostRuntime) -> ExitCode {
    let status = match words(&rt) {
        Ok(words) => run_words(&rt, words.as_slice()),
        Err(status) => status,
    };
    if status == Status::Words {
        let _ = eprintln!(rt;
            "usage: rss format FILE N G | run FILE | gen NUMBER COUNT | trial FILE NUMBER COUNT | talk FILE"
        );
    }
    exit_code(status)
}
