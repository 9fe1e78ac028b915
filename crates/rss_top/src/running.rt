// The top call.
ghost use Rattle.std.specs.Prelude.{◌≡◌, ℕ, map, string_bytes};
ghost use Rattle.rss_words.specs.Words.{AreFormat, AreGenerate, AreTrial};
ghost use Rattle.rss_top.specs.Lines.{on};
ghost use Rattle.rss_top.specs.Programs.{IsProgram};

use crate::Status;
use crate::generating::write_script;
use crate::making::make_store;
use crate::script::run_script;
use crate::telling::{Plain, Talk};
use crate::trial::run_trial;
use crate::unread::unread;
use rss_base::{Device, Sink, Source};
use rss_words::{Command, Task, read_command};
use std::alloc::{AllocError, Global};

/// Does what the words of the command line ask for, the program's own name first, and hands the
/// device back. Of the file that they name the device is the pages.
///
/// `run` runs a script over the store of the device. Each line of the script that isn't blank gets
/// one reply line, which is written before the next line runs. `talk` does the same, and writes the
/// line itself before its reply. `format` makes the device an empty store, and writes `ok`. `gen`
/// writes a script, line by line, and touches neither the device nor the source. `trial` runs that
/// script over the store, and writes how many its replies are.
pub fn run<O: Source, K: Sink, D: Device>(
    alloc: Global,
    words: &[String],
    source: &mut O,
    sink: &mut K,
    device: D,
) -> (Status, D)
    // Over an honest device that holds a store of these tables: the run is one of the relation
    // machine from these tables with nothing open. At each moment of it a stop leaves a store with
    // the machine's committed tables, and before its first line one of these tables or what a stop
    // could leave at entry. A device that holds no store, by all but its log, is refused before
    // anything is written, and a store whose log's positions are used up is left alone. One that is
    // formatted reads as an empty store, and a stop leaves nothing else. A script that is generated
    // is written whole, or run and its replies counted, where nothing fails.
    ensures program { IsProgram (map string_bytes words.now) result.0
        (on (D.view device) (K.view sink.old))
        (on (D.view result.1) (K.view sink.new))
        (O.view source.old) (O.view source.new) }

    // Words that are no command, and a size that no store has, leave all as it was.
    ensures untouched { result.0 ≡ Status.Words → result.1 ≡ device }
    ensures wrong_untouched { result.0 ≡ Status.WrongSize → result.1 ≡ device }
    ensures unread { result.0 ≡ Status.Words → source.new ≡ source.old }
    ensures format_unread { (slots log_pages : ℕ)
        → AreFormat (map string_bytes words.now) slots log_pages
        → source.new ≡ source.old }
    ensures generate_untouched { (number count : ℕ)
        → AreGenerate (map string_bytes words.now) number count
        → result.1 ≡ device }
    ensures generate_unread { (number count : ℕ)
        → AreGenerate (map string_bytes words.now) number count
        → source.new ≡ source.old }
    ensures trial_unread { (number count : ℕ)
        → AreTrial (map string_bytes words.now) number count
        → source.new ≡ source.old }
{
    match read_command(alloc, words) {
        Ok(None) => (Status::Words, device),
        Ok(Some(Command::OnFile(Task::Run))) => run_script(alloc, Plain, source, sink, device),
        Ok(Some(Command::OnFile(Task::Talk))) => run_script(alloc, Talk, source, sink, device),
        Ok(Some(Command::Format { slots, log_pages })) => {
            let mut device = device;
            let status = make_store(alloc, &mut device, slots, log_pages, sink);
            (status, device)
        }
        Ok(Some(Command::Generate { number, count })) => {
            (write_script(alloc, number, count, sink), device)
        }
        Ok(Some(Command::Trial { number, count })) => {
            run_trial(alloc, number, count, sink, device)
        }
        Err(AllocError) => (unread(words), device),
    }
}
