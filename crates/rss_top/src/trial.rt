// A trial: a generated script is run, and its replies are counted.
ghost use Rattle.std.specs.Prelude.{◌≡◌, ◌+◌, ◌^◌, ◌<◌, ◌≤◌};
ghost use Rattle.rss_model.specs.Generator.{most_employees};
ghost use Rattle.rss_top.specs.Lines.{on};
ghost use Rattle.rss_top.specs.Says.{Says};
ghost use Rattle.rss_top.specs.Trial.{tally_line, TellsTrial};
ghost use Rattle.rss_top.specs.Programs.{IsTrial};

use crate::Status;
use crate::counting::{Tally, count_replies};
use crate::generated::GeneratedScript;
use crate::script::run_script;
use crate::telling::Plain;
use crate::writing::{end_with, refuse_damaged, refuse_layout};
use rss_base::{Device, Sink};
use rss_device::MemSink;
use std::alloc::Global;

/// Writes the line of a tally.
fn say_tally<K: Sink>(alloc: Global, tally: &Tally, sink: &mut K) -> Status
    requires { tally.now.ok + tally.now.refused < 2 ^ 64 }
    ensures { Says Status.Ok (tally_line tally.now.ok tally.now.refused) result
        (K.view sink.old) (K.view sink.new) }
{
    let lines = tally.ok + tally.refused;
    let ok = tally.ok;
    let refused = tally.refused;
    let Ok(line) = format!(in alloc; "lines {lines} ok {ok} refused {refused}\n") else {
        return Status::NoMemory;
    };
    end_with(Status::Ok, line.as_bytes(), sink)
}

/// Writes what a trial tells whose script got these replies, by how its run ended. Source and sink
/// of that run lack only memory.
fn tell<K: Sink>(alloc: Global, ran: Status, replies: &[u8], sink: &mut K) -> Status
    requires short { ran ≡ Status.TooLong → ⊥ }
    requires words { ran ≡ Status.Words → ⊥ }
    requires size { ran ≡ Status.WrongSize → ⊥ }
    ensures { TellsTrial ran replies.now result (K.view sink.old) (K.view sink.new) }
{
    match ran {
        Status::Ok => say_tally(alloc, &count_replies(replies), sink),
        Status::NotAStore(place) => refuse_layout(alloc, place, sink),
        Status::Damaged(place) => refuse_damaged(alloc, place, sink),
        Status::DeviceFault => Status::DeviceFault,
        Status::ReadFault | Status::WriteFault | Status::NoMemory => Status::NoMemory,
        Status::TooLong | Status::Words | Status::WrongSize => unreachable!(),
    }
}

/// Runs the script that is generated from a number, with so many employees, over the store of a
/// device, and writes how many lines its replies are. Hands the device back. The script is made line
/// by line; its replies are kept in memory until they are counted.
pub fn run_trial<K: Sink, D: Device>(
    alloc: Global,
    number: u64,
    count: u32,
    sink: &mut K,
    device: D,
) -> (Status, D)
    requires some { 1 ≤ count }
    requires few { count ≤ most_employees }
    ensures { IsTrial number count result.0
        (on (D.view device) (K.view sink.old))
        (on (D.view result.1) (K.view sink.new)) }
{
    let mut script = GeneratedScript::new(alloc, number, count);
    let mut replies = MemSink::new(alloc);
    let (ran, device) = run_script(alloc, Plain, &mut script, &mut replies, device);
    let status = tell(alloc, ran, replies.bytes(), sink);
    (status, device)
}
