// A device, made an empty store.
ghost use Rattle.std.specs.Prelude.{◌≡◌, Ok};
ghost use Rattle.rss_base.specs.declared.answer.Reply.TheVariants.{Ok as Done};
ghost use Rattle.rss_model.specs.ReplyText.{answer_line};
ghost use Rattle.rss_top.specs.Lines.{on};
ghost use Rattle.rss_top.specs.Says.{Says};
ghost use Rattle.rss_top.specs.Format.{IsFormat};

use crate::Status;
use crate::writing::end_with;
use rss_base::{Device, OpenFault, Reply, Sink};
use rss_line::say;
use rss_rsi::format;
use std::alloc::Global;

/// Writes the line of a format that was done.
fn say_done<K: Sink>(alloc: Global, sink: &mut K) -> Status
    ensures { Says Status.Ok (answer_line (Ok Done)) result
        (K.view sink.old) (K.view sink.new) }
{
    let mut line = Vec::new(alloc);
    let Ok(()) = say(&Ok(Reply::Ok), &mut line) else {
        return Status::NoMemory;
    };
    end_with(Status::Ok, line.as_slice(), sink)
}

/// Makes a device an empty store of so many slots and log pages, and says so.
pub fn make_store<K: Sink, D: Device>(
    alloc: Global,
    device: &mut D,
    slots: u64,
    log_pages: u64,
    sink: &mut K,
) -> Status
    ensures format { IsFormat slots log_pages result
        (on (D.view device.old) (K.view sink.old))
        (on (D.view device.new) (K.view sink.new)) }
    ensures untouched { result ≡ Status.WrongSize → device.new ≡ device.old }
{
    let (Ok(slots), Ok(log_pages)) = (u32::try_from(slots), u32::try_from(log_pages)) else {
        return Status::WrongSize;
    };
    match format(alloc, device, slots, log_pages) {
        Ok(()) => say_done(alloc, sink),
        Err(OpenFault::Device) => Status::DeviceFault,
        Err(OpenFault::WrongSize) => Status::WrongSize,
        Err(OpenFault::NoMemory) => Status::NoMemory,
        Err(OpenFault::NotAStore(_) | OpenFault::Damaged(_)) => unreachable!(),
    }
}
