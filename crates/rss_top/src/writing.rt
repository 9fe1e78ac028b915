// The lines that are written to the sink.
ghost use Rattle.std.specs.Prelude.{◌≡◌, ◌≤◌, [], vec_capacity, OnOk};
ghost use Rattle.rss_model.specs.ReplyText.{not_a_store_line, damaged_line};
ghost use Rattle.rss_top.specs.Says.{Writes, Says};

use crate::Status;
use rss_base::{Place, Sink, write_all};
use rss_line::{LINE_LIMIT, say_damaged, say_not_a_store};
use std::alloc::{AllocError, Global};

/// Empties the buffer and makes it large enough for any answer's line.
pub fn make_room(reply: &mut Vec<u8>) -> Result<(), AllocError>
    ensures empty { reply.new.items ≡ [] }
    ensures room { OnOk result (LINE_LIMIT ≤ vec_capacity reply.new) }
{
    reply.clear();
    reply.reserve(LINE_LIMIT)
}

/// Writes a text.
pub fn write_text<K: Sink>(text: &[u8], sink: &mut K) -> Result<(), Status>
    ensures { Writes text.now (K.view sink.old) (K.view sink.new) result }
{
    match write_all(sink, text) {
        Ok(()) => Ok(()),
        Err(_) => Err(Status::WriteFault),
    }
}

/// Writes a line, and answers the status with which the run then ends.
pub fn end_with<K: Sink>(status: Status, line: &[u8], sink: &mut K) -> Status
    ensures { Says status line.now result
        (K.view sink.old) (K.view sink.new) }
{
    match write_all(sink, line) {
        Ok(()) => status,
        Err(_) => Status::WriteFault,
    }
}

/// Writes the line of a device that is not a store.
pub fn refuse_layout<K: Sink>(alloc: Global, place: Place, sink: &mut K) -> Status
    ensures { Says (Status.NotAStore place) (not_a_store_line place) result
        (K.view sink.old) (K.view sink.new) }
{
    let mut line = Vec::new(alloc);
    let Ok(()) = say_not_a_store(place, &mut line) else {
        return Status::NoMemory;
    };
    end_with(Status::NotAStore(place), line.as_slice(), sink)
}

/// Writes the line of a device that is damaged.
pub fn refuse_damaged<K: Sink>(alloc: Global, place: Place, sink: &mut K) -> Status
    ensures { Says (Status.Damaged place) (damaged_line place) result
        (K.view sink.old) (K.view sink.new) }
{
    let mut line = Vec::new(alloc);
    let Ok(()) = say_damaged(place, &mut line) else {
        return Status::NoMemory;
    };
    end_with(Status::Damaged(place), line.as_slice(), sink)
}
