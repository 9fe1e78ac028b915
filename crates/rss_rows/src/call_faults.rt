// A store of which a device call has failed is down.
use crate::harness::{SMALL, store_with_r};
use crate::stops::{FIRST, assert_each_fails};
use rss_base::CallError;
use rss_buffer::Buffer;
use rss_device::{MemDevice, MemSink};
use rss_images::{assert_same, failing_at};
use rss_rsi::{LEAST_FRAMES, Rss, open};
use rss_scripts::{run_lines, without_moments};
use rss_stored::{CALLS_MOST, Engine};
use rss_top::Status;
use std::alloc::Global;
use std::test::Fail;

/// Ways back to save points on both sides of a checkpoint, and after another one.
const SAVES: &[u8] = b"\
begin 1
insert 1 r 1
save 1
insert 1 r 2
checkpoint
save 1
insert 1 r 3
restore 1 2
restore 1 1
insert 1 r 4
end 1
begin 1
update 1 r 0.0 5
save 1
delete 1 r 0.1
checkpoint
restore 1 1
end 1
";

/// Whether a store answers a further call as one does that is down, and leaves its device alone.
fn is_down(store: &mut Rss<Buffer<MemDevice>>) -> Result<bool, Fail> {
    if store.calls() >= CALLS_MOST {
        return Err("too many calls".into());
    }
    let moment = store.pages().device().moment();
    match store.checkpoint() {
        Err(CallError::Down) => Ok(store.pages().device().moment() == moment),
        _ => Ok(false),
    }
}

/// Opens a store of which this call fails, and runs a script over it. Where a line failed, the store is
/// down. Answers how that ended.
fn fail_engine(alloc: Global, store: &MemDevice, script: &[u8], call: u64) -> Result<Status, Fail> {
    let device = failing_at(alloc, without_moments(alloc, store)?, call)?;
    let Ok(mut engine) = open(alloc, device, LEAST_FRAMES) else {
        return Ok(Status::DeviceFault);
    };
    let mut sink = MemSink::new(alloc);
    let status = run_lines(&mut engine, alloc, script, &mut sink);
    let is_down = is_down(&mut engine);
    let _ = engine.into_pages().into_device();
    assert_same(&is_down?, &(status != Status::Ok), ("call", call))?;
    Ok(status)
}

#[test]
fn a_store_that_has_failed_leaves_its_device_alone(rt: HostRuntime) -> Result<(), Fail> {
    let alloc = rt.alloc();
    let store = store_with_r(alloc, SMALL)?;
    for script in [FIRST.row.script, SAVES] {
        assert_each_fails(|call| fail_engine(alloc, &store, script, call))?;
    }
    Ok(())
}
