// A script, run over the store of a device.
ghost use Rattle.std.specs.Prelude.{◌≡◌, ◌+◌, ◌*◌, ◌≤◌};
ghost use Rattle.rss_lines.specs.Lines.{script_limit};
ghost use Rattle.rss_stored.specs.Calls.{calls_most};
ghost use Rattle.rss_top.specs.Lines.{seen, on, RunsScript};
ghost use Rattle.rss_top.specs.Says.{TellsDamage};
ghost use Rattle.rss_top.specs.Tellings.{told_by};
ghost use Rattle.rss_top.specs.Programs.{IsScriptRun};

use crate::Status;
use crate::driving::{Driver, drive};
use crate::scripted::Scripted;
use crate::telling::Teller;
use crate::writing::{refuse_damaged, refuse_layout};
use rss_base::{Device, OpenFault, Sink, Source, Unopened};
use rss_rsi::{MOST_FRAMES, open};
use std::alloc::Global;

/// Runs a script over a store that is open. A store that a line finds damaged is refused.
fn run_store<O: Source, K: Sink, D: Driver>(
    alloc: Global,
    driver: &mut D,
    source: &mut O,
    sink: &mut K,
) -> Status
    requires up { (D.view driver.old).is_up }
    requires few { (D.view driver.old).calls + (D.view driver.old).owed
        + D.rate * script_limit ≤ calls_most }
    ensures runs { RunsScript D.rate
        (seen (D.view driver.old) (K.view sink.old))
        (seen (D.view driver.new) (K.view sink.new))
        (O.view source.old) (O.view source.new) result }
    ensures tells { TellsDamage result (K.view sink.old) (K.view sink.new) }
{
    match drive(alloc, driver, source, sink) {
        Status::Damaged(place) => refuse_damaged(alloc, place, sink),
        status => status,
    }
}

/// Opens the store of a device, runs a script over it, tells what its lines get, and hands the device
/// back.
pub fn run_script<O: Source, K: Sink, D: Device, T: Teller + Drop>(
    alloc: Global,
    teller: T,
    source: &mut O,
    sink: &mut K,
    device: D,
) -> (Status, D)
    requires { T.memory teller ≡ T.telling.start }
    ensures { IsScriptRun (told_by T.telling) result.0
        (on (D.view device) (K.view sink.old))
        (on (D.view result.1) (K.view sink.new))
        (O.view source.old) (O.view source.new) }
{
    match open(alloc, device, MOST_FRAMES) {
        Ok(store) => {
            let mut scripted = Scripted::new(alloc, store, teller);
            let status = run_store(alloc, &mut scripted, source, sink);
            (status, scripted.into_engine().into_pages().into_device())
        }
        Err(unopened) => {
            let Unopened { device, fault } = unopened;
            match fault {
                OpenFault::Device => (Status::DeviceFault, device),
                OpenFault::NoMemory => (Status::NoMemory, device),
                OpenFault::NotAStore(place) => (refuse_layout(alloc, place, sink), device),
                OpenFault::Damaged(place) => (refuse_damaged(alloc, place, sink), device),
                OpenFault::WrongSize => unreachable!(),
            }
        }
    }
}
