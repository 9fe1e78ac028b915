// A script, read and run.
ghost use Rattle.std.specs.Prelude.{◌≡◌, ℕ, ◌+◌, ◌*◌, ◌<◌, ◌≤◌, true, false, Ok, OnOk, length};
ghost use Rattle.rss_lines.specs.Lines.{script_limit};
ghost use Rattle.rss_stored.specs.Calls.{calls_most};
ghost use Rattle.rss_top.specs.Manners.{Manner, Line, Again, Over, IsSound, IsEnough, brought};
ghost use Rattle.rss_top.specs.Lines.{DriverView, seen, OpensBetween, RunsMove, MovesIf, RunsScript};

use crate::Status;
use rss_base::{Sink, Source};
use rss_lines::Lines;
use std::alloc::Global;

/// Runs the lines of a script, in some manner: move by move, each with a call of the engine at most.
pub trait Driver {
    /// The manner.
    ghost manner: { Manner };

    /// What there is to see of it. It is up until a move stops the run, and settled if no move is left
    /// that takes no line.
    ghost view: { Self → DriverView manner };

    /// How many calls a byte of a script may bring.
    ghost rate: { ℕ };

    /// How many bytes of a line are looked at.
    fn keeps(&self) -> usize
        ensures some { 1 ≤ result }
        ensures enough { IsEnough manner result };

    /// Makes the next move that takes no line, and writes what is told of it. False if there is none.
    fn go_on<K: Sink>(&mut self, sink: &mut K) -> Result<bool, Status>
        requires up { (view self.old).is_up }
        requires few { (view self.old).calls + (view self.old).owed ≤ calls_most }
        ensures moves { MovesIf Again (seen (view self.old) (K.view sink.old))
            (seen (view self.new) (K.view sink.new)) result }
        ensures settled { result ≡ Ok false → (view self.new).is_settled }
        ensures same { result ≡ Ok false → self.new ≡ self.old }
        ensures silent { result ≡ Ok false → sink.new ≡ sink.old }
        ensures less { result ≡ Ok true → (view self.new).owed < (view self.old).owed }
        ensures calls { (view self.new).calls ≤ (view self.old).calls + (view self.old).owed };

    /// Takes a line, makes its move, and then writes what is told of it.
    fn take<K: Sink>(&mut self, line: &[u8], sink: &mut K) -> Result<(), Status>
        requires up { (view self.old).is_up }
        requires settled { (view self.old).is_settled }
        requires few { (view self.old).calls + (view self.old).owed
            + brought rate (length line.now) ≤ calls_most }
        ensures moves { RunsMove (seen (view self.old) (K.view sink.old))
            (seen (view self.new) (K.view sink.new)) (Line line.now) result }
        ensures calls { (view self.new).calls
            ≤ (view self.old).calls + (view self.old).owed + brought rate (length line.now) }
        ensures owes { OnOk result ((view self.new).calls + (view self.new).owed
            ≤ (view self.old).calls + (view self.old).owed + brought rate (length line.now)) };

    /// Makes the move at the script's end, which makes no call, and writes what is told of it. False if
    /// there is none.
    fn finish<K: Sink>(&mut self, sink: &mut K) -> Result<bool, Status>
        requires up { (view self.old).is_up }
        requires settled { (view self.old).is_settled }
        ensures moves { MovesIf Over (seen (view self.old) (K.view sink.old))
            (seen (view self.new) (K.view sink.new)) result }
        ensures same { result ≡ Ok false → self.new ≡ self.old }
        ensures silent { result ≡ Ok false → sink.new ≡ sink.old }
        ensures calls { (view self.new).calls ≤ (view self.old).calls };

    ghost opens: { (driver : Self) → OpensBetween (view driver) };

    ghost sound: { IsSound manner };
}

/// Reads a script and runs its lines, each as soon as its end is read and no other move is left.
pub fn drive<O: Source, K: Sink, D: Driver>(
    alloc: Global,
    driver: &mut D,
    source: &mut O,
    sink: &mut K,
) -> Status
    requires up { (D.view driver.old).is_up }
    requires few { (D.view driver.old).calls + (D.view driver.old).owed
        + D.rate * script_limit ≤ calls_most }
    ensures { RunsScript D.rate
        (seen (D.view driver.old) (K.view sink.old))
        (seen (D.view driver.new) (K.view sink.new))
        (O.view source.old) (O.view source.new) result }
{
    let Ok(mut lines) = Lines::new(alloc, driver.keeps()) else {
        return Status::NoMemory;
    };
    loop {
        match driver.go_on(sink) {
            Ok(true) => continue,
            Ok(false) => {}
            Err(status) => return status,
        }
        match lines.advance(source) {
            Ok(true) => {
                let bytes = lines.line();
                if let Err(status) = driver.take(bytes, sink) {
                    return status;
                }
            }
            Ok(false) => {
                if let Err(status) = driver.finish(sink) {
                    return status;
                }
                return Status::Ok;
            }
            Err(why) => return Status::from(why),
        }
    }
}
