// The engine as the lines of a script see it.
ghost use Rattle.std.specs.Prelude.{◌≡◌, ◌<◌, IsErrOf};
ghost use Rattle.rss_base.specs.DiskRule.{IsTold};
ghost use Rattle.rss_stored.specs.Calls.{EngineView, IsCallOf, OpensShown, calls_most};
ghost use Rattle.rss_model.specs.Defining.{DefinesNames, LocksGranule};

use rss_base::{Call, CallError, Reply};

/// An engine is asked for so many calls at most, from its opening on.
pub const CALLS_MOST: u32 = u32::MAX - 1;

/// A store that is open: a relation machine over a device.
pub trait Engine {
    /// What there is to see of it. It is up until a call meets a fault of the device, or damage.
    ghost view: { Self → EngineView };

    /// Makes a call. Over a device that tells its contents it is a step of the machine, and each
    /// image at a moment of it opens to the committed tables before or after. The names that it
    /// is to define have the form of names, and what it is to lock is a segment or a relation, as
    /// those of a script's lines are. It is asked for fewer calls than `CALLS_MOST`: so positions of
    /// the log and numbers of save points stay numbers.
    fn call(&mut self, call: &Call) -> Result<Reply, CallError>
        requires names { DefinesNames call.now }
        requires granule { LocksGranule call.now }
        requires few { (view self.old).calls < calls_most }
        ensures done { IsCallOf (view self.old) (view self.new) call.now result }
        ensures untouched { IsErrOf result CallError.Down → self.new ≡ self.old };

    /// How many calls it was asked for while it was up.
    fn calls(&self) -> u32
        ensures { result ≡ (view self.now).calls };

    /// A stop between two calls leaves the committed tables.
    ghost opens: { (engine : Self) → (view engine).is_up → IsTold (view engine).disk
        → OpensShown (view engine) };
}
