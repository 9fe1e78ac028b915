// Calls that fail on purpose, and the count of faults.
ghost use Rattle.std.specs.Prelude.{◌≡◌, ◌↔◌, ◌≤◌, [], Contains, IsTrue, Some};
ghost use Rattle.rss_base.specs.Faults.{counted, Rises};
ghost use Rattle.rss_device.specs.Failing.{after_call};

use rss_base::Failed;
use std::alloc::Global;

/// Counts a fault.
pub(crate) fn failed(faults: &mut u64) -> Failed
    ensures later { faults.old ≤ faults.new }
    ensures counted { Rises faults.old faults.new }
{
    *faults = faults.saturating_add(1);
    Failed
}

/// Whether this call fails, if so many calls before it don't.
pub(crate) fn is_due(calls_before: &mut Option<u64>) -> bool
    ensures due { IsTrue result ↔ (calls_before.old ≡ Some 0) }
    ensures next { calls_before.new ≡ after_call calls_before.old }
{
    match *calls_before {
        None => false,
        Some(0) => {
            *calls_before = None;
            true
        }
        Some(calls) => {
            *calls_before = Some(calls - 1);
            false
        }
    }
}

/// The calls that fail, by their numbers.
#[derive(Drop)]
pub(crate) struct FailingCalls {
    /// The number of the next call.
    next: u64,
    failing: Vec<u64>,
}

impl FailingCalls {
    pub(crate) fn none(alloc: Global) -> Self
        ensures failing { result.failing.items ≡ [] }
        ensures next { result.next ≡ 0 }
    {
        FailingCalls {
            next: 0,
            failing: Vec::new(alloc),
        }
    }

    /// The same calls, of which these fail.
    pub(crate) fn fail_at(&mut self, calls: Vec<u64>)
        ensures failing { self.new.failing.items ≡ calls.items }
        ensures next { self.new.next ≡ self.old.next }
    {
        self.failing = calls;
    }

    /// Counts a call, and answers whether it fails.
    pub(crate) fn next_fails(&mut self) -> bool
        ensures due { IsTrue result ↔ Contains self.old.failing.items self.old.next }
        ensures next { self.new.next ≡ counted self.old.next }
        ensures same { self.new.failing.items ≡ self.old.failing.items }
    {
        let call = self.next;
        self.next = call.saturating_add(1);
        self.failing.contains(&call)
    }
}
