// What happens to a device in memory.
ghost use Rattle.std.specs.Prelude.{◌≡◌, ◌+◌, ◌-◌, ◌≤◌, false, length, take, IsTrue, IsNone};
ghost use Rattle.std.specs.Prelude.{IfSome};
ghost use Rattle.rss_device.specs.Memory.{is_write, writes_in};

use rss_base::Page;

/// A page was written, a write of a page failed, a sync succeeded, or the size was set.
#[derive(Clone, Copy)]
pub enum Event {
    Wrote(u64, Page),
    Torn(u64),
    Synced,
    Sized(u64),
}

impl Event {
    ghost use Rattle.rss_device.specs.Stop.{IsUnsynced};

    pub(crate) fn syncs(&self) -> bool
        ensures sync { IsTrue result → self.now ≡ Event.Synced }
        ensures other { result ≡ false → IsUnsynced self.now }
    {
        matches!(self, Event::Synced)
    }

    fn writes(&self) -> bool
        ensures { result ≡ is_write self.now }
    {
        matches!(self, Event::Wrote(_, _) | Event::Torn(_))
    }
}

/// How many events there are up to write number `k`, counted from 0, that write included.
pub(crate) fn events_to_write(events: &[Event], k: usize) -> Option<usize>
    ensures within { IfSome result (λ n. n ≤ length events.now) }
    ensures before { IfSome result (λ n. writes_in (take (n - 1) events.now) ≡ k) }
    ensures after { IfSome result (λ n. writes_in (take n events.now) ≡ k + 1) }
    ensures none { IsNone result → writes_in events.now ≤ k }
{
    let mut writes = 0;
    for (i, event) in events.iter().enumerate() {
        if event.writes() {
            if writes == k {
                return Some(i + 1);
            }
            writes += 1;
        }
    }
    None
}
