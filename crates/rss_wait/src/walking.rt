// The way along holders.
ghost use Rattle.std.specs.Prelude.{◌≡◌, ◌≤◌, ℕ, List, length, IfSome, IfNone};
ghost use Rattle.rss_wait.specs.Waits.{holder_of, latest, IsLoop};

use crate::cycle::Cycle;
use crate::wait::Wait;

/// For whom a transaction waits.
pub(crate) fn holder_of(waits: &[Wait], t: u32) -> Option<u32>
    ensures { result ≡ holder_of waits.now t }
{
    waits
        .iter()
        .find(|wait| wait.by == t)
        .map(|wait| wait.holder)
}

/// Those on the way along holders from a transaction back to it.
pub(crate) fn cycle_from(waits: &[Wait], t: u32) -> Option<Cycle>
    requires { length waits.now ≤ 32 }
    ensures some { IfSome result (IsLoop waits.now t) }
    ensures none { IfNone result ((cycle : List ℕ) → IsLoop waits.now t cycle → ⊥) }
{
    let mut cycle = Cycle::new();
    cycle.push(t);
    let mut member = holder_of(waits, t)?;
    while member != t {
        if cycle.as_slice().len() == waits.len() {
            return None;
        }
        cycle.push(member);
        member = holder_of(waits, member)?;
    }
    Some(cycle)
}

/// The one of these that began last.
pub(crate) fn latest(opened: &[u32], members: &[u32]) -> Option<u32>
    ensures { result ≡ latest opened.now members.now }
{
    opened.iter().rev().find(|t| members.contains(t)).copied()
}
