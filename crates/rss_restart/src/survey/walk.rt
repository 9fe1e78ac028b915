// The walk back through the records of a log.
ghost use Rattle.std.specs.Prelude.{◌≡◌, ℕ, IfOk, OnOk, map, option_to_list, reverse};
ghost use Rattle.rss_restart.specs.Events.{bound, front, kept_at, kept_in, lost, position};

use crate::survey::bounds::{Bounds, Event};
use std::alloc::{AllocError, Global};

/// A record, by the position where it begins and what it says.
#[derive(Clone, Copy)]
pub(crate) struct Placed {
    pub(crate) at: u64,
    pub(crate) event: Event,
}

/// A change, by the position of its record and its transaction.
#[derive(Clone, Copy)]
pub(crate) struct Kept {
    at: u64,
    by: u32,
}

/// Goes back over records, and answers the changes that are kept, the newest first.
pub(crate) fn kept_changes(
    alloc: Global,
    events: &[Placed],
    bounds: &mut Bounds,
) -> Result<Vec<Kept>, AllocError>
    ensures kept { IfOk result (λ kept.
        kept.items ≡ kept_in bounds.old.ended (bound bounds.old) events.now) }
    ensures bounds { OnOk result ((t : ℕ) →
        bound bounds.new t ≡ front bounds.old.ended (bound bounds.old) events.now t) }
{
    let mut kept = Vec::new(alloc);
    for i in (0..events.len()).rev() {
        let placed = events[i];
        if let Some(change) = kept_change(placed, bounds) {
            kept.push(change)?;
        }
        bounds.pass(placed.event)?;
    }
    Ok(kept)
}

/// The change of a record, if it has one that is kept.
fn kept_change(placed: Placed, bounds: &Bounds) -> Option<Kept>
    ensures { option_to_list result ≡ kept_at placed.at placed.event (bound bounds.now) }
{
    match placed.event {
        Event::Change(by) if placed.at < bounds.of(by) => Some(Kept { at: placed.at, by }),
        _ => None,
    }
}

/// The positions of changes in the other order.
pub(crate) fn turned(alloc: Global, changes: &[Kept]) -> Result<Vec<u64>, AllocError>
    ensures { IfOk result (λ positions. positions.items ≡ map position (reverse changes.now)) }
{
    changes.iter().rev().map(|change| change.at).collect(alloc)
}

/// The positions of the changes that don't survive.
pub(crate) fn lost(
    alloc: Global,
    changes: &[Kept],
    surviving: &Bounds,
) -> Result<Vec<u64>, AllocError>
    ensures { IfOk result (λ positions.
        positions.items ≡ map position (lost (bound surviving.now) changes.now)) }
{
    let mut positions = Vec::new(alloc);
    for change in changes {
        if surviving.of(change.by) <= change.at {
            positions.push(change.at)?;
        }
    }
    Ok(positions)
}
