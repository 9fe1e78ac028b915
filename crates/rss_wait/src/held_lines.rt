// The lines that have no answer yet.
ghost use Rattle.std.specs.Prelude.{◌≡◌, ◌≢◌, ◌<◌, ℕ, List, [], ◌∷◌, ◌++◌, length, Some};
ghost use Rattle.std.specs.Prelude.{IfSome, IfNone, OnOk, OnErr, option_copied, slice_get, slice_index_or};
ghost use Rattle.rss_wait.specs.Held.{first_of, popped, AreBefore, AllWait, IsLeastFree};
ghost use Rattle.rss_wait.specs.Queues.{owner_of, number_of, free_owner, lesser, IsLeast};

use crate::held::Held;
use crate::queue::Queue;
use crate::waits::Waits;
use rss_base::Text;
use std::alloc::{AllocError, Global};
use std::marker::Model;

/// The lines that have no answer yet, by their numbers. There is a queue for each owner of some, so that
/// no call walks over the lines.
#[derive(Drop)]
pub struct HeldLines {
    alloc: Global,
    queues: Vec<Queue>,
}

impl Model for HeldLines {
    ghost use Rattle.std.specs.Prelude.{List};
    ghost use Rattle.rss_wait.specs.declared.held.Held.{Held};
    ghost use Rattle.rss_wait.specs.Queues.{held_in, AreQueues};

    ghost Value = { List Held };

    ghost view = { λ h. held_in h.queues.items };

    ghost invariant = { λ h. AreQueues h.queues.items };
}

impl HeldLines {
    /// No line is held.
    pub fn new(alloc: Global) -> Self
        ensures { result ≡ [] }
    {
        HeldLines {
            alloc,
            queues: Vec::new(alloc),
        }
    }

    /// Holds a line after all others. Want of memory changes nothing.
    pub fn push(&mut self, owner: u32, number: u32, line: &[u8]) -> Result<(), AllocError>
        requires { AreBefore number self.old }
        ensures held { OnOk result (self.new
            ≡ self.old ++ record { owner = owner; number = number; line = line.now } ∷ []) }
        ensures same { OnErr result (self.new ≡ self.old) }
    {
        let held = Held {
            owner,
            number,
            line: Text::from_slice(self.alloc, line)?,
        };
        match place_of(&self.queues, owner) {
            Some(place) => self.queues[place].push(held)?,
            None => {
                let queue = Queue::new(self.alloc, held)?;
                self.queues.push(queue)?;
            }
        }
        Ok(())
    }

    /// The first line of an owner.
    pub fn first(&self, owner: u32) -> Option<&Held>
        ensures { option_copied result ≡ first_of self.now owner }
    {
        let place = place_of(&self.queues, owner)?;
        self.queues[place].first()
    }

    /// Takes the first line of an owner out.
    pub fn pop(&mut self, owner: u32) -> Option<Held>
        ensures line { result ≡ first_of self.old owner }
        ensures rest { self.new ≡ popped result self.old }
    {
        let place = place_of(&self.queues, owner)?;
        let line = self.queues[place].pop();
        if self.queues[place].is_empty() {
            self.queues.remove(place);
        }
        line
    }

    /// The first line of the least owner that doesn't wait.
    pub fn least_but(&self, waits: &Waits) -> Option<&Held>
        ensures least { IfSome result (λ line. IsLeastFree waits.now.waits self.now line.now) }
        ensures none { IfNone result (AllWait waits.now.waits self.now) }
    {
        let (_, place) = least_free(&self.queues, waits)?;
        self.queues[place].first()
    }

    /// The line of the least number.
    pub fn oldest(&self) -> Option<&Held>
        ensures { option_copied result ≡ slice_get self.now 0 }
    {
        let (_, place) = oldest(&self.queues)?;
        self.queues[place].first()
    }
}

/// The place of the queue of an owner.
fn place_of(queues: &[Queue], owner: u32) -> Option<usize>
    ensures within { IfSome result (λ place. place < length queues.now) }
    ensures here { IfSome result (λ place. owner_of (slice_index_or queues.now place []) ≡ Some owner) }
    ensures none { IfNone result ((k : ℕ) → k < length queues.now
        → owner_of (slice_index_or queues.now k []) ≢ Some owner) }
{
    queues.iter().position(|queue| queue.owner() == Some(owner))
}

/// The oldest first line of a queue: its number, and the place of the queue.
fn oldest(queues: &[Queue]) -> Option<(u32, usize)>
    ensures { IsLeast number_of queues.now (length queues.now) result }
{
    let mut best = None;
    for place in 0..queues.len() {
        best = lesser(best, queues[place].number(), place);
    }
    best
}

/// The least owner of a queue that doesn't wait, and the place of the queue.
fn least_free(queues: &[Queue], waits: &Waits) -> Option<(u32, usize)>
    ensures { IsLeast (free_owner waits.now.waits) queues.now (length queues.now) result }
{
    let mut best = None;
    for place in 0..queues.len() {
        best = lesser(best, queues[place].free_owner(waits), place);
    }
    best
}

/// The lesser of a key and the one that was least so far, each with its place.
fn lesser(best: Option<(u32, usize)>, key: Option<u32>, place: usize) -> Option<(u32, usize)>
    ensures { result ≡ lesser best key place }
{
    match (best, key) {
        (_, None) => best,
        (Some((least, _)), Some(key)) if least <= key => best,
        (_, Some(key)) => Some((key, place)),
    }
}
