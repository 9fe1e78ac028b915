// Who waits for whom.
ghost use Rattle.std.specs.Prelude.{◌≡◌, ◌<◌, ◌==◌, true, false, [], ◌∷◌, ◌++◌, ℕ, List, length};
ghost use Rattle.std.specs.Prelude.{IfSome, IfNone, is_some, option_map, slice_get, slice_index_or};
ghost use Rattle.rss_wait.specs.declared.wait.Wait.{Wait};
ghost use Rattle.rss_wait.specs.Waits.{is_in, without, without_wait, all_again, waiting_for, holder_of};
ghost use Rattle.rss_wait.specs.Waits.{first_again, IsCycle};

use crate::cycle::Cycle;
use crate::wait::Wait;
use crate::walking::{cycle_from, holder_of, latest};
use arrayvec::ArrayVec;
use std::marker::Model;

/// How many transactions may be open at a time.
pub const OPEN_MOST: usize = 32;

/// The open transactions in the order of their begins, and those that wait, in waiting order.
#[derive(Drop)]
pub struct Waits {
    opened: ArrayVec<u32, OPEN_MOST>,
    waits: ArrayVec<Wait, OPEN_MOST>,
}

impl Model for Waits {
    ghost use Rattle.rss_wait.specs.Waits.{WaitsView};
    ghost use Rattle.rss_wait.specs.Kept.{AreWaiting};

    ghost Value = { WaitsView };

    ghost view = { λ w. record { opened = w.opened.items; waits = w.waits.items } };

    ghost invariant = { λ w. AreWaiting w.opened.items w.waits.items };
}

impl Waits {
    /// No transaction is open.
    pub fn new() -> Self
        ensures { result ≡ record { opened = []; waits = [] } }
    {
        Waits {
            opened: ArrayVec::new(),
            waits: ArrayVec::new(),
        }
    }

    /// A transaction has begun.
    pub fn begun(&mut self, t: u32)
        requires { length self.old.opened < 32 }
        ensures { self.new ≡ record self.old { opened = self.old.opened ++ t ∷ [] } }
    {
        self.opened.push(t);
    }

    /// A transaction has ended or was aborted. All that wait are to be tried again.
    pub fn gone(&mut self, t: u32)
        ensures { self.new
            ≡ record { opened = without t self.old.opened; waits = all_again (without_wait t self.old.waits) } }
    {
        self.answered(t);
        self.opened.retain(|open| *open != t);
        set_again(self.waits.as_mut_slice());
    }

    pub fn waits(&self, t: u32) -> bool
        ensures { result ≡ is_some (holder_of self.now.waits t) }
    {
        holder_of(&self.waits, t).is_some()
    }

    /// The transaction that waits at this place in waiting order; none past the end.
    pub fn at(&self, index: u32) -> Option<u32>
        ensures { result ≡ option_map (λ wait. wait.by) (slice_get self.now.waits index) }
    {
        self.waits.get(index as usize).map(|wait| wait.by)
    }

    /// The first transaction in waiting order whose call is to be tried again.
    pub fn first_again(&self) -> Option<u32>
        ensures { result ≡ option_map (λ wait. wait.by) (first_again self.now.waits) }
    {
        self.waits
            .iter()
            .find(|wait| wait.again)
            .map(|wait| wait.by)
    }

    /// The call of a transaction has got its answer: the transaction waits no longer.
    pub fn answered(&mut self, t: u32)
        ensures { self.new ≡ record self.old { waits = without_wait t self.old.waits } }
    {
        self.waits.retain(|wait| wait.by != t);
    }

    /// An open transaction waits for another one, at its old place if it waited already, and last if
    /// it didn't. The cycle that this closes, if it closes one: it begins with the one of its members
    /// that began last. One of them has to go before it is broken.
    pub fn wait(&mut self, t: u32, holder: u32) -> Option<Cycle>
        requires { is_in self.old.opened t ≡ true }
        ensures waits { self.new ≡ record self.old { waits = waiting_for t holder self.old.waits } }
        ensures closed { IfSome result (λ cycle.
            IsCycle self.new.opened self.new.waits cycle × (is_in cycle t ≡ true)) }
        ensures none { IfNone result ((cycle : List ℕ)
            → IsCycle self.new.opened self.new.waits cycle → is_in cycle t ≡ true → ⊥) }
    {
        self.put(Wait {
            by: t,
            holder,
            again: false,
        });
        self.cycle_with(t)
    }

    /// The cycle that an open transaction is in, if it is in one.
    fn cycle_with(&self, t: u32) -> Option<Cycle>
        requires { is_in self.now.opened t ≡ true }
        ensures closed { IfSome result (λ cycle.
            IsCycle self.now.opened self.now.waits cycle × (is_in cycle t ≡ true)) }
        ensures none { IfNone result ((cycle : List ℕ)
            → IsCycle self.now.opened self.now.waits cycle → is_in cycle t ≡ true → ⊥) }
    {
        let cycle = cycle_from(&self.waits, t)?;
        let last = latest(&self.opened, cycle.as_slice())?;
        cycle_from(&self.waits, last)
    }

    /// Puts a wait in the place of its transaction, or last.
    fn put(&mut self, wait: Wait)
        requires open { is_in self.old.opened wait.by ≡ true }
        requires new { wait.again ≡ false }
        ensures { self.new ≡ record self.old { waits = waiting_for wait.by wait.holder self.old.waits } }
    {
        match place_of(&self.waits, wait.by) {
            Some(place) => self.waits[place] = wait,
            None => self.waits.push(wait),
        }
    }
}

/// All are to be tried again.
fn set_again(waits: &mut [Wait])
    ensures { waits.new ≡ all_again waits.old }
{
    for wait in waits.iter_mut() {
        wait.again = true;
    }
}

/// The place of a transaction among those that wait.
fn place_of(waits: &[Wait], t: u32) -> Option<usize>
    ensures within { IfSome result (λ place. place < length waits.now) }
    ensures here { IfSome result (λ place. (d : Wait)
        → ((slice_index_or waits.now place d).by == t) ≡ true) }
    ensures first { IfSome result (λ place. (k : ℕ) (d : Wait) → k < place
        → ((slice_index_or waits.now k d).by == t) ≡ false) }
    ensures none { IfNone result ((k : ℕ) (d : Wait) → k < length waits.now
        → ((slice_index_or waits.now k d).by == t) ≡ false) }
{
    waits.iter().position(|wait| wait.by == t)
}
