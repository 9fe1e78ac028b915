// The steps of a device.
ghost use Rattle.std.specs.Prelude.{◌≡◌, length};

use crate::past::Past;
use crate::step::Step;
use rss_base::Page;
use std::alloc::{AllocError, Global};
use std::cell::Cell;

/// The steps of a device, numbered from 0. One that was taken needn't be kept.
#[derive(Drop)]
pub(crate) struct Steps {
    kept: Vec<Step>,
    /// How many came before those, and were let go.
    gone: u64,
    /// How many their reader needs no more.
    taken: Cell<u64>,
    past: Past,
    ghost numbered: { gone ≡ length past.steps },
}

impl Steps {
    ghost use Rattle.std.specs.Prelude.{◌⊎◌, ◌∷◌, ◌++◌, ◌<◌, ◌≤◌, [], max, IfSome, IsErr, IsNone, OnOk};
    ghost use Rattle.rss_device.specs.Steps.{all_steps, IsStep};

    pub(crate) fn new(alloc: Global, first: &[Page]) -> Steps
        ensures first { result.past.first ≡ first.now }
        ensures none { all_steps result ≡ [] }
    {
        Steps {
            kept: Vec::new(alloc),
            gone: 0,
            taken: Cell::new(0),
            past: Past::of(first),
        }
    }

    /// Step number `k`, if it is kept.
    pub(crate) fn get(&self, k: u64) -> Option<&Step>
        ensures step { IfSome result (λ step. IsStep (all_steps self.now) k step.now) }
        ensures none { IsNone result → (length (all_steps self.now) ≤ k) ⊎ (k < self.now.gone) }
    {
        let behind = k.checked_sub(self.gone)?;
        self.kept.get(behind as usize)
    }

    /// How many are kept no more.
    pub(crate) fn gone(&self) -> u64
        ensures { result ≡ self.now.gone }
    {
        self.gone
    }

    /// The first `k` were taken, and may be let go.
    pub(crate) fn forget(&self, k: u64)
        requires there { k ≤ length (all_steps self.now) }
    {
        self.taken.set(k);
    }

    /// Keeps one more step, if memory is found for it. If all others were taken, they are let go
    /// first.
    pub(crate) fn note(&mut self, step: Step) -> Result<(), AllocError>
        ensures noted { OnOk result (all_steps self.new ≡ all_steps self.old ++ step ∷ []) }
        ensures same { IsErr result → all_steps self.new ≡ all_steps self.old }
        ensures first { self.new.past.first ≡ self.old.past.first }
    {
        let taken = self.taken.get();
        self.let_go(taken);
        self.kept.push(step)?;
        Ok(())
    }

    /// Lets the steps go that are kept, if all of them are among the first `taken`.
    fn let_go(&mut self, taken: u64)
        ensures steps { all_steps self.new ≡ all_steps self.old }
        ensures first { self.new.past.first ≡ self.old.past.first }
        ensures gone { self.new.gone ≤ max self.old.gone taken }
    {
        let Some(all) = self.gone.checked_add(self.kept.len() as u64) else {
            return;
        };
        if taken >= all {
            self.past = self.past.with(self.kept.as_slice());
            self.gone = all;
            self.kept.clear();
        }
    }
}
