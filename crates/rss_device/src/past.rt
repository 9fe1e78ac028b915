// What a device held at first, and the steps that it has let go. They exist only in proofs.
ghost use Rattle.std.specs.Prelude.{◌≡◌, ◌++◌, List, []};
ghost use base.Fml.{ftrue};
ghost use Rattle.rss_base.specs.DiskRule.{Pages};
ghost use Rattle.rss_device.specs.declared.step.Step.{Step as TheStep};
ghost use Rattle.rss_device.specs.Past.{pages_coded, steps_coded};

use crate::step::Step;
use rss_base::Page;
use std::marker::Model;

#[derive(Drop)]
pub(crate) struct Past {
    pub(crate) ghost first: { Pages } by { pages_coded },
    pub(crate) ghost steps: { List TheStep } by { steps_coded },
}

impl Model for Past {
    ghost also_owns = { λ _. ftrue };
}

impl Past {
    /// No step was let go.
    pub(crate) fn of(_first: &[Page]) -> Past
        ensures first { result.first ≡ _first.now }
        ensures steps { result.steps ≡ [] }
    {
        Past {}
    }

    /// These were let go too.
    pub(crate) fn with(&self, _steps: &[Step]) -> Past
        ensures first { result.first ≡ self.now.first }
        ensures steps { result.steps ≡ self.now.steps ++ _steps.now }
    {
        Past {}
    }
}
