// What the items hold, committed and with the changes of open transactions.
ghost use Rattle.std.specs.Prelude.{◌≡◌, [], option_copied};
ghost use Rattle.std.specs.FinMap.{empty, entries};
ghost use Rattle.rss_model.specs.Items.{item_cmp};
ghost use Rattle.rss_model.specs.Tables.{content};
ghost use Rattle.rss_plain.specs.Kept.{changed};
ghost use Rattle.rss_plain.specs.Maps.{mapped};

use crate::changes::Change;
use crate::contents::Content;
use crate::places::Place;
use crate::sorted::Sorted;
use std::alloc::Global;
use std::marker::Model;

/// What the items hold in the committed tables, and the changes of the open transactions.
#[derive(Drop)]
pub(crate) struct Items {
    base: Sorted<Place, Content>,
    /// What they hold with the changes.
    contents: Sorted<Place, Content>,
    /// The newest first.
    changes: Vec<Change>,
}

impl Model for Items {
    ghost use Rattle.std.specs.Prelude.{◌≡◌};
    ghost use Rattle.rss_model.specs.Items.{item_cmp};
    ghost use Rattle.rss_plain.specs.Kept.{Kept, changed};
    ghost use Rattle.rss_plain.specs.Maps.{mapped};

    ghost Value = { Kept };

    ghost view = { λ i. record { base = i.base; changes = i.changes.items } };

    ghost invariant = { λ i.
        mapped item_cmp i.contents ≡ changed (record { base = i.base; changes = i.changes.items }) };
}

impl Items {
    /// No item holds anything. Takes no memory.
    pub(crate) fn new(alloc: Global) -> Self
        ensures base { mapped item_cmp result.base ≡ empty }
        ensures changes { result.changes ≡ [] }
    {
        Items {
            base: Sorted::new(alloc),
            contents: Sorted::new(alloc),
            changes: Vec::new(alloc),
        }
    }

    /// What the items hold in the committed tables.
    pub(crate) fn base(&self) -> &Sorted<Place, Content>
        ensures { result.now ≡ self.now.base }
    {
        &self.base
    }

    pub(crate) fn changes(&self) -> &[Change]
        ensures { result.now ≡ self.now.changes }
    {
        self.changes.as_slice()
    }

    /// What an item holds now.
    pub(crate) fn content<'a>(&'a self, place: &Place) -> Option<&'a Content>
        ensures { option_copied result ≡ content (changed self.now) place.now }
    {
        self.contents.get(place)
    }

    /// What all items hold now.
    pub(crate) fn entries(&self) -> &[(Place, Content)]
        ensures { result.now ≡ entries (changed self.now) }
    {
        self.contents.entries()
    }
}
