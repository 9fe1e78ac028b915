// The machine as lists.
ghost use Rattle.std.specs.Prelude.{◌≡◌};

use crate::changes::Saves;
use crate::contents::Content;
use crate::definitions::{Definitions, Image, Link, Relation};
use crate::items::Items;
use crate::places::Place;
use crate::scans::Scan;
use crate::sorted::Sorted;
use rss_base::{FieldDef, Name, Tid, Tuple};
use rss_lock::Locks;
use std::alloc::Global;

/// The relation machine's state, but for what only its rules on room read.
#[derive(Drop)]
pub struct Plain {
    pub(crate) alloc: Global,
    pub(crate) slots: u32,
    pub(crate) definitions: Definitions,
    pub(crate) items: Items,
    /// The save points of each open transaction.
    pub(crate) marks: Sorted<u32, Saves>,
    pub(crate) locks: Locks,
    /// The open scans by their numbers.
    pub(crate) scans: Sorted<u32, Scan>,
}

impl Plain {
    ghost use Rattle.std.specs.Prelude.{◌≤◌, length, option_copied, is_some};
    ghost use Rattle.std.specs.FinMap.{entries, get};
    ghost use Rattle.rss_base.specs.declared.item.Item.TheVariants.{Tuple as TupleItem};
    ghost use Rattle.rss_base.specs.TupleTypes.{most_fields};
    ghost use Rattle.rss_model.specs.Defining.{fields_now};
    ghost use Rattle.rss_model.specs.Tables.{content};
    ghost use Rattle.rss_model.specs.Chains.{chain};
    ghost use Rattle.rss_model.specs.Machine.{is_open, now};
    ghost use Rattle.rss_model.specs.Refusals.{image_of, link_of, values_at};
    ghost use Rattle.rss_plain.specs.Seen.{seen_at_first};
    ghost use Rattle.rss_plain.specs.View.{machine, view};

    /// A store of so many slots in which nothing is defined. Takes no memory.
    pub fn new(alloc: Global, slots: u32) -> Self
        ensures { view result ≡ seen_at_first slots }
    {
        Plain {
            alloc,
            slots,
            definitions: Definitions {
                segments: Sorted::new(alloc),
                relations: Sorted::new(alloc),
                images: Sorted::new(alloc),
                links: Sorted::new(alloc),
            },
            items: Items::new(alloc),
            marks: Sorted::new(alloc),
            locks: Locks::new(alloc),
            scans: Sorted::new(alloc),
        }
    }

    pub(crate) fn is_open(&self, t: u32) -> bool
        ensures { result ≡ is_open (machine self.now) t }
    {
        self.marks.has(&t)
    }

    pub(crate) fn relation(&self, name: &Name) -> Option<&Relation>
        ensures { option_copied result
            ≡ get (machine self.now).base.definitions.relations name.now }
    {
        self.definitions.relations.get(name)
    }

    /// The fields of a relation, of which there are none if it isn't defined.
    pub(crate) fn fields_now(&self, relation: &Name) -> &[FieldDef]
        ensures is { result.now ≡ fields_now (machine self.now) relation.now }
        ensures few { length result.now ≤ most_fields }
    {
        match self.relation(relation) {
            Some(relation) => relation.fields(),
            None => &[],
        }
    }

    pub(crate) fn image(&self, name: &Name) -> Option<&Image>
        ensures { option_copied result ≡ image_of (machine self.now) name.now }
    {
        self.definitions.images.get(name)
    }

    pub(crate) fn link(&self, name: &Name) -> Option<&Link>
        ensures { option_copied result ≡ link_of (machine self.now) name.now }
    {
        self.definitions.links.get(name)
    }

    /// What an item holds now.
    pub(crate) fn content<'a>(&'a self, place: &Place) -> Option<&'a Content>
        ensures { option_copied result ≡ content (now (machine self.now)).contents place.now }
    {
        self.items.content(place)
    }

    /// What all items hold now.
    pub(crate) fn entries(&self) -> &[(Place, Content)]
        ensures { result.now ≡ entries (now (machine self.now)).contents }
    {
        self.items.entries()
    }

    /// The values of a tuple.
    pub(crate) fn values(&self, relation: Name, tid: Tid) -> Option<&Tuple>
        ensures { option_copied result ≡ values_at (machine self.now) relation tid }
    {
        self.content(&Place::tuple(relation, tid))?.values()
    }

    /// Whether there is a tuple with this identifier.
    pub(crate) fn is_live(&self, relation: Name, tid: Tid) -> bool
        ensures { result
            ≡ is_some (content (now (machine self.now)).contents (TupleItem relation tid)) }
    {
        self.content(&Place::tuple(relation, tid)).is_some()
    }

    /// The tuples of a chain, in their order.
    pub(crate) fn chain(&self, link: Name, parent: Option<Tid>) -> &[Tid]
        ensures { result.now ≡ chain (now (machine self.now)).contents link parent }
    {
        match self.content(&Place::chain(link, parent)) {
            Some(content) => content.tuples(),
            None => &[],
        }
    }
}
