// What changed items hold, and what is looked up of them.
ghost use Rattle.std.specs.Prelude.{◌≡◌, option_map, option_copied, OnOk};
ghost use Rattle.rss_draft.specs.Views.{bytes_of, said, unchanged};
ghost use Rattle.rss_draft.specs.Views.{with_tuple, with_chain, with_standing, with_owner, with_count};

use rss_base::{Name, Tid, Tuple};
use std::alloc::{AllocError, Global};
use std::collections::HashMap;
use std::marker::Model;

/// Where a tuple stands in a link.
#[derive(Clone, Copy, Debug, PartialEq, Eq)]
pub enum Standing {
    /// In no chain of it.
    Off,
    /// In the chain below this parent, or in the one chain of a unary link.
    In(Option<Tid>),
}

/// A key of a unique image, by its values.
#[derive(PartialEq, Eq, Hash, Drop)]
pub struct ImageKey {
    pub image: Name,
    pub values: Tuple,
}

/// What changed items hold, and what is looked up of them. What it doesn't say is as in the tables
/// that it is kept beside.
#[derive(Drop)]
pub struct Draft {
    /// The bytes of a tuple's values, and none if there is no tuple.
    tuples: HashMap<(Name, Tid), Option<Vec<u8>>>,
    chains: HashMap<(Name, Option<Tid>), Vec<Tid>>,
    standings: HashMap<(Name, Tid), Standing>,
    /// The tuple that has a key, if one has it.
    owners: HashMap<ImageKey, Option<Tid>>,
    counts: HashMap<Name, u32>,
}

impl Model for Draft {
    ghost use Rattle.rss_draft.specs.Views.{Entries, bytes_of, with_values};

    ghost Value = { Entries };

    ghost view = { λ d. record {
      tuples = with_values bytes_of d.tuples.entries;
      chains = with_values (λ tids. tids.items) d.chains.entries;
      standings = d.standings.entries;
      owners = d.owners.entries;
      counts = d.counts.entries;
    } };
}

impl Draft {
    /// It says nothing. Takes no memory.
    pub fn new(alloc: Global) -> Self
        ensures { said result ≡ unchanged }
    {
        Draft {
            tuples: HashMap::new(alloc),
            chains: HashMap::new(alloc),
            standings: HashMap::new(alloc),
            owners: HashMap::new(alloc),
            counts: HashMap::new(alloc),
        }
    }

    /// The bytes of a tuple's values, or that there is no tuple, if it says so.
    pub fn tuple(&self, relation: Name, tid: Tid) -> Option<Option<&[u8]>>
        ensures { option_map option_copied result ≡ (said self.now).tuples relation tid }
    {
        match self.tuples.get(&(relation, tid))? {
            Some(values) => Some(Some(values.as_slice())),
            None => Some(None),
        }
    }

    /// The tuples of a chain, in their order, if it says them.
    pub fn chain(&self, link: Name, parent: Option<Tid>) -> Option<&[Tid]>
        ensures { option_copied result ≡ (said self.now).chains link parent }
    {
        Some(self.chains.get(&(link, parent))?.as_slice())
    }

    /// Where a tuple stands in a link, if it says so.
    pub fn standing(&self, link: Name, child: Tid) -> Option<Standing>
        ensures { result ≡ (said self.now).standings link child }
    {
        self.standings.get(&(link, child)).copied()
    }

    /// Which tuple has a key, if it says so.
    pub fn owner(&self, key: &ImageKey) -> Option<Option<Tid>>
        ensures { result ≡ (said self.now).owners key.now.image key.now.values }
    {
        self.owners.get(key).copied()
    }

    /// How many tuples a relation has, if it says so.
    pub fn count(&self, relation: Name) -> Option<u32>
        ensures { result ≡ (said self.now).counts relation }
    {
        self.counts.get(&relation).copied()
    }

    /// The tuple has values with these bytes, or there is none.
    pub fn put_tuple(
        &mut self,
        relation: Name,
        tid: Tid,
        values: Option<Vec<u8>>,
    ) -> Result<(), AllocError>
        ensures { OnOk result (said self.new ≡ with_tuple relation tid (bytes_of values) (said self.old)) }
    {
        self.tuples.insert((relation, tid), values)?;
        Ok(())
    }

    /// The chain has these tuples, in this order.
    pub fn put_chain(
        &mut self,
        link: Name,
        parent: Option<Tid>,
        tids: Vec<Tid>,
    ) -> Result<(), AllocError>
        ensures { OnOk result (said self.new ≡ with_chain link parent tids.items (said self.old)) }
    {
        self.chains.insert((link, parent), tids)?;
        Ok(())
    }

    /// The tuple stands here.
    pub fn put_standing(
        &mut self,
        link: Name,
        child: Tid,
        standing: Standing,
    ) -> Result<(), AllocError>
        ensures { OnOk result (said self.new ≡ with_standing link child standing (said self.old)) }
    {
        self.standings.insert((link, child), standing)?;
        Ok(())
    }

    /// This tuple has the key, or none has it.
    pub fn put_owner(&mut self, key: ImageKey, owner: Option<Tid>) -> Result<(), AllocError>
        ensures { OnOk result (said self.new ≡ with_owner key.image key.values owner (said self.old)) }
    {
        self.owners.insert(key, owner)?;
        Ok(())
    }

    /// The relation has so many tuples.
    pub fn put_count(&mut self, relation: Name, count: u32) -> Result<(), AllocError>
        ensures { OnOk result (said self.new ≡ with_count relation count (said self.old)) }
    {
        self.counts.insert(relation, count)?;
        Ok(())
    }
}
