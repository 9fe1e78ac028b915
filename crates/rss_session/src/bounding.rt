// How many pages images may have.
ghost use Rattle.std.specs.Prelude.{◌≡◌, ◌*◌, ◌+◌, ◌-◌, ◌^◌, ◌≤◌, ℕ, Some, slice_index};
ghost use Rattle.std.specs.FinMap.{values};
ghost use Rattle.rss_base.specs.Listings.{relation_at};
ghost use Rattle.rss_base.specs.Sizes.{images_most};
ghost use Rattle.rss_base.specs.declared.relation.RelationEntry.{RelationEntry as Entry};
ghost use Rattle.rss_model.specs.Spares.{listed_bound, live_of};
ghost use Rattle.rss_trans.specs.Tables.{told};
ghost use Rattle.rss_session.specs.Bounding.{most_at, most_by};
ghost use Rattle.rss_session.specs.Sessions.{few, most_in};
ghost use Rattle.rss_session.specs.Weighing.{saved_most, survived_now};

use crate::Session;
use rss_access::image_bound;
use rss_base::Kind;
use rss_buffer::Saving;
use rss_catalog::Catalog;
use rss_trans::Open;

/// How many numbers a relation may have, and 0.
pub(crate) const NUMBERS: usize = 256;

impl<S: Saving> Session<S> {
    ghost use Rattle.rss_session.specs.Parts.{view};

    /// How many pages images may have: as it is or, if `saved`, after a checkpoint; with a change
    /// more of a tuple of the relation `number`.
    pub(crate) fn images_bound(&self, saved: bool, number: Option<u8>) -> u64
        ensures is { result ≡ listed_bound (view S.view self.now).store.catalog.listing
            (most_by (view S.view self.now) saved number) }
        ensures small { result ≤ images_most * (2 ^ 34 + 2) }
    {
        let catalog = &self.store.catalog;
        let mut bound = 0;
        for place in 0..catalog.last_image() {
            if catalog.used(Kind::Image, place + 1) {
                let image = catalog.image(place + 1);
                let entries = self.most_with(saved, number, image.relation);
                bound += image_bound(catalog.relation(image.relation), image, entries);
            }
        }
        bound
    }

    /// How many entries an image of the relation of a number may have.
    fn most_with(&self, saved: bool, number: Option<u8>, relation: u8) -> u64
        ensures is { result ≡ most_by (view S.view self.now) saved number relation }
        ensures small { result ≤ 2 ^ 34 }
    {
        let most = self.most(saved, relation);
        if number == Some(relation) {
            most + 2
        } else {
            most
        }
    }

    fn most(&self, saved: bool, relation: u8) -> u64
        ensures is { result ≡ most_at (view S.view self.now) saved relation }
        ensures small { result ≤ 2 ^ 34 - 2 }
    {
        if saved {
            self.saved_most(relation)
        } else {
            self.most_in(relation)
        }
    }

    /// As it is.
    fn most_in(&self, relation: u8) -> u64
        ensures is { result ≡ most_in (view S.view self.now) relation }
        ensures small { result ≤ 2 ^ 34 - 2 }
    {
        let number = usize::from(relation);
        let since = few(self.open.relation_sums(relation).s);
        u64::from(self.entries[number]) + u64::from(self.survived[number]) + 2 * u64::from(since)
    }

    /// Behind a checkpoint.
    pub(crate) fn saved_most(&self, relation: u8) -> u64
        ensures is { result ≡ saved_most (view S.view self.now) relation }
        ensures small { result ≤ 2 ^ 34 - 2 }
    {
        let survived = few(self.open.relation_sums(relation).p);
        u64::from(live_of(&self.store.catalog, relation)) + u64::from(survived)
    }
}

/// How many tuples the relation of a number has, 0 if there is none.
fn live_of(catalog: &Catalog, number: u8) -> u32
    ensures { result ≡ live_of catalog.now.listing number }
{
    if catalog.used(Kind::Relation, number) {
        catalog.relation(number).live
    } else {
        0
    }
}

/// A count, as far as a u32 counts.
fn few(count: u64) -> u32
    ensures { result ≡ few count }
{
    count.min(u64::from(u32::MAX)) as u32
}

/// How many tuples each relation has, by its number.
pub(crate) fn entries_of(catalog: &Catalog) -> [u32; NUMBERS]
    ensures { (number : ℕ) → slice_index result number ≡ live_of catalog.now.listing number }
{
    let mut entries = [0; NUMBERS];
    for place in 0..catalog.last_relation() {
        entries[usize::from(place + 1)] = live_of(catalog, place + 1);
    }
    entries
}

/// How many changes of each relation's tuples survive, by its number.
pub(crate) fn survived_of(catalog: &Catalog, transactions: &Open) -> [u32; NUMBERS]
    ensures { (number : ℕ) (relation : Entry) → relation_at catalog.now.listing number ≡ Some relation
        → slice_index result number ≡ survived_now (told transactions.now) number }
{
    let mut survived = [0; NUMBERS];
    for place in 0..catalog.last_relation() {
        survived[usize::from(place + 1)] = few(transactions.relation_sums(place + 1).p);
    }
    survived
}

/// Nothing survives.
pub(crate) fn none_survived() -> [u32; NUMBERS]
    ensures { (number : ℕ) → slice_index result number ≡ 0 }
{
    [0; NUMBERS]
}
