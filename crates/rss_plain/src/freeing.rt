// Which identifiers a new tuple may have.
ghost use Rattle.std.specs.Prelude.{◌≡◌, count_by, filter};
ghost use Rattle.std.specs.List.{list_all, list_any, range_with_len};
ghost use Rattle.rss_base.specs.Sizes.{page_entries};
ghost use Rattle.rss_model.specs.Meter.{is_in_segment};
ghost use Rattle.rss_model.specs.Refusals.{is_clear, is_free, some_free, unless_free};
ghost use Rattle.rss_plain.specs.View.{machine};

use crate::definitions::Relation;
use crate::places::same_name;
use crate::plain::Plain;
use crate::refusals::refused_unless;
use rss_base::{LimitKind, Name, Refusal, Tid};

/// How many identifiers a page has.
const SLOTS: u16 = 128;

impl Plain {
    /// Whether the relation is one of this segment.
    pub(crate) fn is_in_segment(&self, segment: &Name, relation: &Name) -> bool
        ensures { result ≡ is_in_segment (machine self.now).base segment.now relation.now }
    {
        match self.relation(relation) {
            Some(relation) => same_name(segment, &relation.segment()),
            None => false,
        }
    }

    /// Whether no tuple of this relation has the identifier, and no other transaction holds one.
    fn is_clear(&self, t: u32, tid: Tid, relation: Name) -> bool
        ensures { result ≡ is_clear (machine self.now) t tid relation }
    {
        !self.is_live(relation, tid) && !self.is_held(t, relation, tid)
    }

    /// Whether a new tuple of a transaction may have this identifier.
    fn is_free(&self, t: u32, relation: &Name, tid: Tid) -> bool
        ensures { result ≡ is_free (machine self.now) t relation.now tid }
    {
        let Some(definition) = self.relation(relation) else {
            return true;
        };
        let relations = self.definitions.relations.entries();
        self.are_clear(relations, &definition.segment(), t, tid)
    }

    /// Whether none of these relations that is in the segment has a tuple with the identifier, and
    /// no other transaction holds one.
    fn are_clear(&self, relations: &[(Name, Relation)], segment: &Name, t: u32, tid: Tid) -> bool
        ensures { result ≡ list_all (λ one. is_clear (machine self.now) t tid one.0)
            (filter (λ one. is_in_segment (machine self.now).base segment.now one.0) relations.now) }
    {
        relations
            .iter()
            .filter(|one| self.is_in_segment(segment, &one.0))
            .all(|one| self.is_clear(t, tid, one.0))
    }

    /// How many of these relations are in the segment.
    pub(crate) fn count_in_segment(&self, relations: &[(Name, Relation)], segment: &Name) -> usize
        ensures { result ≡ count_by
            (λ one. is_in_segment (machine self.now).base segment.now one.0) relations.now }
    {
        relations
            .iter()
            .filter(|one| self.is_in_segment(segment, &one.0))
            .count()
    }

    /// Whether it may have one of this page.
    fn has_free(&self, t: u32, relation: &Name, page: u32) -> bool
        ensures { result ≡ list_any (λ slot.
            is_free (machine self.now) t relation.now (record { page = page; slot = slot }))
            (range_with_len 0 page_entries) }
    {
        (0..SLOTS).any(|slot| self.is_free(t, relation, Tid { page, slot }))
    }

    /// Whether it may have some identifier.
    fn some_free(&self, t: u32, relation: &Name) -> bool
        ensures { result ≡ some_free (machine self.now) t relation.now }
    {
        self.any_free(t, relation)
    }

    fn any_free(&self, t: u32, relation: &Name) -> bool
        ensures { result ≡ list_any (λ page. list_any (λ slot.
            is_free (machine self.now) t relation.now (record { page = page; slot = slot }))
            (range_with_len 0 page_entries)) (range_with_len 0 self.now.slots) }
    {
        (0..self.slots).any(|page| self.has_free(t, relation, page))
    }

    pub(crate) fn unless_free(&self, t: u32, relation: &Name) -> Option<Refusal>
        ensures { result ≡ unless_free (machine self.now) t relation.now }
    {
        refused_unless(
            self.some_free(t, relation),
            Refusal::Limit(LimitKind::Identifiers),
        )
    }
}
