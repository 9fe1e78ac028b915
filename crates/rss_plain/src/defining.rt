// What calls that define are refused for.
ghost use Rattle.std.specs.Prelude.{◌≡◌, ◌≤◌, count_by, nat_le, option_copied};
ghost use Rattle.std.specs.List.{list_all, list_any};
ghost use Rattle.std.specs.Ordering.{eq_by_cmp};
ghost use Rattle.rss_base.specs.TupleTypes.{are_kinds, field_names, kind_width, kinds, most_width, width};
ghost use Rattle.rss_base.specs.declared.call.Call.TheVariants.{MakeSegment, MakeRelation, MakeLink};
ghost use Rattle.rss_base.specs.declared.call.Call.TheVariants.{DropSegment, DropRelation};
ghost use Rattle.rss_base.specs.declared.call.Call.TheVariants.{DropImage, DropLink};
ghost use Rattle.rss_model.specs.Chains.{has_part, parts_of};
ghost use Rattle.rss_model.specs.Defining.{has_image, has_twice, holds_tuples, if_any_holds_tuples};
ghost use Rattle.rss_model.specs.Defining.{if_any_open, if_link_holds_tuples, if_links_used_up};
ghost use Rattle.rss_model.specs.Defining.{if_relations_used_up, if_segments_used_up};
ghost use Rattle.rss_model.specs.Defining.{is_image_of, is_in_most_links, is_link, is_relation, is_segment};
ghost use Rattle.rss_model.specs.Defining.{least_open, originals, relations_of_link};
ghost use Rattle.rss_model.specs.Defining.{unless_link, unless_relation, unless_relations, unless_segment};
ghost use Rattle.rss_model.specs.Items.{name_cmp};
ghost use Rattle.rss_plain.specs.Defining.{if_in_most, if_link_taken, if_relation_taken};
ghost use Rattle.rss_plain.specs.Defining.{if_relation_used, if_segment_taken, if_segment_used};
ghost use Rattle.rss_plain.specs.Defining.{unless_formed, unless_slim};
ghost use Rattle.rss_plain.specs.Judging.{judged};
ghost use Rattle.rss_plain.specs.View.{machine};

use crate::contents::count_tuples;
use crate::definitions::{Image, Link};
use crate::links::has_part;
use crate::places::same_name;
use crate::plain::Plain;
use crate::refusals::{refused_if, refused_unless};
use rss_base::{
    FieldDef, FieldKind, Fields, Kind, LINKS_MOST, LimitKind, MOST_FIELDS, MOST_WIDTH, Name,
    RELATIONS_MOST, Refusal, SEGMENTS,
};

/// How many links a relation may be in.
const ROLES_MOST: usize = 16;

/// Whether one of these fields has this name.
fn has_name(fields: &[FieldDef], name: &Name) -> bool
    ensures { result ≡ list_any (eq_by_cmp name_cmp name.now) (field_names fields.now) }
{
    fields.iter().any(|field| same_name(name, &field.name))
}

/// Whether a name of these fields stands twice.
fn is_any_twice(fields: &[FieldDef]) -> bool
    ensures { result ≡ has_twice (field_names fields.now) }
{
    match fields {
        [] => false,
        [field, rest @ ..] => has_name(rest, &field.name) || is_any_twice(rest),
    }
}

/// Whether a relation may have fields of these kinds.
fn are_kinds(fields: &[FieldDef]) -> bool
    ensures { result ≡ are_kinds (kinds (originals fields.now)) }
{
    match fields.len() {
        1..=MOST_FIELDS => fields.iter().all(|field| field.kind.is_allowed()),
        _ => false,
    }
}

/// How many bytes a value of a kind has at most.
fn kind_width(kind: FieldKind) -> usize
    ensures is { result ≡ kind_width kind }
    ensures low { result ≤ 256 }
{
    match kind {
        FieldKind::Int => 8,
        FieldKind::Text(most) => usize::from(most) + 1,
    }
}

/// Whether the values of these fields, none of which was added, have no more bytes than they may.
fn are_slim(fields: &[FieldDef]) -> bool
    ensures { result ≡ nat_le (width (kinds (originals fields.now))) most_width }
{
    let mut left = MOST_WIDTH;
    for field in fields {
        let width = kind_width(field.kind);
        if width > left {
            return false;
        }
        left -= width;
    }
    true
}

fn unless_formed(fields: &[FieldDef]) -> Option<Refusal>
    ensures { result ≡ unless_formed fields.now }
{
    refused_unless(are_kinds(fields), Refusal::Limit(LimitKind::Fields))
}

fn unless_slim(fields: &[FieldDef]) -> Option<Refusal>
    ensures { result ≡ unless_slim fields.now }
{
    refused_unless(are_slim(fields), Refusal::Limit(LimitKind::Width))
}

/// In how many of these links the relation is.
fn count_parts(links: &[(Name, Link)], relation: &Name) -> usize
    ensures { result ≡ count_by (λ link. has_part relation.now link.1) links.now }
{
    links
        .iter()
        .filter(|link| has_part(relation, &link.1))
        .count()
}

/// Whether one of these images is of the relation.
fn is_any_of(images: &[(Name, Image)], relation: &Name) -> bool
    ensures { result ≡ list_any (λ image. is_image_of relation.now image.1) images.now }
{
    images
        .iter()
        .any(|image| same_name(relation, &image.1.relation()))
}

/// Whether a link would go from a relation to itself.
fn is_same_twice(parent: Option<Name>, child: Name) -> bool
    ensures { result ≡ has_twice (relations_of_link parent child) }
{
    match parent {
        Some(parent) => same_name(&parent, &child),
        None => false,
    }
}

impl Plain {
    /// The least of the open transactions.
    fn least_open(&self) -> Option<u32>
        ensures { result ≡ least_open (machine self.now) }
    {
        self.marks.entries().first().map(|entry| entry.0)
    }

    pub(crate) fn if_any_open(&self) -> Option<Refusal>
        ensures { result ≡ if_any_open (machine self.now) }
    {
        Some(Refusal::TransactionsOpen(self.least_open()?))
    }

    fn is_segment(&self, name: &Name) -> bool
        ensures { result ≡ is_segment (machine self.now) name.now }
    {
        self.definitions.segments.has(name)
    }

    fn is_relation(&self, name: &Name) -> bool
        ensures { result ≡ is_relation (machine self.now) name.now }
    {
        self.definitions.relations.has(name)
    }

    fn is_link(&self, name: &Name) -> bool
        ensures { result ≡ is_link (machine self.now) name.now }
    {
        self.definitions.links.has(name)
    }

    /// Whether the relation holds a tuple.
    fn holds_tuples(&self, relation: &Name) -> bool
        ensures { result ≡ holds_tuples (machine self.now) relation.now }
    {
        count_tuples(self.items.base(), relation) >= 1
    }

    /// In how many links the relation is.
    fn parts_of(&self, relation: &Name) -> usize
        ensures { result ≡ parts_of (machine self.now).base.definitions relation.now }
    {
        count_parts(self.definitions.links.entries(), relation)
    }

    fn has_image(&self, relation: &Name) -> bool
        ensures { result ≡ has_image (machine self.now) relation.now }
    {
        is_any_of(self.definitions.images.entries(), relation)
    }

    // ---- tests

    fn unless_segment(&self, name: &Name) -> Option<Refusal>
        ensures { result ≡ unless_segment (machine self.now) name.now }
    {
        refused_unless(self.is_segment(name), Refusal::NoSuch(Kind::Segment))
    }

    pub(crate) fn unless_relation(&self, name: &Name) -> Option<Refusal>
        ensures { result ≡ unless_relation (machine self.now) name.now }
    {
        refused_unless(self.is_relation(name), Refusal::NoSuch(Kind::Relation))
    }

    fn if_segment_taken(&self, name: &Name) -> Option<Refusal>
        ensures { result ≡ if_segment_taken (machine self.now) name.now }
    {
        refused_if(self.is_segment(name), Refusal::NameTaken)
    }

    fn if_segments_used_up(&self) -> Option<Refusal>
        ensures { result ≡ if_segments_used_up (machine self.now) }
    {
        refused_if(
            self.definitions.segments.len() >= usize::from(SEGMENTS),
            Refusal::Limit(LimitKind::Segments),
        )
    }

    /// A segment has relations.
    fn if_segment_used(&self, name: &Name) -> Option<Refusal>
        ensures { result ≡ if_segment_used (machine self.now) name.now }
    {
        let relations = self.definitions.relations.entries();
        refused_if(
            self.count_in_segment(relations, name) >= 1,
            Refusal::NotEmpty,
        )
    }

    fn if_relation_taken(&self, name: &Name, fields: &Fields) -> Option<Refusal>
        ensures { result ≡ if_relation_taken (machine self.now) name.now fields.now }
    {
        refused_if(
            self.is_relation(name) || is_any_twice(fields.as_slice()),
            Refusal::NameTaken,
        )
    }

    fn if_relations_used_up(&self) -> Option<Refusal>
        ensures { result ≡ if_relations_used_up (machine self.now) }
    {
        refused_if(
            self.definitions.relations.len() >= usize::from(RELATIONS_MOST),
            Refusal::Limit(LimitKind::Relations),
        )
    }

    /// A relation holds tuples, or has an image or a link.
    fn if_relation_used(&self, name: &Name) -> Option<Refusal>
        ensures { result ≡ if_relation_used (machine self.now) name.now }
    {
        refused_if(
            self.holds_tuples(name) || self.has_image(name) || self.parts_of(name) >= 1,
            Refusal::NotEmpty,
        )
    }

    // ---- tests of links

    /// Whether a link's relations, or one of them, hold tuples.
    fn hold_tuples(&self, parent: Option<Name>, child: Name) -> bool
        ensures { result
            ≡ list_any (holds_tuples (machine self.now)) (relations_of_link parent child) }
    {
        match parent {
            Some(parent) => self.holds_tuples(&parent) || self.holds_tuples(&child),
            None => self.holds_tuples(&child),
        }
    }

    fn if_holding(&self, parent: Option<Name>, child: Name) -> Option<Refusal>
        ensures { result ≡ if_any_holds_tuples (machine self.now) (relations_of_link parent child) }
    {
        refused_if(self.hold_tuples(parent, child), Refusal::NotEmpty)
    }

    fn if_link_holds_tuples(&self, link: Option<&Link>) -> Option<Refusal>
        ensures { result ≡ if_link_holds_tuples (machine self.now) (option_copied link.entry) }
    {
        match link {
            Some(link) => self.if_holding(link.parent(), link.child()),
            None => None,
        }
    }

    fn are_relations(&self, parent: Option<Name>, child: Name) -> bool
        ensures { result
            ≡ list_all (is_relation (machine self.now)) (relations_of_link parent child) }
    {
        match parent {
            Some(parent) => self.is_relation(&parent) && self.is_relation(&child),
            None => self.is_relation(&child),
        }
    }

    fn unless_relations(&self, parent: Option<Name>, child: Name) -> Option<Refusal>
        ensures { result ≡ unless_relations (machine self.now) (relations_of_link parent child) }
    {
        refused_unless(
            self.are_relations(parent, child),
            Refusal::NoSuch(Kind::Relation),
        )
    }

    fn if_link_taken(&self, name: &Name, parent: Option<Name>, child: Name) -> Option<Refusal>
        ensures { result
            ≡ if_link_taken (machine self.now) name.now (relations_of_link parent child) }
    {
        refused_if(
            self.is_link(name) || is_same_twice(parent, child),
            Refusal::NameTaken,
        )
    }

    fn if_links_used_up(&self) -> Option<Refusal>
        ensures { result ≡ if_links_used_up (machine self.now) }
    {
        refused_if(
            self.definitions.links.len() >= usize::from(LINKS_MOST),
            Refusal::Limit(LimitKind::Links),
        )
    }

    fn is_in_most_links(&self, relation: &Name) -> bool
        ensures { result ≡ is_in_most_links (machine self.now) relation.now }
    {
        self.parts_of(relation) >= ROLES_MOST
    }

    fn are_in_most(&self, parent: Option<Name>, child: Name) -> bool
        ensures { result
            ≡ list_any (is_in_most_links (machine self.now)) (relations_of_link parent child) }
    {
        match parent {
            Some(parent) => self.is_in_most_links(&parent) || self.is_in_most_links(&child),
            None => self.is_in_most_links(&child),
        }
    }

    fn if_in_most(&self, parent: Option<Name>, child: Name) -> Option<Refusal>
        ensures { result ≡ if_in_most (machine self.now) (relations_of_link parent child) }
    {
        refused_if(
            self.are_in_most(parent, child),
            Refusal::Limit(LimitKind::Roles),
        )
    }

    fn unless_known_link(&self, name: &Name) -> Option<Refusal>
        ensures { result ≡ unless_link (machine self.now) name.now }
    {
        refused_unless(self.is_link(name), Refusal::NoSuch(Kind::Link))
    }

    // ---- calls

    pub(crate) fn judge_make_segment(&self, name: &Name) -> Option<Refusal>
        ensures { result ≡ judged (machine self.now) (MakeSegment name.now) }
    {
        self.if_any_open()
            .or(self.if_segment_taken(name))
            .or(self.if_segments_used_up())
    }

    pub(crate) fn judge_drop_segment(&self, name: &Name) -> Option<Refusal>
        ensures { result ≡ judged (machine self.now) (DropSegment name.now) }
    {
        self.if_any_open()
            .or(self.unless_segment(name))
            .or(self.if_segment_used(name))
    }

    pub(crate) fn judge_make_relation(
        &self,
        name: &Name,
        segment: &Name,
        fields: &Fields,
    ) -> Option<Refusal>
        ensures { result
            ≡ judged (machine self.now) (MakeRelation name.now segment.now fields.now) }
    {
        self.if_any_open()
            .or(self.unless_segment(segment))
            .or(self.if_relation_taken(name, fields))
            .or(self.if_relations_used_up())
            .or(unless_formed(fields.as_slice()))
            .or(unless_slim(fields.as_slice()))
    }

    pub(crate) fn judge_drop_relation(&self, name: &Name) -> Option<Refusal>
        ensures { result ≡ judged (machine self.now) (DropRelation name.now) }
    {
        self.if_any_open()
            .or(self.unless_relation(name))
            .or(self.if_relation_used(name))
    }

    pub(crate) fn judge_drop_image(&self, name: &Name) -> Option<Refusal>
        ensures { result ≡ judged (machine self.now) (DropImage name.now) }
    {
        self.if_any_open().or(self.unless_image(name))
    }

    pub(crate) fn judge_make_link(
        &self,
        name: &Name,
        parent: Option<Name>,
        child: Name,
    ) -> Option<Refusal>
        ensures { result ≡ judged (machine self.now) (MakeLink name.now parent child) }
    {
        self.if_any_open()
            .or(self.unless_relations(parent, child))
            .or(self.if_link_taken(name, parent, child))
            .or(self.if_links_used_up())
            .or(self.if_in_most(parent, child))
            .or(self.if_holding(parent, child))
    }

    pub(crate) fn judge_drop_link(&self, name: &Name) -> Option<Refusal>
        ensures { result ≡ judged (machine self.now) (DropLink name.now) }
    {
        self.if_any_open()
            .or(self.unless_known_link(name))
            .or(self.if_link_holds_tuples(self.link(name)))
    }
}
