// What is defined.
ghost use Rattle.std.specs.Prelude.{◌≡◌, ◌≤◌, length};
ghost use Rattle.rss_base.specs.TupleTypes.{most_fields};

use crate::sorted::Sorted;
use rss_base::{FieldDef, Fields, Name, NameList};
use std::marker::Model;

/// A relation: the segment that its tuples stand in, and its fields.
#[derive(Drop)]
pub(crate) struct Relation {
    segment: Name,
    fields: Fields,
}

impl Model for Relation {
    ghost use Rattle.std.specs.Prelude.{◌≤◌, length};
    ghost use Rattle.rss_base.specs.TupleTypes.{most_fields};
    ghost use Rattle.rss_model.specs.Tables.{RelationDef};

    ghost Value = { RelationDef };

    ghost view = { λ r. record { segment = r.segment; fields = r.fields } };

    ghost invariant = { λ r. length r.fields ≤ most_fields };
}

impl Relation {
    pub(crate) fn segment(&self) -> Name
        ensures { result ≡ self.now.segment }
    {
        self.segment
    }

    pub(crate) fn fields(&self) -> &[FieldDef]
        ensures is { result.now ≡ self.now.fields }
        ensures few { length result.now ≤ most_fields }
    {
        self.fields.as_slice()
    }
}

/// An image: an order of a relation's tuples by some of its fields, which may be unique.
#[derive(Drop)]
pub(crate) struct Image {
    relation: Name,
    is_unique: bool,
    fields: NameList,
}

impl Model for Image {
    ghost use Rattle.std.specs.Prelude.{◌≤◌, length};
    ghost use Rattle.rss_base.specs.TupleTypes.{most_fields};
    ghost use Rattle.rss_model.specs.Tables.{ImageDef};

    ghost Value = { ImageDef };

    ghost view = { λ i. record { relation = i.relation; is_unique = i.is_unique; fields = i.fields } };

    ghost invariant = { λ i. length i.fields ≤ most_fields };
}

impl Image {
    pub(crate) fn relation(&self) -> Name
        ensures { result ≡ self.now.relation }
    {
        self.relation
    }

    pub(crate) fn is_unique(&self) -> bool
        ensures { result ≡ self.now.is_unique }
    {
        self.is_unique
    }

    pub(crate) fn fields(&self) -> &[Name]
        ensures is { result.now ≡ self.now.fields }
        ensures few { length result.now ≤ most_fields }
    {
        self.fields.as_slice()
    }
}

/// A link: chains of tuples of one relation, each below a tuple of another if there is a parent. A
/// late one takes room in a tuple only while it says something of it.
#[derive(Drop)]
pub(crate) struct Link {
    parent: Option<Name>,
    child: Name,
    late: bool,
}

impl Model for Link {
    ghost use Rattle.rss_model.specs.Tables.{LinkDef};

    ghost Value = { LinkDef };

    ghost view = { λ l. record { parent = l.parent; child = l.child; late = l.late } };
}

impl Link {
    pub(crate) fn parent(&self) -> Option<Name>
        ensures { result ≡ self.now.parent }
    {
        self.parent
    }

    pub(crate) fn child(&self) -> Name
        ensures { result ≡ self.now.child }
    {
        self.child
    }
}

/// Of each kind, what is defined by its name.
#[derive(Drop)]
pub(crate) struct Definitions {
    pub(crate) segments: Sorted<Name, ()>,
    pub(crate) relations: Sorted<Name, Relation>,
    pub(crate) images: Sorted<Name, Image>,
    pub(crate) links: Sorted<Name, Link>,
}
