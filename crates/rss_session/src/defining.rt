// What the calls that define are refused for, and what they make of the catalog.
ghost use Rattle.std.specs.List.{list_any};
ghost use Rattle.std.specs.Ordering.{eq_by_cmp};
ghost use Rattle.std.specs.Prelude.{◌≡◌, ◌≤◌, true, Some, OnOk, IfErr, Err, All};
ghost use Rattle.rss_base.specs.Names.{IsName};
ghost use Rattle.rss_base.specs.Sizes.{relations_most};
ghost use Rattle.rss_base.specs.TupleTypes.{kinds, field_names, width, most_width, are_kinds};
ghost use Rattle.rss_base.specs.declared.call.Call.TheVariants.{MakeSegment, MakeRelation, DropSegment, DropRelation};
ghost use Rattle.rss_model.specs.Items.{name_cmp};
ghost use Rattle.rss_model.specs.Defining.{has_twice};
ghost use Rattle.rss_model.specs.Steps.{first_of};
ghost use Rattle.rss_model.specs.ReplyText.{IsShort};
ghost use Rattle.rss_session.specs.FieldTests.{fields_tests};
ghost use Rattle.rss_session.specs.Definitions.{Defining};

use crate::Session;
use rss_base::{
    FieldDef, Fields, Kind, LimitKind, MOST_FIELDS, MOST_WIDTH, Name, Refusal, RelationEntry,
};
use rss_buffer::Saving;
use rss_value::width;

impl<S: Saving> Session<S> {
    ghost use Rattle.rss_session.specs.Parts.{view};

    /// Defines a segment. `redefine` commits it.
    pub fn make_segment(&mut self, name: &Name) -> Result<(), Refusal>
        requires { IsName name.now }
        ensures { Defining S.view self.old self.new (MakeSegment name.now) result }
    {
        self.test_rest()?;
        if self.store.catalog.find(Kind::Segment, name).is_some() {
            return Err(Refusal::NameTaken);
        }
        if self.store.catalog.is_full(Kind::Segment) {
            return Err(Refusal::Limit(LimitKind::Segments));
        }
        self.store.catalog.add_segment(*name);
        Ok(())
    }

    /// Defines a relation without tuples, whose fields are original ones. `redefine` commits it.
    pub fn make_relation(
        &mut self,
        name: &Name,
        segment: &Name,
        mut fields: Fields,
    ) -> Result<(), Refusal>
        requires name { IsName name.now }
        requires fields { All IsName (field_names fields) }
        ensures { Defining S.view self.old self.new (MakeRelation name.now segment.now fields) result }
    {
        self.test_rest()?;
        let Some(segment) = self.store.catalog.find(Kind::Segment, segment) else {
            return Err(Refusal::NoSuch(Kind::Segment));
        };
        if self.store.catalog.find(Kind::Relation, name).is_some() || has_twice(fields.as_slice()) {
            return Err(Refusal::NameTaken);
        }
        if self.store.catalog.is_full(Kind::Relation) {
            return Err(Refusal::Limit(LimitKind::Relations));
        }
        fields.make_original();
        test_fields(fields.as_slice())?;
        self.store.catalog.add_relation(RelationEntry {
            name: *name,
            segment,
            fields,
            live: 0,
        });
        Ok(())
    }

    /// Takes a segment away that has no relation. `redefine` commits it.
    pub fn drop_segment(&mut self, name: &Name) -> Result<(), Refusal>
        ensures { Defining S.view self.old self.new (DropSegment name.now) result }
    {
        self.test_rest()?;
        let Some(number) = self.store.catalog.find(Kind::Segment, name) else {
            return Err(Refusal::NoSuch(Kind::Segment));
        };
        if self.store.catalog.has_relation_in(number) {
            return Err(Refusal::NotEmpty);
        }
        self.store.catalog.remove(Kind::Segment, number);
        Ok(())
    }

    /// Takes a relation away that has no tuples, no image and no part in a link. `redefine` commits it.
    pub fn drop_relation(&mut self, name: &Name) -> Result<(), Refusal>
        ensures { Defining S.view self.old self.new (DropRelation name.now) result }
    {
        self.test_rest()?;
        let Some(number) = self.store.catalog.find(Kind::Relation, name) else {
            return Err(Refusal::NoSuch(Kind::Relation));
        };
        if self.store.catalog.relation(number).live > 0
            || self.store.catalog.has_image_of(number)
            || self.store.catalog.has_link_of(number)
        {
            return Err(Refusal::NotEmpty);
        }
        self.store.catalog.remove(Kind::Relation, number);
        Ok(())
    }
}

/// Whether two fields have one name.
pub fn has_twice(fields: &[FieldDef]) -> bool
    ensures { result ≡ has_twice (field_names fields.now) }
{
    for (place, field) in fields.iter().enumerate() {
        if has_name(&fields[place + 1..], &field.name) {
            return true;
        }
    }
    false
}

/// Whether one of these fields has this name.
fn has_name(fields: &[FieldDef], name: &Name) -> bool
    ensures { result ≡ list_any (eq_by_cmp name_cmp name.now) (field_names fields.now) }
{
    fields.iter().any(|field| field.name == *name)
}

/// A relation may have these fields: so many of them, of these kinds, and no wider than they may be.
pub fn test_fields(fields: &[FieldDef]) -> Result<(), Refusal>
    ensures formed { OnOk result (are_kinds (kinds fields.now) ≡ true) }
    ensures narrow { OnOk result (width (kinds fields.now) ≤ most_width) }
    ensures refused { IfErr result (λ why. first_of (fields_tests fields.now) ≡ Some why) }
    ensures short { IfErr result (λ why. IsShort (Err why)) }
{
    if !are_kinds(fields) {
        return Err(Refusal::Limit(LimitKind::Fields));
    }
    if width(fields) > MOST_WIDTH {
        return Err(Refusal::Limit(LimitKind::Width));
    }
    Ok(())
}

/// Whether a relation may have so many fields, of these kinds.
fn are_kinds(fields: &[FieldDef]) -> bool
    ensures { result ≡ are_kinds (kinds fields.now) }
{
    match fields.len() {
        1..=MOST_FIELDS => fields.iter().all(|field| field.kind.is_allowed()),
        _ => false,
    }
}
