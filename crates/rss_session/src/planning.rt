// What an image that is to be made is refused for before its tuples are looked at.
ghost use Rattle.std.specs.FinMap.{empty};
ghost use Rattle.std.specs.List.{list_any, list_all};
ghost use Rattle.std.specs.Ordering.{eq_by_cmp};
ghost use Rattle.std.specs.Prelude.{◌≡◌, ◌≤◌, true, length, IfOk, IfErr, OnOk};
ghost use Rattle.rss_base.specs.Listings.{padded};
ghost use Rattle.rss_base.specs.Names.{IsName};
ghost use Rattle.rss_base.specs.TupleTypes.{key_width, most_fields, most_key_width};
ghost use Rattle.rss_model.specs.Defining.{has_twice};
ghost use Rattle.rss_model.specs.Fits.{is_field_of};
ghost use Rattle.rss_model.specs.Images.{field_number, numbers_of, key_kinds};
ghost use Rattle.rss_model.specs.Items.{name_cmp};
ghost use Rattle.rss_model.specs.Steps.{first_of};
ghost use Rattle.rss_session.specs.Admissions.{Tests};
ghost use Rattle.rss_session.specs.Planning.{plan_tests, PlansImage, IsTooWide};

use crate::Session;
use rss_base::{FieldDef, ImageEntry, KEY_BYTES, Kind, LimitKind, MOST_FIELDS, Name, Refusal};
use rss_buffer::Saving;
use rss_value::key_width;

impl<S: Saving> Session<S> {
    ghost use Rattle.rss_session.specs.Parts.{view};

    /// The entry of an image that may be made, but for where its tree begins.
    pub fn plan_image(
        &self,
        name: &Name,
        relation: &Name,
        is_unique: bool,
        fields: &[Name],
    ) -> Result<ImageEntry, Refusal>
        requires name { IsName name.now }
        ensures plans { IfOk result (PlansImage (view S.view self.now).store.catalog.listing
            name.now relation.now is_unique fields.now) }
        ensures closed { IfOk result (λ entry. (view S.view self.now).opened.transactions ≡ empty) }
        ensures tests { Tests (view S.view self.now)
            (λ state. first_of (plan_tests state name.now relation.now fields.now)) result }
    {
        self.test_rest()?;
        let Some(number) = self.store.catalog.find(Kind::Relation, relation) else {
            return Err(Refusal::NoSuch(Kind::Relation));
        };
        let known = self.store.catalog.relation(number).fields.as_slice();
        if !are_fields(known, fields) {
            return Err(Refusal::NoSuch(Kind::Field));
        }
        if self.store.catalog.find(Kind::Image, name).is_some() || is_any_twice(fields) {
            return Err(Refusal::NameTaken);
        }
        if self.store.catalog.is_full(Kind::Image) {
            return Err(Refusal::Limit(LimitKind::Images));
        }
        if fields.is_empty() {
            return Err(Refusal::Limit(LimitKind::Fields));
        }
        let numbers = key_numbers(known, fields)?;
        Ok(ImageEntry {
            name: *name,
            relation: number,
            is_unique,
            count: fields.len() as u8,
            fields: numbers,
            levels: 1,
            root: 0,
        })
    }
}

/// Whether each of these names is that of one of the fields.
fn are_fields(fields: &[FieldDef], names: &[Name]) -> bool
    requires { length fields.now ≤ most_fields }
    ensures { result ≡ list_all (is_field_of fields.now) names.now }
{
    names.iter().all(|name| number_of(fields, name).is_some())
}

/// The number of the field with this name, counted from 1.
fn number_of(fields: &[FieldDef], name: &Name) -> Option<u8>
    requires { length fields.now ≤ most_fields }
    ensures { result ≡ field_number fields.now name.now }
{
    let place = fields.iter().position(|field| field.name == *name)?;
    Some(place as u8 + 1)
}

/// Whether one of these names stands twice among them.
fn is_any_twice(names: &[Name]) -> bool
    ensures { result ≡ has_twice names.now }
{
    for (place, name) in names.iter().enumerate() {
        if stands_in(&names[place + 1..], name) {
            return true;
        }
    }
    false
}

/// Whether this is one of the names.
fn stands_in(names: &[Name], name: &Name) -> bool
    ensures { result ≡ list_any (eq_by_cmp name_cmp name.now) names.now }
{
    names.iter().any(|other| *other == *name)
}

/// The numbers of the fields with these names, and zeros after them, if a key of them isn't too
/// wide.
fn key_numbers(fields: &[FieldDef], names: &[Name]) -> Result<[u8; MOST_FIELDS], Refusal>
    requires short { length fields.now ≤ most_fields }
    requires known { list_all (is_field_of fields.now) names.now ≡ true }
    requires few { length names.now ≤ most_fields }
    ensures numbers { IfOk result (λ numbers.
        numbers ≡ padded most_fields (numbers_of fields.now names.now)) }
    ensures narrow { OnOk result (key_width (key_kinds fields.now names.now) ≤ most_key_width) }
    ensures wide { IfErr result (IsTooWide fields.now names.now) }
{
    let numbers = numbers_of(fields, names);
    if key_width(fields, &numbers[..names.len()]) > KEY_BYTES {
        return Err(Refusal::Limit(LimitKind::KeyWidth));
    }
    Ok(numbers)
}

/// The numbers of the fields with these names, and zeros after them.
fn numbers_of(fields: &[FieldDef], names: &[Name]) -> [u8; MOST_FIELDS]
    requires short { length fields.now ≤ most_fields }
    requires known { list_all (is_field_of fields.now) names.now ≡ true }
    requires few { length names.now ≤ most_fields }
    ensures { result ≡ padded most_fields (numbers_of fields.now names.now) }
{
    let mut numbers = [0; MOST_FIELDS];
    for (place, name) in names.iter().enumerate() {
        numbers[place] = number_of(fields, name).unwrap();
    }
    numbers
}
