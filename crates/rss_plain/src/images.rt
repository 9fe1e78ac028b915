// The lists of images that are to be made.
ghost use Rattle.std.specs.Prelude.{◌≡◌, ◌≤◌, nat_le, flat_map, map, IfOk, OnOk};
ghost use Rattle.std.specs.List.{list_all, list_any};
ghost use Rattle.std.specs.FinMap.{entries, from_entries};
ghost use Rattle.std.specs.Ordering.{eq_by_cmp};
ghost use Rattle.rss_base.specs.TupleTypes.{key_part_width, key_width, kinds, most_key_width};
ghost use Rattle.rss_base.specs.declared.call.Call.TheVariants.{MakeImage};
ghost use Rattle.rss_model.specs.Defining.{fields_now, has_twice, if_images_used_up, if_repeated};
ghost use Rattle.rss_model.specs.Defining.{image_def, unless_fields, unless_narrow};
ghost use Rattle.rss_model.specs.Fits.{is_field_of};
ghost use Rattle.rss_model.specs.Images.{entry_cmp, entry_of, repeated};
ghost use Rattle.rss_model.specs.Items.{name_cmp};
ghost use Rattle.rss_model.proofs.ImageLists.{entry_total};
ghost use Rattle.rss_plain.specs.Defining.{if_image_taken, unless_some};
ghost use Rattle.rss_plain.specs.Entries.{with_entries};
ghost use Rattle.rss_plain.specs.Judging.{judged};
ghost use Rattle.rss_plain.specs.Maps.{mapped};
ghost use Rattle.rss_plain.specs.View.{machine};

use crate::contents::{Content, Held};
use crate::keys::{compare_values, field_number, key_fields, key_of};
use crate::places::{At, Place, same_name};
use crate::plain::Plain;
use crate::refusals::{refused_if, refused_unless};
use crate::scans::Entry;
use crate::sorted::{Keyed, Sorted};
use rss_base::{
    FieldDef, FieldForm, FieldKind, IMAGES_MOST, KEY_BYTES, Kind, LimitKind, Name, Refusal, Tid,
};
use std::alloc::AllocError;
use std::cmp::Ordering;

impl Keyed for Entry {
    ghost order = { entry_cmp };

    fn compare(&self, other: &Entry) -> Ordering {
        let keys = compare_values(self.key.as_slice(), other.key.as_slice());
        let tids = self.tid.page.cmp(&other.tid.page);
        keys.then(tids.then(self.tid.slot.cmp(&other.tid.slot)))
    }

    ghost total = { entry_total };
}

/// Whether this is one of the names.
fn is_among(names: &[Name], name: &Name) -> bool
    ensures { result ≡ list_any (eq_by_cmp name_cmp name.now) names.now }
{
    names.iter().any(|other| same_name(name, other))
}

/// Whether one of the names stands twice.
fn is_name_twice(names: &[Name]) -> bool
    ensures { result ≡ has_twice names.now }
{
    match names {
        [] => false,
        [name, rest @ ..] => is_among(rest, name) || is_name_twice(rest),
    }
}

/// How many bytes of a key a field has.
fn key_part_width(form: FieldForm) -> usize
    ensures is { result ≡ key_part_width form }
    ensures low { result ≤ 256 }
{
    let mark = usize::from(form.added);
    match form.kind {
        FieldKind::Int => mark + 8,
        FieldKind::Text(most) => mark + usize::from(most),
    }
}

/// Whether a key of these fields has no more bytes than it may.
fn are_narrow(fields: &[FieldDef]) -> bool
    ensures { result ≡ nat_le (key_width (kinds fields.now)) most_key_width }
{
    let mut left = KEY_BYTES;
    for field in fields {
        let width = key_part_width(field.form());
        if width > left {
            return false;
        }
        left -= width;
    }
    true
}

/// The first entry whose key is that of the entry before it.
fn repeated(list: &[(Entry, ())]) -> Option<Tid>
    ensures { result ≡ repeated (map (λ entry. entry.0) list.now) }
{
    for place in 0..list.len().saturating_sub(1) {
        let (before, _) = &list[place];
        let (entry, _) = &list[place + 1];
        if compare_values(before.key.as_slice(), entry.key.as_slice()).is_eq() {
            return Some(entry.tid);
        }
    }
    None
}

impl Plain {
    /// The entry of what an item holds comes into a list, if it is a tuple of the relation.
    fn put_entry(
        &self,
        list: &mut Sorted<Entry, ()>,
        relation: &Name,
        names: &[Name],
        held: &(Place, Content),
    ) -> Result<(), AllocError>
        ensures { OnOk result (mapped entry_cmp list.new ≡ with_entries
            (entry_of relation.now (fields_now (machine self.now) relation.now) names.now
            held.now.0 held.now.1) (mapped entry_cmp list.old)) }
    {
        let (place, content) = held;
        if let (At::Tuple(name, tid), Held::Values(values)) = (&place.at, &content.held)
            && same_name(relation, name)
        {
            let fields = self.fields_now(relation);
            let key = key_of(self.alloc, fields, names, values.as_slice())?;
            list.put(Entry { key, tid: *tid }, ())?;
        }
        Ok(())
    }

    /// The committed tuples of a relation, by the values of these fields and their identifiers.
    fn entries_by(&self, relation: &Name, names: &[Name]) -> Result<Sorted<Entry, ()>, AllocError>
        ensures { IfOk result (λ list. mapped entry_cmp list ≡ from_entries {R = entry_cmp}
            (flat_map (λ held. entry_of relation.now (fields_now (machine self.now) relation.now)
            names.now held.0 held.1) (entries (machine self.now).base.contents))) }
    {
        let mut list = Sorted::new(self.alloc);
        let held = self.items.base().entries();
        let mut place = held.len();
        while place > 0 {
            place -= 1;
            self.put_entry(&mut list, relation, names, &held[place])?;
        }
        Ok(list)
    }

    /// A unique image would have two equal keys.
    fn if_repeated(
        &self,
        name: &Name,
        relation: &Name,
        is_unique: bool,
        fields: &[Name],
    ) -> Result<Option<Refusal>, AllocError>
        ensures { IfOk result (λ why. why ≡ if_repeated (machine self.now) name.now is_unique
            (image_def relation.now is_unique fields.now)) }
    {
        if !is_unique {
            return Ok(None);
        }
        let list = self.entries_by(relation, fields)?;
        match repeated(list.entries()) {
            Some(tid) => Ok(Some(Refusal::Duplicate(*name, tid))),
            None => Ok(None),
        }
    }

    // ---- tests

    fn unless_fields(&self, relation: &Name, names: &[Name]) -> Option<Refusal>
        ensures { result ≡ unless_fields (machine self.now) relation.now names.now }
    {
        let fields = self.fields_now(relation);
        refused_unless(are_fields(fields, names), Refusal::NoSuch(Kind::Field))
    }

    fn if_image_taken(&self, name: &Name, fields: &[Name]) -> Option<Refusal>
        ensures { result ≡ if_image_taken (machine self.now) name.now fields.now }
    {
        refused_if(
            self.definitions.images.has(name) || is_name_twice(fields),
            Refusal::NameTaken,
        )
    }

    fn if_images_used_up(&self) -> Option<Refusal>
        ensures { result ≡ if_images_used_up (machine self.now) }
    {
        refused_if(
            self.definitions.images.len() >= usize::from(IMAGES_MOST),
            Refusal::Limit(LimitKind::Images),
        )
    }

    fn unless_narrow(&self, relation: &Name, names: &[Name]) -> Result<Option<Refusal>, AllocError>
        ensures { IfOk result (λ why.
            why ≡ unless_narrow (machine self.now) relation.now names.now) }
    {
        let fields = key_fields(self.alloc, self.fields_now(relation), names)?;
        Ok(refused_unless(are_narrow(&fields), Refusal::Limit(LimitKind::KeyWidth)))
    }

    pub(crate) fn judge_make_image(
        &self,
        name: &Name,
        relation: &Name,
        is_unique: bool,
        fields: &[Name],
    ) -> Result<Option<Refusal>, AllocError>
        ensures { IfOk result (λ why. why ≡ judged (machine self.now)
            (MakeImage name.now relation.now is_unique fields.now)) }
    {
        let wide = self.unless_narrow(relation, fields)?;
        let repeated = self.if_repeated(name, relation, is_unique, fields)?;
        Ok(
            self.if_any_open()
                .or(self.unless_relation(relation))
                .or(self.unless_fields(relation, fields))
                .or(self.if_image_taken(name, fields))
                .or(self.if_images_used_up())
                .or(unless_some(fields))
                .or(wide)
                .or(repeated),
        )
    }
}

/// Whether all of these are names of fields.
fn are_fields(fields: &[FieldDef], names: &[Name]) -> bool
    ensures { result ≡ list_all (is_field_of fields.now) names.now }
{
    names
        .iter()
        .all(|name| field_number(fields, name).is_some())
}

fn unless_some(fields: &[Name]) -> Option<Refusal>
    ensures { result ≡ unless_some fields.now }
{
    refused_unless(!fields.is_empty(), Refusal::Limit(LimitKind::Fields))
}
