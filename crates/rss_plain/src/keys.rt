// Keys of images.
ghost use Rattle.std.specs.Prelude.{◌≡◌, ◌≤◌, ◌++◌, ◌∷◌, [], option_copied, option_to_list, None};
ghost use Rattle.std.specs.Prelude.{find, if◌then◌else◌, option_and_then, IfOk, IfSome, OnOk};
ghost use Rattle.rss_base.specs.TupleTypes.{chosen, value_cmp, values_cmp};
ghost use Rattle.rss_model.specs.Images.{field_number, has_key, is_other, key_in, key_of, numbers_of};
ghost use Rattle.rss_model.specs.Images.{owner_of_key, tid_of};
ghost use Rattle.rss_model.specs.Defining.{fields_now};
ghost use Rattle.rss_model.specs.Machine.{now};
ghost use Rattle.rss_model.specs.Needs.{changing, key_need, key_needs, keys_of_each, tuple_changed};
ghost use Rattle.rss_model.specs.Needs.{tuple_keys};
ghost use Rattle.rss_model.specs.Refusals.{if_duplicate, if_owned, image_of, unless_key_fits};
ghost use Rattle.rss_plain.specs.Keys.{named_item};
ghost use Rattle.rss_plain.specs.Tests.{is_unique_of, unless_image};
ghost use Rattle.rss_plain.specs.View.{machine};

use crate::contents::{Content, Held};
use crate::definitions::Image;
use crate::locking::push;
use crate::places::{At, Place, same_name, same_tid};
use crate::plain::Plain;
use crate::refusals::refused_unless;
use rss_base::{FieldDef, Item, Kind, Mode, Name, Need, Refusal, Text, Tid, Tuple, Value};
use rss_value::fits;
use std::alloc::{AllocError, Global};
use std::cmp::Ordering;

/// The number of the field with a name, counted from 1.
pub(crate) fn field_number(fields: &[FieldDef], name: &Name) -> Option<usize>
    ensures number { result ≡ field_number fields.now name.now }
    ensures low { IfSome result (λ number. 1 ≤ number) }
{
    for (place, field) in fields.iter().enumerate() {
        if same_name(name, &field.name) {
            return Some(place + 1);
        }
    }
    None
}

/// The item in the place of the field with a name.
fn named_item<'a, T>(fields: &[FieldDef], items: &'a [T], name: &Name) -> Option<&'a T>
    ensures { option_copied result ≡ named_item fields.now items.now name.now }
{
    items.get(field_number(fields, name)? - 1)
}

/// The fields with these names.
pub(crate) fn key_fields(
    alloc: Global,
    fields: &[FieldDef],
    names: &[Name],
) -> Result<Vec<FieldDef>, AllocError>
    ensures { IfOk result (λ key. key.items ≡ chosen (numbers_of fields.now names.now) fields.now) }
{
    let mut key = Vec::new(alloc);
    for name in names {
        push_field(&mut key, named_item(fields, fields, name))?;
    }
    Ok(key)
}

fn push_field(key: &mut Vec<FieldDef>, field: Option<&FieldDef>) -> Result<(), AllocError>
    ensures { OnOk result
        (key.new.items ≡ key.old.items ++ option_to_list (option_copied field.entry)) }
{
    if let Some(field) = field {
        key.push(*field)?;
    }
    Ok(())
}

/// The values of these fields of a tuple.
pub(crate) fn key_of(
    alloc: Global,
    fields: &[FieldDef],
    names: &[Name],
    values: &[Value],
) -> Result<Tuple, AllocError>
    ensures { IfOk result (λ key. key ≡ key_of fields.now names.now values.now) }
{
    let mut key = Tuple::new(alloc);
    for name in names {
        push_value(alloc, &mut key, named_item(fields, values, name))?;
    }
    Ok(key)
}

fn push_value(alloc: Global, key: &mut Tuple, value: Option<&Value>) -> Result<(), AllocError>
    ensures { OnOk result (key.new ≡ key.old ++ option_to_list (option_copied value.entry)) }
{
    if let Some(value) = value {
        key.push(copy_of(alloc, value)?)?;
    }
    Ok(())
}

fn copy_of(alloc: Global, value: &Value) -> Result<Value, AllocError>
    ensures { IfOk result (λ copy. copy ≡ value.now) }
{
    match value {
        Value::Int(number) => Ok(Value::Int(*number)),
        Value::Text(text) => Ok(Value::Text(Text::from_slice(alloc, text.as_slice())?)),
        Value::Undefined => Ok(Value::Undefined),
    }
}

/// What is undefined before all else, numbers as numbers, texts by their bytes, and a number before
/// a text.
fn compare_value(a: &Value, b: &Value) -> Ordering
    ensures { result ≡ value_cmp a.now b.now }
{
    match (a, b) {
        (Value::Undefined, Value::Undefined) => Ordering::Equal,
        (Value::Undefined, _) => Ordering::Less,
        (_, Value::Undefined) => Ordering::Greater,
        (Value::Int(a), Value::Int(b)) => a.cmp(b),
        (Value::Int(_), Value::Text(_)) => Ordering::Less,
        (Value::Text(_), Value::Int(_)) => Ordering::Greater,
        (Value::Text(a), Value::Text(b)) => a.as_slice().cmp(b.as_slice()),
    }
}

/// Lists of values, by the first two that differ.
pub(crate) fn compare_values(a: &[Value], b: &[Value]) -> Ordering
    ensures { result ≡ values_cmp a.now b.now }
{
    match a {
        [] => {
            if b.is_empty() {
                Ordering::Equal
            } else {
                Ordering::Less
            }
        }
        [x, xs @ ..] => match b {
            [] => Ordering::Greater,
            [y, ys @ ..] => compare_value(x, y).then(compare_values(xs, ys)),
        },
    }
}

/// Whether the tuple is another one than this.
fn is_other(one: Option<Tid>, tid: Tid) -> bool
    ensures { result ≡ is_other one tid }
{
    match one {
        Some(one) => !same_tid(one, tid),
        None => true,
    }
}

/// Whether an image is a unique one of this relation.
fn is_unique_of(relation: &Name, image: &Image) -> bool
    ensures { result ≡ is_unique_of relation.now image.now }
{
    image.is_unique() && same_name(relation, &image.relation())
}

impl Plain {
    /// The key of values in an image.
    fn key_in(&self, image: &Image, values: &Tuple) -> Result<Tuple, AllocError>
        ensures { IfOk result (λ key.
            key ≡ key_in (machine self.now).base.definitions image.now values.now) }
    {
        key_of(
            self.alloc,
            self.fields_now(&image.relation()),
            image.fields(),
            values.as_slice(),
        )
    }

    // ---- who has a key

    /// Whether what an item holds is a tuple of the image's relation with this key, and not this
    /// one tuple.
    fn has_key(
        &self,
        image: &Image,
        key: &Tuple,
        but: Option<Tid>,
        held: &(Place, Content),
    ) -> Result<bool, AllocError>
        ensures { IfOk result (λ has. has ≡ has_key image.now.relation
            (fields_now (machine self.now) image.now.relation) image.now.fields key.now but
            held.now) }
    {
        let (place, content) = held;
        match (&place.at, &content.held) {
            (At::Tuple(name, tid), Held::Values(values)) => {
                let its = self.key_in(image, values)?;
                let same = compare_values(its.as_slice(), key.as_slice()).is_eq();
                Ok(same_name(&image.relation(), name) && same && is_other(but, *tid))
            }
            _ => Ok(false),
        }
    }

    /// The tuple that has the key of values in an image, but for this one.
    fn owner_of(
        &self,
        image: &Image,
        but: Option<Tid>,
        values: &Tuple,
    ) -> Result<Option<Tid>, AllocError>
        ensures { IfOk result (λ owner. owner ≡ owner_of_key (now (machine self.now)) image.now but
            (key_in (machine self.now).base.definitions image.now values.now)) }
    {
        let key = self.key_in(image, values)?;
        self.owner_among(self.entries(), image, &key, but)
    }

    fn owner_among(
        &self,
        held: &[(Place, Content)],
        image: &Image,
        key: &Tuple,
        but: Option<Tid>,
    ) -> Result<Option<Tid>, AllocError>
        ensures { IfOk result (λ owner. owner ≡ option_and_then (λ one. tid_of one.0)
            (find (has_key image.now.relation (fields_now (machine self.now) image.now.relation)
            image.now.fields key.now but) held.now)) }
    {
        for one in held {
            let has = self.has_key(image, key, but, one)?;
            if has {
                return Ok(one.0.tid());
            }
        }
        Ok(None)
    }

    /// The tuple that has the key of values in an image, but for this one, if the image is a unique
    /// one of the relation.
    fn if_owned(
        &self,
        relation: &Name,
        image: &(Name, Image),
        but: Option<Tid>,
        values: &Tuple,
    ) -> Result<Option<Refusal>, AllocError>
        ensures { IfOk result (λ why. why ≡ (if is_unique_of relation.now image.now.1
            then if_owned (machine self.now) but values.now image.now else None)) }
    {
        if !is_unique_of(relation, &image.1) {
            return Ok(None);
        }
        match self.owner_of(&image.1, but, values)? {
            Some(tid) => Ok(Some(Refusal::Duplicate(image.0, tid))),
            None => Ok(None),
        }
    }

    /// The first unique image of a relation in which another tuple has the key of values.
    pub(crate) fn if_duplicate(
        &self,
        relation: &Name,
        but: Option<Tid>,
        values: &Tuple,
    ) -> Result<Option<Refusal>, AllocError>
        ensures { IfOk result (λ why.
            why ≡ if_duplicate (machine self.now) relation.now but values.now) }
    {
        let images = self.definitions.images.entries();
        for image in images {
            let owned = self.if_owned(relation, image, but, values)?;
            if owned.is_some() {
                return Ok(owned);
            }
        }
        Ok(None)
    }

    // ---- locks of keys

    fn push_key(
        &self,
        needs: &mut Vec<Need>,
        image: &(Name, Image),
        values: &Tuple,
    ) -> Result<(), AllocError>
        ensures { OnOk result (needs.new.items ≡ needs.old.items
            ++ key_need (now (machine self.now)) values.now image.now ∷ []) }
    {
        let key = self.key_in(&image.1, values)?;
        push(needs, Item::Key(image.0, key), Mode::X)
    }

    /// The keys of values in an image, and of others if there are any, if it is a unique one of the
    /// relation.
    fn push_keys_of(
        &self,
        needs: &mut Vec<Need>,
        relation: &Name,
        image: &(Name, Image),
        values: &Tuple,
        others: Option<&Tuple>,
    ) -> Result<(), AllocError>
        ensures { OnOk result (needs.new.items ≡ needs.old.items
            ++ (if is_unique_of relation.now image.now.1 then keys_of_each (now (machine self.now))
            (values.now ∷ option_to_list (option_copied others.entry)) image.now else [])) }
    {
        if !is_unique_of(relation, &image.1) {
            return Ok(());
        }
        self.push_key(needs, image, values)?;
        match others {
            Some(others) => self.push_key(needs, image, others),
            None => Ok(()),
        }
    }

    /// The keys of values, and of others if there are any, in each unique image of the relation.
    fn push_keys(
        &self,
        needs: &mut Vec<Need>,
        relation: &Name,
        values: &Tuple,
        others: Option<&Tuple>,
    ) -> Result<(), AllocError>
        ensures { OnOk result (needs.new.items ≡ needs.old.items
            ++ key_needs (now (machine self.now)) relation.now
            (values.now ∷ option_to_list (option_copied others.entry))) }
    {
        let images = self.definitions.images.entries();
        for image in images {
            self.push_keys_of(needs, relation, image, values, others)?;
        }
        Ok(())
    }

    pub(crate) fn insert_needs(
        &self,
        relation: &Name,
        tuple: &Tuple,
    ) -> Result<Vec<Need>, AllocError>
        ensures { IfOk result (λ needs. needs.items ≡ changing (now (machine self.now)) relation.now
            ++ key_needs (now (machine self.now)) relation.now (tuple.now ∷ [])) }
    {
        let mut needs = self.relation_needs(relation, Mode::IX, Mode::IX)?;
        self.push_keys(&mut needs, relation, tuple, None)?;
        Ok(needs)
    }

    pub(crate) fn update_needs(
        &self,
        relation: &Name,
        tid: Tid,
        tuple: &Tuple,
    ) -> Result<Vec<Need>, AllocError>
        ensures { IfOk result (λ needs. needs.items
            ≡ tuple_changed (now (machine self.now)) relation.now tid
            ++ tuple_keys (now (machine self.now)) relation.now tid (tuple.now ∷ [])) }
    {
        let mut needs = self.tuple_needs(relation, tid, Mode::IX, Mode::X)?;
        if let Some(values) = self.values(*relation, tid) {
            self.push_keys(&mut needs, relation, values, Some(tuple))?;
        }
        Ok(needs)
    }

    pub(crate) fn delete_needs(&self, relation: &Name, tid: Tid) -> Result<Vec<Need>, AllocError>
        ensures { IfOk result (λ needs. needs.items
            ≡ tuple_changed (now (machine self.now)) relation.now tid
            ++ tuple_keys (now (machine self.now)) relation.now tid []) }
    {
        let mut needs = self.tuple_needs(relation, tid, Mode::IX, Mode::X)?;
        if let Some(values) = self.values(*relation, tid) {
            self.push_keys(&mut needs, relation, values, None)?;
        }
        Ok(needs)
    }

    // ---- where a scan begins

    pub(crate) fn unless_image(&self, image: &Name) -> Option<Refusal>
        ensures { result ≡ unless_image (machine self.now) image.now }
    {
        refused_unless(
            self.definitions.images.has(image),
            Refusal::NoSuch(Kind::Image),
        )
    }

    /// The key from which a scan of an image begins, if there is one, fits the image's fields.
    pub(crate) fn unless_key_fits(
        &self,
        image: &Name,
        start: &Option<Tuple>,
    ) -> Result<Option<Refusal>, AllocError>
        ensures { IfOk result (λ why. why ≡ unless_key_fits (machine self.now)
            (image_of (machine self.now) image.now) start.now) }
    {
        let (Some(image), Some(key)) = (self.image(image), start) else {
            return Ok(None);
        };
        let fields = key_fields(
            self.alloc,
            self.fields_now(&image.relation()),
            image.fields(),
        )?;
        match fits(&fields, key) {
            Ok(()) => Ok(None),
            Err(number) => Ok(Some(Refusal::BadTuple(number))),
        }
    }
}
