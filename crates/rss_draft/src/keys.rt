// Which tuples have keys now.
ghost use Rattle.std.specs.Prelude.{◌≡◌, true, is_some, length, All, IfOk};
ghost use Rattle.rss_base.specs.Listings.{image_at, IsFieldNumber};
ghost use Rattle.rss_base.specs.TupleTypes.{kinds, chosen, SpellsSome};
ghost use Rattle.rss_base.specs.declared.image.ImageEntry.{ImageEntry as AnImage};
ghost use Rattle.rss_base.specs.declared.relation.RelationEntry.{RelationEntry as Entry};
ghost use Rattle.rss_stored.specs.Store.{IsListedImage};
ghost use Rattle.rss_access.specs.Changes.{both, CanAlter};
ghost use Rattle.rss_draft.specs.Views.{said};
ghost use Rattle.rss_draft.specs.Looks.{Searches, IsKeyOf, IsOwnerNow};

use crate::draft::{Draft, ImageKey};
use rss_access::{find_owner, made_of};
use rss_base::{PageFault, Pages, Text, Tid, Tuple, Value};
use rss_catalog::Catalog;
use rss_tuple::Store;
use std::alloc::{AllocError, Global};

/// The tuple that has now, in the unique image `number`, the key of a tuple with the values of these
/// bytes, if there is one.
pub(crate) fn owner_now<P: Pages>(
    alloc: Global,
    draft: &Draft,
    tuples: &mut Store<P>,
    catalog: &Catalog,
    number: u8,
    values: &[u8],
) -> Result<Option<Tid>, PageFault>
    requires may { CanAlter (both (P.view tuples.old.pages) catalog.now) }
    requires there { is_some (image_at catalog.now.listing number) ≡ true }
    requires spelled { (image : AnImage) (relation : Entry)
        → IsListedImage catalog.now.listing number image relation
        → SpellsSome (kinds relation.fields) values.now }
    ensures owner { IfOk result (IsOwnerNow (both (P.view tuples.old.pages) catalog.now)
        (said draft.now) number values.now) }
    ensures did { Searches (P.view tuples.old.pages) (P.view tuples.new.pages) result }
{
    let Ok(key) = key_in(alloc, catalog, number, values) else {
        return Err(PageFault::NoMemory);
    };
    match draft.owner(&key) {
        Some(said) => Ok(said),
        None => find_owner(tuples, catalog, number, values, None),
    }
}

/// The key that a tuple with the values of these bytes has in the image `number`.
pub(crate) fn key_in(
    alloc: Global,
    catalog: &Catalog,
    number: u8,
    values: &[u8],
) -> Result<ImageKey, AllocError>
    requires there { is_some (image_at catalog.now.listing number) ≡ true }
    requires spelled { (image : AnImage) (relation : Entry)
        → IsListedImage catalog.now.listing number image relation
        → SpellsSome (kinds relation.fields) values.now }
    ensures { IfOk result (IsKeyOf catalog.now.listing number values.now) }
{
    let entry = catalog.image(number);
    let fields = catalog.relation(entry.relation).fields.as_slice();
    let tuple = made_of(alloc, fields, values)?;
    let which = &entry.fields[..usize::from(entry.count)];
    let values = chosen_values(alloc, which, &tuple)?;
    Ok(ImageKey {
        image: entry.name,
        values,
    })
}

/// The values of the fields that `which` numbers.
fn chosen_values(alloc: Global, which: &[u8], tuple: &Tuple) -> Result<Tuple, AllocError>
    requires { All (IsFieldNumber (length tuple.now)) which.now }
    ensures { IfOk result (λ key. key ≡ chosen which.now tuple.now) }
{
    let values = tuple.as_slice();
    let mut key = Tuple::with_capacity(alloc, which.len())?;
    for number in which {
        let value = &values[usize::from(*number) - 1];
        key.push(copied(alloc, value)?)?;
    }
    Ok(key)
}

fn copied(alloc: Global, value: &Value) -> Result<Value, AllocError>
    ensures { IfOk result (λ copy. copy ≡ value.now) }
{
    match value {
        Value::Int(number) => Ok(Value::Int(*number)),
        Value::Text(text) => Ok(Value::Text(Text::from_slice(alloc, text.as_slice())?)),
        Value::Undefined => Ok(Value::Undefined),
    }
}
