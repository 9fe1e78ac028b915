// The bodies of tuples.
ghost use Rattle.std.specs.Prelude.{◌≡◌, ◌≤◌, ℕ, None, All, IfOk, IfSome, OnOk, List, option_copied};
ghost use Rattle.rss_base.specs.TupleTypes.{kinds, chosen, key_width, most_key_width, Spells, SpellsSome};
ghost use Rattle.rss_base.specs.declared.value.Value.{Value as FieldValue};
ghost use Rattle.rss_value.specs.Numbers.{IsNumberOf};
ghost use Rattle.rss_entries.specs.Keyed.{kinds_of};
ghost use Rattle.rss_access.specs.Bodies.{HoldsBytes, IsKeyIn, IsSpelledIn};

use rss_base::{FieldDef, Key, Tuple};
use rss_catalog::Catalog;
use rss_entries::KeyFields;
use rss_members::prefix_len;
use rss_value::{decode_into, key as write_key, spells};
use std::alloc::{AllocError, Global};

/// The bytes of a tuple's values in a body of the relation `number`: after the number and the
/// blocks of its links.
pub(crate) fn values_in<'a>(catalog: &Catalog, number: u8, body: &'a [u8]) -> Option<&'a [u8]>
    ensures some { IfSome (option_copied result)
        (HoldsBytes catalog.now.listing number body.entry.now) }
    ensures none { result ≡ None → (bytes : List ℕ)
        → HoldsBytes catalog.now.listing number body.entry.now bytes → ⊥ }
{
    let (first, rest) = body.split_first()?;
    if *first != number {
        return None;
    }
    rest.get(prefix_len(catalog, number)..)
}

/// The bytes of a tuple's values in a body, if that is one of the relation `number`, and values of
/// these fields have them. It takes no memory.
pub fn spelled_in<'a>(
    catalog: &Catalog,
    number: u8,
    fields: &[FieldDef],
    body: &'a [u8],
) -> Option<&'a [u8]>
    ensures some { IfSome (option_copied result)
        (IsSpelledIn catalog.now.listing number (kinds fields.now) body.entry.now) }
    ensures none { result ≡ None → (bytes : List ℕ)
        → IsSpelledIn catalog.now.listing number (kinds fields.now) body.entry.now bytes → ⊥ }
{
    let bytes = values_in(catalog, number, body)?;
    if spells(fields, bytes) {
        Some(bytes)
    } else {
        None
    }
}

/// The tuple of the values that have these bytes. Its one error is want of memory.
pub fn made_of(alloc: Global, fields: &[FieldDef], bytes: &[u8]) -> Result<Tuple, AllocError>
    requires { SpellsSome (kinds fields.now) bytes.now }
    ensures is { IfOk result (Spells (kinds fields.now) bytes.now) }
    ensures only { IfOk result (λ tuple. (values : List FieldValue)
        → Spells (kinds fields.now) bytes.now values → values ≡ tuple) }
{
    let mut tuple = Tuple::with_capacity(alloc, fields.len())?;
    made_into(alloc, fields, bytes, &mut tuple)?;
    Ok(tuple)
}

/// Fills a tuple with the values that have these bytes, in place of those that it has. Its one error is
/// want of memory, and what the tuple holds then isn't said.
pub fn made_into(
    alloc: Global,
    fields: &[FieldDef],
    bytes: &[u8],
    into: &mut Tuple,
) -> Result<(), AllocError>
    requires { SpellsSome (kinds fields.now) bytes.now }
    ensures is { OnOk result (Spells (kinds fields.now) bytes.now into.new) }
    ensures only { OnOk result ((values : List FieldValue)
        → Spells (kinds fields.now) bytes.now values → values ≡ into.new) }
{
    let spelled = decode_into(alloc, fields, bytes, into)?;
    if spelled { Ok(()) } else { unreachable!() }
}

/// The key that a body has in an image by these of its fields. None if it is that of no tuple of
/// the relation `number`. It takes no memory.
pub(crate) fn key_in(catalog: &Catalog, number: u8, key: KeyFields<'_>, body: &[u8]) -> Option<Key>
    requires numbers { All (IsNumberOf key.fields.now) key.which.now }
    requires narrow { key_width (chosen key.which.now (kinds key.fields.now)) ≤ most_key_width }
    ensures some { IfSome result
        (IsKeyIn catalog.now.listing number (kinds_of key.entry) body.now) }
    ensures none { result ≡ None → (bytes : List ℕ)
        → IsSpelledIn catalog.now.listing number (kinds key.entry.fields.now) body.now bytes → ⊥ }
{
    let bytes = spelled_in(catalog, number, key.fields, body)?;
    let mut made = Key::new();
    write_key(key.fields, key.which, bytes, &mut made);
    Some(made)
}
