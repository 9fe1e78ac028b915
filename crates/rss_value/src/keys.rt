// Keys: the bytes by which tuples are ordered.
ghost use Rattle.std.specs.Prelude.{◌≡◌, ◌↔◌, ◌+◌, ◌≤◌, [], ◌∷◌, ◌++◌, List, length, replicate, Some, None, All, OnOk, IfErr};
ghost use Rattle.std.specs.Ordering.{nat_cmp};
ghost use Rattle.std.specs.Cmp.Lexicographic.{slice_cmp};
ghost use Rattle.rss_base.specs.TupleTypes.{kinds, misfit, most_fields, values_cmp, most_key_width, key_width, key_bytes, chosen, Spells, SpellsSome, IsKeyOf};
ghost use Rattle.rss_base.specs.declared.value.Value.{Value};
ghost use Rattle.rss_base.specs.declared.value.FieldForm.{FieldForm};
ghost use Rattle.rss_value.specs.Numbers.{IsNumberOf};

use crate::cursor::Cursor;
use crate::value_ref::{ValueRef, push_zeros};
use crate::widths::key_width;
use rss_base::{FieldDef, KEY_BYTES, Key, Tuple};
use std::cmp::Ordering;

/// Writes the key that a tuple has in an image of these of its fields, in this order, from the
/// bytes of the tuple's values. Fields are counted from 1.
pub fn key(fields: &[FieldDef], which: &[u8], values: &[u8], into: &mut Key)
    requires spelled { SpellsSome (kinds fields.now) values.now }
    requires numbers { All (IsNumberOf fields.now) which.now }
    requires narrow { key_width (chosen which.now (kinds fields.now)) ≤ most_key_width }
    requires empty { into.old ≡ [] }
    ensures { (tuple : List Value) → Spells (kinds fields.now) values.now tuple
        → IsKeyOf (chosen which.now (kinds fields.now)) (chosen which.now tuple) into.new }
{
    for number in which {
        put_part(fields, *number, values, into);
    }
}

/// Puts the part of one field after what is there.
fn put_part(fields: &[FieldDef], number: u8, values: &[u8], into: &mut Key)
    requires spelled { SpellsSome (kinds fields.now) values.now }
    requires number { IsNumberOf fields.now number }
    requires room { length into.old + key_width (chosen (number ∷ []) (kinds fields.now))
        ≤ KEY_BYTES }
    ensures { (tuple : List Value) → Spells (kinds fields.now) values.now tuple
        → into.new
        ≡ into.old ++ key_bytes (chosen (number ∷ []) (kinds fields.now))
        (chosen (number ∷ []) tuple) }
{
    let at = usize::from(number) - 1;
    let mut cursor = Cursor::new(values);
    for field in &fields[..at] {
        let _passed = cursor.read(field.form());
    }
    let form = fields[at].form();
    let value = cursor.read(form).unwrap();
    value.write_key_part(form, into);
}

/// Whether these values may be a key of an image of these of the fields, in this order. If not, the
/// first field, counted from 1, whose value has the wrong kind, is too long, has a character that isn't
/// allowed, is missing, or is one too many.
pub fn key_fits(fields: &[FieldDef], which: &[u8], key: &Tuple) -> Result<(), u8>
    requires numbers { All (IsNumberOf fields.now) which.now }
    requires few { length which.now ≤ most_fields }
    ensures ok { OnOk result (misfit (kinds (chosen which.now fields.now)) key.now ≡ None) }
    ensures first { IfErr result (λ number.
        misfit (kinds (chosen which.now fields.now)) key.now ≡ Some number) }
{
    let values = key.as_slice();
    let mut number = 1;
    for (place, value) in which.iter().zip(values) {
        let field = &fields[usize::from(*place) - 1];
        if !ValueRef::new(value).fits(field.form()) {
            return Err(number);
        }
        number += 1;
    }
    if which.len() == values.len() {
        Ok(())
    } else {
        Err(number)
    }
}

/// Writes the key that has these values, in an image of these of the fields, in this order.
pub fn key_from(fields: &[FieldDef], which: &[u8], key: &Tuple, into: &mut Key)
    requires numbers { All (IsNumberOf fields.now) which.now }
    requires fit { misfit (kinds (chosen which.now fields.now)) key.now ≡ None }
    requires narrow { key_width (kinds (chosen which.now fields.now)) ≤ most_key_width }
    requires empty { into.old ≡ [] }
    ensures { IsKeyOf (kinds (chosen which.now fields.now)) key.now into.new }
{
    for (place, value) in which.iter().zip(key.as_slice()) {
        let field = &fields[usize::from(*place) - 1];
        ValueRef::new(value).write_key_part(field.form(), into);
    }
}

/// Writes the bytes that are at or below each key of an image of these of the fields: zeros.
pub fn least_key(fields: &[FieldDef], which: &[u8], into: &mut Key)
    requires numbers { All (IsNumberOf fields.now) which.now }
    requires few { length which.now ≤ most_fields }
    requires narrow { key_width (chosen which.now (kinds fields.now)) ≤ most_key_width }
    requires empty { into.old ≡ [] }
    ensures { into.new ≡ replicate (key_width (chosen which.now (kinds fields.now))) 0 }
{
    push_zeros(into, key_width(fields, which));
}

/// The order of two keys, which is that of the values that they are made from.
pub fn compare_keys(a: &Key, b: &Key) -> Ordering
    ensures bytes { result ≡ slice_cmp nat_cmp a.now b.now }
    ensures values { (fields : List FieldForm) (first second : List Value)
        → IsKeyOf fields first a.now → IsKeyOf fields second b.now
        → result ≡ values_cmp first second }
    ensures same { (fields : List FieldForm) (first second : List Value)
        → IsKeyOf fields first a.now → IsKeyOf fields second b.now
        → (a.now ≡ b.now) ↔ (first ≡ second) }
{
    a.as_slice().cmp(b.as_slice())
}
