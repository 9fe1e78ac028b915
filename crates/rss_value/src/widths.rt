// How many bytes tuples and keys have at most.
ghost use Rattle.std.specs.Prelude.{◌≡◌, ◌≤◌, length, All};
ghost use Rattle.rss_base.specs.TupleTypes.{kinds, most_fields, mark_width, kind_width, field_width, width, key_kind_width, key_part_width, key_width, chosen};
ghost use Rattle.rss_value.specs.Numbers.{IsNumberOf};

use rss_base::{FieldDef, FieldForm, FieldKind};

/// How many bytes the values of these fields have at most.
pub fn width(fields: &[FieldDef]) -> usize
    requires { length fields.now ≤ most_fields }
    ensures { result ≡ width (kinds fields.now) }
{
    let mut total = 0;
    for field in fields {
        total += field_width(field.form());
    }
    total
}

/// How many bytes a key of these of the fields has, counted from 1.
pub fn key_width(fields: &[FieldDef], which: &[u8]) -> usize
    requires numbers { All (IsNumberOf fields.now) which.now }
    requires few { length which.now ≤ most_fields }
    ensures { result ≡ key_width (chosen which.now (kinds fields.now)) }
{
    let mut total = 0;
    for number in which {
        total += key_part_width(fields[usize::from(*number) - 1].form());
    }
    total
}

fn field_width(form: FieldForm) -> usize
    ensures value { result ≡ field_width form }
    ensures small { result ≤ 257 }
{
    mark_width(form.added) + kind_width(form.kind)
}

fn key_part_width(form: FieldForm) -> usize
    ensures value { result ≡ key_part_width form }
    ensures small { result ≤ 256 }
{
    mark_width(form.added) + key_kind_width(form.kind)
}

fn mark_width(added: bool) -> usize
    ensures value { result ≡ mark_width added }
    ensures small { result ≤ 1 }
{
    usize::from(added)
}

fn kind_width(kind: FieldKind) -> usize
    ensures value { result ≡ kind_width kind }
    ensures small { result ≤ 256 }
{
    match kind {
        FieldKind::Int => 8,
        FieldKind::Text(most) => usize::from(most) + 1,
    }
}

/// How many bytes of a key a value of this kind has.
pub(crate) fn key_kind_width(kind: FieldKind) -> usize
    ensures value { result ≡ key_kind_width kind }
    ensures small { result ≤ 255 }
{
    match kind {
        FieldKind::Int => 8,
        FieldKind::Text(most) => usize::from(most),
    }
}
