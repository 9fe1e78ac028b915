// The text of a tuple's values.
ghost use Rattle.std.specs.Prelude.{[], ◌∷◌, ◌++◌};
ghost use Rattle.std.specs.Fmt.{signed_decimal};
ghost use Rattle.rss_model.specs.Spellings.{doubled};
ghost use Rattle.rss_model.specs.ReplyText.{values_text};
ghost use Rattle.rss_line.specs.Appends.{Appends};

use itoa::Buffer;
use rss_base::Value;
use std::alloc::AllocError;

/// Appends each value after a space.
pub fn append_values(values: &[Value], into: &mut Vec<u8>) -> Result<(), AllocError>
    ensures { Appends (values_text values.now) into.old into.new result }
{
    for value in values {
        append_value(value, into)?;
    }
    Ok(())
}

fn append_value(value: &Value, into: &mut Vec<u8>) -> Result<(), AllocError>
    ensures { Appends (values_text (value.now ∷ [])) into.old into.new result }
{
    into.push(b' ')?;
    match value {
        Value::Int(number) => append_int(*number, into)?,
        Value::Text(text) => append_quoted(text.as_slice(), into)?,
        Value::Undefined => into.extend_from_slice(b"undefined")?,
    }
    Ok(())
}

fn append_int(number: i64, into: &mut Vec<u8>) -> Result<(), AllocError>
    ensures { Appends (signed_decimal number) into.old into.new result }
{
    let mut buffer = Buffer::new();
    into.extend_from_slice(buffer.format(number).as_bytes())?;
    Ok(())
}

fn append_quoted(text: &[u8], into: &mut Vec<u8>) -> Result<(), AllocError>
    ensures { Appends (34 ∷ (doubled text.now ++ 34 ∷ [])) into.old into.new result }
{
    into.push(b'"')?;
    append_doubled(text, into)?;
    into.push(b'"')?;
    Ok(())
}

fn append_doubled(text: &[u8], into: &mut Vec<u8>) -> Result<(), AllocError>
    ensures { Appends (doubled text.now) into.old into.new result }
{
    for byte in text {
        append_escaped(*byte, into)?;
    }
    Ok(())
}

fn append_escaped(byte: u8, into: &mut Vec<u8>) -> Result<(), AllocError>
    ensures { Appends (doubled (byte ∷ [])) into.old into.new result }
{
    if byte == b'"' {
        into.push(byte)?;
    }
    into.push(byte)?;
    Ok(())
}
