// Fields of relations, as a line has them: a name, a colon and a kind.
ghost use Rattle.rss_model.specs.Script.{IsField};
ghost use Rattle.rss_line.specs.Reads.{ReadsAs, IsKind};

use crate::name::read_name;
use crate::number::read_below;
use rss_base::{FieldDef, FieldKind};

/// The most bytes that a text may have lie below this one.
const TEXT_LIMIT: u64 = 256;

pub fn read_field(word: &str) -> Option<FieldDef>
    ensures { ReadsAs (IsField word.now) result }
{
    let (name, kind) = word.split_once(':')?;
    let name = read_name(name.as_bytes())?;
    let kind = read_kind(kind)?;
    Some(FieldDef {
        name,
        kind,
        added: false,
    })
}

/// `int`, or `text` and the most bytes that a text may have.
fn read_kind(word: &str) -> Option<FieldKind>
    ensures { ReadsAs (IsKind word.now) result }
{
    if word == "int" {
        return Some(FieldKind::Int);
    }
    let most = word.strip_prefix("text")?;
    let most = read_below(TEXT_LIMIT, most.as_bytes())?;
    if most == 0 {
        None
    } else {
        Some(FieldKind::Text(most as u8))
    }
}
