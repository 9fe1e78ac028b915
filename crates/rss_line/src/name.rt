// Names of what a store defines, and variables.
ghost use Rattle.std.specs.Prelude.{◌≡◌, ◌-◌, ◌≤◌, ◌++◌, length, replicate};
ghost use Rattle.rss_model.specs.Script.{IsNameWord, IsVariable};
ghost use Rattle.rss_line.specs.Reads.{ReadsAs};

use rss_base::{NAME_BYTES, Name, is_name_text};

pub fn read_name(word: &[u8]) -> Option<Name>
    ensures { ReadsAs (IsNameWord word.now) result }
{
    if is_name_text(word) {
        Some(padded(word))
    } else {
        None
    }
}

/// The name of a variable.
pub fn read_variable(word: &str) -> Option<Name>
    ensures { ReadsAs (IsVariable word.now) result }
{
    read_name(word.strip_prefix("$")?.as_bytes())
}

/// These bytes, and then zeros.
fn padded(text: &[u8]) -> Name
    requires { length text.now ≤ NAME_BYTES }
    ensures { result.bytes ≡ text.now ++ replicate (NAME_BYTES - length text.now) 0 }
{
    let mut bytes = [0; NAME_BYTES];
    bytes[..text.len()].copy_from_slice(text);
    Name { bytes }
}
