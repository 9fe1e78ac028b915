// Names of what a store defines.
ghost use Rattle.std.specs.Prelude.{◌≡◌, ◌↔◌, IsTrue, All, length};
ghost use Rattle.rss_base.specs.Names.{IsNameByte, IsNameText, name_bytes};

use std::hash::{Hash, Hasher};

/// How many bytes a name has, with the zeros past its end.
pub const NAME_BYTES: usize = 16;

/// A name of 1 to 16 bytes of `a` to `z`, `0` to `9` and `_`, of which the first is a letter. The
/// bytes past its end are zeros.
#[derive(Clone, Copy, Debug, PartialEq, Eq)]
pub struct Name {
    pub bytes: [u8; NAME_BYTES],
}

impl Hash for Name {
    ghost use Rattle.std.specs.Prelude.{[], ◌∷◌};
    ghost use Rattle.std.proofs.Common.{rules};

    ghost hash_input = { λ name. name.bytes ∷ [] };

    ghost respects_eq = { Prim.search rules };

    /// All bytes at once: a derived hash takes them one at a time.
    fn hash<H: Hasher>(&self, state: &mut H) {
        state.write(&self.bytes);
    }
}

/// A name has as many bytes as any other, with the zeros past its end. It does nothing.
pub fn name_is_whole(name: Name)
    ensures { length name.bytes ≡ name_bytes }
{}

/// Whether these are the bytes of a name, without the zeros past its end.
pub fn is_name_text(bytes: &[u8]) -> bool
    ensures { IsTrue result ↔ IsNameText bytes.now }
{
    match bytes {
        [first, rest @ ..] => {
            first.is_ascii_lowercase() && rest.len() < NAME_BYTES && are_name_bytes(rest)
        }
        [] => false,
    }
}

fn are_name_bytes(bytes: &[u8]) -> bool
    ensures { IsTrue result ↔ All IsNameByte bytes.now }
{
    bytes.iter().all(|byte| is_name_byte(*byte))
}

fn is_name_byte(byte: u8) -> bool
    ensures { IsTrue result ↔ IsNameByte byte }
{
    matches!(byte, b'a'..=b'z' | b'0'..=b'9' | b'_')
}
