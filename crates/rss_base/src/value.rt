// Values, and what fields ask of them.
ghost use Rattle.std.specs.Prelude.{◌≡◌};
ghost use Rattle.rss_base.specs.TupleTypes.{is_kind};

use crate::Text;

/// What a field of a tuple holds.
#[derive(Debug, PartialEq, Eq, Hash, Drop)]
pub enum Value {
    Int(i64),
    /// UTF-8 text of characters from U+0020 on, without U+007F.
    Text(Text),
    /// What an added field holds until it is given a value.
    Undefined,
}

/// What a field may hold: an INT, or a TEXT of at most so many bytes, 1 to 255.
#[derive(Clone, Copy, Debug, PartialEq, Eq)]
pub enum FieldKind {
    Int,
    Text(u8),
}

impl FieldKind {
    /// Whether a field may be of this kind: a TEXT has one byte at least.
    pub fn is_allowed(self) -> bool
        ensures { result ≡ is_kind self }
    {
        match self {
            FieldKind::Int => true,
            FieldKind::Text(most) => most >= 1,
        }
    }
}

/// What a field asks of its values. An original field holds a value of its kind; one that was added
/// to its relation may also be undefined.
#[derive(Clone, Copy, Debug, PartialEq, Eq)]
pub struct FieldForm {
    pub kind: FieldKind,
    pub added: bool,
}
