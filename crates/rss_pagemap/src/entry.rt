// The entry of a slot.
ghost use Rattle.std.specs.Prelude.{◌≡◌, ◌≤◌, Option, length, IfSome, IfNone};
ghost use Rattle.rss_base.specs.PageMap.{space_code, entry_bytes, IsEntry};
ghost use Rattle.rss_base.specs.declared.key.Space.{Space as AnySpace};
ghost use Rattle.rss_base.specs.declared.key.PageKey.{PageKey as Key};

use rss_base::{PageKey, Space};

/// How many bytes an entry has.
pub const ENTRY_BYTES: usize = 8;

/// An entry, as bytes.
pub type Entry = [u8; ENTRY_BYTES];

/// The entry of an owner.
pub fn encode(owner: Option<PageKey>) -> Entry
    ensures { result ≡ entry_bytes owner }
{
    match owner {
        None => [0; ENTRY_BYTES],
        Some(key) => {
            let [a, b, c, d] = key.number.to_be_bytes();
            [code_of(key.space), key.segment, 0, 0, a, b, c, d]
        }
    }
}

/// The owner that an entry spells, in a map of so many slots.
pub fn decode(bytes: &Entry, slots: u32) -> Option<Option<PageKey>>
    ensures some { IfSome result (IsEntry slots bytes.now) }
    ensures none { IfNone result ((owner : Option Key) → IsEntry slots bytes.now owner → ⊥) }
{
    if *bytes == [0; ENTRY_BYTES] {
        return Some(None);
    }
    let [code, segment, 0, 0, a, b, c, d] = *bytes else {
        return None;
    };
    let key = PageKey {
        segment,
        space: space_of(code)?,
        number: u32::from_be_bytes([a, b, c, d]),
    };
    if key.is_allowed(slots) {
        Some(Some(key))
    } else {
        None
    }
}

fn code_of(space: Space) -> u8
    ensures { result ≡ space_code space }
{
    match space {
        Space::Home => 1,
        Space::Overflow => 2,
        Space::Image => 3,
        Space::System => 4,
    }
}

fn space_of(code: u8) -> Option<Space>
    ensures some { IfSome result (λ space. code ≡ space_code space) }
    ensures none { IfNone result ((space : AnySpace) → code ≡ space_code space → ⊥) }
{
    match code {
        1 => Some(Space::Home),
        2 => Some(Space::Overflow),
        3 => Some(Space::Image),
        4 => Some(Space::System),
        _ => None,
    }
}
