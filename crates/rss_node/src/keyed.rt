// A key and an identifier, as a pair.
ghost use Rattle.std.specs.Prelude.{◌≡◌, ◌+◌, ◌≤◌, length};
ghost use Rattle.rss_base.specs.LogRecords.{tid_bytes};
ghost use Rattle.rss_node.specs.Pairs.{pair_bytes};

use crate::pair::Pair;
use rss_base::{Key, Tid};

/// The pair of a key and an identifier.
pub fn pair_of(key: &Key, tid: Tid) -> Pair
    ensures { result ≡ pair_bytes key.now tid }
{
    let bytes = key.as_slice();
    let mut pair = Pair::new();
    pair.extend_from_slice(bytes);
    pair.extend_from_slice(&tid.page.to_be_bytes());
    pair.extend_from_slice(&tid.slot.to_be_bytes());
    pair
}

/// The key of a width and the identifier of a pair, as bytes.
pub fn split_pair(bytes: &[u8], width: u8) -> (Key, Tid)
    requires narrow { width ≤ 120 }
    requires long { length bytes.now ≡ width + 6 }
    ensures bytes { pair_bytes result.0 result.1 ≡ bytes.now }
    ensures long { length result.0 ≡ width }
{
    let at = width as usize;
    let mut key = Key::new();
    key.extend_from_slice(&bytes[..at]);
    let mut last = [0u8; 6];
    last.copy_from_slice(&bytes[at..at + 6]);
    (key, tid_from(last))
}

/// The identifier of six bytes.
fn tid_from(bytes: [u8; 6]) -> Tid
    ensures { tid_bytes result ≡ bytes }
{
    let [a, b, c, d, e, f] = bytes;
    Tid {
        page: u32::from_be_bytes([a, b, c, d]),
        slot: u16::from_be_bytes([e, f]),
    }
}
