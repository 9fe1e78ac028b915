// Pairs as numbers, in their order.
ghost use Rattle.std.specs.Prelude.{◌≡◌, length};

use rss_base::{KEY_BYTES, Key, Tid};

/// A key of four bytes, a page and a slot, in one number: the order of the numbers is that of pairs.
pub(crate) type Code = u64;

/// What stands in a key after its first four bytes.
pub(crate) const FILLING: u8 = 7;

/// The number of a pair.
pub(crate) fn code_of(key: u32, page: u16, slot: u8) -> Code {
    (u64::from(key) << 32) | (u64::from(page) << 8) | u64::from(slot)
}

/// The key of a pair, at a width.
pub(crate) fn key_of(code: Code, width: u8) -> Key {
    let [a, b, c, d, ..] = code.to_be_bytes();
    let mut bytes = [FILLING; KEY_BYTES];
    bytes[0] = a;
    bytes[1] = b;
    bytes[2] = c;
    bytes[3] = d;
    let mut key = Key::new();
    let front = usize::from(width).min(KEY_BYTES);
    key.extend_from_slice(&bytes[..front]);
    key
}

/// The identifier of a pair.
pub(crate) fn tid_of(code: Code) -> Tid {
    Tid {
        page: ((code >> 8) & 0xff_ffff) as u32,
        slot: (code & 0x7f) as u16,
    }
}

/// The number of a key and an identifier that were answered.
pub(crate) fn code_from(key: &Key, tid: Tid) -> Code {
    let mut front = [0u8; 4];
    for (place, byte) in key.as_slice().iter().take(4).enumerate() {
        front[place & 3] = *byte;
    }
    (u64::from(u32::from_be_bytes(front)) << 32)
        | (u64::from(tid.page & 0xff_ffff) << 8)
        | u64::from(tid.slot & 0x7f)
}
