// The frame of each page that has one.
ghost use Rattle.std.specs.Prelude.{◌≡◌, replicate, length, slice_set, ◌+◌, ◌*◌, ◌^◌, Some, None, MatchOption, ◌<◌, ◌≤◌};
ghost use Rattle.rss_frames.specs.Seated.{past, table_units};
ghost use Rattle.rss_base.specs.declared.key.PageKey.{PageKey};
ghost use Rattle.rss_base.specs.Paged.{is_same};
ghost use Rattle.rss_frames.specs.Table.{key_at, is_of, bucket_of, IsAbsent, IsFound};
ghost use Rattle.rss_frames.specs.Chains.{Reaches, IsBefore};

use crate::block::{Part, Seat};
use crate::parts::give;
use crate::rows::row_of;
use rss_base::{PageKey, Space};
use std::marker::Model;
use std_alloc::vec::Lodged;

/// For each frame the page that it has, if any: a hash table whose chains are numbers in a vector.
pub(crate) struct KeyTable {
    keys: Vec<Option<PageKey>, Lodged>,
    keys_seat: Seat<Option<PageKey>>,
    // A cell for each frame and then one for each bucket. A bucket's cell has the first frame of its
    // chain, and a frame's cell the next one; `room` ends a chain.
    links: Vec<u32, Lodged>,
    links_seat: Seat<u32>,
    room: u32,
    mask: u32,
}

impl Model for KeyTable {
    ghost use Rattle.std.specs.Prelude.{◌+◌};
    ghost use Rattle.rss_frames.specs.Chains.{IsTable};
    ghost use Rattle.rss_frames.specs.Keyed.{Keyed};
    ghost use Rattle.rss_frames.specs.Seated.{AreSeated};

    ghost Value = { Keyed };

    ghost view = { λ t. record { keys = t.keys.items; start = t.keys_seat.ptr; units = t.keys_seat.len + t.links_seat.len } };

    ghost invariant = { λ t. IsTable t.keys.items t.links.items t.room t.mask × AreSeated t.keys t.keys_seat t.links t.links_seat };
}

/// The size of a frame's page, if it has one.
pub(crate) const KEY_BYTES: usize = 12;

/// The bucket of a page among one more than `mask`.
fn bucket(key: PageKey, mask: u32) -> u32
    ensures value { result ≡ bucket_of mask key }
    ensures within { result ≤ mask }
{
    let space: u64 = match key.space {
        Space::Home => 1,
        Space::Overflow => 2,
        Space::Image => 3,
        Space::System => 4,
    };
    let word = (space * 256 + u64::from(key.segment)) * 0x1_0000_0000 + u64::from(key.number);
    let mixed = word.wrapping_mul(0x9e37_79b9_7f4a_7c15) >> 32;
    (mixed & u64::from(mask)) as u32
}

/// One less than the least power of two above `room`, or 2^32 - 1.
pub(crate) fn mask_for(room: u32) -> u32 {
    let mut mask = room;
    mask |= mask >> 1;
    mask |= mask >> 2;
    mask |= mask >> 4;
    mask |= mask >> 8;
    mask | mask >> 16
}

/// Whether both name one page.
fn names(held: PageKey, key: PageKey) -> bool
    ensures { result ≡ is_same held key }
{
    held == key
}

/// The cell whose link leads to the frame, on the chain of its bucket.
fn before(links: &[u32], room: u32, bucket: u32, frame: u32) -> usize
    requires { Reaches links.now room (room + bucket) frame }
    ensures { IsBefore links.now room (room + bucket) frame result }
{
    let mut at = room as usize + bucket as usize;
    while links[at] != frame {
        at = links[at] as usize;
    }
    at
}

impl KeyTable {
    /// A table of so many frames, each of them free, at the beginning of a part. Answers the rest.
    pub(crate) fn new(part: Part, room: u32, mask: u32) -> (KeyTable, Part)
        requires some { 0 < room }
        requires within { table_units room mask ≤ part.len }
        requires small { part.len * 16 < 2 ^ 63 }
        ensures table { result.0 ≡ record {
          keys = replicate room None;
          start = part.ptr;
          units = table_units room mask;
        } }
        ensures rest { result.1.ptr ≡ past part.ptr (table_units room mask) }
        ensures len { result.1.len + table_units room mask ≡ part.len }
    {
        let cells = room as usize + mask as usize + 1;
        let (keys, keys_seat, part) = row_of(part, room as usize, KEY_BYTES, None);
        let (links, links_seat, rest) = row_of(part, cells, 4, room);
        let table = KeyTable {
            keys,
            keys_seat,
            links,
            links_seat,
            room,
            mask,
        };
        (table, rest)
    }

    /// The part again that the table lay in, with the one after it.
    pub(crate) fn into_part(self, rest: Part) -> Part
        requires next { rest.ptr ≡ past self.start self.units }
        requires small { (self.units + rest.len) * 16 < 2 ^ 63 }
        ensures at { result.ptr ≡ self.start }
        ensures len { result.len ≡ self.units + rest.len }
    {
        let KeyTable {
            keys,
            keys_seat,
            links,
            links_seat,
            room: _,
            mask: _,
        } = self;
        let rest = give(links, links_seat, rest);
        give(keys, keys_seat, rest)
    }

    /// The page of a frame.
    pub(crate) fn key(&self, frame: u32) -> Option<PageKey>
        requires { frame < length self.now.keys }
        ensures { result ≡ key_at self.now.keys frame }
    {
        self.keys[frame as usize]
    }

    /// Whether the frame has this page.
    fn has_at(&self, frame: u32, key: PageKey) -> bool
        requires { frame < length self.now.keys }
        ensures { result ≡ is_of key (key_at self.now.keys frame) }
    {
        match self.keys[frame as usize] {
            Some(held) => names(held, key),
            None => false,
        }
    }

    /// The frame of a page.
    pub(crate) fn find(&self, key: PageKey) -> Option<u32>
        ensures { MatchOption result (IsAbsent self.now.keys key) (λ frame. IsFound self.now.keys key frame) }
    {
        let mut at = self.links[self.room as usize + bucket(key, self.mask) as usize];
        while at != self.room {
            if self.has_at(at, key) {
                return Some(at);
            }
            at = self.links[at as usize];
        }
        None
    }

    /// Gives a free frame to a page that has none.
    pub(crate) fn insert(&mut self, frame: u32, key: PageKey)
        requires within { frame < length self.old.keys }
        requires free { key_at self.old.keys frame ≡ None }
        requires absent { IsAbsent self.old.keys key }
        ensures { self.new ≡ record self.old { keys = slice_set self.old.keys frame (Some key) } }
    {
        let head = self.room as usize + bucket(key, self.mask) as usize;
        self.links[frame as usize] = self.links[head];
        self.links[head] = frame;
        self.keys[frame as usize] = Some(key);
    }

    /// Takes its page from a frame.
    pub(crate) fn remove(&mut self, frame: u32, key: PageKey)
        requires { key_at self.old.keys frame ≡ Some key }
        ensures { self.new ≡ record self.old { keys = slice_set self.old.keys frame None } }
    {
        let bucket = bucket(key, self.mask);
        let at = before(self.links.as_slice(), self.room, bucket, frame);
        self.links[at] = self.links[frame as usize];
        self.keys[frame as usize] = None;
    }
}
