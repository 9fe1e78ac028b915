// The order in which frames were used.
ghost use Rattle.std.specs.Prelude.{◌≡◌, ◌+◌, ◌*◌, ◌^◌, ◌<◌, ◌≤◌, [], ◌∷◌, ◌++◌, length, IfSome, IfNone, option_to_list};
ghost use Rattle.rss_frames.specs.Seated.{order_units, past};
ghost use Rattle.rss_frames.specs.Lists.{Has, Apart, without, last_frame};

use crate::block::{Part, Seat};
use crate::parts::give;
use crate::rows::row_of;
use std::marker::Model;
use std_alloc::vec::Lodged;

/// Some of the frames 0 to `room - 1`, the one that was used last first: a list whose links are
/// numbers in two vectors. The cell `room` of either vector is a head that closes the ring, so that
/// no link is ever missing.
pub(crate) struct Order {
    next: Vec<u32, Lodged>,
    next_seat: Seat<u32>,
    prev: Vec<u32, Lodged>,
    prev_seat: Seat<u32>,
    len: u32,
    room: u32,
}

impl Model for Order {
    ghost use Rattle.std.specs.Prelude.{◌+◌};
    ghost use Rattle.rss_frames.specs.Recency.{Recency};
    ghost use Rattle.rss_frames.specs.Links.{IsLinked, ring};
    ghost use Rattle.rss_frames.specs.Seated.{AreSeated};

    ghost Value = { Recency };

    ghost view = { λ o. record { frames = ring o.next.items o.len o.room; room = o.room; start = o.next_seat.ptr; units = o.next_seat.len + o.prev_seat.len } };

    ghost invariant = { λ o. IsLinked o.next.items o.prev.items o.room (ring o.next.items o.len o.room) × AreSeated o.next o.next_seat o.prev o.prev_seat };
}

impl Order {
    /// An order with no frame, at the beginning of a part. Answers the rest.
    pub(crate) fn new(part: Part, room: u32) -> (Order, Part)
        requires within { order_units room ≤ part.len }
        requires small { part.len * 16 < 2 ^ 63 }
        ensures order { result.0 ≡ record {
          frames = [];
          room = room;
          start = part.ptr;
          units = order_units room;
        } }
        ensures rest { result.1.ptr ≡ past part.ptr (order_units room) }
        ensures len { result.1.len + order_units room ≡ part.len }
    {
        let cells = room as usize + 1;
        let (next, next_seat, part) = row_of(part, cells, 4, room);
        let (prev, prev_seat, rest) = row_of(part, cells, 4, room);
        let order = Order {
            next,
            next_seat,
            prev,
            prev_seat,
            len: 0,
            room,
        };
        (order, rest)
    }

    /// The part again that the order lay in, with the one after it.
    pub(crate) fn into_part(self, rest: Part) -> Part
        requires next { rest.ptr ≡ past self.start self.units }
        requires small { (self.units + rest.len) * 16 < 2 ^ 63 }
        ensures at { result.ptr ≡ self.start }
        ensures len { result.len ≡ self.units + rest.len }
    {
        let Order {
            next,
            next_seat,
            prev,
            prev_seat,
            len: _,
            room: _,
        } = self;
        let rest = give(prev, prev_seat, rest);
        give(next, next_seat, rest)
    }

    pub(crate) fn len(&self) -> u32
        ensures { result ≡ length self.now.frames }
    {
        self.len
    }

    /// The frame that wasn't used for the longest time.
    pub(crate) fn last(&self) -> Option<u32>
        ensures { result ≡ last_frame self.now.frames }
    {
        if self.len == 0 {
            return None;
        }
        Some(self.prev[self.room as usize])
    }

    /// How many frames there may be.
    pub(crate) fn room(&self) -> u32
        ensures { result ≡ self.now.room }
    {
        self.room
    }

    /// Takes out the frame that wasn't used for the longest time.
    pub(crate) fn pop_last(&mut self) -> Option<u32>
        ensures frames { self.old.frames ≡ self.new.frames ++ option_to_list result }
        ensures kept { self.new ≡ record self.old { frames = self.new.frames } }
        ensures gone { IfSome result (λ frame. Has frame self.new.frames → ⊥) }
        ensures within { IfSome result (λ frame. frame < self.old.room) }
        ensures none { IfNone result (self.old.frames ≡ []) }
    {
        let frame = self.last()?;
        self.unlink(frame);
        Some(frame)
    }

    /// Puts a frame that isn't there before all others.
    pub(crate) fn push_front(&mut self, frame: u32)
        requires within { frame < self.old.room }
        requires absent { Has frame self.old.frames → ⊥ }
        requires free { length self.old.frames < self.old.room }
        ensures { self.new ≡ record self.old { frames = frame ∷ self.old.frames } }
    {
        let room = self.room;
        let first = self.next[room as usize];
        self.next[frame as usize] = first;
        self.prev[frame as usize] = room;
        self.next[room as usize] = frame;
        self.prev[first as usize] = frame;
        self.len += 1;
    }

    /// Takes a frame out.
    pub(crate) fn unlink(&mut self, frame: u32)
        requires { Has frame self.old.frames }
        ensures frames { self.new ≡ record self.old { frames = without frame self.old.frames } }
        ensures count { length self.new.frames + 1 ≡ length self.old.frames }
        ensures within { frame < self.old.room }
        ensures apart { Apart self.old.frames }
        ensures free { length self.old.frames ≤ self.old.room }
    {
        let before = self.prev[frame as usize];
        let after = self.next[frame as usize];
        self.next[before as usize] = after;
        self.prev[after as usize] = before;
        self.len -= 1;
    }

    /// Puts a frame that is there before all others.
    pub(crate) fn to_front(&mut self, frame: u32)
        requires { Has frame self.old.frames }
        ensures { self.new ≡ record self.old { frames = frame ∷ without frame self.old.frames } }
    {
        let first = self.next[self.room as usize];
        if first != frame {
            self.unlink(frame);
            self.push_front(frame);
        }
    }
}
