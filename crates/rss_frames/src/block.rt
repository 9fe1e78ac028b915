// A block of memory, in parts. In that of `Frames` rows come one after the other: the keys, the
// links of the hash chains, those of both orders, the bytes of the pages, and the marks. Each row is
// a vector that lies in its part (`Lodged`).
ghost use Rattle.std.specs.Prelude.{ℕ};

use std::alloc::Allocator;
use std::marker::{Model, PhantomData};

/// Room for so many units of 16 bytes.
pub(crate) struct Part {
    pub(crate) ptr: *mut u128,
    pub(crate) len: usize,
}

impl Model for Part {
    ghost use Rattle.rss_frames.specs.Block.{part_owns};

    ghost also_owns = { λ p. part_owns p.ptr p.len };
}

/// The right to free a block of so many units.
pub(crate) struct Lease<A: Allocator> {
    pub(crate) ptr: *mut u128,
    pub(crate) len: usize,
    pub(crate) by: PhantomData<A>,
    ghost alloc: { A },
}

impl<A: Allocator> Model for Lease<A> {
    ghost use Rattle.rss_frames.specs.Block.{lease_owns};

    ghost also_owns = { λ l. lease_owns (A.dealloc_token l.alloc) l.ptr l.len };
}

/// What is left of a part while a row of values lies in it: the way back from the row's room.
pub(crate) struct Seat<T> {
    pub(crate) ptr: *mut u128,
    pub(crate) len: usize,
    pub(crate) of: PhantomData<T>,
    ghost count: { ℕ },
}

impl<T> Model for Seat<T> {
    ghost use Rattle.rss_frames.specs.Block.{seat_owns};

    ghost also_owns = { λ s. seat_owns T.row s.ptr s.len s.count };
}
