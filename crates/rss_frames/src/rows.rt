// Rows of values in parts of a block.
ghost use Rattle.std.specs.Prelude.{◌≡◌, ◌+◌, ◌*◌, ◌^◌, ◌<◌, ◌≤◌, replicate};
ghost use Rattle.core.specs.Mem.{type_size};
ghost use Rattle.rss_frames.specs.Seated.{IsSeated, past, units_for};

use crate::block::{Part, Seat};
use crate::parts::take;
use std_alloc::vec::Lodged;

/// How many units so many values of this size take.
pub(crate) fn row_units(count: usize, size: usize) -> usize
    requires { count * size + 15 < 2 ^ 64 }
    ensures { result ≡ units_for count size }
{
    (count * size + 15) / 16
}

/// A row of so many times this value, whose size is `size`, at the beginning of a part. Answers what
/// is left of its units, and the rest.
pub(crate) fn row_of<T: Copy>(
    part: Part,
    count: usize,
    size: usize,
    value: T,
) -> (Vec<T, Lodged>, Seat<T>, Part)
    requires some { 0 < count }
    requires few { count < 2 ^ 63 }
    requires size { type_size T.row ≡ size }
    requires within { units_for count size ≤ part.len }
    requires small { part.len * 16 < 2 ^ 63 }
    requires fits { count * size + 15 < 2 ^ 64 }
    ensures items { result.0.items ≡ replicate count value }
    ensures seated { IsSeated result.0 result.1 }
    ensures at { result.1.ptr ≡ part.ptr }
    ensures units { result.1.len ≡ units_for count size }
    ensures rest { (result.2.ptr ≡ past part.ptr (units_for count size))
        × (result.2.len + units_for count size ≡ part.len) }
{
    let (mut row, seat, rest) = take(part, row_units(count, size), count);
    for _at in 0..count {
        row.push_reserved(value);
    }
    (row, seat, rest)
}
