// How a block is taken and given back, and how rows of values lie in its parts.
ghost use Rattle.std.specs.Prelude.{◌≡◌, ◌+◌, ◌*◌, ◌^◌, ◌<◌, ◌≤◌, [], IfOk};
ghost use denote.RawPtr.{◌+ₚ◌};
ghost use Rattle.core.specs.Mem.{type_size};
ghost use Rattle.rss_frames.specs.Seated.{IsSeated};

use crate::block::{Lease, Part, Seat};
use std::alloc::{AllocError, Allocator};
use std::marker::PhantomData;
use std::mem::{align_of, size_of};
use std_alloc::vec::{Lodged, lodge};

/// A block of so many units.
pub(crate) fn claim<A: Allocator>(alloc: &A, len: usize) -> Result<(Part, Lease<A>), AllocError>
    requires { len * 16 < 2 ^ 63 }
    ensures { IfOk result (λ p. (p.0.len ≡ len) × (p.1.ptr ≡ p.0.ptr) × (p.1.len ≡ p.0.len)
        × (p.1.alloc ≡ alloc.now)) }
{
    match alloc.allocate(len * size_of::<u128>(), align_of::<u128>()) {
        Ok(block) => {
            let ptr = block as *mut u128;
            let by = PhantomData;
            Ok((Part { ptr, len }, Lease { ptr, len, by }))
        }
        Err(refused) => Err(refused),
    }
}

/// Gives a block back.
pub(crate) fn give_back<A: Allocator>(alloc: &A, part: Part, lease: Lease<A>)
    requires { (lease.ptr ≡ part.ptr) × (lease.len ≡ part.len) × (lease.alloc ≡ alloc.now)
        × (part.len * 16 < 2 ^ 63) }
{
    let Part { ptr: _, len: _ } = part;
    let Lease { ptr, len, by: _ } = lease;
    unsafe {
        alloc.deallocate(ptr as *mut u8, len * size_of::<u128>(), align_of::<u128>());
    }
}

/// An empty row with room for so many values, in the first `units` of a part. Answers what is left
/// of these, and the rest.
pub(crate) fn take<T>(part: Part, units: usize, count: usize) -> (Vec<T, Lodged>, Seat<T>, Part)
    requires { (0 < count) × (count < 2 ^ 63) × (count * type_size T.row ≤ units * 16) × (units ≤ part.len)
        × (part.len * 16 < 2 ^ 63) }
    ensures { (result.0.items ≡ []) × IsSeated result.0 result.1 × (result.1.ptr ≡ part.ptr)
        × (result.1.len ≡ units) × (result.1.count ≡ count)
        × (result.2.ptr ≡ part.ptr +ₚ units * 16) × (result.2.len + units ≡ part.len) }
{
    let Part { ptr, len } = part;
    unsafe {
        let row = lodge(ptr as *mut T, 0, count);
        let rest = Part {
            ptr: ptr.add(units),
            len: len - units,
        };
        let of = PhantomData;
        (
            row,
            Seat {
                ptr,
                len: units,
                of,
            },
            rest,
        )
    }
}

/// The part again that a row lay in, with the one after it. What the row holds is forgotten.
pub(crate) fn give<T>(row: Vec<T, Lodged>, seat: Seat<T>, rest: Part) -> Part
    requires { IsSeated row seat × (rest.ptr ≡ seat.ptr +ₚ seat.len * 16)
        × ((seat.len + rest.len) * 16 < 2 ^ 63) }
    ensures { (result.ptr ≡ seat.ptr) × (result.len ≡ seat.len + rest.len) }
{
    let _len = row.dislodge();
    let Seat { ptr, len, of: _ } = seat;
    let Part { ptr: _, len: more } = rest;
    Part {
        ptr,
        len: len + more,
    }
}
