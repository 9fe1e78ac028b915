// Logs whose recovered tables were worked out by hand.
use crate::logs::Step::{Abort, Back, Checkpoint, End, Put};
use crate::logs::{Step, TUPLES, Written, set};
use crate::stores::restarted;
use rss_images::assert_same;
use std::alloc::Global;
use std::test::Fail;

/// After these steps and a restart these tuples are there, with these values, and no others.
fn assert_row(alloc: Global, steps: &[Step], want: &[(usize, u8)]) -> Result<(), Fail> {
    let mut values = [None; TUPLES];
    for (tuple, value) in want {
        set(&mut values, *tuple, Some(*value));
    }
    let mut written = Written::new(alloc)?;
    written.steps(steps)?;
    assert_same(&written.base, &values, "by the definition")?;
    assert_same(&restarted(alloc, &written)?, &values, "restarted")
}

#[test]
fn open_at_the_checkpoint(rt: HostRuntime) -> Result<(), Fail> {
    let steps = [
        Put(1, 0, Some(1)),
        End(1),
        Put(2, 1, Some(2)),
        Put(3, 2, Some(3)),
        Checkpoint,
        Put(2, 3, Some(4)),
        End(2),
        Put(4, 4, Some(5)),
        End(4),
        Put(5, 5, Some(6)),
    ];
    assert_row(rt.alloc(), &steps, &[(0, 1), (1, 2), (3, 4), (4, 5)])
}

#[test]
fn cut_behind_the_checkpoint(rt: HostRuntime) -> Result<(), Fail> {
    let steps = [
        Put(1, 0, Some(7)),
        Put(1, 1, Some(8)),
        Checkpoint,
        Back(1, 1),
        End(1),
    ];
    assert_row(rt.alloc(), &steps, &[(0, 7)])?;
    let steps = [
        Put(1, 0, Some(7)),
        Put(1, 1, Some(8)),
        Checkpoint,
        Back(1, 1),
        Abort(1),
    ];
    assert_row(rt.alloc(), &steps, &[])
}

#[test]
fn a_loser_changes_a_tuple_twice(rt: HostRuntime) -> Result<(), Fail> {
    let steps = [
        Put(1, 0, Some(1)),
        End(1),
        Put(2, 0, Some(2)),
        Put(2, 0, Some(3)),
        Checkpoint,
        Put(2, 0, Some(4)),
    ];
    assert_row(rt.alloc(), &steps, &[(0, 1)])
}

#[test]
fn one_identifier_of_two_winners(rt: HostRuntime) -> Result<(), Fail> {
    let steps = [
        Put(1, 0, Some(1)),
        End(1),
        Checkpoint,
        Put(2, 0, None),
        End(2),
        Put(3, 0, Some(9)),
        End(3),
    ];
    assert_row(rt.alloc(), &steps, &[(0, 9)])
}

#[test]
fn a_number_is_used_again(rt: HostRuntime) -> Result<(), Fail> {
    let steps = [
        Put(1, 0, Some(1)),
        Checkpoint,
        End(1),
        Put(1, 1, Some(2)),
        Abort(1),
        Put(1, 2, Some(3)),
        End(1),
        Put(1, 3, Some(4)),
    ];
    assert_row(rt.alloc(), &steps, &[(0, 1), (2, 3)])?;
    let steps = [
        Put(1, 0, Some(1)),
        Checkpoint,
        Abort(1),
        Put(1, 1, Some(2)),
        End(1),
    ];
    assert_row(rt.alloc(), &steps, &[(1, 2)])
}
