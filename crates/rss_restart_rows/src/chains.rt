// Changes of a chain on the way of a restart.
use crate::logs::Step::{Checkpoint, End, Join, Leave, Put};
use crate::logs::{Step, Written};
use crate::stores::{Tried, block, is_body, restarted_store};
use rss_images::assert_same;
use std::alloc::Global;
use std::test::Fail;

/// The store after these steps and a restart. This tuple, if any, was the only one in the chain at
/// the checkpoint.
fn restarted(alloc: Global, steps: &[Step], member: Option<usize>) -> Result<Tried, Fail> {
    let mut written = Written::new(alloc)?;
    written.steps(&[
        Put(1, 0, Some(1)),
        Put(1, 1, Some(2)),
        Put(1, 2, Some(3)),
        End(1),
    ])?;
    written.steps(steps)?;
    restarted_store(alloc, &written, member)
}

#[test]
fn a_connect_of_a_loser_and_two_of_a_winner(rt: HostRuntime) -> Result<(), Fail> {
    let steps = [
        Join(2, 0, None),
        Checkpoint,
        Join(3, 1, None),
        Put(3, 1, Some(9)),
        Join(3, 2, Some(1)),
        End(3),
    ];
    let mut tuples = restarted(rt.alloc(), &steps, Some(0))?;
    let first = is_body(&mut tuples, 0, 1, block(false, None, None))?;
    assert_same(&first, &true, "the loser's tuple is out of the chain")?;
    let second = is_body(&mut tuples, 1, 9, block(true, None, Some(2)))?;
    assert_same(&second, &true, "first in the chain, with another value")?;
    let third = is_body(&mut tuples, 2, 3, block(true, Some(1), None))?;
    assert_same(&third, &true, "last in the chain")
}

#[test]
fn a_disconnect_of_a_loser_and_one_of_a_winner(rt: HostRuntime) -> Result<(), Fail> {
    let steps = [
        Join(2, 0, None),
        End(2),
        Leave(4, 0, None),
        Checkpoint,
        Join(3, 1, Some(0)),
        Join(3, 2, Some(1)),
        Leave(3, 1, Some(0)),
        End(3),
    ];
    let mut tuples = restarted(rt.alloc(), &steps, None)?;
    let first = is_body(&mut tuples, 0, 1, block(true, None, Some(2)))?;
    assert_same(&first, &true, "first in the chain")?;
    let second = is_body(&mut tuples, 1, 2, block(false, None, None))?;
    assert_same(&second, &true, "out of the chain")?;
    let third = is_body(&mut tuples, 2, 3, block(true, Some(0), None))?;
    assert_same(&third, &true, "last in the chain")
}
