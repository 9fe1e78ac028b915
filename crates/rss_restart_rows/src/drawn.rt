// Logs at random.
use crate::logs::{Step, TUPLES, Written};
use crate::stores::restarted;
use rss_images::{Draws, assert_same};
use std::test::Fail;

/// How many logs there are, and how many steps each of them has.
const LOGS: u64 = 400;

const STEPS: u32 = 60;

/// How many transactions may be open.
const TRANSACTIONS: u32 = 4;

/// A step of a transaction that changes no other one's tuples, and now and then a checkpoint.
fn draw(draws: &mut Draws, written: &Written) -> Step {
    let by = draws.below(TRANSACTIONS);
    let tuple = draws.below(TUPLES as u32) as usize;
    let value = draws.below(8) as u8;
    match draws.below(16) {
        0 => Step::Checkpoint,
        1 => Step::Abort(by),
        2 | 3 => Step::End(by),
        4 => Step::Back(by, tuple % 3),
        _ if written.is_taken(by, tuple) => Step::End(by),
        _ if value == 0 => Step::Put(by, tuple, None),
        _ => Step::Put(by, tuple, Some(value)),
    }
}

#[test]
fn restarted_as_defined(rt: HostRuntime) -> Result<(), Fail> {
    for seed in 0..LOGS {
        let mut draws = Draws::new(seed);
        let mut written = Written::new(rt.alloc())?;
        for _ in 0..STEPS {
            let step = draw(&mut draws, &written);
            written.step(step)?;
        }
        assert_same(
            &restarted(rt.alloc(), &written)?,
            &written.base,
            ("seed", seed),
        )?;
    }
    Ok(())
}
