// Chains, the bytes of bodies in them, and which bodies a change writes.
use crate::calls::{NO_ENDS, backwards, connect, disconnect, forwards, place_of, tid};
use crate::links::{DEPARTMENT, EMPLOYEE, MEMBER, QUEUE, WORKS};
use crate::untold::Untold;
use rss_images::{assert_same, assert_same_slices};
use rss_link::{Chains, Ends};
use std::alloc::Global;
use std::test::Fail;

/// A tuple is put into the chain, right after another or first, or it is taken out.
#[derive(Clone, Copy)]
enum Step {
    First(u16),
    Behind(u16, u16),
    Out(u16),
}

/// A step, the chain that it leaves, the tuples whose bodies it writes, in order, and how many tuples
/// it fetches.
struct Row {
    step: Step,
    chain: [Option<u16>; 3],
    written: [Option<u16>; 3],
    fetches: u32,
}

/// Employees 1 to 3 come and go in department 0.
const WORKING: [Row; 6] = [
    Row {
        step: Step::First(1),
        chain: [Some(1), None, None],
        written: [Some(1), Some(0), Some(0)],
        fetches: 4,
    },
    Row {
        step: Step::Behind(1, 2),
        chain: [Some(1), Some(2), None],
        written: [Some(2), Some(1), Some(0)],
        fetches: 4,
    },
    Row {
        step: Step::Behind(1, 3),
        chain: [Some(1), Some(3), Some(2)],
        written: [Some(3), Some(1), Some(2)],
        fetches: 4,
    },
    Row {
        step: Step::Out(3),
        chain: [Some(1), Some(2), None],
        written: [Some(3), Some(1), Some(2)],
        fetches: 4,
    },
    Row {
        step: Step::Out(1),
        chain: [Some(2), None, None],
        written: [Some(1), Some(0), Some(2)],
        fetches: 4,
    },
    Row {
        step: Step::Out(2),
        chain: [None, None, None],
        written: [Some(2), Some(0), Some(0)],
        fetches: 4,
    },
];

/// Members 0 to 2 come and go in a queue, whose ends are in no body.
const QUEUEING: [Row; 6] = [
    Row {
        step: Step::First(0),
        chain: [Some(0), None, None],
        written: [Some(0), None, None],
        fetches: 1,
    },
    Row {
        step: Step::First(1),
        chain: [Some(1), Some(0), None],
        written: [Some(1), Some(0), None],
        fetches: 2,
    },
    Row {
        step: Step::Behind(0, 2),
        chain: [Some(1), Some(0), Some(2)],
        written: [Some(2), Some(0), None],
        fetches: 3,
    },
    Row {
        step: Step::Out(0),
        chain: [Some(1), Some(2), None],
        written: [Some(0), Some(1), Some(2)],
        fetches: 4,
    },
    Row {
        step: Step::Out(2),
        chain: [Some(1), None, None],
        written: [Some(2), Some(1), None],
        fetches: 3,
    },
    Row {
        step: Step::Out(1),
        chain: [None, None, None],
        written: [Some(1), None, None],
        fetches: 2,
    },
];

#[test]
fn a_department_has_its_employees_in_order(rt: HostRuntime) -> Result<(), Fail> {
    let bodies: [&[u8]; 4] = [&DEPARTMENT, &EMPLOYEE, &EMPLOYEE, &EMPLOYEE];
    let mut tuples = Untold::new(rt.alloc(), &bodies)?;
    let ends = run(rt.alloc(), &WORKS, &mut tuples, Some(0), &WORKING)?;
    assert_same(&ends, &NO_ENDS, "kept ends")?;
    for slot in 0..4 {
        assert_same_slices(tuples.bytes(slot), bodies[usize::from(slot)], slot)?;
    }
    Ok(())
}

#[test]
fn a_queue_is_one_chain(rt: HostRuntime) -> Result<(), Fail> {
    let bodies: [&[u8]; 3] = [&MEMBER, &MEMBER, &MEMBER];
    let mut tuples = Untold::new(rt.alloc(), &bodies)?;
    let ends = run(rt.alloc(), &QUEUE, &mut tuples, None, &QUEUEING)?;
    assert_same(&ends, &NO_ENDS, "kept ends")?;
    for slot in 0..3 {
        assert_same_slices(tuples.bytes(slot), &MEMBER, slot)?;
    }
    Ok(())
}

/// Makes each step, and looks at the chain and at what was written.
fn run(
    alloc: Global,
    link: &Chains,
    tuples: &mut Untold,
    parent: Option<u16>,
    rows: &[Row],
) -> Result<Ends, Fail> {
    let mut ends = NO_ENDS;
    for (index, row) in rows.iter().enumerate() {
        match row.step {
            Step::First(child) => connect(link, &mut ends, tuples, child, parent, None)?,
            Step::Behind(left, child) => connect(
                link,
                &mut ends,
                tuples,
                child,
                parent,
                Some(left),
            )?,
            Step::Out(child) => disconnect(link, &mut ends, tuples, child)?,
        }
        assert_same(&tuples.take_fetches(), &row.fetches, index)?;
        let written = tuples.take_replaced(alloc)?;
        assert_same_slices(
            written.as_slice(),
            some_of(alloc, &row.written)?.as_slice(),
            index,
        )?;
        let mut chain = some_of(alloc, &row.chain)?;
        let found = forwards(alloc, link, &ends, tuples, parent)?;
        assert_same_slices(found.as_slice(), chain.as_slice(), index)?;
        chain.reverse();
        let found = backwards(alloc, link, &ends, tuples, parent)?;
        assert_same_slices(found.as_slice(), chain.as_slice(), index)?;
        let want = match row.step {
            Step::First(_) | Step::Behind(..) => (true, parent.map(|slot| tid(slot))),
            Step::Out(_) => (false, None),
        };
        let (Step::First(child) | Step::Behind(_, child) | Step::Out(child)) = row.step;
        assert_same(&place_of(link, tuples, child)?, &want, index)?;
        tuples.take_fetches();
    }
    Ok(ends)
}

/// Those that there are.
fn some_of(alloc: Global, slots: &[Option<u16>]) -> Result<Vec<u16>, Fail> {
    let mut all = Vec::new(alloc);
    for slot in slots {
        if let Some(slot) = *slot {
            all.push(slot)?;
        }
    }
    Ok(all)
}
