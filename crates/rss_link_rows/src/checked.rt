// Whether bodies spell chains, where a byte of them was turned.
use crate::calls::{NO_ENDS, check, tid};
use crate::links::{QUEUE, WORKS};
use crate::untold::Untold;
use rss_images::assert_same;
use rss_link::{Ends, Relations};
use std::test::Fail;

const NONE: u8 = 255;

const RELATIONS: Relations = Relations {
    child: 2,
    parent: 1,
};

/// Department 0, employees 1 to 3 in its chain, and employee 4 in none.
const BODIES: [[u8; 20]; 5] = [
    [1, 0, 0, 0, 0, 0, 1, 0, 0, 0, 0, 0, 3, 7, 7, 7, 7, 7, 7, 7],
    [
        2, 0, 0, 0, 0, 0, 0, NONE, NONE, NONE, NONE, NONE, NONE, 0, 0, 0, 0, 0, 2, 9,
    ],
    [2, 0, 0, 0, 0, 0, 0, 0, 0, 0, 0, 0, 1, 0, 0, 0, 0, 0, 3, 9],
    [
        2, 0, 0, 0, 0, 0, 0, 0, 0, 0, 0, 0, 2, NONE, NONE, NONE, NONE, NONE, NONE, 9,
    ],
    [
        2, NONE, NONE, NONE, NONE, NONE, NONE, NONE, NONE, NONE, NONE, NONE, NONE, NONE, NONE,
        NONE, NONE, NONE, NONE, 9,
    ],
];

/// The slot of a body and the place of a byte in it, what the byte is turned to, and whether chains are
/// spelled then.
type Turned = (usize, usize, u8, bool);

const TURNED: [Turned; 12] = [
    // nothing is turned
    (1, 19, 9, true),
    // values
    (0, 13, 8, true),
    (2, 19, 8, true),
    // the department's first, its last, and its relation
    (0, 6, 2, false),
    (0, 12, 2, false),
    (0, 0, 9, false),
    // the parent, the previous and the next of employee 2
    (2, 6, 4, false),
    (2, 12, 3, false),
    (2, 18, 1, false),
    // employee 3 is one no longer, and so is employee 4, who is in no chain
    (3, 0, 9, false),
    (4, 0, 9, true),
    // employee 4 has a parent
    (4, 1, 0, false),
];

#[test]
fn a_turned_pointer_is_found(rt: HostRuntime) -> Result<(), Fail> {
    for (index, (slot, at, byte, spelled)) in TURNED.iter().enumerate() {
        let mut bodies = BODIES;
        if *slot < bodies.len() && *at < bodies[*slot].len() {
            bodies[*slot][*at] = *byte;
        }
        let slices: [&[u8]; 5] = [&bodies[0], &bodies[1], &bodies[2], &bodies[3], &bodies[4]];
        let mut tuples = Untold::new(rt.alloc(), &slices)?;
        let found = check(&WORKS, &NO_ENDS, &mut tuples, RELATIONS)?;
        assert_same(&found, spelled, index)?;
    }
    Ok(())
}

/// Two members of a queue, one after another.
const MEMBERS: [[u8; 16]; 2] = [
    [
        3, 8, 1, NONE, NONE, NONE, NONE, NONE, NONE, 0, 0, 0, 0, 0, 1, 9,
    ],
    [
        3, 8, 1, 0, 0, 0, 0, 0, 0, NONE, NONE, NONE, NONE, NONE, NONE, 9,
    ],
];

#[test]
fn a_queue_is_checked_by_its_ends(rt: HostRuntime) -> Result<(), Fail> {
    let relations = Relations {
        child: 3,
        parent: 3,
    };
    let cases = [
        (Some(0), Some(1), true),
        (Some(0), Some(0), false),
        (Some(1), Some(1), false),
        (None, None, false),
    ];
    for (index, (first, last, spelled)) in cases.iter().enumerate() {
        let ends = Ends {
            first: first.map(|slot| tid(slot)),
            last: last.map(|slot| tid(slot)),
        };
        let slices: [&[u8]; 2] = [&MEMBERS[0], &MEMBERS[1]];
        let mut tuples = Untold::new(rt.alloc(), &slices)?;
        let found = check(&QUEUE, &ends, &mut tuples, relations)?;
        assert_same(&found, spelled, index)?;
    }
    Ok(())
}
