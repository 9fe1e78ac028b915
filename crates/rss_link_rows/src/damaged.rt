// Bodies that no store has: each call names the tuple.
use crate::calls::{NO_ENDS, connect, disconnect, place_of, tid};
use crate::links::{DEPARTMENT, EMPLOYEE, MEMBER, QUEUE, WORKS};
use crate::untold::Untold;
use rss_base::{PageFault, Place};
use rss_images::assert_same;
use rss_link::Chains;
use std::test::Fail;

/// A question, of a child of a link, and the tuple that it names.
struct Asked {
    link: Chains,
    child: u16,
}

/// Slot 2 is too short, slot 3 has a flag that is none, slot 4 neighbours and no parent, slot 5
/// neighbours and no flag, and there is no slot 9.
const ASKED: [Asked; 5] = [
    Asked {
        link: WORKS,
        child: 2,
    },
    Asked {
        link: WORKS,
        child: 9,
    },
    Asked {
        link: QUEUE,
        child: 3,
    },
    Asked {
        link: WORKS,
        child: 4,
    },
    Asked {
        link: QUEUE,
        child: 5,
    },
];

/// A child that is put under a parent, after another or first, and the tuple that it names.
struct Put {
    child: u16,
    parent: u16,
    left: Option<u16>,
    named: u16,
}

const PUTS: [Put; 4] = [
    Put {
        child: 1,
        parent: 9,
        left: None,
        named: 9,
    },
    Put {
        child: 9,
        parent: 0,
        left: None,
        named: 9,
    },
    Put {
        child: 2,
        parent: 0,
        left: None,
        named: 2,
    },
    Put {
        child: 1,
        parent: 0,
        left: Some(2),
        named: 2,
    },
];

#[test]
fn bodies_that_no_store_has_are_named(rt: HostRuntime) -> Result<(), Fail> {
    let mut flagged = MEMBER;
    flagged[2] = 2;
    let mut orphan = EMPLOYEE;
    orphan[12] = 0;
    let mut unflagged = MEMBER;
    unflagged[8] = 0;
    let bodies: [&[u8]; 6] = [
        &DEPARTMENT,
        &EMPLOYEE,
        &[2, 0, 0, 0],
        &flagged,
        &orphan,
        &unflagged,
    ];
    let mut tuples = Untold::new(rt.alloc(), &bodies)?;
    for asked in &ASKED {
        let found = place_of(&asked.link, &mut tuples, asked.child);
        assert_same(&found, &Err(damaged(asked.child)), asked.child)?;
    }
    for (index, put) in PUTS.iter().enumerate() {
        let mut tuples = Untold::new(rt.alloc(), &bodies)?;
        let mut ends = NO_ENDS;
        let parent = Some(put.parent);
        let done = connect(&WORKS, &mut ends, &mut tuples, put.child, parent, put.left);
        assert_same(&done, &Err(damaged(put.named)), index)?;
    }
    let alone = disconnect(&WORKS, &mut NO_ENDS, &mut tuples, 1);
    assert_same(&alone, &Err(damaged(1)), "in no chain")?;
    Ok(())
}

/// What is said of a tuple that isn't what it should be.
fn damaged(slot: u16) -> PageFault {
    PageFault::Damaged(Place::Tuple(1, tid(slot)))
}
