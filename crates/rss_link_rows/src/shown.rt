// The bodies that docs/LINKS.md shows, before and after a connect and a disconnect.
use crate::calls::{NO_ENDS, connect, disconnect};
use crate::links::WORKS;
use crate::untold::Untold;
use rss_images::assert_same_slices;
use std::alloc::Global;
use std::test::Fail;

/// The slots of a department's first and last employee.
type Department = [Option<u8>; 2];

/// The slots of an employee's department, and of the employees before it and after it.
type Employee = [Option<u8>; 3];

const NO_DEPARTMENT: Employee = [None, None, None];

/// The pointers in the bodies of department 0 and employees 1 to 4.
struct Shown {
    department: Department,
    employees: [Employee; 4],
}

const BEFORE: Shown = Shown {
    department: [Some(1), Some(3)],
    employees: [
        [Some(0), None, Some(2)],
        [Some(0), Some(1), Some(3)],
        [Some(0), Some(2), None],
        NO_DEPARTMENT,
    ],
};

/// Employee 4 is after employee 1.
const CONNECTED: Shown = Shown {
    department: [Some(1), Some(3)],
    employees: [
        [Some(0), None, Some(4)],
        [Some(0), Some(4), Some(3)],
        [Some(0), Some(2), None],
        [Some(0), Some(1), Some(2)],
    ],
};

/// And employee 3 is in no chain.
const DISCONNECTED: Shown = Shown {
    department: [Some(1), Some(2)],
    employees: [
        [Some(0), None, Some(4)],
        [Some(0), Some(4), None],
        NO_DEPARTMENT,
        [Some(0), Some(1), Some(2)],
    ],
};

#[test]
fn bodies_are_those_that_the_page_shows(rt: HostRuntime) -> Result<(), Fail> {
    let alloc = rt.alloc();
    let bodies = [
        spelled(alloc, 1, &BEFORE.department, 1)?,
        spelled(alloc, 2, &BEFORE.employees[0], 1)?,
        spelled(alloc, 2, &BEFORE.employees[1], 2)?,
        spelled(alloc, 2, &BEFORE.employees[2], 3)?,
        spelled(alloc, 2, &BEFORE.employees[3], 4)?,
    ];
    let slices: [&[u8]; 5] = [
        bodies[0].as_slice(),
        bodies[1].as_slice(),
        bodies[2].as_slice(),
        bodies[3].as_slice(),
        bodies[4].as_slice(),
    ];
    let mut tuples = Untold::new(alloc, &slices)?;
    let mut ends = NO_ENDS;
    assert_shown(alloc, &tuples, &BEFORE, "before")?;
    connect(&WORKS, &mut ends, &mut tuples, 4, Some(0), Some(1))?;
    assert_shown(alloc, &tuples, &CONNECTED, "connected")?;
    disconnect(&WORKS, &mut ends, &mut tuples, 3)?;
    assert_shown(alloc, &tuples, &DISCONNECTED, "disconnected")
}

fn assert_shown(alloc: Global, tuples: &Untold, shown: &Shown, case: &str) -> Result<(), Fail> {
    let department = spelled(alloc, 1, &shown.department, 1)?;
    assert_same_slices(tuples.bytes(0), department.as_slice(), case)?;
    for (number, employee) in (1u8..).zip(shown.employees.iter()) {
        let employee = spelled(alloc, 2, employee, number)?;
        assert_same_slices(tuples.bytes(u16::from(number)), employee.as_slice(), case)?;
    }
    Ok(())
}

/// A body: the number of its relation, its pointers to tuples of page 0, and an INT.
fn spelled(
    alloc: Global,
    relation: u8,
    pointers: &[Option<u8>],
    value: u8,
) -> Result<Vec<u8>, Fail> {
    let mut body = Vec::new(alloc);
    body.push(relation)?;
    for pointer in pointers {
        match *pointer {
            Some(slot) => body.extend_from_slice(&[0, 0, 0, 0, 0, slot])?,
            None => body.extend_from_slice(&[255; 6])?,
        }
    }
    body.extend_from_slice(&[0, 0, 0, 0, 0, 0, 0, value])?;
    Ok(body)
}
