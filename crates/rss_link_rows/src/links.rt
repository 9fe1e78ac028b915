// Two links, and bodies in none of their chains.
use rss_link::Chains;

/// A link of departments to employees, whose blocks stand after the number of the relation.
pub(crate) const WORKS: Chains = Chains {
    link: 1,
    unary: false,
    parent_segment: 1,
    child_segment: 1,
    parent_at: 1,
    child_at: 1,
};

/// One of members, whose blocks stand after a byte of another one.
pub(crate) const QUEUE: Chains = Chains {
    link: 2,
    unary: true,
    parent_segment: 1,
    child_segment: 1,
    parent_at: 0,
    child_at: 2,
};

const NONE: u8 = 255;

/// A department with no employee, and an employee of none, each with a value of one byte.
pub(crate) const DEPARTMENT: [u8; 14] = [
    1, NONE, NONE, NONE, NONE, NONE, NONE, NONE, NONE, NONE, NONE, NONE, NONE, 7,
];

pub(crate) const EMPLOYEE: [u8; 20] = [
    2, NONE, NONE, NONE, NONE, NONE, NONE, NONE, NONE, NONE, NONE, NONE, NONE, NONE, NONE, NONE,
    NONE, NONE, NONE, 9,
];

/// A member of no queue.
pub(crate) const MEMBER: [u8; 16] = [
    3, 8, 0, NONE, NONE, NONE, NONE, NONE, NONE, NONE, NONE, NONE, NONE, NONE, NONE, 9,
];
