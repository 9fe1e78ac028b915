// The widths at which the count of a node changes.
use crate::calls::{create, empty, insert};
use crate::pairs::{Code, code_of};
use crate::tested::{Tested, most, test_pages};
use rss_images::assert_same;
use std::alloc::Global;
use std::test::Fail;

/// Widths, and how many entries a node has room for there: the first and the last width with each
/// of some counts.
const COUNTS: [(u8, u16); 12] = [
    (1, 369),
    (2, 338),
    (8, 225),
    (20, 135),
    (91, 40),
    (92, 39),
    (94, 39),
    (95, 38),
    (116, 32),
    (117, 32),
    (118, 31),
    (120, 31),
];

/// A leaf takes so many pairs, and is split by one more.
fn fill(alloc: Global, width: u8, count: u16) -> Result<(), Fail> {
    assert_same(&most(width), &usize::from(count), width)?;
    let mut pages = empty(alloc)?;
    let mut image = create(&mut pages, width)?;
    let mut list: Vec<Code> = Vec::new(alloc);
    for number in 0..=count {
        assert_same(&image.levels, &1, (width, number))?;
        let code = code_of(0x0707_0707, number, 0);
        insert(&mut image, &mut pages, code)?;
        list.push(code)?;
    }
    assert_same(&image.levels, &2, width)?;
    let mut tested = Tested::new(alloc)?;
    test_pages(alloc, &mut pages, &image, &mut tested, list.as_slice())
}

#[test]
fn a_leaf_is_split_when_it_is_full(rt: HostRuntime) -> Result<(), Fail> {
    for (width, count) in COUNTS {
        fill(rt.alloc(), width, count)?;
    }
    Ok(())
}
