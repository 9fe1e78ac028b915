// The pages of an image, tested by the form of a node and of a tree.
use crate::calls::{SLOTS, Tried};
use crate::pairs::{Code, FILLING};
use rss_base::{PAGE_BYTES, Page, PageKey, Pages, Space};
use rss_image::Image;
use rss_images::{assert_same, assert_same_slices};
use std::alloc::{AllocError, Global};
use std::test::Fail;

/// Stands in place of a next leaf if there is none.
const NO_PAGE: u32 = u32::MAX;

/// How many bytes the header of a node has.
const HEADER: usize = 32;

/// A node of a row, with the pair that none below it is under.
#[derive(Clone, Copy)]
struct Spot {
    number: u32,
    low: Code,
}

/// How many entries a node has at most.
pub(crate) fn most(width: u8) -> usize {
    (PAGE_BYTES - HEADER) / (usize::from(width) + 10)
}

/// So many bytes as a number, from a place of a page on.
fn number_at(page: &Page, at: usize, count: usize) -> Result<u64, Fail> {
    let end = at.saturating_add(count);
    let bytes = page.get(at..end).ok_or("no such bytes")?;
    let mut number: u64 = 0;
    for byte in bytes {
        number = (number << 8) | u64::from(*byte);
    }
    Ok(number)
}

/// Whether so many bytes of a page, from a place on, are all the same.
fn are_all(page: &Page, at: usize, count: usize, byte: u8) -> Result<bool, Fail> {
    let end = at.saturating_add(count);
    let bytes = page.get(at..end).ok_or("no such bytes")?;
    Ok(bytes.iter().all(|b| *b == byte))
}

/// The pair and the child of an entry.
fn entry_at(page: &Page, width: u8, place: usize) -> Result<(Code, u32), Fail> {
    let wide = usize::from(width);
    let at = HEADER.saturating_add(place.saturating_mul(wide + 10));
    let front = wide.min(4);
    let mut key = number_at(page, at, front)?;
    for _ in front..4 {
        key = (key << 8) | u64::from(FILLING);
    }
    let tid = at.saturating_add(wide);
    let page_number = number_at(page, tid, 4)?;
    let slot = number_at(page, tid.saturating_add(4), 2)?;
    let child = number_at(page, tid.saturating_add(6), 4)?;
    let child = u32::try_from(child).unwrap_or(NO_PAGE);
    Ok(((key << 32) | (page_number << 8) | slot, child))
}

/// A node as those around it have it: what its page is tested by, beside its bytes.
#[derive(Clone, Copy, Debug, PartialEq)]
struct Wanted {
    number: u32,
    level: u8,
    next: u32,
    low: Code,
    limit: Code,
    least: usize,
}

/// A leaf that was found in form, and how many pairs it has.
#[derive(Clone, Copy)]
struct Leaf {
    wanted: Wanted,
    count: usize,
}

/// The leaves that were found in form and not changed since, by the numbers of their pages.
#[derive(Drop)]
pub(crate) struct Tested {
    leaves: Vec<Option<Leaf>>,
}

impl Tested {
    /// With no leaf.
    pub(crate) fn new(alloc: Global) -> Result<Self, AllocError> {
        let leaves = vec![in alloc; None; SLOTS as usize]?;
        Ok(Tested { leaves })
    }

    /// So that the next test is of all pages.
    pub(crate) fn forget_all(&mut self) {
        self.leaves.as_mut_slice().fill(None);
    }

    fn forget_changed(&mut self, pages: &mut Tried) {
        for (leaf, changed) in self.leaves.iter_mut().zip(pages.marks()) {
            if *changed {
                *leaf = None;
            }
        }
        pages.clear_marks();
    }

    /// How many pairs a leaf has that was found in form.
    fn count(&self, wanted: Wanted) -> Option<usize> {
        match self.leaves.get(wanted.number as usize) {
            Some(Some(leaf)) if leaf.wanted == wanted => Some(leaf.count),
            _ => None,
        }
    }

    fn keep(&mut self, wanted: Wanted, count: usize) {
        if let Some(leaf) = self.leaves.get_mut(wanted.number as usize) {
            *leaf = Some(Leaf { wanted, count });
        }
    }
}

/// How many entries a node has at least.
fn least(image: &Image, level: u8, number: u32) -> usize {
    if number != image.root {
        most(image.width) / 2
    } else if level > 0 {
        2
    } else {
        0
    }
}

/// Copies the page of a node.
fn page_of(pages: &mut Tried, image: &Image, number: u32) -> Result<Page, Fail> {
    let key = PageKey {
        segment: image.segment,
        space: Space::Image,
        number,
    };
    if !pages.has(key) {
        return Err(Fail::new(format_args!("page {number} isn't mapped")));
    }
    let mut page = [0u8; PAGE_BYTES];
    pages
        .read(key, &mut page)
        .map_err(|_| Fail::from("not read"))?;
    Ok(page)
}

/// Tests the header of a node, and answers how many entries it has.
fn test_header(page: &Page, image: &Image, wanted: Wanted) -> Result<usize, Fail> {
    let number = wanted.number;
    assert_same(&number_at(page, 0, 1)?, &3, number)?;
    assert_same(&number_at(page, 1, 1)?, &u64::from(image.segment), number)?;
    assert_same(&number_at(page, 2, 1)?, &u64::from(image.number), number)?;
    assert_same(&number_at(page, 3, 1)?, &u64::from(wanted.level), number)?;
    assert_same(&number_at(page, 4, 4)?, &u64::from(number), number)?;
    assert_same(&number_at(page, 10, 2)?, &0, number)?;
    assert_same(&number_at(page, 12, 4)?, &u64::from(wanted.next), number)?;
    assert_same(&are_all(page, 16, 16, 0)?, &true, number)?;
    let count = number_at(page, 8, 2)? as usize;
    let fits = count >= wanted.least && count <= most(image.width);
    assert_same(&fits, &true, (number, count))?;
    Ok(count)
}

/// The pairs of a list from the first that a leaf may have to the last.
fn pairs_in(list: &[Code], wanted: Wanted) -> Result<&[Code], Fail> {
    let (Ok(from) | Err(from)) = list.binary_search(&wanted.low);
    let (Ok(to) | Err(to)) = list.binary_search(&wanted.limit);
    Ok(list.get(from..to).ok_or("no such pairs")?)
}

/// What was read of a tree.
#[derive(Drop)]
struct Walk {
    image: Image,
    row: Vec<Spot>,
    below: Vec<Spot>,
    pairs: Vec<Code>,
    count: usize,
    nodes: usize,
}

impl Walk {
    fn new(alloc: Global, image: Image) -> Result<Self, Fail> {
        let mut row = Vec::new(alloc);
        row.push(Spot {
            number: image.root,
            low: 0,
        })?;
        Ok(Walk {
            image,
            row,
            below: Vec::new(alloc),
            pairs: Vec::new(alloc),
            count: 0,
            nodes: 0,
        })
    }

    /// The node at a place of a row.
    fn wanted(&self, level: u8, place: usize) -> Result<Wanted, Fail> {
        let spot = *self.row.get(place).ok_or("no such node")?;
        let right = self.row.get(place.saturating_add(1)).copied();
        let (next, limit) = match right {
            Some(right) if level == 0 => (right.number, right.low),
            Some(right) => (NO_PAGE, right.low),
            None => (NO_PAGE, Code::MAX),
        };
        Ok(Wanted {
            number: spot.number,
            level,
            next,
            low: spot.low,
            limit,
            least: least(&self.image, level, spot.number),
        })
    }

    /// Tests the first entry of an inner node: its pair is zeros.
    fn test_first(&mut self, page: &Page, wanted: Wanted, child: u32) -> Result<(), Fail> {
        let zeros = usize::from(self.image.width) + 6;
        assert_same(&are_all(page, HEADER, zeros, 0)?, &true, wanted)?;
        self.below.push(Spot {
            number: child,
            low: wanted.low,
        })?;
        Ok(())
    }

    /// Tests the entries of a node: they rise from its bound on and stay below the next node's.
    fn test_entries(&mut self, page: &Page, wanted: Wanted, count: usize) -> Result<(), Fail> {
        let wide = usize::from(self.image.width);
        let mut last = wanted.low;
        for place in 0..count {
            let case = (wanted.number, place);
            let (code, child) = entry_at(page, self.image.width, place)?;
            if wanted.level > 0 && place == 0 {
                self.test_first(page, wanted, child)?;
                continue;
            }
            let at = HEADER.saturating_add(place.saturating_mul(wide + 10));
            let behind = are_all(page, at.saturating_add(4), wide.saturating_sub(4), FILLING)?;
            assert_same(&behind, &true, case)?;
            let rises = code > last || wanted.level == 0 && place == 0 && code == last;
            assert_same(&(rises && code < wanted.limit), &true, case)?;
            last = code;
            if wanted.level > 0 {
                self.below.push(Spot {
                    number: child,
                    low: code,
                })?;
            } else {
                assert_same(&child, &0, case)?;
                self.pairs.push(code)?;
            }
        }
        Ok(())
    }

    /// Tests the page of a node, and answers how many entries it has.
    fn test_node(&mut self, pages: &mut Tried, wanted: Wanted) -> Result<usize, Fail> {
        let page = page_of(pages, &self.image, wanted.number)?;
        let count = test_header(&page, &self.image, wanted)?;
        self.test_entries(&page, wanted, count)?;
        Ok(count)
    }

    /// Tests a leaf, which is to have the pairs of a list that are in its bounds, unless it is known
    /// to be in form.
    fn test_leaf(
        &mut self,
        pages: &mut Tried,
        tested: &mut Tested,
        list: &[Code],
        wanted: Wanted,
    ) -> Result<(), Fail> {
        let count = match tested.count(wanted) {
            Some(count) => count,
            None => {
                let count = self.test_node(pages, wanted)?;
                assert_same_slices(self.pairs.as_slice(), pairs_in(list, wanted)?, wanted)?;
                self.pairs.clear();
                tested.keep(wanted, count);
                count
            }
        };
        self.count = self.count.saturating_add(count);
        Ok(())
    }

    /// Tests the nodes of a row, and goes on to the row below it.
    fn test_row(
        &mut self,
        pages: &mut Tried,
        tested: &mut Tested,
        list: &[Code],
        level: u8,
    ) -> Result<(), Fail> {
        for place in 0..self.row.len() {
            let wanted = self.wanted(level, place)?;
            if level == 0 {
                self.test_leaf(pages, tested, list, wanted)?;
            } else {
                let _count = self.test_node(pages, wanted)?;
            }
            self.nodes = self.nodes.saturating_add(1);
        }
        std::mem::swap(&mut self.row, &mut self.below);
        self.below.clear();
        Ok(())
    }
}

/// Tests the pages of an image, which is to have the pairs of a list, and of which the pages have no
/// other. Leaves are left out that were found in form in the same bounds and weren't changed since.
/// Whether one of them lacks the pair of a step is told by the count of all pairs, so there is one
/// step from test to test.
pub(crate) fn test_pages(
    alloc: Global,
    pages: &mut Tried,
    image: &Image,
    tested: &mut Tested,
    list: &[Code],
) -> Result<(), Fail> {
    tested.forget_changed(pages);
    let mut walk = Walk::new(alloc, *image)?;
    for level in (0..image.levels).rev() {
        walk.test_row(pages, tested, list, level)?;
    }
    assert_same(&walk.count, &list.len(), image.width)?;
    let taken = SLOTS.saturating_sub(pages.spare()) as usize;
    assert_same(&walk.nodes, &taken, image.width)?;
    let least = most(image.width) / 2;
    let bound = (list.len() / least.saturating_sub(1).max(1)).saturating_add(2);
    assert_same(&(walk.nodes <= bound), &true, (walk.nodes, bound))
}
