// Inserts and removes at random, beside a sorted list.
use crate::calls::{Tried, after, create, destroy, empty, insert, remove, seek};
use crate::pairs::{Code, code_of};
use crate::tested::{Tested, test_pages};
use rss_base::Pages;
use rss_image::Image;
use rss_images::{Draws, assert_same};
use std::alloc::Global;
use std::test::Fail;

/// In what order pairs are put.
#[derive(Clone, Copy, Debug, PartialEq)]
enum Order {
    Random,
    Rising,
}

/// A width, how many pairs are put, in what order, after how many steps all pages are tested anew, and
/// how many levels there come to be.
#[derive(Clone, Copy, Debug)]
struct Case {
    width: u8,
    pairs: u32,
    order: Order,
    turn: u32,
    levels: u8,
}

const CASES: [Case; 7] = [
    Case {
        width: 120,
        pairs: 1000,
        order: Order::Random,
        turn: 1,
        levels: 3,
    },
    Case {
        width: 120,
        pairs: 600,
        order: Order::Rising,
        turn: 1,
        levels: 3,
    },
    Case {
        width: 20,
        pairs: 500,
        order: Order::Random,
        turn: 1,
        levels: 2,
    },
    Case {
        width: 20,
        pairs: 18_000,
        order: Order::Random,
        turn: 1999,
        levels: 3,
    },
    Case {
        width: 20,
        pairs: 9600,
        order: Order::Rising,
        turn: 801,
        levels: 3,
    },
    Case {
        width: 8,
        pairs: 700,
        order: Order::Random,
        turn: 1,
        levels: 2,
    },
    Case {
        width: 8,
        pairs: 50_000,
        order: Order::Random,
        turn: 3999,
        levels: 3,
    },
];

/// An image, and the same pairs in a sorted list.
#[derive(Drop)]
struct Beside {
    pages: Tried,
    image: Image,
    list: Vec<Code>,
    steps: u32,
    levels: u8,
    tested: Tested,
}

impl Beside {
    fn new(alloc: Global, width: u8) -> Result<Self, Fail> {
        let mut pages = empty(alloc)?;
        let image = create(&mut pages, width)?;
        let list = Vec::new(alloc);
        Ok(Beside {
            pages,
            image,
            list,
            steps: 0,
            levels: 1,
            tested: Tested::new(alloc)?,
        })
    }

    /// The place of a pair in the list, or the one that it would have.
    fn place(&self, code: Code) -> Result<usize, usize> {
        self.list.as_slice().binary_search(&code)
    }

    fn insert(&mut self, code: Code) -> Result<(), Fail> {
        let Err(place) = self.place(code) else {
            return Ok(())
        };
        if place > self.list.len() {
            return Err(Fail::from("no such place"));
        }
        insert(&mut self.image, &mut self.pages, code)?;
        self.list.insert(place, code)?;
        self.levels = self.levels.max(self.image.levels);
        Ok(())
    }

    /// Takes one of the pairs away.
    fn remove(&mut self, draws: &mut Draws) -> Result<(), Fail> {
        let count = u32::try_from(self.list.len()).unwrap_or(u32::MAX);
        let place = draws.below(count) as usize;
        let code = *self.list.get(place).ok_or("no such pair")?;
        if place >= self.list.len() {
            return Err(Fail::from("no such place"));
        }
        remove(&mut self.image, &mut self.pages, code)?;
        self.list.remove(place);
        Ok(())
    }

    /// Looks for pairs near one, and tests the pages.
    fn look(&mut self, alloc: Global, code: Code, turn: u32) -> Result<(), Fail> {
        let key = code & 0xffff_ffff_0000_0000;
        let (Ok(first) | Err(first)) = self.place(key);
        let from = self.list.get(first).copied();
        assert_same(&seek(&self.image, &mut self.pages, code)?, &from, code)?;
        let next = match self.place(code) {
            Ok(place) => place.saturating_add(1),
            Err(place) => place,
        };
        let above = self.list.get(next).copied();
        assert_same(&after(&self.image, &mut self.pages, code)?, &above, code)?;
        self.steps = self.steps.saturating_add(1);
        if turn > 0 && self.steps % turn == 0 {
            self.tested.forget_all();
        }
        self.test(alloc)
    }

    fn test(&mut self, alloc: Global) -> Result<(), Fail> {
        let list = self.list.as_slice();
        test_pages(alloc, &mut self.pages, &self.image, &mut self.tested, list)
    }
}

fn draw_pair(draws: &mut Draws, order: Order, step: u32) -> Code {
    let key = match order {
        Order::Random => draws.below(200),
        Order::Rising => step,
    };
    code_of(key, draws.below(300) as u16, draws.below(128) as u8)
}

fn run(alloc: Global, case: Case) -> Result<(), Fail> {
    let mut draws = Draws::new(u64::from(case.pairs));
    let mut tried = Beside::new(alloc, case.width)?;
    for step in 0..case.pairs {
        let code = draw_pair(&mut draws, case.order, step);
        tried.insert(code)?;
        tried.look(alloc, code, case.turn)?;
        if case.order == Order::Random && draws.below(4) == 0 && !tried.list.is_empty() {
            tried.remove(&mut draws)?;
            tried.look(alloc, code, case.turn)?;
        }
    }
    assert_same(&tried.levels, &case.levels, case)?;
    for step in 0..case.pairs {
        if tried.list.is_empty() {
            break;
        }
        tried.remove(&mut draws)?;
        let code = draw_pair(&mut draws, case.order, step);
        tried.look(alloc, code, case.turn)?;
    }
    assert_same(&tried.list.is_empty(), &true, case)?;
    assert_same(&tried.image.levels, &1, case)?;
    tried.tested.forget_all();
    tried.test(alloc)
}

#[test]
fn images_are_sorted_lists(rt: HostRuntime) -> Result<(), Fail> {
    for case in CASES {
        run(rt.alloc(), case)?;
    }
    Ok(())
}

#[test]
fn all_pages_are_given_back(rt: HostRuntime) -> Result<(), Fail> {
    let alloc = rt.alloc();
    let mut tried = Beside::new(alloc, 120)?;
    for step in 0..700 {
        tried.insert(code_of(step, 0, 0))?;
    }
    assert_same(&tried.image.levels, &3, "levels")?;
    destroy(tried.image, &mut tried.pages)?;
    assert_same(&tried.pages.spare(), &crate::calls::SLOTS, "spare")
}
