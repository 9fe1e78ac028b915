// Which page leaves memory, beside a map of the kit's that is ordered by recency.
use lru::LruCache;
use rss_base::{PageKey, Space};
use rss_frames::{Frames, TwoPages};
use rss_images::{Draws, assert_same};
use std::alloc::Global;
use std::num::NonZeroUsize;
use std::test::Fail;

/// How few frames there are.
const FRAMES: u32 = 8;

/// Of how many pages the random ones are drawn, and how often.
const PAGES: u32 = 20;

const USES: u32 = 4_000;

/// What is done to a page of segment 1, by its number.
#[derive(Clone, Copy, Debug)]
enum Act {
    /// It comes into memory, unchanged.
    Admit(u32),
    Use(u32),
    Write(u32),
    Settle(u32),
    /// It is the one that leaves, and whether it was changed.
    Leave(u32, bool),
}

/// Nine pages in eight frames.
const ACTS: [Act; 20] = [
    Act::Admit(0),
    Act::Admit(1),
    Act::Admit(2),
    Act::Admit(3),
    Act::Admit(4),
    Act::Admit(5),
    Act::Admit(6),
    Act::Admit(7),
    Act::Leave(0, false),
    Act::Admit(8),
    Act::Use(1),
    Act::Leave(2, false),
    Act::Write(4),
    Act::Leave(3, false),
    Act::Write(5),
    Act::Settle(5),
    Act::Leave(6, false),
    Act::Leave(7, false),
    Act::Leave(8, false),
    Act::Leave(1, false),
];

/// What is left then, in the order in which it leaves.
const LAST: [(u32, bool); 2] = [(4, true), (5, false)];

/// Pages in memory, of which the one that wasn't used for the longest time leaves.
trait Cache {
    /// A page comes into memory, unchanged, if it isn't there and a frame is free.
    fn try_admit(&mut self, number: u32) -> Result<(), Fail>;

    /// Whether a page is in memory. It becomes the one that was used last.
    fn is_used(&mut self, number: u32) -> bool;

    /// The same, and it is marked as changed.
    fn is_written(&mut self, number: u32) -> bool;

    /// Marks a page as unchanged, if it is in memory.
    fn settle_page(&mut self, number: u32);

    fn is_at_most(&self) -> bool;

    /// Takes the page out that wasn't used for the longest time, and tells whether it was changed.
    fn leave(&mut self) -> Option<(u32, bool)>;
}

fn key_of(number: u32) -> PageKey {
    PageKey {
        segment: 1,
        space: Space::Home,
        number,
    }
}

impl Cache for Frames {
    fn try_admit(&mut self, number: u32) -> Result<(), Fail> {
        let key = key_of(number);
        if self.has(key) {
            return Err("a page that is there".into());
        }
        if self.is_full() {
            return Err("no frame is free".into());
        }
        self.put(key, &[0; 4096]);
        self.settle(key);
        Ok(())
    }

    fn is_used(&mut self, number: u32) -> bool {
        self.touch(key_of(number))
    }

    fn is_written(&mut self, number: u32) -> bool {
        let key = key_of(number);
        let there = self.has(key);
        if there {
            self.put(key, &[1; 4096]);
        }
        there
    }

    fn settle_page(&mut self, number: u32) {
        self.settle(key_of(number));
    }

    fn is_at_most(&self) -> bool {
        self.is_full()
    }

    fn leave(&mut self) -> Option<(u32, bool)> {
        let (key, changed) = self.eldest()?;
        self.remove(key);
        Some((key.number, changed))
    }
}

/// Frames, by the calls that lend a page, or take the last one out.
#[derive(Drop)]
struct Lending {
    frames: Frames,
}

impl Cache for Lending {
    fn try_admit(&mut self, number: u32) -> Result<(), Fail> {
        let key = key_of(number);
        if self.frames.has(key) {
            return Err("a page that is there".into());
        }
        if self.frames.is_full() {
            return Err("no frame is free".into());
        }
        self.frames.admit(key, &[0; 4096], false);
        Ok(())
    }

    fn is_used(&mut self, number: u32) -> bool {
        self.frames.get(key_of(number)).is_some()
    }

    fn is_written(&mut self, number: u32) -> bool {
        match self.frames.get_mut(key_of(number)) {
            Some(page) => {
                page[0] = 1;
                true
            }
            None => false,
        }
    }

    fn settle_page(&mut self, number: u32) {
        self.frames.settle(key_of(number));
    }

    fn is_at_most(&self) -> bool {
        self.frames.len() == FRAMES
    }

    fn leave(&mut self) -> Option<(u32, bool)> {
        let (number, changed, _) = leave_whole(&mut self.frames)?;
        Some((number, changed))
    }
}

/// The page that leaves, whether it was changed, and its first byte.
fn leave_whole(frames: &mut Frames) -> Option<(u32, bool, u8)> {
    let mut page = [9; 4096];
    let (key, changed) = frames.evict_last(&mut page)?;
    Some((key.number, changed, page[0]))
}

/// Writes to two pages that are lent at once, and tells whether both are in memory.
fn are_written(frames: &mut Frames, first: u32, second: u32) -> bool {
    let one = key_of(first);
    let other = key_of(second);
    if one == other || !frames.has(one) || !frames.has(other) {
        return false;
    }
    let TwoPages { first, second } = frames.two_mut(one, other);
    first[0] = 1;
    second[0] = 2;
    true
}

/// The pages in memory, with whether each was changed.
type Marks = LruCache<PageKey, bool>;

impl Cache for Marks {
    fn try_admit(&mut self, number: u32) -> Result<(), Fail> {
        if self.len() >= FRAMES as usize {
            return Err("no frame is free".into());
        }
        match self.put(key_of(number), false) {
            Ok(None) => Ok(()),
            Ok(Some(_)) => Err("a page that is there".into()),
            Err(_) => Err("no memory".into()),
        }
    }

    fn is_used(&mut self, number: u32) -> bool {
        self.promote(&key_of(number))
    }

    fn is_written(&mut self, number: u32) -> bool {
        match self.get_mut(&key_of(number)) {
            Some(mark) => {
                *mark = true;
                true
            }
            None => false,
        }
    }

    fn settle_page(&mut self, number: u32) {
        if let Some(mark) = self.peek_mut(&key_of(number)) {
            *mark = false;
        }
    }

    fn is_at_most(&self) -> bool {
        self.len() >= FRAMES as usize
    }

    fn leave(&mut self) -> Option<(u32, bool)> {
        let (key, changed) = self.pop_lru()?;
        Some((key.number, changed))
    }
}

fn lending_frames(alloc: Global) -> Result<Lending, Fail> {
    Ok(Lending {
        frames: Frames::new(alloc, FRAMES)?,
    })
}

fn marks(alloc: Global) -> Result<Marks, Fail> {
    let Some(most) = NonZeroUsize::new(FRAMES as usize) else {
        return Err("no frames".into());
    };
    Ok(LruCache::new(alloc, most)?)
}

/// Does an act, and finds what it says.
fn assert_act<C: Cache>(cache: &mut C, act: Act) -> Result<(), Fail> {
    match act {
        Act::Admit(number) => cache.try_admit(number),
        Act::Use(number) => assert_same(&cache.is_used(number), &true, act),
        Act::Write(number) => assert_same(&cache.is_written(number), &true, act),
        Act::Settle(number) => {
            cache.settle_page(number);
            Ok(())
        }
        Act::Leave(number, changed) => assert_same(&cache.leave(), &Some((number, changed)), act),
    }
}

fn assert_acts<C: Cache>(cache: &mut C) -> Result<(), Fail> {
    for act in &ACTS {
        assert_act(cache, *act)?;
    }
    for left in &LAST {
        assert_same(&cache.leave(), &Some(*left), "at last")?;
    }
    assert_same(&cache.leave(), &None, "the end")
}

/// Brings a page into memory. Answers the one that left for it, if one did.
fn bring<C: Cache>(cache: &mut C, number: u32) -> Result<Option<(u32, bool)>, Fail> {
    let left = if cache.is_at_most() {
        cache.leave()
    } else {
        None
    };
    cache.try_admit(number)?;
    Ok(left)
}

/// Uses a page, which is brought into memory first if it isn't there, and in two of three cases
/// written or settled. Answers the page that left for it, if one did.
fn use_page<C: Cache>(cache: &mut C, number: u32, way: u32) -> Result<Option<(u32, bool)>, Fail> {
    let mut left = None;
    if !cache.is_used(number) {
        left = bring(cache, number)?;
    }
    match way {
        0 => assert_same(&cache.is_written(number), &true, number)?,
        1 => cache.settle_page(number),
        _ => {}
    }
    Ok(left)
}

/// The same pages leave both, in the same order.
fn assert_alike<C: Cache>(cache: &mut C, marks: &mut Marks) -> Result<(), Fail> {
    let mut draws = Draws::new(35);
    for turn in 0..USES {
        let number = draws.below(PAGES);
        let way = draws.below(4);
        let left = use_page(cache, number, way)?;
        let want = use_page(marks, number, way)?;
        assert_same(&left, &want, turn)?;
    }
    Ok(())
}

#[test]
fn the_page_that_was_not_used_for_the_longest_time_leaves(rt: HostRuntime) -> Result<(), Fail> {
    let mut frames = Frames::new(rt.alloc(), FRAMES)?;
    assert_acts(&mut frames)?;
    let mut lending = lending_frames(rt.alloc())?;
    assert_acts(&mut lending)?;
    let mut marks = marks(rt.alloc())?;
    assert_acts(&mut marks)
}

#[test]
fn the_same_pages_leave_as_of_a_map_by_recency(rt: HostRuntime) -> Result<(), Fail> {
    let mut frames = Frames::new(rt.alloc(), FRAMES)?;
    let mut marks = marks(rt.alloc())?;
    assert_alike(&mut frames, &mut marks)
}

#[test]
fn the_same_pages_leave_by_the_calls_that_lend(rt: HostRuntime) -> Result<(), Fail> {
    let mut lending = lending_frames(rt.alloc())?;
    let mut marks = marks(rt.alloc())?;
    assert_alike(&mut lending, &mut marks)
}

#[test]
fn two_pages_are_lent_at_once(rt: HostRuntime) -> Result<(), Fail> {
    let mut lending = lending_frames(rt.alloc())?;
    for number in 0..4 {
        lending.try_admit(number)?;
    }
    assert_same(&are_written(&mut lending.frames, 2, 0), &true, "both")?;
    assert_same(&are_written(&mut lending.frames, 2, 4), &false, "one")?;
    for left in [(1, false, 0), (3, false, 0), (0, true, 2), (2, true, 1)] {
        assert_same(&leave_whole(&mut lending.frames), &Some(left), "leaves")?;
    }
    assert_same(&leave_whole(&mut lending.frames), &None, "the end")
}
