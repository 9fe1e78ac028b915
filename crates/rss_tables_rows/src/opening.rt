// Open transactions beside plain lists.
use crate::harness::{begin, cut, gone, newest, note, save, saves, take_newest};
use rss_base::Marks;
use rss_images::{Draws, assert_same, assert_same_slices};
use rss_trans::{Open, Sums};
use std::alloc::Global;
use std::test::Fail;

/// A change of the plain lists: where it stands, its relation, and whether it is a delete.
type Change = (u64, Option<u8>, bool);

/// A transaction of the plain lists: its changes, and how many there were at each save point.
#[derive(Drop)]
struct Plain {
    number: u32,
    changes: Vec<Change>,
    saves: Vec<usize>,
}

/// The open transactions, and the relations of all changes since the last checkpoint.
#[derive(Drop)]
struct Lists {
    open: Vec<Plain>,
    since: Vec<Option<u8>>,
}

impl Lists {
    fn place(&self, number: u32) -> Option<usize> {
        self.open.iter().position(|plain| plain.number == number)
    }

    /// The sums, of all changes or of those in a relation.
    fn sums(&self, relation: Option<u8>) -> Sums {
        let mut sums = Sums {
            p: 0,
            q: 0,
            s: 0,
            d: 0,
        };
        for plain in &self.open {
            let mut changes = 0u64;
            for change in &plain.changes {
                if relation.is_none() || change.1 == relation {
                    changes = changes.saturating_add(1);
                    sums.d = sums.d.saturating_add(u64::from(change.2));
                }
            }
            sums.p = sums.p.saturating_add(changes);
            sums.q = sums.q.saturating_add(u64::from(changes > 0));
        }
        for change in &self.since {
            if relation.is_none() || *change == relation {
                sums.s = sums.s.saturating_add(1);
            }
        }
        sums
    }
}

/// The relations of the changes: 0 to 3, and 255.
const RELATIONS: [u8; 5] = [0, 1, 2, 3, 255];

/// What `open` tells is what the lists say.
fn assert_told(alloc: Global, open: &Open, lists: &Lists, step: u32) -> Result<(), Fail> {
    assert_same(&open.sums(), &lists.sums(None), step)?;
    for relation in RELATIONS {
        let want = lists.sums(Some(relation));
        assert_same(&open.relation_sums(relation), &want, (step, relation))?;
    }
    let mut marks = Vec::new(alloc);
    let mut least: Option<u32> = None;
    for number in 0..40u32 {
        let place = lists.place(number);
        assert_same(&open.is_open(number), &place.is_some(), (step, number))?;
        if let Some(place) = place {
            least = least.or(Some(number));
            let plain = lists.open.get(place).ok_or("no transaction")?;
            if let Some(first) = plain.changes.first() {
                marks.push((number, first.0))?;
            }
        }
    }
    assert_same(&(open.count() as usize), &lists.open.len(), step)?;
    assert_same(&open.least(), &least, (step, "least"))?;
    let mut into = Marks::new();
    open.marks(&mut into);
    assert_same_slices(into.as_slice(), &marks, (step, "marks"))
}

/// A transaction goes back to a save point, and its later changes are undone, the newest first.
fn restore(open: &mut Open, plain: &mut Plain, to: u32, step: u32) -> Result<(), Fail> {
    let kept = match to {
        0 => 0,
        _ => *plain.saves.get(to as usize - 1).ok_or("no save point")?,
    };
    for _ in 0..plain.changes.len().saturating_sub(kept) {
        let want = plain.changes.pop().map(|change| change.0);
        assert_same(&newest(open, plain.number, to)?, &want, (step, to))?;
        take_newest(open, plain.number)?;
    }
    assert_same(&newest(open, plain.number, to)?, &None, (step, to))?;
    cut(open, plain.number, to)?;
    plain.saves.truncate(to as usize);
    Ok(())
}

/// A change of a transaction, or a save point, or the way back to one.
fn go_on(
    open: &mut Open,
    lists: &mut Lists,
    place: usize,
    draws: &mut Draws,
    step: u32,
) -> Result<(), Fail> {
    let plain = lists.open.get_mut(place).ok_or("no transaction")?;
    match draws.below(12) {
        0 => {
            let to = draws.below(saves(open, plain.number)?.saturating_add(1));
            restore(open, plain, to, step)?;
        }
        1 | 2 => {
            let number = save(open, plain.number)?;
            plain.saves.push(plain.changes.len())?;
            assert_same(&(number as usize), &plain.saves.len(), step)?;
        }
        _ => {
            let relation = RELATIONS.get(draws.below(6) as usize).copied();
            let delete = draws.below(3) == 0;
            let position = u64::from(step) * 40;
            note(open, plain.number, position, relation, delete)?;
            plain.changes.push((position, relation, delete))?;
            lists.since.push(relation)?;
        }
    }
    let plain = lists.open.get(place).ok_or("no transaction")?;
    assert_same(
        &(saves(open, plain.number)? as usize),
        &plain.saves.len(),
        step,
    )
}

/// A step: a transaction begins, goes on or is gone, or a checkpoint is taken.
fn take_step(
    alloc: Global,
    open: &mut Open,
    lists: &mut Lists,
    draws: &mut Draws,
    step: u32,
) -> Result<(), Fail> {
    let number = draws.below(40);
    match lists.place(number) {
        None => {
            if lists.open.len() < 32 {
                begin(open, number)?;
                lists.open.push(Plain {
                    number,
                    changes: Vec::new(alloc),
                    saves: Vec::new(alloc),
                })?;
            }
        }
        Some(place) => match draws.below(64) {
            0 => {
                open.checkpointed();
                lists.since.clear();
            }
            1 | 2 => {
                gone(open, number)?;
                lists.open.retain(|plain| plain.number != number);
            }
            _ => go_on(open, lists, place, draws, step)?,
        },
    }
    Ok(())
}

#[test]
fn plain_sums(rt: HostRuntime) -> Result<(), Fail> {
    let alloc = rt.alloc();
    let mut open = Open::new(alloc);
    let mut lists = Lists {
        open: Vec::new(alloc),
        since: Vec::new(alloc),
    };
    let mut draws = Draws::new(36);
    for step in 0..20_000u32 {
        take_step(alloc, &mut open, &mut lists, &mut draws, step)?;
        if step % 16 == 0 || step < 100 {
            assert_told(alloc, &open, &lists, step)?;
        }
    }
    Ok(())
}
