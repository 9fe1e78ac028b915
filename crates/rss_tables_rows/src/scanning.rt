// Scans beside a plain list.
use crate::harness::{close, gave, name};
use rss_base::{Key, Tid};
use rss_images::{Draws, assert_same};
use rss_scan::{Path, SCANS_MOST, Scans};
use std::alloc::Global;
use std::test::Fail;

/// A scan of the plain list: whose it is, the first byte of its relation's name, and the page of what it gave last.
type Plain = Option<(u32, u8, Option<u32>)>;

/// What a table has under a number, for a transaction.
fn found(scans: &Scans, transaction: u32, number: u32) -> Plain {
    let cursor = scans.get(transaction, number)?;
    match (&cursor.path, &cursor.last) {
        (Path::Relation(relation), Some((_, tid))) => {
            Some((transaction, relation.bytes[0], Some(tid.page)))
        }
        (Path::Relation(relation), None) => Some((transaction, relation.bytes[0], None)),
        _ => None,
    }
}

fn wanted(plain: &[Plain], transaction: u32, number: u32) -> Plain {
    let open = (*plain.get(number as usize)?)?;
    if open.0 == transaction {
        Some(open)
    } else {
        None
    }
}

fn put(plain: &mut [Plain], number: usize, scan: Plain) -> Result<(), Fail> {
    *plain.get_mut(number).ok_or("no such number")? = scan;
    Ok(())
}

#[test]
fn least_numbers(rt: HostRuntime) -> Result<(), Fail> {
    let mut scans = Scans::new(rt.alloc())?;
    let mut plain: Vec<Plain> = vec![in rt.alloc(); None; SCANS_MOST]?;
    let mut draws = Draws::new(7);
    for step in 0..20_000u32 {
        let transaction = draws.below(8);
        let number = draws.below(300);
        match draws.below(400) {
            0 => {
                scans.close_all(transaction);
                for place in plain.iter_mut() {
                    if let Some(open) = *place
                        && open.0 == transaction
                    {
                        *place = None;
                    }
                }
            }
            1..=60 => {
                if let Some(open) = wanted(&plain, transaction, number) {
                    close(&mut scans, transaction, number)?;
                    put(&mut plain, number as usize, None)?;
                    assert_same(&found(&scans, transaction, number), &None, (step, open))?;
                }
            }
            61..=200 => {
                if let Some(open) = wanted(&plain, transaction, number) {
                    let tid = Tid {
                        page: step,
                        slot: 1,
                    };
                    gave(&mut scans, transaction, number, &Key::new(), tid)?;
                    put(
                        &mut plain,
                        number as usize,
                        Some((open.0, open.1, Some(step))),
                    )?;
                }
            }
            _ => {
                let relation = draws.below(256) as u8;
                let free = plain.iter().position(|place| place.is_none());
                let added = scans.add(transaction, Path::Relation(name(relation)));
                assert_same(&added.map(|number| number as usize), &free, (step, "added"))?;
                if let Some(place) = free {
                    put(&mut plain, place, Some((transaction, relation, None)))?;
                }
            }
        }
        assert_same(
            &found(&scans, transaction, number),
            &wanted(&plain, transaction, number),
            (step, transaction, number),
        )?;
    }
    Ok(())
}
