// Numbers that are found by their size, against a plain scan.
use rss_images::{Draws, assert_same};
use rss_notes::{Maxima, NUMBERS_MOST};
use std::test::Fail;

/// How many numbers there are in each case: none, few, those of a whole group, and the most.
const LENGTHS: [usize; 9] = [0, 1, 15, 16, 17, 257, 4096, 4097, NUMBERS_MOST];

/// How many changes are made in each case, and how many numbers are looked for after each.
const CHANGES: u32 = 400;

/// The first place from this one on whose number is great enough.
fn scan(numbers: &[u16], from: usize, least: u16) -> Option<usize> {
    for (place, number) in numbers.iter().enumerate() {
        if place >= from && *number >= least {
            return Some(place);
        }
    }
    None
}

/// Sets a number, if there is such a place.
fn set(numbers: &mut Maxima, place: usize, number: u16) {
    if place < numbers.len() {
        numbers.set(place, number);
    }
}

/// Sets a number, if there is such a place, and then looks for one.
fn change(draws: &mut Draws, numbers: &mut Maxima, plain: &mut Vec<u16>) -> Result<(), Fail> {
    let len = numbers.len();
    let place = draws.below(len as u32) as usize;
    let number = if draws.below(2) == 0 {
        0
    } else {
        draws.below(3057) as u16
    };
    if place < len {
        numbers.set(place, number);
        let there = plain.get_mut(place).ok_or("a place that isn't there")?;
        *there = number;
        assert_same(&numbers.get(place), &number, place)?;
    }
    let from = draws.below(len as u32 + 2) as usize;
    let least = draws.below(3058) as u16;
    let want = scan(plain.as_slice(), from, least);
    assert_same(&numbers.first(from, least), &want, (from, least))?;
    Ok(())
}

#[test]
fn the_first_number_is_that_of_a_scan(rt: HostRuntime) -> Result<(), Fail> {
    let mut draws = Draws::new(1);
    for len in LENGTHS {
        let mut numbers = Maxima::new(rt.alloc(), len)?;
        let mut plain = vec![in rt.alloc(); 0u16; len]?;
        assert_same(&numbers.first(0, 1), &None, len)?;
        for _ in 0..CHANGES {
            change(&mut draws, &mut numbers, &mut plain)?;
        }
    }
    Ok(())
}

/// One number of 7 at a place is found exactly if it is looked for from that place or before, by no
/// more than 7.
fn assert_alone(numbers: &Maxima, place: usize) -> Result<(), Fail> {
    for (from, least, want) in [
        (0, 7, Some(place)),
        (place, 7, Some(place)),
        (place.saturating_add(1), 1, None),
        (0, 8, None),
    ] {
        let found = numbers.first(from, least);
        assert_same(&found, &want, (place, "from", from, "least", least))?;
    }
    Ok(())
}

#[test]
fn one_number_is_found_wherever_it_stands(rt: HostRuntime) -> Result<(), Fail> {
    let mut numbers = Maxima::new(rt.alloc(), NUMBERS_MOST)?;
    for step in 0..63usize {
        set(&mut numbers, step * 1041, 7);
        assert_alone(&numbers, step * 1041)?;
        set(&mut numbers, step * 1041, 0);
    }
    Ok(())
}
