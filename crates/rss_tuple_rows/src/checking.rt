// A look through pages that may hold anything, and what is wrong first.
ghost use Rattle.std.specs.Prelude.{true};

use crate::calls::{Tried, key_of, put_home, put_overflow};
use crate::damaged::{BODY, MALFORMED, NOTHING, home_with, overflow_page, store_with};
use rss_base::{PageFault, Place, Space, Tid};
use rss_images::assert_same;
use rss_tuple::{Flaw, Visitor, check};
use std::alloc::Global;
use std::test::Fail;

/// Lets each body stand.
#[derive(Drop)]
struct Any;

impl Visitor for Any {
    ghost is_good = { λ any body. true };

    ghost saw = { λ any rows. Unit {0} };

    fn see(&mut self, _tid: Tid, _body: &[u8]) -> bool {
        true
    }
}

/// Forwards to slots 0 and 5 of overflow page 7, of which slot 0 has a body.
const TO_BODY: [u8; 8] = [2, 0, 0, 0, 0, 0, 0, 7];

const TO_NOTHING: [u8; 8] = [2, 5, 0, 0, 0, 0, 0, 7];

/// The identifier of the second entry of home page 3.
const AT: Tid = Tid { page: 3, slot: 1 };

/// The first two entries of that page, whether overflow page 7 is mapped, and what is found: a flaw, or the
/// space of page 3 that isn't in form.
static LOOKS: [([u8; 8], [u8; 8], bool, Result<Option<Flaw>, Space>); 9] = [
    (BODY, NOTHING, false, Ok(None)),
    (BODY, TO_BODY, true, Ok(None)),
    (BODY, NOTHING, true, Ok(Some(Flaw::Unled(7)))),
    // Forwards that lead nowhere, and one that isn't the first to its body.
    (BODY, TO_BODY, false, Ok(Some(Flaw::Entry(AT)))),
    (TO_BODY, TO_NOTHING, true, Ok(Some(Flaw::Entry(AT)))),
    (TO_BODY, TO_BODY, true, Ok(Some(Flaw::Entry(AT)))),
    // An entry that isn't right comes before an overflow page.
    (BODY, TO_NOTHING, true, Ok(Some(Flaw::Entry(AT)))),
    // A page that isn't in form comes before both.
    (TO_NOTHING, MALFORMED, true, Err(Space::Home)),
    (NOTHING, NOTHING, true, Err(Space::Home)),
];

/// What a look through a store finds.
fn look(alloc: Global, store: &mut Tried) -> Result<Option<Flaw>, PageFault> {
    check(alloc, &mut store.pages, 1, &mut Any)
}

#[test]
fn what_is_wrong_first_is_answered(rt: HostRuntime) -> Result<(), Fail> {
    for (first, second, is_mapped, want) in &LOOKS {
        let mut store = store_with(rt.alloc(), &home_with(*first, *second))?;
        if *is_mapped {
            put_overflow(&mut store, 7, &overflow_page())?;
        }
        let want = match want {
            Ok(flaw) => Ok(*flaw),
            Err(space) => Err(PageFault::Damaged(Place::Page(key_of(*space, 3)))),
        };
        let found = look(rt.alloc(), &mut store);
        assert_same(&found, &want, (*first, *second, *is_mapped))?;
    }
    Ok(())
}

#[test]
fn a_later_page_out_of_form_is_named(rt: HostRuntime) -> Result<(), Fail> {
    let mut store = store_with(rt.alloc(), &home_with(BODY, TO_NOTHING))?;
    let mut page = home_with(BODY, MALFORMED);
    page[7] = 5;
    put_home(&mut store, 5, &page)?;
    let found = look(rt.alloc(), &mut store);
    let want = Err(PageFault::Damaged(Place::Page(key_of(Space::Home, 5))));
    assert_same(&found, &want, "home page 5")?;
    Ok(())
}
