// The identifier of a new tuple.
ghost use Rattle.std.specs.Prelude.{◌*◌, MatchOption, IfOk};
ghost use Rattle.rss_base.specs.DiskRule.{IsTold};
ghost use Rattle.rss_base.specs.Steps.{PagesCall, pages_in};
ghost use Rattle.rss_base.specs.declared.key.Space.TheVariants.{Home};
ghost use Rattle.rss_tuple.specs.Heaps.{AreFormed};
ghost use Rattle.rss_tuple.specs.TupleSteps.{IsLeast, NoneIs};
ghost use Rattle.rss_tuple.specs.Placing.{IsNew};
ghost use Rattle.rss_tuple.specs.Calls.{IsSegment, MayPut};
ghost use Rattle.rss_tuple.specs.Edits.{KeepsEntries};
ghost use Rattle.rss_tuple.specs.Picks.{Picks};

use crate::finding::{find_page, first_open};
use crate::keys::home;
use rss_base::{Page, PageFault, Pages, Space, Tid};
use rss_page::blank;

/// The first identifier of a home page that isn't mapped, of those that aren't barred.
fn first_new<P: Pages>(pages: &P, segment: u8, barred: &[Tid]) -> Option<Tid>
    requires { IsSegment segment }
    ensures { MatchOption result (NoneIs (IsNew (P.view pages.now) segment barred.now))
        (IsLeast (IsNew (P.view pages.now) segment barred.now)) }
{
    let mut from = 0;
    while let Some(number) = pages.first_unmapped(segment, Space::Home, from) {
        let page = blank(home(segment, number));
        if let Some(slot) = first_open(&page, number, barred) {
            return Some(Tid {
                page: number,
                slot: u16::from(slot),
            });
        }
        from = number + 1;
    }
    None
}

/// The identifier that a new tuple with a body of this length gets: one that no tuple has and that
/// isn't barred. None exactly if there is none.
pub(crate) fn choose<P: Pages>(
    pages: &mut P,
    page: &mut Page,
    segment: u8,
    length: u16,
    barred: &[Tid],
) -> Result<Option<Tid>, PageFault>
    requires may { MayPut segment length }
    requires formed { IsTold (P.view pages.old).disk → AreFormed (P.view pages.old) }
    ensures picks { IfOk result (Picks (P.view pages.old) segment length barred.now) }
    ensures kept { KeepsEntries (P.view pages.old) (P.view pages.new) }
    ensures did { PagesCall (pages_in segment Home) (2 * (P.view pages.old).slots)
        (2 * (P.view pages.old).slots) (P.view pages.old) (P.view pages.new) result }
{
    if let Some(spot) = find_page(pages, segment, Space::Home, length, barred, page)? {
        return Ok(Some(spot.tid));
    }
    if let Some(tid) = first_new(pages, segment, barred) {
        return Ok(Some(tid));
    }
    match find_page(pages, segment, Space::Home, 0, barred, page)? {
        Some(spot) => Ok(Some(spot.tid)),
        None => Ok(None),
    }
}
