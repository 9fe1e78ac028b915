// Lists of tuples.
ghost use Rattle.std.specs.Prelude.{◌≡◌, ◌↔◌, false, Some, IsTrue, IfSome, IfNone, MatchOption};
ghost use Rattle.rss_base.specs.declared.tid.Tid.{Tid as AnyTid};
ghost use Rattle.rss_model.specs.Chains.{stands_in};
ghost use Rattle.rss_draft.specs.Looks.{HasGap, StandsBehind, IsFirstPlace, EndsWith};

use rss_base::Tid;

/// Whether a tuple stands in a list.
pub(crate) fn stands_in(tids: &[Tid], tid: Tid) -> bool
    ensures { result ≡ stands_in tid tids.now }
{
    tids.contains(&tid)
}

/// Whether a tuple can come into a list right after another one, or first.
pub(crate) fn has_gap(tids: &[Tid], child: Tid, left: Option<Tid>) -> bool
    ensures { IsTrue result ↔ HasGap child left tids.now }
{
    if stands_in(tids, child) {
        return false;
    }
    match left {
        Some(left) => stands_in(tids, left),
        None => true,
    }
}

/// Whether a tuple stands once in a list: right after another one, which isn't farther in front
/// too, or first.
pub(crate) fn stands_behind(tids: &[Tid], child: Tid, left: Option<Tid>) -> bool
    ensures { IsTrue result ↔ StandsBehind child left tids.now }
{
    let Some(place) = place_in(tids, child) else {
        return false;
    };
    if stands_in(&tids[place + 1..], child) {
        return false;
    }
    ends_with(&tids[..place], left)
}

/// The tuple that was found, if one was.
pub(crate) fn whole(found: Option<Option<Tid>>) -> Option<Tid>
    ensures some { IfSome result (λ tid. found ≡ Some (Some tid)) }
    ensures none { IfNone result ((tid : AnyTid) → found ≡ Some (Some tid) → ⊥) }
{
    match found {
        Some(tid) => tid,
        None => None,
    }
}

/// The first place at which a tuple stands in a list.
fn place_in(tids: &[Tid], tid: Tid) -> Option<usize>
    ensures { MatchOption result (stands_in tid tids.now ≡ false) (IsFirstPlace tid tids.now) }
{
    tids.iter().position(|other| *other == tid)
}

/// Whether a list ends with this tuple, which stands nowhere before in it, or is empty if none is
/// given.
fn ends_with(tids: &[Tid], last: Option<Tid>) -> bool
    ensures { IsTrue result ↔ EndsWith last tids.now }
{
    let Some(last) = last else {
        return tids.is_empty();
    };
    let Some((tid, front)) = tids.split_last() else {
        return false;
    };
    *tid == last && !stands_in(front, last)
}
