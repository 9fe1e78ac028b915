// Whether a change finds what it tells.
ghost use Rattle.std.specs.Prelude.{◌≡◌, ◌↔◌, IsTrue, IfOk, IfSome, option_copied};
ghost use Rattle.rss_base.specs.TupleTypes.{kinds, SpellsSome};
ghost use Rattle.rss_base.specs.Steps.{PagesCall, no_page};
ghost use Rattle.rss_access.specs.Changes.{both, CanAlter};
ghost use Rattle.rss_access.specs.Told.{reversed};
ghost use Rattle.rss_draft.specs.Views.{said};
ghost use Rattle.rss_draft.specs.Looks.{SoNow, IsFound, HoldsTuple, HasLinkOfForm, HoldsChain, HasGap, StandsBehind};

use crate::chains::{has_gap_now, stands_behind_now};
use crate::draft::Draft;
use crate::tuples::is_tuple_now;
use rss_base::{Change, FieldDef, Kind, PageFault, Pages, Tid};
use rss_catalog::Catalog;
use rss_members::Membership;
use rss_tuple::Store;
use rss_value::spells;

/// The change turned round: what it finds becomes what it leaves. Its bytes are not copied.
pub fn turned(change: Change) -> Change
    ensures { result ≡ reversed change }
{
    match change {
        Change::Insert {
            relation,
            tid,
            values,
        } => Change::Delete {
            relation,
            tid,
            values,
        },
        Change::Delete {
            relation,
            tid,
            values,
        } => Change::Insert {
            relation,
            tid,
            values,
        },
        Change::Update {
            relation,
            tid,
            from,
            to,
        } => Change::Update {
            relation,
            tid,
            from: to,
            to: from,
        },
        Change::Connect {
            link,
            parent,
            child,
            left,
        } => Change::Disconnect {
            link,
            parent,
            child,
            left,
        },
        Change::Disconnect {
            link,
            parent,
            child,
            left,
        } => Change::Connect {
            link,
            parent,
            child,
            left,
        },
    }
}

/// Whether a change finds what it tells: its relation or link is defined, the bytes are those of
/// values, and its tuple or chain stands as it tells. It takes no memory.
pub fn finds<P: Pages>(
    draft: &Draft,
    tuples: &mut Store<P>,
    catalog: &Catalog,
    change: &Change,
) -> Result<bool, PageFault>
    requires { CanAlter (both (P.view tuples.old.pages) catalog.now) }
    ensures finds { IfOk result (λ found. SoNow (both (P.view tuples.old.pages) catalog.now)
        (said draft.now)
        (λ tables. IsTrue found ↔ IsFound catalog.now.listing change.now tables)) }
    ensures did { PagesCall no_page 16 16
        (P.view tuples.old.pages) (P.view tuples.new.pages) result }
{
    match change {
        Change::Insert {
            relation,
            tid,
            values,
        } => {
            let to = Some(values.as_slice());
            finds_tuple(draft, tuples, catalog, *relation, *tid, None, to)
        }
        Change::Delete {
            relation,
            tid,
            values,
        } => {
            let from = Some(values.as_slice());
            finds_tuple(draft, tuples, catalog, *relation, *tid, from, None)
        }
        Change::Update {
            relation,
            tid,
            from,
            to,
        } => {
            let from = Some(from.as_slice());
            let to = Some(to.as_slice());
            finds_tuple(draft, tuples, catalog, *relation, *tid, from, to)
        }
        Change::Connect {
            link,
            parent,
            child,
            left,
        } => {
            let membership = Membership {
                link: *link,
                parent: *parent,
                child: *child,
                left: *left,
            };
            finds_gap(draft, tuples, catalog, membership)
        }
        Change::Disconnect {
            link,
            parent,
            child,
            left,
        } => {
            let membership = Membership {
                link: *link,
                parent: *parent,
                child: *child,
                left: *left,
            };
            finds_place(draft, tuples, catalog, membership)
        }
    }
}

/// Whether a tuple has the values of the first bytes, or there is none if none are given, and the
/// other bytes are those of values that it may have.
fn finds_tuple<P: Pages>(
    draft: &Draft,
    tuples: &mut Store<P>,
    catalog: &Catalog,
    number: u8,
    tid: Tid,
    from: Option<&[u8]>,
    to: Option<&[u8]>,
) -> Result<bool, PageFault>
    requires { CanAlter (both (P.view tuples.old.pages) catalog.now) }
    ensures finds { IfOk result (λ found. SoNow (both (P.view tuples.old.pages) catalog.now)
        (said draft.now) (λ tables. IsTrue found ↔ HoldsTuple catalog.now.listing tables number tid
        (option_copied from.entry) (option_copied to.entry))) }
    ensures did { PagesCall no_page 2 2 (P.view tuples.old.pages) (P.view tuples.new.pages) result }
{
    if !catalog.used(Kind::Relation, number) {
        return Ok(false);
    }
    if !are_values(catalog.relation(number).fields.as_slice(), to) {
        return Ok(false);
    }
    is_tuple_now(draft, tuples, catalog, number, tid, from)
}

/// Whether bytes, if some are given, are those of values of these fields.
fn are_values(fields: &[FieldDef], bytes: Option<&[u8]>) -> bool
    ensures { IsTrue result ↔ IfSome (option_copied bytes.entry) (SpellsSome (kinds fields.now)) }
{
    match bytes {
        Some(bytes) => spells(fields, bytes),
        None => true,
    }
}

/// Whether a tuple can come into a chain there.
fn finds_gap<P: Pages>(
    draft: &Draft,
    tuples: &mut Store<P>,
    catalog: &Catalog,
    membership: Membership,
) -> Result<bool, PageFault>
    requires { CanAlter (both (P.view tuples.old.pages) catalog.now) }
    ensures finds { IfOk result (λ found. SoNow (both (P.view tuples.old.pages) catalog.now)
        (said draft.now) (λ tables. IsTrue found
        ↔ HoldsChain catalog.now.listing tables membership.link membership.parent
        (HasGap membership.child membership.left))) }
    ensures did { PagesCall no_page 16 16
        (P.view tuples.old.pages) (P.view tuples.new.pages) result }
{
    if !has_form(catalog, membership) {
        return Ok(false);
    }
    has_gap_now(draft, tuples, catalog, membership)
}

/// Whether a tuple stands in a chain there.
fn finds_place<P: Pages>(
    draft: &Draft,
    tuples: &mut Store<P>,
    catalog: &Catalog,
    membership: Membership,
) -> Result<bool, PageFault>
    requires { CanAlter (both (P.view tuples.old.pages) catalog.now) }
    ensures finds { IfOk result (λ found. SoNow (both (P.view tuples.old.pages) catalog.now)
        (said draft.now) (λ tables. IsTrue found
        ↔ HoldsChain catalog.now.listing tables membership.link membership.parent
        (StandsBehind membership.child membership.left))) }
    ensures did { PagesCall no_page 16 16
        (P.view tuples.old.pages) (P.view tuples.new.pages) result }
{
    if !has_form(catalog, membership) {
        return Ok(false);
    }
    stands_behind_now(draft, tuples, catalog, membership)
}

/// Whether a link is listed, and has parents exactly if one is given.
fn has_form(catalog: &Catalog, membership: Membership) -> bool
    ensures { IsTrue result
        ↔ HasLinkOfForm catalog.now.listing membership.link membership.parent }
{
    if !catalog.used(Kind::Link, membership.link) {
        return false;
    }
    catalog.link(membership.link).parent.is_some() == membership.parent.is_some()
}
