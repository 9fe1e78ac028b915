// What calls are refused for, test by test.
ghost use Rattle.std.specs.Prelude.{◌≡◌, ◌+◌, count_by, nat_le, option_copied};
ghost use Rattle.rss_model.specs.Changes.{is_delete_of};
ghost use Rattle.rss_model.specs.Chains.{has_spot};
ghost use Rattle.rss_model.specs.Defining.{refused_if, refused_unless};
ghost use Rattle.rss_model.specs.Fits.{tuple_limit};
ghost use Rattle.rss_model.specs.Scans.{scan_of};
ghost use Rattle.rss_model.specs.Tables.{fields_of};
ghost use Rattle.rss_model.specs.Refusals.{has_form, if_scans_used_up, if_used_up, misfit_of};
ghost use Rattle.rss_model.specs.Refusals.{saves_of, unless_child, unless_defined, unless_granule, unless_in_chain};
ghost use Rattle.rss_model.specs.Refusals.{unless_link_form, unless_live, unless_lost, unless_open};
ghost use Rattle.rss_model.specs.Refusals.{unless_parent, unless_saved, unless_scan, unless_spot};
ghost use Rattle.rss_plain.specs.Tests.{if_open, if_too_many, unless_link};
ghost use Rattle.rss_plain.specs.View.{machine};

use crate::contents::count_in;
use crate::definitions::Link;
use crate::places::stands_in;
use crate::plain::Plain;
use crate::scans::{Along, Scan};
use rss_base::{Item, Kind, LimitKind, MARKS_MOST, Name, Refusal, Spot, Tid, Tuple};
use rss_value::fits;

/// How many scans may be open at a time.
const SCANS_MOST: usize = 256;

/// How many tuples a relation may have.
const TUPLES_MOST: usize = 1 << 20;

pub(crate) fn refused_unless(holds: bool, why: Refusal) -> Option<Refusal>
    ensures { result ≡ refused_unless holds why }
{
    if holds { None } else { Some(why) }
}

pub(crate) fn refused_if(holds: bool, why: Refusal) -> Option<Refusal>
    ensures { result ≡ refused_if holds why }
{
    if holds { Some(why) } else { None }
}

/// Whether a parent is given exactly if the link has parents.
fn has_form(link: Option<&Link>, given: bool) -> bool
    ensures { result ≡ has_form (option_copied link.entry) given }
{
    match link {
        Some(link) => link.parent().is_some() == given,
        None => false,
    }
}

/// Whether there are as many tuples as may be, with those that were deleted.
fn is_used_up(live: usize, deleted: usize) -> bool
    ensures { result ≡ nat_le tuple_limit (live + deleted) }
{
    if live < TUPLES_MOST && deleted < TUPLES_MOST - live {
        return false;
    }
    true
}

fn has_spot(spot: Spot, tids: &[Tid]) -> bool
    ensures { result ≡ has_spot spot tids.now }
{
    match spot {
        Spot::First | Spot::Last => true,
        Spot::After(tid) => stands_in(tid, tids),
    }
}

impl Plain {
    // ---- transactions

    pub(crate) fn unless_open(&self, t: u32) -> Option<Refusal>
        ensures { result ≡ unless_open (machine self.now) t }
    {
        refused_unless(self.is_open(t), Refusal::NoTransaction)
    }

    pub(crate) fn if_open(&self, t: u32) -> Option<Refusal>
        ensures { result ≡ if_open (machine self.now) t }
    {
        refused_if(self.is_open(t), Refusal::AlreadyOpen)
    }

    pub(crate) fn if_too_many(&self) -> Option<Refusal>
        ensures { result ≡ if_too_many (machine self.now) }
    {
        refused_if(self.marks.len() >= MARKS_MOST, Refusal::TooMany)
    }

    pub(crate) fn unless_saved(&self, t: u32, save: u32) -> Option<Refusal>
        ensures { result ≡ unless_saved (machine self.now) t save }
    {
        refused_unless(save as usize <= self.saves_of(t), Refusal::NoSave)
    }

    /// How many save points a transaction has.
    pub(crate) fn saves_of(&self, t: u32) -> usize
        ensures { result ≡ saves_of (machine self.now) t }
    {
        match self.marks.get(&t) {
            Some(saves) => saves.len(),
            None => 0,
        }
    }

    // ---- tuples

    pub(crate) fn unless_defined(&self, relation: &Name) -> Option<Refusal>
        ensures { result ≡ unless_defined (machine self.now) relation.now }
    {
        refused_unless(
            self.definitions.relations.has(relation),
            Refusal::NoSuch(Kind::Relation),
        )
    }

    /// The first value of a tuple that doesn't fit the fields of its relation.
    pub(crate) fn misfit_of(&self, relation: &Name, tuple: &Tuple) -> Option<Refusal>
        ensures { result
            ≡ misfit_of (fields_of (machine self.now).base relation.now) tuple.now }
    {
        match fits(self.relation(relation)?.fields(), tuple) {
            Ok(()) => None,
            Err(number) => Some(Refusal::BadTuple(number)),
        }
    }

    pub(crate) fn if_used_up(&self, relation: &Name) -> Option<Refusal>
        ensures { result ≡ if_used_up (machine self.now) relation.now }
    {
        let live = count_in(self.entries(), relation);
        let deleted = self.deleted(relation);
        refused_if(is_used_up(live, deleted), Refusal::Limit(LimitKind::Tuples))
    }

    /// How many of its tuples an open transaction deleted.
    fn deleted(&self, relation: &Name) -> usize
        ensures { result ≡ count_by (is_delete_of relation.now) (machine self.now).changes }
    {
        self.items
            .changes()
            .iter()
            .filter(|change| change.is_delete_of(relation))
            .count()
    }

    pub(crate) fn unless_live(&self, relation: Name, tid: Tid) -> Option<Refusal>
        ensures { result ≡ unless_live (machine self.now) relation tid }
    {
        refused_unless(self.is_live(relation, tid), Refusal::NoTuple(relation, tid))
    }

    /// The segment or the relation that is to be locked is defined.
    pub(crate) fn unless_granule(&self, item: &Item) -> Option<Refusal>
        ensures { result ≡ unless_granule (machine self.now) item.now }
    {
        match item {
            Item::Segment(name) => refused_unless(
                self.definitions.segments.has(name),
                Refusal::NoSuch(Kind::Segment),
            ),
            Item::Relation(name) => refused_unless(
                self.definitions.relations.has(name),
                Refusal::NoSuch(Kind::Relation),
            ),
            _ => None,
        }
    }

    // ---- links

    pub(crate) fn unless_link(&self, link: &Name) -> Option<Refusal>
        ensures { result ≡ unless_link (machine self.now) link.now }
    {
        refused_unless(
            self.definitions.links.has(link),
            Refusal::NoSuch(Kind::Link),
        )
    }

    pub(crate) fn unless_link_form(&self, link: &Name, given: bool) -> Option<Refusal>
        ensures { result ≡ unless_link_form (machine self.now) link.now given }
    {
        refused_unless(
            has_form(self.link(link), given),
            Refusal::NoSuch(Kind::Link),
        )
    }

    pub(crate) fn unless_child(&self, link: Option<&Link>, child: Tid) -> Option<Refusal>
        ensures { result ≡ unless_child (machine self.now) (option_copied link.entry) child }
    {
        match link {
            Some(link) => self.unless_live(link.child(), child),
            None => None,
        }
    }

    pub(crate) fn unless_parent(&self, link: Option<&Link>, parent: Option<Tid>) -> Option<Refusal>
        ensures { result ≡ unless_parent (machine self.now) (option_copied link.entry) parent }
    {
        match link {
            Some(link) => match (link.parent(), parent) {
                (Some(relation), Some(tid)) => self.unless_live(relation, tid),
                _ => None,
            },
            None => None,
        }
    }

    pub(crate) fn unless_spot(&self, link: Name, parent: Option<Tid>, spot: Spot) -> Option<Refusal>
        ensures { result ≡ unless_spot (machine self.now) link parent spot }
    {
        refused_unless(
            has_spot(spot, self.chain(link, parent)),
            Refusal::NotConnected(link),
        )
    }

    // ---- scans

    pub(crate) fn if_scans_used_up(&self) -> Option<Refusal>
        ensures { result ≡ if_scans_used_up (machine self.now) }
    {
        refused_if(
            self.scans.len() >= SCANS_MOST,
            Refusal::Limit(LimitKind::Scans),
        )
    }

    /// A scan by its number, if it is the transaction's.
    pub(crate) fn scan(&self, t: u32, number: u32) -> Option<&Scan>
        ensures { option_copied result ≡ scan_of (machine self.now).scans t number }
    {
        let scan = self.scans.get(&number)?;
        if scan.by == t { Some(scan) } else { None }
    }

    pub(crate) fn unless_scan(&self, t: u32, number: u32) -> Option<Refusal>
        ensures { result ≡ unless_scan (machine self.now) t number }
    {
        refused_unless(self.scan(t, number).is_some(), Refusal::NoSuch(Kind::Scan))
    }

    pub(crate) fn unless_lost(&self, t: u32, number: u32) -> Option<Refusal>
        ensures { result ≡ unless_lost (machine self.now) t number }
    {
        self.unless_in_chain(self.scan(t, number)?)
    }

    /// What a scan of a chain gave last is still there.
    fn unless_in_chain(&self, scan: &Scan) -> Option<Refusal>
        ensures { result ≡ unless_in_chain (machine self.now) scan.now.path scan.now.last }
    {
        match (&scan.along, &scan.last) {
            (Along::Link(link, parent), Some(given)) => refused_unless(
                stands_in(given.tid, self.chain(*link, *parent)),
                Refusal::NotConnected(*link),
            ),
            _ => None,
        }
    }
}
