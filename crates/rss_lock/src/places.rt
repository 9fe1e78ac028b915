// The places of transactions, and the modes that they have on an item.
ghost use Rattle.std.specs.Prelude.{◌≡◌, ◌≢◌, ◌<◌, ◌≤◌, ◌↔◌, ℕ, Some, None, IfSome, IfNone, slice_index_or};
ghost use Rattle.std.specs.List.{list_any};
ghost use Rattle.std.specs.Prelude.{◌+◌, ◌^◌, false, true, is_none, option_copied};
ghost use Rattle.std.specs.Prelude.{IsTrue, replicate, slice_set};
ghost use Rattle.rss_base.specs.declared.tid.Tid.{Tid as TupleId};
ghost use Rattle.rss_lock.specs.Table.{AreAllOf, BarsTid, DisagreesAt, DisagreesIn, HasRoomFor, IsLeastOf};
ghost use Rattle.rss_lock.specs.Table.{Places, current_modes, is_held, is_of, lesser, modes_on};

use crate::modes::disagree;
use rss_base::{Item, MARKS_MOST, Mode, Name, Tid};

/// How many transactions may hold locks at a time: as many as may be open.
pub const HOLDERS_MOST: usize = MARKS_MOST;

/// A transaction that has locks.
#[derive(Clone, Copy)]
pub(crate) struct Holder {
    pub(crate) transaction: u32,
    /// The number of its first lock, among the first locks of all holders.
    pub(crate) since: u64,
}

/// The transactions that have locks, each in a place of its own.
#[derive(Clone, Copy)]
pub(crate) struct Holders {
    pub(crate) places: [Option<Holder>; HOLDERS_MOST],
    /// No place is in use from this one on.
    end: usize,
    ghost few: { end ≤ 32 },
    ghost free: { (place : ℕ) → end ≤ place → slice_index_or places place None ≡ None },
}

/// Who holds an item: the mode of the transaction in each place. It counts if that transaction had
/// its place when the item was last granted, and otherwise is a lock that was released.
#[derive(Clone, Copy)]
pub(crate) struct Grants {
    pub(crate) modes: [Option<Mode>; HOLDERS_MOST],
    /// How many first locks there had been by then.
    pub(crate) as_of: u64,
}

/// How many bytes an item takes in the table, with its grants.
const _: () = prove!(size_of::<Item>() + size_of::<Grants>() == 120);

impl Holders {
    /// No place is in use.
    pub(crate) fn none() -> Self
        ensures { result.places ≡ replicate 32 None }
    {
        Holders {
            places: [None; HOLDERS_MOST],
            end: 0,
        }
    }

    /// The place of a transaction.
    pub(crate) fn place_of(&self, transaction: u32) -> Option<usize>
        ensures some { IfSome result (λ place.
            is_of transaction (slice_index_or self.now.places place None) ≡ true) }
        ensures within { IfSome result (λ place. place < 32) }
        ensures none { IfNone result (list_any (is_of transaction) self.now.places ≡ false) }
    {
        for place in 0..self.end {
            if let Some(holder) = self.places[place]
                && holder.transaction == transaction
            {
                return Some(place);
            }
        }
        None
    }

    /// Whether each place that is in use is this transaction's.
    pub(crate) fn are_all_of(&self, transaction: u32) -> bool
        ensures { IsTrue result ↔ AreAllOf transaction self.now.places }
    {
        for place in 0..self.end {
            if let Some(holder) = self.places[place]
                && holder.transaction != transaction
            {
                return false;
            }
        }
        true
    }

    /// The place of a transaction, which gets one if it has none.
    pub(crate) fn place_for(&mut self, firsts: &mut u64, transaction: u32) -> usize
        requires few { HasRoomFor transaction self.old.places }
        requires more { firsts.old + 1 < 2 ^ 64 }
        ensures within { result < 32 }
        ensures place { Places transaction self.old.places firsts.old self.new.places firsts.new
            result }
    {
        if let Some(place) = self.place_of(transaction) {
            return place;
        }
        let place = free_place(&self.places);
        *firsts += 1;
        let holder = Holder {
            transaction,
            since: *firsts,
        };
        self.set(place, Some(holder));
        place
    }

    /// Puts this at a place.
    pub(crate) fn set(&mut self, place: usize, holder: Option<Holder>)
        requires { place < 32 }
        ensures { self.new.places ≡ slice_set self.old.places place holder }
    {
        self.places[place] = holder;
        self.end = end_of(&self.places);
    }
}

/// The end of the places that are in use.
fn end_of(places: &[Option<Holder>; HOLDERS_MOST]) -> usize
    ensures few { result ≤ 32 }
    ensures free { (place : ℕ) → result ≤ place → slice_index_or places.now place None ≡ None }
{
    match places.iter().rposition(|holder| holder.is_some()) {
        Some(place) => place + 1,
        None => 0,
    }
}

fn free_place(places: &[Option<Holder>; HOLDERS_MOST]) -> usize
    requires { list_any is_none places.now ≡ true }
    ensures within { result < 32 }
    ensures free { slice_index_or places.now result None ≡ None }
{
    for (place, holder) in places.iter().enumerate() {
        if holder.is_none() {
            return place;
        }
    }
    unreachable!()
}

/// The modes that count.
pub(crate) fn current(holders: &Holders, grants: &Grants) -> [Option<Mode>; HOLDERS_MOST]
    ensures { result ≡ current_modes holders.now.places grants.now.as_of grants.now.modes }
{
    let mut modes = [None; HOLDERS_MOST];
    for place in 0..holders.end {
        if let Some(holder) = holders.places[place]
            && holder.since <= grants.as_of
        {
            modes[place] = grants.modes[place];
        }
    }
    modes
}

/// The modes that count on an item of which nothing may be known.
pub(crate) fn modes_on(holders: &Holders, grants: Option<&Grants>) -> [Option<Mode>; HOLDERS_MOST]
    ensures { result ≡ modes_on holders.now.places (option_copied grants.entry) }
{
    match grants {
        Some(grants) => current(holders, grants),
        None => [None; HOLDERS_MOST],
    }
}

/// Whether a mode counts.
pub(crate) fn is_held(holders: &Holders, grants: &Grants) -> bool
    ensures { result ≡ is_held holders.now.places grants.now }
{
    current(holders, grants).iter().any(|mode| mode.is_some())
}

/// The identifier of an item, if it is a tuple of one of these relations that a transaction other
/// than this one holds.
pub(crate) fn barred_tid(
    holders: &Holders,
    transaction: u32,
    relations: &[Name],
    item: &Item,
    grants: &Grants,
) -> Option<Tid>
    ensures { (tid : TupleId) → result ≡ Some tid
        ↔ BarsTid holders.now.places transaction relations.now item.now grants.now tid }
{
    let Item::Tuple(relation, tid) = item else {
        return None;
    };
    if !relations.contains(relation) {
        return None;
    }
    // X disagrees with every mode.
    let modes = current(holders, grants);
    least_disagreeing(holders, &modes, Mode::X, Some(transaction))?;
    Some(*tid)
}

/// The least transaction other than `besides` whose mode disagrees.
pub(crate) fn least_disagreeing(
    holders: &Holders,
    modes: &[Option<Mode>; HOLDERS_MOST],
    mode: Mode,
    besides: Option<u32>,
) -> Option<u32>
    ensures { IsLeastOf (DisagreesIn holders.now.places modes.now mode besides 32) result }
{
    let mut least = None;
    for place in 0..holders.end {
        if let Some(transaction) = disagreeing(holders.places[place], modes[place], mode, besides) {
            least = Some(lesser(least, transaction));
        }
    }
    least
}

/// The transaction of a place, if its mode disagrees and it isn't `besides`.
fn disagreeing(
    holder: Option<Holder>,
    held: Option<Mode>,
    mode: Mode,
    besides: Option<u32>,
) -> Option<u32>
    ensures { (t : ℕ) → result ≡ Some t ↔ DisagreesAt holder held mode besides t }
{
    let transaction = holder?.transaction;
    if Some(transaction) == besides || !disagree(held?, mode) {
        None
    } else {
        Some(transaction)
    }
}

fn lesser(least: Option<u32>, transaction: u32) -> u32
    ensures { result ≡ lesser least transaction }
{
    match least {
        Some(least) => least.min(transaction),
        None => transaction,
    }
}
