// A change of a tuple or of a chain, whose bytes are lent.
ghost use Rattle.std.specs.Prelude.{◌≡◌, ◌≤◌, ◌+◌, ◌∷◌, ◌++◌, ℕ, List, true, length, None, IfSome, option_copied};
ghost use Rattle.rss_base.specs.Prefixes.{prefix_size};
ghost use Rattle.rss_members.specs.Members.{blank_prefix, front_most};
ghost use Rattle.rss_access.specs.Told.{ReverseMeans, MayBecome, MayCount, values_before, values_after, reversed, count_after};
ghost use Rattle.rss_access.specs.Edits.{told_of, told_by, values_lent};
ghost use Rattle.rss_access.specs.Alterations.{told_as, BeginsWith, IsFront, IsFound, IsNotFound};

use rss_base::{Change, FieldDef, PAGE_ENTRIES, Tid};
use rss_catalog::Catalog;
use rss_members::{FRONT_BYTES, Front, Membership, prefix_len, push_blank_prefix};
use rss_value::spells;

/// How many tuples a relation has at most.
pub const TUPLES_MOST: u32 = 1 << 20;

/// What becomes of a tuple, with the bytes of its values.
#[derive(Clone, Copy)]
pub(crate) enum Edit<'a> {
    Insert(&'a [u8]),
    Delete(&'a [u8]),
    Update { from: &'a [u8], to: &'a [u8] },
}

/// A change of a tuple of a relation.
#[derive(Clone, Copy)]
pub(crate) struct TupleChange<'a> {
    pub(crate) number: u8,
    pub(crate) tid: Tid,
    pub(crate) edit: Edit<'a>,
}

/// A change of a tuple or of a chain.
#[derive(Clone, Copy)]
pub(crate) enum Alteration<'a> {
    Tuple(TupleChange<'a>),
    Connect(Membership),
    Disconnect(Membership),
}

impl<'a> TupleChange<'a> {
    /// The change turned round: what it finds becomes what it leaves.
    pub(crate) fn reversed(self) -> Self
        ensures is { told_by result ≡ reversed (told_by self.entry) }
        ensures means { ReverseMeans (told_by self.entry) (told_by result) }
    {
        let edit = match self.edit {
            Edit::Insert(values) => Edit::Delete(values),
            Edit::Delete(values) => Edit::Insert(values),
            Edit::Update { from, to } => Edit::Update { from: to, to: from },
        };
        TupleChange {
            number: self.number,
            tid: self.tid,
            edit,
        }
    }

    /// The bytes of the tuple's values before the change, if there is one then.
    pub(crate) fn was(self) -> Option<&'a [u8]>
        ensures { values_before (told_by self.entry) ≡ values_lent result }
    {
        match self.edit {
            Edit::Insert(_) => None,
            Edit::Delete(values)
            | Edit::Update {
                from: values,
                to: _,
            } => Some(values),
        }
    }

    /// And after it.
    pub(crate) fn next(self) -> Option<&'a [u8]>
        ensures { values_after (told_by self.entry) ≡ values_lent result }
    {
        match self.edit {
            Edit::Delete(_) => None,
            Edit::Insert(values)
            | Edit::Update {
                from: _,
                to: values,
            } => Some(values),
        }
    }

    /// Whether a tuple of a relation with these fields, in a store of so many slots, may have this
    /// identifier and these values, and leaves room for them.
    pub(crate) fn may_become(self, slots: u32, catalog: &Catalog, fields: &[FieldDef]) -> bool
        ensures yes { result ≡ true
            → MayBecome slots catalog.now.listing fields.now (told_by self.entry) }
        ensures no { MayBecome slots catalog.now.listing fields.now (told_by self.entry)
            → result ≡ true }
    {
        if self.tid.page >= slots
            || usize::from(self.tid.slot) >= PAGE_ENTRIES
            || prefix_len(catalog, self.number) >= FRONT_BYTES
        {
            return false;
        }
        match self.edit {
            Edit::Insert(values) | Edit::Delete(values) => spells(fields, values),
            Edit::Update { from, to } => spells(fields, from) && spells(fields, to),
        }
    }

    /// What stands before the values in the tuple's body, if there is a tuple. None if the tuple
    /// isn't as the change finds it.
    pub(crate) fn front_in(self, catalog: &Catalog, body: Option<&[u8]>) -> Option<Front>
        requires { 1 + prefix_size catalog.now.listing.links self.number ≤ front_most }
        ensures front { IfSome result (IsFront catalog.now.listing (told_by self.entry)) }
        ensures some { IfSome result (IsFound (told_by self.entry) (option_copied body.entry)) }
        ensures none { result ≡ None
            → IsNotFound catalog.now.listing (told_by self.entry) (option_copied body.entry) }
    {
        let Some(bytes) = body else {
            return self.front_of_new(catalog);
        };
        match self.edit {
            Edit::Insert(_) => None,
            Edit::Delete(values) => gone_front(catalog, self.number, bytes, values),
            Edit::Update { from, to: _ } => kept_front(catalog, self.number, bytes, from),
        }
    }

    /// The same if there is no tuple.
    fn front_of_new(self, catalog: &Catalog) -> Option<Front>
        requires { 1 + prefix_size catalog.now.listing.links self.number ≤ front_most }
        ensures front { IfSome result (IsFront catalog.now.listing (told_by self.entry)) }
        ensures some { IfSome result (IsFound (told_by self.entry) None) }
        ensures none { result ≡ None
            → IsNotFound catalog.now.listing (told_by self.entry) None }
    {
        match self.edit {
            Edit::Insert(_) => Some(blank_front(catalog, self.number)),
            Edit::Delete(_) | Edit::Update { .. } => None,
        }
    }

    /// How many tuples the relation has afterwards, if it has so many before.
    pub(crate) fn count(self, live: u32) -> Option<u32>
        ensures some { IfSome result (λ count. count ≡ count_after (told_by self.entry) live) }
        ensures may { IfSome result (λ _. MayCount (told_by self.entry) live) }
        ensures none { result ≡ None → MayCount (told_by self.entry) live → ⊥ }
    {
        match self.edit {
            Edit::Insert(_) if live < TUPLES_MOST => Some(live + 1),
            Edit::Insert(_) => None,
            Edit::Delete(_) => live.checked_sub(1),
            Edit::Update { .. } => Some(live),
        }
    }
}

/// What stands before the values of a tuple of the relation `number` that is in no chain and has
/// none.
fn blank_front(catalog: &Catalog, number: u8) -> Front
    requires { 1 + prefix_size catalog.now.listing.links number ≤ front_most }
    ensures { result ≡ number ∷ blank_prefix catalog.now.listing number }
{
    let mut front = Front::new();
    front.push(number);
    push_blank_prefix(catalog, number, &mut front);
    front
}

/// What stands before these values in a body, if it is that of such a tuple.
fn gone_front(catalog: &Catalog, number: u8, body: &[u8], values: &[u8]) -> Option<Front>
    requires { 1 + prefix_size catalog.now.listing.links number ≤ front_most }
    ensures some { IfSome result (λ front. (front ≡ number ∷ blank_prefix catalog.now.listing number)
        × (body.now ≡ front ++ values.now)) }
    ensures none { result ≡ None
        → body.now ≡ (number ∷ blank_prefix catalog.now.listing number) ++ values.now → ⊥ }
{
    let front = blank_front(catalog, number);
    match body.strip_prefix(front.as_slice()) {
        Some(rest) if rest == values => Some(front),
        _ => None,
    }
}

/// What stands before these values in the body of a tuple of the relation `number`.
fn kept_front(catalog: &Catalog, number: u8, body: &[u8], values: &[u8]) -> Option<Front>
    requires { 1 + prefix_size catalog.now.listing.links number ≤ front_most }
    ensures some { IfSome result
        (λ front. BeginsWith catalog.now.listing number front × (body.now ≡ front ++ values.now)) }
    ensures none { result ≡ None → (front : List ℕ) → BeginsWith catalog.now.listing number front
        → body.now ≡ front ++ values.now → ⊥ }
{
    match body.strip_suffix(values) {
        Some(kept) if begins_with(catalog, number, kept) => {
            let mut front = Front::new();
            front.extend_from_slice(kept);
            Some(front)
        }
        _ => None,
    }
}

/// Whether these are a relation's number and as many bytes as its tuples have for links.
fn begins_with(catalog: &Catalog, number: u8, front: &[u8]) -> bool
    ensures yes { result ≡ true → BeginsWith catalog.now.listing number front.now }
    ensures no { BeginsWith catalog.now.listing number front.now → result ≡ true }
{
    match front.split_first() {
        Some((first, rest)) => *first == number && rest.len() == prefix_len(catalog, number),
        None => false,
    }
}

impl<'a> Alteration<'a> {
    /// A change of a tuple.
    fn tuple(number: u8, tid: Tid, edit: Edit<'a>) -> Self
        ensures { told_as result ≡ told_of number tid edit.entry }
    {
        Alteration::Tuple(TupleChange { number, tid, edit })
    }

    /// The change that a record tells.
    pub(crate) fn of(change: &'a Change) -> Self
        ensures { told_as result ≡ change.now }
    {
        match change {
            Change::Insert {
                relation,
                tid,
                values,
            } => Self::tuple(*relation, *tid, Edit::Insert(values.as_slice())),
            Change::Delete {
                relation,
                tid,
                values,
            } => Self::tuple(*relation, *tid, Edit::Delete(values.as_slice())),
            Change::Update {
                relation,
                tid,
                from,
                to,
            } => Self::tuple(
                *relation,
                *tid,
                Edit::Update {
                    from: from.as_slice(),
                    to: to.as_slice(),
                },
            ),
            Change::Connect {
                link,
                parent,
                child,
                left,
            } => Alteration::Connect(Membership {
                link: *link,
                parent: *parent,
                child: *child,
                left: *left,
            }),
            Change::Disconnect {
                link,
                parent,
                child,
                left,
            } => Alteration::Disconnect(Membership {
                link: *link,
                parent: *parent,
                child: *child,
                left: *left,
            }),
        }
    }

    /// The change turned round: what it finds becomes what it leaves.
    pub(crate) fn reversed(self) -> Self
        ensures is { told_as result ≡ reversed (told_as self.entry) }
        ensures means { ReverseMeans (told_as self.entry) (told_as result) }
    {
        match self {
            Alteration::Tuple(change) => Alteration::Tuple(change.reversed()),
            Alteration::Connect(membership) => Alteration::Disconnect(membership),
            Alteration::Disconnect(membership) => Alteration::Connect(membership),
        }
    }
}
