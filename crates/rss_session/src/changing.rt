// Changes of tuples and of chains.
ghost use Rattle.std.specs.Prelude.{◌≡◌, ◌+◌, ◌≤◌, ℕ, length, true, false, Option, Ok, Err, IfErr, OnOk, OnErr};
ghost use Rattle.rss_base.specs.DiskRule.{IsTold};
ghost use Rattle.rss_base.specs.LogRecords.{record_size, longest_record, IsChangeBounded};
ghost use Rattle.rss_base.specs.Sizes.{largest_checkpoint};
ghost use Rattle.rss_base.specs.declared.log_record.LogRecord.TheVariants as records;
ghost use Rattle.rss_base.specs.declared.fault.PageFault.TheVariants.{Damaged};
ghost use Rattle.rss_base.specs.declared.place.Place.{Place as AnyPlace};
ghost use Rattle.rss_trans.specs.Transactions.{is_open};
ghost use Rattle.rss_session.specs.Changes.{is_delete_told, relation_told};
ghost use Rattle.rss_session.specs.Sessions.{IsReady, IsEarly};
ghost use Rattle.rss_session.specs.Weighing.{weighed, RulesSo};
ghost use Rattle.rss_session.specs.Calls.{ChecksOn, GoesOn, NoMoreSaves, StayOpen, StaysListed, Appends, KeepsTables, Makes, MayNotMake};
ghost use Rattle.rss_session.specs.Shown.{Shows};
ghost use Rattle.rss_model.specs.Machine.{State};
ghost use Rattle.rss_model.specs.ReplyText.{IsShort};

use crate::Session;
use rss_base::{Body, Change, PageFault, Refusal};
use rss_buffer::Saving;
use std::alloc::AllocError;

/// How many bytes the record of a tuple's change has, up to its values.
const TUPLE_BYTES: u64 = 12;

/// How many bytes that of a chain's change has.
const CHAIN_BYTES: u64 = 24;

impl<S: Saving> Session<S> {
    ghost use Rattle.rss_session.specs.Parts.{view};

    /// What comes of a change of a transaction by the rules on room and on the log: whether a
    /// checkpoint comes before it, or why it is refused.
    pub fn weigh_change(&self, transaction: u32, change: &Change) -> Result<bool, Refusal>
        requires ready { IsReady (view S.view self.now) }
        requires open { is_open (view S.view self.now).opened transaction ≡ true }
        requires bounded { IsChangeBounded change.now }
        requires early { IsEarly (view S.view self.now) longest_record }
        ensures weighed { result ≡ weighed (view S.view self.now) transaction (relation_told change.now)
            (record_size (records.Change transaction change.now)) }
        ensures rules { RulesSo (view S.view self.now) transaction (relation_told change.now)
            (record_size (records.Change transaction change.now)) result }
        ensures short { IfErr result (λ why. IsShort (Err why)) }
    {
        self.weigh(transaction, relation_of(change), record_size(change))
    }

    /// Takes the memory that one change more of a transaction will need.
    pub fn reserve(&mut self, transaction: u32) -> Result<(), AllocError>
        requires ready { IsReady (view S.view self.old) }
        requires open { is_open (view S.view self.old).opened transaction ≡ true }
        ensures ready { IsReady (view S.view self.new) }
        ensures place { OnOk result (1 ≤ (view S.view self.new).opened.room transaction) }
        ensures stay { StayOpen (view S.view self.old) (view S.view self.new) }
        ensures shows { (state : State) → Shows (view S.view self.old) state
            → Shows (view S.view self.new) state }
        ensures weighs { (number : Option ℕ) (size : ℕ)
            → weighed (view S.view self.new) transaction number size
            ≡ weighed (view S.view self.old) transaction number size }
        ensures saves { NoMoreSaves (view S.view self.old) (view S.view self.new) }
        ensures store { self.new.store ≡ self.old.store }
    {
        self.open.reserve(transaction)
    }

    /// Makes a change of a tuple or of a chain, after a checkpoint if the rules ask for one, as
    /// `weigh_change` says. It takes no memory but what `reserve` took.
    ///
    /// If the tuple or the chain isn't as the change tells it, which no device shows that tells its
    /// contents, the fault is `Damaged`.
    pub fn make(
        &mut self,
        transaction: u32,
        change: Change,
        saves_first: bool,
    ) -> Result<(), PageFault>
        requires ready { IsReady (view S.view self.old) }
        requires open { is_open (view S.view self.old).opened transaction ≡ true }
        requires place { 1 ≤ (view S.view self.old).opened.room transaction }
        requires bounded { IsChangeBounded change }
        requires weighed { weighed (view S.view self.old) transaction (relation_told change)
            (record_size (records.Change transaction change)) ≡ Ok saves_first }
        requires early { IsEarly (view S.view self.old) (longest_record + largest_checkpoint) }
        ensures ready { OnOk result (IsReady (view S.view self.new)) }
        ensures makes { OnOk result (IsTold (view S.view self.old).store.pages.disk
            → Makes (view S.view self.old) (view S.view self.new) transaction change) }
        ensures sound { (place : AnyPlace) → result ≡ Err (Damaged place)
            → IsTold (view S.view self.old).store.pages.disk
            → MayNotMake (view S.view self.old) transaction change }
        ensures moments { KeepsTables (view S.view self.old) (view S.view self.new) }
        ensures stay { OnOk result (StayOpen (view S.view self.old) (view S.view self.new)) }
        ensures listed { OnOk result (StaysListed (view S.view self.old) (view S.view self.new)) }
        ensures appends { Appends (longest_record + largest_checkpoint)
            (view S.view self.old) (view S.view self.new) }
        ensures goes { ChecksOn (view S.view self.old) (view S.view self.new) result }
    {
        if !saves_first {
            return self.change(transaction, change);
        }
        self.checkpoint()?;
        self.change(transaction, change)
    }

    /// Makes a change that goes on as it is.
    fn change(&mut self, transaction: u32, change: Change) -> Result<(), PageFault>
        requires ready { IsReady (view S.view self.old) }
        requires open { is_open (view S.view self.old).opened transaction ≡ true }
        requires place { 1 ≤ (view S.view self.old).opened.room transaction }
        requires bounded { IsChangeBounded change }
        requires weighed { weighed (view S.view self.old) transaction (relation_told change)
            (record_size (records.Change transaction change)) ≡ Ok false }
        requires early { IsEarly (view S.view self.old) longest_record }
        ensures ready { OnOk result (IsReady (view S.view self.new)) }
        ensures makes { OnOk result (IsTold (view S.view self.old).store.pages.disk
            → Makes (view S.view self.old) (view S.view self.new) transaction change) }
        ensures sound { (place : AnyPlace) → result ≡ Err (Damaged place)
            → IsTold (view S.view self.old).store.pages.disk
            → MayNotMake (view S.view self.old) transaction change }
        ensures moments { KeepsTables (view S.view self.old) (view S.view self.new) }
        ensures stay { OnOk result (StayOpen (view S.view self.old) (view S.view self.new)) }
        ensures listed { OnOk result (StaysListed (view S.view self.old) (view S.view self.new)) }
        ensures appends { Appends longest_record (view S.view self.old) (view S.view self.new) }
        ensures goes { GoesOn (view S.view self.old) (view S.view self.new) result }
    {
        let relation = relation_of(&change);
        let is_delete = is_delete(&change);
        let position = self.store.change(transaction, change)?;
        self.open.note(transaction, position, relation, is_delete);
        Ok(())
    }
}

/// The number of the relation whose tuple is changed.
fn relation_of(change: &Change) -> Option<u8>
    ensures { result ≡ relation_told change.now }
{
    match change {
        Change::Insert { relation, .. }
        | Change::Delete { relation, .. }
        | Change::Update { relation, .. } => Some(*relation),
        Change::Connect { .. } | Change::Disconnect { .. } => None,
    }
}

/// Whether a tuple is taken away.
fn is_delete(change: &Change) -> bool
    ensures { result ≡ is_delete_told change.now }
{
    matches!(change, Change::Delete { .. })
}

/// How many bytes the record of a change has.
fn record_size(change: &Change) -> u64
    requires { IsChangeBounded change.now }
    ensures size { (by : ℕ) → result ≡ record_size (records.Change by change.now) }
    ensures short { result ≤ longest_record }
{
    match change {
        Change::Insert { values, .. } | Change::Delete { values, .. } => {
            TUPLE_BYTES + sized_bytes(values)
        }
        Change::Update { from, to, .. } => TUPLE_BYTES + sized_bytes(from) + sized_bytes(to),
        Change::Connect { .. } | Change::Disconnect { .. } => CHAIN_BYTES,
    }
}

/// How many bytes values take in a record, with their length.
fn sized_bytes(values: &Body) -> u64
    ensures { result ≡ length values.now + 2 }
{
    values.as_slice().len() as u64 + 2
}
