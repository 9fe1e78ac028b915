// What a call is refused for, by the tests that look neither at pages nor at room.
ghost use Rattle.std.specs.Prelude.{◌≡◌, ◌<◌, ◌≤◌, true, false, length};
ghost use Rattle.std.specs.Prelude.{is_some, Some, None, OnOk, IfOk};
ghost use Rattle.std.specs.FinMap.{empty, len};
ghost use Rattle.rss_base.specs.TupleTypes.{kinds, misfit};
ghost use Rattle.rss_base.specs.Listings.{relation_at, IsNumberOf};
ghost use Rattle.rss_base.specs.declared.call.Call.TheVariants.{Begin};
ghost use Rattle.rss_base.specs.declared.refusal.Kind.TheVariants.{Relation as RelationKind};
ghost use Rattle.rss_base.specs.declared.relation.RelationEntry.{RelationEntry as Entry};
ghost use Rattle.rss_model.specs.Defining.{IsGranule, if_any_open};
ghost use Rattle.rss_model.specs.Refusals.{unless_granule, unless_saved};
ghost use Rattle.rss_model.specs.Steps.{unless_open, admission, value_admission, if_used_up};
ghost use Rattle.rss_model.specs.Steps.{refusal};
ghost use Rattle.rss_trans.specs.Transactions.{is_open, transaction_in};
ghost use Rattle.rss_session.specs.Admissions.{IsGranuleOf, Tests};

use crate::Session;
use rss_access::TUPLES_MOST;
use rss_base::{Item, Kind, LimitKind, MARKS_MOST, Name, Refusal, Tuple};
use rss_buffer::Saving;
use rss_value::fits;

impl<S: Saving> Session<S> {
    ghost use Rattle.rss_session.specs.Parts.{view};

    // ---- transactions

    /// How many transactions are open.
    pub fn open_count(&self) -> u32
        ensures is { result ≡ len (view S.view self.now).opened.transactions }
        ensures most { result ≤ 32 }
    {
        self.open.count()
    }

    /// No transaction is open.
    pub fn test_rest(&self) -> Result<(), Refusal>
        ensures closed { OnOk result ((view S.view self.now).opened.transactions ≡ empty) }
        ensures tests { Tests (view S.view self.now) if_any_open result }
    {
        match self.open.least() {
            Some(open) => Err(Refusal::TransactionsOpen(open)),
            None => Ok(()),
        }
    }

    /// The transaction may begin. So many may be open as a checkpoint has marks for.
    pub fn test_begin(&self, transaction: u32) -> Result<(), Refusal>
        ensures closed { OnOk result (is_open (view S.view self.now).opened transaction ≡ false) }
        ensures few { OnOk result (len (view S.view self.now).opened.transactions < 32) }
        ensures tests { Tests (view S.view self.now) (λ state. refusal state (Begin transaction))
            result }
    {
        if self.open.is_open(transaction) {
            return Err(Refusal::AlreadyOpen);
        }
        if self.open.count() >= MARKS_MOST as u32 {
            return Err(Refusal::TooMany);
        }
        Ok(())
    }

    /// The transaction is open.
    pub fn test_open(&self, transaction: u32) -> Result<(), Refusal>
        ensures open { OnOk result (is_open (view S.view self.now).opened transaction ≡ true) }
        ensures tests { Tests (view S.view self.now) (λ state. unless_open state transaction) result }
    {
        if !self.open.is_open(transaction) {
            return Err(Refusal::NoTransaction);
        }
        Ok(())
    }

    /// The transaction has this save point, 0 being its begin.
    pub fn test_save(&self, transaction: u32, save: u32) -> Result<(), Refusal>
        requires { is_open (view S.view self.now).opened transaction ≡ true }
        ensures saved { OnOk result
            (save ≤ length (transaction_in (view S.view self.now).opened transaction).saves) }
        ensures tests { Tests (view S.view self.now) (λ state. unless_saved state transaction save)
            result }
    {
        if save > self.open.saves(transaction) {
            return Err(Refusal::NoSave);
        }
        Ok(())
    }

    // ---- locks

    /// What is to be locked, a segment or a relation, is there. Answers its number.
    pub fn test_granule(&self, item: &Item) -> Result<u8, Refusal>
        requires { IsGranule item.now }
        ensures known { IfOk result
            (IsGranuleOf (view S.view self.now).store.catalog.listing item.now) }
        ensures tests { Tests (view S.view self.now) (λ state. unless_granule state item.now) result }
    {
        let (kind, name) = match item {
            Item::Segment(name) => (Kind::Segment, name),
            Item::Relation(name) => (Kind::Relation, name),
            Item::Tuple(..) | Item::Chain(..) | Item::Key(..) => unreachable!(),
        };
        match self.store.catalog.find(kind, name) {
            Some(number) => Ok(number),
            None => Err(Refusal::NoSuch(kind)),
        }
    }

    // ---- tuples

    /// The transaction is open, and the relation is there. Answers its number.
    pub fn admit(&self, transaction: u32, relation: &Name) -> Result<u8, Refusal>
        ensures open { OnOk result (is_open (view S.view self.now).opened transaction ≡ true) }
        ensures known { IfOk result
            (IsNumberOf RelationKind (view S.view self.now).store.catalog.listing relation.now) }
        ensures tests { Tests (view S.view self.now)
            (λ state. admission state transaction relation.now) result }
    {
        self.test_open(transaction)?;
        match self.store.catalog.find(Kind::Relation, relation) {
            Some(number) => Ok(number),
            None => Err(Refusal::NoSuch(Kind::Relation)),
        }
    }

    /// The same, and a tuple that it is given fits the relation.
    pub fn admit_tuple(
        &self,
        transaction: u32,
        relation: &Name,
        tuple: &Tuple,
    ) -> Result<u8, Refusal>
        ensures open { OnOk result (is_open (view S.view self.now).opened transaction ≡ true) }
        ensures known { IfOk result
            (IsNumberOf RelationKind (view S.view self.now).store.catalog.listing relation.now) }
        ensures fit { IfOk result (λ number. (entry : Entry)
            → relation_at (view S.view self.now).store.catalog.listing number ≡ Some entry
            → misfit (kinds entry.fields) tuple.now ≡ None) }
        ensures tests { Tests (view S.view self.now)
            (λ state. value_admission state transaction relation.now tuple.now) result }
    {
        let number = self.admit(transaction, relation)?;
        match fits(self.store.catalog.relation(number).fields.as_slice(), tuple) {
            Ok(()) => Ok(number),
            Err(field) => Err(Refusal::BadTuple(field)),
        }
    }

    /// One tuple more of the relation `number` may be inserted.
    pub fn test_limit(&self, number: u8) -> Result<(), Refusal>
        requires { is_some (relation_at (view S.view self.now).store.catalog.listing number) ≡ true }
        ensures { (entry : Entry)
            → relation_at (view S.view self.now).store.catalog.listing number ≡ Some entry
            → Tests (view S.view self.now) (λ state. if_used_up state entry.name) result }
    {
        let live = u64::from(self.store.catalog.relation(number).live);
        let deleted = self.open.relation_sums(number).d;
        if live.saturating_add(deleted) >= u64::from(TUPLES_MOST) {
            return Err(Refusal::Limit(LimitKind::Tuples));
        }
        Ok(())
    }
}
