// The rules on room and on the log.
ghost use Rattle.std.specs.Prelude.{◌≡◌, ◌↔◌, ◌^◌, ◌<◌, ◌≤◌, true, Err, IsTrue, IfErr, OnOk};
ghost use Rattle.rss_base.specs.LogRecords.{longest_record};
ghost use Rattle.rss_model.specs.ReplyText.{IsShort};
ghost use Rattle.rss_model.specs.Rules.{if_no_log_room};
ghost use Rattle.rss_trans.specs.Transactions.{is_open};
ghost use Rattle.rss_session.specs.Admissions.{Tests};
ghost use Rattle.rss_session.specs.Sessions.{IsReady, CanSave, IsEarly, sums_in, owed_for};
ghost use Rattle.rss_session.specs.Weighing.{room_of, needed_with, saved_free, weighed, HasSavedRoom, MaySave, RulesSo};

use crate::Session;
use rss_base::{Refusal, SYSTEM_PAGES};
use rss_buffer::Saving;
use rss_trans::Sums;

/// How many bytes the record of a way back has.
const RESTORE_BYTES: u64 = 13;

/// How many bytes that of an end has.
const END_BYTES: u64 = 5;

/// How many bytes that of a checkpoint has at most.
const MOST_CHECKPOINT_BYTES: u64 = 386;

impl<S: Saving> Session<S> {
    ghost use Rattle.rss_session.specs.Parts.{view};

    /// What comes of a change of a transaction whose record has this size: whether a checkpoint
    /// comes before it, or why it is refused. `number` is that of the relation, if the change is
    /// one of a tuple.
    pub(crate) fn weigh(
        &self,
        transaction: u32,
        number: Option<u8>,
        size: u64,
    ) -> Result<bool, Refusal>
        requires ready { IsReady (view S.view self.now) }
        requires open { is_open (view S.view self.now).opened transaction ≡ true }
        requires short { size ≤ longest_record }
        requires early { IsEarly (view S.view self.now) longest_record }
        ensures weighed { result ≡ weighed (view S.view self.now) transaction number size }
        ensures rules { RulesSo (view S.view self.now) transaction number size result }
        ensures short { IfErr result (λ why. IsShort (Err why)) }
    {
        let sums = self.open.sums();
        let slots = self.store.slots();
        let needed = self.needed_with(transaction, size, sums);
        let images = self.images_bound(false, number);
        let room = room_of(u64::from(self.heap), self.surviving, sums.s + 1, images);
        if room <= u64::from(slots) && needed <= self.store.log_free() {
            return Ok(false);
        }
        let images = self.images_bound(true, number);
        let room = room_of(u64::from(self.store.heap()), sums.p, 1, images);
        if room > u64::from(slots) {
            return Err(Refusal::Full {
                slots,
                needed: room,
            });
        }
        let free = self.saved_free();
        if needed > free {
            return Err(Refusal::LogFull { free, needed });
        }
        Ok(true)
    }

    /// A checkpoint leaves room in the log for what is owed.
    pub fn test_checkpoint(&self) -> Result<(), Refusal>
        requires ready { IsReady (view S.view self.now) }
        requires early { IsEarly (view S.view self.now) longest_record }
        ensures may { OnOk result (MaySave (view S.view self.now)) }
        ensures tests { Tests (view S.view self.now) if_no_log_room result }
    {
        let sums = self.open.sums();
        let needed = owed_for(sums.p, sums.q);
        let free = self.saved_free();
        if needed > free {
            return Err(Refusal::LogFull { free, needed });
        }
        Ok(())
    }

    /// How many bytes of the log a change needs whose record has this size, with what is owed then.
    fn needed_with(&self, transaction: u32, size: u64, sums: Sums) -> u64
        requires ready { IsReady (view S.view self.now) }
        requires open { is_open (view S.view self.now).opened transaction ≡ true }
        requires short { size ≤ longest_record }
        requires sums { sums ≡ sums_in (view S.view self.now).opened }
        ensures { result ≡ needed_with (view S.view self.now) transaction size }
    {
        let first = self.open.newest(transaction, 0).is_none();
        size + owed_for(sums.p + 1, sums.q + u64::from(first))
    }

    /// Whether there are as many slots as may be needed after a checkpoint, and images have no more
    /// pages than they may.
    pub(crate) fn has_saved_room(&self) -> bool
        requires ready { CanSave (view S.view self.now) }
        ensures { IsTrue result ↔ HasSavedRoom (view S.view self.now) }
    {
        let images = self.images_bound(true, None);
        let room = room_of(u64::from(self.store.heap()), self.open.sums().p, 0, images);
        room <= u64::from(self.store.slots()) && u64::from(self.image_pages()) <= images
    }

    /// How many bytes the log has room for after a checkpoint.
    fn saved_free(&self) -> u64
        requires ready { IsReady (view S.view self.now) }
        requires early { IsEarly (view S.view self.now) longest_record }
        ensures { result ≡ saved_free (view S.view self.now) }
    {
        self.store.free_behind(&self.marks())
    }
}

/// How many bytes of the log so many changes of so many transactions are owed: a Restore record for
/// each change, an End record for each transaction, and the largest Checkpoint record.
fn owed_for(changes: u64, transactions: u64) -> u64
    requires changes { changes < 2 ^ 32 }
    requires transactions { transactions < 2 ^ 32 }
    ensures { result ≡ owed_for changes transactions }
{
    RESTORE_BYTES * changes + END_BYTES * transactions + MOST_CHECKPOINT_BYTES
}

/// How many slots may be needed, by how many pages the heap had at the last checkpoint, how many
/// changes survived there, how many were made since then, and how many pages images may have.
pub(crate) fn room_of(heap: u64, surviving: u64, since: u64, images: u64) -> u64
    requires heap { heap < 2 ^ 32 }
    requires surviving { surviving < 2 ^ 32 }
    requires since { since < 2 ^ 32 }
    requires images { images < 2 ^ 48 }
    ensures { result ≡ room_of heap surviving since images }
{
    2 * (heap + 2 * surviving + 4 * since + images + u64::from(SYSTEM_PAGES))
}
