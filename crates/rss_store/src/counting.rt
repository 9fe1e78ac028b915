// What is counted of a store.
ghost use Rattle.std.specs.Prelude.{◌≡◌, ◌+◌, ◌<◌};
ghost use Rattle.rss_base.specs.LogRecords.{record_size};
ghost use Rattle.rss_base.specs.Sizes.{position_limit};
ghost use Rattle.rss_base.specs.declared.log_record.LogRecord.TheVariants as records;
ghost use Rattle.rss_access.specs.Written.{heap_now};
ghost use Rattle.rss_log.specs.Logs.{IsLog, free_of};
ghost use Rattle.rss_model.specs.Meter.{free_between};
ghost use Rattle.rss_store.specs.Commits.{least_mark};
ghost use Rattle.rss_store.specs.Stores.{IsReady};

use crate::DurableStore;
use crate::committing::least_mark;
use crate::writing::PIECE_LENGTH;
use rss_base::{Marks, SYSTEM_PAGES};
use rss_buffer::Saving;

impl<S: Saving> DurableStore<S> {
    ghost use Rattle.rss_store.specs.Parts.{view};

    /// How many slots the store has for pages.
    pub fn slots(&self) -> u32
        ensures { result ≡ (view S.view self.now).root.slots }
    {
        self.root.slots
    }

    /// How many pages the log has.
    pub fn log_pages(&self) -> u32
        ensures { result ≡ (view S.view self.now).root.log_pages }
    {
        self.root.log_pages
    }

    /// How many home and overflow pages there are.
    pub fn heap(&self) -> u32
        requires { IsReady (view S.view self.now) }
        ensures { result ≡ heap_now (view S.view self.now).pages }
    {
        let pages = self.tuples.pages.shadow();
        pages.mapped() - pages.image_pages() - SYSTEM_PAGES
    }

    /// How many bytes may be appended to the log.
    pub fn log_free(&self) -> u64
        ensures free { result ≡ free_of (view S.view self.now).log }
        ensures log { IsLog (view S.view self.now).log }
    {
        self.log.free()
    }

    /// How many bytes could be appended to the log after a checkpoint that names these
    /// transactions, each with the position of its first change.
    pub fn free_behind(&self, marks: &Marks) -> u64
        requires ready { IsReady (view S.view self.now) }
        requires early { (view S.view self.now).log.end + record_size (records.Checkpoint marks.now)
            < position_limit }
        ensures { result ≡ free_between (view S.view self.now).log.pages
            (least_mark (view S.view self.now).log.end marks.now)
            ((view S.view self.now).log.end + record_size (records.Checkpoint marks.now)) }
    {
        let end = self.log.end();
        let head = least_mark(marks, end);
        let size = 2 + 12 * marks.as_slice().len() as u64;
        let pieces = head / PIECE_LENGTH + u64::from(self.root.log_pages) + 1;
        (pieces * PIECE_LENGTH - 1).saturating_sub(end + size)
    }

    /// The pages.
    pub fn pages(&self) -> &S
        ensures { result.now ≡ self.now.tuples.pages }
    {
        self.tuples.pages()
    }

    /// The pages, as the last call left them.
    pub fn into_pages(self) -> S
        ensures { result ≡ self.tuples.pages }
    {
        let DurableStore {
            tuples,
            catalog: _,
            log: _,
            root: _,
            number: _,
        } = self;
        tuples.into_pages()
    }
}
