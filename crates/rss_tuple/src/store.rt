// The tuple store over pages.
ghost use Rattle.std.proofs.Common.{refl};
ghost use Rattle.std.specs.Prelude.{◌≡◌, ◌+◌, IfOk, IfSome};
ghost use Rattle.rss_base.specs.DiskRule.{IsTold};
ghost use Rattle.rss_base.specs.Steps.{PagesCall, no_page};
ghost use Rattle.rss_base.specs.Tids.{IsAfter};
ghost use Rattle.rss_tuple.specs.Calls.{IsSegment};
ghost use Rattle.rss_tuple.specs.Finding.{FindsNextAt};
ghost use Rattle.rss_tuple.specs.Heaps.{AreHeaps};
ghost use Rattle.rss_tuple.specs.Located.{IsInMemory};
ghost use Rattle.rss_tuple.specs.TupleSteps.{tuples_in};

use crate::body_at::BodyAt;
use crate::choosing::choose;
use crate::placing::{insert_at, remove, replace};
use crate::reading::locate;
use crate::tuples::Tuples;
use crate::walking::{next_body, next_live};
use rss_base::{PAGE_BYTES, Page, PageFault, Pages, Tid};

/// The tuples of any pages.
#[derive(Drop)]
pub struct Store<P: Pages> {
    pub pages: P,
    /// Where a search copies the page that it finds. It is kept, since a new one would be zeroed for
    /// each tuple.
    page: Page,
}

impl<P: Pages> Store<P> {
    /// The tuples of these pages.
    pub fn new(pages: P) -> Self
        ensures { result.pages ≡ pages }
    {
        Store {
            pages,
            page: [0; PAGE_BYTES],
        }
    }

    /// The pages.
    pub fn pages(&self) -> &P
        ensures { result.now ≡ self.now.pages }
    {
        &self.pages
    }

    /// The pages, as the last call left them.
    pub fn into_pages(self) -> P
        ensures { result ≡ self.pages }
    {
        let Store { pages, page: _ } = self;
        pages
    }

    /// What `next_live` answers, with where the body of that tuple stands, as `locate` tells it. Asks for
    /// one page more.
    pub fn next_body(
        &mut self,
        segment: u8,
        after: Option<Tid>,
    ) -> Result<Option<(Tid, BodyAt)>, PageFault>
        requires segment { IsSegment segment }
        requires heaps { IsTold (P.view self.old.pages).disk → AreHeaps (P.view self.old.pages) }
        ensures next { IfOk result (λ found. IsTold (P.view self.old.pages).disk
            → FindsNextAt (tuples_in (P.view self.old.pages)) segment after
            (P.view self.new.pages).held found) }
        ensures behind { IfOk result (λ found. IfSome found (λ next. IsAfter after next.0)) }
        ensures there { IfOk result (λ found.
            IfSome found (λ next. IsInMemory (P.view self.new.pages) next.1)) }
        ensures did { PagesCall no_page ((P.view self.old.pages).slots + 1)
            ((P.view self.old.pages).slots + 1)
            (P.view self.old.pages) (P.view self.new.pages) result }
    {
        next_body(&mut self.pages, segment, after)
    }
}

impl<P: Pages> Tuples for Store<P> {
    ghost view = { λ store. tuples_in (P.view store.pages) };

    fn choose(
        &mut self,
        segment: u8,
        length: u16,
        barred: &[Tid],
    ) -> Result<Option<Tid>, PageFault> {
        choose(&mut self.pages, &mut self.page, segment, length, barred)
    }

    fn insert_at(&mut self, segment: u8, tid: Tid, body: &[u8]) -> Result<(), PageFault> {
        insert_at(&mut self.pages, segment, tid, body)
    }

    fn locate(&mut self, segment: u8, tid: Tid) -> Result<Option<BodyAt>, PageFault> {
        locate(&mut self.pages, segment, tid)
    }

    fn body(&self, at: BodyAt) -> &[u8] {
        at.bytes_in(self.pages.loaded(at.key))
    }

    fn replace(&mut self, segment: u8, tid: Tid, body: &[u8]) -> Result<(), PageFault> {
        replace(&mut self.pages, segment, tid, body)
    }

    fn remove(&mut self, segment: u8, tid: Tid) -> Result<(), PageFault> {
        remove(&mut self.pages, segment, tid)
    }

    fn next_live(&mut self, segment: u8, after: Option<Tid>) -> Result<Option<Tid>, PageFault> {
        next_live(&mut self.pages, segment, after)
    }

    ghost are_in_pages = { λ store. refl };
}
