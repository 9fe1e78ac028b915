// The page of a root.
ghost use Rattle.std.specs.Prelude.{◌≡◌, ◌↔◌, ◌+◌, ◌*◌, ◌<◌, ◌≤◌, ◌++◌, length, take, drop, IsTrue};
ghost use Rattle.std.specs.Prelude.{IfSome, IfNone};
ghost use Rattle.std.specs.Int.{w32, w64, from_be_bytes};
ghost use Rattle.rss_base.specs.Sizes.{position_limit, log_pages_most};
ghost use Rattle.rss_base.specs.Layout.{root_page, log_free, IsWellFormed, IsRootPage};
ghost use Rattle.rss_base.specs.declared.root.Root.{Root as SomeRoot};

use rss_base::{
    LOG_PAGES_LEAST, LOG_PAGES_MOST, PAGE_BYTES, PIECE_BYTES, Page, Root, SLOTS_LEAST, SLOTS_MOST,
    Tail, VERSION, put_bytes, put_u32, put_u64, u32_at, u64_at,
};

/// Where the fields stand.
const VERSION_AT: usize = 5;

const SLOTS_AT: usize = 8;

const LOG_PAGES_AT: usize = 12;

const AREA_AT: usize = 16;

const HEAD_AT: usize = 24;

const CHECKPOINT_AT: usize = 32;

const END_AT: usize = 40;

const TAIL_AT: usize = 96;

/// How many bytes of the log a piece has.
const PIECE_LENGTH: u64 = PIECE_BYTES as u64;

/// The size of the largest Checkpoint record.
const LARGEST_CHECKPOINT: u64 = 386;

/// Positions of the log lie below this one.
const POSITION_LIMIT: u64 = 1 << 63;

/// The page of a root.
pub fn encode(root: &Root) -> Page
    ensures { result ≡ root_page root.now }
{
    let mut page = [0u8; PAGE_BYTES];
    put_bytes(&mut page, 0, b"RSSR\0");
    page[VERSION_AT] = root.version;
    put_u32(&mut page, SLOTS_AT, root.slots);
    put_u32(&mut page, LOG_PAGES_AT, root.log_pages);
    page[AREA_AT] = root.area;
    put_u64(&mut page, HEAD_AT, root.head);
    put_u64(&mut page, CHECKPOINT_AT, root.checkpoint);
    put_u64(&mut page, END_AT, root.end);
    put_bytes(&mut page, TAIL_AT, root.tail.as_slice());
    page
}

/// What a page says, if it is the page of a root.
pub fn decode(page: &Page) -> Option<Root>
    ensures some { IfSome result (IsRootPage page.now) }
    ensures none { IfNone result ((root : SomeRoot) → IsRootPage page.now root → ⊥) }
{
    let end = u64_at(page, END_AT);
    let tail = (end % PIECE_LENGTH) as usize;
    let root = Root {
        version: page[VERSION_AT],
        slots: u32_at(page, SLOTS_AT),
        log_pages: u32_at(page, LOG_PAGES_AT),
        area: page[AREA_AT],
        head: u64_at(page, HEAD_AT),
        checkpoint: u64_at(page, CHECKPOINT_AT),
        end,
        tail: Tail::from_slice(&page[TAIL_AT..TAIL_AT + tail]),
    };
    if is_well_formed(&root) && *page == encode(&root) {
        Some(root)
    } else {
        None
    }
}

/// How many bytes the log has room for.
fn log_free(root: &Root) -> u64
    requires head { root.now.head < position_limit }
    requires pages { root.now.log_pages ≤ log_pages_most }
    ensures { result ≡ log_free root.now }
{
    let kept_until = (root.head / PIECE_LENGTH + u64::from(root.log_pages) + 1) * PIECE_LENGTH - 1;
    kept_until.saturating_sub(root.end)
}

/// Whether the version is known, the sizes in range, the log's positions in order, and its tail as
/// long as they say.
fn is_well_formed(root: &Root) -> bool
    ensures { IsTrue result ↔ IsWellFormed root.now }
{
    root.version >= 1
        && root.version <= VERSION
        && root.slots >= SLOTS_LEAST
        && root.slots <= SLOTS_MOST
        && root.log_pages >= LOG_PAGES_LEAST
        && root.log_pages <= LOG_PAGES_MOST
        && root.area < 2
        && root.head <= root.checkpoint
        && root.checkpoint < root.end
        && root.end < POSITION_LIMIT
        && log_free(root) >= LARGEST_CHECKPOINT
        && root.tail.as_slice().len() as u64 == root.end % PIECE_LENGTH
}
