// The log in memory.
ghost use Rattle.std.specs.Prelude.{◌≡◌, ◌⊎◌, ℕ, ◌+◌, ◌-◌, ◌*◌, ◌/◌, ◌%◌, ◌^◌, ◌<◌, ◌≤◌, List, []};
ghost use Rattle.std.specs.Prelude.{◌∷◌, ◌++◌, length, take, drop, IfOk, IfErr, IfSome, IfNone};
ghost use Rattle.std.specs.Prelude.{OnOk};
ghost use Rattle.rss_base.specs.DiskRule.{Told};
ghost use Rattle.rss_base.specs.Devices.{ReadsPages, ReadsStore};
ghost use Rattle.rss_base.specs.Sizes.{log_pages_most, piece_bytes};
ghost use Rattle.rss_base.specs.LogPages.{pieces, kept_from};
ghost use Rattle.rss_base.specs.LogRecords.{record_bytes, record_size, IsBounded, Placed};
ghost use Rattle.rss_base.specs.LogRecords.{ArePlaced, BeginsWith};
ghost use Rattle.rss_base.specs.declared.fault.OpenFault.TheVariants.{Device as DeviceFailed};
ghost use Rattle.rss_base.specs.declared.fault.OpenFault.TheVariants.{NoMemory as LacksMemory};
ghost use Rattle.rss_base.specs.declared.log_record.LogRecord.{LogRecord as SomeRecord};
ghost use Rattle.rss_log.specs.Rings.{ring_bytes};
ghost use Rattle.rss_log.specs.Logs.{CanLoad, IsLog, piece_start, room_end, free_of, bytes_from};
ghost use Rattle.rss_log.specs.Logs.{piece_of, tail_of, HasRecords, HasRecordAt, with_bytes};
ghost use Rattle.rss_log.specs.Logs.{with_head};

use crate::ring::{copy, copy_front, put};
use rss_base::{Device, Failed, LogRecord, OpenFault, PAGE_BYTES, PIECE_BYTES, Page, Tail};
use rss_record::{RECORD_BYTES, RecordBytes, read_record, write_record};
use std::alloc::Global;
use std::marker::Model;

/// How many bytes of the log a piece has.
const PIECE_LENGTH: u64 = PIECE_BYTES as u64;

/// The log of a store: the bytes from the first position that is kept up to the next one, which are
/// those of records. It takes no memory after it was loaded.
#[derive(Drop)]
pub struct Log {
    /// The byte at each position stands at the position modulo the length.
    ring: Vec<u8>,
    pages: u32,
    head: u64,
    end: u64,
    /// The record that was appended last.
    appended: RecordBytes,
}

impl Model for Log {
    ghost use Rattle.rss_log.specs.Logs.{LogView};

    ghost Value = { LogView };

    ghost use Rattle.rss_log.specs.Inside.{log_view, IsInside};

    ghost view = { log_view };

    ghost invariant = { IsInside };
}

impl Log {
    /// Reads the log of a store: its full pieces from the log pages, of which there are so many
    /// from `first_page` on, and the last part from the root. It reads the pages of the pieces from
    /// the one with the head on, and no others.
    pub fn load<D: Device>(
        alloc: Global,
        device: &mut D,
        first_page: u64,
        log_pages: u32,
        head: u64,
        end: u64,
        tail: &Tail,
    ) -> Result<Log, OpenFault>
        requires { CanLoad first_page log_pages head end tail.now (D.view device.old).size }
        ensures numbers { IfOk result (λ log.
            (log.pages ≡ log_pages) × (log.head ≡ head) × (log.end ≡ end)) }
        ensures kept { IfOk result (λ log. Told (D.view device.old).disk (λ pages.
            log.kept ≡ kept_from pages first_page log_pages head end tail.now)) }
        ensures tail { IfOk result (λ log. tail_of log ≡ tail.now) }
        ensures log { IfOk result IsLog }
        ensures fault { IfErr result (λ fault. (fault ≡ DeviceFailed) ⊎ (fault ≡ LacksMemory)) }
        ensures did { ReadsStore (D.view device.old) (D.view device.new) result }
        ensures size { (D.view device.new).size ≡ (D.view device.old).size }
    {
        let mut ring = new_ring(alloc, log_pages)?;
        let tail = tail.as_slice();
        read_log(device, first_page, log_pages, head, end, tail, &mut ring)?;
        Ok(Log {
            ring,
            pages: log_pages,
            head,
            end,
            appended: [0; RECORD_BYTES],
        })
    }

    /// The first position that is kept.
    pub fn head(&self) -> u64
        ensures head { result ≡ self.now.head }
        ensures log { IsLog self.now }
    {
        self.head
    }

    /// The next position.
    pub fn end(&self) -> u64
        ensures end { result ≡ self.now.end }
        ensures log { IsLog self.now }
    {
        self.end
    }

    /// How many bytes may be appended.
    pub fn free(&self) -> u64
        ensures free { result ≡ free_of self.now }
        ensures log { IsLog self.now }
    {
        self.ring.len() as u64 - 1 - (self.end - self.head / PIECE_LENGTH * PIECE_LENGTH)
    }

    /// Puts a record after the others, and answers its position.
    pub fn append(&mut self, record_value: &LogRecord) -> u64
        requires bounded { IsBounded record_value.now }
        requires room { record_size record_value.now ≤ free_of self.old }
        requires limit { self.old.end + record_size record_value.now < 2 ^ 64 }
        ensures position { result ≡ self.old.end }
        ensures appended { self.new ≡ with_bytes self.old (record_bytes record_value.now) }
        ensures records { (ps : List Placed) → HasRecords self.old ps
            → HasRecords self.new (ps ++ record { at = result; is = record_value.now } ∷ []) }
    {
        let at = self.end;
        let size = write_record(record_value, &mut self.appended) as usize;
        put(&mut self.ring, at, &self.appended[..size]);
        self.end = at + size as u64;
        at
    }

    /// The record that begins at a position, and the position after it.
    pub fn read_at(&self, position: u64) -> (LogRecord, u64)
        requires low { self.now.head ≤ position }
        requires high { position ≤ self.now.end }
        requires there { HasRecordAt self.now position }
        ensures found { BeginsWith (bytes_from self.now position) result.0
            (bytes_from self.now result.1) }
        ensures next { result.1 ≡ position + record_size result.0 }
    {
        match self.try_at(position) {
            Some(found) => found,
            None => unreachable!(),
        }
    }

    /// The record that begins at a position, and the position after it; none exactly if the bytes
    /// from there up to the end begin with no record.
    pub fn try_at(&self, position: u64) -> Option<(LogRecord, u64)>
        requires low { self.now.head ≤ position }
        requires high { position ≤ self.now.end }
        ensures found { IfSome result (λ f.
            BeginsWith (bytes_from self.now position) f.0 (bytes_from self.now f.1)) }
        ensures next { IfSome result (λ f. f.1 ≡ position + record_size f.0) }
        ensures within { IfSome result (λ f. f.1 ≤ self.now.end) }
        ensures none { IfNone result ((r : SomeRecord) (rest : List ℕ)
            → BeginsWith (bytes_from self.now position) r rest → ⊥) }
    {
        let mut bytes = [0u8; RECORD_BYTES];
        let size = (self.end - position).min(RECORD_BYTES as u64) as usize;
        copy_front(&self.ring, position, &mut bytes, size);
        let (found, size) = read_record(&bytes[..size])?;
        Some((found, position + u64::from(size)))
    }

    /// Gives up what is in front of a position, at which a record begins or the log ends.
    pub fn set_head(&mut self, head: u64)
        requires low { self.old.head ≤ head }
        requires high { head ≤ self.old.end }
        ensures moved { self.new ≡ with_head self.old head }
        ensures records { (gone ps : List Placed) → HasRecords self.old (gone ++ ps)
            → ArePlaced self.old.head gone head → HasRecords self.new ps }
    {
        self.head = head;
    }

    /// Writes a full piece to the front of a page, and leaves the rest of the page.
    pub fn pieces(&self, number: u64, into: &mut Page)
        requires low { self.now.head / piece_bytes ≤ number }
        requires high { number < self.now.end / piece_bytes }
        ensures { into.new ≡ piece_of self.now number ++ drop piece_bytes into.old }
    {
        copy(&self.ring, number * PIECE_LENGTH, &mut into[..PIECE_BYTES]);
    }

    /// The bytes after the last full piece.
    pub fn tail(&self, into: &mut Tail)
        ensures { into.new ≡ tail_of self.now }
    {
        let mut bytes = [0u8; PIECE_BYTES];
        let size = (self.end % PIECE_LENGTH) as usize;
        copy_front(
            &self.ring,
            self.end - self.end % PIECE_LENGTH,
            &mut bytes,
            size,
        );
        *into = Tail::from_slice(&bytes[..size]);
    }
}

/// A ring for the pieces of so many log pages and the last part.
fn new_ring(alloc: Global, log_pages: u32) -> Result<Vec<u8>, OpenFault>
    requires { log_pages ≤ log_pages_most }
    ensures size { IfOk result (λ ring. length ring.items ≡ (log_pages + 1) * piece_bytes) }
    ensures fault { IfErr result (λ fault. fault ≡ LacksMemory) }
{
    match vec![in alloc; 0; (log_pages as usize + 1) * PIECE_BYTES] {
        Ok(ring) => Ok(ring),
        Err(_) => Err(OpenFault::NoMemory),
    }
}

/// Reads the full pieces of a log into a ring, and puts the last part after them.
fn read_log<D: Device>(
    device: &mut D,
    first_page: u64,
    log_pages: u32,
    head: u64,
    end: u64,
    tail: &[u8],
    ring: &mut [u8],
) -> Result<(), Failed>
    requires log { CanLoad first_page log_pages head end tail.now (D.view device.old).size }
    requires room { length ring.old ≡ (log_pages + 1) * piece_bytes }
    ensures kept { OnOk result (Told (D.view device.old).disk (λ pages.
        ring_bytes ring.new (piece_start head) (end - piece_start head)
        ≡ kept_from pages first_page log_pages head end tail.now)) }
    ensures tail { OnOk result
        (ring_bytes ring.new (end - end % piece_bytes) (end % piece_bytes) ≡ tail.now) }
    ensures long { length ring.new ≡ length ring.old }
    ensures did { ReadsPages (D.view device.old) (D.view device.new) result }
{
    let first = head / PIECE_LENGTH;
    let last = end / PIECE_LENGTH;
    read_pieces(device, first_page, log_pages, first, last, ring)?;
    put(ring, last * PIECE_LENGTH, tail);
    Ok(())
}

/// Reads full pieces, from one up to another, into a ring.
fn read_pieces<D: Device>(
    device: &mut D,
    first_page: u64,
    log_pages: u32,
    first: u64,
    last: u64,
    ring: &mut [u8],
) -> Result<(), Failed>
    requires some { 0 < log_pages }
    requires order { first ≤ last }
    requires size { first_page + log_pages ≤ (D.view device.old).size }
    requires room { (last - first) * piece_bytes ≤ length ring.old }
    requires limit { first_page + log_pages < 2 ^ 64 }
    requires end { last * piece_bytes < 2 ^ 64 }
    ensures ring { OnOk result (Told (D.view device.old).disk (λ pages.
        ring_bytes ring.new (first * piece_bytes) ((last - first) * piece_bytes)
        ≡ pieces pages first_page log_pages first (last - first))) }
    ensures long { length ring.new ≡ length ring.old }
    ensures did { ReadsPages (D.view device.old) (D.view device.new) result }
{
    let mut page = [0u8; PAGE_BYTES];
    for number in first..last {
        device.read(first_page + number % u64::from(log_pages), &mut page)?;
        put(ring, number * PIECE_LENGTH, &page[..PIECE_BYTES]);
    }
    Ok(())
}
