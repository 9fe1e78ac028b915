// A file of pages that this process alone works on.
ghost use Rattle.std.specs.Prelude.{◌≡◌, ◌*◌, ◌^◌, ◌<◌, ◌<ℤ◌, pos, length, Ok};
ghost use Rattle.std.specs.Prelude.{IfOk, IfSome, IsOk, IsTrue, OnOk};
ghost use Rattle.rss_base.specs.Sizes.{page_bytes};
ghost use Rattle.rss_device.specs.Files.{Turns, IsCutFrom, IsPageCount};
ghost use Rattle.rss_device.specs.Files.{HoldsPage, HoldsPages, ArePagesWritten};

use crate::store_file::{StoreFile, StoreFiles, folder_of};
use rss_base::{HEAD_PAGES, PAGE_BYTES, Page};
use std::io;
use std::io::ErrorKind;

/// The standard streams have the descriptors from 0 to this one, whether they are open or not.
const LAST_STREAM: i32 = 2;

/// How many bytes of the file a page has.
const PAGE_LENGTH: u64 = PAGE_BYTES as u64;

/// An open file that is locked, and that no standard stream can be mistaken for.
#[derive(Drop)]
pub(crate) struct LockedFile<F: StoreFile> {
    file: F,
    ghost apart: { pos 2 <ℤ (F.view file).descriptor },
    ghost locked: { IsTrue (F.view file).is_locked },
}

impl<F: StoreFile> LockedFile<F> {
    /// Opens the file at a path and locks it. If there is none, it is made if `make` says so, and
    /// its name is brought to the disk.
    pub(crate) fn open<S: StoreFiles<File = F>>(
        files: &S,
        path: &str,
        make: bool,
    ) -> io::Result<LockedFile<F>> {
        let file = away_from_streams(open_or_make(files, path, make)?)?;
        Ok(LockedFile {
            file: file.locked()?,
        })
    }

    /// How many pages it has. If it holds pages enough for a store and ends within a page, this is
    /// `u64::MAX`, which is the size of no store.
    pub(crate) fn pages(&self) -> io::Result<u64>
        ensures { IfOk result (λ n. IfSome (F.view self.now.file).bytes (λ held.
            IsPageCount (length held) n)) }
    {
        Ok(pages_in(self.file.length()?))
    }

    /// Makes it so many pages. Those that are new are zeros. After a failure it has any length.
    pub(crate) fn set_pages(&mut self, pages: u64) -> io::Result<()>
        ensures length { OnOk result (IfSome (F.view self.new.file).bytes (λ held.
            length held ≡ pages * page_bytes)) }
        ensures kept { Turns IsCutFrom (F.view self.old.file).bytes (F.view self.new.file).bytes }
    {
        self.file.set_length(offset(pages)?)
    }

    pub(crate) fn read(&self, at: u64, into: &mut Page) -> io::Result<()>
        ensures { OnOk result (IfSome (F.view self.now.file).bytes (HoldsPage at into.new)) }
    {
        self.file.read_from(offset(at)?, into)
    }

    pub(crate) fn write(&mut self, at: u64, from: &Page) -> io::Result<()>
        ensures written { OnOk result (IfSome (F.view self.new.file).bytes (HoldsPage at from.now)) }
        ensures others { Turns (ArePagesWritten at 1)
            (F.view self.old.file).bytes (F.view self.new.file).bytes }
    {
        self.file.write_from(offset(at)?, from)
    }

    /// Writes neighbouring pages, which the system is given all at once.
    pub(crate) fn write_run(&mut self, at: u64, from: &[Page]) -> io::Result<()>
        ensures written { OnOk result (IfSome (F.view self.new.file).bytes (HoldsPages at from.now)) }
        ensures others { Turns (ArePagesWritten at (length from.now))
            (F.view self.old.file).bytes (F.view self.new.file).bytes }
    {
        self.file.write_from(offset(at)?, from.as_flattened())
    }

    /// Brings the pages and the size of the file to the disk.
    pub(crate) fn sync(&mut self) -> io::Result<()>
        ensures synced { OnOk result (IsTrue (F.view self.new.file).is_synced) }
        ensures kept { (F.view self.new.file).bytes ≡ (F.view self.old.file).bytes }
    {
        self.file.sync()
    }
}

fn open_or_make<S: StoreFiles>(files: &S, path: &str, make: bool) -> io::Result<S::File> {
    match files.open_file(path, false) {
        Err(error) if make && error.kind() == ErrorKind::NotFound => {
            let file = files.open_file(path, true)?;
            files.sync_folder(folder_of(path))?;
            Ok(file)
        }
        opened => opened,
    }
}

/// The same file under a descriptor above those of the standard streams. If one of them is closed,
/// the system gives its descriptor to the next file that is opened, and what is written to the
/// stream would go into that file.
fn away_from_streams<F: StoreFile>(file: F) -> io::Result<F>
    ensures above { IfOk result (λ moved. pos 2 <ℤ (F.view moved).descriptor) }
    ensures same { pos 2 <ℤ (F.view file).descriptor → result ≡ Ok file }
    ensures bytes { IfOk result (λ moved. (F.view moved).bytes ≡ (F.view file).bytes) }
{
    if file.descriptor() > LAST_STREAM {
        return Ok(file);
    }
    let moved = file.under_another()?;
    if moved.descriptor() > LAST_STREAM {
        Ok(moved)
    } else {
        Err(io::Error::from(ErrorKind::Unsupported))
    }
}

/// How many pages a file of this length holds. One that holds pages enough for a store and ends
/// within a page has `u64::MAX`, which is the size of no store.
fn pages_in(bytes: u64) -> u64
    ensures { IsPageCount bytes result }
{
    let pages = bytes / PAGE_LENGTH;
    if pages < HEAD_PAGES || bytes % PAGE_LENGTH == 0 {
        pages
    } else {
        u64::MAX
    }
}

/// Where a page begins. No file reaches past `i64::MAX`.
fn offset(at: u64) -> io::Result<u64>
    ensures value { IfOk result (λ n. n ≡ at * page_bytes) }
    ensures fits { at < 2 ^ 51 → IsOk result }
{
    match at.checked_mul(PAGE_LENGTH) {
        Some(bytes) if bytes <= i64::MAX as u64 => Ok(bytes),
        _ => Err(io::Error::from(ErrorKind::InvalidInput)),
    }
}
