// A device in a file.
ghost use Rattle.std.specs.Prelude.{◌≡◌, ◌↔◌, ◌+◌, ◌-◌, ◌^◌, ◌<◌, min, None, IsOk, ⊤};
ghost use Rattle.rss_base.specs.Faults.{HasCause};

use crate::failing::failed;
use crate::locked_file::LockedFile;
use crate::store_file::StoreFiles;
use rss_base::{Device, Failed, Page};
use std::io;

/// Pages in a file, one after another. It tells nothing of what the file holds.
///
/// The file is opened and locked at the first call, and the lock is held until the device is
/// dropped. If there is no file, `set_size` makes it. Any other call fails then, as each does that
/// can't open the file, or finds that another process has its lock.
#[derive(Drop)]
pub struct FileDevice<'a, S: StoreFiles> {
    files: &'a S,
    path: &'a str,
    file: Option<LockedFile<S::File>>,
    pages: u64,
    faults: u64,
    writes: u64,
    ghost counts: { writes < 2 ^ 64 },
}

impl<'a, S: StoreFiles> FileDevice<'a, S> {
    /// The file at this path, which isn't touched yet.
    pub fn new(files: &'a S, path: &'a str) -> Self
        ensures faults { (⟦<FileDevice<'a, S> as Device>⟧.view result).faults ≡ 0 }
        ensures writes { (⟦<FileDevice<'a, S> as Device>⟧.view result).writes ≡ 0 }
    {
        FileDevice {
            files,
            path,
            file: None,
            pages: 0,
            faults: 0,
            writes: 0,
        }
    }
}

impl<S: StoreFiles> Device for FileDevice<'_, S> {
    ghost use Rattle.std.proofs.Common.{arith};

    ghost view = { λ d. record {
      disk = record { contents = None; moment = 0; images = λ t image. ⊤ };
      size = d.pages;
      writes = d.writes;
      faults = d.faults;
    } };

    ghost reads_as_image = { λ d pages told. tt };

    ghost sized = { λ d pages told. absurd (Prim.cc (told)) };

    ghost limited = { λ d. Prim.omega (arith, d.counts) };

    /// A file of fewer than three whole pages has as many as are whole. If a longer one ends within
    /// a page, this is `u64::MAX`, which is the size of no store.
    fn size(&mut self) -> Result<u64, Failed> {
        let pages = match opened(self.files, self.path, &mut self.file, false) {
            Ok(file) => file.pages(),
            Err(error) => Err(error),
        };
        self.pages = counted(pages, &mut self.faults)?;
        Ok(self.pages)
    }

    fn set_size(&mut self, pages: u64) -> Result<(), Failed> {
        let set = match opened(self.files, self.path, &mut self.file, true) {
            Ok(file) => file.set_pages(pages),
            Err(error) => Err(error),
        };
        counted(set, &mut self.faults)?;
        self.pages = pages;
        Ok(())
    }

    fn read(&mut self, at: u64, into: &mut Page) -> Result<(), Failed> {
        let read = match opened(self.files, self.path, &mut self.file, false) {
            Ok(file) => file.read(at, into),
            Err(error) => Err(error),
        };
        counted(read, &mut self.faults)
    }

    fn write(&mut self, at: u64, from: &Page) -> Result<(), Failed> {
        self.writes = self.writes.saturating_add(1);
        let written = match opened(self.files, self.path, &mut self.file, false) {
            Ok(file) => file.write(at, from),
            Err(error) => Err(error),
        };
        counted(written, &mut self.faults)
    }

    fn write_run(&mut self, at: u64, from: &[Page]) -> Result<(), Failed> {
        self.writes = self.writes.saturating_add(from.len() as u64);
        let written = match opened(self.files, self.path, &mut self.file, false) {
            Ok(file) => file.write_run(at, from),
            Err(error) => Err(error),
        };
        counted(written, &mut self.faults)
    }

    fn sync(&mut self) -> Result<(), Failed> {
        let synced = match opened(self.files, self.path, &mut self.file, false) {
            Ok(file) => file.sync(),
            Err(error) => Err(error),
        };
        counted(synced, &mut self.faults)
    }
}

/// The file, opened if it isn't yet, and made if there is none and `make` says so.
fn opened<'f, S: StoreFiles>(
    files: &S,
    path: &str,
    file: &'f mut Option<LockedFile<S::File>>,
    make: bool,
) -> io::Result<&'f mut LockedFile<S::File>> {
    let open = match file.take() {
        Some(open) => open,
        None => LockedFile::open(files, path, make)?,
    };
    Ok(file.insert(open))
}

/// Counts a fault if this failed.
fn counted<T: Drop>(outcome: io::Result<T>, faults: &mut u64) -> Result<T, Failed>
    ensures ok { IsOk result ↔ IsOk outcome }
    ensures cause { HasCause faults.old faults.new result }
{
    match outcome {
        Ok(value) => Ok(value),
        Err(_) => Err(failed(faults)),
    }
}
