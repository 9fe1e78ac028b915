// What a device in a file asks of the system.
ghost use Rattle.std.specs.Prelude.{◌≡◌, None, true, length, IfOk, IfSome, IsTrue, OnOk};
ghost use Rattle.std.specs.Fd.{file_raw_fd};
ghost use Rattle.rss_device.specs.Files.{FileView, IsSameOpening, Turns, Holds, IsWrittenIn, IsCutFrom};

use std::fs::{File, OpenFile, OpenOptions};
use std::io;
use std::os::fd::AsRawFd;
use std::os::unix::fs::FileExt;
use std::path::Path;

/// An open file that may hold a store.
pub trait StoreFile: Drop {
    /// What there is to see of it.
    ghost view: { Self → FileView };

    fn descriptor(&self) -> i32
        ensures { result ≡ (view self.now).descriptor };

    /// The same file under another descriptor, which it is given before this one is closed.
    fn under_another(self) -> io::Result<Self>
    where
        Self: Sized,
        ensures bytes { IfOk result (λ file. (view file).bytes ≡ (view self).bytes) };

    /// Takes the exclusive lock of the file, without waiting. It goes with the opening of the file,
    /// which its descriptors share, and is given back when the last of them is closed.
    fn locked(self) -> io::Result<Self>
    where
        Self: Sized,
        ensures { IfOk result (λ file. view file ≡ record (view self) { is_locked = true }) };

    /// How many bytes it has.
    fn length(&self) -> io::Result<u64>
        ensures { IfOk result (λ n. IfSome (view self.now).bytes (λ held. length held ≡ n)) };

    /// Makes it so many bytes. Those that are new are zeros. After a failure it has any length.
    fn set_length(&mut self, bytes: u64) -> io::Result<()>
        ensures length { OnOk result (IfSome (view self.new).bytes (λ held. length held ≡ bytes)) }
        ensures kept { Turns IsCutFrom (view self.old).bytes (view self.new).bytes }
        ensures same { IsSameOpening (view self.old) (view self.new) };

    /// Fills the buffer with the bytes from this place on, or fails.
    fn read_from(&self, at: u64, into: &mut [u8]) -> io::Result<()>
        ensures { OnOk result (IfSome (view self.now).bytes (Holds at into.new)) };

    /// Writes all of these bytes, from this place on, or fails.
    fn write_from(&mut self, at: u64, from: &[u8]) -> io::Result<()>
        ensures written { OnOk result (IfSome (view self.new).bytes (Holds at from.now)) }
        ensures others { Turns (IsWrittenIn at (length from.now))
            (view self.old).bytes (view self.new).bytes }
        ensures same { IsSameOpening (view self.old) (view self.new) };

    /// Brings its bytes and its length to the disk.
    fn sync(&mut self) -> io::Result<()>
        ensures synced { OnOk result (IsTrue (view self.new).is_synced) }
        ensures kept { (view self.new).bytes ≡ (view self.old).bytes }
        ensures same { IsSameOpening (view self.old) (view self.new) };
}

/// A system with files that may hold stores.
pub trait StoreFiles {
    type File: StoreFile;

    /// Opens the file at a path, to read and to write it. If there is none, it is made if `make`
    /// says so, and otherwise the error is `ErrorKind::NotFound`.
    fn open_file(&self, path: &str, make: bool) -> io::Result<Self::File>;

    /// Brings the names in a folder to the disk.
    fn sync_folder(&self, folder: &str) -> io::Result<()>;
}

/// Each call is one of the system, which tells nothing of what a file holds.
impl StoreFile for File {
    ghost view = { λ file. record {
      bytes = None;
      descriptor = file_raw_fd file;
      is_locked = true;
      is_synced = true;
    } };

    fn descriptor(&self) -> i32 {
        self.as_raw_fd()
    }

    fn under_another(self) -> io::Result<File> {
        self.try_clone()
    }

    fn locked(self) -> io::Result<File> {
        self.try_lock()?;
        Ok(self)
    }

    fn length(&self) -> io::Result<u64> {
        Ok(self.metadata()?.len())
    }

    fn set_length(&mut self, bytes: u64) -> io::Result<()> {
        self.set_len(bytes)
    }

    fn read_from(&self, at: u64, into: &mut [u8]) -> io::Result<()> {
        self.read_exact_at(into, at)
    }

    fn write_from(&mut self, at: u64, from: &[u8]) -> io::Result<()> {
        self.write_all_at(from, at)
    }

    fn sync(&mut self) -> io::Result<()> {
        self.sync_data()
    }
}

impl StoreFiles for HostRuntime {
    type File = File;

    fn open_file(&self, path: &str, make: bool) -> io::Result<File> {
        OpenOptions::new()
            .read(true)
            .write(true)
            .create(make)
            .open(self, path)
    }

    fn sync_folder(&self, folder: &str) -> io::Result<()> {
        File::open(self, folder)?.sync_all()
    }
}

/// The folder of the file at a path.
pub(crate) fn folder_of(path: &str) -> &str {
    match Path::new(path).parent() {
        Some(folder) if !folder.as_str().is_empty() => folder.as_str(),
        _ => ".",
    }
}
