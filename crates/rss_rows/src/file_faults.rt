// Files that fail, and files that another opening has.
ghost use Rattle.std.specs.Prelude.{◌≤◌, None, true, IfOk};

use crate::adapters::{assert_three, has_three, new_path, write_three};
use crate::harness::NEVER;
use rss_base::{Device, Failed};
use rss_device::{FileDevice, StoreFile, StoreFiles};
use rss_images::assert_same;
use std::cell::Cell;
use std::fs::File;
use std::io::ErrorKind;
use std::os::unix::fs::FileExt;
use std::rt::Files;
use std::test::Fail;
use std::{fs, io};

/// What goes wrong with a call.
#[derive(Clone, Copy, Debug, PartialEq, Eq)]
enum Fault {
    Error,
    Interrupt,
    /// A read gives, or a write takes, a part of the bytes.
    Short,
    /// A read gives, or a write takes, none of them.
    Nothing,
}

static FAULTS: [Fault; 4] = [Fault::Error, Fault::Interrupt, Fault::Short, Fault::Nothing];

/// The call that goes wrong, and the descriptors that files get.
#[derive(Drop)]
struct Plan {
    calls_before: Cell<u64>,
    fault: Fault,
    opened: i32,
    cloned: i32,
}

impl Plan {
    /// The call with this number goes wrong, counted from 0.
    fn failing_at(call: u64, fault: Fault) -> Self {
        Plan {
            calls_before: Cell::new(call),
            fault,
            opened: 1,
            cloned: 3,
        }
    }

    /// No call goes wrong. A file that is opened gets the first descriptor, and its clone the other.
    fn with_descriptors(opened: i32, cloned: i32) -> Self {
        Plan {
            calls_before: Cell::new(NEVER),
            fault: Fault::Error,
            opened,
            cloned,
        }
    }

    /// What goes wrong with this call.
    fn next_fault(&self) -> Option<Fault> {
        let before = self.calls_before.get();
        self.calls_before.set(before.wrapping_sub(1));
        if before == 0 { Some(self.fault) } else { None }
    }

    /// A call that moves no bytes.
    fn begin(&self) -> io::Result<()> {
        match self.next_fault() {
            Some(Fault::Error) => Err(io::Error::from(ErrorKind::Other)),
            Some(Fault::Interrupt) => Err(io::Error::from(ErrorKind::Interrupted)),
            _ => Ok(()),
        }
    }

    /// How many of so many bytes a call moves.
    fn moved(&self, most: usize) -> io::Result<usize>
        ensures { IfOk result (λ n. n ≤ most) }
    {
        match self.next_fault() {
            Some(Fault::Error) => Err(io::Error::from(ErrorKind::Other)),
            Some(Fault::Interrupt) => Err(io::Error::from(ErrorKind::Interrupted)),
            Some(Fault::Short) => Ok(most.min(100)),
            Some(Fault::Nothing) => Ok(0),
            None => Ok(most),
        }
    }
}

/// The system's files, but for what goes wrong.
#[derive(Drop)]
struct FaultyFiles<'a, S> {
    system: &'a S,
    plan: &'a Plan,
}

impl<'a, S> FaultyFiles<'a, S> {
    fn new(system: &'a S, plan: &'a Plan) -> Self {
        FaultyFiles { system, plan }
    }
}

#[derive(Drop)]
struct FaultyFile<'a> {
    file: File,
    descriptor: i32,
    plan: &'a Plan,
}

impl FileExt for FaultyFile<'_> {
    fn read_at(&self, into: &mut [u8], at: u64) -> io::Result<usize> {
        let most = self.plan.moved(into.len())?;
        self.file.read_at(&mut into[..most], at)
    }

    fn write_at(&self, from: &[u8], at: u64) -> io::Result<usize> {
        let most = self.plan.moved(from.len())?;
        self.file.write_at(&from[..most], at)
    }
}

impl StoreFile for FaultyFile<'_> {
    ghost view = { λ f. record {
      bytes = None;
      descriptor = f.descriptor;
      is_locked = true;
      is_synced = true;
    } };

    fn descriptor(&self) -> i32 {
        self.descriptor
    }

    fn under_another(self) -> io::Result<Self> {
        self.plan.begin()?;
        Ok(FaultyFile {
            file: self.file.under_another()?,
            descriptor: self.plan.cloned,
            plan: self.plan,
        })
    }

    fn locked(self) -> io::Result<Self> {
        self.plan.begin()?;
        Ok(FaultyFile {
            file: self.file.locked()?,
            descriptor: self.descriptor,
            plan: self.plan,
        })
    }

    fn length(&self) -> io::Result<u64> {
        self.plan.begin()?;
        self.file.length()
    }

    fn set_length(&mut self, bytes: u64) -> io::Result<()> {
        self.plan.begin()?;
        self.file.set_length(bytes)
    }

    fn read_from(&self, at: u64, into: &mut [u8]) -> io::Result<()> {
        self.read_exact_at(into, at)
    }

    fn write_from(&mut self, at: u64, from: &[u8]) -> io::Result<()> {
        self.write_all_at(from, at)
    }

    fn sync(&mut self) -> io::Result<()> {
        self.plan.begin()?;
        self.file.sync()
    }
}

impl<'a, S: StoreFiles<File = File>> StoreFiles for FaultyFiles<'a, S> {
    type File = FaultyFile<'a>;

    fn open_file(&self, path: &str, make: bool) -> io::Result<FaultyFile<'a>> {
        self.plan.begin()?;
        Ok(FaultyFile {
            file: self.system.open_file(path, make)?,
            descriptor: self.plan.opened,
            plan: self.plan,
        })
    }

    fn sync_folder(&self, folder: &str) -> io::Result<()> {
        self.plan.begin()?;
        self.system.sync_folder(folder)
    }
}

/// The calls of a file in a row: how many they are, and which of them move pages.
struct Calls {
    count: u64,
    first_page: u64,
    last_page: u64,
}

/// A new file is not found, made, its folder synced, cloned, locked, made three pages, written twice
/// and synced.
const WRITING: Calls = Calls {
    count: 9,
    first_page: 6,
    last_page: 7,
};

/// A file that is there is opened, cloned, locked, asked for its length and read three times.
const READING: Calls = Calls {
    count: 7,
    first_page: 4,
    last_page: 6,
};

impl Calls {
    /// Whether all goes well where this call has this fault.
    fn goes_well(&self, call: u64, fault: Fault) -> bool {
        let moves_page = self.first_page <= call && call <= self.last_page;
        call >= self.count
            || match fault {
                Fault::Error => false,
                Fault::Interrupt => moves_page,
                Fault::Short => true,
                Fault::Nothing => !moves_page,
            }
    }
}

/// Writes a new file, in which this call goes wrong. Either that is told, or the file is as it should
/// be.
fn assert_written<S: StoreFiles<File = File> + Files + Drop>(
    rt: &S,
    path: &str,
    call: u64,
    fault: Fault,
) -> Result<(), Fail> {
    let plan = Plan::failing_at(call, fault);
    let files = FaultyFiles::new(rt, &plan);
    let is_written = write_three(&mut FileDevice::new(&files, path)).is_ok();
    let case = ("writing", call, fault);
    assert_same(&is_written, &WRITING.goes_well(call, fault), case)?;
    if is_written {
        assert_three(&mut FileDevice::new(rt, path))?;
    }
    let _ = fs::remove_file(rt, path);
    Ok(())
}

/// Reads a file, of which this call goes wrong.
fn assert_read<S: StoreFiles<File = File> + Drop>(
    rt: &S,
    path: &str,
    call: u64,
    fault: Fault,
) -> Result<(), Fail> {
    let plan = Plan::failing_at(call, fault);
    let files = FaultyFiles::new(rt, &plan);
    let read = has_three(&mut FileDevice::new(&files, path));
    let want = if READING.goes_well(call, fault) {
        Ok(true)
    } else {
        Err(Failed)
    };
    assert_same(&read, &want, ("reading", call, fault))
}

/// The size of a file that is opened under these descriptors.
fn size_under<S: StoreFiles<File = File> + Drop>(
    rt: &S,
    path: &str,
    opened: i32,
    cloned: i32,
) -> Result<u64, Failed> {
    let plan = Plan::with_descriptors(opened, cloned);
    let files = FaultyFiles::new(rt, &plan);
    FileDevice::new(&files, path).size()
}

#[test]
fn a_fault_of_each_call_of_a_file_is_told(rt: HostRuntime) -> Result<(), Fail> {
    let path = new_path(&rt, "faults")?;
    for fault in &FAULTS {
        for call in 0..12 {
            assert_written(&rt, path.as_str(), call, *fault)?;
        }
    }
    write_three(&mut FileDevice::new(&rt, path.as_str()))?;
    for fault in &FAULTS {
        for call in 0..12 {
            assert_read(&rt, path.as_str(), call, *fault)?;
        }
    }
    fs::remove_file(&rt, path.as_str())?;
    Ok(())
}

#[test]
fn a_file_is_away_from_the_standard_streams(rt: HostRuntime) -> Result<(), Fail> {
    let path = new_path(&rt, "descriptors")?;
    write_three(&mut FileDevice::new(&rt, path.as_str()))?;
    for (opened, cloned, size) in [
        (3, 0, Ok(3)),
        (2, 3, Ok(3)),
        (0, 3, Ok(3)),
        (2, 2, Err(Failed)),
        (1, 0, Err(Failed)),
    ] {
        let found = size_under(&rt, path.as_str(), opened, cloned);
        assert_same(&found, &size, (opened, cloned))?;
    }
    fs::remove_file(&rt, path.as_str())?;
    Ok(())
}

#[test]
fn a_file_has_one_device_at_a_time(rt: HostRuntime) -> Result<(), Fail> {
    let path = new_path(&rt, "locked")?;
    let mut second = FileDevice::new(&rt, path.as_str());
    {
        let mut first = FileDevice::new(&rt, path.as_str());
        write_three(&mut first)?;
        assert_same(&second.size(), &Err(Failed), "its size")?;
        assert_same(&second.set_size(1), &Err(Failed), "another size")?;
        assert_three(&mut first)?;
    }
    assert_three(&mut second)?;
    fs::remove_file(&rt, path.as_str())?;
    Ok(())
}
