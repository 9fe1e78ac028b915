// A store that is open, with the variables of its lines and the steps of its device.
ghost use Rattle.std.specs.Prelude.{◌≡◌, ◌≤◌, true};
ghost use Rattle.rss_buffer.specs.Devices.{device_of};
ghost use Rattle.rss_device.specs.StepDevice.{gone_of};
ghost use Rattle.rss_rsi.specs.Parts.{pages_below, view};

use crate::counts::RssCounts;
use crate::ended::Ended;
use crate::page::RssPage;
use crate::step::RssStep;
use crate::telling::tell;
use crate::text::RssText;
use rss_base::{OpenFault, PAGE_BYTES, Place};
use rss_buffer::Buffer;
use rss_device::StepDevice;
use rss_line::{Names, read_name};
use rss_rsi::{MOST_FRAMES, Rss, format, open};
use rss_stored::{CALLS_MOST, Engine};
use rss_top::{Status, run_line};
use std::alloc::Global;

/// Why no store was opened, and the device as it was handed back. There is none at most of the ends
/// for want of memory, nor if the bytes aren't whole pages.
#[derive(Drop)]
pub(crate) struct Refused {
    pub(crate) fault: OpenFault,
    pub(crate) device: Option<StepDevice>,
}

impl Refused {
    ghost use Rattle.std.specs.Prelude.{Some};

    fn without_device(fault: OpenFault) -> Refused
        ensures { result.fault ≡ fault }
    {
        Refused {
            fault,
            device: None,
        }
    }

    fn with(fault: OpenFault, device: StepDevice) -> Refused
        ensures fault { result.fault ≡ fault }
        ensures device { result.device ≡ Some device }
    {
        Refused {
            fault,
            device: Some(device),
        }
    }
}

/// A store that is open, with the variables of the lines that were run over it.
pub struct OpenStore {
    engine: Rss<Buffer<StepDevice>>,
    names: Names,
    /// It answers lines. After one that failed it doesn't.
    up: bool,
    /// The number of the step that is taken next.
    next: u64,
    ghost ready: { up ≡ true → (view engine).is_up },
    ghost kept: { up ≡ true → gone_of (device_of (pages_below engine)) ≤ next },
}

impl OpenStore {
    ghost use Rattle.std.specs.Prelude.{◌≤◌, false, IfOk, IfErr, IsTrue};
    ghost use Rattle.rss_device.specs.StepDevice.{view_of};
    ghost use Rattle.rss_check.specs.Refused.{IsUnopened};
    ghost use Rattle.rss_c.specs.Texts.{text_view, empty_text};
    ghost use Rattle.rss_c.specs.Stores.{device_in, AreRefused, FailsFor, IsMadeOf, IsOpenedOn, IsOver, IsUnmade};
    ghost use Rattle.rss_c.specs.Stores.{HasCounts, HasNoStep, HasPage, IsLevelsOf, IsLineEnd, TakesStep};

    /// Opens the store of these bytes.
    pub(crate) fn open(alloc: Global, bytes: &[u8]) -> Result<Box<OpenStore>, Refused>
        ensures opened { IfOk result (λ store. IsOpenedOn bytes.now store.value) }
        ensures refused { IfErr result (AreRefused bytes.now) }
    {
        let (pages, rest) = bytes.as_chunks::<PAGE_BYTES>();
        if !rest.is_empty() {
            let torn = OpenFault::NotAStore(Place::Size);
            return Err(Refused::without_device(torn));
        }
        let Ok(pages) = Vec::from_slice(alloc, pages) else {
            return Err(Refused::without_device(OpenFault::NoMemory));
        };
        let device = StepDevice::new(alloc, pages);
        OpenStore::over(alloc, device)
    }

    /// Makes an empty store of so many slots and log pages, and opens it.
    pub(crate) fn make(alloc: Global, slots: u32, log_pages: u32) -> Result<Box<OpenStore>, Refused>
        ensures made { IfOk result (λ store. IsMadeOf slots log_pages store.value) }
        ensures unmade { IfErr result (IsUnmade slots log_pages) }
    {
        let mut device = StepDevice::new(alloc, Vec::new(alloc));
        if let Err(fault) = format(alloc, &mut device, slots, log_pages) {
            return Err(Refused::with(fault, device));
        }
        OpenStore::over(alloc, device)
    }

    /// Opens the store on a device, of whose steps none was taken.
    fn over(alloc: Global, device: StepDevice) -> Result<Box<OpenStore>, Refused>
        ensures opened { IfOk result (λ store. IsOver device store.value) }
        ensures refused { IfErr result (λ e. IsUnopened (view_of device) e.fault) }
        ensures cause { IfErr result (FailsFor device) }
    {
        let engine = match open(alloc, device, MOST_FRAMES) {
            Ok(engine) => engine,
            Err(unopened) => return Err(Refused::with(unopened.fault, unopened.device)),
        };
        if engine.pages().device().gone() > 0 {
            let device = engine.into_pages().into_device();
            return Err(Refused::with(OpenFault::Device, device));
        }
        let store = OpenStore {
            engine,
            names: Names::new(alloc),
            up: true,
            next: 0,
        };
        match Box::new(alloc, store) {
            Ok(store) => Ok(store),
            Err(_) => Err(Refused::without_device(OpenFault::NoMemory)),
        }
    }

    /// Runs a line. Its reply is in the text; if the store was found to be damaged, the program's
    /// line about that. If a step is gone that wasn't taken, the device has failed: what the file
    /// lacks must not go unseen.
    pub(crate) fn run(
        &mut self,
        alloc: Global,
        line: &[u8],
        text: &mut RssText,
    ) -> Result<(), Ended>
        requires { text_view text.old ≡ empty_text }
        ensures { IsLineEnd self.old self.new line.now (text_view text.new) result }
    {
        if !self.up {
            return Err(Ended::Stopped);
        }
        if self.engine.calls() >= CALLS_MOST {
            return Err(Ended::As(Status::TooLong));
        }
        self.up = false;
        let mut reply = Vec::new(alloc);
        let ran = run_line(
            &mut self.engine,
            alloc,
            &mut self.names,
            line,
            &mut reply,
            text,
        );
        if self.device().gone() > self.next {
            text.clear();
            return Err(Ended::As(Status::DeviceFault));
        }
        match ran {
            Ok(()) => {
                self.up = true;
                Ok(())
            }
            Err(status) => Err(Ended::As(tell(alloc, status, text))),
        }
    }

    pub(crate) fn is_up(&self) -> bool
        ensures { result ≡ self.now.up }
    {
        self.up
    }

    /// The device under it.
    fn device(&self) -> &StepDevice
        ensures { result.now ≡ device_in self.now }
    {
        self.engine.pages().device()
    }

    /// Takes the next step of its device, if there is one.
    pub(crate) fn take_step(&mut self, step: &mut RssStep) -> bool
        ensures taken { IsTrue result → TakesStep self.old self.new step.new }
        ensures same { result ≡ false → self.new ≡ self.old }
        ensures none { result ≡ false → HasNoStep self.old }
    {
        let Some(next) = self.next.checked_add(1) else {
            return false;
        };
        let Some(taken) = self.device().step(self.next) else {
            return false;
        };
        step.put(taken);
        self.device().forget(next);
        self.next = next;
        true
    }

    /// Reads a page of its device, if there is one at this place.
    pub(crate) fn read(&self, at: u64, page: &mut RssPage) -> bool
        ensures there { IsTrue result → HasPage self.now at page.new }
        ensures none { result ≡ false → (view_of (device_in self.now)).size ≤ at }
    {
        let Some(found) = self.device().pages().get(at as usize) else {
            return false;
        };
        page.put(found);
        true
    }

    /// How many levels of nodes the image of this name has; 0 if none is defined.
    pub(crate) fn levels(&self, name: &[u8]) -> u8
        ensures { IsLevelsOf self.now name.now result }
    {
        let Some(name) = read_name(name) else {
            return 0;
        };
        match self.engine.levels(&name) {
            Some(levels) => levels,
            None => 0,
        }
    }

    /// What is counted of the store.
    pub(crate) fn counts(&self) -> RssCounts
        ensures { HasCounts self.now result }
    {
        RssCounts {
            pages: self.device().pages().len() as u64,
            calls: self.engine.calls(),
            slots: self.engine.slots(),
            room: self.engine.room(),
            log_free: self.engine.log_free(),
        }
    }
}

impl Drop for OpenStore {
    fn drop(self) {
        let OpenStore {
            engine,
            names: _,
            up: _,
            next: _,
        } = self;
        drop(engine.into_pages().into_device());
    }
}
