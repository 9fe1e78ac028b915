// Failures of what lies outside, and stores that don't open.
ghost use Rattle.std.specs.Prelude.{◌≡◌};
ghost use Rattle.rss_base.specs.Answers.{open_error};
ghost use Rattle.rss_base.specs.declared.fault.OpenFault.TheVariants.{Device as DeviceFault};
ghost use Rattle.rss_base.specs.declared.fault.PageFault.TheVariants.{Device as PageDeviceFault};

use crate::Place;
use thiserror::Error;

/// A device, a source or a sink failed, and has counted it.
#[derive(Clone, Copy, Debug, PartialEq, Eq, Error)]
#[error("the device, the source or the sink failed")]
pub struct Failed;

/// Why a store doesn't open.
#[derive(Clone, Copy, Debug, PartialEq, Eq, Error)]
pub enum OpenFault {
    #[error("the device failed")]
    Device,
    /// The layout of the device, of its root or of its map is out of form.
    #[error("not a store: {0:?}")]
    NotAStore(Place),
    /// The layout is sound, and what the pages hold is no store.
    #[error("damaged: {0:?}")]
    Damaged(Place),
    /// A store can't have this size.
    #[error("no size of a store")]
    WrongSize,
    #[error("out of memory")]
    NoMemory,
}

impl From<Failed> for OpenFault {
    ghost from_gives = { λ _ e. e ≡ DeviceFault };

    fn from(_: Failed) -> Self {
        OpenFault::Device
    }
}

/// Why a page can't be read, written, taken or given back.
#[derive(Clone, Copy, Debug, PartialEq, Eq, Error)]
pub enum PageFault {
    #[error("the device failed")]
    Device,
    /// Never over a device that tells its contents.
    #[error("damaged: {0:?}")]
    Damaged(Place),
    #[error("out of memory")]
    NoMemory,
}

impl From<Failed> for PageFault {
    ghost from_gives = { λ _ e. e ≡ PageDeviceFault };

    fn from(_: Failed) -> Self {
        PageFault::Device
    }
}

impl From<PageFault> for OpenFault {
    ghost from_gives = { λ fault e. e ≡ open_error fault };

    fn from(fault: PageFault) -> Self {
        match fault {
            PageFault::Device => OpenFault::Device,
            PageFault::Damaged(place) => OpenFault::Damaged(place),
            PageFault::NoMemory => OpenFault::NoMemory,
        }
    }
}

/// A device that wasn't opened, handed back with the reason.
#[derive(Debug, Drop)]
pub struct Unopened<D> {
    pub device: D,
    pub fault: OpenFault,
}
