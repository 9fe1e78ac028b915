// What the engine answers.
ghost use Rattle.std.specs.Prelude.{◌≡◌};
ghost use Rattle.rss_base.specs.Answers.{page_error};
ghost use Rattle.rss_base.specs.declared.answer.CallError.TheVariants.{Refused};

use crate::{PageFault, Place, Refusal, Tid, Tuple};

/// What a call that was done gives.
#[derive(Debug, Drop)]
pub enum Reply {
    Ok,
    Tid(Tid),
    Number(u32),
    Tuple(Tuple),
    Row(Tid, Tuple),
    /// A scan is at its end.
    End,
    /// There is no such tuple to give.
    Nothing,
}

/// Why a call has no reply.
#[derive(Debug, Drop)]
pub enum CallError {
    /// The machine refuses the call, and nothing has changed.
    Refused(Refusal),
    /// The device failed. Each later call is answered `Down`.
    Device,
    /// The pages are no store. It never comes over a device that tells its contents, and each later
    /// call is answered `Down`.
    Damaged(Place),
    /// An earlier call has met a fault of the device or of its pages.
    Down,
    /// Memory ran out. The call changed nothing, and the next one is answered.
    NoMemory,
}

impl From<Refusal> for CallError {
    ghost from_gives = { λ why e. e ≡ Refused why };

    fn from(why: Refusal) -> Self {
        CallError::Refused(why)
    }
}

impl From<PageFault> for CallError {
    ghost from_gives = { λ fault e. e ≡ page_error fault };

    fn from(fault: PageFault) -> Self {
        match fault {
            PageFault::Device => CallError::Device,
            PageFault::Damaged(place) => CallError::Damaged(place),
            PageFault::NoMemory => CallError::NoMemory,
        }
    }
}
