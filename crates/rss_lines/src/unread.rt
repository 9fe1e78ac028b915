// Why a source is read no further.
ghost use Rattle.std.specs.Prelude.{◌≡◌};
ghost use Rattle.rss_lines.specs.declared.unread.Unread.TheVariants.{ReadFault as ReadFailed, NoMemory as MemoryLacked};

use rss_base::Failed;
use std::alloc::AllocError;
use thiserror::Error;

/// Why no line was looked for any further, though the source isn't over.
#[derive(Clone, Copy, Debug, PartialEq, Eq, Error)]
pub enum Unread {
    #[error("the source failed")]
    ReadFault,
    #[error("out of memory")]
    NoMemory,
    /// It gave as many bytes as no script has.
    #[error("a script that is too long")]
    TooLong,
}

impl From<Failed> for Unread {
    ghost from_gives = { λ _ e. e ≡ ReadFailed };

    fn from(_: Failed) -> Self {
        Unread::ReadFault
    }
}

impl From<AllocError> for Unread {
    ghost from_gives = { λ _ e. e ≡ MemoryLacked };

    fn from(_: AllocError) -> Self {
        Unread::NoMemory
    }
}
