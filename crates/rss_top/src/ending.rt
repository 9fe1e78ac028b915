// What the program ends with.
ghost use Rattle.std.specs.Prelude.{◌≡◌};
ghost use Rattle.std.specs.Process.{exit_status as ended_with};
ghost use Rattle.rss_top.specs.Exit.{exit_status};

use crate::Status;
use std::process::ExitCode;

/// What a program ends with whose run ended so.
pub fn exit_code(status: Status) -> ExitCode
    ensures { ended_with result ≡ exit_status status }
{
    ExitCode::from(status.number())
}
