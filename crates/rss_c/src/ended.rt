// How a call of C ends.
ghost use Rattle.std.specs.Prelude.{◌≡◌};
ghost use Rattle.rss_c.specs.Ends.{end_number};

use rss_top::Status;

/// How a call ended.
#[derive(Clone, Copy)]
pub(crate) enum Ended {
    /// As a run of the program ends.
    As(Status),
    /// No store is open in the handle.
    NotOpen,
    /// A store is open in the handle already.
    AlreadyOpen,
    /// An earlier line has ended the run, as the program's would have ended.
    Stopped,
    /// A generated script has no such line.
    NoLine,
}

impl Ended {
    /// Its number: the exit status of the program, or one above these.
    pub(crate) fn number(&self) -> u32
        ensures { result ≡ end_number self.now }
    {
        match self {
            Ended::As(status) => u32::from(status.number()),
            Ended::NotOpen => 20,
            Ended::AlreadyOpen => 21,
            Ended::Stopped => 22,
            Ended::NoLine => 23,
        }
    }
}
