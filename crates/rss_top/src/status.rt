// How a run ends.
ghost use Rattle.std.specs.Prelude.{◌≡◌};
ghost use Rattle.rss_top.specs.Exit.{exit_status};
ghost use Rattle.rss_top.specs.Lines.{unread_status};

use rss_base::Place;
use rss_lines::Unread;

/// How a run ended. Each status is the exit status of the program, by its number.
#[derive(Clone, Copy, Debug, PartialEq, Eq)]
pub enum Status {
    /// The script was run to its end.
    Ok,
    /// The words of the command line are not those of a command.
    Words,
    /// The source failed.
    ReadFault,
    /// The sink failed.
    WriteFault,
    /// The device failed.
    DeviceFault,
    /// The device holds no store. A look before anything is written finds it here first.
    NotAStore(Place),
    /// The device holds no store, by its log or for too many pages, or a line found it so.
    Damaged(Place),
    /// Memory ran out, or the positions of the store's log are used up.
    NoMemory,
    /// The script is longer than a script may be.
    TooLong,
    /// A store can't have the size that was asked for.
    WrongSize,
}

impl Status {
    /// The exit status of a program that ends so.
    pub fn number(&self) -> u8
        ensures { result ≡ exit_status self.now }
    {
        match self {
            Status::Ok => 0,
            Status::Words => 1,
            Status::ReadFault => 2,
            Status::WriteFault => 3,
            Status::DeviceFault => 4,
            Status::NotAStore(_) => 5,
            Status::Damaged(_) => 10,
            Status::NoMemory => 6,
            Status::TooLong => 7,
            Status::WrongSize => 8,
        }
    }
}

impl From<Unread> for Status {
    ghost from_gives = { λ why status. status ≡ unread_status why };

    fn from(why: Unread) -> Self {
        match why {
            Unread::ReadFault => Status::ReadFault,
            Unread::NoMemory => Status::NoMemory,
            Unread::TooLong => Status::TooLong,
        }
    }
}
