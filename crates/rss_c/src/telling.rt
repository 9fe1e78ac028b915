// The lines that are written to a text.
ghost use Rattle.std.specs.Prelude.{◌≡◌, IfOk};
ghost use Rattle.rss_top.specs.Says.{Says};
ghost use Rattle.rss_c.specs.Texts.{text_view};
ghost use Rattle.rss_c.specs.Ends.{fault_status, line_of};

use crate::text::RssText;
use rss_base::{OpenFault, write_all};
use rss_line::{say_damaged, say_not_a_store};
use rss_top::Status;
use std::alloc::{AllocError, Global};

/// The line that the program writes if it ends so. There is none for most ends.
fn line_about(alloc: Global, status: Status) -> Result<Vec<u8>, AllocError>
    ensures { IfOk result (λ line. line.items ≡ line_of status) }
{
    let mut line = Vec::new(alloc);
    match status {
        Status::NotAStore(place) => {
            say_not_a_store(place, &mut line)?;
            Ok(line)
        }
        Status::Damaged(place) => {
            say_damaged(place, &mut line)?;
            Ok(line)
        }
        _ => Ok(line),
    }
}

/// Writes the line that the program writes if it ends so, if there is one, and answers the status
/// with which it then ends.
pub(crate) fn tell(alloc: Global, status: Status, text: &mut RssText) -> Status
    ensures { Says status (line_of status) result (text_view text.old) (text_view text.new) }
{
    let Ok(line) = line_about(alloc, status) else {
        return Status::NoMemory;
    };
    match write_all(text, line.as_slice()) {
        Ok(()) => status,
        Err(_) => Status::WriteFault,
    }
}

/// How the program ends if an opening fails so.
pub(crate) fn status_of(fault: OpenFault) -> Status
    ensures { result ≡ fault_status fault }
{
    match fault {
        OpenFault::Device => Status::DeviceFault,
        OpenFault::NotAStore(place) => Status::NotAStore(place),
        OpenFault::Damaged(place) => Status::Damaged(place),
        OpenFault::WrongSize => Status::WrongSize,
        OpenFault::NoMemory => Status::NoMemory,
    }
}
