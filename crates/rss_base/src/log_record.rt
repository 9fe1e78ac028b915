// Records of the log.
use crate::{Change, Marks};

/// A record of the log. All but the last begin with the number of their transaction.
#[derive(Drop)]
pub enum LogRecord {
    Change(u32, Change),
    /// The transaction's changes from this position of the log on are cut.
    Restore(u32, u64),
    End(u32),
    Abort(u32),
    /// The tables were saved while these transactions were open.
    Checkpoint(Marks),
}
