// The parts of a session.
use crate::bounding::NUMBERS;
use rss_buffer::Saving;
use rss_store::DurableStore;
use rss_trans::Open;

/// A store with the transactions that are open in it, and what the rules on room and on the log read.
///
/// A call that meets a fault leaves the session as it may not be called again: a stop then leaves
/// what it left before the call, or what the call was to bring there.
pub struct Session<S: Saving> {
    pub store: DurableStore<S>,
    pub(crate) open: Open,
    /// How many home and overflow pages there were at the last checkpoint.
    pub(crate) heap: u32,
    /// How many changes of open transactions survived there.
    pub(crate) surviving: u64,
    /// How many tuples each relation had there, by its number.
    pub(crate) entries: [u32; NUMBERS],
    /// How many changes of its tuples by open transactions survived there.
    pub(crate) survived: [u32; NUMBERS],
}
