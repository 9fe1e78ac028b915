// The laws of the log's bytes.
ghost use Rattle.std.specs.Prelude.{◌≡◌, ◌+◌, ◌++◌, ◌∷◌, ◌/◌, ◌%◌, ◌<◌, ◌≤◌, ℕ, List, length};
ghost use Rattle.rss_base.specs.Sizes.{piece_bytes};
ghost use Rattle.rss_base.specs.DiskRule.{Pages as DevicePages, SameOff};
ghost use Rattle.rss_base.specs.Layout.{log_at};
ghost use Rattle.rss_base.specs.declared.root.Root.{Root as SomeRoot};
ghost use Rattle.rss_base.specs.LogRecords.{record_size, Placed, ArePlaced, Parses, BeginsWith};
ghost use Rattle.rss_base.specs.LogPages.{log_bytes, piece, IsNewPiece, HasRoom};
ghost use Rattle.rss_base.specs.LogPages.{Grows};
ghost use Rattle.rss_log.specs.Logs.{LogView, IsLog, HasRecords, bytes_from, piece_of, piece_start};
ghost use Rattle.rss_log.specs.Logs.{tail_of};

/// Bytes spell one list of records at most.
pub fn spelled_once()
    ensures { (bytes : List ℕ) (from until until_too : ℕ) (ps qs : List Placed)
        → Parses bytes from ps until → Parses bytes from qs until_too → ps ≡ qs }
{}

/// If the log's bytes are those of records, each of them stands at its position, with the next one
/// after it.
pub fn listed_records_stand()
    ensures { (log : LogView) (before after : List Placed) (p : Placed)
        → HasRecords log (before ++ p ∷ after)
        → BeginsWith (bytes_from log p.at) p.is (bytes_from log (p.at + record_size p.is)) }
{}

/// While the pieces are written that became full since a root was last written, whatever a stop
/// leaves of their pages, that root has its log.
pub fn old_log_stays()
    ensures { (before image : DevicePages) (root : SomeRoot) (end : ℕ)
        → root.head ≤ root.end → HasRoom root end → SameOff (IsNewPiece root end) before image
        → log_bytes image root ≡ log_bytes before root }
{}

/// If the full pieces of a log stand in their pages, the log of the root that was last written has
/// grown by the bytes that were appended since, and the tail is the log's.
pub fn pieces_grow()
    ensures { (log : LogView) (root : SomeRoot) (more : List ℕ) (pages : DevicePages) → IsLog log
        → piece_start log.head ≤ piece_start root.end → log.end ≡ root.end + length more
        → bytes_from log (piece_start root.end) ≡ root.tail ++ more
        → ((k : ℕ) → root.end / piece_bytes ≤ k → k < log.end / piece_bytes
        → piece pages (log_at root.slots) root.log_pages k ≡ piece_of log k)
        → Grows root more pages log.end (tail_of log) }
{}

/// A root whose log has more records after those of the old root, and a head after some of them,
/// has the rest of them all.
pub fn next_log_follows()
    ensures { (pages : DevicePages) (root next : SomeRoot) (more : List ℕ)
        (ps qs gone kept : List Placed)
        → next.slots ≡ root.slots → next.log_pages ≡ root.log_pages → root.head < root.end
        → length next.tail ≡ next.end % piece_bytes → Grows root more pages next.end next.tail
        → Parses (log_bytes pages root) root.head ps root.end → Parses more root.end qs next.end
        → ps ++ qs ≡ gone ++ kept
        → ArePlaced root.head gone next.head → ArePlaced next.head kept next.end
        → Parses (log_bytes pages next) next.head kept next.end }
{}
