// The log on its way to the disk.
ghost use Rattle.std.specs.Prelude.{◌≡◌, ◌≢◌, ◌+◌, ◌-◌, ◌*◌, ◌/◌, ◌<◌, ◌≤◌, OnOk};
ghost use Rattle.rss_base.specs.DiskRule.{Told, IsTold, WritesIn};
ghost use Rattle.rss_base.specs.Layout.{IsWellFormed};
ghost use Rattle.rss_base.specs.LogPages.{IsNewPiece};
ghost use Rattle.rss_base.specs.Sizes.{piece_bytes};
ghost use Rattle.rss_buffer.specs.Saving.{SavingCall};
ghost use Rattle.rss_buffer.specs.declared.stage.Stage.TheVariants.{Switched};
ghost use Rattle.rss_log.specs.Logs.{IsLog, tail_of};
ghost use Rattle.rss_check.specs.Layouts.{IsLogBehind};
ghost use Rattle.rss_store.specs.Commits.{new_pieces};
ghost use Rattle.rss_store.specs.Selecting.{HoldsPiecesWithin};

use rss_base::{PAGE_BYTES, PIECE_BYTES, PageFault, Root, Tail, log_at};
use rss_buffer::Saving;
use rss_log::Log;

/// How many bytes of the log a piece has.
pub(crate) const PIECE_LENGTH: u64 = PIECE_BYTES as u64;

/// Writes the pieces of the log that became full since this root was written.
pub(crate) fn write_pieces<S: Saving>(
    pages: &mut S,
    log: &Log,
    root: &Root,
) -> Result<(), PageFault>
    requires formed { IsWellFormed root.now }
    requires behind { IsLogBehind root.now log.now }
    requires slots { (S.view pages.old).slots ≡ root.now.slots }
    requires log_pages { (S.view pages.old).backing.log_pages ≡ root.now.log_pages }
    ensures written { OnOk result (Told (S.view pages.new).disk
        (HoldsPiecesWithin root.now log.now (log.now.end / piece_bytes))) }
    ensures only { WritesIn (IsNewPiece root.now log.now.end)
        (S.view pages.old).disk (S.view pages.new).disk }
    ensures stage { (S.saving pages.old).stage ≢ Switched
        → (S.saving pages.new).stage ≡ (S.saving pages.old).stage }
    ensures backing { (S.view pages.new).backing ≡ (S.view pages.old).backing }
    ensures writes { (S.view pages.new).writes
        ≤ (S.view pages.old).writes + new_pieces root.now log.now.end }
    ensures did { SavingCall (S.view pages.old) (S.view pages.new)
        (S.saving pages.old) (S.saving pages.new) result }
{
    let first = log_at(root.slots);
    let ring = u64::from(root.log_pages);
    let mut page = [0u8; PAGE_BYTES];
    for number in root.end / PIECE_LENGTH..log.end() / PIECE_LENGTH {
        log.pieces(number, &mut page);
        pages.write_piece(first + number % ring, &page)?;
    }
    Ok(())
}

/// The bytes of the log after its last full piece.
pub(crate) fn tail_of(log: &Log) -> Tail
    ensures { result ≡ tail_of log.now }
{
    let mut tail = Tail::new();
    log.tail(&mut tail);
    tail
}
