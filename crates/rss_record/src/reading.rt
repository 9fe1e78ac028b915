// Records, read from bytes.
ghost use Rattle.std.specs.Prelude.{◌≡◌, ◌≤◌, List, ℕ, length, drop, IfSome, IfNone};
ghost use Rattle.rss_base.specs.LogRecords.{BeginsWith, record_size};
ghost use Rattle.rss_base.specs.declared.log_record.LogRecord.{LogRecord as SomeRecord};
ghost use Rattle.rss_record.specs.Reading.{Gives, tuple_change_at, chain_change_at, change_at, by_kind_at, record_at};

use crate::fields::Fields;
use crate::kinds::{ABORT, CHECKPOINT, CONNECT, DELETE, DISCONNECT, END, INSERT, RESTORE, UPDATE};
use rss_base::{Change, LogRecord};

/// The record with which the bytes begin, and its size; none exactly if they begin with no record.
/// It takes no memory.
pub fn read_record(bytes: &[u8]) -> Option<(LogRecord, u32)>
    ensures found { IfSome result (λ f. BeginsWith bytes.now f.0 (drop f.1 bytes.now)) }
    ensures size { IfSome result (λ f. f.1 ≡ record_size f.0) }
    ensures within { IfSome result (λ f. f.1 ≤ length bytes.now) }
    ensures none { IfNone result ((r : SomeRecord) (rest : List ℕ)
        → BeginsWith bytes.now r rest → ⊥) }
{
    let mut fields = Fields::new(bytes);
    let record = read(&mut fields)?;
    let size = (bytes.len() - fields.len()) as u32;
    Some((record, size))
}

#[tactic(auto, unfolding(crate::specs::Reading::record_at))]
fn read(fields: &mut Fields) -> Option<LogRecord>
    ensures { Gives result fields.new (record_at fields.old) }
{
    let kind = fields.byte()?;
    if kind == CHECKPOINT {
        let marks = fields.marks()?;
        return Some(LogRecord::Checkpoint(marks));
    }
    let by = fields.u32()?;
    read_by_kind(fields, kind, by)
}

/// A record of a transaction.
#[tactic(auto, unfolding(crate::specs::Reading::by_kind_at))]
fn read_by_kind(fields: &mut Fields, kind: u8, by: u32) -> Option<LogRecord>
    ensures { Gives result fields.new (by_kind_at kind by fields.old) }
{
    match kind {
        RESTORE => {
            let position = fields.u64()?;
            Some(LogRecord::Restore(by, position))
        }
        END => Some(LogRecord::End(by)),
        ABORT => Some(LogRecord::Abort(by)),
        _ => {
            let change = read_change(fields, kind)?;
            Some(LogRecord::Change(by, change))
        }
    }
}

#[tactic(auto, unfolding(crate::specs::Reading::change_at))]
fn read_change(fields: &mut Fields, kind: u8) -> Option<Change>
    ensures { Gives result fields.new (change_at kind fields.old) }
{
    match kind {
        INSERT | DELETE | UPDATE => read_tuple_change(fields, kind),
        CONNECT | DISCONNECT => read_chain_change(fields, kind),
        _ => None,
    }
}

#[tactic(auto, unfolding(crate::specs::Reading::tuple_change_at))]
fn read_tuple_change(fields: &mut Fields, kind: u8) -> Option<Change>
    ensures { Gives result fields.new (tuple_change_at kind fields.old) }
{
    let relation = fields.byte()?;
    let tid = fields.tid()?;
    let values = fields.values()?;
    if kind == INSERT {
        return Some(Change::Insert {
            relation,
            tid,
            values,
        });
    }
    if kind == DELETE {
        return Some(Change::Delete {
            relation,
            tid,
            values,
        });
    }
    let to = fields.values()?;
    Some(Change::Update {
        relation,
        tid,
        from: values,
        to,
    })
}

#[tactic(auto, unfolding(crate::specs::Reading::chain_change_at))]
fn read_chain_change(fields: &mut Fields, kind: u8) -> Option<Change>
    ensures { Gives result fields.new (chain_change_at kind fields.old) }
{
    let link = fields.byte()?;
    let parent = fields.place()?;
    let child = fields.tid()?;
    let left = fields.place()?;
    if kind == CONNECT {
        return Some(Change::Connect {
            link,
            parent,
            child,
            left,
        });
    }
    Some(Change::Disconnect {
        link,
        parent,
        child,
        left,
    })
}
