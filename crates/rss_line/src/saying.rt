// Writing the line of an answer.
ghost use Rattle.std.specs.Prelude.{◌≡◌, ◌++◌, codes};
ghost use Rattle.rss_model.specs.ReplyText.{answer_line, not_a_store_line, damaged_line, reply_text, refusal_text, item_text, kind_text, limit_text, place_text, space_text};
ghost use Rattle.rss_line.specs.Appends.{Appends};

use crate::value_text::append_values;
use crate::word::Word::{Name, Number, Text, Tid};
use crate::word::append;
use rss_base::{Item, Kind, LimitKind, Place, Refusal, Reply, Space};
use std::alloc::AllocError;

/// Appends the line of an answer, with its end. If memory runs out, a front of it may be there.
pub fn say(answer: &Result<Reply, Refusal>, into: &mut Vec<u8>) -> Result<(), AllocError>
    ensures { Appends (answer_line answer.now) into.old into.new result }
{
    match answer {
        Ok(reply) => say_reply(reply, into)?,
        Err(why) => say_refusal(why, into)?,
    }
    into.push(b'\n')?;
    Ok(())
}

fn say_reply(reply: &Reply, into: &mut Vec<u8>) -> Result<(), AllocError>
    ensures { Appends (reply_text reply.now) into.old into.new result }
{
    match reply {
        Reply::Ok => append("ok", &[], into),
        Reply::Tid(tid) => append("ok", &[Tid(*tid)], into),
        Reply::Number(number) => append("ok", &[Number(u64::from(*number))], into),
        Reply::Tuple(tuple) => {
            append("ok", &[], into)?;
            append_values(tuple.as_slice(), into)
        }
        Reply::Row(tid, tuple) => {
            append("ok", &[Tid(*tid)], into)?;
            append_values(tuple.as_slice(), into)
        }
        Reply::End => append("end", &[], into),
        Reply::Nothing => append("none", &[], into),
    }
}

fn say_refusal(why: &Refusal, into: &mut Vec<u8>) -> Result<(), AllocError>
    ensures { Appends (refusal_text why.now) into.old into.new result }
{
    match why {
        Refusal::Words => append("refused 1 words", &[], into),
        Refusal::NoTransaction => append("refused 2 no transaction", &[], into),
        Refusal::AlreadyOpen => append("refused 3 already open", &[], into),
        Refusal::TooMany => append("refused 4 too many", &[], into),
        Refusal::NoSuch(kind) => append("refused 5 no such", &[Text(kind_word(*kind))], into),
        Refusal::NameTaken => append("refused 6 name taken", &[], into),
        Refusal::Limit(limit) => append("refused 7 limit", &[Text(limit_word(*limit))], into),
        Refusal::BadTuple(field) => {
            append("refused 8 bad tuple", &[Number(u64::from(*field))], into)
        }
        Refusal::NoTuple(relation, tid) => {
            append("refused 9 no tuple", &[Name(*relation), Tid(*tid)], into)
        }
        Refusal::Duplicate(image, tid) => {
            append("refused 10 duplicate", &[Name(*image), Tid(*tid)], into)
        }
        Refusal::Connected(link) => append("refused 11 connected", &[Name(*link)], into),
        Refusal::NotConnected(link) => append("refused 12 not connected", &[Name(*link)], into),
        Refusal::NotEmpty => append("refused 13 not empty", &[], into),
        Refusal::Busy { item, holder } => say_busy(item, *holder, into),
        Refusal::Full { slots, needed } => append(
            "refused 15 full",
            &[Number(u64::from(*slots)), Number(*needed)],
            into,
        ),
        Refusal::LogFull { free, needed } => append(
            "refused 16 log full",
            &[Number(*free), Number(*needed)],
            into,
        ),
        Refusal::TransactionsOpen(least) => append(
            "refused 17 transactions open",
            &[Number(u64::from(*least))],
            into,
        ),
        Refusal::NoSave => append("refused 18 no save", &[], into),
    }
}

fn say_busy(item: &Item, holder: u32, into: &mut Vec<u8>) -> Result<(), AllocError>
    ensures { Appends (refusal_text (Refusal.Busy item.now holder)) into.old into.new result }
{
    append("refused 14 busy ", &[], into)?;
    say_item(item, into)?;
    append(" by", &[Number(u64::from(holder))], into)?;
    Ok(())
}

fn say_item(item: &Item, into: &mut Vec<u8>) -> Result<(), AllocError>
    ensures { Appends (item_text item.now) into.old into.new result }
{
    match item {
        Item::Segment(name) => append("segment", &[Name(*name)], into),
        Item::Relation(name) => append("relation", &[Name(*name)], into),
        Item::Tuple(relation, tid) => append("tuple", &[Name(*relation), Tid(*tid)], into),
        Item::Chain(link, None) => append("chain", &[Name(*link), Text("none")], into),
        Item::Chain(link, Some(parent)) => append("chain", &[Name(*link), Tid(*parent)], into),
        Item::Key(image, values) => {
            append("key", &[Name(*image)], into)?;
            append_values(values.as_slice(), into)
        }
    }
}

fn kind_word(kind: Kind) -> &'static str
    ensures { result.now ≡ kind_text kind }
{
    match kind {
        Kind::Segment => "segment",
        Kind::Relation => "relation",
        Kind::Image => "image",
        Kind::Link => "link",
        Kind::Field => "field",
        Kind::Scan => "scan",
    }
}

fn limit_word(limit: LimitKind) -> &'static str
    ensures { result.now ≡ limit_text limit }
{
    match limit {
        LimitKind::Segments => "segments",
        LimitKind::Relations => "relations",
        LimitKind::Images => "images",
        LimitKind::Links => "links",
        LimitKind::Fields => "fields",
        LimitKind::Width => "width",
        LimitKind::KeyWidth => "key",
        LimitKind::Roles => "roles",
        LimitKind::Tuples => "tuples",
        LimitKind::Identifiers => "identifiers",
        LimitKind::Scans => "scans",
    }
}

/// Appends the line of a device that is not a store, with its end. If memory runs out, a front of
/// it may be there.
pub fn say_not_a_store(place: Place, into: &mut Vec<u8>) -> Result<(), AllocError>
    ensures { Appends (not_a_store_line place) into.old into.new result }
{
    say_with_place("not a store ", place, into)
}

/// Appends the line of a device whose layout is sound, and whose pages are no store, with its end.
/// If memory runs out, a front of it may be there.
pub fn say_damaged(place: Place, into: &mut Vec<u8>) -> Result<(), AllocError>
    ensures { Appends (damaged_line place) into.old into.new result }
{
    say_with_place("damaged ", place, into)
}

/// Appends a text and a place, and ends the line.
fn say_with_place(text: &str, place: Place, into: &mut Vec<u8>) -> Result<(), AllocError>
    ensures { Appends (text.now ++ place_text place ++ codes "\n") into.old into.new result }
{
    append(text, &[], into)?;
    say_place(place, into)?;
    append("\n", &[], into)?;
    Ok(())
}

fn say_place(place: Place, into: &mut Vec<u8>) -> Result<(), AllocError>
    ensures { Appends (place_text place) into.old into.new result }
{
    match place {
        Place::Size => append("size", &[], into),
        Place::Root(root) => append("root", &[Number(u64::from(root))], into),
        Place::Slot(slot) => append("slot", &[Number(u64::from(slot))], into),
        Place::Catalog(page) => append("catalog", &[Number(u64::from(page))], into),
        Place::Page(key) => append(
            "page",
            &[
                Number(u64::from(key.segment)),
                Text(space_word(key.space)),
                Number(u64::from(key.number)),
            ],
            into,
        ),
        Place::Tuple(segment, tid) => {
            append("tuple", &[Number(u64::from(segment)), Tid(tid)], into)
        }
        Place::Count(relation) => append("count", &[Number(u64::from(relation))], into),
        Place::Image(image) => append("image", &[Number(u64::from(image))], into),
        Place::Link(link) => append("link", &[Number(u64::from(link))], into),
        Place::Log(position) => append("log", &[Number(position)], into),
        Place::Room => append("room", &[], into),
    }
}

fn space_word(space: Space) -> &'static str
    ensures { result.now ≡ space_text space }
{
    match space {
        Space::Home => "home",
        Space::Overflow => "overflow",
        Space::Image => "image",
        Space::System => "system",
    }
}
