// Which bytes of a page belong to bodies.
ghost use Rattle.std.specs.Prelude.{◌*◌, ◌+◌, ◌<◌, ◌≤◌, true, false};
ghost use Rattle.std.specs.Bool.{OnTrue, OnFalse};
ghost use Rattle.rss_base.specs.Sizes.{page_bytes};
ghost use Rattle.rss_page.specs.Marks.{AreBits, IsWithin, Claims, IsClaimed};

use crate::entry_form::Entry;
use rss_base::PAGE_BYTES;

/// For each byte of a page a bit, the low bits of a word for its first bytes.
pub(crate) type Marks = [u64; PAGE_BYTES / 64];

/// Marks the bytes of an entry's body, if none of them is marked yet.
pub(crate) fn claim(marks: &mut Marks, entry: Entry) -> bool
    requires { IsWithin entry }
    ensures claimed { OnTrue result (Claims marks.old entry marks.new) }
    ensures taken { OnFalse result (IsClaimed marks.old entry) }
{
    let Entry::Here { place, length } = entry else {
        return true;
    };
    let end = place + length;
    for word in place / 64..end.div_ceil(64) {
        let bits = bits_of(word, place, end);
        let at = usize::from(word);
        if marks[at] & bits != 0 {
            return false;
        }
        marks[at] |= bits;
    }
    true
}

/// The bits of a word for the bytes from a place up to an end.
fn bits_of(word: u16, place: u16, end: u16) -> u64
    requires low { 64 * word < end }
    requires high { place < 64 * word + 64 }
    requires within { end ≤ page_bytes }
    ensures { AreBits word place end result }
{
    let first = word * 64;
    let from = place.saturating_sub(first);
    let to = (end - first).min(64);
    (u64::MAX << from) & (u64::MAX >> (64 - to))
}
