// The marks of pages: whether a page is mapped, and what was noted on it.
ghost use Rattle.std.specs.Prelude.{◌≡◌, ◌<◌, ◌≤◌, ℕ, length, IfSome};
ghost use Rattle.rss_notes.specs.Marks.{column_at, mark_of, with_mark};

use crate::maxima::Maxima;
use rss_base::{PageKey, SEGMENTS, Space};

/// How many columns of marks there are: one for each segment's home pages and its overflow pages.
pub(crate) const COLUMNS: usize = 16;

/// The mark of a page that isn't mapped.
pub(crate) const UNMAPPED: u16 = 0;

/// The mark of a mapped page without a note. It is no less than any that tells of a note.
pub(crate) const UNNOTED: u16 = u16::MAX;

/// The column of a space in a segment, if its pages are noted.
pub(crate) fn column_at(space: Space, segment: u8) -> Option<usize>
    ensures place { result ≡ column_at space segment }
    ensures within { IfSome result (λ column. column < 16) }
{
    if segment == 0 || segment > SEGMENTS {
        return None;
    }
    let segment = usize::from(segment);
    match space {
        Space::Home => Some(segment - 1),
        Space::Overflow => Some(8 + segment - 1),
        Space::Image | Space::System => None,
    }
}

/// The mark of a page, and 0 if it can have none.
pub(crate) fn mark_of(columns: &[Maxima], key: PageKey) -> u16
    requires { length columns.now ≡ 16 }
    ensures { result ≡ mark_of columns.now key }
{
    let Some(column) = column_at(key.space, key.segment) else {
        return UNMAPPED;
    };
    let marks = &columns[column];
    let number = key.number as usize;
    if number < marks.len() {
        marks.get(number)
    } else {
        UNMAPPED
    }
}

/// Gives a page this mark, if it can have one.
pub(crate) fn put_mark(columns: &mut [Maxima], key: PageKey, mark: u16)
    requires { length columns.old ≡ 16 }
    ensures { columns.new ≡ with_mark columns.old key mark }
{
    if let Some(column) = column_at(key.space, key.segment) {
        let marks = &mut columns[column];
        let number = key.number as usize;
        if number < marks.len() {
            marks.set(number, mark);
        }
    }
}
