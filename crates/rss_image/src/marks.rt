// Marks of pages.
ghost use Rattle.std.specs.Prelude.{◌↔◌, ◌∷◌, [], IsTrue};
ghost use Rattle.rss_image.specs.Marks.{IsMarked, MarksAll};

/// How many marks a word has.
const WORD_MARKS: u32 = 64;

/// Marks the page of a number, if there is a bit for it.
pub(crate) fn mark(marks: &mut [u64], number: u32)
    ensures { MarksAll (number ∷ []) marks.old marks.new }
{
    let at = (number / WORD_MARKS) as usize;
    if at >= marks.len() {
        return;
    }
    let word = marks[at];
    marks[at] = word | 1 << (number % WORD_MARKS);
}

/// Whether the page of a number is marked.
pub fn is_marked(marks: &[u64], number: u32) -> bool
    ensures { IsTrue result ↔ IsMarked marks.now number }
{
    let at = (number / WORD_MARKS) as usize;
    if at >= marks.len() {
        return false;
    }
    marks[at] >> (number % WORD_MARKS) & 1 == 1
}
