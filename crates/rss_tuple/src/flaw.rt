// What may be wrong in a segment whose pages are each in form.
use rss_base::Tid;

/// What is wrong in a segment, if each of its pages by itself is right.
#[derive(Clone, Copy, PartialEq, Eq, Debug)]
pub enum Flaw {
    /// The home entry of this identifier has a body that may not stand there or is too long, leads to
    /// no body in an overflow page, or leads where that of a lesser identifier leads.
    Entry(Tid),

    /// An entry of this overflow page holds something, and no home entry leads to it.
    Unled(u32),
}
