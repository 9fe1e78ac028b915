// Identifiers of tuples.
ghost use Rattle.std.specs.Prelude.{IfSome};
ghost use Rattle.rss_base.specs.Tids.{IsSpelledTid};

/// The identifier of a tuple in its segment: a page and an entry of that page's directory. Below
/// 65,536 and 128 in every store.
#[derive(Clone, Copy, Debug, PartialEq, Eq, PartialOrd, Ord, Hash)]
pub struct Tid {
    pub page: u32,
    pub slot: u16,
}

/// Four bytes spell an identifier's page, and two its slot. It does nothing.
pub fn tid_is_spelled(tid: Option<Tid>)
    ensures { IfSome tid IsSpelledTid }
{}
