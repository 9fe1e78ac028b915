// The calls of the engine.
use crate::{Fields, Item, Name, NameList, Spot, Tid, Tuple};

/// A call of the engine. Its first number is that of a transaction.
#[derive(Debug, Drop)]
pub enum Call {
    Begin(u32),
    Save(u32),
    /// Back to this save point; 0 is the begin.
    Restore(u32, u32),
    End(u32),
    Abort(u32),
    Insert(u32, Name, Tuple),
    Fetch(u32, Name, Tid),
    Update(u32, Name, Tid, Tuple),
    Delete(u32, Name, Tid),
    /// A tuple comes into a chain of this link, the one below a parent if the link has parents.
    Connect(u32, Name, Tid, Option<Tid>, Spot),
    Disconnect(u32, Name, Tid),
    Parent(u32, Name, Tid),
    OpenRelation(u32, Name),
    /// From the least key on that is not below this one, if there is one.
    OpenImage(u32, Name, Option<Tuple>),
    OpenLink(u32, Name, Option<Tid>),
    Next(u32, u32),
    CloseScan(u32, u32),
    /// A segment or a relation, exclusively or shared.
    Lock(u32, Item, bool),
    Checkpoint,
    MakeSegment(Name),
    /// A relation by its name, in this segment, with these fields.
    MakeRelation(Name, Name, Fields),
    /// An image by its name, of this relation, unique or not, by these fields.
    MakeImage(Name, Name, bool, NameList),
    /// A link by its name, with this parent relation or none, of this child relation.
    MakeLink(Name, Option<Name>, Name),
    DropSegment(Name),
    DropRelation(Name),
    DropImage(Name),
    DropLink(Name),
}
