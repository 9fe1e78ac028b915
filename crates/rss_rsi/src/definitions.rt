// The calls that define.
ghost use Rattle.std.specs.Prelude.{◌≡◌, ◌<◌, true, All, IfOk, IsErrOf};
ghost use Rattle.rss_base.specs.Names.{IsName};
ghost use Rattle.rss_base.specs.TupleTypes.{field_names};
ghost use Rattle.rss_base.specs.declared.answer.CallError.TheVariants.{NoMemory};
ghost use Rattle.rss_base.specs.declared.call.Call.TheVariants.{MakeSegment, MakeRelation, MakeLink, DropSegment, DropRelation, DropLink};
ghost use Rattle.rss_lock.specs.Table.{told};
ghost use Rattle.rss_scan.specs.Scans.{told as scans_told};
ghost use Rattle.rss_stored.specs.Calls.{calls_most};

use crate::Rss;
use rss_base::{CallError, Fields, Name, Refusal, Reply};
use rss_buffer::Saving;
use std::alloc::{AllocError, Global};

impl<S: Saving> Rss<S> {
    ghost use Rattle.rss_stored.specs.Calls.{IsCallOf};
    ghost use Rattle.rss_rsi.specs.Definitions.{Definition, IsDefining, view_of};
    ghost use Rattle.rss_rsi.specs.Parts.{view};

    /// Defines a segment. It takes no memory.
    pub fn make_segment(&mut self, name: &Name) -> Result<Reply, CallError>
        requires few { (view self.old).calls < calls_most }
        requires name { IsName name.now }
        ensures did { IsCallOf (view self.old) (view self.new) (MakeSegment name.now) result }
        ensures untouched { ((view self.old).is_up → ⊥) → self.new ≡ self.old }
        ensures memory { IsErrOf result NoMemory → ⊥ }
    {
        self.ask()?;
        self.down = true;
        let made = self.session.make_segment(name);
        self.redefine(made)
    }

    /// Defines a relation. It takes memory for its fields, and otherwise none.
    pub fn make_relation(
        &mut self,
        name: &Name,
        segment: &Name,
        fields: &Fields,
    ) -> Result<Reply, CallError>
        requires few { (view self.old).calls < calls_most }
        requires name { IsName name.now }
        requires fields { All IsName (field_names fields.now) }
        ensures did { IsCallOf (view self.old) (view self.new)
            (MakeRelation name.now segment.now fields.now) result }
        ensures untouched { ((view self.old).is_up → ⊥) → self.new ≡ self.old }
    {
        self.ask()?;
        let Ok(fields) = copy_of(self.alloc, fields) else {
            return Err(CallError::NoMemory);
        };
        self.down = true;
        let made = self.session.make_relation(name, segment, fields);
        self.redefine(made)
    }

    /// Defines a link between the tuples of two relations, of which one has the chains, or among those
    /// of one. It takes no memory.
    pub fn make_link(
        &mut self,
        name: &Name,
        parent: &Option<Name>,
        child: &Name,
    ) -> Result<Reply, CallError>
        requires few { (view self.old).calls < calls_most }
        requires name { IsName name.now }
        ensures did { IsCallOf (view self.old) (view self.new)
            (MakeLink name.now parent.now child.now) result }
        ensures untouched { ((view self.old).is_up → ⊥) → self.new ≡ self.old }
        ensures memory { IsErrOf result NoMemory → ⊥ }
    {
        self.ask()?;
        self.down = true;
        let made = self.session.make_link(name, parent.as_ref(), child);
        self.redefine(made)
    }

    /// Takes a segment away. It takes no memory.
    pub fn drop_segment(&mut self, name: &Name) -> Result<Reply, CallError>
        requires few { (view self.old).calls < calls_most }
        ensures did { IsCallOf (view self.old) (view self.new) (DropSegment name.now) result }
        ensures untouched { ((view self.old).is_up → ⊥) → self.new ≡ self.old }
        ensures memory { IsErrOf result NoMemory → ⊥ }
    {
        self.ask()?;
        self.down = true;
        let made = self.session.drop_segment(name);
        self.redefine(made)
    }

    /// Takes a relation away. It takes no memory.
    pub fn drop_relation(&mut self, name: &Name) -> Result<Reply, CallError>
        requires few { (view self.old).calls < calls_most }
        ensures did { IsCallOf (view self.old) (view self.new) (DropRelation name.now) result }
        ensures untouched { ((view self.old).is_up → ⊥) → self.new ≡ self.old }
        ensures memory { IsErrOf result NoMemory → ⊥ }
    {
        self.ask()?;
        self.down = true;
        let made = self.session.drop_relation(name);
        self.redefine(made)
    }

    /// Takes a link away. It takes no memory.
    pub fn drop_link(&mut self, name: &Name) -> Result<Reply, CallError>
        requires few { (view self.old).calls < calls_most }
        ensures did { IsCallOf (view self.old) (view self.new) (DropLink name.now) result }
        ensures untouched { ((view self.old).is_up → ⊥) → self.new ≡ self.old }
        ensures memory { IsErrOf result NoMemory → ⊥ }
    {
        self.ask()?;
        self.down = true;
        let made = self.session.drop_link(name);
        self.redefine(made)
    }

    /// Commits what the session has defined, or answers why it has not.
    fn redefine(&mut self, made: Result<(), Refusal>) -> Result<Reply, CallError>
        requires down { self.old.down ≡ true }
        requires some { (to : Definition S)
            × IsDefining S.view to self.old.session (told self.old.locks) (scans_told self.old.scans)
            self.old.calls made }
        ensures did { (to : Definition S)
            → IsDefining S.view to self.old.session (told self.old.locks) (scans_told self.old.scans)
            self.old.calls made
            → IsCallOf (view_of S.view to) (view self.new) to.call result }
        ensures memory { IsErrOf result NoMemory → ⊥ }
    {
        if let Err(why) = made {
            self.down = false;
            return Err(CallError::Refused(why));
        }
        self.session.redefine()?;
        self.down = false;
        Ok(Reply::Ok)
    }
}

/// A copy of these fields, in one allocation.
fn copy_of(alloc: Global, fields: &Fields) -> Result<Fields, AllocError>
    ensures { IfOk result (λ copy. copy ≡ fields.now) }
{
    let fields = fields.as_slice();
    let mut copy = Fields::with_capacity(alloc, fields.len())?;
    for field in fields {
        copy.push(*field)?;
    }
    Ok(copy)
}
