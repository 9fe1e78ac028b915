// The calls on links.
ghost use Rattle.std.specs.Prelude.{◌≡◌, ◌<◌};
ghost use Rattle.rss_base.specs.declared.call.Call.TheVariants.{Connect, Disconnect, Parent, OpenLink};
ghost use Rattle.rss_stored.specs.Calls.{calls_most};

use crate::Rss;
use crate::locking::Access;
use rss_base::{CallError, Change, LimitKind, Name, Refusal, Reply, Spot, Tid};
use rss_buffer::Saving;
use rss_scan::Path;

impl<S: Saving> Rss<S> {
    ghost use Rattle.rss_stored.specs.Calls.{IsCallOf};
    ghost use Rattle.rss_rsi.specs.Parts.{view};

    /// Puts a tuple into the chain of a parent, at a spot; a link without parents has one chain.
    pub fn connect(
        &mut self,
        transaction: u32,
        link: &Name,
        child: Tid,
        parent: Option<Tid>,
        spot: &Spot,
    ) -> Result<Reply, CallError>
        requires few { (view self.old).calls < calls_most }
        ensures did { IsCallOf (view self.old) (view self.new)
            (Connect transaction link.now child parent spot.now) result }
        ensures untouched { ((view self.old).is_up → ⊥) → self.new ≡ self.old }
    {
        self.ask()?;
        let number = self
            .session
            .admit_link(transaction, link, Some(parent.is_some()))?;
        let Ok(needs) = self.connect_needs(link, number, child, parent) else {
            return Err(CallError::NoMemory);
        };
        let needs = self.claim(transaction, needs)?;
        let left = match self.test_connect(link, number, child, parent, spot) {
            Ok(left) => left,
            Err(why) => return Err(self.keep(transaction, needs, why)),
        };
        let change = Change::Connect {
            link: number,
            parent,
            child,
            left,
        };
        self.change(transaction, change)?;
        self.hold(transaction, needs);
        Ok(Reply::Ok)
    }

    /// Takes a tuple out of the chain of a link in which it stands.
    pub fn disconnect(
        &mut self,
        transaction: u32,
        link: &Name,
        child: Tid,
    ) -> Result<Reply, CallError>
        requires few { (view self.old).calls < calls_most }
        ensures did { IsCallOf (view self.old) (view self.new)
            (Disconnect transaction link.now child) result }
        ensures untouched { ((view self.old).is_up → ⊥) → self.new ≡ self.old }
    {
        self.ask()?;
        let number = self.session.admit_link(transaction, link, None)?;
        let place = self.place_of(number, child)?;
        let Ok(needs) = self.disconnect_needs(link, number, child, &place) else {
            return Err(CallError::NoMemory);
        };
        let needs = self.claim(transaction, needs)?;
        let Some(place) = place else {
            let why = self.why_outside(link, number, child);
            return Err(self.keep(transaction, needs, why));
        };
        let change = Change::Disconnect {
            link: number,
            parent: place.parent,
            child,
            left: place.left,
        };
        self.change(transaction, change)?;
        self.hold(transaction, needs);
        Ok(Reply::Ok)
    }

    /// Answers the parent in whose chain a tuple stands, if it stands in one.
    pub fn parent(&mut self, transaction: u32, link: &Name, child: Tid) -> Result<Reply, CallError>
        requires few { (view self.old).calls < calls_most }
        ensures did { IsCallOf (view self.old) (view self.new)
            (Parent transaction link.now child) result }
        ensures untouched { ((view self.old).is_up → ⊥) → self.new ≡ self.old }
    {
        self.ask()?;
        let number = self.session.admit_link(transaction, link, Some(true))?;
        let Ok(needs) = self.child_needs(link, number, child, Access::Read) else {
            return Err(CallError::NoMemory);
        };
        let needs = self.claim(transaction, needs)?;
        let found = match self.find_parent(link, number, child) {
            Ok(found) => found,
            Err(why) => return Err(self.keep(transaction, needs, why)),
        };
        self.hold(transaction, needs);
        match found {
            Some(tid) => Ok(Reply::Tid(tid)),
            None => Ok(Reply::Nothing),
        }
    }

    /// Opens a scan of the chain of a parent, from its first tuple on, and answers its number: the least
    /// that isn't in use; a link without parents has one chain. The child relation is locked for reading
    /// until the transaction ends, and the scan ends with it.
    pub fn open_link(
        &mut self,
        transaction: u32,
        link: &Name,
        parent: Option<Tid>,
    ) -> Result<Reply, CallError>
        requires few { (view self.old).calls < calls_most }
        ensures did { IsCallOf (view self.old) (view self.new)
            (OpenLink transaction link.now parent) result }
        ensures untouched { ((view self.old).is_up → ⊥) → self.new ≡ self.old }
    {
        self.ask()?;
        let number = self
            .session
            .admit_link(transaction, link, Some(parent.is_some()))?;
        if self.scans.is_full() {
            return Err(CallError::Refused(Refusal::Limit(LimitKind::Scans)));
        }
        let Ok(needs) = self.link_needs(link, number, parent) else {
            return Err(CallError::NoMemory);
        };
        let needs = self.claim(transaction, needs)?;
        if let Err(why) = self.test_parent(link, number, parent) {
            return Err(self.keep(transaction, needs, why));
        }
        self.hold(transaction, needs);
        let Some(scan) = self.scans.add(transaction, Path::Link(*link, parent)) else {
            unreachable!()
        };
        Ok(Reply::Number(scan))
    }
}
