// What each call is refused for, but for the rules on room.
ghost use Rattle.std.specs.Prelude.{◌≡◌, IfOk};
ghost use Rattle.rss_base.specs.declared.call.Call.TheVariants.{Begin, Save, Restore, End, Abort};
ghost use Rattle.rss_base.specs.declared.call.Call.TheVariants.{Insert, Fetch, Update, Delete};
ghost use Rattle.rss_base.specs.declared.call.Call.TheVariants.{Connect, Disconnect, Parent};
ghost use Rattle.rss_base.specs.declared.call.Call.TheVariants.{OpenRelation, OpenImage, OpenLink};
ghost use Rattle.rss_base.specs.declared.call.Call.TheVariants.{Next, CloseScan, Lock};
ghost use Rattle.rss_model.specs.Machine.{State};
ghost use Rattle.rss_plain.specs.Judging.{is_of_room, judged, refusal_but};
ghost use Rattle.rss_plain.specs.Seen.{IsSeenOf};
ghost use Rattle.rss_plain.specs.View.{machine, view};

use crate::plain::Plain;
use rss_base::{Call, Item, Mode, Name, Refusal, Spot, Tid, Tuple};
use std::alloc::AllocError;

impl Plain {
    /// What a call is refused for, but for the rules on room, in each state that this shows.
    pub fn judge(&self, call: &Call) -> Result<Option<Refusal>, AllocError>
        ensures { IfOk result (λ why. (state : State) → IsSeenOf (view self.now) state
            → why ≡ refusal_but is_of_room state call.now) }
    {
        let why = self.judge_now(call)?;
        Ok(why)
    }

    fn judge_now(&self, call: &Call) -> Result<Option<Refusal>, AllocError>
        ensures { IfOk result (λ why. why ≡ judged (machine self.now) call.now) }
    {
        match call {
            Call::Begin(t) => Ok(self.judge_begin(*t)),
            Call::Save(t) => Ok(self.judge_save(*t)),
            Call::Restore(t, save) => Ok(self.judge_restore(*t, *save)),
            Call::End(t) => Ok(self.judge_end(*t)),
            Call::Abort(t) => Ok(self.judge_abort(*t)),
            Call::Insert(t, relation, tuple) => self.judge_insert(*t, relation, tuple),
            Call::Fetch(t, relation, tid) => self.judge_fetch(*t, relation, *tid),
            Call::Update(t, relation, tid, tuple) => self.judge_update(*t, relation, *tid, tuple),
            Call::Delete(t, relation, tid) => self.judge_delete(*t, relation, *tid),
            Call::Connect(t, link, child, parent, spot) => {
                self.judge_connect(*t, link, *child, *parent, *spot)
            }
            Call::Disconnect(t, link, child) => self.judge_disconnect(*t, link, *child),
            Call::Parent(t, link, child) => self.judge_parent(*t, link, *child),
            Call::OpenRelation(t, relation) => self.judge_open_relation(*t, relation),
            Call::OpenImage(t, image, start) => self.judge_open_image(*t, image, start),
            Call::OpenLink(t, link, parent) => self.judge_open_link(*t, link, *parent),
            Call::Next(t, scan) => Ok(self.judge_next(*t, *scan)),
            Call::CloseScan(t, scan) => Ok(self.judge_close(*t, *scan)),
            Call::Lock(t, item, exclusive) => self.judge_lock(*t, item, *exclusive),
            Call::Checkpoint => Ok(None),
            Call::MakeSegment(name) => Ok(self.judge_make_segment(name)),
            Call::MakeRelation(name, segment, fields) => {
                Ok(self.judge_make_relation(name, segment, fields))
            }
            Call::MakeImage(name, relation, is_unique, fields) => {
                self.judge_make_image(name, relation, *is_unique, fields.as_slice())
            }
            Call::MakeLink(name, parent, child) => Ok(self.judge_make_link(name, *parent, *child)),
            Call::DropSegment(name) => Ok(self.judge_drop_segment(name)),
            Call::DropRelation(name) => Ok(self.judge_drop_relation(name)),
            Call::DropImage(name) => Ok(self.judge_drop_image(name)),
            Call::DropLink(name) => Ok(self.judge_drop_link(name)),
        }
    }

    // ---- transactions

    pub(crate) fn judge_begin(&self, t: u32) -> Option<Refusal>
        ensures { result ≡ judged (machine self.now) (Begin t) }
    {
        self.if_open(t).or(self.if_too_many())
    }

    fn judge_save(&self, t: u32) -> Option<Refusal>
        ensures { result ≡ judged (machine self.now) (Save t) }
    {
        self.unless_open(t)
    }

    fn judge_restore(&self, t: u32, save: u32) -> Option<Refusal>
        ensures { result ≡ judged (machine self.now) (Restore t save) }
    {
        self.unless_open(t).or(self.unless_saved(t, save))
    }

    fn judge_end(&self, t: u32) -> Option<Refusal>
        ensures { result ≡ judged (machine self.now) (End t) }
    {
        self.unless_open(t)
    }

    fn judge_abort(&self, t: u32) -> Option<Refusal>
        ensures { result ≡ judged (machine self.now) (Abort t) }
    {
        self.unless_open(t)
    }

    fn judge_lock(
        &self,
        t: u32,
        item: &Item,
        exclusive: bool,
    ) -> Result<Option<Refusal>, AllocError>
        ensures { IfOk result (λ why. why ≡ judged (machine self.now) (Lock t item.now exclusive)) }
    {
        let needs = self.lock_needs(item, exclusive)?;
        Ok(
            self.unless_open(t)
                .or(self.unless_granule(item))
                .or(self.if_busy(t, needs)),
        )
    }

    // ---- tuples

    fn judge_fetch(&self, t: u32, relation: &Name, tid: Tid) -> Result<Option<Refusal>, AllocError>
        ensures { IfOk result (λ why. why ≡ judged (machine self.now) (Fetch t relation.now tid)) }
    {
        let needs = self.tuple_needs(relation, tid, Mode::IS, Mode::S)?;
        Ok(
            self.unless_open(t)
                .or(self.unless_defined(relation))
                .or(self.if_busy(t, needs))
                .or(self.unless_live(*relation, tid)),
        )
    }

    fn judge_insert(
        &self,
        t: u32,
        relation: &Name,
        tuple: &Tuple,
    ) -> Result<Option<Refusal>, AllocError>
        ensures { IfOk result (λ why.
            why ≡ judged (machine self.now) (Insert t relation.now tuple.now)) }
    {
        let needs = self.insert_needs(relation, tuple)?;
        let duplicate = self.if_duplicate(relation, None, tuple)?;
        Ok(
            self.unless_open(t)
                .or(self.unless_defined(relation))
                .or(self.misfit_of(relation, tuple))
                .or(self.if_used_up(relation))
                .or(self.unless_free(t, relation))
                .or(self.if_busy(t, needs))
                .or(duplicate),
        )
    }

    fn judge_update(
        &self,
        t: u32,
        relation: &Name,
        tid: Tid,
        tuple: &Tuple,
    ) -> Result<Option<Refusal>, AllocError>
        ensures { IfOk result (λ why.
            why ≡ judged (machine self.now) (Update t relation.now tid tuple.now)) }
    {
        let needs = self.update_needs(relation, tid, tuple)?;
        let duplicate = self.if_duplicate(relation, Some(tid), tuple)?;
        Ok(
            self.unless_open(t)
                .or(self.unless_defined(relation))
                .or(self.misfit_of(relation, tuple))
                .or(self.if_busy(t, needs))
                .or(self.unless_live(*relation, tid))
                .or(duplicate),
        )
    }

    fn judge_delete(&self, t: u32, relation: &Name, tid: Tid) -> Result<Option<Refusal>, AllocError>
        ensures { IfOk result (λ why.
            why ≡ judged (machine self.now) (Delete t relation.now tid)) }
    {
        let needs = self.delete_needs(relation, tid)?;
        Ok(
            self.unless_open(t)
                .or(self.unless_defined(relation))
                .or(self.if_busy(t, needs))
                .or(self.unless_live(*relation, tid))
                .or(self.if_connected(relation, tid)),
        )
    }

    // ---- links

    fn judge_connect(
        &self,
        t: u32,
        link: &Name,
        child: Tid,
        parent: Option<Tid>,
        spot: Spot,
    ) -> Result<Option<Refusal>, AllocError>
        ensures { IfOk result (λ why.
            why ≡ judged (machine self.now) (Connect t link.now child parent spot)) }
    {
        let needs = self.connect_needs(link, child, parent)?;
        let definition = self.link(link);
        Ok(
            self.unless_open(t)
                .or(self.unless_link_form(link, parent.is_some()))
                .or(self.if_busy(t, needs))
                .or(self.unless_child(definition, child))
                .or(self.unless_parent(definition, parent))
                .or(self.if_in_chain(link, child))
                .or(self.unless_spot(*link, parent, spot)),
        )
    }

    fn judge_disconnect(
        &self,
        t: u32,
        link: &Name,
        child: Tid,
    ) -> Result<Option<Refusal>, AllocError>
        ensures { IfOk result (λ why.
            why ≡ judged (machine self.now) (Disconnect t link.now child)) }
    {
        let needs = self.disconnect_needs(link, child)?;
        Ok(
            self.unless_open(t)
                .or(self.unless_link(link))
                .or(self.if_busy(t, needs))
                .or(self.unless_child(self.link(link), child))
                .or(self.unless_in_chain_of(link, child)),
        )
    }

    fn judge_parent(&self, t: u32, link: &Name, child: Tid) -> Result<Option<Refusal>, AllocError>
        ensures { IfOk result (λ why. why ≡ judged (machine self.now) (Parent t link.now child)) }
    {
        let needs = self.parent_needs(link, child)?;
        Ok(
            self.unless_open(t)
                .or(self.unless_link_form(link, true))
                .or(self.if_busy(t, needs))
                .or(self.unless_child(self.link(link), child)),
        )
    }

    // ---- scans

    fn judge_open_relation(&self, t: u32, relation: &Name) -> Result<Option<Refusal>, AllocError>
        ensures { IfOk result (λ why.
            why ≡ judged (machine self.now) (OpenRelation t relation.now)) }
    {
        let needs = self.relation_needs(relation, Mode::IS, Mode::S)?;
        Ok(
            self.unless_open(t)
                .or(self.unless_defined(relation))
                .or(self.if_scans_used_up())
                .or(self.if_busy(t, needs)),
        )
    }

    fn judge_open_image(
        &self,
        t: u32,
        image: &Name,
        start: &Option<Tuple>,
    ) -> Result<Option<Refusal>, AllocError>
        ensures { IfOk result (λ why.
            why ≡ judged (machine self.now) (OpenImage t image.now start.now)) }
    {
        let needs = self.image_scan_needs(image)?;
        let misfit = self.unless_key_fits(image, start)?;
        Ok(
            self.unless_open(t)
                .or(self.unless_image(image))
                .or(misfit)
                .or(self.if_scans_used_up())
                .or(self.if_busy(t, needs)),
        )
    }

    fn judge_open_link(
        &self,
        t: u32,
        link: &Name,
        parent: Option<Tid>,
    ) -> Result<Option<Refusal>, AllocError>
        ensures { IfOk result (λ why.
            why ≡ judged (machine self.now) (OpenLink t link.now parent)) }
    {
        let needs = self.link_scan_needs(link, parent)?;
        Ok(
            self.unless_open(t)
                .or(self.unless_link_form(link, parent.is_some()))
                .or(self.if_scans_used_up())
                .or(self.if_busy(t, needs))
                .or(self.unless_parent(self.link(link), parent)),
        )
    }

    fn judge_next(&self, t: u32, scan: u32) -> Option<Refusal>
        ensures { result ≡ judged (machine self.now) (Next t scan) }
    {
        self.unless_open(t)
            .or(self.unless_scan(t, scan))
            .or(self.unless_lost(t, scan))
    }

    fn judge_close(&self, t: u32, scan: u32) -> Option<Refusal>
        ensures { result ≡ judged (machine self.now) (CloseScan t scan) }
    {
        self.unless_open(t).or(self.unless_scan(t, scan))
    }
}
