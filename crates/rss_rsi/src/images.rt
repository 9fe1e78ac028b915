// The calls that make an image and take one away.
ghost use Rattle.std.specs.Prelude.{◌≡◌, ◌<◌, false, true, IfOk, IsErrOf};
ghost use Rattle.rss_base.specs.Names.{IsName};
ghost use Rattle.rss_base.specs.declared.answer.CallError.TheVariants.{NoMemory};
ghost use Rattle.rss_base.specs.declared.call.Call.TheVariants.{MakeImage, DropImage};
ghost use Rattle.rss_lock.specs.Table.{told};
ghost use Rattle.rss_scan.specs.Scans.{told as scans_told};
ghost use Rattle.rss_stored.specs.Calls.{calls_most};
ghost use Rattle.rss_session.specs.Filling.{IsPlanned, AreImageEntries};
ghost use Rattle.rss_rsi.specs.Imaging.{SearchEnds};

use crate::Rss;
use rss_base::{CallError, ImageEntry, Key, Name, PageFault, Reply, Tid};
use rss_buffer::Saving;

impl<S: Saving> Rss<S> {
    ghost use Rattle.rss_stored.specs.Calls.{IsCallOf};
    ghost use Rattle.rss_rsi.specs.Definitions.{Definition, view_of};
    ghost use Rattle.rss_rsi.specs.Imaging.{IsListed};
    ghost use Rattle.rss_rsi.specs.Parts.{session_of, view};

    /// Makes an image and fills it from its relation's tuples. It takes memory for their entries.
    pub fn make_image(
        &mut self,
        name: &Name,
        relation: &Name,
        is_unique: bool,
        fields: &[Name],
    ) -> Result<Reply, CallError>
        requires few { (view self.old).calls < calls_most }
        requires name { IsName name.now }
        ensures did { IsCallOf (view self.old) (view self.new)
            (MakeImage name.now relation.now is_unique fields.now) result }
        ensures untouched { ((view self.old).is_up → ⊥) → self.new ≡ self.old }
    {
        self.ask()?;
        let image = self.session.plan_image(name, relation, is_unique, fields)?;
        let entries = self.image_entries(&image)?;
        self.session.test_image_keys(&image, &entries)?;
        self.session.test_image_room(&image)?;
        self.down = true;
        self.session.fill_image(image, &entries)?;
        self.commit_image()
    }

    /// Takes an image away, with all its pages. It takes no memory.
    pub fn drop_image(&mut self, name: &Name) -> Result<Reply, CallError>
        requires few { (view self.old).calls < calls_most }
        ensures did { IsCallOf (view self.old) (view self.new) (DropImage name.now) result }
        ensures untouched { ((view self.old).is_up → ⊥) → self.new ≡ self.old }
        ensures memory { IsErrOf result NoMemory → ⊥ }
    {
        self.ask()?;
        self.down = true;
        let refused = self.session.drop_image(name)?;
        if let Some(why) = refused {
            self.down = false;
            return Err(CallError::Refused(why));
        }
        self.commit_image()
    }

    /// The entries of an image that was planned. Nothing is changed, also if memory runs out.
    fn image_entries(&mut self, image: &ImageEntry) -> Result<Vec<(Key, Tid)>, CallError>
        requires up { self.old.down ≡ false }
        requires planned { IsPlanned (session_of self.old).store.catalog.listing image.now }
        ensures ends { SearchEnds (session_of self.old) (session_of self.new)
            (self.new.down ≡ false) result }
        ensures are { IfOk result (λ entries.
            AreImageEntries (session_of self.new) image.now entries.items) }
        ensures locks { self.new.locks ≡ self.old.locks }
        ensures scans { self.new.scans ≡ self.old.scans }
        ensures calls { self.new.calls ≡ self.old.calls }
    {
        self.down = true;
        match self.session.entries_of(self.alloc, image) {
            Ok(entries) => {
                self.down = false;
                Ok(entries)
            }
            Err(PageFault::NoMemory) => {
                self.down = false;
                Err(CallError::NoMemory)
            }
            Err(fault) => Err(CallError::from(fault)),
        }
    }

    /// Commits what the session lists now.
    fn commit_image(&mut self) -> Result<Reply, CallError>
        requires down { self.old.down ≡ true }
        requires some { (to : Definition S) × IsListed S.view to self.old.session
            (told self.old.locks) (scans_told self.old.scans) self.old.calls }
        ensures did { (to : Definition S) → IsListed S.view to self.old.session
            (told self.old.locks) (scans_told self.old.scans) self.old.calls
            → IsCallOf (view_of S.view to) (view self.new) to.call result }
        ensures memory { IsErrOf result NoMemory → ⊥ }
    {
        self.session.redefine()?;
        self.down = false;
        Ok(Reply::Ok)
    }
}
