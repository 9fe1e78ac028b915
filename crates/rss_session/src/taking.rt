// An image that is taken away.
ghost use Rattle.std.specs.Prelude.{◌≡◌, Err, IfOk, IfNone, IfSome, OnOk};
ghost use Rattle.std.specs.FinMap.{empty};
ghost use Rattle.rss_base.specs.DiskRule.{IsTold};
ghost use Rattle.rss_base.specs.declared.call.Call.TheVariants.{DropImage};
ghost use Rattle.rss_base.specs.declared.fault.PageFault.TheVariants.{Damaged};
ghost use Rattle.rss_base.specs.declared.place.Place.{Place as AnyPlace};
ghost use Rattle.rss_model.specs.ReplyText.{IsShort};
ghost use Rattle.rss_model.specs.Steps.{refusal};
ghost use Rattle.rss_session.specs.Admissions.{Says, Tests};
ghost use Rattle.rss_session.specs.Calls.{GoesOn, KeepsTables};
ghost use Rattle.rss_session.specs.Sessions.{IsReady};
ghost use Rattle.rss_session.specs.Taking.{IsImageNamed, TakesImage};

use crate::Session;
use rss_access::take_image;
use rss_base::{Kind, Name, PageFault, Refusal};
use rss_buffer::Saving;

impl<S: Saving> Session<S> {
    ghost use Rattle.rss_session.specs.Parts.{view};

    /// Takes an image away and gives its pages, or answers why that is refused. `redefine` commits it.
    /// At each moment a stop leaves the committed tables.
    pub fn drop_image(&mut self, name: &Name) -> Result<Option<Refusal>, PageFault>
        requires ready { IsReady (view S.view self.old) }
        ensures says { IfOk result
            (Says (view S.view self.old) (λ state. refusal state (DropImage name.now))) }
        ensures short { IfOk result (λ refused. IfSome refused (λ why. IsShort (Err why))) }
        ensures same { IfOk result (λ refused. IfSome refused (λ why. self.new ≡ self.old)) }
        ensures takes { IfOk result (λ refused. IfNone refused
            (TakesImage name.now (view S.view self.old) (view S.view self.new))) }
        ensures sound { (place : AnyPlace) → result ≡ Err (Damaged place)
            → IsTold (view S.view self.old).store.pages.disk → ⊥ }
        ensures moments { KeepsTables (view S.view self.old) (view S.view self.new) }
        ensures goes { GoesOn (view S.view self.old) (view S.view self.new) result }
    {
        let number = match self.test_drop(name) {
            Ok(number) => number,
            Err(why) => return Ok(Some(why)),
        };
        take_image(
            &mut self.store.tuples.pages,
            &mut self.store.catalog,
            number,
        )?;
        Ok(None)
    }

    /// An image may be taken away. Answers its number.
    fn test_drop(&self, name: &Name) -> Result<u8, Refusal>
        ensures closed { OnOk result ((view S.view self.now).opened.transactions ≡ empty) }
        ensures known { IfOk result
            (IsImageNamed (view S.view self.now).store.catalog.listing name.now) }
        ensures tests { Tests (view S.view self.now) (λ state. refusal state (DropImage name.now))
            result }
    {
        self.test_rest()?;
        let Some(number) = self.store.catalog.find(Kind::Image, name) else {
            return Err(Refusal::NoSuch(Kind::Image));
        };
        // Where an image is listed, so is its relation.
        let _image = self.store.catalog.image(number);
        Ok(number)
    }
}
