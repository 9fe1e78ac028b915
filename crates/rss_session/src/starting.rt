// Scans of images: what their opening is refused for, and where they start.
ghost use Rattle.std.specs.Prelude.{◌≡◌, true, is_some, OnOk, IfOk, IfErr, IfSome, Err};
ghost use Rattle.rss_base.specs.Listings.{image_at, IsNumberOf};
ghost use Rattle.rss_base.specs.declared.refusal.Kind.TheVariants.{Image as ImageKind};
ghost use Rattle.rss_catalog.specs.Catalogs.{HasNoLesser};
ghost use Rattle.rss_model.specs.ReplyText.{IsShort};
ghost use Rattle.rss_session.specs.Admissions.{Tests, image_admission};
ghost use Rattle.rss_session.specs.Imaging.{KeyFits, IsMisfit, StartsAt};
ghost use Rattle.rss_trans.specs.Transactions.{is_open};

use crate::Session;
use rss_base::{Key, Kind, Name, Refusal, Tuple};
use rss_buffer::Saving;
use rss_value::{key_fits, key_from, least_key};

impl<S: Saving> Session<S> {
    ghost use Rattle.rss_session.specs.Parts.{view};

    /// The transaction is open, the image is there, and the key that a scan of it is to begin with
    /// fits its fields, if there is one. Answers its number.
    pub fn admit_image(
        &self,
        transaction: u32,
        image: &Name,
        from: &Option<Tuple>,
    ) -> Result<u8, Refusal>
        ensures open { OnOk result (is_open (view S.view self.now).opened transaction ≡ true) }
        ensures known { IfOk result
            (IsNumberOf ImageKind (view S.view self.now).store.catalog.listing image.now) }
        ensures first { IfOk result
            (HasNoLesser ImageKind (view S.view self.now).store.catalog.listing image.now) }
        ensures fit { IfOk result (λ number. IfSome from.now
            (KeyFits (view S.view self.now).store.catalog.listing number)) }
        ensures tests { Tests (view S.view self.now)
            (λ state. image_admission state transaction image.now from.now) result }
    {
        self.test_open(transaction)?;
        let Some(number) = self.store.catalog.find(Kind::Image, image) else {
            return Err(Refusal::NoSuch(Kind::Image));
        };
        let Some(key) = from else {
            return Ok(number);
        };
        self.test_key(number, key)?;
        Ok(number)
    }

    /// The values fit the fields of the image `number`.
    fn test_key(&self, number: u8, key: &Tuple) -> Result<(), Refusal>
        requires { is_some (image_at (view S.view self.now).store.catalog.listing number) ≡ true }
        ensures fit { OnOk result
            (KeyFits (view S.view self.now).store.catalog.listing number key.now) }
        ensures first { IfErr result
            (IsMisfit (view S.view self.now).store.catalog.listing number key.now) }
        ensures short { IfErr result (λ why. IsShort (Err why)) }
    {
        let image = self.store.catalog.image(number);
        let relation = self.store.catalog.relation(image.relation);
        let which = &image.fields[..usize::from(image.count)];
        match key_fits(relation.fields.as_slice(), which, key) {
            Ok(()) => Ok(()),
            Err(field) => Err(Refusal::BadTuple(field)),
        }
    }

    /// The bytes that a scan of the image `number` starts at: those of a key, or zeros.
    pub fn start_key(&self, number: u8, from: &Option<Tuple>) -> Key
        requires there { is_some (image_at (view S.view self.now).store.catalog.listing number)
            ≡ true }
        requires fit { IfSome from.now (KeyFits (view S.view self.now).store.catalog.listing number) }
        ensures { StartsAt (view S.view self.now).store.catalog.listing number from.now result }
    {
        let image = self.store.catalog.image(number);
        let relation = self.store.catalog.relation(image.relation);
        let fields = relation.fields.as_slice();
        let which = &image.fields[..usize::from(image.count)];
        let mut start = Key::new();
        match from {
            Some(key) => key_from(fields, which, key, &mut start),
            None => least_key(fields, which, &mut start),
        }
        start
    }
}
