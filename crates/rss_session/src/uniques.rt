// The unique images of relations.
ghost use Rattle.std.specs.Prelude.{◌≡◌, ◌↔◌, ◌+◌, true, Some, Err, is_some, IsTrue, IfOk, IfSome};
ghost use Rattle.std.specs.declared.cmp.Ordering.TheVariants.{Less};
ghost use Rattle.rss_base.specs.Listings.{image_at, relation_at};
ghost use Rattle.rss_base.specs.TupleTypes.{kinds, SpellsSome};
ghost use Rattle.rss_base.specs.declared.refusal.Refusal.TheVariants.{Duplicate};
ghost use Rattle.rss_base.specs.declared.relation.RelationEntry.{RelationEntry as AnyEntry};
ghost use Rattle.rss_model.specs.Items.{name_cmp};
ghost use Rattle.rss_model.specs.ReplyText.{IsShort};
ghost use Rattle.rss_model.specs.Steps.{keeps_locks};
ghost use Rattle.rss_access.specs.Moved.{IsImageOf};
ghost use Rattle.rss_session.specs.Sessions.{IsReady};
ghost use Rattle.rss_session.specs.Looks.{LooksOn};
ghost use Rattle.rss_session.specs.Uniques.{IsBehind, IsUniqueBehind, IsBefore, IsNextUnique, FindsDuplicate, FindsLeast};

use crate::Session;
use rss_base::{IMAGES_MOST, Kind, Name, PageFault, Refusal, Tid, name_is_whole};
use rss_buffer::Saving;
use rss_catalog::Catalog;
use std::cmp::Ordering;

impl<S: Saving> Session<S> {
    ghost use Rattle.rss_session.specs.Parts.{view};

    /// The number of the unique image of a relation whose name stands next after `after`, or first
    /// of all, if there is one. It takes no memory.
    pub fn next_unique(&self, relation: u8, after: Option<Name>) -> Option<u8>
        ensures of { IfSome result (λ number.
            IsImageOf (view S.view self.now).store.catalog.listing number relation) }
        ensures next { IsNextUnique (view S.view self.now).store.catalog.listing relation after
            result }
    {
        next_of(&self.store.catalog, relation, after)
    }

    /// Why a tuple with the values of these bytes is refused in the relation `number`: of the
    /// unique images that have its key for another tuple than `own`, the first by its name.
    pub fn find_duplicate(
        &mut self,
        number: u8,
        values: &[u8],
        own: Option<Tid>,
    ) -> Result<Option<Refusal>, PageFault>
        requires ready { IsReady (view S.view self.old) }
        requires spelled { (relation : AnyEntry)
            → relation_at (view S.view self.old).store.catalog.listing number ≡ Some relation
            → SpellsSome (kinds relation.fields) values.now }
        ensures looks { LooksOn (view S.view self.old) (view S.view self.new) result }
        ensures finds { IfOk result
            (FindsDuplicate (view S.view self.old) number values.now own) }
        ensures short { IfOk result (λ found. IfSome found (λ why. IsShort (Err why))) }
        ensures kept { IfOk result (λ found. IfSome found (λ why. keeps_locks why ≡ true)) }
    {
        let mut after = None;
        for _place in 0..IMAGES_MOST {
            let Some(image) = self.next_unique(number, after) else {
                return Ok(None);
            };
            let name = self.store.catalog.image(image).name;
            let owner = self.find_owner(image, values, own)?;
            if let Some(tid) = owner {
                return Ok(Some(duplicate(name, tid)));
            }
            after = Some(name);
        }
        Ok(None)
    }
}

/// The number of the unique image of a relation whose name stands next after `after`, if there is
/// one.
fn next_of(catalog: &Catalog, relation: u8, after: Option<Name>) -> Option<u8>
    ensures of { IfSome result (λ number. IsImageOf catalog.now.listing number relation) }
    ensures next { IsNextUnique catalog.now.listing relation after result }
{
    let mut least = None;
    for place in 0..catalog.last_image() {
        least = lesser_of(catalog, relation, after, place + 1, least);
    }
    least
}

/// The least of `number` and those below it; `least` is that of those below it.
fn lesser_of(
    catalog: &Catalog,
    relation: u8,
    after: Option<Name>,
    number: u8,
    least: Option<u8>,
) -> Option<u8>
    requires { FindsLeast catalog.now.listing relation after number least }
    ensures { FindsLeast catalog.now.listing relation after (number + 1) result }
{
    if is_unique_behind(catalog, number, relation, after) && is_before(catalog, number, least) {
        Some(number)
    } else {
        least
    }
}

/// Whether this is the number of a unique image of a relation, whose name stands after `after`.
fn is_unique_behind(catalog: &Catalog, number: u8, relation: u8, after: Option<Name>) -> bool
    ensures { IsTrue result ↔ IsUniqueBehind catalog.now.listing relation after number }
{
    if !catalog.used(Kind::Image, number) {
        return false;
    }
    let image = catalog.image(number);
    image.relation == relation && image.is_unique && is_behind(after, &image.name)
}

/// Whether the name of an image stands before that of another one, if there is another one.
fn is_before(catalog: &Catalog, number: u8, other: Option<u8>) -> bool
    requires there { is_some (image_at catalog.now.listing number) ≡ true }
    requires other { IfSome other (λ k. is_some (image_at catalog.now.listing k) ≡ true) }
    ensures { IsTrue result ↔ IsBefore catalog.now.listing number other }
{
    match other {
        Some(other) => is_less(&catalog.image(number).name, &catalog.image(other).name),
        None => true,
    }
}

/// Whether a name stands after another one, if there is one.
fn is_behind(after: Option<Name>, name: &Name) -> bool
    ensures { IsTrue result ↔ IsBehind after name.now }
{
    match after {
        Some(after) => is_less(&after, name),
        None => true,
    }
}

/// Whether a name stands before another one.
fn is_less(one: &Name, other: &Name) -> bool
    ensures { IsTrue result ↔ (name_cmp one.now other.now ≡ Less) }
{
    one.bytes[..].cmp(&other.bytes[..]) == Ordering::Less
}

/// The refusal that tells which tuple has a key in an image.
pub(crate) fn duplicate(image: Name, tid: Tid) -> Refusal
    ensures is { result ≡ Duplicate image tid }
    ensures short { IsShort (Err (Duplicate image tid)) }
{
    name_is_whole(image);
    Refusal::Duplicate(image, tid)
}
