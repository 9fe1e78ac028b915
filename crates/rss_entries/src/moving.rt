// Entries, moved where tuples change.
ghost use Rattle.std.specs.Prelude.{◌≡◌, ◌↔◌, ◌+◌, ◌*◌, ◌<◌, ◌≤◌, List, Option, All, IfSome, IsTrue, OnOk, length, option_copied, option_map};
ghost use Rattle.rss_base.specs.DiskRule.{IsTold};
ghost use Rattle.rss_base.specs.Sizes.{page_entries};
ghost use Rattle.rss_base.specs.Steps.{PagesCall, pages_in};
ghost use Rattle.rss_base.specs.TupleTypes.{kinds, chosen, key_width, most_key_width, SpellsSome};
ghost use Rattle.rss_base.specs.declared.key.Space.TheVariants.{Image as ImageSpace};
ghost use Rattle.rss_base.specs.declared.value.Value.{Value as FieldValue};
ghost use Rattle.rss_value.specs.Numbers.{IsNumberOf};
ghost use Rattle.rss_node.specs.Nodes.{AreNodes};
ghost use Rattle.rss_image.specs.Images.{nodes_of, CutsMade, HasSpare};
ghost use Rattle.rss_entries.specs.Keyed.{kinds_of, key_with, IsOneKey, StaysEntry, MayCutKey, MayPutKey, CutsKey, PutsKey, MakesKey};
ghost use Rattle.rss_entries.specs.Moving.{AreSpelled, MayMove, MovesEntry, MakesEntry};

use rss_base::{FieldDef, Key, PageFault, Pages, Tid};
use rss_image::Image;
use rss_value::key as write_key;

/// The fields of a relation, and the numbers of those that a key has, counted from 1.
#[derive(Clone, Copy)]
pub struct KeyFields<'a> {
    pub fields: &'a [FieldDef],
    pub which: &'a [u8],
}

/// Moves the entry of a tuple in an image. The tuple had the values of these bytes, if any, and has
/// those of `next` now: the pair of the old values goes, and that of the new ones comes. If the key
/// stays, nothing is done.
pub fn move_entry<P: Pages>(
    pages: &mut P,
    image: &mut Image,
    key: KeyFields<'_>,
    tid: Tid,
    was: Option<&[u8]>,
    next: Option<&[u8]>,
) -> Result<(), PageFault>
    requires of { AreNodes (nodes_of image.old) }
    requires low { 1 ≤ image.old.levels }
    requires numbers { All (IsNumberOf key.fields.now) key.which.now }
    requires width { image.old.width ≡ key_width (chosen key.which.now (kinds key.fields.now)) }
    requires slot { tid.slot < page_entries }
    requires was { IfSome (option_copied was) (SpellsSome (kinds key.fields.now)) }
    requires next { IfSome (option_copied next) (SpellsSome (kinds key.fields.now)) }
    requires may { IsTold (P.view pages.old).disk
        → (was_values next_values : Option (List FieldValue))
        → AreSpelled (kinds key.fields.now) (option_copied was) was_values
        → AreSpelled (kinds key.fields.now) (option_copied next) next_values
        → ∥ MayMove (kinds_of key) tid was_values image.old (P.view pages.old) ∥₁ }
    ensures of { nodes_of image.new ≡ nodes_of image.old }
    ensures low { 1 ≤ image.new.levels }
    ensures moves { OnOk result (IsTold (P.view pages.old).disk
        → (was_values next_values : Option (List FieldValue))
        → AreSpelled (kinds key.entry.fields.now) (option_copied was.entry) was_values
        → AreSpelled (kinds key.entry.fields.now) (option_copied next.entry) next_values
        → MovesEntry (kinds_of key.entry) tid was_values next_values image.old image.new
        (P.view pages.old) (P.view pages.new)) }
    ensures made { OnOk result (IsTold (P.view pages.old).disk
        → (was_values next_values : Option (List FieldValue))
        → AreSpelled (kinds key.entry.fields.now) (option_copied was.entry) was_values
        → AreSpelled (kinds key.entry.fields.now) (option_copied next.entry) next_values
        → MakesEntry (kinds_of key.entry) tid was_values next_values image.old image.new
        (P.view pages.old) (P.view pages.new)) }
    ensures stays { (was_values next_values : Option (List FieldValue))
        → AreSpelled (kinds key.entry.fields.now) (option_copied was.entry) was_values
        → AreSpelled (kinds key.entry.fields.now) (option_copied next.entry) next_values
        → IsOneKey (kinds_of key.entry) was_values next_values
        → StaysEntry image.old image.new (P.view pages.old) (P.view pages.new) }
    ensures did { PagesCall (pages_in image.old.segment ImageSpace) (10 * 255 + 2) (10 * 255 + 2)
        (P.view pages.old) (P.view pages.new) result }
{
    let old_key = key_of(key, was);
    let new_key = key_of(key, next);
    if are_same(&old_key, &new_key) {
        return Ok(());
    }
    cut(pages, image, &old_key, tid)?;
    put(pages, image, &new_key, tid)
}

/// The key of a tuple with the values of these bytes, if any.
fn key_of(key: KeyFields<'_>, values: Option<&[u8]>) -> Option<Key>
    requires numbers { All (IsNumberOf key.fields.now) key.which.now }
    requires narrow { key_width (chosen key.which.now (kinds key.fields.now)) ≤ most_key_width }
    requires spelled { IfSome (option_copied values) (SpellsSome (kinds key.fields.now)) }
    ensures key { (told : Option (List FieldValue))
        → AreSpelled (kinds key.entry.fields.now) (option_copied values.entry) told
        → result ≡ option_map (key_with (kinds_of key.entry)) told }
    ensures long { IfSome result (λ bytes. length bytes
        ≡ key_width (chosen key.entry.which.now (kinds key.entry.fields.now))) }
{
    match values {
        Some(bytes) => {
            let mut made = Key::new();
            write_key(key.fields, key.which, bytes, &mut made);
            Some(made)
        }
        None => None,
    }
}

/// Whether both are none, or the same key.
fn are_same(a: &Option<Key>, b: &Option<Key>) -> bool
    ensures { IsTrue result ↔ (a.now ≡ b.now) }
{
    match (a, b) {
        (Some(a), Some(b)) => a.as_slice() == b.as_slice(),
        (None, None) => true,
        _ => false,
    }
}

/// Takes the pair of a tuple's key out of the list, if there is a key.
fn cut<P: Pages>(
    pages: &mut P,
    image: &mut Image,
    key: &Option<Key>,
    tid: Tid,
) -> Result<(), PageFault>
    requires of { AreNodes (nodes_of image.old) }
    requires low { 1 ≤ image.old.levels }
    requires long { IfSome key.now (λ bytes. length bytes ≡ image.old.width) }
    requires may { IsTold (P.view pages.old).disk
        → ∥ MayCutKey key.now tid image.old (P.view pages.old) ∥₁ }
    ensures of { nodes_of image.new ≡ nodes_of image.old }
    ensures low { 1 ≤ image.new.levels }
    ensures cuts { OnOk result (IsTold (P.view pages.old).disk
        → CutsKey key.now tid image.old image.new (P.view pages.old) (P.view pages.new)) }
    ensures made { OnOk result (IsTold (P.view pages.old).disk
        → CutsMade image.old image.new (P.view pages.old) (P.view pages.new)) }
    ensures did { PagesCall (pages_in image.old.segment ImageSpace) (3 * 255) (6 * 255)
        (P.view pages.old) (P.view pages.new) result }
{
    // A byte, which bounds how many pages are asked for.
    let _levels = image.levels;
    match key {
        Some(bytes) => image.remove(pages, bytes, tid),
        None => Ok(()),
    }
}

/// Puts the pair of a tuple's key into the list, if there is a key.
fn put<P: Pages>(
    pages: &mut P,
    image: &mut Image,
    key: &Option<Key>,
    tid: Tid,
) -> Result<(), PageFault>
    requires of { AreNodes (nodes_of image.old) }
    requires low { 1 ≤ image.old.levels }
    requires long { IfSome key.now (λ bytes. length bytes ≡ image.old.width) }
    requires slot { tid.slot < page_entries }
    requires may { IsTold (P.view pages.old).disk
        → ∥ MayPutKey key.now tid image.old (P.view pages.old) ∥₁ }
    requires room { IsTold (P.view pages.old).disk → HasSpare image.old (P.view pages.old) }
    ensures of { nodes_of image.new ≡ nodes_of image.old }
    ensures low { 1 ≤ image.new.levels }
    ensures puts { OnOk result (IsTold (P.view pages.old).disk
        → PutsKey key.now tid image.old image.new (P.view pages.old) (P.view pages.new)) }
    ensures made { OnOk result (IsTold (P.view pages.old).disk
        → MakesKey key.now tid image.old image.new (P.view pages.old) (P.view pages.new)) }
    ensures did { PagesCall (pages_in image.old.segment ImageSpace) 255 (4 * 255 + 2)
        (P.view pages.old) (P.view pages.new) result }
{
    // A byte, which bounds how many pages are asked for.
    let _levels = image.levels;
    match key {
        Some(bytes) => image.insert(pages, bytes, tid),
        None => Ok(()),
    }
}
