// The keys of tuples in unique images: their locks, and whether another tuple has them.
ghost use Rattle.std.specs.Prelude.{◌≡◌, ◌+◌, ◌<◌, ◌≤◌, ◌++◌, true, false, Err, map, vec_len, length, option_copied, option_to_list, is_some, All, IfOk, IfSome, OnOk, OnErr};
ghost use Rattle.rss_base.specs.Listings.{IsFieldNumber, relation_at};
ghost use Rattle.rss_base.specs.TupleTypes.{chosen, kinds, SpellsSome};
ghost use Rattle.rss_base.specs.declared.item.Item.TheVariants.{Key};
ghost use Rattle.rss_base.specs.declared.relation.RelationEntry.{RelationEntry as AnyEntry};
ghost use Rattle.rss_model.specs.ReplyText.{IsShort};
ghost use Rattle.rss_model.specs.Steps.{keeps_locks};
ghost use Rattle.rss_session.specs.Uniques.{FindsDuplicate};
ghost use Rattle.rss_rsi.specs.Locking.{given, key_lock, HasKey, MayBeOf, ListsKeys, IsSayable, AreSayable};
ghost use Rattle.rss_rsi.specs.Placing.{LooksAnyhow};

use crate::Rss;
use rss_base::{
    Body, CallError, IMAGES_MOST, ImageEntry, Item, Mode, Name, Need, Refusal, Text, Tid, Tuple,
    Value, name_is_whole,
};
use rss_buffer::Saving;
use std::alloc::{AllocError, Global};

impl<S: Saving> Rss<S> {
    ghost use Rattle.rss_rsi.specs.Parts.{parts_of, session_of};

    /// Puts the locks of the keys of two tuples, as far as they are given, after others: in each
    /// unique image of the relation `number` that of `was` and then that of `to`.
    pub(crate) fn push_keys(
        &self,
        needs: &mut Vec<Need>,
        number: u8,
        was: Option<&Tuple>,
        to: Option<&Tuple>,
    ) -> Result<(), AllocError>
        requires known { is_some (relation_at (session_of self.now).store.catalog.listing number)
            ≡ true }
        requires was { IfSome (option_copied was)
            (MayBeOf (session_of self.now).store.catalog.listing number) }
        requires to { IfSome (option_copied to)
            (MayBeOf (session_of self.now).store.catalog.listing number) }
        requires sayable { AreSayable needs.old.items }
        ensures keys { OnOk result (ListsKeys (parts_of self.now) number
            (given (option_copied was.entry) (option_copied to.entry)) needs.old.items
            needs.new.items) }
        ensures few { OnOk result (vec_len needs.new ≤ vec_len needs.old + 256) }
        ensures sayable { OnOk result (AreSayable needs.new.items) }
    {
        let mut after = None;
        for _place in 0..IMAGES_MOST {
            let Some(image) = self.session.next_unique(number, after) else {
                return Ok(());
            };
            let entry = self.session.store.catalog.image(image);
            push_key(self.alloc, needs, entry, was)?;
            push_key(self.alloc, needs, entry, to)?;
            after = Some(entry.name);
        }
        Ok(())
    }

    /// Why a tuple of these values is refused in the relation `number`: of the unique images that
    /// have its key for another tuple than `own`, the first by its name. Nothing is changed.
    pub(crate) fn find_duplicate(
        &mut self,
        number: u8,
        values: &Body,
        own: Option<Tid>,
    ) -> Result<Option<Refusal>, CallError>
        requires up { self.old.down ≡ false }
        requires spelled { (relation : AnyEntry)
            → relation_at (session_of self.old).store.catalog.listing number ≡ Some relation
            → SpellsSome (kinds relation.fields) values.now }
        ensures up { OnOk result (self.new.down ≡ false) }
        ensures down { OnErr result (self.new.down ≡ true) }
        ensures calls { self.new.calls ≡ self.old.calls }
        ensures locks { self.new.locks ≡ self.old.locks }
        ensures scans { self.new.scans ≡ self.old.scans }
        ensures looks { LooksAnyhow (session_of self.old) (session_of self.new) result }
        ensures finds { IfOk result (FindsDuplicate (session_of self.old) number values.now own) }
        ensures short { IfOk result (λ found. IfSome found (λ why. IsShort (Err why))) }
        ensures kept { IfOk result (λ found. IfSome found (λ why. keeps_locks why ≡ true)) }
    {
        self.down = true;
        let found = self.session.find_duplicate(number, values.as_slice(), own)?;
        self.down = false;
        Ok(found)
    }
}

/// Puts the lock of a tuple's key in an image after others, if there is a tuple.
fn push_key(
    alloc: Global,
    needs: &mut Vec<Need>,
    image: &ImageEntry,
    tuple: Option<&Tuple>,
) -> Result<(), AllocError>
    requires has { IfSome (option_copied tuple) (HasKey image.now) }
    requires sayable { AreSayable needs.old.items }
    ensures pushed { OnOk result (needs.new.items ≡ needs.old.items
        ++ map (key_lock image.now) (option_to_list (option_copied tuple.entry))) }
    ensures few { OnOk result (vec_len needs.new ≤ vec_len needs.old + 1) }
    ensures sayable { OnOk result (AreSayable needs.new.items) }
{
    if let Some(tuple) = tuple {
        needs.push(key_need(alloc, image, tuple)?)?;
    }
    Ok(())
}

/// The lock of a tuple's key in an image.
fn key_need(alloc: Global, image: &ImageEntry, tuple: &Tuple) -> Result<Need, AllocError>
    requires { HasKey image.now tuple.now }
    ensures is { IfOk result (λ made. made ≡ key_lock image.now tuple.now) }
    ensures sayable { IfOk result (λ made. IsSayable made.item) }
{
    let which = &image.fields[..usize::from(image.count)];
    let key = key_values(alloc, which, tuple)?;
    Ok(Need {
        item: key_item(&image.name, key),
        mode: Mode::X,
    })
}

/// A key of an image as what can be locked.
fn key_item(image: &Name, key: Tuple) -> Item
    ensures is { result ≡ Key image.now key }
    ensures long { length image.now.bytes ≡ 16 }
{
    name_is_whole(*image);
    Item::Key(*image, key)
}

/// The values of the fields that `which` numbers.
fn key_values(alloc: Global, which: &[u8], tuple: &Tuple) -> Result<Tuple, AllocError>
    requires { All (IsFieldNumber (length tuple.now)) which.now }
    ensures { IfOk result (λ key. key ≡ chosen which.now tuple.now) }
{
    let values = tuple.as_slice();
    let mut key = Tuple::with_capacity(alloc, which.len())?;
    for number in which {
        let value = &values[usize::from(*number) - 1];
        key.push(copied(alloc, value)?)?;
    }
    Ok(key)
}

fn copied(alloc: Global, value: &Value) -> Result<Value, AllocError>
    ensures { IfOk result (λ copy. copy ≡ value.now) }
{
    match value {
        Value::Int(number) => Ok(Value::Int(*number)),
        Value::Text(text) => Ok(Value::Text(Text::from_slice(alloc, text.as_slice())?)),
        Value::Undefined => Ok(Value::Undefined),
    }
}
