// Maps as lists of entries, in the order of their keys.
ghost use Rattle.std.specs.Prelude.{◌≡◌, ◌≤◌, length, option_copied, OnErr, OnOk};
ghost use Rattle.std.specs.Cmp.{IsTotalOrder};
ghost use Rattle.std.specs.FinMap.{contains_key, empty, entries, get, insert, len, put};
ghost use Rattle.std.specs.declared.cmp.Ordering.{Ordering as Order};
ghost use Rattle.rss_plain.specs.Maps.{mapped, place_of};

use std::alloc::{AllocError, Global};
use std::cmp::Ordering;
use std::marker::Model;

/// What a map is ordered by.
pub(crate) trait Keyed {
    ghost order: { Self → Self → Order };

    fn compare(&self, other: &Self) -> Ordering
        ensures { result ≡ order self.now other.now };

    ghost total: { IsTotalOrder order };
}

/// A map as its entries, whose keys rise. Each look-up goes over all of them.
#[derive(Drop)]
pub(crate) struct Sorted<K: Keyed, V> {
    list: Vec<(K, V)>,
}

impl<K: Keyed, V> Model for Sorted<K, V> {
    ghost use Rattle.std.specs.Prelude.{◌≡◌, List, true};
    ghost use Rattle.std.specs.FinMap.{is_sorted};

    ghost Value = { List (K × V) };

    ghost view = { λ s. s.list.items };

    ghost invariant = { λ s. is_sorted K.order s.list.items ≡ true };
}

impl<K: Keyed, V> Sorted<K, V> {
    /// The map of no keys. Takes no memory.
    pub(crate) fn new(alloc: Global) -> Self
        ensures { mapped K.order result ≡ empty }
    {
        Sorted {
            list: Vec::new(alloc),
        }
    }

    pub(crate) fn get(&self, key: &K) -> Option<&V>
        ensures { option_copied result ≡ get (mapped K.order self.now) key.now }
    {
        let entry = self
            .list
            .iter()
            .find(|entry| key.compare(&entry.0).is_eq())?;
        Some(&entry.1)
    }

    pub(crate) fn has(&self, key: &K) -> bool
        ensures { result ≡ contains_key (mapped K.order self.now) key.now }
    {
        self.get(key).is_some()
    }

    pub(crate) fn len(&self) -> usize
        ensures { result ≡ len (mapped K.order self.now) }
    {
        self.list.len()
    }

    /// The entries by their keys.
    pub(crate) fn entries(&self) -> &[(K, V)]
        ensures { result.now ≡ entries (mapped K.order self.now) }
    {
        self.list.as_slice()
    }

    /// A key gets a value, in place of what it had. A failure changes nothing.
    pub(crate) fn put(&mut self, key: K, value: V) -> Result<(), AllocError>
    where
        K: Drop,
        V: Drop,
        ensures ok { OnOk result
            (mapped K.order self.new ≡ insert (mapped K.order self.old) key value) }
        ensures err { OnErr result (self.new ≡ self.old) }
    {
        put_in(&mut self.list, key, value)
    }
}

fn put_in<K: Keyed + Drop, V: Drop>(
    list: &mut Vec<(K, V)>,
    key: K,
    value: V,
) -> Result<(), AllocError>
    ensures ok { OnOk result (list.new.items ≡ put K.order key value list.old.items) }
    ensures err { OnErr result (list.new.items ≡ list.old.items) }
{
    let place = place_of(list, &key);
    if place < list.len() && key.compare(&list[place].0).is_eq() {
        list[place].1 = value;
    } else {
        list.insert(place, (key, value))?;
    }
    Ok(())
}

/// The first place whose key isn't below this one.
fn place_of<K: Keyed, V>(list: &[(K, V)], key: &K) -> usize
    ensures within { result ≤ length list.now }
    ensures place { result ≡ place_of K.order key.now list.now }
{
    for (place, entry) in list.iter().enumerate() {
        if !key.compare(&entry.0).is_gt() {
            return place;
        }
    }
    list.len()
}
