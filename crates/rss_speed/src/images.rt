// How fast the calls are over a relation with an image.
use crate::{
    FIELD, RELATION, Work, ask, begin, define, end, end_of_batch, insert, next, rate, scan_all,
    set_value, test_calls,
};
use anyhow::{Result, bail};
use rss_base::{Call, Name, NameList, Reply, Tuple};
use rss_buffer::Saving;
use rss_rsi::Rss;
use std::alloc::Global;
use std::time::Instant;

const IMAGE: Name = Name {
    bytes: *b"i\0\0\0\0\0\0\0\0\0\0\0\0\0\0\0",
};

/// In which order the keys come, and whether the image is unique: each is below 2^32, and none comes twice.
#[derive(Clone, Copy)]
pub(crate) enum Keys {
    Rising,
    Scattered,
    /// Scattered, with a unique image.
    Unique,
}

impl Keys {
    /// The keys of this name.
    pub(crate) fn named(name: &str) -> Option<Self> {
        match name {
            "rising" => Some(Keys::Rising),
            "scattered" => Some(Keys::Scattered),
            "unique" => Some(Keys::Unique),
            _ => None,
        }
    }

    fn name(self) -> &'static str {
        match self {
            Keys::Rising => "rising",
            Keys::Scattered => "scattered",
            Keys::Unique => "unique",
        }
    }

    fn value(self, place: u32) -> u32 {
        match self {
            Keys::Rising => place,
            Keys::Scattered | Keys::Unique => place.wrapping_mul(2_654_435_761),
        }
    }

    fn are_unique(self) -> bool {
        match self {
            Keys::Rising | Keys::Scattered => false,
            Keys::Unique => true,
        }
    }
}

/// Defines the image, and the relation beneath it.
fn define_image<S: Saving>(store: &mut Rss<S>, alloc: Global, keys: Keys) -> Result<()> {
    define(store, alloc)?;
    let mut fields = NameList::new(alloc);
    fields.push(FIELD)?;
    ask(
        store,
        &Call::MakeImage(IMAGE, RELATION, keys.are_unique(), fields),
    )?;
    Ok(())
}

/// Inserts in transactions of a batch.
fn insert_all<S: Saving>(store: &mut Rss<S>, alloc: Global, work: Work, keys: Keys) -> Result<()> {
    let mut row = Tuple::new(alloc);
    begin(store)?;
    for place in 0..work.tuples {
        insert(store, &mut row, keys.value(place))?;
        end_of_batch(store, place, work)?;
    }
    end(store)
}

/// A scan of the image, from a value on or from the first.
fn open_image<S: Saving>(store: &mut Rss<S>, from: &Option<Tuple>) -> Result<u32> {
    test_calls(store)?;
    match store.open_image(1, &IMAGE, from) {
        Ok(Reply::Number(scan)) => Ok(scan),
        other => bail!("a scan was answered {other:?}"),
    }
}

fn close<S: Saving>(store: &mut Rss<S>, scan: u32) -> Result<()> {
    test_calls(store)?;
    match store.close_scan(1, scan) {
        Ok(_) => Ok(()),
        Err(error) => bail!("the end of a scan was answered {error:?}"),
    }
}

/// The tuple that stands first from a value on must have it. `from` is used for the key, and `row` for
/// the tuple.
fn look_up<S: Saving>(
    store: &mut Rss<S>,
    from: &mut Option<Tuple>,
    row: &mut Tuple,
    value: i64,
) -> Result<()> {
    if let Some(key) = from {
        set_value(key, value)?;
    }
    let scan = open_image(store, from)?;
    if next(store, scan, row)? != Some(value) {
        bail!("{value} isn't found");
    }
    close(store, scan)
}

/// Looks each value up, by a scan from it on.
fn look_up_all<S: Saving>(store: &mut Rss<S>, alloc: Global, work: Work, keys: Keys) -> Result<()> {
    let mut from = Some(Tuple::new(alloc));
    let mut row = Tuple::new(alloc);
    begin(store)?;
    for place in 0..work.tuples {
        look_up(store, &mut from, &mut row, i64::from(keys.value(place)))?;
    }
    end(store)
}

/// Goes through the whole image.
fn scan_image<S: Saving>(store: &mut Rss<S>, alloc: Global, work: Work) -> Result<()> {
    begin(store)?;
    let scan = open_image(store, &None)?;
    scan_all(store, alloc, scan, work)?;
    end(store)
}

/// Fills a relation with an image, looks each tuple up and scans all of them, and prints how many a
/// second it makes of each.
pub(crate) fn measure_image<S: Saving>(
    rt: &HostRuntime,
    store: &mut Rss<S>,
    work: Work,
    keys: Keys,
) -> Result<()> {
    let alloc = rt.alloc();
    define_image(store, alloc, keys)?;
    let start = Instant::now(rt)?;
    insert_all(store, alloc, work, keys)?;
    let inserted = Instant::now(rt)?;
    look_up_all(store, alloc, work, keys)?;
    let found = Instant::now(rt)?;
    scan_image(store, alloc, work)?;
    let scanned = Instant::now(rt)?;
    println!(rt;
        "rss-{} {} {} {}",
        keys.name(),
        rate(work.tuples, inserted.duration_since(start)),
        rate(work.tuples, found.duration_since(inserted)),
        rate(work.tuples, scanned.duration_since(found))
    )?;
    Ok(())
}
