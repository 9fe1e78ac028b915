// What a run leaves, as it is counted.
use anyhow::{Result, bail, ensure};
use rss_base::Name;
use rss_device::MemDevice;
use rss_rsi::{MOST_FRAMES, open};
use rss_scripts::without_moments;
use std::alloc::Global;

/// The image whose levels are counted.
const I: Name = Name {
    bytes: *b"i\0\0\0\0\0\0\0\0\0\0\0\0\0\0\0",
};

/// The byte of a root that is its version.
const VERSION: usize = 5;

/// Exactly so many pages were written.
pub(crate) fn assert_writes(after: &MemDevice, count: u32) -> Result<()> {
    let count = count as usize;
    ensure!(after.moment_of_write(count).is_none(), "more writes");
    if let Some(last) = count.checked_sub(1) {
        ensure!(after.moment_of_write(last).is_some(), "fewer writes");
    }
    Ok(())
}

/// How many pages of a store are mapped, and how many levels its image has, if it has one.
fn counts_of(alloc: Global, store: &MemDevice) -> Result<(u32, Option<u8>)> {
    let Ok(opened) = open(alloc, without_moments(alloc, store)?, MOST_FRAMES) else {
        bail!("it is no store");
    };
    let counts = (opened.mapped(), opened.levels(&I));
    let _ = opened.into_pages().into_device();
    Ok(counts)
}

/// So many pages are mapped.
pub(crate) fn assert_mapped(alloc: Global, store: &MemDevice, want: u32) -> Result<()> {
    let (mapped, _) = counts_of(alloc, store)?;
    ensure!(mapped == want, "{mapped} pages are mapped");
    Ok(())
}

/// The image has so many levels.
pub(crate) fn assert_levels(alloc: Global, store: &MemDevice, want: u32) -> Result<()> {
    let (_, levels) = counts_of(alloc, store)?;
    ensure!(
        levels.map(u32::from) == Some(want),
        "the levels are {levels:?}"
    );
    Ok(())
}

/// The root that the selector names has this version.
pub(crate) fn assert_version(store: &MemDevice, want: u32) -> Result<()> {
    let pages = store.pages();
    let Some(selector) = pages.first() else {
        bail!("there is no selector");
    };
    let Some(root) = pages.get(1 + usize::from(selector[0] % 2)) else {
        bail!("there is no root");
    };
    let version = root[VERSION];
    ensure!(u32::from(version) == want, "the version is {version}");
    Ok(())
}
