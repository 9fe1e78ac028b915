// Calls on an image that are made only where they may be.
ghost use Rattle.std.specs.Prelude.{IsTrue};
ghost use Rattle.rss_node.specs.Nodes.{AreNodes};
ghost use Rattle.rss_image.specs.Images.{nodes_of};

use crate::pairs::{Code, code_from, key_of, tid_of};
use crate::watched::Watched;
use rss_base::{PageFault, Pages};
use rss_device::MemPages;
use rss_image::Image;
use rss_images::Untold;
use std::alloc::Global;
use std::test::Fail;

/// How many pages there is room for.
pub(crate) const SLOTS: u32 = 512;

const SEGMENT: u8 = 2;

const NUMBER: u8 = 5;

/// Pages in memory.
pub(crate) type Tried = Watched<Untold<MemPages>>;

/// Why a call was not made, or not answered.
#[derive(Clone, Copy, Debug, PartialEq)]
pub(crate) enum Undone {
    Fault(PageFault),
    /// It may not be made, for this reason.
    Refused(&'static str),
}

impl From<PageFault> for Undone {
    fn from(fault: PageFault) -> Self {
        Undone::Fault(fault)
    }
}

pub(crate) fn empty(alloc: Global) -> Result<Tried, Fail> {
    let pages = MemPages::new(alloc, SLOTS)?;
    Ok(Watched::new(alloc, Untold::new(pages))?)
}

fn is_image(image: &Image) -> bool
    ensures { IsTrue result → AreNodes (nodes_of image.now) }
{
    image.width >= 1 && image.width <= 120 && image.segment >= 1 && image.segment <= 8
}

const NO_IMAGE: Undone = Undone::Refused("no image");

#[tactic(auto, using(rss_images::specs::Silent::never_told))]
pub(crate) fn create(pages: &mut Tried, width: u8) -> Result<Image, Undone> {
    if width < 1 || width > 120 || pages.spare() == 0 {
        return Err(NO_IMAGE);
    }
    Ok(Image::create(pages, SEGMENT, NUMBER, width)?)
}

#[tactic(auto, using(rss_images::specs::Silent::never_told))]
pub(crate) fn insert(image: &mut Image, pages: &mut Tried, code: Code) -> Result<(), Undone> {
    let key = key_of(code, image.width);
    let tid = tid_of(code);
    if !is_image(image) || image.levels == 0 || key.as_slice().len() != usize::from(image.width) {
        return Err(NO_IMAGE);
    }
    if tid.slot >= 128 {
        return Err(Undone::Refused("no identifier"));
    }
    Ok(image.insert(pages, &key, tid)?)
}

#[tactic(auto, using(rss_images::specs::Silent::never_told))]
pub(crate) fn remove(image: &mut Image, pages: &mut Tried, code: Code) -> Result<(), Undone> {
    let key = key_of(code, image.width);
    if !is_image(image) || image.levels == 0 || key.as_slice().len() != usize::from(image.width) {
        return Err(NO_IMAGE);
    }
    Ok(image.remove(pages, &key, tid_of(code))?)
}

/// The first pair at or above the key of a pair.
#[tactic(auto, using(rss_images::specs::Silent::never_told))]
pub(crate) fn seek(image: &Image, pages: &mut Tried, code: Code) -> Result<Option<Code>, Undone> {
    let key = key_of(code, image.width);
    if !is_image(image) || image.levels == 0 || key.as_slice().len() != usize::from(image.width) {
        return Err(NO_IMAGE);
    }
    match image.seek(pages, &key)? {
        Some((key, tid)) => Ok(Some(code_from(&key, tid))),
        None => Ok(None),
    }
}

/// The first pair above a pair.
#[tactic(auto, using(rss_images::specs::Silent::never_told))]
pub(crate) fn after(image: &Image, pages: &mut Tried, code: Code) -> Result<Option<Code>, Undone> {
    let key = key_of(code, image.width);
    if !is_image(image) || image.levels == 0 || key.as_slice().len() != usize::from(image.width) {
        return Err(NO_IMAGE);
    }
    match image.after(pages, &key, tid_of(code))? {
        Some((key, tid)) => Ok(Some(code_from(&key, tid))),
        None => Ok(None),
    }
}

#[tactic(auto, using(rss_images::specs::Silent::never_told))]
pub(crate) fn destroy(image: Image, pages: &mut Tried) -> Result<(), Undone> {
    if !is_image(&image) || image.levels == 0 {
        return Err(NO_IMAGE);
    }
    Ok(image.destroy(pages)?)
}
