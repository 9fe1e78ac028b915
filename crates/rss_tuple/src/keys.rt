// The pages of a segment.
ghost use Rattle.std.specs.Prelude.{◌≡◌};
ghost use Rattle.rss_base.specs.Paged.{page_key};
ghost use Rattle.rss_base.specs.declared.key.Space.TheVariants.{Home, Overflow};
ghost use Rattle.rss_base.specs.declared.fault.PageFault.TheVariants.{Damaged};
ghost use Rattle.rss_base.specs.declared.place.Place.TheVariants.{Page as PagePlace};

use rss_base::{PageFault, PageKey, Place, Space};

/// The home page `number`.
pub(crate) fn home(segment: u8, number: u32) -> PageKey
    ensures { result ≡ page_key segment Home number }
{
    PageKey {
        segment,
        space: Space::Home,
        number,
    }
}

/// The overflow page `number`.
pub(crate) fn overflow(segment: u8, number: u32) -> PageKey
    ensures { result ≡ page_key segment Overflow number }
{
    PageKey {
        segment,
        space: Space::Overflow,
        number,
    }
}

/// The page isn't what it should be.
pub(crate) fn damaged(key: PageKey) -> PageFault
    ensures { result ≡ Damaged (PagePlace key) }
{
    PageFault::Damaged(Place::Page(key))
}
