// Places for pages.
ghost use Rattle.std.specs.Prelude.{◌≡◌, ◌<◌, length, true, false, None, is_none, IfSome, IfNone};
ghost use Rattle.std.specs.Prelude.{All};
ghost use Rattle.std.specs.Option.{option_copied};
ghost use Rattle.rss_device.specs.MemPages.{has_key, place_at, stored_in, free_in};
ghost use Rattle.rss_device.specs.MemPages.{has_image, images_in};

use rss_base::{Page, PageKey, Space};

/// A page and its key, and what was noted on it.
#[derive(Clone, Copy)]
pub(crate) struct Stored {
    pub(crate) key: PageKey,
    pub(crate) page: Page,
    pub(crate) note: Option<u16>,
}

/// Whether the place has this page.
fn has_page(place: &Option<Stored>, key: PageKey) -> bool
    ensures { result ≡ has_key key place.now }
{
    match place {
        Some(stored) => key == stored.key,
        None => false,
    }
}

/// Whether the place has a page of images.
fn has_image(place: &Option<Stored>) -> bool
    ensures { result ≡ has_image place.now }
{
    match place {
        Some(stored) => stored.key.space == Space::Image,
        None => false,
    }
}

/// The place that has this page.
pub(crate) fn place_of(places: &[Option<Stored>], key: PageKey) -> Option<usize>
    ensures within { IfSome result (λ at. at < length places.now) }
    ensures has { IfSome result (λ at. has_key key (place_at places.now at) ≡ true) }
    ensures none { IfNone result (All (λ place. has_key key place ≡ false) places.now) }
{
    places.iter().position(|place| has_page(place, key))
}

/// A place that has no page.
pub(crate) fn free_place(places: &[Option<Stored>]) -> Option<usize>
    ensures within { IfSome result (λ at. at < length places.now) }
    ensures free { IfSome result (λ at. place_at places.now at ≡ None) }
    ensures none { IfNone result (All (λ place. is_none place ≡ false) places.now) }
{
    places.iter().position(|place| place.is_none())
}

/// What the place of a page has.
pub(crate) fn stored_of(places: &[Option<Stored>], key: PageKey) -> Option<&Stored>
    ensures { option_copied result ≡ stored_in places.now key }
{
    for place in places {
        if let Some(stored) = place {
            if key == stored.key {
                return Some(stored);
            }
        }
    }
    None
}

/// How many places have no page.
pub(crate) fn free_places(places: &[Option<Stored>]) -> usize
    ensures { result ≡ free_in places.now }
{
    places.iter().filter(|place| place.is_none()).count()
}

/// How many places have a page of images.
pub(crate) fn image_places(places: &[Option<Stored>]) -> usize
    ensures { result ≡ images_in places.now }
{
    places.iter().filter(|place| has_image(place)).count()
}
