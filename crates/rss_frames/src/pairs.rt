// Two pages of a slice, both lent.
ghost use Rattle.std.specs.Prelude.{◌≡◌, ◌≢◌, ◌<◌, length};
ghost use Rattle.std.specs.Borrow.{sem};
ghost use Rattle.rss_frames.specs.Pairs.{LendsPair, page_at};

use rss_base::Page;

/// Two pages, both lent for writing.
#[derive(Drop)]
pub struct TwoPages<'a> {
    pub first: &'a mut Page,
    pub second: &'a mut Page,
}

/// Two pages of a slice.
fn low_high(pages: &mut [Page], low: u32, high: u32) -> TwoPages<'_>
    requires order { low < high }
    requires within { high < length pages.old }
    ensures* writes_back { sem 𝓛 (LendsPair pages.entry low high result) }
    ensures first { result.first.now ≡ page_at pages.old low }
    ensures second { result.second.now ≡ page_at pages.old high }
{
    let (left, right) = pages.split_at_mut(high as usize);
    TwoPages {
        first: &mut left[low as usize],
        second: &mut right[0],
    }
}

/// The same the other way round.
fn high_low(pages: &mut [Page], high: u32, low: u32) -> TwoPages<'_>
    requires order { low < high }
    requires within { high < length pages.old }
    ensures* writes_back { sem 𝓛 (LendsPair pages.entry high low result) }
    ensures first { result.first.now ≡ page_at pages.old high }
    ensures second { result.second.now ≡ page_at pages.old low }
{
    let (left, right) = pages.split_at_mut(high as usize);
    TwoPages {
        first: &mut right[0],
        second: &mut left[low as usize],
    }
}

/// Two pages of a slice, both lent for writing.
pub(crate) fn pair(pages: &mut [Page], first: u32, second: u32) -> TwoPages<'_>
    requires apart { first ≢ second }
    requires first_within { first < length pages.old }
    requires second_within { second < length pages.old }
    ensures* writes_back { sem 𝓛 (LendsPair pages.entry first second result) }
    ensures first { result.first.now ≡ page_at pages.old first }
    ensures second { result.second.now ≡ page_at pages.old second }
{
    if first < second {
        low_high(pages, first, second)
    } else {
        high_low(pages, first, second)
    }
}
