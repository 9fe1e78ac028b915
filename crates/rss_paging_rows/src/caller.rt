// A caller of pages, which is proved from what `Pages` says alone.
ghost use Rattle.std.specs.Prelude.{◌≡◌, ◌<◌, ◌≤◌, Some, IfOk, OnOk};
ghost use Rattle.rss_base.specs.Sizes.{segments};
ghost use Rattle.rss_base.specs.DiskRule.{IsTold};
ghost use Rattle.rss_base.specs.Paged.{with_page, page_key};
ghost use Rattle.rss_base.specs.Steps.{PagesCall, pages_in};
ghost use Rattle.rss_base.specs.declared.key.Space.TheVariants.{Home};

use rss_base::{Page, PageFault, PageKey, Pages, Space};

/// Keeps a page in the first place of a segment's home space that is free, and reads it again.
/// Answers its number.
pub fn keep<P: Pages>(
    pages: &mut P,
    segment: u8,
    from: &Page,
    into: &mut Page,
) -> Result<u32, PageFault>
    requires low { 1 ≤ segment }
    requires high { segment ≤ segments }
    requires room { 0 < (P.view pages.old).spare }
    ensures kept { IfOk result (λ number. IsTold (P.view pages.old).disk
        → (P.view pages.new).held
        ≡ with_page (P.view pages.old).held (page_key segment Home number) (Some from.now)) }
    ensures read { OnOk result (IsTold (P.view pages.old).disk → into.new ≡ from.now) }
    ensures did { PagesCall (pages_in segment Home) 1 3
        (P.view pages.old) (P.view pages.new) result }
{
    let number = pages.take(segment, Space::Home)?;
    let key = PageKey {
        segment,
        space: Space::Home,
        number,
    };
    pages.write(key, from)?;
    pages.read(key, into)?;
    Ok(number)
}
