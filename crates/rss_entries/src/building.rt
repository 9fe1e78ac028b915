// Images, built from pairs.
ghost use Rattle.std.specs.Prelude.{◌≡◌, ◌+◌, ◌*◌, ◌<◌, ◌≤◌, All, IfOk, [], length};
ghost use Rattle.rss_base.specs.DiskRule.{IsTold};
ghost use Rattle.rss_base.specs.Sizes.{page_entries};
ghost use Rattle.rss_base.specs.Steps.{PagesCall, pages_in};
ghost use Rattle.rss_base.specs.declared.key.Space.TheVariants.{Image as ImageSpace};
ghost use Rattle.rss_node.specs.Nodes.{AreNodes};
ghost use Rattle.rss_image.specs.Images.{nodes_of, page_bound, pairs_most, Becomes};
ghost use Rattle.rss_entries.specs.Building.{pair_list, AreRising, BuildsMade};

use rss_base::{Key, PageFault, Pages, Tid};
use rss_image::Image;

/// An image of these pairs, which rise, in pages of its own. If this fails, some of them may still
/// be mapped.
pub fn build<P: Pages>(
    pages: &mut P,
    segment: u8,
    number: u8,
    width: u8,
    pairs: &[(Key, Tid)],
) -> Result<Image, PageFault>
    requires of { AreNodes (record { segment = segment; image = number; width = width }) }
    requires long { All (λ pair. length pair.0 ≡ width) pairs.now }
    requires slots { All (λ pair. pair.1.slot < page_entries) pairs.now }
    requires rising { AreRising pairs.now }
    requires few { length pairs.now ≤ pairs_most }
    requires room { page_bound width (length pairs.now) ≤ (P.view pages.old).spare }
    ensures is { IfOk result (λ image. nodes_of image
        ≡ record { segment = segment; image = number; width = width }) }
    ensures low { IfOk result (λ image. 1 ≤ image.levels) }
    ensures built { IfOk result (λ image. IsTold (P.view pages.old).disk
        → Becomes image image (P.view pages.old) (P.view pages.new) [] (pair_list pairs.now)) }
    ensures made { IfOk result (λ image. IsTold (P.view pages.old).disk
        → BuildsMade image (pair_list pairs.now) (P.view pages.new)) }
    ensures did { PagesCall (pages_in segment ImageSpace) (255 * length pairs.now)
        (1022 * length pairs.now + 2) (P.view pages.old) (P.view pages.new) result }
{
    let mut image = Image::create(pages, segment, number, width)?;
    for (key, tid) in pairs {
        is_byte_high(image);
        image.insert(pages, key, *tid)?;
    }
    Ok(image)
}

/// A byte has an image's levels, which bounds how many pages are asked for.
fn is_byte_high(image: Image)
    ensures { image.levels ≤ 255 }
{}
