// The laws of images.
ghost use Rattle.rss_base.specs.Paged.{Held};
ghost use Rattle.rss_base.specs.DiskRule.{IsTold};
ghost use Rattle.rss_node.specs.Nodes.{AreNodes};
ghost use Rattle.rss_node.specs.declared.pair.Nodes.{Nodes as SomeNodes};
ghost use Rattle.rss_image.specs.Trees.{cells_of};
ghost use Rattle.rss_image.specs.Images.{nodes_of, HasFewPages, HasFewLevels, SpellOne};
ghost use Rattle.rss_image.specs.Agreement.{AreNumbered, AreImages, SpellImages};
ghost use Rattle.rss_image.specs.declared.image.Image.{Image as SomeImage};

use rss_base::Pages;

/// The pages of an image spell one list at most.
pub fn spelled_once()
    ensures { (image : SomeImage) (held : Held) → SpellOne image held }
{}

/// With f entries at least in a node that isn't the root, an image of n pairs has at most
/// n / (f - 1) + 2 pages.
pub fn pages_are_few()
    ensures { (image : SomeImage) (held : Held) → AreNodes (nodes_of image)
        → HasFewPages image held }
{}

/// An image of at most 2^20 pairs has at most five levels.
pub fn levels_are_few()
    ensures { (image : SomeImage) (held : Held) → AreNodes (nodes_of image)
        → HasFewLevels image held }
{}

/// A page's number is below the number of slots, so no image page has the number that stands for no
/// next leaf, or a greater one.
pub fn pages_are_numbered<P: Pages>(pages: &P)
    ensures { (of : SomeNodes) → IsTold (P.view pages.now).disk
        → AreNumbered (cells_of of (P.view pages.now).held) }
{}

/// If pages spell an image by its rows (`ImageTree`), they are one by its nodes (`IsImage` of
/// `rss_base`): the same pairs, in the same pages, each once.
pub fn trees_are_images()
    ensures { (image : SomeImage) (held : Held) → AreImages image held }
{}

/// If pages are an image by its nodes (`IsImage` of `rss_base`), each of them once, they spell it
/// by its rows (`ImageTree`): the same pairs, in the same pages.
pub fn images_are_trees()
    ensures { (image : SomeImage) (held : Held) → SpellImages image held }
{}
