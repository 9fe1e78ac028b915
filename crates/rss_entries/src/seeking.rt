// A key's owner, and the next pair of an image.
ghost use Rattle.std.specs.Prelude.{◌≡◌, ◌+◌, ◌*◌, ◌≤◌, length, All, IfOk, IfSome};
ghost use Rattle.rss_base.specs.DiskRule.{IsTold};
ghost use Rattle.rss_base.specs.Steps.{PagesCall, no_page};
ghost use Rattle.rss_base.specs.TupleTypes.{kinds, chosen, key_width, SpellsSome};
ghost use Rattle.rss_value.specs.Numbers.{IsNumberOf};
ghost use Rattle.rss_node.specs.Nodes.{AreNodes};
ghost use Rattle.rss_base.specs.Tids.{IsSpelledTid};
ghost use Rattle.rss_image.specs.Images.{nodes_of, HasImage};
ghost use Rattle.rss_entries.specs.Keyed.{kinds_of};
ghost use Rattle.rss_entries.specs.Seeking.{IsOwnerIn, IsNextIn};

use crate::moving::KeyFields;
use rss_base::{Key, PageFault, Pages, Tid, tid_is_spelled};
use rss_image::Image;
use rss_value::key as write_key;

/// The tuple that has the key of a tuple with the values of these bytes, if there is one, other than
/// `own`, the tuple that the key is for; a new one is none yet.
pub fn find_owner<P: Pages>(
    pages: &mut P,
    image: &Image,
    key: KeyFields<'_>,
    values: &[u8],
    own: Option<Tid>,
) -> Result<Option<Tid>, PageFault>
    requires of { AreNodes (nodes_of image.now) }
    requires low { 1 ≤ image.now.levels }
    requires numbers { All (IsNumberOf key.fields.now) key.which.now }
    requires width { image.now.width ≡ key_width (chosen key.which.now (kinds key.fields.now)) }
    requires spelled { SpellsSome (kinds key.fields.now) values.now }
    requires there { IsTold (P.view pages.old).disk
        → ∥ HasImage image.now (P.view pages.old).held ∥₁ }
    ensures owner { IfOk result (λ found. IsTold (P.view pages.old).disk
        → IsOwnerIn image.now (P.view pages.old).held (kinds_of key.entry) values.now own found) }
    ensures did { PagesCall no_page (2 * (image.now.levels + 1)) (2 * (image.now.levels + 1))
        (P.view pages.old) (P.view pages.new) result }
{
    let mut bytes = Key::new();
    write_key(key.fields, key.which, values, &mut bytes);
    tid_is_spelled(own);
    let found = image.another(pages, &bytes, own)?;
    tid_is_spelled(found);
    Ok(found)
}

/// The pair of an image after the one that was given last; before the first, the first pair whose
/// key is at or above `start`.
pub fn next_pair<P: Pages>(
    pages: &mut P,
    image: &Image,
    start: &Key,
    last: &Option<(Key, Tid)>,
) -> Result<Option<(Key, Tid)>, PageFault>
    requires of { AreNodes (nodes_of image.now) }
    requires low { 1 ≤ image.now.levels }
    requires long { length start.now ≡ image.now.width }
    requires last_long { IfSome last.now (λ pair. length pair.0 ≡ image.now.width) }
    requires there { IsTold (P.view pages.old).disk
        → ∥ HasImage image.now (P.view pages.old).held ∥₁ }
    ensures next { IfOk result (λ found. IsTold (P.view pages.old).disk
        → IsNextIn image.now (P.view pages.old).held start.now last.now found) }
    ensures wide { IfOk result (λ found. IfSome found (λ pair. length pair.0 ≡ image.now.width)) }
    ensures did { PagesCall no_page (image.now.levels + 1) (image.now.levels + 1)
        (P.view pages.old) (P.view pages.new) result }
{
    let found = match last {
        Some((key, tid)) => image.after(pages, key, *tid)?,
        None => image.seek(pages, start)?,
    };
    is_pair_spelled(&found);
    Ok(found)
}

/// The identifier of a pair, if there is one, is spelled by its bytes. It does nothing.
fn is_pair_spelled(found: &Option<(Key, Tid)>)
    ensures { IfSome found.now (λ pair. IsSpelledTid pair.1) }
{
    if let Some((_, tid)) = found {
        tid_is_spelled(Some(*tid));
    }
}
