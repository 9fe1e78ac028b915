// The values of tuples, as the records of the log have them, and how long their bodies are.
ghost use Rattle.std.specs.Prelude.{◌≡◌, ◌≤◌, None, length};
ghost use Rattle.rss_base.specs.Listings.{ListingFits};
ghost use Rattle.rss_base.specs.LogRecords.{IsShort};
ghost use Rattle.rss_base.specs.TupleTypes.{kinds, misfit, width, most_width, Spells};
ghost use Rattle.rss_tuple.specs.Calls.{IsBodyLength};
ghost use Rattle.rss_rsi.specs.Views.{body_length};

use rss_base::{Body, FieldDef, Tuple};
use rss_catalog::Catalog;
use rss_members::prefix_len;
use rss_value::encode;

/// How many bytes the blocks of a tuple have at most, if the catalog is sound.
const BLOCKS_MOST: usize = 16 * 18;

/// The bytes of the values of a tuple of a relation that has these fields.
pub(crate) fn values_of(fields: &[FieldDef], tuple: &Tuple) -> Body
    requires fit { misfit (kinds fields.now) tuple.now ≡ None }
    requires narrow { width (kinds fields.now) ≤ most_width }
    ensures spelled { Spells (kinds fields.now) result tuple.now }
    ensures short { IsShort result }
{
    let mut values = Body::new();
    encode(fields, tuple, &mut values);
    values
}

/// How many bytes the body of a tuple with these values has, in the relation `number`: its number
/// stands first, and then the blocks of its links.
pub(crate) fn body_len(catalog: &Catalog, number: u8, values: &[u8]) -> u16
    requires short { IsShort values.now }
    ensures may { IsBodyLength result }
    ensures is { ListingFits catalog.now.listing
        → result ≡ body_length catalog.now.listing number (length values.now) }
{
    let blocks = prefix_len(catalog, number).min(BLOCKS_MOST);
    (1 + blocks + values.len()) as u16
}
