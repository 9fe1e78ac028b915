// The laws of links as a catalog lists them.
ghost use Rattle.std.specs.Prelude.{◌≡◌, ℕ, false, not, is_some, List, length, Option, Some};
ghost use Rattle.rss_base.specs.Listings.{Listing, ListingFits, with_link};
ghost use Rattle.rss_base.specs.Prefixes.{Ends as SomeEnds, prefix_size};
ghost use Rattle.rss_base.specs.declared.link.LinkEntry.{LinkEntry as ALink};
ghost use Rattle.rss_base.specs.declared.relation.RelationEntry.{RelationEntry as Entry};
ghost use Rattle.rss_base.specs.declared.tid.Tid.{Tid as SomeTid};
ghost use Rattle.rss_catalog.specs.Catalogs.{with_ends};
ghost use Rattle.rss_tuple.specs.Directory.{Bodies};
ghost use Rattle.rss_model.specs.Tables.{Contents, Tables};
ghost use Rattle.rss_stored.specs.Store.{prefix_of, IsListedLink};
ghost use Rattle.rss_link.specs.Chains.{IsParent, relinked};
ghost use Rattle.rss_link.specs.Links.{SpellChains, KeepBodies, AreDisjoint};
ghost use Rattle.rss_members.specs.Members.{chains_of, linkage_in, listed_ends, with_chain};
ghost use Rattle.rss_members.specs.Members.{SpellsMembers, blank_prefix};

/// A prefix has as many bytes as the links of its relation have, whatever its tuple's chains are.
pub fn blank_prefixes()
    ensures long { (listing : Listing) (contents : Contents) (number : ℕ) (tid : SomeTid)
        → length (prefix_of listing contents number tid) ≡ prefix_size listing.links number }
    ensures blank_long { (listing : Listing) (number : ℕ)
        → length (blank_prefix listing number) ≡ prefix_size listing.links number }
{}

/// If tables are spelled, so are the chains of each link that is listed.
pub fn links_are_spelled()
    ensures { (listing : Listing) (bodies : Bodies) (tables : Tables) (number : ℕ) (link : ALink)
        (child : Entry) → SpellsMembers listing bodies tables → IsListedLink listing number link child
        → SpellChains (chains_of listing number link) (listed_ends link) bodies
        (linkage_in listing tables link child) }
{}

/// And the blocks of two links don't overlap.
pub fn blocks_lie_apart()
    ensures { (listing : Listing) (bodies : Bodies) (tables : Tables) (one other : ℕ)
        (link link_too : ALink) (child child_too : Entry) → SpellsMembers listing bodies tables
        → IsListedLink listing one link child → IsListedLink listing other link_too child_too
        → (one ≡ other → ⊥)
        → AreDisjoint (chains_of listing one link) (linkage_in listing tables link child)
        (chains_of listing other link_too) (linkage_in listing tables link_too child_too) }
{}

/// If one chain of a link has another list in the bodies, no byte was changed but in blocks of the
/// link, and the listing has its ends, the tables with this list are spelled.
pub fn spelled_again()
    ensures { (listing : Listing) (old new : Bodies) (tables : Tables) (number : ℕ) (link : ALink)
        (child : Entry) (ends : SomeEnds) (parent : Option SomeTid) (list : List SomeTid)
        → SpellsMembers listing old tables → IsListedLink listing number link child
        → IsParent (chains_of listing number link).unary (linkage_in listing tables link child).parents
        parent
        → SpellChains (chains_of listing number link) ends new
        (relinked (linkage_in listing tables link child) parent list)
        → KeepBodies (chains_of listing number link) (linkage_in listing tables link child) old new
        → ((chains_of listing number link).unary ≡ false → ends ≡ listed_ends link)
        → ListingFits (with_link listing number (Some (with_ends ends.first ends.last link)))
        → SpellsMembers (with_link listing number (Some (with_ends ends.first ends.last link))) new
        (with_chain tables link.name parent list) }
{}
