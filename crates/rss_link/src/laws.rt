// The laws of links.
ghost use Rattle.std.specs.Prelude.{◌≡◌, ◌↔◌, ◌<◌, ℕ, true, false, List, [], Option, Some, None};
ghost use Rattle.rss_base.specs.LogRecords.{place_bytes};
ghost use Rattle.rss_base.specs.Prefixes.{Ends as SomeEnds, ends_of};
ghost use Rattle.rss_base.specs.Sizes.{slots_most, page_entries};
ghost use Rattle.rss_base.specs.declared.tid.Tid.{Tid as SomeTid};
ghost use Rattle.rss_tuple.specs.Directory.{Bodies, with_body};
ghost use Rattle.rss_link.specs.declared.link.Chains.{Chains as SomeLink};
ghost use Rattle.rss_link.specs.declared.blocks.Standing.TheVariants.{Outside as IsInNone};
ghost use Rattle.rss_link.specs.Blocks.{IsNamed, IsPointer, HasStanding, HasEnds};
ghost use Rattle.rss_link.specs.Chains.{Linkage, IsOutside};
ghost use Rattle.rss_link.specs.Links.{SpellChains, SameBlocks, KeepBodies, AreDisjoint};
ghost use Rattle.rss_link.specs.Links.{with_child, with_parent};
ghost use Rattle.rss_link.specs.Prefixed.{IsPrefixed};

/// Bodies and kept ends spell the chains of given tuples in one way at most.
pub fn spelled_once()
    ensures { (link : SomeLink) (ends : SomeEnds) (bodies : Bodies) (one other : Linkage)
        → other.children ≡ one.children → other.parents ≡ one.parents
        → SpellChains link ends bodies one → SpellChains link ends bodies other
        → (parent : Option SomeTid) → other.lists parent ≡ one.lists parent }
{}

/// Only the link's blocks in the bodies of its own tuples matter: if these are as they were, the
/// same chains are spelled.
pub fn blocks_matter_alone()
    ensures { (link : SomeLink) (ends : SomeEnds) (old new : Bodies) (linkage : Linkage)
        → SameBlocks link linkage old new
        → SpellChains link ends old linkage → SpellChains link ends new linkage }
{}

/// If no other bytes are changed than those of a link's blocks, as by a connect and a disconnect,
/// the chains of each link whose blocks lie elsewhere stay.
pub fn other_links_stay()
    ensures { (link other : SomeLink) (ends : SomeEnds) (old new : Bodies) (linkage others : Linkage)
        → AreDisjoint link linkage other others → KeepBodies link linkage old new
        → SpellChains other ends old others → SpellChains other ends new others }
{}

/// A tuple whose block says that it is in no chain, or that its chain is empty, leaves all chains as
/// they are when it comes.
pub fn comes_outside()
    ensures child { (link : SomeLink) (ends : SomeEnds) (bodies : Bodies) (linkage : Linkage)
        (tid : SomeTid) (body : List ℕ) → bodies link.child_segment tid ≡ None → IsNamed tid
        → HasStanding link.unary body link.child_at IsInNone
        → SpellChains link ends bodies linkage
        → SpellChains link ends (with_body bodies link.child_segment tid (Some body))
        (with_child linkage tid true) }
    ensures parent { (link : SomeLink) (ends : SomeEnds) (bodies : Bodies) (linkage : Linkage)
        (tid : SomeTid) (body : List ℕ) → link.unary ≡ false
        → bodies link.parent_segment tid ≡ None → IsNamed tid
        → HasEnds body link.parent_at (ends_of [])
        → SpellChains link ends bodies linkage
        → SpellChains link ends (with_body bodies link.parent_segment tid (Some body))
        (with_parent linkage tid true) }
{}

/// And so does a tuple that is in no chain, or whose chain is empty, when it goes.
pub fn goes_outside()
    ensures child { (link : SomeLink) (ends : SomeEnds) (bodies : Bodies) (linkage : Linkage)
        (tid : SomeTid) → linkage.children tid ≡ true → IsOutside linkage.lists tid
        → SpellChains link ends bodies linkage
        → SpellChains link ends (with_body bodies link.child_segment tid None)
        (with_child linkage tid false) }
    ensures parent { (link : SomeLink) (ends : SomeEnds) (bodies : Bodies) (linkage : Linkage)
        (tid : SomeTid) → link.unary ≡ false → linkage.parents tid ≡ true
        → linkage.lists (Some tid) ≡ []
        → SpellChains link ends bodies linkage
        → SpellChains link ends (with_body bodies link.parent_segment tid None)
        (with_parent linkage tid false) }
{}

/// Six bytes spell each identifier that a store has, and one pointer at most.
pub fn pointers_are_spelled()
    ensures fits { (tid : SomeTid) → tid.page < slots_most → tid.slot < page_entries → IsNamed tid }
    ensures once { (one other : Option SomeTid) → IsPointer one → IsPointer other
        → place_bytes other ≡ place_bytes one → other ≡ one }
{}

/// Chains are spelled exactly if each tuple of the link's relations has the block of its prefix,
/// and the lists are chains as the machine has them.
pub fn spelled_by_blocks()
    ensures { (link : SomeLink) (ends : SomeEnds) (bodies : Bodies) (linkage : Linkage)
        → SpellChains link ends bodies linkage ↔ IsPrefixed link ends bodies linkage }
{}
