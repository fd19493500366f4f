//! Laws of layout, over its definition alone.
#![tactic(auto)]

ghost use Rattle.std.specs.Prelude.{◌≡◌, ℕ, ◌<◌, ◌≤◌, ◌%◌, ◌&&◌, List};
ghost use Rattle.c_types.specs.declared.tags.Tag.{Tag};
ghost use Rattle.c_types.specs.Types.{CType};
ghost use Rattle.c_types.specs.Layout.{extent, extents, rounded};
ghost use Rattle.layout_laws.specs.Complete.{is_complete, is_within, whole_extent, only_if};

/// A type has an extent exactly where it is complete and no part of it has more than 2^40 bytes, and that is the extent which
/// it has without the limit.
pub fn law_complete()
    ensures { (tags : List Tag) (t : CType) → extent (extents tags) t ≡ only_if (is_complete tags t && is_within tags t) (whole_extent tags t) }
{}

/// An offset is rounded up to the least multiple of the alignment that isn't below it.
pub fn law_rounded()
    ensures multiple { (align offset : ℕ) → 0 < align → rounded align offset % align ≡ 0 }
    ensures above { (align offset : ℕ) → offset ≤ rounded align offset }
    ensures least { (align offset n : ℕ) → 0 < align → offset ≤ n → n % align ≡ 0 → rounded align offset ≤ n }
{}
