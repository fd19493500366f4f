// Sizes, alignments and offsets (6.5.3.4, 6.7.2.1).

ghost use Rattle.std.specs.Prelude.{◌≡◌};
ghost use Rattle.c_types.specs.Types.{type_of};
ghost use Rattle.c_types.specs.Layout.{size_of, align_of, member_offset};

use c_types::{Tags, Ty};

/// The size of a type in bytes (6.5.3.4p2); 0 where `Tags::extent` gives none (own).
pub fn size(tags: &Tags, ty: &Ty) -> u64
    ensures { result ≡ size_of tags.now (type_of ty.now) }
{
    match tags.extent(ty) {
        Some(extent) => extent.size,
        None => 0,
    }
}

/// The alignment of a type in bytes (6.5.3.4p3): 1, 2, 4 or 8; 1 where `Tags::extent` gives none (own).
pub fn align(tags: &Tags, ty: &Ty) -> u64
    ensures { result ≡ align_of tags.now (type_of ty.now) }
{
    match tags.extent(ty) {
        Some(extent) => extent.align,
        None => 1,
    }
}

/// The offset of a member in its structure or union (6.7.2.1p15, 6.7.2.1p16); 0 where there is no such member (own).
pub fn offset_of(tags: &Tags, tag: u32, member: usize) -> u64
    ensures { result ≡ member_offset tags.now tag member }
{
    match tags.offset_of(tag, member) {
        Some(offset) => offset,
        None => 0,
    }
}
