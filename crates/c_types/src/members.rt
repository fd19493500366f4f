// The members of a structure or union (6.7.2.1).
ghost use Rattle.std.specs.Prelude.{◌≡◌, ◌≤◌, ◌<◌, ◌^◌, ◌+◌, IfSome, Some, take, slice_get, length};
ghost use Rattle.c_types.specs.Layout.{rounded, offset, with_member, placed, members_extent, padded, no_members, tag_extent, type_of_member, extent_of_member};
ghost use Rattle.c_types.specs.Layout.{offset_of, IsSound};
ghost use Rattle.c_types.specs.Layout as layout;
ghost use Rattle.c_types.specs.Table.{look, IsTable};

use crate::sizes::{extent, limited};
use crate::tags::Row;
use crate::{Extent, Member, Tag, TagKind};

fn rounded(align: u64, offset: u64) -> u64
    requires least { 0 < align }
    requires most { align ≤ 8 }
    requires small { offset ≤ 2 ^ 40 }
    ensures value { result ≡ rounded align offset }
    ensures near { result ≤ offset + 8 }
{
    offset.next_multiple_of(align)
}

// Where a member stands behind those before it.
fn offset(kind: TagKind, before: Extent, member: Extent) -> u64
    requires before { IsSound before }
    requires member { IsSound member }
    ensures value { result ≡ offset kind before member }
    ensures small { result ≤ 2 ^ 40 + 8 }
{
    match kind {
        TagKind::Struct => rounded(member.align, before.size),
        TagKind::Union => 0,
    }
}

fn placed(kind: TagKind, before: Extent, member: Extent) -> Option<Extent>
    requires before { IsSound before }
    requires member { IsSound member }
    ensures value { result ≡ placed kind before (Some member) }
    ensures sound { IfSome result IsSound }
{
    let size = before.size.max(offset(kind, before, member) + member.size);
    limited(u128::from(size), before.align.max(member.align))
}

fn padded(e: Extent) -> Option<Extent>
    requires { IsSound e }
    ensures value { result ≡ padded e }
    ensures sound { IfSome result IsSound }
{
    limited(u128::from(rounded(e.align, e.size)), e.align)
}

// The members of a tag, before its padding.
fn members_extent(rows: &[Row], kind: TagKind, members: &[Member]) -> Option<Extent>
    requires { IsTable rows.now }
    ensures value { result ≡ members_extent kind (look rows.now) (Some no_members) members.now }
    ensures sound { IfSome result IsSound }
{
    let mut before = Extent { size: 0, align: 1 };
    for member in members {
        let Some(e) = extent(rows, &member.qual.ty) else {
            return None;
        };
        let Some(after) = placed(kind, before, e) else {
            return None;
        };
        before = after;
    }
    Some(before)
}

// The extent of a structure or union, by the tags that have one.
pub(crate) fn tag_extent(rows: &[Row], tag: &Tag) -> Option<Extent>
    requires { IsTable rows.now }
    ensures value { result ≡ tag_extent (look rows.now) tag.now }
    ensures sound { IfSome result IsSound }
{
    if tag.members.is_empty() {
        return None;
    }
    match members_extent(rows, tag.kind, tag.members.as_slice()) {
        None => None,
        Some(e) => padded(e),
    }
}

fn member_extent(rows: &[Row], member: &Member) -> Option<Extent>
    requires { IsTable rows.now }
    ensures value { result ≡ layout.extent (look rows.now) (type_of_member member.now) }
    ensures sound { IfSome result IsSound }
{
    extent(rows, &member.qual.ty)
}

fn extent_of_member(rows: &[Row], members: &[Member], at: usize) -> Option<Extent>
    requires { IsTable rows.now }
    ensures value { result ≡ extent_of_member (look rows.now) (slice_get members.now at) }
    ensures sound { IfSome result IsSound }
{
    match members.get(at) {
        None => None,
        Some(member) => member_extent(rows, member),
    }
}

// The members of a tag before this one.
fn extent_before(rows: &[Row], kind: TagKind, members: &[Member], at: usize) -> Option<Extent>
    requires table { IsTable rows.now }
    requires within { at ≤ length members.now }
    ensures value { result ≡ members_extent kind (look rows.now) (Some no_members) (take at members.now) }
    ensures sound { IfSome result IsSound }
{
    let (before, _) = members.split_at(at);
    members_extent(rows, kind, before)
}

// Where a member stands, if there is one.
pub(crate) fn member_offset(rows: &[Row], tag: &Tag, member: usize) -> Option<u64>
    requires { IsTable rows.now }
    ensures { result ≡ offset_of (look rows.now) tag.now member }
{
    if member < tag.members.len() {
        offset_of(rows, tag, member)
    } else {
        None
    }
}

// Where a member of a structure or union stands (6.7.2.1p15, 6.7.2.1p16).
fn offset_of(rows: &[Row], tag: &Tag, member: usize) -> Option<u64>
    requires table { IsTable rows.now }
    requires there { member < length tag.now.members }
    ensures { result ≡ offset_of (look rows.now) tag.now member }
{
    let members = tag.members.as_slice();
    let before = extent_before(rows, tag.kind, members, member);
    let own = extent_of_member(rows, members, member);
    match (before, own) {
        (Some(before), Some(own)) => Some(offset(tag.kind, before, own)),
        _ => None,
    }
}
