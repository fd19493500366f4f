// The structures and unions of a program, by number.

use crate::members::{member_offset, tag_extent};
use crate::sizes::extent;
use crate::tags::Row;
use crate::{Extent, Member, Tag, TagKind, Ty};
use std::alloc::Global;
use std::marker::Model;
use ub_base::{Items, NoMemory};

/// The structures and unions of a program, by number in the order of their declaration.
#[derive(Drop)]
pub struct Tags {
    rows: Items<Row>,
}

impl Model for Tags {
    ghost use Rattle.std.specs.Prelude.{List, map};
    ghost use Rattle.std.specs.Coded.{codes};
    ghost use Rattle.c_types.specs.contracts.ty.Qual as qual;
    ghost use Rattle.c_types.specs.declared.tags.Tag.{Tag};
    ghost use Rattle.c_types.specs.Table.{tag_of, IsLaid};

    ghost Value = { List Tag };

    ghost coded = { Prim.hlevel (codes, qual.the_row.coded) };

    ghost view = { λ t. map tag_of t.rows };

    ghost invariant = { λ t. IsLaid t.rows };
}

impl Tags {
    ghost use Rattle.std.specs.Prelude.{◌≡◌, ◌==◌, ◌<◌, ◌≤◌, ◌^◌, ◌++◌, ◌∷◌, [], ◌↔◌, IsTrue, IfOk, IfSome, OnOk, OnErr, length, slice_get, is_some, None};
    ghost use Rattle.std.specs.Bool.{OnTrue, OnFalse};
    ghost use Rattle.std.specs.Option.{option_copied};
    ghost use Rattle.c_types.specs.Types.{type_of};
    ghost use Rattle.c_types.specs.Layout.{IsSound, extents, completed, offset_in};
    ghost use Rattle.c_types.specs.Layout as layout;
    ghost use Rattle.c_types.specs.Table.{IsSettled};

    /// No structure or union.
    pub fn new(alloc: Global) -> Tags
        ensures { result ≡ [] }
    {
        Tags {
            rows: Items::new(alloc),
        }
    }

    pub fn len(&self) -> usize
        ensures { result ≡ length self.now }
    {
        self.rows.len()
    }

    pub fn is_empty(&self) -> bool
        ensures { result ≡ (length self.now == 0) }
    {
        self.len() == 0
    }

    /// Whether no number is left for a further one.
    pub fn is_full(&self) -> bool
        ensures { IsTrue result ↔ (2 ^ 32 ≤ length self.now) }
    {
        self.rows.len() >= 0x1_0000_0000
    }

    /// The structure or union of this number.
    pub fn get(&self, tag: u32) -> Option<&Tag>
        ensures { option_copied result ≡ slice_get self.now tag }
    {
        match self.rows.get(tag as usize) {
            Some(row) => Some(&row.tag),
            None => None,
        }
    }

    /// A new structure or union, incomplete so far; the answer is its number.
    pub fn declare(&mut self, alloc: Global, kind: TagKind) -> Result<u32, NoMemory>
        requires { length self.old < 2 ^ 32 }
        ensures number { IfOk result (λ tag. tag ≡ length self.old) }
        ensures ok { OnOk result (self.new ≡ self.old ++ (record { kind = kind; members = [] }) ∷ []) }
        ensures err { OnErr result (self.new ≡ self.old) }
    {
        let number = self.rows.len() as u32;
        let tag = Tag {
            kind,
            members: Items::new(alloc),
        };
        self.rows.push(Row { tag, extent: None })?;
        Ok(number)
    }

    /// Whether the structure or union is there and complete (6.2.5p22).
    pub fn is_complete(&self, tag: u32) -> bool
        ensures { result ≡ is_some (extents self.now tag) }
    {
        match self.rows.get(tag as usize) {
            Some(row) => row.extent.is_some(),
            None => false,
        }
    }

    /// Gives an incomplete structure or union its members. The answer is false, and nothing changes, exactly where it would be
    /// incomplete even so: it has no member, a member's type is incomplete, or it or a part of it has more than 2^40 bytes.
    pub fn complete(&mut self, tag: u32, members: Items<Member>) -> bool
        requires declared { tag < length self.old }
        requires incomplete { extents self.old tag ≡ None }
        ensures value { result ≡ is_some (extents (completed self.old tag members) tag) }
        ensures done { OnTrue result (self.new ≡ completed self.old tag members) }
        ensures unchanged { OnFalse result (self.new ≡ self.old) }
    {
        let at = tag as usize;
        let kind = self.kind(tag);
        let tag = Tag { kind, members };
        let Some(extent) = tag_extent(self.rows.as_slice(), &tag) else {
            return false;
        };
        self.rows.set(
            at,
            Row {
                tag,
                extent: Some(extent),
            },
        );
        true
    }

    fn kind(&self, tag: u32) -> TagKind
        requires { tag < length self.now }
        ensures { IfSome (slice_get self.now tag) (λ t. result ≡ t.kind) }
    {
        match self.rows.get(tag as usize) {
            Some(row) => row.tag.kind,
            None => unreachable!(),
        }
    }

    /// The size and alignment of a type; `None` where it is incomplete, or it or a part of it has more than 2^40 bytes.
    pub fn extent(&self, ty: &Ty) -> Option<Extent>
        ensures value { result ≡ layout.extent (extents self.now) (type_of ty.now) }
        ensures sound { IfSome result IsSound }
    {
        extent(self.rows.as_slice(), ty)
    }

    /// The offset of a member in its structure or union (6.7.2.1p15, 6.7.2.1p16); `None` exactly where there is no such member,
    /// or the structure or union is incomplete.
    pub fn offset_of(&self, tag: u32, member: usize) -> Option<u64>
        ensures { result ≡ offset_in (extents self.now) (slice_get self.now tag) member }
    {
        match self.rows.get(tag as usize) {
            Some(row) => member_offset(self.rows.as_slice(), &row.tag, member),
            None => None,
        }
    }

    /// The extent of each structure or union is that of its members, and one that is incomplete has none.
    pub fn law_extents(&self)
        ensures { IsSettled self.now }
    {
        let _rows = self.rows.len();
    }
}
