// The extents of types (6.5.3.4).
ghost use Rattle.std.specs.Prelude.{◌≡◌, ◌<◌, ◌≤◌, ◌^◌, IfSome, Some};
ghost use Rattle.c_types.specs.Types.{type_of};
ghost use Rattle.c_types.specs.Layout.{bytes, scalar, limited, repeated, IsSound};
ghost use Rattle.c_types.specs.Layout as layout;
ghost use Rattle.c_types.specs.Table.{look, IsTable};

use crate::tags::Row;
use crate::{Extent, IntKind, Ty};

fn scalar(size: u64) -> Extent
    requires least { 0 < size }
    requires most { size ≤ 8 }
    ensures value { Some result ≡ scalar size }
    ensures sound { IsSound result }
{
    Extent { size, align: size }
}

impl IntKind {
    /// How many bytes a value of the kind takes (6.2.6.1p4).
    pub fn bytes(self) -> u64
        ensures value { result ≡ bytes self }
        ensures least { 0 < result }
        ensures most { result ≤ 8 }
    {
        match self {
            IntKind::Bool | IntKind::Char | IntKind::SChar | IntKind::UChar => 1,
            IntKind::Short | IntKind::UShort => 2,
            IntKind::Int | IntKind::UInt => 4,
            IntKind::Long | IntKind::ULong | IntKind::LLong | IntKind::ULLong => 8,
        }
    }
}

// The extent, where no more than 2 ^ 40 bytes.
pub(crate) fn limited(size: u128, align: u64) -> Option<Extent>
    requires least { 0 < align }
    requires most { align ≤ 8 }
    ensures value { result ≡ limited (layout.extent_of size align) }
    ensures sound { IfSome result IsSound }
{
    if size <= 0x100_0000_0000 {
        Some(Extent {
            size: size as u64,
            align,
        })
    } else {
        None
    }
}

fn repeated(count: u64, element: Extent) -> Option<Extent>
    requires { IsSound element }
    ensures value { result ≡ repeated count (Some element) }
    ensures sound { IfSome result IsSound }
{
    limited(u128::from(count) * u128::from(element.size), element.align)
}

fn looked_up(rows: &[Row], tag: u32) -> Option<Extent>
    requires { IsTable rows.now }
    ensures value { result ≡ look rows.now tag }
    ensures sound { IfSome result IsSound }
{
    match rows.get(tag as usize) {
        Some(row) => row.extent,
        None => None,
    }
}

// The extent of a type, by the tags that have one.
pub(crate) fn extent(rows: &[Row], ty: &Ty) -> Option<Extent>
    requires { IsTable rows.now }
    ensures value { result ≡ layout.extent (look rows.now) (type_of ty.now) }
    ensures sound { IfSome result IsSound }
{
    match ty {
        Ty::Void => None,
        Ty::Int(kind) => Some(scalar(kind.bytes())),
        Ty::Enum(_) => Some(scalar(4)),
        Ty::Pointer(_) => Some(scalar(8)),
        Ty::Array(element, count) => match *count {
            None => None,
            Some(count) => match extent(rows, &element.get().ty) {
                None => None,
                Some(e) => repeated(count, e),
            },
        },
        Ty::Struct(tag) => looked_up(rows, *tag),
        Ty::Union(tag) => looked_up(rows, *tag),
        Ty::Function(_) => None,
    }
}
