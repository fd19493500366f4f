// What a type is: scalar, integer, of so many bytes, a pointer to something (6.2.5, 6.3, 6.5).
ghost use Rattle.std.specs.Prelude.{◌≡◌, ◌<◌, ◌↔◌, IsTrue, false, Some};
ghost use Rattle.c_types.specs.Types.{type_of, qualified_of, kind_of, void, int, pointer, Alike, Compatible, SizesAgree};
ghost use Rattle.c_types.specs.Layout.{extent, extents};
ghost use Rattle.c_typed.specs.Lawful.{There, IsSized, FirstOf, PointsInto, Gives, ValueIs, IsPointer, IsScalar, IsInteger, AccessIs, PointsTo, IsConstant};
ghost use Rattle.c_typed.specs.Lawful.{StepsOver, LiesIn, IsTagged, MemberOf, IsFunctionType, NoFunction, EndsInTag, AlignsTo, IsPromoted, IsPromotedType};
ghost use Rattle.c_typed.specs.Lawful.{IsArgument, IsResult, Ordered, Comparable, OneKind, Related, literal_type};

use c_typed::Access;
use c_types::{IntKind, Qual, Tags, Ty, compatible, promote, same_qualified, same_type};
use layout::{align, size};

/// Whether the type is complete and has at least one byte.
pub fn is_sized(tags: &Tags, ty: &Ty) -> bool
    ensures { IsTrue result → IsSized tags.now (type_of ty.now) }
{
    match tags.extent(ty) {
        Some(extent) => extent.size > 0,
        None => false,
    }
}

pub fn is_scalar(ty: &Ty) -> bool
    ensures { IsTrue result → IsScalar (type_of ty.now) }
{
    matches!(ty, Ty::Int(_) | Ty::Enum(_) | Ty::Pointer(_))
}

/// The integer kind of an integer or enumerated type.
pub fn kind_of(ty: &Ty) -> Option<IntKind>
    ensures { result ≡ kind_of (type_of ty.now) }
{
    match ty {
        Ty::Int(kind) => Some(*kind),
        Ty::Enum(_) => Some(IntKind::Int),
        _ => None,
    }
}

pub fn is_integer(ty: &Ty) -> bool
    ensures { IsTrue result → IsInteger (type_of ty.now) }
{
    matches!(ty, Ty::Int(_) | Ty::Enum(_))
}

/// Whether it is this integer type, and no enumeration.
pub fn is_int(ty: &Ty, kind: IntKind) -> bool
    ensures { IsTrue result → type_of ty.now ≡ int kind }
{
    match ty {
        Ty::Int(own) => *own == kind,
        _ => false,
    }
}

pub fn is_void(ty: &Ty) -> bool
    ensures { IsTrue result ↔ (type_of ty.now ≡ void) }
{
    matches!(ty, Ty::Void)
}

/// Whether a value of a structure or union lies in memory so.
fn is_whole(tags: &Tags, ty: &Ty, access: Access) -> bool
    ensures { IsTrue result → There (extent (extents tags.now) (type_of ty.now)) (λ e. (0 < e.size) × (access ≡ Access.Whole e.size e.align)) }
{
    match (tags.extent(ty), access) {
        (Some(extent), Access::Whole { size, align }) => {
            extent.size > 0 && size == extent.size && align == extent.align
        }
        _ => false,
    }
}

/// Whether a value of the type lies in memory so.
pub fn access_is(tags: &Tags, ty: &Ty, access: Access) -> bool
    ensures { IsTrue result → AccessIs tags.now (type_of ty.now) access }
{
    match ty {
        Ty::Int(kind) => access == Access::Integer(*kind),
        Ty::Enum(_) => access == Access::Integer(IntKind::Int),
        Ty::Pointer(target) => match &target.get().ty {
            Ty::Function(_) => access == Access::Function,
            _ => access == Access::Pointer,
        },
        Ty::Struct(_) | Ty::Union(_) => is_whole(tags, ty, access),
        _ => false,
    }
}

/// Whether it points to an object of this type, or to the first element of one that is an array (6.3.2.1p3).
pub fn points_to(pointer: &Ty, object: &Ty) -> bool
    ensures { IsTrue result → PointsTo (type_of pointer.now) (type_of object.now) }
{
    match pointer {
        Ty::Pointer(target) => points_at(target.get(), object),
        _ => false,
    }
}

fn points_at(target: &Qual, object: &Ty) -> bool
    ensures { IsTrue result → PointsTo (pointer (qualified_of target.now).constant (qualified_of target.now).ty) (type_of object.now) }
{
    match object {
        Ty::Array(element, _) => {
            compatible(&target.ty, object) || points_into(target, element.get())
        }
        _ => compatible(&target.ty, object),
    }
}

fn is_alike(target: &Qual, object: &Qual) -> bool
    ensures { IsTrue result → Alike false (qualified_of target.now) (qualified_of object.now) }
{
    target.constant == object.constant && compatible(&target.ty, &object.ty)
}

// Whether the type is that of the object, or, where that is an array, of its first element, and so on.
fn points_into(target: &Qual, object: &Qual) -> bool
    ensures { IsTrue result → PointsInto (qualified_of target.now).constant (qualified_of target.now).ty (qualified_of object.now).constant
        (qualified_of object.now).ty }
{
    match &object.ty {
        Ty::Array(element, _) => is_alike(target, object) || points_into(target, element.get()),
        _ => is_alike(target, object),
    }
}

/// Whether it points to a string literal of so many bytes, or to its first character (6.4.5p6).
pub fn points_to_literal(pointer: &Ty, count: usize) -> bool
    ensures { IsTrue result → PointsTo (type_of pointer.now) (literal_type count) }
{
    match pointer {
        Ty::Pointer(target) => {
            let target = target.get();
            is_literal(&target.ty, count) || (!target.constant && is_int(&target.ty, IntKind::Char))
        }
        _ => false,
    }
}

/// Whether the type is compatible with that of a string literal of so many bytes.
fn is_literal(ty: &Ty, count: usize) -> bool
    ensures { IsTrue result → Compatible (type_of ty.now) (literal_type count) }
{
    match ty {
        Ty::Array(element, known) => {
            let element = element.get();
            !element.constant && is_int(&element.ty, IntKind::Char) && agrees(*known, count)
        }
        _ => false,
    }
}

fn agrees(known: Option<u64>, count: usize) -> bool
    ensures { IsTrue result → SizesAgree known (Some count) }
{
    match known {
        Some(known) => known == count as u64,
        None => true,
    }
}

fn is_pointer_to(own: &Ty, target: &Qual) -> bool
    ensures { IsTrue result → type_of own.now ≡ pointer (qualified_of target.now).constant (qualified_of target.now).ty }
{
    match own {
        Ty::Pointer(t) => same_qualified(t.get(), target),
        _ => false,
    }
}

// Whether it points to an object of this type, or, where that is an array, to its first element, and so on.
fn first_of(own: &Ty, target: &Qual) -> bool
    ensures { IsTrue result → FirstOf (type_of own.now) (qualified_of target.now).constant (qualified_of target.now).ty }
{
    match &target.ty {
        Ty::Array(element, _) => is_pointer_to(own, target) || first_of(own, element.get()),
        _ => is_pointer_to(own, target),
    }
}

/// Whether it is the type of the value, or of a pointer to the first element of the array that it points to (6.3.2.1p3).
pub fn gives(own: &Ty, value: &Ty) -> bool
    ensures { IsTrue result → Gives (type_of own.now) (type_of value.now) }
{
    match value {
        Ty::Pointer(target) => first_of(own, target.get()),
        _ => same_type(own, value),
    }
}

/// Whether an operand's value is that of the whole: it has the type of the whole, where that isn't `void` (6.5.15p5, 6.5.17p2).
pub fn value_is(own: &Ty, operand: &Ty) -> bool
    ensures { IsTrue result → ValueIs (type_of own.now) (type_of operand.now) }
{
    match own {
        Ty::Void => true,
        _ => gives(own, operand),
    }
}

pub fn is_pointer(ty: &Ty) -> bool
    ensures { IsTrue result → IsPointer (type_of ty.now) }
{
    matches!(ty, Ty::Pointer(_))
}

/// Whether it is a value of the type: an integer that it holds, or a null pointer (6.3.2.3p3).
pub fn is_constant(ty: &Ty, value: i128) -> bool
    ensures { IsTrue result → IsConstant (type_of ty.now) value }
{
    match ty {
        Ty::Int(kind) => kind.holds(value),
        Ty::Enum(_) => IntKind::Int.holds(value),
        Ty::Pointer(_) => value == 0,
        _ => false,
    }
}

/// Whether the elements that a pointer steps over have so many bytes (6.5.6p8).
pub fn steps_over(tags: &Tags, ty: &Ty, size: u64) -> bool
    ensures { IsTrue result → StepsOver tags.now (type_of ty.now) size }
{
    match ty {
        Ty::Pointer(target) => has_size(tags, &target.get().ty, size),
        _ => false,
    }
}

fn has_size(tags: &Tags, ty: &Ty, size: u64) -> bool
    ensures { IsTrue result → There (extent (extents tags.now) (type_of ty.now)) (λ e. (0 < e.size) × (e.size ≡ size)) }
{
    match tags.extent(ty) {
        Some(extent) => extent.size > 0 && extent.size == size,
        None => false,
    }
}

/// Whether a part of this type at the offset lies in the other.
pub fn lies_in(tags: &Tags, offset: u64, part: &Ty, whole: &Ty) -> bool
    ensures { IsTrue result → LiesIn tags.now offset (type_of part.now) (type_of whole.now) }
{
    let (own, most) = (size(tags, part), size(tags, whole));
    is_sized(tags, part) && own <= most && offset <= most - own
}

pub fn is_tagged(ty: &Ty) -> bool
    ensures { IsTrue result → IsTagged (type_of ty.now) }
{
    matches!(ty, Ty::Struct(_) | Ty::Union(_))
}

/// Whether the value points to a part at this offset of what the pointer points to.
pub fn member_of(tags: &Tags, offset: u64, own: &Ty, pointer: &Ty) -> bool
    ensures { IsTrue result → MemberOf tags.now offset (type_of own.now) (type_of pointer.now) }
{
    match (own, pointer) {
        (Ty::Pointer(part), Ty::Pointer(whole)) => {
            lies_in(tags, offset, &part.get().ty, &whole.get().ty)
        }
        _ => false,
    }
}

pub fn is_function(ty: &Ty) -> bool
    ensures { IsTrue result ↔ IsFunctionType (type_of ty.now) }
{
    matches!(ty, Ty::Function(_))
}

/// Whether no type below `int` (6.3.1.1p2).
pub fn is_promoted(kind: IntKind) -> bool
    ensures { IsTrue result → IsPromoted kind }
{
    promote(kind) == kind
}

/// Whether an integer type that the promotions leave as it is.
pub fn is_promoted_type(ty: &Ty) -> bool
    ensures { IsTrue result → IsPromotedType (type_of ty.now) }
{
    match ty {
        Ty::Int(kind) => is_promoted(*kind),
        _ => false,
    }
}

/// Whether an argument behind an ellipsis may have the type (6.5.2.2p6).
pub fn is_argument(tags: &Tags, ty: &Ty) -> bool
    ensures { IsTrue result → IsArgument tags.now (type_of ty.now) }
{
    match ty {
        Ty::Int(kind) => is_promoted(*kind),
        Ty::Pointer(_) => true,
        Ty::Struct(_) | Ty::Union(_) => is_sized(tags, ty),
        Ty::Void | Ty::Enum(_) | Ty::Array(_, _) | Ty::Function(_) => false,
    }
}

/// Whether a call may give it: `void`, or a complete type that is no array (6.5.2.2p1).
pub fn is_result(tags: &Tags, ty: &Ty) -> bool
    ensures { IsTrue result → IsResult tags.now (type_of ty.now) }
{
    match ty {
        Ty::Void => true,
        Ty::Array(_, _) | Ty::Function(_) => false,
        ty => is_sized(tags, ty),
    }
}

// Whether the type may have been completed only behind the place where the text names it.
fn ends_in_tag(ty: &Ty) -> bool
    ensures { IsTrue result → EndsInTag (type_of ty.now) }
{
    match ty {
        Ty::Struct(_) | Ty::Union(_) => true,
        Ty::Array(element, _) => ends_in_tag(&element.get().ty),
        _ => false,
    }
}

/// Whether a pointer to the type is aligned to so many bytes: to 1 where the type wasn't complete yet (6.3.2.3p7).
pub fn aligns_to(tags: &Tags, target: &Ty, bytes: u64) -> bool
    ensures { IsTrue result → AlignsTo tags.now (type_of target.now) bytes }
{
    bytes == align(tags, target) || (bytes == 1 && ends_in_tag(target))
}

fn is_object_type(ty: &Ty) -> bool
    ensures { IsTrue result → NoFunction (type_of ty.now) }
{
    !is_function(ty)
}

/// Whether they are two pointers to compatible object types (6.5.6p3, 6.5.8p2).
pub fn ordered(a: &Ty, b: &Ty) -> bool
    ensures { IsTrue result → Ordered (type_of a.now) (type_of b.now) }
{
    match (a, b) {
        (Ty::Pointer(x), Ty::Pointer(y)) => {
            let (x, y) = (&x.get().ty, &y.get().ty);
            is_object_type(x) && compatible(x, y)
        }
        _ => false,
    }
}

/// Whether they are two pointers to compatible types, or one to an object and one to `void` (6.5.9p2).
pub fn comparable(a: &Ty, b: &Ty) -> bool
    ensures { IsTrue result → Comparable (type_of a.now) (type_of b.now) }
{
    match (a, b) {
        (Ty::Pointer(x), Ty::Pointer(y)) => {
            let (x, y) = (&x.get().ty, &y.get().ty);
            compatible(x, y)
                || (is_void(x) && is_object_type(y))
                || (is_void(y) && is_object_type(x))
        }
        _ => false,
    }
}

/// Whether they are one integer type.
pub fn one_kind(a: &Ty, b: &Ty) -> bool
    ensures { IsTrue result → OneKind (type_of a.now) (type_of b.now) }
{
    same_type(a, b) && is_integer(a)
}

pub fn related(pointers: bool, a: &Ty, b: &Ty) -> bool
    ensures { IsTrue result → Related pointers (type_of a.now) (type_of b.now) }
{
    if pointers {
        ordered(a, b)
    } else {
        one_kind(a, b)
    }
}
