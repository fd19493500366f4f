// Whether a type is within the limits.
ghost use Rattle.std.specs.Prelude.{◌≡◌, ◌≤◌, ◌↔◌, IsTrue, map};
ghost use Rattle.c_types.specs.Types.{type_of, qualified_of, signature_of, params_of};
ghost use Rattle.type_limits.specs.Limits.{height_limit, parts_limit, is_within, IsWithin, TestTells, one_less, room_behind, room_behind_all};
ghost use Rattle.type_limits.specs.Limits.{room_behind_function, found};

use c_types::{FuncTy, Qual, Ty};

const HEIGHT_LIMIT: u32 = 2000;

const PARTS_LIMIT: u32 = 4096;

/// Whether the type is at most 2,000 high and has at most 4,096 parts. No more parts are looked at than the limit allows, and the
/// call goes no deeper than the limit of the height.
pub fn is_within(ty: &Ty) -> bool
    ensures test { result ≡ is_within (type_of ty.now) }
{
    room_behind(ty, HEIGHT_LIMIT, PARTS_LIMIT).is_some()
}

// One less than the number, where it isn't 0.
fn one_less(number: u32) -> Option<u32>
    ensures { result ≡ one_less number }
{
    if number == 0 { None } else { Some(number - 1) }
}

// What is left of the room for parts behind the type, where it is no higher than that and has no more parts.
#[cycle(room)]
fn room_behind(ty: &Ty, height: u32, room: u32) -> Option<u32>
    ensures { result ≡ room_behind (type_of ty.now) height room }
{
    let room = one_less(room)?;
    match ty {
        Ty::Pointer(target) => room_behind_qualified(target.get(), height, room),
        Ty::Array(element, _) => room_behind_qualified(element.get(), height, room),
        Ty::Function(f) => room_behind_function(f.get(), height, room),
        Ty::Void | Ty::Int(_) | Ty::Enum(_) | Ty::Struct(_) | Ty::Union(_) => Some(room),
    }
}

// The same of what a type is derived from.
#[cycle(room)]
fn room_behind_qualified(qual: &Qual, height: u32, room: u32) -> Option<u32>
    ensures { result ≡ found (one_less height) (λ below. room_behind (qualified_of qual.now).ty below room) }
{
    let below = one_less(height)?;
    room_behind(&qual.ty, below, room)
}

#[cycle(room)]
fn room_behind_function(f: &FuncTy, height: u32, room: u32) -> Option<u32>
    ensures { result ≡ found (one_less height) (λ below. room_behind_function (signature_of f.now) below room) }
{
    let below = one_less(height)?;
    let room = room_behind(&f.result, below, room)?;
    room_behind_all(f.params.as_slice(), below, room)
}

#[cycle(room)]
fn room_behind_all(params: &[Qual], height: u32, room: u32) -> Option<u32>
    ensures { result ≡ room_behind_all (params_of (map qualified_of params.now)) height room }
{
    let Some((param, params)) = params.split_first() else {
        return Some(room);
    };
    let room = room_behind(&param.ty, height, room)?;
    room_behind_all(params, height, room)
}

/// The test tells the limits.
pub fn law_limits()
    ensures tells { TestTells }
{}
