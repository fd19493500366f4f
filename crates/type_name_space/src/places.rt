//! Places by symbol: a list that is 0 past its end.
ghost use Rattle.std.specs.Prelude.{◌≡◌, ℕ, ◌<◌, ◌==◌, if◌then◌else◌, length, get_or, OnOk, OnErr};

use std::alloc::Global;
use ub_base::NoMemory;

/// The place of the symbol.
pub fn place_at(places: &[usize], symbol: u32) -> usize
    ensures { result ≡ get_or places.now symbol 0 }
{
    match places.get(symbol as usize) {
        Some(place) => *place,
        None => 0,
    }
}

/// Gives the symbol room.
#[tactic(auto, using(crate::proofs::Zeros::zero_more))]
pub fn make_room(places: &mut Vec<usize>, symbol: u32) -> Result<(), NoMemory>
    ensures room { OnOk result (symbol < length places.new.items) }
    ensures same { (s : ℕ) → get_or places.new.items s 0 ≡ get_or places.old.items s 0 }
{
    for _ in places.len()..symbol as usize + 1 {
        places.push(0)?;
    }
    Ok(())
}

/// Gives the symbol, which has room, this place.
pub fn put_place(places: &mut Vec<usize>, symbol: u32, place: usize)
    requires { symbol < length places.old.items }
    ensures { (s : ℕ) → get_or places.new.items s 0 ≡ (if symbol == s then place else get_or places.old.items s 0) }
{
    places[symbol as usize] = place;
}
