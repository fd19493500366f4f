// The bytes of constants.
ghost use Rattle.std.specs.Prelude.{◌≡◌, length, map, replicate, ◌∷◌, [], ◌++◌, IfOk, OnOk};
ghost use Rattle.c_model.specs.Nodes.{content_bytes};
ghost use Rattle.mem_objects.specs.Made.{AreNamed};
ghost use Rattle.mem_objects.specs.Memory.{Kept, CellsKnown};
ghost use Rattle.mem_objects.specs.Cells.{plain_cell};
ghost use Rattle.mem_objects.specs.Pieces.{seen, value_bytes};
ghost use Rattle.mem_objects.specs.Tags.{CellsTagged};
ghost use Rattle.run_values.specs.Contents.{address_of, content_of, filled_by, AddsFilling, IsPlaced, CanHold, CanHoldAll};
ghost use Rattle.run_values.specs.Fills.{AreFillings};
ghost use Rattle.run_values.specs.Kept.{AreOf, IsOf};

use c_typed::{Constant, Content, Target};
use prov_memory::{Block, MemByte, Memory, Value};
use run_objects::function_address;
use run_values::{Filling, Places};
use std::alloc::Global;
use ub_base::{Items, NoMemory};

/// The bytes of constants, addresses as pieces of pointers to the objects that they name.
pub fn fillings(
    alloc: Global,
    m: &Memory,
    places: &Places,
    constants: &[Constant],
) -> Result<Items<Filling>, NoMemory>
    ensures exact { AreNamed m.now → CanHoldAll m.now places.now constants.now → IfOk result (λ fs. AreFillings m.now fs (map filled_by constants.now)) }
    ensures made { AreNamed m.now → CanHoldAll m.now places.now constants.now → IfOk result (AreOf m.now) }
{
    let mut all = Items::new(alloc);
    for constant in constants {
        add_filling(alloc, m, places, constant, &mut all)?;
    }
    Ok(all)
}

// Adds the bytes of a constant.
fn add_filling(
    alloc: Global,
    m: &Memory,
    places: &Places,
    constant: &Constant,
    all: &mut Items<Filling>,
) -> Result<(), NoMemory>
    ensures { OnOk result (AddsFilling m.now places.now constant.now all.old all.new) }
{
    let bytes = content(alloc, m, places, &constant.content)?;
    all.push(Filling {
        at: constant.at,
        bytes,
    })?;
    Ok(())
}

fn content(alloc: Global, m: &Memory, places: &Places, content: &Content) -> Result<Block, NoMemory>
    ensures bytes { AreNamed m.now → CanHold m.now places.now content.now →
        IfOk result (λ b. seen m.now b.cells ≡ content_bytes m.now.rows (content_of content.now)) }
    ensures known { AreNamed m.now → CanHold m.now places.now content.now → IfOk result (λ b. CellsKnown (length m.now.origins) b.cells) }
    ensures tagged { AreNamed m.now → CanHold m.now places.now content.now → IfOk result (λ b. CellsTagged (length m.now.types) b.cells) }
{
    match content {
        Content::Zeros(count) => zeros(alloc, *count),
        Content::Bytes(bytes) => written(alloc, bytes.as_slice()),
        Content::Address { target, offset } => {
            let value = address(places, *target, *offset);
            m.bytes_of(alloc, &value, 8)
        }
    }
}

// Adds a byte that is no piece of a pointer.
fn push_plain(block: &mut Block, number: u8) -> Result<(), NoMemory>
    ensures { OnOk result (block.new.cells ≡ block.old.cells ++ plain_cell number ∷ []) }
{
    block.push(MemByte::Written {
        number,
        piece: None,
    })
}

/// So many zero bytes.
pub fn zeros(alloc: Global, count: u64) -> Result<Block, NoMemory>
    ensures { IfOk result (λ b. b.cells ≡ map plain_cell (replicate count 0)) }
{
    let mut block = Block::new(alloc);
    for _turn in 0..count {
        push_plain(&mut block, 0)?;
    }
    Ok(block)
}

/// These bytes, which are pieces of no pointer.
pub fn written(alloc: Global, bytes: &[u8]) -> Result<Block, NoMemory>
    ensures { IfOk result (λ b. b.cells ≡ map plain_cell bytes.now) }
{
    let mut block = Block::new(alloc);
    for byte in bytes {
        push_plain(&mut block, *byte)?;
    }
    Ok(block)
}

// The value of an address constant (6.6p9).
fn address(places: &Places, target: Target, offset: u64) -> Value
    ensures bytes { (m : Kept) → IsPlaced m places.now target → value_bytes m 8 result ≡ content_bytes m.rows (address_of target offset) }
    ensures made { (m : Kept) → IsPlaced m places.now target → IsOf m result }
{
    match target {
        Target::Static(object) => places.object(object, offset).value(),
        Target::Literal(literal) => places.literal(literal, offset).value(),
        Target::Function(function) => Value::Int(i128::from(function_address(function))),
    }
}
