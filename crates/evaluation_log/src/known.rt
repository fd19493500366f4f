// Accesses that frames have among what they touched.
ghost use Rattle.std.specs.Prelude.{◌≡◌, ◌⊎◌, true, false, set, slice_get, IfOk, IfSome};
ghost use Rattle.ub_base.specs.declared.names.Frame.{Frame};
ghost use Rattle.ub_base.specs.declared.names.Item.{Item};
ghost use Rattle.ub_base.specs.declared.names.Item.TheVariants.{Read, Write, Alive};
ghost use Rattle.ub_base.specs.Names.{same_object};
ghost use Rattle.evaluation_log.specs.Remembered.{Knows, has_entry, is_remembered, same_access};

use std::alloc::Global;
use ub_base::{Frame, Item, NoMemory, ObjName};

/// How many accesses are remembered.
const ROOM: usize = 256;

/// Of some frames and accesses it is remembered that the frame's set has the access, so that those of a loop needn't be
/// added again and again.
#[derive(Drop)]
pub struct Known {
    entries: Vec<(Frame, Item)>,
}

impl Known {
    /// Nothing is remembered.
    pub fn new(alloc: Global) -> Result<Self, NoMemory>
        ensures { IfOk result (λ known. (frame : Frame) (item : Item) → Knows known frame item → ⊥) }
    {
        let mut entries = Vec::with_capacity(alloc, ROOM)?;
        for _ in 0..ROOM {
            entries.push((Frame(0), Item::Any))?;
        }
        Ok(Known { entries })
    }

    /// Remembers that the frame's set has the item from now on. Whether that may be new.
    pub fn note(&mut self, frame: Frame, item: Item) -> bool
        ensures known { result ≡ false → Knows self.old frame item }
        ensures noted { (other : Frame) (one : Item) → Knows self.new other one → Knows self.old other one ⊎ ((other ≡ frame) × (one ≡ item)) }
    {
        let Some(slot) = slot_of(&item) else {
            return true;
        };
        let known = self.has(slot, frame, item);
        self.renew(slot, frame, item);
        !known
    }

    // Whether this is what is remembered there.
    fn has(&self, slot: usize, frame: Frame, item: Item) -> bool
        ensures { result ≡ has_entry (slice_get self.now.entries.items slot) frame item }
    {
        is_entry(self.entry_at(slot), frame, item)
    }

    fn entry_at(&self, slot: usize) -> Option<(Frame, Item)>
        ensures { result ≡ slice_get self.now.entries.items slot }
    {
        match self.entries.get(slot) {
            Some(entry) => Some(*entry),
            None => None,
        }
    }

    fn renew(&mut self, slot: usize, frame: Frame, item: Item)
        ensures { self.new.entries.items ≡ set self.old.entries.items slot (frame, item) }
    {
        if slot < self.entries.len() {
            self.entries[slot] = (frame, item);
        }
    }
}

// Whether the entry is of this frame and this access.
fn is_entry(entry: Option<(Frame, Item)>, frame: Frame, item: Item) -> bool
    ensures { result ≡ has_entry entry frame item }
{
    match entry {
        Some(held) => is_access(held.1, item) && held.0.0 == frame.0,
        None => false,
    }
}

// Whether they are the same access.
fn is_access(a: Item, b: Item) -> bool
    ensures { result ≡ same_access a b }
{
    match a {
        Item::Read { object, from, len } => is_read(object, from, len, b),
        Item::Write { object, from, len } => is_write(object, from, len, b),
        Item::Alive(object) => is_alive(object, b),
        _ => false,
    }
}

fn is_read(object: ObjName, from: u64, len: u64, item: Item) -> bool
    ensures { result ≡ same_access (Read object from len) item }
{
    match item {
        Item::Read {
            object: other,
            from: start,
            len: count,
        } => is_object(object, other) && from == start && len == count,
        _ => false,
    }
}

fn is_write(object: ObjName, from: u64, len: u64, item: Item) -> bool
    ensures { result ≡ same_access (Write object from len) item }
{
    match item {
        Item::Write {
            object: other,
            from: start,
            len: count,
        } => is_object(object, other) && from == start && len == count,
        _ => false,
    }
}

fn is_alive(object: ObjName, item: Item) -> bool
    ensures { result ≡ same_access (Alive object) item }
{
    match item {
        Item::Alive(other) => is_object(object, other),
        _ => false,
    }
}

fn is_object(object: ObjName, other: ObjName) -> bool
    ensures { result ≡ same_object object other }
{
    object == other
}

// Where an access is remembered.
fn slot_of(item: &Item) -> Option<usize>
    ensures { IfSome result (λ slot. is_remembered item.now ≡ true) }
{
    match *item {
        Item::Read { object, from, .. } => Some(mixed(object, from.wrapping_mul(3))),
        Item::Write { object, from, .. } => Some(mixed(
            object,
            from.wrapping_mul(3).wrapping_add(1),
        )),
        Item::Alive(object) => Some(mixed(object, 2)),
        _ => None,
    }
}

fn mixed(object: ObjName, part: u64) -> usize {
    let number = match object {
        ObjName::Static(k) => u64::from(k),
        ObjName::Lit(k) => u64::from(k).wrapping_add(5),
        ObjName::Argv => 11,
        ObjName::Arg(k) => u64::from(k).wrapping_add(13),
        ObjName::Auto { frame, turn, decl } => u64::from(decl)
            .wrapping_add(turn)
            .wrapping_add(u64::from(frame.0).wrapping_mul(7)),
        ObjName::Heap { frame, turn, node } => u64::from(node)
            .wrapping_add(turn)
            .wrapping_add(u64::from(frame.0).wrapping_mul(7)),
    };
    let sum = number.wrapping_mul(29).wrapping_add(part);
    (sum % 256) as usize
}
