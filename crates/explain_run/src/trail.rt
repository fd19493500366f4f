// What a run does to one object.

use crate::nulls::unallocated;
use crate::opened::opened_of;
use c_typed::Slot;
use explain_facts::{Named, Sought, Touch, Trail};
use run_layout::Range;
use run_machine::Machine;
use std::alloc::Global;
use ub_base::{Event, Item, NoMemory, ObjName};

const MOST_TOUCHES: usize = 10_000;

/// Follows what a run does to the bytes that are sought: keeps the first 10,000 touches.
#[derive(Drop)]
pub struct Follower {
    sought: Option<Sought>,
    trail: Trail,
    read: Option<Read>,
}

// The object that was read last, and how many bytes of it.
#[derive(Clone, Copy)]
struct Read {
    object: ObjName,
    len: u64,
}

// What was read last, behind this item.
fn read_behind(read: Option<Read>, item: &Item) -> Option<Read> {
    match *item {
        Item::Read { object, len, .. } => Some(Read { object, len }),
        _ => read,
    }
}

// The object that a store of so many bytes copies.
fn copied(read: Option<Read>, len: u64) -> Option<ObjName> {
    match read {
        Some(read) if read.len == len => Some(read.object),
        _ => None,
    }
}

// What the last store copies, behind this one.
fn source_behind(source: Option<ObjName>, does: Does, read: Option<Read>) -> Option<ObjName> {
    match does {
        Does::Accesses {
            writes: true,
            len,
            ..
        } => copied(read, len),
        _ => source,
    }
}

// What an item does to the bytes that are sought.
#[derive(Clone, Copy, PartialEq, Eq)]
enum Does {
    Nothing,
    Accesses { writes: bool, from: u64, len: u64 },
    Bears,
    Ends,
}

fn meets(sought: Sought, from: u64, len: u64) -> bool {
    from < sought.from.saturating_add(sought.len) && sought.from < from.saturating_add(len)
}

fn does_to(item: &Item, sought: Sought) -> Does {
    match *item {
        Item::Read { object, from, len } if object == sought.object && meets(sought, from, len) =>
            Does::Accesses {
                writes: false,
                from,
                len,
            },
        Item::Write { object, from, len } if object == sought.object && meets(sought, from, len) =>
            Does::Accesses {
                writes: true,
                from,
                len,
            },
        Item::Born(object) if object == sought.object => Does::Bears,
        Item::Dies(object) if object == sought.object => Does::Ends,
        _ => Does::Nothing,
    }
}

// How the text names an object of a block of the top frame's function.
fn named_in(machine: &Machine, block: u32, decl: u32) -> Option<Named> {
    let code = machine.image.code;
    let function = machine.top.function?;
    let Some(Some(laid)) = code.functions.get(function as usize) else {
        return None;
    };
    let Range { first, count } = laid.expressions;
    if count == 0 {
        return None;
    }
    Some(Named {
        slot: Slot::Auto { block, decl },
        first,
        last: first.saturating_add(count - 1),
    })
}

fn access(trail: &mut Trail, touch: Touch) -> Result<(), NoMemory> {
    if touch.writes {
        trail.stored = Some(touch);
    }
    if trail.touches.len() < MOST_TOUCHES {
        trail.touches.push(touch)?;
    }
    Ok(())
}

fn note(trail: &mut Trail, does: Does, touch: Touch) -> Result<(), NoMemory> {
    match does {
        Does::Nothing => Ok(()),
        Does::Bears => {
            trail.born = Some(touch);
            Ok(())
        }
        Does::Ends => {
            trail.died = Some(touch);
            Ok(())
        }
        Does::Accesses { writes, from, len } => access(
            trail,
            Touch {
                writes,
                from,
                len,
                ..touch
            },
        ),
    }
}

impl Follower {
    /// Nothing was seen yet.
    pub fn new(alloc: Global, sought: Option<Sought>) -> Follower {
        Follower {
            sought,
            trail: Trail::new(alloc),
            read: None,
        }
    }

    /// What was seen.
    pub fn into_trail(self) -> Trail {
        let Follower {
            sought: _,
            trail,
            read: _,
        } = self;
        trail
    }

    fn see_items(&mut self, items: &[Item], sought: Sought, touch: Touch) -> Result<(), NoMemory> {
        for item in items {
            let does = does_to(item, sought);
            self.trail.source = source_behind(self.trail.source, does, self.read);
            note(&mut self.trail, does, touch)?;
            self.read = read_behind(self.read, item);
        }
        Ok(())
    }

    // Sees a control step, which may have entered the block of the object that is sought.
    fn see_entered(&mut self, machine: &Machine, sought: Sought) {
        if let ObjName::Auto { decl, .. } = sought.object
            && machine.items.items().contains(&Item::Born(sought.object))
        {
            self.trail.named = named_in(machine, machine.entered, decl);
        }
    }

    fn see_null(&mut self, machine: &Machine, event: Event, touch: Touch, asked: Option<u128>) {
        if self.trail.unallocated.is_none() {
            self.trail.unallocated = unallocated(machine, event, touch, asked);
        }
    }

    fn see_touch(&mut self, machine: &Machine, touch: Touch) -> Result<(), NoMemory> {
        let items = machine.items.items();
        if items.contains(&Item::Ending) {
            self.trail.ending = Some(touch);
        }
        match self.sought {
            Some(sought) => self.see_items(items, sought, touch),
            None => Ok(()),
        }
    }

    /// Sees a pick that was taken, with its event, if it is no control step, and with how many bytes it asked for, where it is an
    /// allocation.
    pub fn see(
        &mut self,
        machine: &Machine,
        event: Option<Event>,
        asked: Option<u128>,
    ) -> Result<(), NoMemory> {
        let Some(event) = event else {
            if let Some(sought) = self.sought {
                self.see_entered(machine, sought);
            }
            return Ok(());
        };
        match touch_by(machine, event) {
            Some(touch) => {
                self.see_null(machine, event, touch, asked);
                self.see_touch(machine, touch)
            }
            None => Ok(()),
        }
    }
}

// An act of this event, on no bytes yet.
fn touch_by(machine: &Machine, event: Event) -> Option<Touch> {
    let (opened, caller) = opened_of(machine.shown(), &event)?;
    Some(Touch {
        opened,
        caller,
        node: event.node,
        writes: false,
        from: 0,
        len: 0,
    })
}
