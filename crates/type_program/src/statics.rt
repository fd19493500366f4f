// Objects with static storage, once all is declared (6.9.2).
ghost use Rattle.std.specs.Prelude.{IfOk};
ghost use Rattle.std.specs.List.{All};
ghost use Rattle.c_typed.specs.Lawful.{Where, IsComplete};

use crate::lines::{Broken, earlier, undefined};
use c_typed::{Constant, Content, Static, Target};
use c_types::{Extent, Qual, Tags, Ty};
use std::alloc::Global;
use type_reasons::Reason;
use type_scope::{CountedUse, ObjectRow};
use ub_base::{Items, NoMemory};

/// The objects that are defined, and the first line on which one breaks a rule: it is used and not defined, used as an array of
/// another size than it has, or defined and incomplete at the end.
#[derive(Drop)]
pub struct Checked {
    pub statics: Items<Static>,
    pub fault: Option<Broken>,
}

// The number of elements of the array that a tentative definition without size defines at the end of the unit (6.9.2p5).
const IMPLICIT_COUNT: u64 = 1;

// The type of an object at the end of the unit: an array that is still of unknown size has one element (6.9.2p2, 6.9.2p5). With
// internal linkage it may not be of unknown size (6.9.2p3), and stays incomplete.
fn at_end(ty: Ty, internal: bool) -> Ty {
    match ty {
        Ty::Array(element, None) => {
            let count = if internal { None } else { Some(IMPLICIT_COUNT) };
            Ty::Array(element, count)
        }
        ty => ty,
    }
}

// The size that the object has then, where its type is complete.
fn size_at_end(tags: &Tags, row: &ObjectRow) -> Option<u64> {
    let extent: Option<Extent> = match &row.qual.ty {
        Ty::Array(element, None) if !row.internal => tags.extent(&element.get().ty),
        ty => tags.extent(ty),
    };
    extent.map(|extent| extent.size)
}

// The line of a use as an array of another size than the object has: a declaration of a block said so (6.2.7p2).
fn size_fault(ty: &Ty, used: Option<CountedUse>) -> Option<Broken> {
    let used = used?;
    match ty {
        Ty::Array(_, Some(count)) if *count == used.count => None,
        _ => Some(Broken {
            line: used.line,
            reason: Reason::IncompatibleScopes,
        }),
    }
}

// The size of each object where its type is complete: how far an address in it may go.
fn sizes_of(alloc: Global, tags: &Tags, rows: &[ObjectRow]) -> Result<Vec<Option<u64>>, NoMemory> {
    let mut sizes = Vec::new(alloc);
    for row in rows {
        sizes.push(size_at_end(tags, row))?;
    }
    Ok(sizes)
}

fn is_address_within(sizes: &[Option<u64>], constant: &Constant) -> bool {
    match &constant.content {
        Content::Address {
            target: Target::Static(number),
            offset,
        } => match sizes.get(*number as usize) {
            Some(Some(size)) => *offset <= *size,
            _ => false,
        },
        _ => true,
    }
}

fn addresses_are_within(sizes: &[Option<u64>], constants: &[Constant]) -> bool {
    for constant in constants {
        if !is_address_within(sizes, constant) {
            return false;
        }
    }
    true
}

// An object that is defined on this line and has an incomplete type at the end.
fn incomplete(line: u32, internal: bool) -> Broken {
    let reason = if internal {
        Reason::IncompleteTentative
    } else {
        Reason::IncompleteAtEnd
    };
    Broken { line, reason }
}

// The object, if it is defined; or the line on which it breaks a rule.
fn program_static(
    tags: &Tags,
    sizes: &[Option<u64>],
    row: ObjectRow,
) -> Result<Option<Static>, Broken>
    ensures { IfOk result (Where (IsComplete tags.now)) }
{
    let ObjectRow {
        qual,
        internal,
        defined,
        line,
        initialized: _,
        constants,
        used,
        counted,
    } = row;
    if defined.is_none() {
        return match undefined(used, internal) {
            None => Ok(None),
            Some(broken) => Err(broken),
        };
    }
    let Qual { ty, constant } = qual;
    let qual = Qual {
        ty: at_end(ty, internal),
        constant,
    };
    if let Some(broken) = size_fault(&qual.ty, counted) {
        return Err(broken);
    }
    let extent: Option<Extent> = tags.extent(&qual.ty);
    if extent.is_none() {
        return Err(incomplete(line, internal));
    }
    if !addresses_are_within(sizes, constants.as_slice()) {
        return Err(Broken {
            line,
            reason: Reason::LeftOutAddress,
        });
    }
    Ok(Some(Static { qual, constants }))
}

/// The objects that are defined; they stand before the others.
pub fn program_statics(
    alloc: Global,
    tags: &Tags,
    rows: Vec<ObjectRow>,
) -> Result<Checked, NoMemory>
    ensures { IfOk result (λ checked. All (IsComplete tags.now) checked.statics) }
{
    let sizes = sizes_of(alloc, tags, rows.as_slice())?;
    let mut statics = Items::new(alloc);
    let mut fault = None;
    for row in rows {
        match program_static(tags, sizes.as_slice(), row) {
            Ok(Some(object)) => statics.push(object)?,
            Ok(None) => {}
            Err(broken) => fault = earlier(fault, Some(broken)),
        }
    }
    Ok(Checked { statics, fault })
}
