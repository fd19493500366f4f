// The scalars of an object that its list doesn't name, which are zero (6.7.9p19, 6.7.9p21).

use crate::cursor::Choice;
use c_typed::{Constant, Content};
use c_types::{Member, Ty};
use type_reasons::Reason;
use type_scope::{State, TypeFault};
use ub_base::{Items, NoMemory};

/// The zeros of an object: its bytes that are taken already, as (start, end) in order; the members of unions that are named,
/// in order; and the runs of zeros so far.
#[derive(Drop)]
pub struct Zeros<'a> {
    pub taken: &'a [(u64, u64)],
    pub choices: &'a [Choice],
    pub runs: Vec<(u64, u64)>,
}

// How many parts of an object are visited at most (own).
const MOST_PARTS: u32 = 0x200_0000;

impl Zeros<'_> {
    // Adds a run of zeros, joined to the last one where it goes on there.
    fn add(&mut self, start: u64, end: u64) -> Result<(), NoMemory> {
        if start >= end {
            return Ok(());
        }
        if let Some(last) = self.runs.last_mut()
            && last.1 == start
        {
            last.1 = end;
            return Ok(());
        }
        self.runs.push((start, end))?;
        Ok(())
    }

    // The bytes from start to end but those that are taken.
    fn gaps(&mut self, start: u64, end: u64) -> Result<(), NoMemory> {
        let first = self.taken.partition_point(|range| range.1 <= start);
        let mut from = start;
        for range in self.taken.get(first..).unwrap_or(&[]) {
            if range.0 >= end {
                break;
            }
            self.add(from, range.0.min(end))?;
            from = range.1.max(from);
        }
        self.add(from, end)
    }

    // Which member of the union is named.
    fn chosen(&self, offset: u64, tag: u32) -> u64 {
        let at = self
            .choices
            .partition_point(|choice| (choice.0, choice.1) < (offset, tag));
        match self.choices.get(at) {
            Some(choice) if choice.0 == offset && choice.1 == tag => choice.2,
            _ => 0,
        }
    }
}

fn size_of(state: &State, ty: &Ty) -> u64 {
    match state.tags.extent(ty) {
        Some(extent) => extent.size,
        None => 0,
    }
}

// Whether each byte of the type belongs to a scalar, whichever members of unions count.
fn is_dense(state: &State, ty: &Ty) -> Result<bool, NoMemory> {
    let mut left = Vec::new(state.alloc);
    left.push(ty)?;
    for _ in 0..MOST_PARTS {
        let Some(ty) = left.pop() else {
            return Ok(true);
        };
        match ty {
            Ty::Array(element, _) => left.push(&element.get().ty)?,
            Ty::Struct(tag) => {
                let members = members_of(state, *tag);
                if sum_of(state, members) != size_of(state, ty) {
                    return Ok(false);
                }
                push_types(members, &mut left)?;
            }
            Ty::Union(_) | Ty::Void | Ty::Function(_) => return Ok(false),
            Ty::Int(_) | Ty::Enum(_) | Ty::Pointer(_) => {}
        }
    }
    Ok(false)
}

fn members_of(state: &State, tag: u32) -> &[Member] {
    match state.tags.get(tag) {
        Some(content) => content.members.as_slice(),
        None => &[],
    }
}

// How many bytes the members have.
fn sum_of(state: &State, members: &[Member]) -> u64 {
    let mut sum: u64 = 0;
    for member in members {
        sum = sum.saturating_add(size_of(state, &member.qual.ty));
    }
    sum
}

fn push_types<'s>(members: &'s [Member], left: &mut Vec<&'s Ty>) -> Result<(), NoMemory> {
    for member in members {
        left.push(&member.qual.ty)?;
    }
    Ok(())
}

// Parts of one type, one after another, that are still to be visited, and where the first of them begins.
#[derive(Clone, Copy)]
struct Parts<'s> {
    ty: &'s Ty,
    offset: u64,
    count: u64,
}

/// Adds the zeros of an object of this type, whose list stands on this line; an object with too many parts is refused (own).
/// The parts that are still to be visited stand in a list, the first last, so structures one inside the other cost none of
/// the host's stack.
pub fn add_zeros(
    state: &State,
    ty: &Ty,
    zeros: &mut Zeros<'_>,
    line: u32,
) -> Result<(), TypeFault> {
    let mut left = Vec::new(state.alloc);
    left.push(Parts {
        ty,
        offset: 0,
        count: 1,
    })?;
    for _ in 0..MOST_PARTS {
        let Some(parts) = left.pop() else {
            return Ok(());
        };
        if parts.count > 1 {
            left.push(Parts {
                ty: parts.ty,
                offset: parts.offset.saturating_add(size_of(state, parts.ty)),
                count: parts.count - 1,
            })?;
        }
        if parts.count > 0 {
            open(state, parts.ty, parts.offset, &mut left, zeros)?;
        }
    }
    Err(TypeFault::NotTyped {
        line,
        reason: Reason::ListTooLong,
    })
}

// Adds the zeros of a part that has no parts, or puts those that it has on the list.
fn open<'s>(
    state: &'s State,
    ty: &'s Ty,
    offset: u64,
    left: &mut Vec<Parts<'s>>,
    zeros: &mut Zeros<'_>,
) -> Result<(), NoMemory> {
    match ty {
        Ty::Array(element, Some(count)) if *count == 1 || !is_dense(state, ty)? => {
            left.push(Parts {
                ty: &element.get().ty,
                offset,
                count: *count,
            })?;
            Ok(())
        }
        Ty::Struct(tag) => push_members(state, *tag, offset, left),
        Ty::Union(tag) => {
            let index = zeros.chosen(offset, *tag);
            match usize::try_from(index) {
                Ok(index) => push_member(state, *tag, index, offset, left),
                Err(_) => Ok(()),
            }
        }
        _ => zeros.gaps(offset, offset.saturating_add(size_of(state, ty))),
    }
}

// The members of a structure, the last first.
fn push_members<'s>(
    state: &'s State,
    tag: u32,
    offset: u64,
    left: &mut Vec<Parts<'s>>,
) -> Result<(), NoMemory> {
    for index in (0..members_of(state, tag).len()).rev() {
        push_member(state, tag, index, offset, left)?;
    }
    Ok(())
}

fn push_member<'s>(
    state: &'s State,
    tag: u32,
    index: usize,
    offset: u64,
    left: &mut Vec<Parts<'s>>,
) -> Result<(), NoMemory> {
    if let (Some(member), Some(within)) = (
        members_of(state, tag).get(index),
        state.tags.offset_of(tag, index),
    ) {
        left.push(Parts {
            ty: &member.qual.ty,
            offset: offset.saturating_add(within),
            count: 1,
        })?;
    }
    Ok(())
}

/// The runs as constants.
pub fn push_runs(runs: &[(u64, u64)], constants: &mut Items<Constant>) -> Result<(), NoMemory> {
    for (start, end) in runs {
        constants.push(Constant {
            at: *start,
            content: Content::Zeros(end.saturating_sub(*start)),
        })?;
    }
    Ok(())
}
