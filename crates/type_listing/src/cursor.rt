// Where an initializer list stands in its object (6.7.9p17, 6.7.9p20).

use c_types::{Ty, copied};
use std::alloc::Global;
use type_reasons::Reason;
use type_scope::{Source, State, TypeFault};
use ub_base::NoMemory;

/// A part of the object: its type and its offset in bytes.
#[derive(Drop)]
pub struct Spot {
    pub ty: Ty,
    pub offset: u64,
}

// An aggregate or union that is being initialized, and the number of its next element or member.
#[derive(Drop)]
struct Level {
    ty: Ty,
    offset: u64,
    next: u64,
}

/// The aggregates from the one of the list down to the one whose element comes next.
#[derive(Drop)]
pub struct Cursor {
    levels: Vec<Level>,
    // How many elements of the outermost array have been reached.
    reached: u64,
}

/// The member of a union that is initialized: the union's offset and number, and the member's number.
pub type Choice = (u64, u32, u64);

// The element of an array.
fn element(state: &State, level: &Level, element: &Ty, count: Option<u64>) -> Option<(u64, u64)> {
    let e = state.tags.extent(element)?;
    if let Some(count) = count
        && level.next >= count
    {
        return None;
    }
    let within = level.next.checked_mul(e.size)?;
    Some((level.offset.checked_add(within)?, e.size))
}

const MOST: u64 = 0x100_0000_0000;

// The next element or member of the level: its type and its offset.
fn part_of(alloc: Global, state: &State, level: &Level) -> Result<Option<Spot>, NoMemory> {
    match &level.ty {
        Ty::Array(of, count) => match element(state, level, &of.get().ty, *count) {
            Some((offset, size)) if offset <= MOST && size <= MOST => Ok(Some(Spot {
                ty: copied(alloc, &of.get().ty)?,
                offset,
            })),
            _ => Ok(None),
        },
        Ty::Struct(tag) | Ty::Union(tag) => member_of(alloc, state, *tag, level.offset, level.next),
        _ => Ok(None),
    }
}

fn member_of(
    alloc: Global,
    state: &State,
    tag: u32,
    offset: u64,
    next: u64,
) -> Result<Option<Spot>, NoMemory> {
    let Ok(index) = usize::try_from(next) else {
        return Ok(None);
    };
    let Some(content) = state.tags.get(tag) else {
        return Ok(None);
    };
    match (content.members.get(index), state.tags.offset_of(tag, index)) {
        (Some(member), Some(within)) => Ok(Some(Spot {
            ty: copied(alloc, &member.qual.ty)?,
            offset: offset.saturating_add(within),
        })),
        _ => Ok(None),
    }
}

const EXHAUSTED: u64 = u64::MAX;

impl Level {
    fn new(spot: Spot) -> Level {
        let Spot { ty, offset } = spot;
        Level {
            ty,
            offset,
            next: 0,
        }
    }

    // Goes to the next element; a union has one alone (6.7.9p17).
    fn advance(&mut self) {
        self.next = match self.ty {
            Ty::Union(_) => EXHAUSTED,
            _ => self.next.saturating_add(1),
        };
    }

    fn choice(&self) -> Option<Choice> {
        match &self.ty {
            Ty::Union(tag) => Some((self.offset, *tag, self.next)),
            _ => None,
        }
    }
}

impl Cursor {
    /// At the first element of the aggregate.
    pub fn new(alloc: Global, spot: Spot) -> Result<Cursor, NoMemory> {
        let mut levels = Vec::new(alloc);
        levels.push(Level::new(spot))?;
        Ok(Cursor { levels, reached: 0 })
    }

    /// How many elements of the outermost array have been reached.
    pub fn reached(&self) -> u64 {
        self.reached
    }

    /// The part that comes next, in the innermost aggregate that has one left; none where the list is full (6.7.9p2).
    pub fn spot(&mut self, state: &State) -> Result<Option<Spot>, NoMemory> {
        for _ in 0..self.levels.len() {
            let found = match self.levels.last() {
                Some(level) => part_of(state.alloc, state, level)?,
                None => None,
            };
            if found.is_some() || self.levels.len() <= 1 {
                return Ok(found);
            }
            let _finished = self.levels.pop();
            self.advance();
        }
        Ok(None)
    }

    fn advance(&mut self) {
        let outermost = self.levels.len() == 1;
        if let Some(level) = self.levels.last_mut() {
            level.advance();
            if outermost && level.next != EXHAUSTED {
                self.reached = self.reached.max(level.next);
            }
        }
    }

    // Why nothing comes next: the object's type is incomplete, or its list is full (6.7.9p2, 6.7.9p3).
    fn refusal(&self, state: &State) -> Reason {
        match self.levels.first() {
            Some(level)
                if !matches!(level.ty, Ty::Array(_, _)) && state.tags.extent(&level.ty).is_none() =>
                { Reason::InitializedEntity }
            _ => Reason::TooManyInitializers,
        }
    }

    /// Goes into a part.
    pub fn enter(&mut self, spot: Spot) -> Result<(), NoMemory> {
        self.levels.push(Level::new(spot))?;
        Ok(())
    }

    /// Notes the members of unions in which the part stands, and goes behind the part.
    pub fn pass(&mut self, choices: &mut Vec<Choice>) -> Result<(), NoMemory> {
        for level in &self.levels {
            if let Some(choice) = level.choice() {
                choices.push(choice)?;
            }
        }
        self.note_outermost();
        self.advance();
        Ok(())
    }

    // The element of the outermost array in which the part stands is reached.
    fn note_outermost(&mut self) {
        if let Some(level) = self.levels.first() {
            self.reached = self.reached.max(level.next.saturating_add(1));
        }
    }

    /// Back to the outermost aggregate, for a list of designators (6.7.9p17).
    pub fn restart(&mut self) {
        for _ in 1..self.levels.len() {
            let _inner = self.levels.pop();
        }
    }

    // Stands the innermost level at this element.
    fn stand(&mut self, next: u64) {
        if let Some(level) = self.levels.last_mut() {
            level.next = next;
        }
    }

    /// Goes to the element of this number of the innermost aggregate, an array (6.7.9p6); false where it has none.
    pub fn to_element(&mut self, number: i128) -> bool {
        let Ok(index) = u64::try_from(number) else {
            return false;
        };
        let fits = match self.levels.last() {
            Some(level) => match &level.ty {
                Ty::Array(_, Some(count)) => index < *count,
                Ty::Array(_, None) => index < MOST,
                _ => false,
            },
            None => false,
        };
        if fits {
            self.stand(index);
        }
        fits
    }

    fn tag(&self) -> Option<u32> {
        match self.levels.last() {
            Some(level) => match &level.ty {
                Ty::Struct(tag) | Ty::Union(tag) => Some(*tag),
                _ => None,
            },
            None => None,
        }
    }

    /// Goes to the member of this name of the innermost aggregate, a structure or union, through unnamed members too
    /// (6.7.9p7); false where it has none.
    pub fn to_member(&mut self, state: &State, name: &[u8], symbol: u32) -> Result<bool, NoMemory> {
        for _ in 0..=state.tags.len() {
            let Some(tag) = self.tag() else {
                return Ok(false);
            };
            match direct_member(state, tag, name) {
                Some(index) => {
                    self.stand(index);
                    return Ok(true);
                }
                None => {
                    if !self.into_unnamed(state, tag, symbol)? {
                        return Ok(false);
                    }
                }
            }
        }
        Ok(false)
    }

    // Goes into the unnamed member that has the symbol; false where there is none.
    fn into_unnamed(&mut self, state: &State, tag: u32, symbol: u32) -> Result<bool, NoMemory> {
        match unnamed_with(state, tag, symbol) {
            None => Ok(false),
            Some(index) => {
                self.stand(index);
                self.enter_next(state)
            }
        }
    }

    /// Goes into the part at which the innermost level stands; false where there is none.
    pub fn enter_next(&mut self, state: &State) -> Result<bool, NoMemory> {
        let spot = match self.levels.last() {
            Some(level) => part_of(state.alloc, state, level)?,
            None => None,
        };
        match spot {
            None => Ok(false),
            Some(spot) => {
                self.enter(spot)?;
                Ok(true)
            }
        }
    }
}

fn direct_member(state: &State, tag: u32, name: &[u8]) -> Option<u64> {
    let content = state.tags.get(tag)?;
    for (i, member) in content.members.as_slice().iter().enumerate() {
        if member.name.as_slice() == name {
            return Some(i as u64);
        }
    }
    None
}

fn has_symbol(state: &State, ty: &Ty, symbol: u32) -> bool {
    match ty {
        Ty::Struct(tag) | Ty::Union(tag) => match state.tag_rows.get(*tag as usize) {
            Some(row) => row.symbols.contains(&symbol),
            None => false,
        },
        _ => false,
    }
}

fn unnamed_with(state: &State, tag: u32, symbol: u32) -> Option<u64> {
    let content = state.tags.get(tag)?;
    for (i, member) in content.members.as_slice().iter().enumerate() {
        if member.name.len() == 0 && has_symbol(state, &member.qual.ty, symbol) {
            return Some(i as u64);
        }
    }
    None
}

/// The part that comes next, or the fault of a list that is too long, at this token (6.7.9p2).
pub fn next_spot(
    source: &Source<'_>,
    state: &State,
    cursor: &mut Cursor,
    at: u32,
) -> Result<Spot, TypeFault> {
    match cursor.spot(state)? {
        Some(spot) => Ok(spot),
        None => Err(source.fault(at, cursor.refusal(state))),
    }
}
