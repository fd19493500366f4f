// Bytes as they stand in memory: 12 bytes of the host for each.
ghost use Rattle.std.specs.Prelude.{◌≡◌, ◌+◌, ◌-ℤ◌, pos, nat_le, if◌then◌else◌};
ghost use Rattle.mem_spec.specs.Acts.{value_of};
ghost use Rattle.mem_spec.specs.Bytes.{low_bits};
ghost use Rattle.mem_objects.specs.Cells.{cell_at};
ghost use Rattle.mem_objects.specs.Pieces.{plain_cells, piece_cells};

use c_types::IntKind;

/// A provenance by its number in a memory. Number 0 is the empty provenance of every memory.
#[derive(Clone, Copy, PartialEq, Eq)]
pub struct Origin {
    pub number: u32,
}

impl Origin {
    /// The empty provenance.
    pub const EMPTY: Origin = Origin { number: 0 };
}

/// A scalar type by its number in a memory: 0 is none, 1 to 12 are the integer types, and from 13 on come those that the
/// memory was told of.
#[derive(Clone, Copy, PartialEq, Eq)]
pub struct TypeId {
    pub number: u32,
}

impl TypeId {
    ghost use Rattle.mem_spec.specs.Agreement.{number_of_kind};
    ghost use Rattle.mem_objects.specs.Cells.{kind_numbered, is_character_numbered};

    /// No type.
    pub const NONE: TypeId = TypeId { number: 0 };

    /// The integer type.
    pub fn of_kind(kind: IntKind) -> TypeId
        ensures { result.number ≡ number_of_kind kind }
    {
        let number = match kind {
            IntKind::Bool => 1,
            IntKind::Char => 2,
            IntKind::SChar => 3,
            IntKind::UChar => 4,
            IntKind::Short => 5,
            IntKind::UShort => 6,
            IntKind::Int => 7,
            IntKind::UInt => 8,
            IntKind::Long => 9,
            IntKind::ULong => 10,
            IntKind::LLong => 11,
            IntKind::ULLong => 12,
        };
        TypeId { number }
    }

    /// The integer type that it is.
    pub fn kind(self) -> Option<IntKind>
        ensures { result ≡ kind_numbered self.number }
    {
        match self.number {
            1 => Some(IntKind::Bool),
            2 => Some(IntKind::Char),
            3 => Some(IntKind::SChar),
            4 => Some(IntKind::UChar),
            5 => Some(IntKind::Short),
            6 => Some(IntKind::UShort),
            7 => Some(IntKind::Int),
            8 => Some(IntKind::UInt),
            9 => Some(IntKind::Long),
            10 => Some(IntKind::ULong),
            11 => Some(IntKind::LLong),
            12 => Some(IntKind::ULLong),
            _ => None,
        }
    }

    /// Whether it is one of the three character types (6.2.5p15).
    pub fn is_character(self) -> bool
        ensures { result ≡ is_character_numbered self.number }
    {
        matches!(self.number, 2..=4)
    }
}

/// How an access sees its bytes (own): as a scalar of a type, as a whole structure or union, or as bytes.
#[derive(Clone, Copy, PartialEq, Eq)]
pub enum Via {
    Scalar(TypeId),
    Whole,
    Bytes,
}

/// A byte of an object (own): not written yet, or a number that may be the piece of this index, 0 to 7, of a pointer with this
/// provenance.
#[derive(Clone, Copy, PartialEq, Eq)]
pub enum MemByte {
    Unwritten,
    Written {
        number: u8,
        piece: Option<(Origin, u8)>,
    },
}

/// What a cell holds.
#[derive(Clone, Copy, PartialEq, Eq)]
pub enum State {
    Unwritten,
    Plain,
    Piece,
}

/// A byte with its tag: the scalar type that wrote it, and which byte of that scalar it is.
#[derive(Clone, Copy, PartialEq, Eq)]
pub struct Cell {
    pub number: u8,
    pub state: State,
    pub piece_index: u8,
    pub tag_index: u8,
    pub origin: Origin,
    pub tag: TypeId,
}

impl Cell {
    ghost use Rattle.mem_objects.specs.Cells.{plain_cell, piece_cell, cell_of, byte_of};
    ghost use Rattle.mem_objects.specs.Loads.{number_held};

    /// An unwritten byte.
    pub const UNWRITTEN: Cell = Cell {
        number: 0,
        state: State::Unwritten,
        piece_index: 0,
        tag_index: 0,
        origin: Origin { number: 0 },
        tag: TypeId { number: 0 },
    };

    /// A number.
    pub fn plain(number: u8) -> Cell
        ensures { result ≡ plain_cell number }
    {
        Cell {
            number,
            state: State::Plain,
            piece_index: 0,
            tag_index: 0,
            origin: Origin { number: 0 },
            tag: TypeId { number: 0 },
        }
    }

    /// A piece of a pointer.
    pub fn piece(number: u8, origin: Origin, index: u8) -> Cell
        ensures { result ≡ piece_cell number origin index }
    {
        Cell {
            number,
            state: State::Piece,
            piece_index: index,
            tag_index: 0,
            origin,
            tag: TypeId { number: 0 },
        }
    }

    /// The byte without a tag.
    pub fn of(byte: MemByte) -> Cell
        ensures { result ≡ cell_of byte }
    {
        match byte {
            MemByte::Unwritten => Cell::UNWRITTEN,
            MemByte::Written {
                number,
                piece: None,
            } => Cell::plain(number),
            MemByte::Written {
                number,
                piece: Some((origin, index)),
            } => Cell::piece(number, origin, index),
        }
    }

    /// The byte without its tag.
    pub fn byte(self) -> MemByte
        ensures { result ≡ byte_of self }
    {
        match self.state {
            State::Unwritten => MemByte::Unwritten,
            State::Plain => MemByte::Written {
                number: self.number,
                piece: None,
            },
            State::Piece => MemByte::Written {
                number: self.number,
                piece: Some((self.origin, self.piece_index)),
            },
        }
    }

    /// The number of a written byte.
    pub fn value(self) -> Option<u8>
        ensures { result ≡ number_held self.state self }
    {
        match self.state {
            State::Unwritten => None,
            State::Plain => Some(self.number),
            State::Piece => Some(self.number),
        }
    }

    /// The same byte with this tag.
    pub fn tagged(self, tag: TypeId, index: u8) -> Cell
        ensures { result ≡ record self { tag = tag; tag_index = index } }
    {
        Cell {
            number: self.number,
            state: self.state,
            piece_index: self.piece_index,
            tag_index: index,
            origin: self.origin,
            tag,
        }
    }
}

/// The byte at the place, unwritten past the end.
pub fn cell_at(cells: &[Cell], at: u64) -> Cell
    ensures { result ≡ cell_at cells.now at }
{
    match cells.get(at as usize) {
        None => Cell::UNWRITTEN,
        Some(cell) => *cell,
    }
}

/// The value of the integer type with these bytes (own: two's complement).
pub fn value_of(kind: IntKind, number: u64) -> i128
    ensures { result ≡ value_of kind number }
{
    match kind {
        IntKind::Bool => i128::from(number),
        IntKind::Char => signed(number, 0x80),
        IntKind::SChar => signed(number, 0x80),
        IntKind::UChar => i128::from(number),
        IntKind::Short => signed(number, 0x8000),
        IntKind::UShort => i128::from(number),
        IntKind::Int => signed(number, 0x8000_0000),
        IntKind::UInt => i128::from(number),
        IntKind::Long => signed(number, 0x8000_0000_0000_0000),
        IntKind::ULong => i128::from(number),
        IntKind::LLong => signed(number, 0x8000_0000_0000_0000),
        IntKind::ULLong => i128::from(number),
    }
}

/// The number with its sign bit read as one, which is `half`.
fn signed(number: u64, half: u64) -> i128
    ensures { result ≡ (if nat_le half number then pos number -ℤ pos (half + half) else pos number) }
{
    let value = i128::from(number);
    let half = i128::from(half);
    if value < half {
        value
    } else {
        value - (half + half)
    }
}

/// The eight bytes of a number.
pub fn number_cells(number: u64) -> [Cell; 8]
    ensures { result ≡ plain_cells 8 number }
{
    let mut cells = [Cell::UNWRITTEN; 8];
    let mut rest = number;
    for index in 0..8usize {
        cells[index] = Cell::plain((rest % 256) as u8);
        rest /= 256;
    }
    cells
}

/// The eight pieces of a pointer.
pub fn pointer_cells(addr: u64, origin: Origin) -> [Cell; 8]
    ensures { result ≡ piece_cells 8 0 origin addr }
{
    let mut cells = [Cell::UNWRITTEN; 8];
    let mut rest = addr;
    for index in 0..8u8 {
        cells[index as usize] = Cell::piece((rest % 256) as u8, origin, index);
        rest /= 256;
    }
    cells
}

/// The number modulo 2^64.
pub fn low_bits(value: i128) -> u64
    ensures { result ≡ low_bits value }
{
    let low = value.rem_euclid(0x1_0000_0000_0000_0000);
    u64::try_from(low).unwrap_or(0)
}
