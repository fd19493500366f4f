// The address map: rows in an ordered map by base, and their bases in a hash map by name.
ghost use Rattle.std.specs.Prelude.{◌≡◌, ◌+◌, ◌-◌, ◌*◌, ◌/◌, ◌≤◌, ◌<◌, ◌^◌, ◌↔◌, [], None, Ok, true, false, not, is_some, nat_le, nat_lt, IsTrue, IfOk, OnOk};
ghost use Rattle.std.specs.Prelude.{OnErr, IfSome, ◌%◌};
ghost use Rattle.addr_map.specs.Rows.{row_of, first_row, covers, past, overlaps, IsRoomFor, is_power, is_lawful, base_of, round_up, insert_row, breaks};
ghost use Rattle.addr_map.specs.Rows.{free_of, row_at};
ghost use Rattle.addr_map.specs.Sound.{last_row, Apart, AllSized, AreApart, IsMap};

use std::alloc::Global;
use std::collections::{BTreeMap, HashMap};
use std::marker::Model;
use ub_base::{NoMemory, ObjName};

/// The first address that an object may have (own).
const FIRST: u64 = 16_777_216;

/// The end of the address space (own).
const LIMIT: u64 = 0x8000_0000_0000;

/// How new objects are placed (own): with gaps between them, or one straight after the other.
#[derive(Clone, Copy, Debug, PartialEq, Eq)]
pub enum Mode {
    Spaced,
    Tight,
}

/// An object's place: its first address, its size in bytes and its alignment.
#[derive(Clone, Copy, Debug, PartialEq, Eq)]
pub struct Row {
    pub name: ObjName,
    pub base: u64,
    pub size: u64,
    pub align: u64,
}

/// The rows of all objects that were placed, seen as their list in the order of bases. Addresses
/// are never used again.
#[derive(Drop)]
pub struct AddrMap {
    rows: BTreeMap<u64, Row>,
    // the base of each row by its name, and of names whose row was refused memory
    bases: HashMap<ObjName, u64>,
    free: u64,
}

impl Model for AddrMap {
    ghost use Rattle.std.specs.Prelude.{List};
    ghost use Rattle.addr_map.specs.declared.map.Row.{Row};
    ghost use Rattle.std.specs.HashMap as hash;
    ghost use Rattle.addr_map.specs.Sound.{rows_in, IsSound, object_eq};

    ghost Value = { List Row };

    ghost view = { λ m. rows_in m.rows.entries };

    ghost invariant = { λ m. IsSound m.rows (hash.get object_eq m.bases) m.free };
}

/// Whether the number is 1, 2, 4, 8 or 16.
pub fn is_alignment(align: u64) -> bool
    ensures { result ≡ is_power align }
{
    matches!(align, 1 | 2 | 4 | 8 | 16)
}

/// The least multiple of `align` that isn't below `at`.
fn round_up(at: u64, align: u64) -> u64
    requires some { 0 < align }
    requires fits { at + align < 2 ^ 64 }
    ensures { result ≡ round_up at align }
{
    (at + (align - 1)) / align * align
}

impl AddrMap {
    /// The map without rows.
    pub fn new(alloc: Global) -> AddrMap
        ensures { result ≡ [] }
    {
        AddrMap {
            rows: BTreeMap::new(alloc),
            bases: HashMap::new(alloc),
            free: FIRST,
        }
    }

    /// Whether an object of `size` bytes can be placed in either mode.
    pub fn fits(&self, size: u64) -> bool
        ensures { IsTrue result ↔ IsRoomFor self.now size }
    {
        size <= LIMIT && self.free + size + 32 <= LIMIT
    }

    /// The row of the name.
    pub fn row(&self, name: ObjName) -> Option<Row>
        ensures row { result ≡ row_of self.now name }
        ensures end { free_of self.now ≤ 2 ^ 47 }
        ensures apart { AreApart self.now }
    {
        let base = self.bases.get(&name).copied()?;
        let row = self.rows.get(&base).copied()?;
        if row.name == name { Some(row) } else { None }
    }

    /// The rows of each map keep its rules (own): they stand apart, and each is a multiple of its alignment and lies between
    /// 16,777,216 and 2^47.
    pub fn law_rows(&self)
        ensures { IsMap self.now }
    {
        let _free = self.free;
    }

    /// The row with the least base that isn't below `from`.
    pub fn next(&self, from: u64) -> Option<Row>
        ensures { result ≡ first_row (λ r. nat_le from r.base) self.now }
    {
        let Some((_, row)) = self.rows.range(from..).next() else {
            return None;
        };
        Some(*row)
    }

    /// The object that contains the address, and the object that ends just before it.
    pub fn covering(&self, addr: u64) -> (Option<ObjName>, Option<ObjName>)
        ensures inside { result.0 ≡ covers self.now addr }
        ensures past { result.1 ≡ past self.now addr }
    {
        (self.inside(addr), self.ending(addr))
    }

    fn inside(&self, addr: u64) -> Option<ObjName>
        ensures { result ≡ covers self.now addr }
    {
        let Some(row) = self.last_up_to(addr) else {
            return None;
        };
        if addr - row.base < row.size {
            Some(row.name)
        } else {
            None
        }
    }

    fn ending(&self, addr: u64) -> Option<ObjName>
        ensures { result ≡ past self.now addr }
    {
        let Some(row) = self.last_below(addr) else {
            return None;
        };
        if addr - row.base == row.size {
            Some(row.name)
        } else {
            None
        }
    }

    // The last row whose base isn't above the address.
    fn last_up_to(&self, addr: u64) -> Option<Row>
        ensures value { result ≡ last_row (λ b. nat_le b addr) self.now }
        ensures order { IfSome result (λ r. r.base ≤ addr) }
        ensures apart { Apart self.now }
    {
        let Some((_, row)) = self.rows.range(..=addr).next_back() else {
            return None;
        };
        Some(*row)
    }

    // The last row whose base is below the address.
    fn last_below(&self, addr: u64) -> Option<Row>
        ensures value { result ≡ last_row (λ b. nat_lt b addr) self.now }
        ensures order { IfSome result (λ r. r.base < addr) }
        ensures lawful { IfSome result (λ r. r.base + r.size ≤ 2 ^ 47) }
        ensures apart { Apart self.now }
        ensures sizes { AllSized self.now }
    {
        let Some((_, row)) = self.rows.range(..addr).next_back() else {
            return None;
        };
        Some(*row)
    }

    /// Places a new object of `size` bytes behind all others, and gives its base.
    pub fn place(
        &mut self,
        mode: Mode,
        name: ObjName,
        size: u64,
        align: u64,
    ) -> Result<u64, NoMemory>
        requires room { IsRoomFor self.old size }
        requires new { row_of self.old name ≡ None }
        requires some { 0 < size }
        requires power { is_power align ≡ true }
        ensures base { IfOk result (λ base. base ≡ base_of mode self.old align) }
        ensures end { IfOk result (λ base. base + size ≤ 2 ^ 47) }
        ensures row { IfOk result (λ base. self.new ≡ insert_row (row_at name base size align) self.old) }
        ensures err { OnErr result (self.new ≡ self.old) }
    {
        let base = self.next_base(mode, align);
        let row = Row {
            name,
            base,
            size,
            align,
        };
        self.insert(row)?;
        Ok(base)
    }

    fn next_base(&self, mode: Mode, align: u64) -> u64
        requires room { IsRoomFor self.now 0 }
        requires power { is_power align ≡ true }
        ensures base { result ≡ base_of mode self.now align }
        ensures behind { free_of self.now ≤ result }
        ensures near { result ≤ free_of self.now + 31 }
        ensures aligned { result % align ≡ 0 }
    {
        match mode {
            Mode::Tight => round_up(self.free, align),
            Mode::Spaced => round_up(self.free + 16, 16),
        }
    }

    /// Adds a row, unless it breaks a rule: the name is there, the size is 0, the alignment isn't
    /// 1, 2, 4, 8 or 16, the base isn't a multiple of it or lies below 16,777,216, the object ends
    /// above 2^47, or it overlaps a row.
    pub fn add(&mut self, row: Row) -> Result<bool, NoMemory>
        ensures answer { IfOk result (λ added. added ≡ not (breaks self.old row)) }
        ensures added { result ≡ Ok true → self.new ≡ insert_row row self.old }
        ensures refused { result ≡ Ok false → self.new ≡ self.old }
        ensures err { OnErr result (self.new ≡ self.old) }
    {
        if !is_lawful(&row) {
            return Ok(false);
        }
        if self.row(row.name).is_some() {
            return Ok(false);
        }
        if self.overlaps(&row) {
            return Ok(false);
        }
        self.insert(row)?;
        Ok(true)
    }

    fn overlaps(&self, row: &Row) -> bool
        requires { is_lawful row.now ≡ true }
        ensures { result ≡ is_some (first_row (λ s. overlaps s row.now) self.now) }
    {
        match self.last_below(row.base + row.size) {
            Some(last) => row.base < last.base + last.size,
            None => false,
        }
    }

    fn insert(&mut self, row: Row) -> Result<(), NoMemory>
        requires lawful { is_lawful row ≡ true }
        requires new { row_of self.old row.name ≡ None }
        requires free { first_row (λ s. overlaps s row) self.old ≡ None }
        ensures ok { OnOk result (self.new ≡ insert_row row self.old) }
        ensures err { OnErr result (self.new ≡ self.old) }
    {
        self.bases.insert(row.name, row.base)?;
        self.rows.insert(row.base, row)?;
        self.free = self.free.max(row.base + row.size);
        Ok(())
    }
}

fn is_lawful(row: &Row) -> bool
    ensures { result ≡ is_lawful row.now }
{
    row.size > 0
        && is_alignment(row.align)
        && row.base % row.align == 0
        && row.base >= FIRST
        && row.base <= LIMIT
        && row.size <= LIMIT - row.base
}
