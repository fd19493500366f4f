// Pointer arithmetic, comparison and casts.
ghost use Rattle.std.specs.Ordering.{nat_cmp};
ghost use Rattle.ub_base.specs.Names.{same_object};
ghost use Rattle.std.specs.Prelude.{◌≡◌, ◌++◌, ◌∷◌, ◌<◌, ◌/◌, ◌+ℤ◌, ◌-ℤ◌, [], pos, true, if◌then◌else◌, IfOk, OnOk, OnErr, length};
ghost use Rattle.addr_map.specs.Rows.{row_of};
ghost use Rattle.exposure.specs.declared.prov.Prov.TheVariants.{Either};
ghost use Rattle.mem_objects.specs.Keeps.{Keeps};
ghost use Rattle.mem_objects.specs.Sound.{AllMade, IsSound};
ghost use Rattle.exposure.specs.Cells.{has_cell};
ghost use Rattle.mem_spec.specs.Acts as acts;
ghost use Rattle.mem_spec.specs.Acts.{in_bounds, candidates, in_common, is_among};
ghost use Rattle.mem_spec.specs.Script.{run, Done};
ghost use Rattle.mem_spec.specs.Store.{findable, can_find};
ghost use Rattle.mem_spec.specs.Streams.{Io};
ghost use Rattle.mem_objects.specs.Memory.{Kept, store_of, act_of, AreKnown};
ghost use Rattle.mem_objects.specs.Made.{IsAddress, IsMade, AreCreated, HasMore, look_up_items, CanSettle, settling_by, settling_to, shift_settling};
ghost use Rattle.mem_objects.specs.Made.{settling_items, after_settling, address_result};
ghost use Rattle.prov_memory.specs.Comparing.{settling_of, both_settlings, common_settling, common_in, done_result};

use super::*;
use addr_map::Row;
use mem_objects::is_within;
use std::cmp::Ordering;
use ub_base::Clause;

/// What a comparison settles of a pointer: an ambiguity to an object, or none.
type Settling = Option<(Event, ObjName)>;

/// The objects that two pointers have in common.
#[derive(Clone, Copy)]
enum Common {
    None,
    One(ObjName),
    Two,
}

impl Memory {
    // Whether the address lies in the object or one past it once it has moved.
    fn is_near(&self, name: ObjName, addr: u64, by: i128) -> bool
        ensures near { result ≡ in_bounds (row_of self.now.rows name) (pos addr +ℤ by) }
        ensures address { result ≡ true → IsAddress (pos addr +ℤ by) }
    {
        match self.seek(name) {
            None => row_is_near(self.map.row(name), addr, by),
            Some(object) => object.is_near(addr, by),
        }
    }

    // The candidate that stays when those are asked for which `first` and `second` tell.
    fn settled_by(
        &self,
        first: bool,
        second: bool,
        id: Event,
        past: ObjName,
        start: ObjName,
        clause: Clause,
    ) -> Result<Option<(Event, ObjName)>, Clause>
        ensures { result ≡ settling_by first second self.now.cells id past start clause }
    {
        match (first, second) {
            (true, true) => Ok(None),
            (true, false) => self.settling_to(id, past, clause),
            (false, true) => self.settling_to(id, start, clause),
            (false, false) => Err(clause),
        }
    }

    // The object to which the ambiguity is to be settled, where it wasn't settled to the other.
    fn settling_to(
        &self,
        id: Event,
        keep: ObjName,
        clause: Clause,
    ) -> Result<Option<(Event, ObjName)>, Clause>
        ensures { result ≡ settling_to self.now.cells id keep clause }
    {
        if self.is_lost(id, keep) {
            Err(clause)
        } else {
            Ok(Some((id, keep)))
        }
    }

    // What arithmetic that moves the address settles.
    fn shifted(&self, addr: u64, prov: Prov, by: i128) -> Result<Option<(Event, ObjName)>, Clause>
        ensures settling { result ≡ shift_settling self.now.rows self.now.cells (pos addr +ℤ by) prov }
        ensures address { OnOk result (IsAddress (pos addr +ℤ by)) }
    {
        match prov {
            Prov::Empty => Err(Clause::OutOfBounds),
            Prov::Whole(name) => {
                if self.is_near(name, addr, by) {
                    Ok(None)
                } else {
                    Err(Clause::OutOfBounds)
                }
            }
            Prov::Either { id, past, start } => {
                let first = self.is_near(past, addr, by);
                let second = self.is_near(start, addr, by);
                self.settled_by(first, second, id, past, start, Clause::OutOfBounds)
            }
        }
    }

    fn note_settled(&mut self, settles: Option<(Event, ObjName)>, t: &mut Touched)
        ensures items { length t.old < 32 → t.new ≡ t.old ++ settling_items settles }
        ensures rest { record self.new { cells = [] } ≡ record self.old { cells = [] } }
        ensures cells { (e : Event) → has_cell self.new.cells e ≡ has_cell self.old.cells e }
        ensures store { CanSettle self.old.cells settles → (io : Io) → store_of self.new io ≡ after_settling settles (store_of self.old io) }
        ensures kept { Keeps self.old self.new }
    {
        let Some((id, keep)) = settles else {
            return;
        };
        t.note(Item::Narrow { id, keep });
        let _ = self.narrow(id, keep);
    }

    /// The address `by` bytes further, which must lie in the object or one past it (6.5.6p8).
    pub fn shift(&mut self, addr: u64, prov: Prov, by: i128, t: &mut Touched) -> Result<u64, Clause>
        ensures exact { IsMade self.old prov → (io : Io) → run self.new.rows (acts.shift self.new.rows addr prov by) (store_of self.old io) ≡ act_of
            (address_result result) t.new (store_of self.new io) }
        ensures same { OnErr result (self.new ≡ self.old) }
        ensures rest { record self.new { cells = [] } ≡ record self.old { cells = [] } }
        ensures made { (p : Prov) → IsMade self.old p → IsMade self.new p }
        ensures sound { IsSound self.old → IsSound self.new }
        ensures kept { Keeps self.old self.new }
    {
        t.clear();
        let settles = self.shifted(addr, prov, by)?;
        self.note_settled(settles, t);
        Ok(moved(addr, by))
    }

    // What a comparison that keeps an object settles of a pointer.
    fn settling_of(
        &self,
        prov: Prov,
        keep: ObjName,
        clause: Clause,
    ) -> Result<Option<(Event, ObjName)>, Clause>
        ensures { result ≡ settling_of self.now.cells prov keep clause }
    {
        match prov {
            Prov::Empty => Ok(None),
            Prov::Whole(_) => Ok(None),
            Prov::Either { id, .. } => self.settling_to(id, keep, clause),
        }
    }

    // What a comparison settles of two pointers that keep an object.
    fn settling_both(
        &self,
        a: Prov,
        b: Prov,
        keep: ObjName,
        clause: Clause,
    ) -> Result<(Settling, Settling), Clause>
        ensures { result ≡ both_settlings (settling_of self.now.cells a keep clause) (settling_of self.now.cells b keep clause) }
    {
        match self.settling_of(a, keep, clause) {
            Err(clause) => Err(clause),
            Ok(first) => match self.settling_of(b, keep, clause) {
                Err(clause) => Err(clause),
                Ok(second) => Ok((first, second)),
            },
        }
    }

    // What a comparison settles of two pointers, by the objects that they have in common.
    fn compared(&self, a: Prov, b: Prov, clause: Clause) -> Result<(Settling, Settling), Clause>
        ensures { result ≡ common_settling self.now.cells (in_common (candidates a) (candidates b)) a b clause }
    {
        match common_of(a, b) {
            Common::None => Err(clause),
            Common::One(keep) => self.settling_both(a, b, keep, clause),
            Common::Two => Ok((None, None)),
        }
    }

    // Settles two pointers by the objects that they have in common.
    fn settle_common(
        &mut self,
        a: Prov,
        b: Prov,
        clause: Clause,
        t: &mut Touched,
    ) -> Result<(), Clause>
        ensures exact { t.old ≡ [] → IsMade self.old a → IsMade self.old b → (io : Io) →
            run self.new.rows (acts.settle_common (in_common (candidates a) (candidates b)) a b clause) (store_of self.old io) ≡ act_of result t.new
            (store_of self.new io) }
        ensures same { OnErr result (self.new ≡ self.old) }
        ensures rest { record self.new { cells = [] } ≡ record self.old { cells = [] } }
        ensures cells { (e : Event) → has_cell self.new.cells e ≡ has_cell self.old.cells e }
        ensures kept { Keeps self.old self.new }
    {
        let (first, second) = self.compared(a, b, clause)?;
        self.note_settled(first, t);
        self.note_settled(second, t);
        Ok(())
    }

    /// The distance of two pointers to elements of `size` bytes (6.5.6p9).
    pub fn diff(
        &mut self,
        a: u64,
        ap: Prov,
        b: u64,
        bp: Prov,
        size: u64,
        t: &mut Touched,
    ) -> Result<i128, Clause>
        ensures exact { IsMade self.old ap → IsMade self.old bp → (io : Io) →
            run self.new.rows (acts.diff a ap b bp size) (store_of self.old io) ≡ act_of (done_result result) t.new (store_of self.new io) }
        ensures value { IfOk result (λ n. n ≡ pos (a / size) -ℤ pos (b / size)) }
        ensures same { OnErr result (self.new ≡ self.old) }
        ensures rest { record self.new { cells = [] } ≡ record self.old { cells = [] } }
        ensures cells { (e : Event) → has_cell self.new.cells e ≡ has_cell self.old.cells e }
        ensures made { (p : Prov) → IsMade self.old p → IsMade self.new p }
        ensures sound { IsSound self.old → IsSound self.new }
        ensures kept { Keeps self.old self.new }
    {
        t.clear();
        if !is_multiple(size, a, b) {
            return Err(Clause::PointerDifference);
        }
        self.settle_common(ap, bp, Clause::PointerDifference, t)?;
        Ok(i128::from(a / size) - i128::from(b / size))
    }

    /// The order of two pointers (6.5.8p5).
    pub fn less(
        &mut self,
        a: u64,
        ap: Prov,
        b: u64,
        bp: Prov,
        t: &mut Touched,
    ) -> Result<Ordering, Clause>
        ensures exact { IsMade self.old ap → IsMade self.old bp → (io : Io) →
            run self.new.rows (acts.less ap bp) (store_of self.old io) ≡ act_of (done_result result) t.new (store_of self.new io) }
        ensures value { IfOk result (λ order. order ≡ nat_cmp a b) }
        ensures same { OnErr result (self.new ≡ self.old) }
        ensures rest { record self.new { cells = [] } ≡ record self.old { cells = [] } }
        ensures cells { (e : Event) → has_cell self.new.cells e ≡ has_cell self.old.cells e }
        ensures made { (p : Prov) → IsMade self.old p → IsMade self.new p }
        ensures sound { IsSound self.old → IsSound self.new }
        ensures kept { Keeps self.old self.new }
    {
        t.clear();
        self.settle_common(ap, bp, Clause::PointerComparison, t)?;
        Ok(a.cmp(&b))
    }

    /// What an integer that is cast to a pointer points to: 0 gives null, another number the exposed live objects that contain
    /// it and that have it one past.
    pub fn from_int(&mut self, who: Event, addr: u64, t: &mut Touched) -> Result<Prov, NoMemory>
        ensures exact { IfOk result (λ prov. AreKnown self.old → (io : Io) →
            run self.new.rows (acts.from_int who addr) (store_of self.old io) ≡ Done prov t.new (store_of self.new io)) }
        ensures value { IfOk result (λ prov. IsMade self.new prov) }
        ensures more { HasMore self.old self.new }
        ensures made { (p : Prov) → IsMade self.old p → IsMade self.new p }
        ensures sound { IsSound self.old → IsSound self.new }
        ensures kept { Keeps self.old self.new }
    {
        t.clear();
        self.look_up(who, addr, t)
    }

    pub(super) fn look_up(
        &mut self,
        who: Event,
        addr: u64,
        t: &mut Touched,
    ) -> Result<Prov, NoMemory>
        ensures exact { IfOk result (λ prov. (io : Io) → run self.old.rows (acts.from_int who addr) (store_of self.old io) ≡ Done prov (look_up_items addr)
            (store_of self.old io)) }
        ensures items { OnOk result (length t.old < 32 → t.new ≡ t.old ++ look_up_items addr) }
        ensures value { IfOk result (λ prov. IsMade self.new prov) }
        ensures more { HasMore self.old self.new }
        ensures sound { IsSound self.old → IsSound self.new }
        ensures kept { Keeps self.old self.new }
    {
        if addr == 0 {
            return Ok(Prov::Empty);
        }
        let (inside, past) = self.map.covering(addr);
        let prov = exposure::choose(self.found(inside), self.found(past), who);
        self.make(prov)?;
        t.note(Item::Lookup(addr));
        Ok(prov)
    }

    // The object where it is exposed and live.
    fn found(&self, name: Option<ObjName>) -> Option<ObjName>
        ensures { (io : Io) → result ≡ findable (store_of self.now io) name }
    {
        match name {
            None => None,
            Some(name) => {
                if self.can_find(name) {
                    Some(name)
                } else {
                    None
                }
            }
        }
    }

    // Whether the object is exposed and live.
    fn can_find(&self, name: ObjName) -> bool
        ensures { (io : Io) → result ≡ can_find (store_of self.now io) name }
    {
        match self.seek(name) {
            None => false,
            Some(object) => object.state().exposed && object.state().live,
        }
    }

    // Makes the number and the cell of an ambiguity, where they are missing.
    fn make(&mut self, prov: Prov) -> Result<(), NoMemory>
        ensures more { HasMore self.old self.new }
        ensures made { AreCreated self.old prov → OnOk result (IsMade self.new prov) }
        ensures each { (m : Kept) → IsMade m prov → AllMade m self.old.origins → AllMade m self.new.origins }
        ensures err { OnErr result (self.new.origins ≡ self.old.origins) }
    {
        match prov {
            Prov::Empty => Ok(()),
            Prov::Whole(_) => Ok(()),
            Prov::Either { id, past, start } => self.make_ambiguity(id, past, start),
        }
    }

    fn make_ambiguity(&mut self, id: Event, past: ObjName, start: ObjName) -> Result<(), NoMemory>
        ensures more { HasMore self.old self.new }
        ensures made { AreCreated self.old (Either id past start) → OnOk result (IsMade self.new (Either id past start)) }
        ensures each { (m : Kept) → IsMade m (Either id past start) → AllMade m self.old.origins → AllMade m self.new.origins }
        ensures err { OnErr result (self.new.origins ≡ self.old.origins) }
    {
        self.narrowed.make(id)?;
        self.origins.add_ambiguity(id, past, start)
    }
}

// The objects that both may have been made from.
fn common_of(a: Prov, b: Prov) -> Common
    ensures { result ≡ common_in (in_common (candidates a) (candidates b)) }
{
    match a {
        Prov::Empty => Common::None,
        Prov::Whole(x) => one_of(x, is_among(x, b)),
        Prov::Either { past, start, .. } => {
            two_of(past, start, is_among(past, b), is_among(start, b))
        }
    }
}

fn one_of(x: ObjName, is_common: bool) -> Common
    ensures { result ≡ common_in (if is_common then x ∷ [] else []) }
{
    if is_common {
        Common::One(x)
    } else {
        Common::None
    }
}

fn two_of(past: ObjName, start: ObjName, first: bool, second: bool) -> Common
    ensures { result ≡ common_in (if first then past ∷ (if second then start ∷ [] else []) else (if second then start ∷ [] else [])) }
{
    match (first, second) {
        (true, true) => Common::Two,
        (true, false) => Common::One(past),
        (false, true) => Common::One(start),
        (false, false) => Common::None,
    }
}

// Whether the pointer may have been made from the object.
fn is_among(x: ObjName, prov: Prov) -> bool
    ensures { result ≡ is_among x (candidates prov) }
{
    match prov {
        Prov::Empty => false,
        Prov::Whole(y) => is_same(x, y),
        Prov::Either { past, start, .. } => is_same(x, past) || is_same(x, start),
    }
}

fn is_same(x: ObjName, y: ObjName) -> bool
    ensures { result ≡ same_object x y }
{
    x == y
}

// Whether the distance is a multiple of the size.
fn is_multiple(size: u64, a: u64, b: u64) -> bool
    ensures test { result ≡ acts.is_multiple size a b }
    ensures some { result ≡ true → 0 < size }
{
    size != 0 && a % size == b % size
}

// Whether the address lies in the place of an object that isn't created yet, or one past it, once it has moved.
fn row_is_near(row: Option<Row>, addr: u64, by: i128) -> bool
    ensures { result ≡ in_bounds row (pos addr +ℤ by) }
{
    match row {
        None => false,
        Some(row) => is_within(row.base, row.size, addr, by),
    }
}

// The address once it has moved.
fn moved(addr: u64, by: i128) -> u64
    requires { IsAddress (pos addr +ℤ by) }
    ensures { pos result ≡ pos addr +ℤ by }
{
    (i128::from(addr) + by) as u64
}
