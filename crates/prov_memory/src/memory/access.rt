// The checks of an access.
ghost use Rattle.std.specs.Prelude.{◌≡◌, ◌<◌, ◌++◌, ◌∷◌, [], IfOk, IfErr};
ghost use Rattle.ub_base.specs.declared.names.Item.TheVariants.{Alive};
ghost use Rattle.addr_map.specs.Rows.{row_of};
ghost use Rattle.exposure.specs.Cells.{kept_in, has_cell, is_other};
ghost use Rattle.mem_spec.specs.Acts as acts;
ghost use Rattle.mem_spec.specs.Acts.{in_row};
ghost use Rattle.mem_spec.specs.Store.{Store};
ghost use Rattle.mem_spec.specs.Script.{run, Done, Raised};
ghost use Rattle.mem_spec.specs.Streams.{Io};
ghost use Rattle.mem_objects.specs.Held.{held_of};
ghost use Rattle.mem_objects.specs.Keeps.{Keeps};
ghost use Rattle.mem_objects.specs.Memory.{Kept, store_of, life_in};
ghost use Rattle.mem_objects.specs.Made.{CanSettle, after_settling, settling_items};
ghost use Rattle.mem_objects.specs.Access.{IsReached, IsReachedBy, CanSettleOf, reached, access_in, chosen_of, checked_offset};

use super::*;
use addr_map::Row;
use mem_objects::Accessed;
use ub_base::Clause;

impl Memory {
    // Whether the range lies in the object.
    pub(super) fn has_range(&self, name: ObjName, addr: u64, len: u64) -> bool
        ensures { result ≡ in_row (row_of self.now.rows name) addr len }
    {
        match self.seek(name) {
            None => row_has_range(self.map.row(name), addr, len),
            Some(object) => object.has_range(addr, len),
        }
    }

    // Whether the ambiguity was settled to another object.
    pub(super) fn is_lost(&self, id: Event, keep: ObjName) -> bool
        ensures { result ≡ is_other (kept_in self.now.cells id) keep }
    {
        match self.narrowed.kept(id) {
            None => false,
            Some(kept) => kept != keep,
        }
    }

    // The object of an access, and what it settles: the candidate that contains the range.
    fn target(
        &self,
        addr: u64,
        prov: Prov,
        len: u64,
    ) -> Result<(ObjName, Option<(Event, ObjName)>), Clause>
        ensures found { IfOk result (λ p. (io : Io) → run self.now.rows (acts.object_of self.now.rows len addr prov) (store_of self.now io) ≡ Done p.0
            (settling_items p.1) (after_settling p.1 (store_of self.now io))) }
        ensures raises { IfErr result (λ c. (io : Io) → run self.now.rows (acts.object_of self.now.rows len addr prov) (store_of self.now io) ≡ Raised c) }
        ensures settles { IfOk result (λ p. CanSettleOf self.now prov p.1) }
    {
        match prov {
            Prov::Empty => Err(Clause::InvalidPointer),
            Prov::Whole(name) => Ok((name, None)),
            Prov::Either { id, past, start } => {
                if self.has_range(past, addr, len) {
                    self.chosen(id, past)
                } else if self.has_range(start, addr, len) {
                    self.chosen(id, start)
                } else {
                    Err(Clause::OutOfBounds)
                }
            }
        }
    }

    // The candidate, which the ambiguity is settled to, where it isn't settled to the other.
    fn chosen(
        &self,
        id: Event,
        keep: ObjName,
    ) -> Result<(ObjName, Option<(Event, ObjName)>), Clause>
        ensures { result ≡ chosen_of (is_other (kept_in self.now.cells id) keep) id keep }
    {
        if self.is_lost(id, keep) {
            Err(Clause::OutOfBounds)
        } else {
            Ok((keep, Some((id, keep))))
        }
    }

    /// The checks of an access up to its alignment, in their order, without a change of the memory.
    #[inline(always)]
    pub(super) fn access(
        &mut self,
        len: u64,
        align: u64,
        addr: u64,
        prov: Prov,
        t: &mut Touched,
    ) -> Result<Accessed, Clause>
        ensures same { self.new ≡ self.old }
        ensures found { IfOk result (λ found. IsReached self.old.objects found len) }
        ensures settles { IfOk result (λ found. CanSettleOf self.old prov found.settles) }
        ensures items { IfOk result (λ found. t.old ≡ [] → t.new ≡ settling_items found.settles ++ Alive found.name ∷ []) }
        ensures exact { IfOk result (λ found. (io : Io) → run self.old.rows (acts.access self.old.rows len align addr prov) (store_of self.old io) ≡ Done
            (reached self.old.objects found) (settling_items found.settles ++ Alive found.name ∷ []) (after_settling found.settles (store_of self.old io))) }
        ensures raises { IfErr result (λ c. (io : Io) → run self.old.rows (acts.access self.old.rows len align addr prov) (store_of self.old io) ≡ Raised c) }
    {
        if addr == 0 {
            return Err(Clause::InvalidPointer);
        }
        let Prov::Whole(name) = prov else {
            return self.access_settling(len, align, addr, prov, t);
        };
        t.note(Item::Alive(name));
        self.reach(name, None, len, align, addr)
    }

    // The checks of an access by any pointer other than null. Not inlined, since few pointers are ambiguous.
    #[inline(never)]
    fn access_settling(
        &mut self,
        len: u64,
        align: u64,
        addr: u64,
        prov: Prov,
        t: &mut Touched,
    ) -> Result<Accessed, Clause>
        requires { 0 < addr }
        ensures same { self.new ≡ self.old }
        ensures found { IfOk result (λ found. IsReached self.old.objects found len) }
        ensures settles { IfOk result (λ found. CanSettleOf self.old prov found.settles) }
        ensures items { IfOk result (λ found. t.old ≡ [] → t.new ≡ settling_items found.settles ++ Alive found.name ∷ []) }
        ensures exact { IfOk result (λ found. (io : Io) → run self.old.rows (acts.access self.old.rows len align addr prov) (store_of self.old io) ≡ Done
            (reached self.old.objects found) (settling_items found.settles ++ Alive found.name ∷ []) (after_settling found.settles (store_of self.old io))) }
        ensures raises { IfErr result (λ c. (io : Io) → run self.old.rows (acts.access self.old.rows len align addr prov) (store_of self.old io) ≡ Raised c) }
    {
        let target = self.target(addr, prov, len)?;
        note_settles(target.1, t);
        t.note(Item::Alive(target.0));
        self.reach(target.0, target.1, len, align, addr)
    }

    // The checks of an access whose object is known.
    #[inline(always)]
    fn reach(
        &mut self,
        name: ObjName,
        settles: Option<(Event, ObjName)>,
        len: u64,
        align: u64,
        addr: u64,
    ) -> Result<Accessed, Clause>
        ensures same { self.new ≡ self.old }
        ensures found { IfOk result (λ found. IsReachedBy self.old.objects found name settles len) }
        ensures exact { IfOk result (λ found. (s : Store) → s.life name ≡ life_in (held_of self.old.objects name) →
            run self.old.rows (access_in self.old.rows len align addr name) s ≡ Done (reached self.old.objects found) (Alive name ∷ []) s) }
        ensures raises { IfErr result (λ c. (s : Store) → s.life name ≡ life_in (held_of self.old.objects name) →
            run self.old.rows (access_in self.old.rows len align addr name) s ≡ Raised c) }
    {
        let Some(at) = self.find(name) else {
            return Err(Clause::DeadObject);
        };
        let Some(object) = self.objects.get(at) else {
            return Err(Clause::DeadObject);
        };
        let from = offset_of(object, len, align, addr)?;
        Ok(Accessed {
            object: at,
            name,
            from,
            settles,
        })
    }

    /// Settles what an access settles.
    #[inline(always)]
    pub(super) fn settle(&mut self, settles: Option<(Event, ObjName)>)
        ensures rest { record self.new { cells = [] } ≡ record self.old { cells = [] } }
        ensures cells { (e : Event) → has_cell self.new.cells e ≡ has_cell self.old.cells e }
        ensures store { CanSettle self.old.cells settles → (m : Kept) → m.cells ≡ self.old.cells → (io : Io) →
            store_of (record m { cells = self.new.cells }) io ≡ after_settling settles (store_of m io) }
        ensures kept { Keeps self.old self.new }
    {
        if let Some((id, keep)) = settles {
            let _ = self.narrowed.narrow(id, keep);
        }
    }
}

/// Notes what an access settles.
fn note_settles(settles: Option<(Event, ObjName)>, t: &mut Touched)
    ensures { t.old ≡ [] → t.new ≡ settling_items settles }
{
    if let Some((id, keep)) = settles {
        t.note(Item::Narrow { id, keep });
    }
}

/// Where an access falls in its object, by the checks that the object decides.
#[inline(always)]
fn offset_of(object: &Object, len: u64, align: u64, addr: u64) -> Result<u64, Clause>
    ensures { result ≡ checked_offset object.now len align addr }
{
    if !object.state().live {
        return Err(Clause::DeadObject);
    }
    if !object.has_range(addr, len) {
        return Err(Clause::OutOfBounds);
    }
    if !is_aligned(align, addr) {
        return Err(Clause::InvalidPointer);
    }
    Ok(addr - object.base())
}

/// Aligned, where there is an alignment.
fn is_aligned(align: u64, addr: u64) -> bool
    ensures { result ≡ acts.is_aligned align addr }
{
    align == 0 || addr % align == 0
}

// Whether the range lies in the place of an object that isn't created yet.
fn row_has_range(row: Option<Row>, addr: u64, len: u64) -> bool
    ensures { result ≡ in_row row addr len }
{
    match row {
        None => false,
        Some(row) => row.base <= addr && len <= row.size && addr - row.base <= row.size - len,
    }
}
