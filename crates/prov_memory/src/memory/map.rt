// Birth and death of objects.
ghost use Rattle.std.specs.Prelude.{◌≡◌, ◌+◌, ◌<◌, ◌≤◌, ◌^◌, ◌∷◌, ◌++◌, [], Some, None, Err, true, false, List, length, map, min, max, option_map, IfOk, OnOk};
ghost use Rattle.std.specs.Prelude.{OnErr};
ghost use Rattle.addr_map.specs.Rows.{row_of, row_at};
ghost use Rattle.ub_base.specs.declared.names.Item.TheVariants.{Expose, Born};
ghost use Rattle.mem_objects.specs.declared.answer.CreateFault.TheVariants.{Unplaced};
ghost use Rattle.c_types.specs.Shapes.{form_of};
ghost use Rattle.exposure.specs.declared.prov.Prov.{Prov};
ghost use Rattle.exposure.specs.declared.prov.Prov.TheVariants.{Whole};
ghost use Rattle.mem_spec.specs.Acts as acts;
ghost use Rattle.mem_spec.specs.Acts.{candidates};
ghost use Rattle.mem_spec.specs.Script.{run, Done};
ghost use Rattle.mem_spec.specs.Streams.{Io};
ghost use Rattle.ub_base.specs.declared.names.ObjName.{ObjName};
ghost use Rattle.mem_objects.specs.Held.{changed, uncovered, held_of};
ghost use Rattle.mem_objects.specs.Made.{AreNamed, IsMade};
ghost use Rattle.mem_objects.specs.Keeps.{Keeps, MayHaveRow};
ghost use Rattle.mem_objects.specs.Sound.{IsSound};
ghost use Rattle.mem_objects.specs.Room.{IsClose, CanPlace};
ghost use Rattle.mem_objects.specs.Memory.{store_of, uncovered_each, AreKnown, IsBorn, cannot_create, no_place, base_by, rows_with};

use super::*;

impl Memory {
    /// Creates an object: live, unexposed, unwritten and untagged, with the shape of its declared type, if any. Unplaced where
    /// it isn't placed and the map has no row of that name, size and alignment, where it can't be placed, and where the name
    /// was created before; the memory is then unchanged. After want of memory the row may be there; the memory then counts as full.
    pub fn create(
        &mut self,
        name: ObjName,
        size: u64,
        align: u64,
        kind: ObjKind,
        declared: Option<Rc<Shape>>,
        t: &mut Touched,
    ) -> Result<u64, CreateFault>
        ensures born { IfOk result (λ base. IsBorn self.old self.new name base size align kind (option_map (λ shape. shape.value) declared)) }
        ensures exact { IfOk result (λ base. AreKnown self.old → (io : Io) → run self.new.rows
            (acts.create self.new.rows name size align kind (option_map (λ shape. form_of shape.value) declared)) (store_of self.old io) ≡ Done base t.new
            (store_of self.new io)) }
        ensures known { AreKnown self.old → OnOk result (AreKnown self.new) }
        ensures named { AreNamed self.old → OnOk result (AreNamed self.new) }
        ensures made { (p : Prov) → IsMade self.old p → IsMade self.new p }
        ensures whole { OnOk result (IsMade self.new (Whole name)) }
        ensures sound { IsSound self.old → IsSound self.new }
        ensures created { OnOk result (self.new.created ≡ min (self.old.created + max size 16) (2 ^ 62)) }
        ensures base { IfOk result (λ base. base ≡ base_by (row_of self.old.rows name) self.old.mode self.old.rows align) }
        ensures rows { IfOk result (λ base. self.new.rows ≡ rows_with (row_of self.old.rows name) (row_at name base size align) self.old.rows) }
        ensures able { OnOk result (cannot_create self.old name size align ≡ false) }
        ensures unplaced { result ≡ Err Unplaced → cannot_create self.old name size align ≡ true }
        ensures same { result ≡ Err Unplaced → self.new ≡ self.old }
        ensures end { IfOk result (λ base. base + size ≤ 2 ^ 47) }
        ensures failed { OnErr result (MayHaveRow self.old self.new name size align) }
        ensures mode { self.new.mode ≡ self.old.mode }
        ensures room { IsClose self.old → CanPlace self.old name size align → result ≡ Err Unplaced → ⊥ }
        ensures kept { (kind.heap ≡ true → option_map (λ shape. form_of shape.value) declared ≡ None) → Keeps self.old self.new }
    {
        self.bear(name, size, align, kind, declared, t)
    }

    fn bear(
        &mut self,
        name: ObjName,
        size: u64,
        align: u64,
        kind: ObjKind,
        declared: Option<Rc<Shape>>,
        t: &mut Touched,
    ) -> Result<u64, CreateFault>
        ensures born { IfOk result (λ base. IsBorn self.old self.new name base size align kind (option_map (λ shape. shape.value) declared)) }
        ensures named { AreNamed self.old → OnOk result (AreNamed self.new) }
        ensures items { OnOk result (t.new ≡ Born name ∷ []) }
        ensures base { IfOk result (λ base. base ≡ base_by (row_of self.old.rows name) self.old.mode self.old.rows align) }
        ensures rows { IfOk result (λ base. self.new.rows ≡ rows_with (row_of self.old.rows name) (row_at name base size align) self.old.rows) }
        ensures able { OnOk result (cannot_create self.old name size align ≡ false) }
        ensures unplaced { result ≡ Err Unplaced → cannot_create self.old name size align ≡ true }
        ensures same { result ≡ Err Unplaced → self.new ≡ self.old }
        ensures end { IfOk result (λ base. base + size ≤ 2 ^ 47) }
        ensures failed { OnErr result (MayHaveRow self.old self.new name size align) }
        ensures mode { self.new.mode ≡ self.old.mode }
        ensures kept { OnErr result (Keeps self.old self.new) }
    {
        t.clear();
        if self.seek(name).is_some() {
            return Err(CreateFault::Unplaced);
        }
        let Ok(room) = usize::try_from(size) else {
            return Err(CreateFault::NoMemory);
        };
        let cells = Vec::with_capacity(self.alloc, room).map_err(NoMemory::from)?;
        let base = self.base_for(name, size, align)?;
        // full until the object is there
        let created = self.created;
        self.created = MOST;
        let origin = self.origins.add_object(name)?;
        let object = Object::new(name, base, size, kind, declared, origin, cells);
        add_last(&mut self.objects, &mut self.origins, object)?;
        self.created = counted(created, size);
        t.note(Item::Born(name));
        Ok(base)
    }

    // The base of a new object, whose row is then there; until the object is there, the memory keeps what it keeps where it counts as full.
    fn base_for(&mut self, name: ObjName, size: u64, align: u64) -> Result<u64, CreateFault>
        ensures rest { record self.new { rows = [] } ≡ record self.old { rows = [] } }
        ensures row { IfOk result (λ base. row_of self.new.rows name ≡ Some (row_at name base size align)) }
        ensures end { IfOk result (λ base. base + size ≤ 2 ^ 47) }
        ensures err { OnErr result (self.new ≡ self.old) }
        ensures base { IfOk result (λ base. base ≡ base_by (row_of self.old.rows name) self.old.mode self.old.rows align) }
        ensures rows { IfOk result (λ base. self.new.rows ≡ rows_with (row_of self.old.rows name) (row_at name base size align) self.old.rows) }
        ensures able { OnOk result (no_place self.old (row_of self.old.rows name) self.old.mode size align ≡ false) }
        ensures unplaced { result ≡ Err Unplaced → no_place self.old (row_of self.old.rows name) self.old.mode size align ≡ true }
        ensures kept { OnOk result (Keeps self.old (record self.new { created = 2 ^ 62 })) }
    {
        if let Some(row) = self.map.row(name) {
            if row.size == size && row.align == align {
                return Ok(row.base);
            }
            return Err(CreateFault::Unplaced);
        }
        let Some(mode) = self.mode else {
            return Err(CreateFault::Unplaced);
        };
        if size == 0 || !addr_map::is_alignment(align) || !self.map.fits(size) {
            return Err(CreateFault::Unplaced);
        }
        Ok(self.map.place(mode, name, size, align)?)
    }

    /// The object dies, where it was created. Its bytes count as unwritten from now on.
    pub fn kill(&mut self, name: ObjName, t: &mut Touched)
        ensures known { AreKnown self.old → AreKnown self.new }
        ensures named { AreNamed self.old → AreNamed self.new }
        ensures made { (p : Prov) → IsMade self.old p → IsMade self.new p }
        ensures sound { IsSound self.old → IsSound self.new }
        ensures kept { Keeps self.old self.new }
        ensures rows { self.new.rows ≡ self.old.rows }
        ensures rest { record self.new { objects = [] } ≡ record self.old { objects = [] } }
        ensures exact { (io : Io) → run self.new.rows (acts.kill name) (store_of self.old io) ≡ Done tt t.new (store_of self.new io) }
    {
        t.clear();
        t.note(Item::Dies(name));
        self.objects.kill(name, self.alloc);
    }

    /// Makes all bytes of the object unwritten, where it was created.
    pub fn unwrite(&mut self, name: ObjName, t: &mut Touched)
        ensures known { AreKnown self.old → AreKnown self.new }
        ensures named { AreNamed self.old → AreNamed self.new }
        ensures made { (p : Prov) → IsMade self.old p → IsMade self.new p }
        ensures sound { IsSound self.old → IsSound self.new }
        ensures kept { Keeps self.old self.new }
        ensures rest { record self.new { objects = [] } ≡ record self.old { objects = [] } }
        ensures exact { (io : Io) → run self.new.rows (acts.unwrite self.new.rows name) (store_of self.old io) ≡ Done tt t.new (store_of self.new io) }
    {
        t.clear();
        t.note(Item::Alive(name));
        let Some(object) = self.objects.seek(name) else {
            return;
        };
        let len = object.size();
        self.objects.unwrite(name);
        t.note(Item::Write {
            object: name,
            from: 0,
            len,
        });
    }

    // The object becomes exposed.
    fn show(&mut self, name: ObjName, t: &mut Touched)
        ensures shown { self.new ≡ record self.old { objects = changed uncovered name self.old.objects } }
        ensures items { length t.old < 32 → t.new ≡ t.old ++ Expose name ∷ [] }
    {
        t.note(Item::Expose(name));
        self.objects.expose(name);
    }

    /// Exposes each object of the provenance.
    pub fn expose(&mut self, prov: Prov, t: &mut Touched)
        ensures known { AreKnown self.old → AreKnown self.new }
        ensures named { AreNamed self.old → AreNamed self.new }
        ensures made { (p : Prov) → IsMade self.old p → IsMade self.new p }
        ensures sound { IsSound self.old → IsSound self.new }
        ensures kept { Keeps self.old self.new }
        ensures rest { record self.new { objects = [] } ≡ record self.old { objects = [] } }
        ensures exact { (io : Io) → run self.new.rows (acts.expose prov) (store_of self.old io) ≡ Done tt t.new (store_of self.new io) }
    {
        t.clear();
        self.show_each(prov, t);
    }

    pub(super) fn show_each(&mut self, prov: Prov, t: &mut Touched)
        ensures shown { self.new ≡ record self.old { objects = uncovered_each (candidates prov) self.old.objects } }
        ensures items { length t.old + 1 < 32 → t.new ≡ t.old ++ map Expose (candidates prov) }
    {
        match prov {
            Prov::Empty => {}
            Prov::Whole(name) => self.show(name, t),
            Prov::Either { past, start, .. } => {
                self.show(past, t);
                self.show(start, t);
            }
        }
    }
}

/// The greatest sum of created bytes.
const MOST: u64 = 1 << 62;

/// The sum of created bytes with one more object.
fn counted(created: u64, size: u64) -> u64
    ensures { result ≡ min (created + max size 16) (2 ^ 62) }
{
    created.saturating_add(size.max(16)).min(MOST)
}

/// Adds an object whose provenance has the last number, which is taken back where memory is wanted.
fn add_last(objects: &mut Objects, origins: &mut Origins, object: Object) -> Result<(), NoMemory>
    requires new { held_of objects.old object.name ≡ None }
    requires last { (ps : List Prov) × (x : ObjName) × (origins.old ≡ ps ++ Whole x ∷ []) }
    ensures ok { OnOk result (objects.new ≡ objects.old ++ object ∷ []) }
    ensures origins { OnOk result (origins.new ≡ origins.old) }
    ensures err { OnErr result (objects.new ≡ objects.old) }
    ensures taken { (ps : List Prov) (x : ObjName) → origins.old ≡ ps ++ Whole x ∷ [] → OnErr result (origins.new ≡ ps) }
{
    match objects.add(object) {
        Ok(()) => Ok(()),
        Err(fault) => {
            origins.drop_object();
            Err(fault)
        }
    }
}
