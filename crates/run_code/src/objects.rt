// The blocks of a function with their objects.
ghost use Rattle.std.specs.Prelude.{◌≡◌, ◌+◌, ◌∷◌, [], ℕ, map, max, length, IfOk, OnOk};
ghost use Rattle.run_objects.specs.Extents.{extent_of};
ghost use Rattle.run_layout.specs.Blocks.{access_by, entry_rows, rows_of, rows_of_block, start_rows, AddsObject, AddsObjects, AddsBlocks};
ghost use Rattle.run_layout.specs.InRange.{IsRange};
ghost use Rattle.run_layout.specs.EventActs.{AreGrown};
ghost use Rattle.run_layout.specs.Fitting.{AccessFits, AreFit};
ghost use Rattle.c_types.specs.Types.{type_of, qualified_of};
ghost use Rattle.c_typed.specs.Sites.{BlockRow};
ghost use Rattle.c_typed.specs.declared.statement.Block.{out-Block};
ghost use Rattle.c_typed.specs.declared.program.Program.{Program as ProgramOf};

use crate::draft::Draft;
use c_typed::{Access, Block, Body, Entry, ForStart};
use c_types::{IntKind, Qual, Tags, Ty};
use run_layout::{BlockCode, ObjectCode, Range, StoreCode, next_number, number_with, range_from};
use run_objects::{counted, extent, is_constant, shape_of, total};
use ub_base::NoMemory;

// How a value of a complete type lies in memory.
fn access_of(tags: &Tags, ty: &Ty) -> Access
    ensures fits { AccessFits result (type_of ty.now) }
    ensures exact { result ≡ access_by tags.now (type_of ty.now) }
{
    match ty {
        Ty::Int(kind) => Access::Integer(*kind),
        Ty::Enum(_) => Access::Integer(IntKind::Int),
        Ty::Pointer(target) => match target.get().ty {
            Ty::Function(_) => Access::Function,
            _ => Access::Pointer,
        },
        _ => {
            let extent = extent(tags, ty);
            Access::Whole {
                size: extent.size,
                align: extent.align,
            }
        }
    }
}

impl<'p> Draft<'p> {
    // Gives how many bytes it counts.
    fn object(&mut self, tags: &Tags, qual: &'p Qual) -> Result<u64, NoMemory>
        ensures grown { OnOk result (AreGrown self.old.expressions.tables self.new.expressions.tables) }
        ensures kept { OnOk result (self.new.expressions.laid ≡ self.old.expressions.laid) }
        ensures fit { (p : ProgramOf) → AreFit p self.old.expressions.tables → OnOk result (AreFit p self.new.expressions.tables) }
        ensures function { self.new.function ≡ self.old.function }
        ensures blocks { self.new.expressions.tables.blocks.items ≡ self.old.expressions.tables.blocks.items }
        ensures added { OnOk result (AddsObject tags.now (qualified_of qual.now) self.old.expressions.tables self.new.expressions.tables) }
        ensures counted { IfOk result (λ n. n ≡ max (extent_of tags.now (qualified_of qual.now).ty).size 16) }
    {
        let extent = extent(tags, &qual.ty);
        let shape = shape_of(self.alloc, tags, &qual.ty)?;
        let store = self.expressions.add_store(StoreCode {
            access: access_of(tags, &qual.ty),
            initializing: true,
            ty: &qual.ty,
        })?;
        self.expressions.add_object(ObjectCode {
            size: extent.size,
            align: extent.align,
            constant: is_constant(qual),
            shape,
            store,
        })?;
        Ok(counted(extent.size))
    }

    // The objects of a block, and the bytes that they count.
    fn objects_of(&mut self, tags: &Tags, block: &'p Block) -> Result<(Range, u64), NoMemory>
        ensures within { IfOk result (λ r. IsRange (length self.new.expressions.tables.objects.items) r.0) }
        ensures kept { OnOk result (self.new.expressions.laid ≡ self.old.expressions.laid) }
        ensures fit { (p : ProgramOf) → AreFit p self.old.expressions.tables → OnOk result (AreFit p self.new.expressions.tables) }
        ensures function { OnOk result (self.new.function ≡ self.old.function) }
        ensures blocks { OnOk result (self.new.expressions.tables.blocks.items ≡ self.old.expressions.tables.blocks.items) }
        ensures added { IfOk result (λ r. AddsObjects tags.now
            (map qualified_of (out-Block block.now).objects) self.old.expressions.tables self.new.expressions.tables r.0 r.1) }
    {
        let first = next_number(&self.expressions.tables.objects)?;
        let mut created = 0;
        for qual in block.objects.as_slice() {
            created = total(created, self.object(tags, qual)?);
        }
        let objects = range_from(&self.expressions.tables.objects, first)?;
        Ok((objects, created))
    }

    // A block of the function; `arguments` of its objects take arguments.
    fn add_block(&mut self, tags: &Tags, block: &'p Block, arguments: u32) -> Result<(), NoMemory>
        ensures kept { OnOk result (self.new.expressions.laid ≡ self.old.expressions.laid) }
        ensures fit { (p : ProgramOf) → AreFit p self.old.expressions.tables → OnOk result (AreFit p self.new.expressions.tables) }
        ensures block { (row : BlockRow) → row.objects ≡ map qualified_of (out-Block block.now).objects
            → OnOk result
            (AddsBlocks tags.now arguments (row ∷ []) self.old.expressions.tables self.old.function self.new.expressions.tables self.new.function) }
    {
        let (objects, created) = self.objects_of(tags, block)?;
        let number = self.function.count;
        self.function.count = number_with(number, objects.count)?;
        self.function.objects.first.push(number)?;
        self.expressions.add_block(BlockCode {
            objects,
            first: number,
            arguments,
            created,
        })
    }

    // The blocks in a statement.
    #[cycle(survey)]
    pub fn survey(&mut self, tags: &Tags, body: &'p Body) -> Result<(), NoMemory>
        ensures kept { OnOk result (self.new.expressions.laid ≡ self.old.expressions.laid) }
        ensures fit { (p : ProgramOf) → AreFit p self.old.expressions.tables → OnOk result (AreFit p self.new.expressions.tables) }
        ensures blocks { OnOk result (AddsBlocks tags.now 0
            (rows_of body.now) self.old.expressions.tables self.old.function self.new.expressions.tables self.new.function) }
    {
        match body {
            Body::Block(inner) => self.survey_block(tags, inner, 0),
            Body::If(_, yes, no) => {
                self.survey(tags, yes.get())?;
                match no {
                    Some(no) => self.survey(tags, no.get()),
                    None => Ok(()),
                }
            }
            Body::Switch(_, inner)
            | Body::While(_, inner)
            | Body::Do(inner, _)
            | Body::Label(_, inner)
            | Body::Case(_, inner)
            | Body::Default(inner) => self.survey(tags, inner.get()),
            Body::For {
                start,
                test: _,
                step: _,
                body,
            } => {
                self.survey_start(tags, start)?;
                self.survey(tags, body.get())
            }
            Body::Simple(_) | Body::Goto(_) | Body::Continue | Body::Break | Body::Return(_) => Ok(
                (),
            ),
        }
    }

    // The block that the first part of a `for` is, where it declares.
    #[cycle(survey)]
    fn survey_start(&mut self, tags: &Tags, start: &'p ForStart) -> Result<(), NoMemory>
        ensures kept { OnOk result (self.new.expressions.laid ≡ self.old.expressions.laid) }
        ensures fit { (p : ProgramOf) → AreFit p self.old.expressions.tables → OnOk result (AreFit p self.new.expressions.tables) }
        ensures blocks { OnOk result (AddsBlocks tags.now 0
            (start_rows start.now) self.old.expressions.tables self.old.function self.new.expressions.tables self.new.function) }
    {
        match start {
            ForStart::Declared(block) => self.survey_block(tags, block, 0),
            ForStart::Empty | ForStart::Value(_) => Ok(()),
        }
    }

    // The blocks in an entry of a block.
    #[cycle(survey)]
    fn survey_entry(&mut self, tags: &Tags, entry: &'p Entry) -> Result<(), NoMemory>
        ensures kept { OnOk result (self.new.expressions.laid ≡ self.old.expressions.laid) }
        ensures fit { (p : ProgramOf) → AreFit p self.old.expressions.tables → OnOk result (AreFit p self.new.expressions.tables) }
        ensures blocks { OnOk result (AddsBlocks tags.now 0
            (entry_rows entry.now) self.old.expressions.tables self.old.function self.new.expressions.tables self.new.function) }
    {
        match entry {
            Entry::Statement(body) => self.survey(tags, body),
            Entry::Initializer(_) | Entry::Declare(_) => Ok(()),
        }
    }

    #[cycle(survey)]
    pub fn survey_block(
        &mut self,
        tags: &Tags,
        block: &'p Block,
        arguments: u32,
    ) -> Result<(), NoMemory>
        ensures kept { OnOk result (self.new.expressions.laid ≡ self.old.expressions.laid) }
        ensures fit { (p : ProgramOf) → AreFit p self.old.expressions.tables → OnOk result (AreFit p self.new.expressions.tables) }
        ensures blocks { OnOk result (AddsBlocks tags.now arguments
            (rows_of_block block.now) self.old.expressions.tables self.old.function self.new.expressions.tables self.new.function) }
    {
        self.add_block(tags, block, arguments)?;
        for entry in block.entries.as_slice() {
            self.survey_entry(tags, entry)?;
        }
        Ok(())
    }
}
