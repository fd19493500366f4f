// The objects that stand before the first pick: those with static storage, string literals, and the arguments of `main`.
ghost use Rattle.std.specs.Prelude.{◌≡◌, List, pos, ◌+◌, ◌-◌, ◌*◌, ◌%◌, min, max, ◌<◌, ◌≤◌, ◌^◌, ◌++◌, ◌∷◌, [], ℕ, Some, Err, false, length, map, option_map};
ghost use Rattle.std.specs.Prelude.{slice_get, string_bytes, IfOk, OnOk};
ghost use Rattle.std.specs.List.{All};
ghost use Rattle.ub_base.specs.declared.names.ObjName.{ObjName};
ghost use Rattle.ub_base.specs.declared.names.ObjName.TheVariants as names;
ghost use Rattle.exposure.specs.declared.prov.Prov.TheVariants.{Whole};
ghost use Rattle.addr_map.specs.Sound.{Above};
ghost use Rattle.c_typed.specs.Lawful.{IsLawful, ContentIsLawful, StaticIsLawful};
ghost use Rattle.c_types.specs.Shapes.{form_of, leaf, repeat};
ghost use Rattle.c_types.specs.Types.{int, params_of, pointer, qualified_of, signature_of, type_of};
ghost use Rattle.c_types.specs.declared.kind.IntKind.TheVariants.{Char};
ghost use Rattle.mem_spec.specs.Bytes.{number_bytes};
ghost use Rattle.c_model.specs.Nodes.{plain_byte};
ghost use Rattle.c_model.specs.Program.{Standing};
ghost use Rattle.c_model.specs.Runs.{created_after};
ghost use Rattle.c_model.specs.Values.{address_after, pointer_value};
ghost use Rattle.mem_objects.specs.declared.answer.CreateFault.TheVariants.{Unplaced};
ghost use Rattle.mem_objects.specs.declared.value.Value.TheVariants.{Int};
ghost use Rattle.mem_objects.specs.Keeps.{Keeps};
ghost use Rattle.mem_objects.specs.Made.{IsMade};
ghost use Rattle.mem_objects.specs.Memory.{Kept, AreKnown, CellsKnown};
ghost use Rattle.mem_objects.specs.Pieces.{seen};
ghost use Rattle.mem_objects.specs.Sound.{IsSound};
ghost use Rattle.mem_objects.specs.Tags.{CellsTagged};
ghost use Rattle.run_values.specs.Contents.{Stands};
ghost use Rattle.run_values.specs.Kept.{IsOf};
ghost use Rattle.run_standing.specs.Outcomes.{CannotHold, CannotStand, FirstArgument, FirstLiteral, HasNoPlace, IsFilled, IsNew, IsReady, NoVector, SomeStatic};
ghost use Rattle.run_standing.specs.Outcomes.{Waits, WaitAll};
ghost use Rattle.run_standing.specs.Standing.{AreArguments, AreStatics, ArgumentAdded, IsStatic, AllCreated, AllFilled, StaticFilled, StaticsFilled, literals};
ghost use Rattle.run_standing.specs.Standing.{NamedFilled, program_name, Stand, StartStands, StaticCreated, StaticsCreated, StandsThere};
ghost use Rattle.run_objects.specs.Extents.{extent_of, HasForm};
ghost use Rattle.run_standing.specs.Standing as standing;
ghost use Rattle.run_values.specs.Placed.{AreAll, ArePlaced};
ghost use Rattle.run_standing.specs.Starting.{AreMadeAll, AddsArgument, Creates, EndsLow, Puts};
ghost use Rattle.run_standing.specs.Sums.{argument_sizes, static_sizes, summed};
ghost use Rattle.run_standing.specs.Viewed.{IsGiven};
ghost use Rattle.run_values.specs.Views.{pointer_at, value_in};

use crate::contents::{fillings, written, zeros};
use c_typed::{Program, Static};
use c_types::{Extent, FuncTy, IntKind, Qual, Shape, Shared, Tags, Ty};
use prov_memory::{Block, CreateFault, Memory, ObjKind, Touched, Value, Via};
use run_objects::{counted, extent, is_constant, shape_of, total};
use run_values::{Places, Pointer, pointer_to};
use std::alloc::Global;
use std::rc::Rc;
use ub_base::{Boxed, Bytes, Items, NoMemory, ObjName};

/// What stands before the first pick: where the objects stand, and the arguments of `main`.
#[derive(Drop)]
pub struct Started {
    pub places: Places,
    pub count: Value,
    pub vector: Value,
}

const NAME: &[u8; 4] = b"prog";

/// The bytes that the objects count which stand before the first pick.
pub fn start_bytes(p: &Program, args: &[String]) -> u64
    ensures exact { length args.now + 1 < 2 ^ 32 → (os : List Standing) → Stand p.now (program_name ∷ map string_bytes args.now) os →
        result ≡ created_after 0 (map (λ o. o.decl) os) }
{
    let named = literal_bytes(p, static_bytes(p));
    if takes_arguments(p) {
        let strings = argument_bytes(args, total(named, counted(5)));
        return total(strings, counted(vector_size(args)));
    }
    named
}

fn static_bytes(p: &Program) -> u64
    ensures { result ≡ summed 0 (static_sizes p.now.tags p.now.statics) }
{
    let mut sum = 0;
    for object in p.statics.as_slice() {
        sum = total(sum, counted(extent_of_object(&p.tags, &object.qual).size));
    }
    sum
}

fn literal_bytes(p: &Program, before: u64) -> u64
    ensures { result ≡ summed before (map length p.now.literals) }
{
    let mut sum = before;
    for literal in p.literals.as_slice() {
        sum = total(sum, counted(literal.len() as u64));
    }
    sum
}

fn argument_bytes(args: &[String], before: u64) -> u64
    ensures { result ≡ summed before (argument_sizes (map string_bytes args.now)) }
{
    let mut sum = before;
    for arg in args {
        sum = with_text(sum, arg.as_bytes());
    }
    sum
}

// One string more, with a zero behind it.
fn with_text(sum: u64, text: &[u8]) -> u64
    ensures { result ≡ min (sum + max (length text.now + 1) 16) (2 ^ 62) }
{
    total(sum, counted((text.len() as u64).saturating_add(1)))
}

fn vector_size(args: &[String]) -> u64
    ensures { length args.now < 2 ^ 32 → result ≡ 8 * (length args.now + 2) }
{
    (args.len() as u64).saturating_add(2).saturating_mul(8)
}

fn has_parameters(ty: &FuncTy) -> bool
    ensures { result ≡ standing.has_parameters (signature_of ty.now).params }
{
    are_there(ty.params.as_slice())
}

fn are_there(params: &[Qual]) -> bool
    ensures { result ≡ standing.has_parameters (params_of (map qualified_of params.now)) }
{
    !params.is_empty()
}

// Whether `main` has parameters.
fn takes_arguments(p: &Program) -> bool
    ensures { result ≡ standing.takes_arguments (slice_get p.now.functions p.now.main) }
{
    match p.functions.as_slice().get(p.main as usize) {
        Some(function) => has_parameters(&function.ty),
        None => false,
    }
}

/// Creates the objects with static storage, then the string literals, then the arguments of `main` where it has
/// parameters, and then gives them their bytes, in the same order (5.1.2p1, 6.4.5p6).
pub fn start(
    alloc: Global,
    p: &Program,
    args: &[String],
    m: &mut Memory,
) -> Result<Started, CreateFault>
    ensures kept { IsSound m.old → IsLawful p.now → Keeps m.old m.new }
    ensures placed { IfOk result (λ s. IsSound m.old → IsLawful p.now → ArePlaced m.new p.now s.places) }
    ensures stands { OnOk result (IsSound m.old → IsLawful p.now → length args.now + 1 < 2 ^ 32 →
        StartStands m.old m.new p.now (program_name ∷ map string_bytes args.now)) }
    ensures made { IfOk result (λ s. IsSound m.old → IsLawful p.now → IsOf m.new s.count × IsOf m.new s.vector) }
    ensures given { IfOk result (λ s. IsSound m.old → IsLawful p.now → IsGiven m.new p.now (length args.now + 1) s) }
    ensures unplaced { result ≡ Err Unplaced → IsSound m.old → IsLawful p.now → Above 16777216 m.old.rows → length args.now + 1 < 2 ^ 32 →
        HasNoPlace m.old m.new p.now (program_name ∷ map string_bytes args.now) }
    ensures room { result ≡ Err Unplaced → IsSound m.old → IsLawful p.now → IsNew m.old → Above 16777216 m.old.rows → length args.now + 1 < 2 ^ 32 →
        (os : List Standing) → Stand p.now (program_name ∷ map string_bytes args.now) os → created_after 0 (map (λ o. o.decl) os) ≤ 2 ^ 40 → ⊥ }
{
    let mut t = Touched::new(alloc)?;
    begin(alloc, p, args, m, &mut t)
}

fn begin(
    alloc: Global,
    p: &Program,
    args: &[String],
    m: &mut Memory,
    t: &mut Touched,
) -> Result<Started, CreateFault>
    ensures kept { IsSound m.old → IsLawful p.now → Keeps m.old m.new }
    ensures placed { IfOk result (λ s. IsSound m.old → IsLawful p.now → ArePlaced m.new p.now s.places) }
    ensures stands { OnOk result (IsSound m.old → IsLawful p.now → length args.now + 1 < 2 ^ 32 →
        StartStands m.old m.new p.now (program_name ∷ map string_bytes args.now)) }
    ensures made { IfOk result (λ s. IsSound m.old → IsLawful p.now → IsOf m.new s.count × IsOf m.new s.vector) }
    ensures given { IfOk result (λ s. IsSound m.old → IsLawful p.now → IsGiven m.new p.now (length args.now + 1) s) }
    ensures unplaced { result ≡ Err Unplaced → IsSound m.old → IsLawful p.now → Above 16777216 m.old.rows → length args.now + 1 < 2 ^ 32 →
        HasNoPlace m.old m.new p.now (program_name ∷ map string_bytes args.now) }
{
    let mut places = Places::new(alloc);
    create_statics(alloc, p, &mut places, m, t)?;
    create_literals(alloc, p, &mut places, m, t)?;
    if takes_arguments(p) {
        let arguments = create_arguments(alloc, args, m, t)?;
        let vector = create_vector(alloc, args, m, t)?;
        fill_named(alloc, p, &places, m, t)?;
        fill_arguments(alloc, arguments.as_slice(), m, t)?;
        point(alloc, arguments.as_slice(), vector, m, t)?;
        return Ok(standing(places, string_count(args), vector));
    }
    fill_named(alloc, p, &places, m, t)?;
    Ok(standing(places, 0, Pointer::null()))
}

// How many strings `main` is given, the program's name among them.
fn string_count(args: &[String]) -> i128
    ensures { result ≡ pos (length args.now + 1) }
{
    i128::from(args.len() as u64) + 1
}

fn standing(places: Places, count: i128, vector: Pointer) -> Started
    ensures places { result.places ≡ places }
    ensures count { result.count ≡ Int count }
    ensures vector { (m : Kept) → value_in m result.vector ≡ pointer_value (pointer_at vector) }
{
    Started {
        places,
        count: Value::Int(count),
        vector: vector.value(),
    }
}

fn create_statics(
    alloc: Global,
    p: &Program,
    places: &mut Places,
    m: &mut Memory,
    t: &mut Touched,
) -> Result<(), CreateFault>
    ensures kept { Keeps m.old m.new }
    ensures rest { places.new.literals ≡ places.old.literals }
    ensures exact { OnOk result (IsSound m.old → places.old.objects ≡ [] → length p.now.statics < 2 ^ 32 →
        StaticsCreated m.old m.new p.now.tags p.now.statics) }
    ensures placed { OnOk result (places.old.objects ≡ [] → length p.now.statics < 2 ^ 32 →
        AreAll m.new (λ k. names.Static k) places.new.objects (length p.now.statics)) }
    ensures unplaced { result ≡ Err Unplaced → IsSound m.old → places.old.objects ≡ [] → length p.now.statics < 2 ^ 32 →
        SomeStatic m.old m.new p.now.tags p.now.statics }
{
    for object in p.statics.as_slice() {
        let addr = create_static(alloc, p, object, count_of(&places.objects), m, t)?;
        add(&mut places.objects, addr)?;
    }
    Ok(())
}

fn create_literals(
    alloc: Global,
    p: &Program,
    places: &mut Places,
    m: &mut Memory,
    t: &mut Touched,
) -> Result<(), CreateFault>
    ensures kept { Keeps m.old m.new }
    ensures rest { places.new.objects ≡ places.old.objects }
    ensures exact { OnOk result (IsSound m.old → places.old.literals ≡ [] → length p.now.literals < 2 ^ 32 →
        AllCreated m.old m.new (literals 0 p.now.literals)) }
    ensures placed { OnOk result (places.old.literals ≡ [] → length p.now.literals < 2 ^ 32 →
        AreAll m.new (λ k. names.Lit k) places.new.literals (length p.now.literals)) }
    ensures unplaced { result ≡ Err Unplaced → IsSound m.old → places.old.literals ≡ [] → length p.now.literals < 2 ^ 32 →
        FirstLiteral m.old m.new p.now.literals }
{
    for literal in p.literals.as_slice() {
        let name = ObjName::Lit(count_of(&places.literals));
        let addr = create_text(alloc, name, literal.len() as u64, true, m, t)?;
        add(&mut places.literals, addr)?;
    }
    Ok(())
}

// The objects with static storage, and then the string literals.
fn fill_named(
    alloc: Global,
    p: &Program,
    places: &Places,
    m: &mut Memory,
    t: &mut Touched,
) -> Result<(), CreateFault>
    ensures kept { IsSound m.old → IsLawful p.now → ArePlaced m.old p.now places.now → Keeps m.old m.new }
    ensures room { IsSound m.old → IsLawful p.now → ArePlaced m.old p.now places.now → Above 16777216 m.old.rows → (os : List Standing) →
        AreStatics p.now.tags 0 p.now.statics os → WaitAll m.old (os ++ literals 0 p.now.literals) → IsFilled m.old m.new result }
    ensures exact { OnOk result (IsSound m.old → IsLawful p.now → ArePlaced m.old p.now places.now → NamedFilled m.old m.new p.now) }
{
    fill_statics(alloc, p, places, m, t)?;
    fill_literals(alloc, p, places, m, t)
}

fn fill_statics(
    alloc: Global,
    p: &Program,
    places: &Places,
    m: &mut Memory,
    t: &mut Touched,
) -> Result<(), CreateFault>
    ensures kept { IsSound m.old → IsLawful p.now → ArePlaced m.old p.now places.now → Keeps m.old m.new }
    ensures exact { OnOk result (IsSound m.old → IsLawful p.now → ArePlaced m.old p.now places.now → StaticsFilled m.old m.new p.now.tags p.now.statics) }
    ensures room { IsSound m.old → IsLawful p.now → ArePlaced m.old p.now places.now → Above 16777216 m.old.rows → (os : List Standing) →
        AreStatics p.now.tags 0 p.now.statics os → WaitAll m.old os → IsFilled m.old m.new result }
{
    for (number, object) in p.statics.as_slice().iter().enumerate() {
        fill_static(alloc, p, object, number, places, m, t)?;
    }
    Ok(())
}

fn fill_literals(
    alloc: Global,
    p: &Program,
    places: &Places,
    m: &mut Memory,
    t: &mut Touched,
) -> Result<(), CreateFault>
    ensures exact { OnOk result (AreAll m.old (λ k. names.Lit k) places.now.literals (length p.now.literals) → length p.now.literals < 2 ^ 32 →
        AllFilled m.old m.new (literals 0 p.now.literals)) }
    ensures kept { Keeps m.old m.new }
    ensures room { AreAll m.old (λ k. names.Lit k) places.now.literals (length p.now.literals) → length p.now.literals < 2 ^ 32 → Above 16777216 m.old.rows →
        WaitAll m.old (literals 0 p.now.literals) → IsFilled m.old m.new result }
{
    for (number, literal) in p.literals.as_slice().iter().enumerate() {
        let number = short(number);
        fill_text(alloc, literal.as_slice(), places.literal(number, 0), m, t)?;
    }
    Ok(())
}

// Adds an address to a list.
fn add(addresses: &mut Items<u64>, addr: u64) -> Result<(), NoMemory>
    ensures { OnOk result (addresses.new ≡ addresses.old ++ addr ∷ []) }
{
    addresses.push(addr)?;
    Ok(())
}

fn count_of(items: &Items<u64>) -> u32
    ensures { length items.now < 2 ^ 32 → result ≡ length items.now }
{
    short(items.len())
}

fn short(count: usize) -> u32
    ensures { count < 2 ^ 32 → result ≡ count }
{
    u32::try_from(count).unwrap_or(u32::MAX)
}

fn extent_of_object(tags: &Tags, qual: &Qual) -> Extent
    ensures { result ≡ extent_of tags.now (qualified_of qual.now).ty }
{
    extent(tags, &qual.ty)
}

fn shape_of_object(alloc: Global, tags: &Tags, qual: &Qual) -> Result<Option<Rc<Shape>>, NoMemory>
    ensures { IfOk result (λ o. HasForm tags.now (qualified_of qual.now).ty (option_map (λ s. form_of s.value) o)) }
{
    shape_of(alloc, tags, &qual.ty)
}

fn create_static(
    alloc: Global,
    p: &Program,
    object: &Static,
    number: u32,
    m: &mut Memory,
    t: &mut Touched,
) -> Result<u64, CreateFault>
    ensures kept { Keeps m.old m.new }
    ensures exact { OnOk result (AreKnown m.old → StaticCreated m.old m.new p.now.tags number object.now) }
    ensures stands { IfOk result (λ addr. Stands m.new (names.Static number) addr) }
    ensures unplaced { result ≡ Err Unplaced → CannotStand m.new (names.Static number) (extent_of p.now.tags (qualified_of object.now.qual).ty) }
    ensures same { result ≡ Err Unplaced → m.new ≡ m.old }
{
    let extent = extent_of_object(&p.tags, &object.qual);
    let shape = shape_of_object(alloc, &p.tags, &object.qual)?;
    let kind = ObjKind {
        heap: false,
        literal: false,
        constant: is_constant(&object.qual),
    };
    m.create(
        ObjName::Static(number),
        extent.size,
        extent.align,
        kind,
        shape,
        t,
    )
}

// Zeros, and then the constants.
fn fill_static(
    alloc: Global,
    p: &Program,
    object: &Static,
    number: usize,
    places: &Places,
    m: &mut Memory,
    t: &mut Touched,
) -> Result<(), CreateFault>
    ensures kept { IsSound m.old → ArePlaced m.old p.now places.now → All (λ c. ContentIsLawful p.now c.content) object.now.constants → Keeps m.old m.new }
    ensures exact { OnOk result (IsSound m.old → ArePlaced m.old p.now places.now → All (λ c. ContentIsLawful p.now c.content) object.now.constants →
        number < length p.now.statics → length p.now.statics < 2 ^ 32 → StaticFilled m.old m.new p.now.tags number object.now) }
    ensures room { IsSound m.old → ArePlaced m.old p.now places.now → StaticIsLawful p.now object.now → number < length p.now.statics →
        length p.now.statics < 2 ^ 32 → Above 16777216 m.old.rows → (o : Standing) → IsStatic p.now.tags number object.now o → Waits m.old o →
        IsFilled m.old m.new result }
{
    let number = short(number);
    let whole = places.object(number, 0);
    let extent = extent_of_object(&p.tags, &object.qual);
    clear(alloc, extent.size, whole, m, t)?;
    let fillings = fillings(alloc, m, places, object.constants.as_slice())?;
    for filling in fillings.as_slice() {
        put(whole, filling.at, &filling.bytes, m, t)?;
    }
    Ok(())
}

const PAGE: u64 = 4096;

// The bytes of a page of an object of this size.
fn page_of(size: u64) -> u64
    ensures { result ≡ min 4096 (size - size % 4096) }
{
    PAGE.min(size.saturating_sub(size % PAGE))
}

// The offset of this page.
fn page_at(size: u64, number: u64) -> u64
    ensures { result ≡ min (min (number * 4096) (2 ^ 64 - 1) + size % 4096) (2 ^ 64 - 1) }
{
    number.saturating_mul(PAGE).saturating_add(size % PAGE)
}

// Makes the bytes of a new object zero: what is no whole page, and then a page at a time.
fn clear(
    alloc: Global,
    size: u64,
    whole: Pointer,
    m: &mut Memory,
    t: &mut Touched,
) -> Result<(), CreateFault>
    ensures exact { OnOk result ((x : ObjName) → whole.prov ≡ Whole x → EndsLow m.old x → Puts m.old m.new x whole.addr (number_bytes size 0)) }
    ensures rest { record m.new { objects = []; cells = [] } ≡ record m.old { objects = []; cells = [] } }
    ensures kept { Keeps m.old m.new }
    ensures room { (x : ObjName) → whole.prov ≡ Whole x → IsReady m.old x whole.addr size → IsFilled m.old m.new result }
{
    let first = zeros(alloc, size % PAGE)?;
    put(whole, 0, &first, m, t)?;
    let page = zeros(alloc, page_of(size))?;
    for number in 0..size / PAGE {
        put(whole, page_at(size, number), &page, m, t)?;
    }
    Ok(())
}

// Puts bytes at an offset of a new object, as its initialization. One that raised a clause would leave no start of a run.
fn put(
    whole: Pointer,
    at: u64,
    bytes: &Block,
    m: &mut Memory,
    t: &mut Touched,
) -> Result<(), CreateFault>
    ensures exact { OnOk result ((x : ObjName) → whole.prov ≡ Whole x → Puts m.old m.new x (address_after whole.addr at) (seen m.old bytes.now.cells)) }
    ensures rest { record m.new { objects = []; cells = [] } ≡ record m.old { objects = []; cells = [] } }
    ensures kept { CellsKnown (length m.old.origins) bytes.now.cells → CellsTagged (length m.old.types) bytes.now.cells → Keeps m.old m.new }
    ensures room { (x : ObjName) (size : ℕ) → whole.prov ≡ Whole x → IsReady m.old x whole.addr size → at + length bytes.now.cells ≤ size →
        IsFilled m.old m.new result }
{
    let addr = whole.addr.saturating_add(at);
    match m.store(true, Via::Bytes, 1, addr, whole.prov, bytes, t) {
        Ok(()) => Ok(()),
        Err(_clause) => Err(CreateFault::Unplaced),
    }
}

// A string object of so many bytes.
fn create_text(
    alloc: Global,
    name: ObjName,
    count: u64,
    literal: bool,
    m: &mut Memory,
    t: &mut Touched,
) -> Result<u64, CreateFault>
    ensures kept { Keeps m.old m.new }
    ensures exact { OnOk result (AreKnown m.old → Creates m.old m.new name count 1 (record { heap = false; literal = literal; constant = false })
        (Some (repeat count 1 (leaf (int Char))))) }
    ensures stands { IfOk result (λ addr. Stands m.new name addr) }
    ensures unplaced { result ≡ Err Unplaced → CannotHold m.new name count }
    ensures same { result ≡ Err Unplaced → m.new ≡ m.old }
{
    let shape = repeated(alloc, count, 1, character())?;
    let kind = ObjKind {
        heap: false,
        literal,
        constant: false,
    };
    m.create(name, count, 1, kind, Some(shape), t)
}

// The bytes of a string object.
fn fill_text(
    alloc: Global,
    bytes: &[u8],
    whole: Pointer,
    m: &mut Memory,
    t: &mut Touched,
) -> Result<(), CreateFault>
    ensures exact { OnOk result ((x : ObjName) → whole.prov ≡ Whole x → Puts m.old m.new x (address_after whole.addr 0) (map plain_byte bytes.now)) }
    ensures rest { record m.new { objects = []; cells = [] } ≡ record m.old { objects = []; cells = [] } }
    ensures kept { Keeps m.old m.new }
    ensures room { (x : ObjName) → whole.prov ≡ Whole x → IsReady m.old x whole.addr (length bytes.now) → IsFilled m.old m.new result }
{
    let content = written(alloc, bytes)?;
    put(whole, 0, &content, m, t)
}

fn character() -> Ty
    ensures { type_of result ≡ int Char }
{
    Ty::Int(IntKind::Char)
}

fn repeated(alloc: Global, count: u64, step: u64, element: Ty) -> Result<Rc<Shape>, NoMemory>
    ensures { IfOk result (λ s. form_of s.value ≡ repeat count step (leaf (type_of element))) }
{
    let part = Boxed::new(alloc, Shape::Leaf(element))?;
    let shape = Shape::Repeat { count, step, part };
    Ok(Rc::new(alloc, shape)?)
}

// A string that `main` is given, and where it stands.
#[derive(Drop)]
struct Argument {
    text: Bytes,
    place: Pointer,
}

// The strings of the arguments, the first one the program's name (5.1.2.2.1), each with a zero behind it.
fn create_arguments(
    alloc: Global,
    args: &[String],
    m: &mut Memory,
    t: &mut Touched,
) -> Result<Items<Argument>, CreateFault>
    ensures kept { Keeps m.old m.new }
    ensures exact { OnOk result (IsSound m.old → length args.now + 1 < 2 ^ 32 →
        AllCreated m.old m.new (standing.arguments 0 (program_name ∷ map string_bytes args.now))) }
    ensures there { IfOk result (λ all. length args.now + 1 < 2 ^ 32 → AreArguments m.new 0 (program_name ∷ map string_bytes args.now) all) }
    ensures made { IfOk result (AreMadeAll m.new) }
    ensures unplaced { result ≡ Err Unplaced → IsSound m.old → length args.now + 1 < 2 ^ 32 →
        FirstArgument m.old m.new (program_name ∷ map string_bytes args.now) }
{
    let mut all = Items::new(alloc);
    create_argument(alloc, NAME, &mut all, m, t)?;
    for arg in args {
        create_argument(alloc, arg.as_bytes(), &mut all, m, t)?;
    }
    Ok(all)
}

fn create_argument(
    alloc: Global,
    text: &[u8],
    all: &mut Items<Argument>,
    m: &mut Memory,
    t: &mut Touched,
) -> Result<(), CreateFault>
    ensures kept { Keeps m.old m.new }
    ensures exact { OnOk result (AreKnown m.old → length all.old < 2 ^ 32 → Creates m.old m.new (names.Arg (length all.old)) (length text.now + 1) 1
        (record { heap = false; literal = false; constant = false }) (Some (repeat (length text.now + 1) 1 (leaf (int Char))))) }
    ensures there { OnOk result (length all.old < 2 ^ 32 → ArgumentAdded m.new text.now all.old all.new) }
    ensures count { OnOk result (length all.new ≡ length all.old + 1) }
    ensures made { OnOk result (AreMadeAll m.old all.old → AreMadeAll m.new all.new) }
    ensures unplaced { result ≡ Err Unplaced → length all.old < 2 ^ 32 → CannotHold m.new (names.Arg (length all.old)) (length text.now + 1) }
    ensures same { result ≡ Err Unplaced → m.new ≡ m.old }
{
    let text = text_of(alloc, text)?;
    let name = ObjName::Arg(short(all.len()));
    let addr = create_text(alloc, name, text.len() as u64, false, m, t)?;
    keep(all, text, pointer_to(name, addr, 0))?;
    Ok(())
}

fn text_of(alloc: Global, text: &[u8]) -> Result<Bytes, NoMemory>
    ensures { IfOk result (λ b. b ≡ text.now ++ 0 ∷ []) }
{
    let mut bytes = Bytes::from_slice(alloc, text)?;
    bytes.append(b"\0")?;
    Ok(bytes)
}

fn keep(all: &mut Items<Argument>, text: Bytes, place: Pointer) -> Result<(), NoMemory>
    ensures adds { OnOk result (AddsArgument place all.old all.new) }
    ensures new { OnOk result (all.new ≡ all.old ++ record { text = text; place = place } ∷ []) }
{
    all.push(Argument { text, place })?;
    Ok(())
}

fn fill_arguments(
    alloc: Global,
    arguments: &[Argument],
    m: &mut Memory,
    t: &mut Touched,
) -> Result<(), CreateFault>
    ensures exact { OnOk result ((words : List (List ℕ)) → AreArguments m.old 0 words arguments.now → AllFilled m.old m.new (standing.arguments 0 words)) }
    ensures kept { Keeps m.old m.new }
    ensures room { Above 16777216 m.old.rows → (words : List (List ℕ)) → AreArguments m.old 0 words arguments.now →
        WaitAll m.old (standing.arguments 0 words) → IsFilled m.old m.new result }
{
    for argument in arguments {
        fill_text(alloc, argument.text.as_slice(), argument.place, m, t)?;
    }
    Ok(())
}

// The array of pointers to the arguments, with one for null behind them (5.1.2.2.1p2). Gives a pointer to its first element.
fn create_vector(
    alloc: Global,
    args: &[String],
    m: &mut Memory,
    t: &mut Touched,
) -> Result<Pointer, CreateFault>
    ensures kept { Keeps m.old m.new }
    ensures exact { OnOk result (AreKnown m.old → length args.now < 2 ^ 32 → Creates m.old m.new names.Argv (8 * (length args.now + 2)) 8
        (record { heap = false; literal = false; constant = false }) (Some (repeat (length args.now + 2) 8 (leaf (pointer false (int Char)))))) }
    ensures made { IfOk result (λ p. IsMade m.new p.prov) }
    ensures stands { IfOk result (λ p. StandsThere m.new names.Argv p) }
    ensures unplaced { result ≡ Err Unplaced → length args.now < 2 ^ 32 → NoVector m.new (length args.now + 1) }
    ensures same { result ≡ Err Unplaced → m.new ≡ m.old }
{
    let count = (args.len() as u64).saturating_add(2);
    let element = character_pointer(alloc)?;
    let shape = repeated(alloc, count, 8, element)?;
    let kind = ObjKind {
        heap: false,
        literal: false,
        constant: false,
    };
    let base = m.create(ObjName::Argv, vector_size(args), 8, kind, Some(shape), t)?;
    Ok(pointer_to(ObjName::Argv, base, 0))
}

fn character_pointer(alloc: Global) -> Result<Ty, NoMemory>
    ensures { IfOk result (λ ty. type_of ty ≡ pointer false (int Char)) }
{
    let target = Qual {
        ty: character(),
        constant: false,
    };
    Ok(Ty::Pointer(Shared::new(alloc, target)?))
}

// The pointers of the array, the last one null.
fn point(
    alloc: Global,
    arguments: &[Argument],
    vector: Pointer,
    m: &mut Memory,
    t: &mut Touched,
) -> Result<(), CreateFault>
    ensures kept { IsSound m.old → AreMadeAll m.old arguments.now → Keeps m.old m.new }
    ensures exact { OnOk result (IsSound m.old → AreMadeAll m.old arguments.now → StandsThere m.old names.Argv vector → (words : List (List ℕ)) →
        AreArguments m.old 0 words arguments.now → length words < 2 ^ 32 → AllFilled m.old m.new (standing.vector words ∷ [])) }
    ensures room { IsSound m.old → AreMadeAll m.old arguments.now → StandsThere m.old names.Argv vector → Above 16777216 m.old.rows → (words : List (List ℕ)) →
        AreArguments m.old 0 words arguments.now → length words < 2 ^ 32 → Waits m.old (standing.vector words) → IsFilled m.old m.new result }
{
    let mut at = 0;
    for argument in arguments {
        let bytes = m.bytes_of(alloc, &argument.place.value(), 8)?;
        put(vector, at, &bytes, m, t)?;
        at = at.saturating_add(8);
    }
    let null = m.bytes_of(alloc, &Pointer::null().value(), 8)?;
    put(vector, at, &null, m, t)
}
