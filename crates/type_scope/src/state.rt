// All that is declared so far.
ghost use Rattle.std.specs.Prelude.{◌≡◌, ◌≢◌, ℕ, ◌<◌, ◌≤◌, ◌∷◌, ◌++◌, [], true, false, List, Option, length, map, take, slice_get, vec_len, Some, None, IfOk};
ghost use Rattle.std.specs.Prelude.{OnOk, OnErr};
ghost use Rattle.std.specs.List.{All};
ghost use Rattle.c_lex.specs.TokenText.{TokenText};
ghost use Rattle.c_types.specs.Types.{type_of};
ghost use Rattle.c_typed.specs.Lawful.{HasBytes};
ghost use Rattle.c_typed.specs.declared.tree.Target.{Target as TheTarget};
ghost use Rattle.c_typed.specs.declared.tree.Target.TheVariants as target;
ghost use Rattle.typing_env.specs.Env.{Env, Object, Use, start_of};
ghost use Rattle.typing_env.specs.Names.{entered, left_scope, kept_prototype, with_parameters, with_new_tag, with_new_enumeration, object_named, with_object};
ghost use Rattle.typing_env.specs.Names.{changing_object, first_of};
ghost use Rattle.type_scope.specs.declared.rows.TagRow.{TagRow};
ghost use Rattle.type_scope.specs.Known.{Naming, known_by, routine_seen};
ghost use Rattle.type_scope.specs.Numbered.{literal_bytes, HasLiterals};
ghost use Rattle.type_scope.specs.Objects.{IsOneToOne, IsRowOf, HasPlaces, HasObjects, row_in};
ghost use Rattle.type_scope.specs.Uses.{is_used, count_of, with_use, IsUsedObject, IsUsedFunction, IsUnused, HasUses, function_row_in};

use crate::literals::Literal;
use crate::rows::{FunctionRow, Linked, ObjectRow, TagRow};
use crate::{Scopes, Source, Task};
use c_typed::Target;
use c_types::{Extent, Qual, TagKind, Tags, Ty};
use std::alloc::Global;
use type_name_space::Space;
use type_reasons::{Constants, Objects};
use ub_base::{Bytes, NoMemory};

/// The declarations of a unit so far.
#[derive(Drop)]
pub struct State {
    pub alloc: Global,
    pub names: Scopes,
    pub tags: Tags,
    pub tag_rows: Vec<TagRow>,
    /// Which enumerations are complete, by number.
    pub enumerations: Vec<bool>,
    pub objects: Vec<ObjectRow>,
    /// How many objects with static storage have been declared, and how many defined.
    pub declared: usize,
    pub defined: u32,
    /// Where an object stands in `objects`, by the order of first declarations; the same place where it is empty.
    pub order: Vec<u32>,
    pub functions: Vec<FunctionRow>,
    /// The identifiers with linkage, each declared once, at depth 0.
    pub linked: Space<Linked>,
    pub literals: Vec<Literal>,
    /// Whether what is read is in an operand that isn't evaluated.
    pub unevaluated: bool,
    /// The function that is called at program startup (5.1.2.2.1).
    pub main: Option<u32>,
    pub task: Task,
}

/// A place of the text: how many string literals stood before it, and whether it is in an operand that isn't evaluated.
#[derive(Clone, Copy, Debug, PartialEq, Eq)]
pub struct Mark {
    pub literals: usize,
    pub unevaluated: bool,
}

// So many rows of objects that aren't declared yet.
#[tactic(auto, using(crate::proofs::Uses::unused_more))]
fn empty_rows(alloc: Global, count: usize) -> Result<Vec<ObjectRow>, NoMemory>
    ensures count { IfOk result (λ rows. length rows.items ≡ count) }
    ensures unused { IfOk result (λ rows. All IsUnused rows.items) }
{
    let mut rows = Vec::new(alloc);
    for _turn in 0..count {
        rows.push(ObjectRow::new(alloc, no_type(), false))?;
    }
    Ok(rows)
}

impl State {
    /// Nothing declared; `order` as the field says.
    pub fn new(alloc: Global, source: &Source<'_>, order: Vec<u32>) -> Result<State, NoMemory>
        ensures known { IfOk result (λ s. (n : Naming) → known_by n source.now s (start_of source.now) ≡ start_of source.now) }
        ensures rows { IfOk result (λ s. ((k place : ℕ) → slice_get order.items k ≡ Some place → place < length order.items) → (n : Naming) →
            HasObjects n s (start_of source.now)) }
        ensures uses { IfOk result (λ s. (n : Naming) → HasUses n s []) }
        ensures evaluated { IfOk result (λ s. s.unevaluated ≡ false) }
        ensures literals { IfOk result (λ s. literal_bytes s ≡ []) }
        ensures tags { IfOk result (λ s. s.tags ≡ []) }
        ensures tag_rows { IfOk result (λ s. s.tag_rows.items ≡ []) }
    {
        let symbols = source.symbol_count();
        let objects = empty_rows(alloc, order.len())?;
        Ok(State {
            alloc,
            names: Scopes::new(alloc, symbols)?,
            tags: Tags::new(alloc),
            tag_rows: Vec::new(alloc),
            enumerations: Vec::new(alloc),
            objects,
            declared: 0,
            defined: 0,
            order,
            functions: Vec::new(alloc),
            linked: Space::new(alloc, symbols)?,
            literals: Vec::new(alloc),
            unevaluated: false,
            main: None,
            task: Task::new(alloc, Ty::Void),
        })
    }

    /// Begins a scope.
    pub fn enter_scope(&mut self) -> Result<(), NoMemory>
        ensures known { OnOk result ((n : Naming) (t : TokenText) (env : Env) → known_by n t self.new env ≡ entered (known_by n t self.old env)) }
        ensures rest { self.new ≡ record self.old { names = self.new.names } }
        ensures err { OnErr result (self.new ≡ self.old) }
    {
        self.names.enter()
    }

    /// Ends the innermost scope.
    pub fn leave_scope(&mut self)
        ensures known { (n : Naming) (t : TokenText) (env : Env) → known_by n t self.new env ≡ left_scope (known_by n t self.old env) }
        ensures rest { self.new ≡ record self.old { names = self.new.names } }
    {
        self.names.leave();
    }

    /// Ends the innermost scope, that of a parameter list. Its declarations are kept for a body where `own` is true, as behind a
    /// declared name, and the list stands at file scope (6.2.1p4).
    pub fn leave_parameters(&mut self, own: bool) -> Result<(), NoMemory>
        ensures known { OnOk result ((n : Naming) (t : TokenText) (env : Env) →
            known_by n t self.new env ≡ left_scope (kept_prototype own (known_by n t self.old env))) }
        ensures rest { self.new ≡ record self.old { names = self.new.names } }
    {
        self.names.leave_parameters(self.alloc, own)
    }

    /// Begins the scope of a body, with what is kept of its parameters.
    pub fn enter_body(&mut self) -> Result<(), NoMemory>
        ensures known { OnOk result ((n : Naming) (t : TokenText) (env : Env) →
            known_by n t self.new env ≡ with_parameters (entered (known_by n t self.old env))) }
        ensures rest { self.new ≡ record self.old { names = self.new.names } }
    {
        self.names.enter_body(self.alloc)
    }

    /// Begins an operand that isn't evaluated: its literals are no objects, and it uses no name (6.9p3).
    pub fn suspend(&mut self) -> Mark
        ensures mark { result ≡ record { literals = length (literal_bytes self.old); unevaluated = self.old.unevaluated } }
        ensures rest { self.new ≡ record self.old { unevaluated = true } }
    {
        let mark = self.mark();
        self.unevaluated = true;
        mark
    }

    /// Ends it.
    pub fn resume(&mut self, mark: Mark)
        ensures literals { literal_bytes self.new ≡ take mark.literals (literal_bytes self.old) }
        ensures named { (bytes_at : ℕ → Option (List ℕ)) (names : List ℕ) → HasLiterals bytes_at names self.old →
            HasLiterals bytes_at (take mark.literals names) self.new }
        ensures rest { self.new ≡ record self.old { literals = self.new.literals; unevaluated = mark.unevaluated } }
    {
        self.unevaluated = mark.unevaluated;
        self.forget_literals(mark);
    }

    /// This place of the text.
    pub fn mark(&self) -> Mark
        ensures { result ≡ record { literals = length (literal_bytes self.now); unevaluated = self.now.unevaluated } }
    {
        Mark {
            literals: self.literals.len(),
            unevaluated: self.unevaluated,
        }
    }

    /// Forgets the literals since then.
    pub fn forget_literals(&mut self, mark: Mark)
        ensures literals { literal_bytes self.new ≡ take mark.literals (literal_bytes self.old) }
        ensures named { (bytes_at : ℕ → Option (List ℕ)) (names : List ℕ) → HasLiterals bytes_at names self.old →
            HasLiterals bytes_at (take mark.literals names) self.new }
        ensures rest { self.new ≡ record self.old { literals = self.new.literals } }
    {
        self.literals.truncate(mark.literals);
    }

    // Takes a literal out of those of the unit, and forgets the others since the mark.
    fn take_literal(&mut self, mark: Mark, number: usize) -> Literal
        requires { number < length self.old.literals.items }
        ensures taken { slice_get (literal_bytes self.old) number ≡ Some result.bytes }
        ensures literals { mark.literals ≤ number → literal_bytes self.new ≡ take mark.literals (literal_bytes self.old) }
        ensures rest { self.new ≡ record self.old { literals = self.new.literals } }
    {
        let taken = self.literals.remove(number);
        self.forget_literals(mark);
        taken
    }

    /// Forgets the literals since then but this one, which gets the first of their numbers.
    pub fn keep_literal(&mut self, mark: Mark, number: u32) -> Result<u32, NoMemory>
        ensures number { IfOk result (λ kept. mark.literals ≤ number → number < length (literal_bytes self.old) → kept ≡ mark.literals) }
        ensures named { OnOk result (mark.literals ≤ number → (bytes_at : ℕ → Option (List ℕ)) (names : List ℕ) (name : ℕ) →
            slice_get names number ≡ Some name → HasLiterals bytes_at names self.old → HasLiterals bytes_at (take mark.literals names ++ name ∷ []) self.new) }
        ensures rest { self.new ≡ record self.old { literals = self.new.literals } }
    {
        if number as usize >= self.literals.len() {
            return Ok(number);
        }
        let kept = self.take_literal(mark, number as usize);
        self.push_literal(kept)
    }

    fn push_literal(&mut self, literal: Literal) -> Result<u32, NoMemory>
        ensures number { IfOk result (λ number. number ≡ length (literal_bytes self.old)) }
        ensures literals { OnOk result (literal_bytes self.new ≡ literal_bytes self.old ++ literal.bytes ∷ []) }
        ensures rest { self.new ≡ record self.old { literals = self.new.literals } }
    {
        let Ok(number) = u32::try_from(self.literals.len()) else {
            return Err(NoMemory);
        };
        self.literals.push(literal)?;
        Ok(number)
    }

    /// A further string literal; the answer is its number.
    pub fn add_literal(&mut self, bytes: Bytes) -> Result<u32, NoMemory>
        requires { HasBytes bytes }
        ensures number { IfOk result (λ number. number ≡ length (literal_bytes self.old)) }
        ensures named { OnOk result ((bytes_at : ℕ → Option (List ℕ)) (names : List ℕ) (name : ℕ) → bytes_at name ≡ Some bytes →
            HasLiterals bytes_at names self.old → HasLiterals bytes_at (names ++ name ∷ []) self.new) }
        ensures rest { self.new ≡ record self.old { literals = self.new.literals } }
    {
        self.push_literal(Literal { bytes })
    }

    /// A further object with static storage; the answer is its number.
    pub fn add_object(&mut self, row: ObjectRow) -> Result<u32, NoMemory>
        ensures rest { self.new ≡ record self.old { objects = self.new.objects; declared = self.new.declared } }
        ensures rows { IfOk result (λ number. (n : Naming) → IsOneToOne n → (env : Env) (o : Object) → HasObjects n self.old env →
            object_named o.name env.objects ≡ None → n number ≡ o.name → IsRowOf o (Some row) → HasObjects n self.new (with_object o env)) }
        ensures uses { IfOk result (λ number. (n : Naming) (us : List Use) → HasPlaces self.old → IsUnused row →
            is_used (target.Static (n number)) us ≡ false → HasUses n self.old us → HasUses n self.new us) }
    {
        self.add_row(row)
    }

    fn add_row(&mut self, row: ObjectRow) -> Result<u32, NoMemory>
        ensures rest { self.new ≡ record self.old { objects = self.new.objects; declared = self.new.declared } }
        ensures row { IfOk result (λ number. HasPlaces self.old → row_in self.new number ≡ Some row) }
        ensures others { IfOk result (λ number. (m : ℕ) → m ≢ number → row_in self.new m ≡ row_in self.old m) }
        ensures places { OnOk result (HasPlaces self.old → HasPlaces self.new) }
    {
        let at = self.declared;
        self.declared = at.saturating_add(1);
        match self.order.get(at) {
            Some(place) => {
                let place = *place;
                self.put_object(place, row);
                Ok(place)
            }
            None => self.push_object(row),
        }
    }

    fn push_object(&mut self, row: ObjectRow) -> Result<u32, NoMemory>
        ensures rest { self.new ≡ record self.old { objects = self.new.objects } }
        ensures row { IfOk result (λ number. row_in self.new number ≡ Some row) }
        ensures others { IfOk result (λ number. (m : ℕ) → m ≢ number → row_in self.new m ≡ row_in self.old m) }
        ensures more { OnOk result (length self.old.objects.items < length self.new.objects.items) }
    {
        let Ok(place) = u32::try_from(self.objects.len()) else {
            return Err(NoMemory);
        };
        self.objects.push(row)?;
        Ok(place)
    }

    fn put_object(&mut self, place: u32, row: ObjectRow)
        ensures rest { self.new ≡ record self.old { objects = self.new.objects } }
        ensures row { place < length self.old.objects.items → row_in self.new place ≡ Some row }
        ensures others { (m : ℕ) → m ≢ place → row_in self.new m ≡ row_in self.old m }
        ensures same { length self.new.objects.items ≡ length self.old.objects.items }
    {
        if let Some(was) = self.objects.get_mut(place as usize) {
            *was = row;
        }
    }

    /// Notes the first definition of an object.
    pub fn define_object(&mut self, number: u32, line: u32)
        ensures rest { self.new ≡ record self.old { objects = self.new.objects; defined = self.new.defined } }
        ensures rows { (n : Naming) → IsOneToOne n → (env : Env) (at : ℕ) → HasObjects n self.old env →
            HasObjects n self.new (changing_object (n number) (λ o. record o { defined = first_of o.defined at }) env) }
        ensures uses { (n : Naming) (us : List Use) → HasUses n self.old us → HasUses n self.new us }
    {
        self.define_row(number, line);
    }

    fn define_row(&mut self, number: u32, line: u32)
        ensures rest { self.new ≡ record self.old { objects = self.new.objects; defined = self.new.defined } }
        ensures row { (at : ℕ) (o : Object) → IsRowOf o (row_in self.old number) →
            IsRowOf (record o { defined = first_of o.defined at }) (row_in self.new number) }
        ensures others { (m : ℕ) → m ≢ number → row_in self.new m ≡ row_in self.old m }
        ensures places { HasPlaces self.old → HasPlaces self.new }
        ensures used { (t : TheTarget) (us : List Use) → IsUsedObject t us (row_in self.old number) → IsUsedObject t us (row_in self.new number) }
    {
        let next = self.defined;
        if let Some(row) = self.objects.get_mut(number as usize)
            && row.defined.is_none()
        {
            row.defined = Some(next);
            row.line = line;
            self.defined = next.saturating_add(1);
        }
    }

    /// Notes a use of an object by an identifier of this type.
    pub fn use_object(&mut self, number: u32, ty: &Ty, line: u32)
        ensures rest { self.new ≡ record self.old { objects = self.new.objects } }
        ensures rows { (n : Naming) (env : Env) → HasObjects n self.old env → HasObjects n self.new env }
        ensures uses { (n : Naming) → IsOneToOne n → (us : List Use) → HasUses n self.old us →
            HasUses n self.new (with_use self.old.unevaluated (record { target = target.Static (n number); count = count_of (type_of ty.now) }) us) }
    {
        if self.unevaluated {
            return;
        }
        self.use_row(number, known_count(ty), line);
    }

    fn use_row(&mut self, number: u32, count: Option<u64>, line: u32)
        ensures rest { self.new ≡ record self.old { objects = self.new.objects } }
        ensures row { (o : Object) → IsRowOf o (row_in self.old number) → IsRowOf o (row_in self.new number) }
        ensures others { (m : ℕ) → m ≢ number → row_in self.new m ≡ row_in self.old m }
        ensures places { HasPlaces self.old → HasPlaces self.new }
        ensures used { (t : TheTarget) (us : List Use) → IsUsedObject t us (row_in self.old number) →
            IsUsedObject t (us ++ record { target = t; count = count } ∷ []) (row_in self.new number) }
    {
        if let Some(row) = self.objects.get_mut(number as usize) {
            row.use_on(line, count);
        }
    }

    /// Notes a use of a function.
    pub fn use_function(&mut self, number: u32, line: u32)
        ensures rest { self.new ≡ record self.old { functions = self.new.functions } }
        ensures known { (n : Naming) (t : TokenText) (env : Env) → known_by n t self.new env ≡ known_by n t self.old env }
        ensures uses { (n : Naming) (us : List Use) → HasUses n self.old us →
            HasUses n self.new (with_use self.old.unevaluated (record { target = target.Function number; count = None }) us) }
    {
        if self.unevaluated {
            return;
        }
        self.use_routine(number, line);
    }

    fn use_routine(&mut self, number: u32, line: u32)
        ensures rest { self.new ≡ record self.old { functions = self.new.functions } }
        ensures same { map routine_seen self.new.functions.items ≡ map routine_seen self.old.functions.items }
        ensures others { (m : ℕ) → m ≢ number → function_row_in self.new m ≡ function_row_in self.old m }
        ensures used { (t : TheTarget) (us : List Use) → IsUsedFunction t us (function_row_in self.old number) →
            IsUsedFunction t (us ++ record { target = t; count = None } ∷ []) (function_row_in self.new number) }
    {
        if let Some(row) = self.functions.get_mut(number as usize) {
            row.use_on(line);
        }
    }

    /// Declares a new structure or union; the answer is its number.
    pub fn add_tag(&mut self, kind: TagKind) -> Result<u32, NoMemory>
        ensures number { IfOk result (λ number. number ≡ length self.old.tags) }
        ensures known { OnOk result ((n : Naming) (t : TokenText) (env : Env) → known_by n t self.new env ≡ with_new_tag kind (known_by n t self.old env)) }
        ensures row { OnOk result ((row : TagRow) × (row.constant ≡ false) × (self.new.tag_rows.items ≡ self.old.tag_rows.items ++ row ∷ [])) }
        ensures rest { self.new ≡ record self.old { tags = self.new.tags; tag_rows = self.new.tag_rows } }
    {
        if self.tags.is_full() {
            return Err(NoMemory);
        }
        self.tag_rows.push(TagRow {
            constant: false,
            symbols: Vec::new(self.alloc),
        })?;
        self.tags.declare(self.alloc, kind)
    }

    /// Declares a new enumeration; the answer is its number.
    pub fn add_enumeration(&mut self) -> Result<u32, NoMemory>
        ensures number { IfOk result (λ number. number ≡ vec_len self.old.enumerations) }
        ensures known { OnOk result ((n : Naming) (t : TokenText) (env : Env) → known_by n t self.new env ≡ with_new_enumeration (known_by n t self.old env)) }
        ensures rest { self.new ≡ record self.old { enumerations = self.new.enumerations } }
    {
        let Ok(number) = u32::try_from(self.enumerations.len()) else {
            return Err(NoMemory);
        };
        self.enumerations.push(false)?;
        Ok(number)
    }

    fn static_extent(&self, number: u32) -> Option<Extent> {
        let row = self.objects.get(number as usize)?;
        match self.tags.extent(&row.qual.ty) {
            Some(extent) => Some(extent),
            None => Some(Extent {
                size: u64::MAX,
                align: self.element_alignment(&row.qual.ty),
            }),
        }
    }

    // Of an array whose size isn't known yet the alignment of its elements.
    fn element_alignment(&self, ty: &Ty) -> u64 {
        match ty {
            Ty::Array(element, _) => match self.tags.extent(&element.get().ty) {
                Some(extent) => extent.align,
                None => 1,
            },
            _ => 1,
        }
    }
}

// The number of elements of an array of known size.
fn known_count(ty: &Ty) -> Option<u64>
    ensures { result ≡ count_of (type_of ty.now) }
{
    match ty {
        Ty::Array(_, count) => *count,
        _ => None,
    }
}

/// A type for a row that isn't filled yet.
fn no_type() -> Qual {
    Qual {
        ty: Ty::Void,
        constant: false,
    }
}

impl Objects for State {
    fn extent_of(&self, target: Target) -> Option<Extent> {
        match target {
            Target::Static(number) => self.static_extent(number),
            Target::Literal(number) => {
                let literal = self.literals.get(number as usize)?;
                Some(Extent {
                    size: literal.bytes.len() as u64,
                    align: 1,
                })
            }
            Target::Function(_) => None,
        }
    }
}

impl Constants for State {
    ghost use Rattle.type_scope.specs.Tagged.{has_constant};

    ghost is_constant = { has_constant };

    fn has_constant(&self, tag: u32) -> bool {
        match self.tag_rows.get(tag as usize) {
            Some(row) => row.constant,
            None => false,
        }
    }
}
