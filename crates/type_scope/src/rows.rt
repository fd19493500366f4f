// What names stand for.
ghost use Rattle.std.specs.Prelude.{ℕ, ◌≡◌, ◌&&◌, true, is_some, List, [], ◌∷◌, ◌++◌, Option, Some};
ghost use Rattle.c_types.specs.Types.{qualified_of};
ghost use Rattle.c_typed.specs.declared.tree.Target.{Target as TheTarget};
ghost use Rattle.typing_env.specs.Env.{Use};
ghost use Rattle.typing_env.specs.Names.{new_object};
ghost use Rattle.type_scope.specs.Objects.{IsRowOf};
ghost use Rattle.type_scope.specs.Uses.{has_count, fits_noted, IsUsedObject, IsUnused};

use c_typed::{Body, Constant, Slot, Target};
use c_types::{FuncTy, LibFunc, Qual, TagKind, Ty};
use std::alloc::Global;
use ub_base::Items;

/// What an ordinary identifier stands for (6.2.3).
#[derive(Drop)]
pub enum Meaning {
    /// An object, with its type as far as this declaration tells, and whether it was declared `register`.
    Object {
        slot: Slot,
        qual: Qual,
        register: bool,
    },
    /// A function, by number, with its type as far as this declaration tells.
    Function {
        number: u32,
        ty: Ty,
    },
    /// An enumeration constant.
    Constant(i128),
    Typedef(Qual),
}

/// What a tag stands for.
#[derive(Clone, Copy, Debug, PartialEq, Eq)]
pub enum TagMeaning {
    Tagged(TagKind, u32),
    Enumerated(u32),
}

/// What else is known of a structure or union: whether it has a const member, itself or in a member; and the symbols of its
/// members, those of unnamed structures and unions included.
#[derive(Drop)]
pub struct TagRow {
    pub constant: bool,
    pub symbols: Vec<u32>,
}

/// An identifier with linkage: what it stands for, whether it is internal, and the types that its declarations gave it, each once
/// (6.2.2, 6.2.7p2).
#[derive(Drop)]
pub struct Linked {
    pub target: Target,
    pub internal: bool,
    pub types: Items<Qual>,
}

/// An object with static storage.
#[derive(Drop)]
pub struct ObjectRow {
    /// The type of its identifier by its declarations at file scope so far (6.2.7p4, 6.9.2p2); before the first of them that of
    /// its first declaration.
    pub qual: Qual,
    /// Whether its identifier isn't external.
    pub internal: bool,
    /// Its place among the objects with static storage, in the order of their first definitions.
    pub defined: Option<u32>,
    /// The line of that definition.
    pub line: u32,
    pub initialized: bool,
    pub constants: Items<Constant>,
    /// The line of its first use.
    pub used: Option<u32>,
    /// Its first use as an array of known size.
    pub counted: Option<CountedUse>,
}

/// The first use of an object as an array of so many elements, its line, and whether a later use says another number.
#[derive(Clone, Copy, Debug, PartialEq, Eq)]
pub struct CountedUse {
    pub count: u64,
    pub line: u32,
    pub others: bool,
}

// A use as an array of so many elements, behind the uses before.
fn counted_with(before: Option<CountedUse>, count: u64, line: u32) -> CountedUse
    ensures { (n : Option ℕ) → fits_noted (Some result) n ≡ (fits_noted before n && has_count (Some count) n) }
{
    match before {
        None => CountedUse {
            count,
            line,
            others: false,
        },
        Some(first) => CountedUse {
            count: first.count,
            line: first.line,
            others: first.others || first.count != count,
        },
    }
}

/// Where a function is defined.
#[derive(Drop)]
pub enum Definition {
    /// Nowhere so far.
    Nowhere,
    /// In the library, and so not in the unit (7.1.3p2).
    Library(LibFunc),
    /// In the unit, with this type, and with its body once that is read.
    Own(FuncTy, Option<Body>),
}

/// A function.
#[derive(Drop)]
pub struct FunctionRow {
    /// The composite of its types so far.
    pub ty: FuncTy,
    pub internal: bool,
    pub definition: Definition,
    /// The line of its first use.
    pub used: Option<u32>,
}

// The line of the first use, with one more on this line.
fn used_on(before: Option<u32>, line: u32) -> Option<u32>
    ensures { is_some result ≡ true }
{
    match before {
        Some(first) => Some(first),
        None => Some(line),
    }
}

// The first use as an array of known size, with a use behind those before.
fn counted_on(before: Option<CountedUse>, count: Option<u64>, line: u32) -> Option<CountedUse>
    ensures { (n : Option ℕ) → fits_noted result n ≡ (fits_noted before n && has_count count n) }
{
    match count {
        Some(count) => Some(counted_with(before, count, line)),
        None => before,
    }
}

impl ObjectRow {
    /// An object of this type that isn't defined yet.
    pub fn new(alloc: Global, qual: Qual, internal: bool) -> ObjectRow
        ensures row { (name : ℕ) → IsRowOf (new_object name (qualified_of qual)) (Some result) }
        ensures unused { IsUnused result }
    {
        ObjectRow {
            qual,
            internal,
            defined: None,
            line: 1,
            initialized: false,
            constants: Items::new(alloc),
            used: None,
            counted: None,
        }
    }

    /// Notes a use on this line, as an array of so many elements where that is known.
    pub fn use_on(&mut self, line: u32, count: Option<u64>)
        ensures rest { self.new ≡ record self.old { used = self.new.used; counted = self.new.counted } }
        ensures uses { (t : TheTarget) (us : List Use) → IsUsedObject t us (Some self.old) →
            IsUsedObject t (us ++ record { target = t; count = count } ∷ []) (Some self.new) }
    {
        self.used = used_on(self.used, line);
        self.counted = counted_on(self.counted, count, line);
    }
}

impl FunctionRow {
    /// Notes a use on this line.
    pub fn use_on(&mut self, line: u32)
        ensures rest { self.new ≡ record self.old { used = self.new.used } }
        ensures used { is_some self.new.used ≡ true }
    {
        self.used = used_on(self.used, line);
    }
}
