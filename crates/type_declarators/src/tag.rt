// Structures, unions and enumerations (6.7.2.1 to 6.7.2.3).
ghost use Rattle.std.specs.Prelude.{◌≡◌, ◌≢◌, ℕ, ◌<◌, ◌==◌, ◌||◌, ◌∷◌, ◌++◌, [], List, length, map, slice_get, true, false, not, is_ok, if◌then◌else◌, Some};
ghost use Rattle.std.specs.Prelude.{None, IfOk, IfErr, OnOk, OnErr};
ghost use Rattle.std.specs.Bool.{OnTrue, OnFalse};
ghost use Rattle.std.specs.BTreeSet.{contains};
ghost use Rattle.std.specs.Ordering.{nat_cmp};
ghost use Rattle.c_lex.specs.TokenText.{TokenText, text_at};
ghost use Rattle.c_types.specs.Types.{type_of, qualified_of, enumeration};
ghost use Rattle.c_types.specs.Layout as layout;
ghost use Rattle.typing_env.specs.Env.{Env, symbol_of};
ghost use Rattle.typing_env.specs.Names.{tag_seen, with_new_tag};
ghost use Rattle.typing_env.specs.Seen as seen;
ghost use Rattle.typing_env.specs.Seen.{member_seen};
ghost use Rattle.typing_words.specs.Tags.{has_const};
ghost use Rattle.typing_words.specs.Words as spec;
ghost use Rattle.typing_words.specs.Words.{plain, is_kind, flag_at, flagged};
ghost use Rattle.type_scope.specs.Known.{Naming, known_by};
ghost use Rattle.type_scope.specs.Reads.{Reads};
ghost use Rattle.type_scope.specs.declared.fault.TypeFault.TheVariants as fault;
ghost use Rattle.type_scope.specs.Tagged as noted;
ghost use Rattle.type_declarators.specs.ConstantMembers.{HasConstant, HasConstants, TellsAmong, AreToldConstants, BeginNoted};
ghost use Rattle.type_declarators.specs.Finds.{Finds};
ghost use Rattle.type_declarators.specs.Keywords.{IsSaid};
ghost use Rattle.type_declarators.specs.MemberNames.{HasNames, HasSymbols, HoldsSymbols, AddsSymbols, IsClash, IsWhole, are_apart, symbols_in, tag_number};
ghost use Rattle.type_declarators.specs.Members.{IsAdded, may_complete};

use crate::declarator::{Declared, is_complete_qual};
use crate::words::{Storage, Words};
use c_ast::{Base, Specs};
use c_types::{Member, Qual, TagKind, Tags, Ty};
use std::alloc::Global;
use std::collections::BTreeSet;
use type_reasons::{Constants, Reason};
use type_scope::{Source, State, TagMeaning, TypeFault};
use ub_base::{Bytes, Items, NoMemory};

/// Of a structure, or of a union where `union` is true.
pub fn kind_of(union: bool) -> TagKind
    ensures { result ≡ spec.kind_of_tag union }
{
    if union {
        TagKind::Union
    } else {
        TagKind::Struct
    }
}

fn tagged_type(kind: TagKind, number: u32) -> Ty
    ensures { type_of result ≡ spec.tagged kind number }
{
    match kind {
        TagKind::Struct => Ty::Struct(number),
        TagKind::Union => Ty::Union(number),
    }
}

fn is_kind(a: TagKind, b: TagKind) -> bool
    ensures { result ≡ is_kind a b }
{
    match a {
        TagKind::Struct => matches!(b, TagKind::Struct),
        TagKind::Union => matches!(b, TagKind::Union),
    }
}

// A new structure or union.
fn new_tag(state: &mut State, kind: TagKind) -> Result<u32, NoMemory>
    ensures number { IfOk result (λ number. number ≡ length state.old.tags) }
    ensures symbols { OnOk result ((t : TokenText) → HasSymbols t state.old → HasSymbols t state.new) }
    ensures constants { OnOk result (HasConstants state.old → HasConstants state.new) }
    ensures known { OnOk result ((n : Naming) (t : TokenText) (env : Env) → known_by n t state.new env ≡ with_new_tag kind (known_by n t state.old env)) }
    ensures rest { state.new ≡ record state.old { tags = state.new.tags; tag_rows = state.new.tag_rows } }
{
    state.add_tag(kind)
}

// A new structure or union of this tag (6.7.2.3p4).
fn declare_tag(
    source: &Source<'_>,
    state: &mut State,
    at: u32,
    kind: TagKind,
) -> Result<u32, NoMemory>
    ensures symbols { OnOk result ((t : TokenText) → HasSymbols t state.old → HasSymbols t state.new) }
    ensures constants { OnOk result (HasConstants state.old → HasConstants state.new) }
    ensures known { IfOk result (λ number. (n : Naming) (env : Env) →
        spec.declare_tag at kind (known_by n source.now state.old env) ≡ Some (number, known_by n source.now state.new env)) }
    ensures rest { state.new ≡ record state.old { names = state.new.names; tags = state.new.tags; tag_rows = state.new.tag_rows } }
{
    let number = new_tag(state, kind)?;
    let symbol = source.symbol(at);
    state
        .names
        .declare_tag(symbol, TagMeaning::Tagged(kind, number))?;
    Ok(number)
}

// The structure or union of this tag and kind, or a new one where none is declared; where `here` is true, only this scope counts
// (6.7.2.3p2, 6.7.2.3p4).
fn tag_or_new(
    source: &Source<'_>,
    state: &mut State,
    at: u32,
    kind: TagKind,
    here: bool,
) -> Result<u32, TypeFault>
    ensures symbols { OnOk result ((t : TokenText) → HasSymbols t state.old → HasSymbols t state.new) }
    ensures constants { OnOk result (HasConstants state.old → HasConstants state.new) }
    ensures reads { (n : Naming) (env : Env) → let k = known_by n source.now state.old env in Reads (λ number. number)
        (spec.tag_or_new at kind (tag_seen k here (symbol_of k at)) k) result (known_by n source.now state.new env) }
    ensures rest { state.new ≡ record state.old { names = state.new.names; tags = state.new.tags; tag_rows = state.new.tag_rows } }
{
    let symbol = source.symbol(at);
    match state.names.find_tag(symbol, here) {
        Some(meaning) => match meaning {
            TagMeaning::Tagged(known, number) => {
                if is_kind(known, kind) {
                    Ok(number)
                } else {
                    Err(source.fault(at, Reason::TagKind))
                }
            }
            TagMeaning::Enumerated(_) => Err(source.fault(at, Reason::TagKind)),
        },
        None => Ok(declare_tag(source, state, at, kind)?),
    }
}

/// A structure or union that is named by its tag alone: one that is in scope, or a new one. Where no declarator follows, only
/// this scope counts (6.7.2.3p7, 6.7.2.3p8).
pub fn reference(
    source: &Source<'_>,
    state: &mut State,
    kind: TagKind,
    tag: Option<u32>,
    at: u32,
    alone: bool,
) -> Result<Ty, TypeFault>
    ensures symbols { OnOk result ((t : TokenText) → HasSymbols t state.old → HasSymbols t state.new) }
    ensures constants { OnOk result (HasConstants state.old → HasConstants state.new) }
    ensures reads { (n : Naming) (env : Env) → Reads (λ ty. plain (type_of ty)) (spec.reference alone kind tag (known_by n source.now state.old env)) result
        (known_by n source.now state.new env) }
    ensures rest { state.new ≡ record state.old { names = state.new.names; tags = state.new.tags; tag_rows = state.new.tag_rows } }
{
    match tag {
        None => Err(source.fault(at, Reason::TypeSpecifiers)),
        Some(tag) => match tag_or_new(source, state, tag, kind, alone) {
            Ok(number) => Ok(tagged_type(kind, number)),
            Err(fault) => Err(fault),
        },
    }
}

// Whether the structure or union has its members (6.7.2.3p1).
fn has_members(state: &State, number: u32) -> bool
    ensures { result ≡ spec.has_members (slice_get (map seen.tag_seen state.now.tags) number) }
{
    state.tags.law_extents();
    state.tags.is_complete(number)
}

/// Begins the member list of a structure or union that has none; the answer is its number (6.7.2.3p1, 6.7.2.3p4).
pub fn open(
    source: &Source<'_>,
    state: &mut State,
    kind: TagKind,
    tag: Option<u32>,
) -> Result<u32, TypeFault>
    ensures symbols { OnOk result ((t : TokenText) → HasSymbols t state.old → HasSymbols t state.new) }
    ensures constants { OnOk result (HasConstants state.old → HasConstants state.new) }
    ensures reads { (n : Naming) (env : Env) → Reads (λ number. number) (spec.open_tag kind tag (known_by n source.now state.old env)) result
        (known_by n source.now state.new env) }
    ensures rest { state.new ≡ record state.old { names = state.new.names; tags = state.new.tags; tag_rows = state.new.tag_rows } }
{
    match tag {
        None => Ok(new_tag(state, kind)?),
        Some(tag) => match tag_or_new(source, state, tag, kind, true) {
            Ok(number) => {
                if has_members(state, number) {
                    Err(source.fault(tag, Reason::DefinedTwice))
                } else {
                    Ok(number)
                }
            }
            Err(fault) => Err(fault),
        },
    }
}

/// The members of a structure or union so far.
#[derive(Drop)]
pub struct MemberList {
    pub members: Items<Member>,
    /// The symbols of their names, those of members of unnamed structures and unions included, as a set and in order.
    pub names: BTreeSet<u32>,
    pub symbols: Vec<u32>,
    pub constant: bool,
}

impl MemberList {
    /// No member.
    pub fn new(alloc: Global) -> MemberList
        ensures members { result.members ≡ [] }
        ensures named { (t : TokenText) (tags : List seen.SeenTag) → HasNames t tags result }
        ensures constant { (tags : List seen.SeenTag) → HasConstant tags result }
    {
        MemberList {
            members: Items::new(alloc),
            names: BTreeSet::new(alloc),
            symbols: Vec::new(alloc),
            constant: false,
        }
    }

    // Adds a name; false where it is there already (6.7.2.3p1).
    fn add_name(&mut self, symbol: u32) -> Result<bool, NoMemory>
        ensures fresh { IfOk result (λ fresh. fresh ≡ not (contains nat_cmp self.old.names symbol)) }
        ensures rest { self.new ≡ record self.old { names = self.new.names; symbols = self.new.symbols } }
        ensures symbols { OnOk result (self.new.symbols.items ≡ self.old.symbols.items ++ symbol ∷ []) }
        ensures held { OnOk result ((k : ℕ) → contains nat_cmp self.new.names k ≡ (contains nat_cmp self.old.names k || (symbol == k))) }
    {
        self.symbols.push(symbol)?;
        Ok(self.names.insert(symbol)?)
    }

    // Adds these names; false where one is there already.
    fn add_symbols(&mut self, symbols: &[u32]) -> Result<bool, NoMemory>
        ensures rest { self.new ≡ record self.old { names = self.new.names; symbols = self.new.symbols } }
        ensures added { IfOk result (λ added. OnTrue added (AddsSymbols symbols.now self.old self.new)) }
        ensures twice { IfOk result (λ added. OnFalse added (HoldsSymbols self.old → are_apart (self.old.symbols.items ++ symbols.now) ≡ false)) }
    {
        for symbol in symbols {
            if !self.add_name(*symbol)? {
                return Ok(false);
            }
        }
        Ok(true)
    }

    fn add(&mut self, member: Member, constant: bool) -> Result<(), NoMemory>
        ensures ok { OnOk result (self.new.members ≡ self.old.members ++ member ∷ []) }
        ensures constant { OnOk result (self.new.constant ≡ (self.old.constant || constant)) }
        ensures rest { self.new ≡ record self.old { members = self.new.members; constant = self.new.constant } }
    {
        self.members.push(member)?;
        self.constant = self.constant || constant;
        Ok(())
    }
}

// Gives a structure or union its members; refused where it is complete already, or would be too large (6.7.2.3p1; own).
fn completed(tags: &mut Tags, number: u32, members: Items<Member>) -> Result<(), Reason>
    ensures value { is_ok result ≡ may_complete tags.old number members }
    ensures done { OnOk result (tags.new ≡ layout.completed tags.old number members) }
    ensures unchanged { OnErr result (tags.new ≡ tags.old) }
{
    tags.law_extents();
    if tags.is_complete(number) {
        return Err(Reason::DefinedTwice);
    }
    if number as usize >= tags.len() {
        return Err(Reason::DefinedTwice);
    }
    if tags.complete(number, members) {
        Ok(())
    } else {
        Err(Reason::TypeTooLarge)
    }
}

// Notes what else is known of a structure or union.
fn note_row(state: &mut State, number: u32, constant: bool, symbols: Vec<u32>)
    ensures row { number < length state.old.tag_rows.items → symbols_in state.new number ≡ symbols.items }
    ensures constant { number < length state.old.tag_rows.items → noted.has_constant state.new number ≡ constant }
    ensures others { (k : ℕ) → k ≢ number → slice_get state.new.tag_rows.items k ≡ slice_get state.old.tag_rows.items k }
    ensures count { length state.new.tag_rows.items ≡ length state.old.tag_rows.items }
    ensures rest { state.new ≡ record state.old { tag_rows = state.new.tag_rows } }
{
    if let Some(row) = state.tag_rows.get_mut(number as usize) {
        row.constant = constant;
        row.symbols = symbols;
    }
}

/// Ends the member list (6.7.2.1p8).
pub fn close(
    source: &Source<'_>,
    state: &mut State,
    kind: TagKind,
    number: u32,
    list: MemberList,
    at: u32,
) -> Result<Ty, TypeFault>
    ensures reads { HasNames source.now (map seen.tag_seen state.old.tags) list → (n : Naming) (env : Env) →
        Reads (λ ty. plain (type_of ty)) (spec.close_tag kind number (map member_seen list.members) (known_by n source.now state.old env)) result
        (known_by n source.now state.new env) }
    ensures symbols { OnOk result (HasNames source.now (map seen.tag_seen state.old.tags) list → HasSymbols source.now state.old →
        HasSymbols source.now state.new) }
    ensures constants { OnOk result (HasConstant (map seen.tag_seen state.old.tags) list → HasConstants state.old → HasConstants state.new) }
    ensures rest { state.new ≡ record state.old { tags = state.new.tags; tag_rows = state.new.tag_rows } }
{
    let MemberList {
        members,
        names: _,
        symbols,
        constant,
    } = list;
    match completed(&mut state.tags, number, members) {
        Ok(()) => {
            note_row(state, number, constant, symbols);
            Ok(tagged_type(kind, number))
        }
        Err(reason) => Err(source.fault(at, reason)),
    }
}

fn are_qualified(words: &Words) -> bool
    ensures { (ws : spec.Words) → IsSaid words.now ws → result ≡ spec.are_qualified ws }
{
    words.storage == Storage::None && !words.function
}

/// The specifiers of members name a type and qualifiers alone (6.7.2.1).
pub fn check_member_words(source: &Source<'_>, words: &Words, at: u32) -> Result<(), TypeFault>
    ensures { (ws : spec.Words) → IsSaid words.now ws → Finds (λ u. u) (if spec.are_qualified ws then Some tt else None) result }
{
    if are_qualified(words) {
        Ok(())
    } else {
        Err(source.fault(at, Reason::MemberSpecifiers))
    }
}

// Whether an object of this type has a const part (6.3.2.1p1).
fn has_constant(state: &State, ty: &Ty) -> bool
    ensures { result ≡ has_const (noted.has_constant state.now) (type_of ty.now) }
{
    match ty {
        Ty::Struct(tag) | Ty::Union(tag) => state.has_constant(*tag),
        Ty::Array(element, _) => element.get().constant || has_constant(state, &element.get().ty),
        _ => false,
    }
}

// Whether a member of this type is const or has a const part (6.3.2.1p1).
fn is_constant(state: &State, qual: &Qual) -> bool
    ensures { result ≡ ((qualified_of qual.now).constant || has_const (noted.has_constant state.now) (qualified_of qual.now).ty) }
{
    qual.constant || has_constant(state, &qual.ty)
}

/// Adds a member of complete object type (6.7.2.1p3).
pub fn add_member(
    source: &Source<'_>,
    state: &State,
    member: Declared,
    list: MemberList,
    at: u32,
) -> Result<MemberList, TypeFault>
    ensures ok { IfOk result (λ l. (n : Naming) (env : Env) → IsAdded (spec.named_member member.name (qualified_of member.qual)
        (known_by n source.now state.now env)) (known_by n source.now state.now env) list.members l.members) }
    ensures err { IfErr result (λ e. e ≢ fault.NoMemory → (n : Naming) (env : Env) → (at : ℕ) → member.name ≡ Some at →
        contains nat_cmp list.names (symbol_of (known_by n source.now state.now env) at) ≡ false →
        spec.named_member member.name (qualified_of member.qual) (known_by n source.now state.now env) ≡ None) }
    ensures named { IfOk result (λ l. (at : ℕ) → member.name ≡ Some at → text_at source.now at ≢ [] →
        HasNames source.now (map seen.tag_seen state.now.tags) list → HasNames source.now (map seen.tag_seen state.now.tags) l) }
    ensures constant { IfOk result (λ l. HasConstants state.now → HasConstant (map seen.tag_seen state.now.tags) list →
        HasConstant (map seen.tag_seen state.now.tags) l) }
    ensures twice { IfErr result (λ e. e ≢ fault.NoMemory → (n : Naming) (env : Env) (at : ℕ) → member.name ≡ Some at → text_at source.now at ≢ [] →
        HasNames source.now (map seen.tag_seen state.now.tags) list → spec.named_member member.name (qualified_of member.qual)
        (known_by n source.now state.now env) ≢ None → IsClash (map seen.tag_seen state.now.tags) (map member_seen list.members)
        (record { name = text_at source.now at; qual = qualified_of member.qual })) }
{
    let mut list = list;
    let Declared { name, qual } = member;
    let Some(name) = name else {
        return Err(source.fault(at, Reason::UnnamedMember));
    };
    if !is_complete_qual(state, &qual) {
        return Err(source.fault(name, Reason::MemberType));
    }
    if !list.add_name(source.symbol(name))? {
        return Err(source.fault(name, Reason::DeclaredTwice));
    }
    let constant = is_constant(state, &qual);
    let name = Bytes::from_slice(state.alloc, source.spelling(name))?;
    list.add(Member { name, qual }, constant)?;
    Ok(list)
}

fn is_unnamed(specs: &Specs) -> bool
    ensures { result ≡ spec.is_unnamed (specs.now).base }
{
    matches!(
        &specs.base,
        Base::Tagged {
            union: _,
            tag: None,
            members: Some(_),
        }
    )
}

// The number of a structure or union.
fn tag_number(ty: &Ty) -> Option<u32>
    ensures { result ≡ tag_number (type_of ty.now) }
{
    match ty {
        Ty::Struct(number) => Some(*number),
        Ty::Union(number) => Some(*number),
        _ => None,
    }
}

// .. of the type without its qualifier.
fn qualified_tag(qual: &Qual) -> Option<u32>
    ensures { result ≡ tag_number (qualified_of qual.now).ty }
{
    tag_number(&qual.ty)
}

// Adds the members of an unnamed structure or union to the names; false where one is there already.
fn add_names(state: &State, number: u32, list: &mut MemberList) -> Result<bool, NoMemory>
    ensures rest { list.new ≡ record list.old { names = list.new.names; symbols = list.new.symbols } }
    ensures added { IfOk result (λ added. OnTrue added (AddsSymbols (symbols_in state.now number) list.old list.new)) }
    ensures twice { IfOk result (λ added. OnFalse added (HoldsSymbols list.old → are_apart (list.old.symbols.items ++ symbols_in state.now number) ≡ false)) }
{
    match state.tag_rows.get(number as usize) {
        Some(row) => list.add_symbols(row.symbols.as_slice()),
        None => Ok(true),
    }
}

/// Adds an unnamed structure or union without tag as a member (6.7.2.1p13).
pub fn add_unnamed(
    source: &Source<'_>,
    state: &State,
    specs: &Specs,
    base: Qual,
    list: MemberList,
    at: u32,
) -> Result<MemberList, TypeFault>
    ensures ok { IfOk result (λ l. (n : Naming) (env : Env) → IsAdded (spec.unnamed_member (specs.now).base (qualified_of base)
        (known_by n source.now state.now env)) (known_by n source.now state.now env) list.members l.members) }
    ensures named { IfOk result (λ l. HasSymbols source.now state.now → IsWhole (map seen.tag_seen state.now.tags) (qualified_of base).ty →
        HasNames source.now (map seen.tag_seen state.now.tags) list → HasNames source.now (map seen.tag_seen state.now.tags) l) }
    ensures constant { IfOk result (λ l. HasConstants state.now → IsWhole (map seen.tag_seen state.now.tags) (qualified_of base).ty →
        HasConstant (map seen.tag_seen state.now.tags) list → HasConstant (map seen.tag_seen state.now.tags) l) }
    ensures twice { IfErr result (λ e. e ≢ fault.NoMemory → spec.is_unnamed (specs.now).base ≡ true → HasSymbols source.now state.now →
        IsWhole (map seen.tag_seen state.now.tags) (qualified_of base).ty → HasNames source.now (map seen.tag_seen state.now.tags) list →
        IsClash (map seen.tag_seen state.now.tags) (map member_seen list.members) (record { name = []; qual = qualified_of base })) }
{
    let mut list = list;
    if !is_unnamed(specs) {
        return Err(source.fault(at, Reason::UnnamedMember));
    }
    let Some(number) = qualified_tag(&base) else {
        return Err(source.fault(at, Reason::UnnamedMember));
    };
    if !add_names(state, number, &mut list)? {
        return Err(source.fault(at, Reason::UnnamedMemberTwice));
    }
    let constant = is_constant(state, &base);
    let name = Bytes::from_slice(state.alloc, &[])?;
    list.add(Member { name, qual: base }, constant)?;
    Ok(list)
}

/// The state tells which structures and unions have a const member (6.3.2.1p1).
pub fn law_constants()
    ensures { AreToldConstants }
{}

/// A unit begins with nothing noted of structures and unions (own).
pub fn law_begin()
    ensures { BeginNoted }
{}

fn enumeration_type(number: u32) -> Ty
    ensures { type_of result ≡ enumeration number }
{
    Ty::Enum(number)
}

// Whether the enumeration is complete (6.7.2.2p4).
fn is_listed(state: &State, number: u32) -> bool
    ensures { result ≡ flag_at number state.now.enumerations.items }
{
    match state.enumerations.get(number as usize) {
        Some(complete) => *complete,
        None => false,
    }
}

/// An enumeration that is named by its tag alone: one in scope that is complete (6.7.2.3p3).
pub fn enumeration(
    source: &Source<'_>,
    state: &State,
    tag: Option<u32>,
    at: u32,
) -> Result<Ty, TypeFault>
    ensures { (n : Naming) (env : Env) → Reads (λ ty. plain (type_of ty)) (spec.enumeration_reference tag (known_by n source.now state.now env)) result
        (known_by n source.now state.now env) }
{
    match tag {
        None => Err(source.fault(at, Reason::TypeSpecifiers)),
        Some(tag) => enumeration_named(source, state, tag),
    }
}

// The enumeration of this tag, which is complete.
fn enumeration_named(source: &Source<'_>, state: &State, at: u32) -> Result<Ty, TypeFault>
    ensures { (n : Naming) (env : Env) → Reads (λ ty. plain (type_of ty)) (spec.enumeration_reference (Some at) (known_by n source.now state.now env)) result
        (known_by n source.now state.now env) }
{
    match state.names.find_tag(source.symbol(at), false) {
        Some(meaning) => match meaning {
            TagMeaning::Enumerated(number) => {
                if is_listed(state, number) {
                    Ok(enumeration_type(number))
                } else {
                    Err(source.fault(at, Reason::EnumerationAlone))
                }
            }
            TagMeaning::Tagged(_, _) => Err(source.fault(at, Reason::TagKind)),
        },
        None => Err(source.fault(at, Reason::EnumerationAlone)),
    }
}

// Why a tag that stands for this can't be that of a new enumeration.
fn again(meaning: TagMeaning) -> Reason {
    match meaning {
        TagMeaning::Enumerated(_) => Reason::DefinedTwice,
        TagMeaning::Tagged(_, _) => Reason::TagKind,
    }
}

// Declares the tag of a new enumeration, where its list has one: it is new in this scope (6.7.2.3p1).
fn name_enumeration(
    source: &Source<'_>,
    state: &mut State,
    tag: Option<u32>,
    number: u32,
) -> Result<(), TypeFault>
    ensures reads { (n : Naming) (env : Env) → Reads (λ u. u) (spec.name_enumeration tag number (known_by n source.now state.old env)) result
        (known_by n source.now state.new env) }
    ensures rest { state.new ≡ record state.old { names = state.new.names } }
{
    let Some(tag) = tag else {
        return Ok(());
    };
    let symbol = source.symbol(tag);
    match state.names.find_tag(symbol, true) {
        Some(meaning) => Err(source.fault(tag, again(meaning))),
        None => {
            state
                .names
                .declare_tag(symbol, TagMeaning::Enumerated(number))?;
            Ok(())
        }
    }
}

/// Begins the list of an enumeration; the answer is its number (6.7.2.3p1).
pub fn open_enumeration(
    source: &Source<'_>,
    state: &mut State,
    tag: Option<u32>,
) -> Result<u32, TypeFault>
    ensures reads { (n : Naming) (env : Env) → Reads (λ number. number) (spec.open_enumeration tag (known_by n source.now state.old env)) result
        (known_by n source.now state.new env) }
    ensures rest { state.new ≡ record state.old { names = state.new.names; enumerations = state.new.enumerations } }
{
    let number = state.add_enumeration()?;
    match name_enumeration(source, state, tag, number) {
        Ok(()) => Ok(number),
        Err(fault) => Err(fault),
    }
}

// Notes that an enumeration is complete.
fn complete_enumeration(state: &mut State, number: u32)
    ensures items { state.new.enumerations.items ≡ flagged number state.old.enumerations.items }
    ensures rest { state.new ≡ record state.old { enumerations = state.new.enumerations } }
{
    match state.enumerations.get_mut(number as usize) {
        Some(complete) => *complete = true,
        None => {}
    }
}

/// Ends it.
pub fn close_enumeration(state: &mut State, number: u32) -> Ty
    ensures known { (n : Naming) (t : TokenText) (env : Env) →
        spec.close_enumeration number (known_by n t state.old env) ≡ Some (plain (type_of result), known_by n t state.new env) }
    ensures rest { state.new ≡ record state.old { enumerations = state.new.enumerations } }
{
    complete_enumeration(state, number);
    enumeration_type(number)
}
