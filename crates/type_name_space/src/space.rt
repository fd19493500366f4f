// A name space: what each name means in the scopes that are open (6.2.1, 6.2.3).
ghost use Rattle.std.specs.Prelude.{◌≡◌, [], ◌∷◌, ◌++◌, map, reverse, length, slice_get, IfOk, OnOk, OnErr, MatchOption};
ghost use Rattle.std.specs.Option.{option_copied};
ghost use Rattle.type_name_space.specs.Scopes.{visible, at_depth, left, changed, put_at, ends_at, IsFront};
ghost use Rattle.type_name_space.specs.Links.{seen, declared_of, renamed};

use crate::places::{make_room, place_at, put_place};
use std::alloc::Global;
use std::marker::Model;
use ub_base::NoMemory;

/// A declaration that is in scope: its symbol, how many scopes enclose it, and what it means.
#[derive(Drop)]
pub struct Binding<M> {
    pub symbol: u32,
    pub depth: u32,
    pub meaning: M,
    // One more than the place of the binding that it hides; 0 where it hides none.
    hidden: usize,
}

/// The declarations of a name space that are in scope, which contracts see as their list, the oldest first.
#[derive(Drop)]
pub struct Space<M> {
    // One more than the place of the newest binding of each symbol; 0 where there is none.
    newest: Vec<usize>,
    bindings: Vec<Binding<M>>,
}

impl<M> Model for Space<M> {
    ghost use Rattle.std.specs.Prelude.{List, map};
    ghost use Rattle.std.specs.Coded.{coded_list};
    ghost use Rattle.type_name_space.specs.Scopes.{Declared, declared_code};
    ghost use Rattle.type_name_space.specs.Links.{declared_of, IsLinked};

    ghost Value = { List (Declared M) };

    ghost coded = { coded_list (declared_code M.code) };

    ghost view = { λ s. map declared_of s.bindings.items };

    ghost invariant = { λ s. IsLinked s.newest.items s.bindings.items };
}

fn binding_at<M>(bindings: &[Binding<M>], at: usize) -> Option<&Binding<M>>
    ensures { option_copied result ≡ slice_get bindings.now at }
{
    bindings.get(at)
}

// Gives the binding that stands there another meaning.
fn rename<M: Drop>(bindings: &mut Vec<Binding<M>>, at: usize, meaning: M)
    ensures { bindings.new.items ≡ renamed at meaning bindings.old.items }
{
    if at < bindings.len() {
        bindings[at].meaning = meaning;
    }
}

impl<M: Drop> Space<M> {
    /// The empty space, with room for so many symbols.
    pub fn new(alloc: Global, symbols: usize) -> Result<Space<M>, NoMemory>
        ensures { IfOk result (λ s. s ≡ []) }
    {
        Ok(Space {
            newest: vec![in alloc; 0usize; symbols]?,
            bindings: Vec::new(alloc),
        })
    }

    /// The innermost declaration of the symbol (6.2.1p4).
    pub fn find(&self, symbol: u32) -> Option<&Binding<M>>
        ensures { seen result ≡ visible symbol self.now }
    {
        let place = place_at(&self.newest, symbol);
        if place == 0 {
            None
        } else {
            binding_at(&self.bindings, place - 1)
        }
    }

    /// The declaration of the symbol in the scope of this depth, where that is the innermost one.
    pub fn find_at(&self, symbol: u32, depth: u32) -> Option<&Binding<M>>
        ensures { seen result ≡ at_depth depth (visible symbol self.now) }
    {
        match self.find(symbol) {
            Some(binding) if binding.depth == depth => Some(binding),
            _ => None,
        }
    }

    /// Declares the symbol in the scope of this depth.
    pub fn add(&mut self, symbol: u32, depth: u32, meaning: M) -> Result<(), NoMemory>
        ensures ok { OnOk result (self.new ≡ self.old ++ (record { symbol = symbol; depth = depth; meaning = meaning }) ∷ []) }
        ensures err { OnErr result (self.new ≡ self.old) }
    {
        make_room(&mut self.newest, symbol)?;
        let hidden = place_at(&self.newest, symbol);
        self.bindings.push(Binding {
            symbol,
            depth,
            meaning,
            hidden,
        })?;
        let place = self.bindings.len();
        put_place(&mut self.newest, symbol, place);
        Ok(())
    }

    /// Gives the innermost declaration of the symbol another meaning.
    pub fn change(&mut self, symbol: u32, meaning: M)
        ensures { self.new ≡ changed symbol meaning self.old }
    {
        let place = place_at(&self.newest, symbol);
        if place > 0 {
            rename(&mut self.bindings, place - 1, meaning);
        }
    }

    fn len(&self) -> usize
        ensures { result ≡ length self.now }
    {
        self.bindings.len()
    }

    fn is_inner(&self, depth: u32) -> bool
        ensures { result ≡ ends_at depth self.now }
    {
        match self.bindings.last() {
            Some(binding) => depth <= binding.depth,
            None => false,
        }
    }

    fn take_last(&mut self) -> Option<Binding<M>>
        ensures { MatchOption result ((self.old ≡ []) × (self.new ≡ [])) (λ b. self.old ≡ self.new ++ declared_of b ∷ []) }
    {
        let binding = self.bindings.pop()?;
        put_place(&mut self.newest, binding.symbol, binding.hidden);
        Some(binding)
    }

    // Takes the newest declaration away where it is in a scope of this depth or of a greater one.
    fn take_inner(&mut self, depth: u32) -> Option<Binding<M>>
        ensures rest { left depth self.new ≡ left depth self.old }
        ensures taken { MatchOption result ((self.new ≡ self.old) × (left depth self.old ≡ self.old)) (λ b. self.old ≡ self.new ++ declared_of b ∷ []) }
    {
        if self.is_inner(depth) {
            self.take_last()
        } else {
            None
        }
    }

    /// Ends the scopes of this depth and of greater ones.
    pub fn leave(&mut self, depth: u32)
        ensures { self.new ≡ left depth self.old }
    {
        for turn in 0..self.len() {
            if self.take_inner(depth).is_none() {
                return;
            }
        }
    }

    /// Ends the scopes of this depth and of greater ones; the answer is their declarations, the newest first.
    pub fn lift(&mut self, alloc: Global, depth: u32) -> Result<Vec<Binding<M>>, NoMemory>
        ensures ok { OnOk result (self.new ≡ left depth self.old) }
        ensures lifted { IfOk result (λ ds. self.old ≡ self.new ++ reverse (map declared_of ds.items)) }
        // Where memory runs out, some of those that end are gone, the newest, and no other.
        ensures err { OnErr result (IsFront self.new self.old × (left depth self.new ≡ left depth self.old)) }
    {
        let mut lifted = Vec::new(alloc);
        for turn in 0..self.len() {
            match self.take_inner(depth) {
                Some(binding) => lifted.push(binding)?,
                None => return Ok(lifted),
            }
        }
        Ok(lifted)
    }

    /// Declares all of these, the last one first, in the scope of this depth.
    pub fn lower(&mut self, depth: u32, lifted: Vec<Binding<M>>) -> Result<(), NoMemory>
        ensures ok { OnOk result (self.new ≡ self.old ++ map (put_at depth) (reverse (map declared_of lifted.items))) }
        // Where memory runs out, some of these are declared, in their order, and nothing else.
        ensures err { OnErr result (IsFront self.old self.new × IsFront self.new (self.old ++ map (put_at depth) (reverse (map declared_of lifted.items)))) }
    {
        let mut lifted = lifted;
        for turn in 0..lifted.len() {
            if let Some(binding) = lifted.pop() {
                let Binding {
                    symbol,
                    depth: _,
                    meaning,
                    hidden: _,
                } = binding;
                self.add(symbol, depth, meaning)?;
            }
        }
        Ok(())
    }
}
