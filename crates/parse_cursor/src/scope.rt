//! Which names are typedef names (6.2.1, 6.2.3).

ghost use Rattle.std.specs.Prelude.{◌≡◌, ◌-◌, [], length, map, drop, IfOk, IfErr, OnOk, OnErr};
ghost use Rattle.parse_cursor.specs.Declarations as spec;

use crate::refusal::Refusal;
use std::alloc::{AllocError, Global};
use std::marker::Model;
use ub_base::NoMemory;

/// A declaration of an ordinary identifier.
#[derive(Clone, Copy)]
pub struct Declared {
    /// The number of the token that is the declared name.
    pub at: u32,
    pub typedef: bool,
}

/// A declaration as it stands in scope.
#[derive(Clone, Copy)]
pub struct Named {
    pub declared: Declared,
    /// The number of the first token that spells the name.
    pub name: u32,
    /// Whether the name was a typedef name before.
    pub hidden: bool,
}

/// The declarations that are in scope, and for each name what the newest of them says.
#[derive(Drop)]
pub struct Scope {
    names: Vec<Named>,
    typedefs: Vec<bool>,
}

impl Model for Scope {
    ghost use Rattle.std.specs.Prelude.{length};
    ghost use Rattle.parse_cursor.specs.Declarations.{InScope, AreKnown};

    ghost Value = { InScope };

    ghost view = { λ s. record { count = length s.typedefs.items; names = s.names.items } };

    ghost invariant = { λ s. AreKnown s.typedefs.items s.names.items };
}

/// This many names, of which none is a typedef name.
fn no_typedefs(alloc: Global, count: u32) -> Result<Vec<bool>, NoMemory>
    ensures known { IfOk result (λ v. spec.AreKnown v.items []) }
    ensures count { IfOk result (λ v. length v.items ≡ count) }
{
    let mut typedefs = Vec::new(alloc);
    for _name in 0..count {
        typedefs.push(false)?;
    }
    Ok(typedefs)
}

/// What these declare.
pub fn declared_of(alloc: Global, names: &[Named]) -> Result<Vec<Declared>, AllocError>
    ensures { IfOk result (λ v. v.items ≡ map (λ x. x.declared) names.now) }
{
    names.iter().map(|x| x.declared).collect(alloc)
}

impl Scope {
    /// No declaration yet, where names are numbers below `count`.
    pub fn new(alloc: Global, count: u32) -> Result<Scope, Refusal>
        ensures ok { IfOk result (λ s. s ≡ record { count = count; names = [] }) }
        ensures memory { IfErr result (λ e. e ≡ Refusal.NoMemory) }
    {
        Ok(Scope {
            names: Vec::new(alloc),
            typedefs: no_typedefs(alloc, count)?,
        })
    }

    /// Whether the newest declaration of the name that is in scope makes it a typedef name.
    pub fn is_typedef(&self, name: u32) -> bool
        ensures { result ≡ spec.is_typedef_in self.now name }
    {
        if (name as usize) < self.typedefs.len() {
            self.typedefs[name as usize]
        } else {
            false
        }
    }

    /// Brings a name into scope.
    pub fn declare(&mut self, declared: Declared, name: u32) -> Result<(), Refusal>
        ensures ok { OnOk result (self.new ≡ spec.with_name declared name self.old) }
        ensures err { OnErr result (self.new ≡ self.old) }
        ensures memory { IfErr result (λ e. e ≡ Refusal.NoMemory) }
    {
        let hidden = self.is_typedef(name);
        self.names.push(Named {
            declared,
            name,
            hidden,
        })?;
        if (name as usize) < self.typedefs.len() {
            self.typedefs[name as usize] = declared.typedef;
        }
        Ok(())
    }

    /// How many declarations are in scope.
    pub fn len(&self) -> usize
        ensures { result ≡ length self.now.names }
    {
        self.names.len()
    }

    /// Ends the scope of the newest declaration, and with it what that hides is visible again.
    fn leave(&mut self)
        ensures { self.new ≡ spec.first_names (length self.old.names - 1) self.old }
    {
        if let Some(last) = self.names.pop() {
            if (last.name as usize) < self.typedefs.len() {
                self.typedefs[last.name as usize] = last.hidden;
            }
        }
    }

    /// Ends the scope of all but the first `count` declarations.
    pub fn truncate(&mut self, count: usize)
        ensures { self.new ≡ spec.first_names count self.old }
    {
        while self.len() > count {
            self.leave();
        }
    }

    /// The declarations behind the first `count`.
    pub fn since(&self, count: usize) -> &[Named]
        ensures { result.now ≡ drop count self.now.names }
    {
        let from = count.min(self.names.len());
        &self.names[from..]
    }
}
