// The declarations in scope, in both name spaces (6.2.1, 6.2.3).
ghost use Rattle.std.specs.Prelude.{◌≡◌, ◌==◌, ◌+◌, IfOk, OnOk, OnErr};
ghost use Rattle.std.specs.Option.{option_copied};
ghost use Rattle.type_name_space.specs.Scopes.{visible, at_depth, changed};
ghost use Rattle.typing_env.specs.Names.{meaning_in};
ghost use Rattle.type_scope.specs.InScope.{no_scopes, with_name, with_tag, tag_in, left_scope, with_prototype, with_kept, with_parameters};

use crate::rows::{Meaning, TagMeaning};
use std::alloc::Global;
use std::marker::Model;
use type_name_space::{Binding, Space};
use ub_base::NoMemory;

/// The declarations in scope of ordinary identifiers and of tags; and those of the parameters of the function declarator of file
/// scope that was read last (6.2.1p4).
#[derive(Drop)]
pub struct Scopes {
    ordinary: Space<Meaning>,
    tags: Space<TagMeaning>,
    depth: u32,
    kept_ordinary: Vec<Binding<Meaning>>,
    kept_tags: Vec<Binding<TagMeaning>>,
}

impl Model for Scopes {
    ghost use Rattle.std.specs.Prelude.{map, reverse};
    ghost use Rattle.type_name_space.specs.Links.{declared_of};
    ghost use Rattle.std.specs.Coded.{codes};
    ghost use Rattle.type_scope.specs.contracts.rows.Meaning as meaning;
    ghost use Rattle.type_scope.specs.InScope.{InScope, AreNested};

    ghost Value = { InScope };

    ghost coded = { Prim.hlevel (codes, meaning.the_row.coded) };

    ghost view = { λ s.
        record {
          ordinary = s.ordinary;
          tags = s.tags;
          depth = s.depth;
          kept_ordinary = reverse (map declared_of s.kept_ordinary.items);
          kept_tags = reverse (map declared_of s.kept_tags.items);
        } };

    ghost invariant = { λ s. AreNested 0 s.depth s.ordinary × AreNested 0 s.depth s.tags };
}

impl Scopes {
    /// File scope, with nothing declared, and with room for so many symbols.
    pub fn new(alloc: Global, symbols: usize) -> Result<Scopes, NoMemory>
        ensures { IfOk result (λ s. s ≡ no_scopes) }
    {
        Ok(Scopes {
            ordinary: Space::new(alloc, symbols)?,
            tags: Space::new(alloc, symbols)?,
            depth: 0,
            kept_ordinary: Vec::new(alloc),
            kept_tags: Vec::new(alloc),
        })
    }

    /// Whether no scope encloses this place.
    pub fn is_file(&self) -> bool
        ensures { result ≡ (self.now.depth == 0) }
    {
        self.depth == 0
    }

    /// What the ordinary identifier stands for (6.2.1p4).
    pub fn find(&self, symbol: u32) -> Option<&Meaning>
        ensures { option_copied result ≡ meaning_in (visible symbol self.now.ordinary) }
    {
        match self.ordinary.find(symbol) {
            Some(binding) => Some(&binding.meaning),
            None => None,
        }
    }

    /// What it stands for by a declaration of the innermost scope.
    pub fn find_here(&self, symbol: u32) -> Option<&Meaning>
        ensures { option_copied result ≡ meaning_in (at_depth self.now.depth (visible symbol self.now.ordinary)) }
    {
        match self.ordinary.find_at(symbol, self.depth) {
            Some(binding) => Some(&binding.meaning),
            None => None,
        }
    }

    /// What the tag stands for; where `here` is true, by a declaration of the innermost scope.
    pub fn find_tag(&self, symbol: u32, here: bool) -> Option<TagMeaning>
        ensures { result ≡ tag_in self.now here symbol }
    {
        let binding = if here {
            self.tags.find_at(symbol, self.depth)?
        } else {
            self.tags.find(symbol)?
        };
        Some(binding.meaning)
    }

    /// Declares the ordinary identifier in the innermost scope.
    #[tactic(auto, using(crate::proofs::Nested::one_more))]
    pub fn declare(&mut self, symbol: u32, meaning: Meaning) -> Result<(), NoMemory>
        ensures ok { OnOk result (self.new ≡ with_name symbol meaning self.old) }
        ensures err { OnErr result (self.new ≡ self.old) }
    {
        self.ordinary.add(symbol, self.depth, meaning)
    }

    /// Gives its innermost declaration another meaning.
    #[tactic(auto, using(crate::proofs::Nested::change))]
    pub fn change(&mut self, symbol: u32, meaning: Meaning)
        ensures { self.new ≡ record self.old { ordinary = changed symbol meaning self.old.ordinary } }
    {
        self.ordinary.change(symbol, meaning);
    }

    /// Declares the tag in the innermost scope.
    #[tactic(auto, using(crate::proofs::Nested::one_more))]
    pub fn declare_tag(&mut self, symbol: u32, meaning: TagMeaning) -> Result<(), NoMemory>
        ensures ok { OnOk result (self.new ≡ with_tag symbol meaning self.old) }
        ensures err { OnErr result (self.new ≡ self.old) }
    {
        self.tags.add(symbol, self.depth, meaning)
    }

    /// Begins a scope; there are numbers for 2^32 - 1 of them.
    pub fn enter(&mut self) -> Result<(), NoMemory>
        ensures ok { OnOk result (self.new ≡ record self.old { depth = self.old.depth + 1 }) }
        ensures err { OnErr result (self.new ≡ self.old) }
    {
        match self.depth.checked_add(1) {
            Some(depth) => {
                self.depth = depth;
                Ok(())
            }
            None => Err(NoMemory),
        }
    }

    /// Ends the innermost scope.
    #[tactic(auto, using(crate::proofs::Nested::leaves))]
    pub fn leave(&mut self)
        ensures { self.new ≡ left_scope self.old }
    {
        self.ordinary.leave(self.depth);
        self.tags.leave(self.depth);
        self.depth = self.depth.saturating_sub(1);
    }

    /// Ends the innermost scope, that of a parameter list. Its declarations are kept for a body where `own` is true, as behind a
    /// declared name, and the list stands at file scope (6.2.1p4).
    pub fn leave_parameters(&mut self, alloc: Global, own: bool) -> Result<(), NoMemory>
        ensures { OnOk result (self.new ≡ left_scope (with_kept own self.old)) }
    {
        if own && self.depth == 1 {
            self.keep(alloc)
        } else {
            self.leave();
            Ok(())
        }
    }

    // Ends the innermost scope, whose declarations are kept.
    fn keep(&mut self, alloc: Global) -> Result<(), NoMemory>
        ensures { OnOk result (self.new ≡ left_scope (with_prototype self.old)) }
    {
        self.kept_ordinary = self.ordinary.lift(alloc, self.depth)?;
        self.kept_tags = self.tags.lift(alloc, self.depth)?;
        self.depth = self.depth.saturating_sub(1);
        Ok(())
    }

    /// Begins the scope of a body, with what is kept of its parameters.
    pub fn enter_body(&mut self, alloc: Global) -> Result<(), NoMemory>
        ensures { OnOk result (self.new ≡ with_parameters (record self.old { depth = self.old.depth + 1 })) }
    {
        self.enter()?;
        let ordinary = std::mem::replace(&mut self.kept_ordinary, Vec::new(alloc));
        let tags = std::mem::replace(&mut self.kept_tags, Vec::new(alloc));
        self.ordinary.lower(self.depth, ordinary)?;
        self.tags.lower(self.depth, tags)
    }
}
