// Declarations of identifiers without linkage (6.7p3).
ghost use Rattle.std.specs.Prelude.{◌≡◌, ◌≢◌, is_some, Some, IfErr, OnErr};
ghost use Rattle.c_lex.specs.TokenText.{TokenText, line_at};
ghost use Rattle.c_types.specs.Types.{qualified_of};
ghost use Rattle.type_name_space.specs.Scopes.{visible, at_depth};
ghost use Rattle.type_reasons.specs.declared.reason.Reason.TheVariants as reason;
ghost use Rattle.typing_env.specs.Env.{Env, line_in};
ghost use Rattle.typing_env.specs.Names as names;
ghost use Rattle.typing_env.specs.Names.{meaning_in};
ghost use Rattle.type_scope.specs.Known.{Naming, known_by, meaning_seen};
ghost use Rattle.type_scope.specs.Reads.{Reads};
ghost use Rattle.type_scope.specs.declared.fault.TypeFault.TheVariants as fault;

use crate::rows::Meaning;
use crate::{Source, State, TypeFault};
use c_types::{Qual, same_qualified};
use type_reasons::Reason;

// Whether the meaning is this typedef name's.
fn is_typedef(meaning: &Meaning, qual: &Qual) -> bool
    ensures { (n : Naming) → result ≡ names.is_same_typedef (qualified_of qual.now) (Some (meaning_seen n meaning.now)) }
{
    match meaning {
        Meaning::Typedef(known) => same_qualified(known, qual),
        _ => false,
    }
}

impl State {
    /// Whether a declaration in this scope forbids one of the identifier that has no linkage, or another kind (6.7p3).
    pub fn is_taken(&self, symbol: u32) -> bool
        ensures { result ≡ is_some (meaning_in (at_depth self.now.names.depth (visible symbol self.now.names.ordinary))) }
    {
        self.names.find_here(symbol).is_some()
    }

    /// Declares an identifier without linkage in this scope (6.7p3).
    pub fn declare(
        &mut self,
        source: &Source<'_>,
        at: u32,
        meaning: Meaning,
    ) -> Result<(), TypeFault>
        ensures reads { (n : Naming) (env : Env) → Reads (λ u. u) (names.declare at (meaning_seen n meaning) (known_by n source.now self.old env)) result
            (known_by n source.now self.new env) }
        ensures rest { self.new ≡ record self.old { names = self.new.names } }
        ensures err { OnErr result (self.new ≡ self.old) }
        ensures line { IfErr result (λ e. e ≢ fault.NoMemory → e ≡ fault.NotTyped (line_in source.now.list (line_at source.now at)) reason.DeclaredTwice) }
    {
        let symbol = source.symbol(at);
        if self.is_taken(symbol) {
            return Err(source.fault(at, Reason::DeclaredTwice));
        }
        self.names.declare(symbol, meaning)?;
        Ok(())
    }

    // Whether a declaration in this scope is that of a typedef name of this type.
    fn is_same_typedef(&self, symbol: u32, qual: &Qual) -> bool
        ensures { (n : Naming) (t : TokenText) (env : Env) →
            result ≡ names.is_same_typedef (qualified_of qual.now) (names.meaning_here (known_by n t self.now env) symbol) }
    {
        match self.names.find_here(symbol) {
            Some(meaning) => is_typedef(meaning, qual),
            None => false,
        }
    }

    /// Declares a typedef name; it may denote the same type again (6.7p3).
    pub fn declare_typedef(
        &mut self,
        source: &Source<'_>,
        at: u32,
        qual: Qual,
    ) -> Result<(), TypeFault>
        ensures reads { (n : Naming) (env : Env) → Reads (λ u. u) (names.declare_typedef at (qualified_of qual) (known_by n source.now self.old env)) result
            (known_by n source.now self.new env) }
        ensures rest { self.new ≡ record self.old { names = self.new.names } }
        ensures err { OnErr result (self.new ≡ self.old) }
        ensures line { IfErr result (λ e. e ≢ fault.NoMemory → e ≡ fault.NotTyped (line_in source.now.list (line_at source.now at)) reason.DeclaredTwice) }
    {
        if self.is_same_typedef(source.symbol(at), &qual) {
            return Ok(());
        }
        self.declare(source, at, Meaning::Typedef(qual))
    }
}
