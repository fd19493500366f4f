//! A cursor over tokens, with the names that are in scope.

ghost use Rattle.std.specs.Prelude.{◌≡◌, ◌≢◌, ◌+◌, ◌<◌, [], length, map, drop, IfOk, IfErr, OnOk, OnErr, All};
ghost use Rattle.c_lex.specs.declared.token.TokenKind.TheVariants as token;
ghost use Rattle.c_ast.specs.Input.{start_of, kind, next, is_typedef};
ghost use Rattle.parse_cursor.specs.Declarations.{IsWithin, said, names_typedef, declared_at, closed_at, with_prototype, left_at};
ghost use Rattle.c_spelling.specs.Spelling.{IsSpelling};
ghost use Rattle.parse_spec.specs.Operators.{tight_of};
ghost use Rattle.parse_cursor.specs.Reads.{Reads};
ghost use Rattle.parse_spec.specs.Steps as steps;
ghost use Rattle.parse_spec.specs.Steps.{turns, mark_of, word_of, with_parameters};

use crate::operators::tight;
use crate::refusal::Refusal;
use crate::scope::{Declared, Scope, declared_of};
use c_lex::{Mark, TokenKind, Tokens, Word};
use std::alloc::Global;
use std::marker::Model;

#[derive(Drop)]
pub struct Cursor<'a> {
    tokens: &'a Tokens<'a>,
    at: u32,
    /// For each token, the number of the first token with its text.
    spelled: Vec<u32>,
    scope: Scope,
    /// What the parameters declare of the function whose declarator was read last.
    prototype: Vec<Declared>,
}

impl<'a> Model for Cursor<'a> {
    ghost use Rattle.std.specs.Prelude.{map};
    ghost use Rattle.c_ast.specs.Input.{Input};
    ghost use Rattle.parse_cursor.specs.Declarations.{said, said_of};
    ghost use Rattle.parse_cursor.specs.Cursors.{IsCursor};

    ghost Value = { Input };

    ghost view = { λ c. record { tokens = c.tokens.now; at = c.at; names = map said_of c.scope.names; prototype = map said c.prototype.items } };

    ghost invariant = { λ c. IsCursor c.tokens.now c.at c.spelled.items c.scope c.prototype.items };
}

impl<'a> Cursor<'a> {
    /// At the first token, with nothing in scope.
    pub fn new(
        alloc: Global,
        tokens: &'a Tokens<'a>,
        spelled: Vec<u32>,
    ) -> Result<Cursor<'a>, Refusal>
        requires { IsSpelling tokens.now spelled.items }
        ensures ok { IfOk result (λ c. c ≡ start_of tokens.now) }
        ensures memory { IfErr result (λ e. e ≡ Refusal.NoMemory) }
    {
        Ok(Cursor {
            tokens,
            at: 0,
            spelled,
            scope: Scope::new(alloc, tokens.len())?,
            prototype: Vec::new(alloc),
        })
    }

    /// The number of the next token.
    pub fn at(&self) -> u32
        ensures { result ≡ self.now.at }
    {
        self.at
    }

    /// The kind of the next token.
    #[tactic(auto, unfolding(c_ast::specs::Input::kind))]
    pub fn peek(&self) -> Option<TokenKind>
        ensures { result ≡ kind self.now }
    {
        self.tokens.kind(self.at)
    }

    /// The number of the token after the next, or of the next one at the end.
    #[tactic(auto, unfolding(c_ast::specs::Input::next))]
    fn after(&self) -> u32
        ensures { result ≡ (next self.now).at }
    {
        if self.at < self.tokens.len() {
            self.at + 1
        } else {
            self.at
        }
    }

    /// The kind of the token after the next.
    #[tactic(auto, unfolding(c_ast::specs::Input::kind, c_ast::specs::Input::next))]
    pub fn peek_after(&self) -> Option<TokenKind>
        ensures { result ≡ kind (next self.now) }
    {
        self.tokens.kind(self.after())
    }

    /// The punctuator that comes next.
    pub fn mark(&self) -> Option<Mark>
        ensures { result ≡ mark_of (kind self.now) }
    {
        match self.peek() {
            Some(TokenKind::Punct(mark)) => Some(mark),
            _ => None,
        }
    }

    /// The keyword that comes next.
    pub fn word(&self) -> Option<Word>
        ensures { result ≡ word_of (kind self.now) }
    {
        match self.peek() {
            Some(TokenKind::Keyword(word)) => Some(word),
            _ => None,
        }
    }

    /// How tightly the next token binds what stands before it.
    pub fn tight(&self) -> u8
        ensures { result ≡ tight_of (mark_of (kind self.now)) }
    {
        match self.mark() {
            Some(mark) => tight(mark),
            None => 0,
        }
    }

    /// How many turns a loop may take that takes a token in each but the last.
    #[tactic(auto, unfolding(parse_spec::specs::Steps::left))]
    pub fn turns(&self) -> usize
        ensures { result ≡ turns self.now }
    {
        self.tokens.len().saturating_sub(self.at) as usize + 1
    }

    /// Goes past the next token.
    #[tactic(auto, unfolding(c_ast::specs::Input::next))]
    pub fn take(&mut self)
        ensures { self.new ≡ next self.old }
    {
        if self.at < self.tokens.len() {
            self.at += 1;
        }
    }

    /// Whether the punctuator comes next.
    #[tactic(auto, unfolding(parse_spec::specs::Steps::sees, parse_spec::specs::Steps::same_mark))]
    pub fn sees(&self, mark: Mark) -> bool
        ensures { result ≡ steps.sees mark self.now }
    {
        match self.mark() {
            Some(found) => found == mark,
            None => false,
        }
    }

    /// Whether the keyword comes next.
    #[tactic(auto, unfolding(parse_spec::specs::Steps::sees_word, parse_spec::specs::Steps::same_word))]
    pub fn sees_word(&self, word: Word) -> bool
        ensures { result ≡ steps.sees_word word self.now }
    {
        match self.word() {
            Some(found) => found == word,
            None => false,
        }
    }

    /// Takes the punctuator, if it comes next.
    #[tactic(auto, unfolding(parse_spec::specs::Steps::after))]
    pub fn eat(&mut self, mark: Mark) -> bool
        ensures seen { result ≡ steps.sees mark self.old }
        ensures left { self.new ≡ steps.after mark self.old }
    {
        let found = self.sees(mark);
        if found {
            self.take();
        }
        found
    }

    /// Takes the keyword, if it comes next.
    #[tactic(auto, unfolding(parse_spec::specs::Steps::after_word))]
    pub fn eat_word(&mut self, word: Word) -> bool
        ensures seen { result ≡ steps.sees_word word self.old }
        ensures left { self.new ≡ steps.after_word word self.old }
    {
        let found = self.sees_word(word);
        if found {
            self.take();
        }
        found
    }

    /// Takes the punctuator.
    #[tactic(auto, unfolding(parse_spec::specs::Steps::expect))]
    pub fn expect(&mut self, mark: Mark) -> Result<(), Refusal>
        ensures reads { Reads (steps.expect mark self.old) result self.new }
        ensures err { IfErr result (λ e. (e ≡ Refusal.Syntax self.old.at) × (self.new ≡ self.old)) }
    {
        if self.sees(mark) {
            self.take();
            Ok(())
        } else {
            Err(self.refuse())
        }
    }

    /// Takes the keyword.
    #[tactic(auto, unfolding(parse_spec::specs::Steps::expect_word))]
    pub fn expect_word(&mut self, word: Word) -> Result<(), Refusal>
        ensures reads { Reads (steps.expect_word word self.old) result self.new }
        ensures err { IfErr result (λ e. (e ≡ Refusal.Syntax self.old.at) × (self.new ≡ self.old)) }
    {
        if self.sees_word(word) {
            self.take();
            Ok(())
        } else {
            Err(self.refuse())
        }
    }

    /// Nothing goes on with the next token.
    pub fn refuse(&self) -> Refusal
        ensures { result ≡ Refusal.Syntax self.now.at }
    {
        Refusal::Syntax(self.at)
    }

    /// Nothing goes on with the token after the next.
    pub fn refuse_after(&self) -> Refusal
        ensures { result ≡ Refusal.Syntax (next self.now).at }
    {
        Refusal::Syntax(self.after())
    }

    /// Whether the next token, a name, is a typedef name.
    pub fn is_typedef(&self) -> bool
        ensures { kind self.now ≡ Some token.Name → result ≡ is_typedef self.now }
    {
        self.names_typedef(self.at)
    }

    /// Whether the token after the next, a name, is a typedef name.
    pub fn is_typedef_after(&self) -> bool
        ensures { kind (next self.now) ≡ Some token.Name → result ≡ is_typedef (next self.now) }
    {
        self.names_typedef(self.after())
    }

    fn names_typedef(&self, at: u32) -> bool
        ensures { at < length self.now.tokens.list → result ≡ names_typedef at self.now }
    {
        if (at as usize) < self.spelled.len() {
            self.scope.is_typedef(self.spelled[at as usize])
        } else {
            false
        }
    }

    /// Brings the name that the token of this number spells into scope.
    pub fn declare(&mut self, at: u32, typedef: bool) -> Result<(), Refusal>
        ensures ok { OnOk result (self.new ≡ declared_at at typedef self.old) }
        ensures err { OnErr result (self.new ≡ self.old) }
        ensures memory { IfErr result (λ e. e ≡ Refusal.NoMemory) }
    {
        if (at as usize) < self.spelled.len() {
            let name = self.spelled[at as usize];
            self.scope.declare(Declared { at, typedef }, name)
        } else {
            Ok(())
        }
    }

    /// How many declarations are in scope.
    pub fn open(&self) -> usize
        ensures { result ≡ length self.now.names }
    {
        self.scope.len()
    }

    /// Ends the scope of all but the first `count` declarations.
    pub fn close(&mut self, count: usize)
        ensures { self.new ≡ closed_at count self.old }
    {
        self.scope.truncate(count);
    }

    /// What the last prototype declares, which is then none.
    pub fn take_prototype(&mut self, alloc: Global) -> Vec<Declared>
        ensures taken { map said result.items ≡ self.old.prototype }
        ensures within { All (IsWithin self.old.tokens) result.items }
        ensures none { self.new ≡ with_prototype [] self.old }
    {
        std::mem::replace(&mut self.prototype, Vec::new(alloc))
    }

    /// What the last prototype declares is this.
    pub fn set_prototype(&mut self, names: Vec<Declared>)
        requires { All (IsWithin self.now.tokens) names.items }
        ensures { self.new ≡ with_prototype (map said names.items) self.old }
    {
        self.prototype = names;
    }

    /// The declarations behind the first `count`.
    fn declared_since(&self, alloc: Global, count: usize) -> Result<Vec<Declared>, Refusal>
        ensures since { IfOk result (λ v. map said v.items ≡ drop count self.now.names) }
        ensures within { IfOk result (λ v. All (IsWithin self.now.tokens) v.items) }
        ensures memory { IfErr result (λ e. e ≡ Refusal.NoMemory) }
    {
        let found = declared_of(alloc, self.scope.since(count))?;
        Ok(found)
    }

    /// Ends the scope of the parameters, which are all but the first `count` declarations. They are the last prototype
    /// where the function's own name stands before them, and else that is `saved`.
    pub fn leave_prototype(
        &mut self,
        alloc: Global,
        count: usize,
        own: bool,
        saved: Vec<Declared>,
    ) -> Result<(), Refusal>
        requires { All (IsWithin self.now.tokens) saved.items }
        ensures ok { OnOk result (self.new ≡ left_at count own (map said saved.items) self.old) }
        ensures memory { IfErr result (λ e. e ≡ Refusal.NoMemory) }
    {
        let kept = if own {
            self.declared_since(alloc, count)?
        } else {
            saved
        };
        self.set_prototype(kept);
        self.close(count);
        Ok(())
    }

    /// Brings what the last prototype declares into scope again.
    pub fn open_prototype(&mut self) -> Result<(), Refusal>
        ensures ok { OnOk result (self.new ≡ with_parameters self.old) }
        ensures memory { IfErr result (λ e. e ≡ Refusal.NoMemory) }
    {
        for k in 0..self.prototype.len() {
            let declared = self.prototype[k];
            self.declare(declared.at, declared.typedef)?;
        }
        Ok(())
    }
}
