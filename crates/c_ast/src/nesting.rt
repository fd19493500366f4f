//! How deep the rules nest, counted over the tokens alone (own).

ghost use Rattle.std.specs.Prelude.{◌≡◌, ◌+◌, ◌<◌, ◌≤◌, ◌^◌, IfOk, OnOk, length, drop, max};
ghost use Rattle.c_ast.specs.Nest as spec;

use c_lex::{Mark, TokenKind, Tokens, Word};
use std::alloc::Global;
use std::marker::Model;
use ub_base::NoMemory;

/// A count of tokens since a bracket was opened or a statement ended.
#[derive(Clone, Copy, Debug, PartialEq, Eq)]
pub struct Level {
    pub count: u32,
    /// An `if` or a `?` is among them.
    pub chooses: bool,
    /// A `do` is among them.
    pub loops: bool,
}

const FRESH: Level = Level {
    count: 0,
    chooses: false,
    loops: false,
};

/// The count of the innermost open bracket, those of the brackets round it, and what they come to.
#[derive(Drop)]
struct Nesting {
    top: Level,
    below: Vec<Level>,
    total: u32,
}

impl Model for Nesting {
    ghost use Rattle.std.specs.Prelude.{◌≡◌, reverse};
    ghost use Rattle.c_ast.specs.Nest.{Levels, total_of};

    ghost Value = { Levels };

    ghost view = { λ n. record { top = n.top; below = reverse n.below.items } };

    ghost invariant = { λ n. n.total ≡ total_of (record { top = n.top; below = reverse n.below.items }) };
}

fn more(level: Level) -> Level
    requires { level.count < 2 ^ 31 }
    ensures { result ≡ spec.more level }
{
    Level {
        count: level.count + 1,
        ..level
    }
}

fn counted(kind: TokenKind, level: Level) -> Level
    requires { level.count < 2 ^ 31 }
    ensures { result ≡ spec.counted kind level }
{
    let level = more(level);
    match kind {
        TokenKind::Keyword(Word::If) | TokenKind::Punct(Mark::Question) => Level {
            chooses: true,
            ..level
        },
        TokenKind::Keyword(Word::Do) => Level {
            loops: true,
            ..level
        },
        _ => level,
    }
}

/// Whether the statement goes on behind a `;` or a `}`.
fn goes_on(next: Option<TokenKind>, level: Level) -> bool
    ensures { result ≡ spec.goes_on next level }
{
    match next {
        Some(TokenKind::Keyword(Word::Else)) => true,
        Some(TokenKind::Keyword(Word::While)) => level.loops,
        _ => false,
    }
}

impl Nesting {
    fn new(alloc: Global) -> Nesting
        ensures { result ≡ spec.start }
    {
        Nesting {
            top: FRESH,
            below: Vec::new(alloc),
            total: 0,
        }
    }

    fn total(&self) -> u32
        ensures { result ≡ spec.total_of self.now }
    {
        self.total
    }

    fn set_top(&mut self, level: Level)
        requires room { spec.total_of self.old < 2 ^ 30 }
        requires small { level.count ≤ self.old.top.count + 1 }
        ensures { self.new ≡ spec.with_top level self.old }
    {
        self.total = self.total - self.top.count + level.count;
        self.top = level;
    }

    fn open(&mut self) -> Result<(), NoMemory>
        requires { spec.total_of self.old < 2 ^ 30 }
        ensures { OnOk result (self.new ≡ spec.opened self.old) }
    {
        self.below.push(self.top)?;
        self.top = FRESH;
        self.total += 4;
        Ok(())
    }

    fn close(&mut self)
        requires { spec.total_of self.old < 2 ^ 30 }
        ensures { self.new ≡ spec.closed self.old }
    {
        match self.below.pop() {
            Some(level) => {
                self.total = self.total - self.top.count - 4 + 1;
                self.top = more(level);
            }
            None => {
                self.total += 1;
                self.top = more(self.top);
            }
        }
    }

    fn end(&mut self, next: Option<TokenKind>)
        requires { spec.total_of self.old < 2 ^ 30 }
        ensures { self.new ≡ spec.ended next self.old }
    {
        if !goes_on(next, self.top) {
            self.set_top(FRESH);
        }
    }

    fn part(&mut self)
        requires { spec.total_of self.old < 2 ^ 30 }
        ensures { self.new ≡ spec.parted self.old }
    {
        if !self.top.chooses {
            self.set_top(FRESH);
        }
    }

    fn step(&mut self, next: Option<TokenKind>, kind: TokenKind) -> Result<(), NoMemory>
        requires { spec.total_of self.old < 2 ^ 29 }
        ensures { OnOk result (self.new ≡ spec.step next kind self.old) }
    {
        match kind {
            TokenKind::Punct(Mark::OpenParen | Mark::OpenBracket | Mark::OpenBrace) => {
                self.open()?;
            }
            TokenKind::Punct(Mark::CloseParen | Mark::CloseBracket) => self.close(),
            TokenKind::Punct(Mark::CloseBrace) => {
                self.close();
                self.end(next);
            }
            TokenKind::Punct(Mark::Semicolon) => self.end(next),
            TokenKind::Punct(Mark::Comma) => self.part(),
            TokenKind::StringLit => {}
            _ => self.set_top(counted(kind, self.top)),
        }
        Ok(())
    }
}

/// Takes the token of this number.
fn read(nesting: &mut Nesting, tokens: &Tokens<'_>, at: u32) -> Result<(), NoMemory>
    requires room { spec.total_of nesting.old < 2 ^ 29 }
    requires there { at < length tokens.now.list }
    requires few { at < 2 ^ 20 }
    ensures grows { OnOk result (spec.total_of nesting.new ≤ spec.total_of nesting.old + 4) }
    ensures same { OnOk result (spec.greatest nesting.old (drop at tokens.now.list) ≡ max (spec.total_of nesting.old)
        (spec.greatest nesting.new (drop (at + 1) tokens.now.list))) }
{
    match tokens.kind(at) {
        Some(kind) => {
            nesting.step(tokens.kind(at + 1), kind)?;
            Ok(())
        }
        None => unreachable!(),
    }
}

/// How deep the rules of Annex A nest over these tokens: the greatest value that the counts of the open brackets come to.
pub fn nest(alloc: Global, tokens: &Tokens<'_>) -> Result<u32, NoMemory>
    ensures { IfOk result (λ n. n ≡ spec.nest_of tokens.now.list) }
{
    let mut nesting = Nesting::new(alloc);
    let mut greatest = 0;
    for at in 0..tokens.len() {
        read(&mut nesting, tokens, at)?;
        greatest = greatest.max(nesting.total());
    }
    Ok(greatest)
}
