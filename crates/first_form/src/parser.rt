// The tree of a list of tokens.
ghost use Rattle.std.specs.Prelude.{◌≡◌, ◌≢◌, ◌↔◌, ◌++◌, ◌∷◌, [], ℕ, IsTrue, IfSome, IfNone, IfOk, Some, None, slice_get, length};
ghost use Rattle.first_form.specs.declared.token.TokenKind.TheVariants.{Punct};
ghost use Rattle.first_form.specs.Grammar.{kinds, sentence, op_mark, IsNumberAt, Spells, HasOnly};
ghost use Rattle.first_form.specs.declared.tree.Operator.{Operator};
ghost use Rattle.first_form.specs.declared.tree.ReturnUnit.{ReturnUnit};

use crate::fault::FormFault;
use crate::spell::constant;
use crate::token::{Mark, Token, TokenKind, Tokens, Word};
use crate::tree::{Operator, ReturnUnit};

fn op_of(kind: TokenKind) -> Option<Operator>
    ensures found { IfSome result (λ op. kind ≡ Punct (op_mark op)) }
    ensures none { IfNone result ((op : Operator) → kind ≢ Punct (op_mark op)) }
{
    match kind {
        TokenKind::Punct(Mark::Plus) => Some(Operator::Add),
        TokenKind::Punct(Mark::Minus) => Some(Operator::Sub),
        TokenKind::Punct(Mark::Star) => Some(Operator::Mul),
        TokenKind::Punct(Mark::Slash) => Some(Operator::Div),
        TokenKind::Punct(Mark::Percent) => Some(Operator::Rem),
        _ => None,
    }
}

fn mark_of(op: Operator) -> Mark
    ensures { result ≡ op_mark op }
{
    match op {
        Operator::Add => Mark::Plus,
        Operator::Sub => Mark::Minus,
        Operator::Mul => Mark::Star,
        Operator::Div => Mark::Slash,
        Operator::Rem => Mark::Percent,
    }
}

// Whether the tokens have just these kinds.
fn have_kinds(tokens: &[Token], wanted: &[TokenKind]) -> bool
    ensures { IsTrue result ↔ (kinds tokens.now ≡ wanted.now) }
{
    let Some((token, tokens)) = tokens.split_first() else {
        return wanted.is_empty();
    };
    let Some((kind, wanted)) = wanted.split_first() else {
        return false;
    };
    token.kind == *kind && have_kinds(tokens, wanted)
}

fn is_one(tokens: &[Token]) -> bool
    ensures { IsTrue result ↔ (kinds tokens.now ≡ sentence None) }
{
    have_kinds(
        tokens,
        &[
            TokenKind::Keyword(Word::Int),
            TokenKind::Name,
            TokenKind::Punct(Mark::OpenParen),
            TokenKind::Keyword(Word::Void),
            TokenKind::Punct(Mark::CloseParen),
            TokenKind::Punct(Mark::OpenBrace),
            TokenKind::Keyword(Word::Return),
            TokenKind::Number,
            TokenKind::Punct(Mark::Semicolon),
            TokenKind::Punct(Mark::CloseBrace),
        ],
    )
}

fn is_two(tokens: &[Token], op: Operator) -> bool
    ensures { IsTrue result ↔ (kinds tokens.now ≡ sentence (Some op)) }
{
    have_kinds(
        tokens,
        &[
            TokenKind::Keyword(Word::Int),
            TokenKind::Name,
            TokenKind::Punct(Mark::OpenParen),
            TokenKind::Keyword(Word::Void),
            TokenKind::Punct(Mark::CloseParen),
            TokenKind::Punct(Mark::OpenBrace),
            TokenKind::Keyword(Word::Return),
            TokenKind::Number,
            TokenKind::Punct(mark_of(op)),
            TokenKind::Number,
            TokenKind::Punct(Mark::Semicolon),
            TokenKind::Punct(Mark::CloseBrace),
        ],
    )
}

// The number that the token at a place spells, and its line.
fn number_at(text: &[u8], tokens: &[Token], place: usize) -> Option<(u32, u32)>
    ensures found { IfSome result (λ r. (at : IsNumberAt text.now tokens.now place r.0) × (r.1 ≡ at.token.line)) }
    ensures none { IfNone result ((n : ℕ) → IsNumberAt text.now tokens.now place n → ⊥) }
{
    let token = tokens.get(place)?;
    let spelling = text.get(token.start as usize..token.end as usize)?;
    let number = constant(spelling)?;
    Some((number, token.line))
}

// The kind of the token at a place.
fn kind_at(tokens: &[Token], place: usize) -> Option<TokenKind>
    ensures { result ≡ slice_get (kinds tokens.now) place }
{
    Some(tokens.get(place)?.kind)
}

// The operator that makes these tokens a sentence with two constants.
fn op_between(tokens: &[Token]) -> Option<Operator>
    ensures found { IfSome result (λ op. kinds tokens.now ≡ sentence (Some op)) }
    ensures none { IfNone result ((op : Operator) → kinds tokens.now ≢ sentence (Some op)) }
{
    let op = op_of(kind_at(tokens, 8)?)?;
    if is_two(tokens, op) { Some(op) } else { None }
}

/// The unit whose sentence the tokens are.
pub fn parse(tokens: &Tokens<'_>) -> Result<ReturnUnit, FormFault>
    ensures found { IfOk result (Spells tokens.now.text.now tokens.now.list.items) }
    // There is no other, and it is refused only where there is none.
    ensures only { (unit : ReturnUnit) → Spells tokens.now.text.now tokens.now.list.items unit → HasOnly unit result }
{
    let text = tokens.text;
    let list = tokens.list.as_slice();
    if is_one(list) {
        let Some((left, line)) = number_at(text, list, 7) else {
            return Err(FormFault::NotFirstForm);
        };
        return Ok(ReturnUnit {
            line,
            left,
            rest: None,
        });
    }
    let Some(op) = op_between(list) else {
        return Err(FormFault::NotFirstForm);
    };
    let Some((left, line)) = number_at(text, list, 7) else {
        return Err(FormFault::NotFirstForm);
    };
    let Some((right, _)) = number_at(text, list, 9) else {
        return Err(FormFault::NotFirstForm);
    };
    Ok(ReturnUnit {
        line,
        left,
        rest: Some((op, right)),
    })
}
