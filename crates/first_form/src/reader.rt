// From bytes to a unit.
ghost use Rattle.std.specs.Prelude.{◌≡◌, ◌≤◌, ◌^◌, ℕ, List, length, IfOk, IfSome};
ghost use Rattle.first_form.specs.Form.{IsFirstForm};
ghost use Rattle.first_form.specs.Grammar.{HasOnly};
ghost use Rattle.first_form.specs.declared.tree.ReturnUnit.{ReturnUnit};

use crate::fault::FormFault;
use crate::lexer::lex;
use crate::parser::parse;
use crate::tree::ReturnUnit;
use std::alloc::Global;

/// The unit that a text of at most 2^20 bytes is.
pub fn read_unit(alloc: Global, text: &[u8]) -> Result<ReturnUnit, FormFault>
    requires { length text.now ≤ 2 ^ 20 }
    ensures found { IfOk result (IsFirstForm text.now) }
    // There is no other, and the text is refused only where there is none.
    ensures only { (unit : ReturnUnit) → IsFirstForm text.now unit → HasOnly unit result }
    ensures left { IfOk result (λ unit. unit.left ≤ 2147483647) }
    ensures right { IfOk result (λ unit. IfSome unit.rest (λ rest. rest.1 ≤ 2147483647)) }
{
    let tokens = lex(alloc, text)?;
    parse(&tokens)
}
