// Code in the making.
ghost use Rattle.std.specs.Prelude.{◌≡◌};

use run_layout::{Code, Expressions, FunctionCode, FunctionDraft, Laid};
use std::alloc::Global;

#[derive(Drop)]
pub struct Draft<'p> {
    pub alloc: Global,
    pub expressions: Expressions<'p>,
    pub function: FunctionDraft,
}

// The finished code, with these functions.
pub fn finished<'p>(draft: Draft<'p>, functions: Vec<Option<FunctionCode>>) -> Code<'p>
    ensures expressions { result.expressions.items ≡ draft.entry.expressions.laid.all.items }
    ensures listing { result.listing.items ≡ draft.entry.expressions.laid.entries.items }
    ensures functions { result.functions.items ≡ functions.items }
    ensures tables { result.tables ≡ draft.entry.expressions.tables }
{
    let Draft {
        alloc: _,
        expressions,
        function: _,
    } = draft;
    code_of_expressions(expressions, functions)
}

fn code_of_expressions<'p>(
    expressions: Expressions<'p>,
    functions: Vec<Option<FunctionCode>>,
) -> Code<'p>
    ensures expressions { result.expressions.items ≡ expressions.entry.laid.all.items }
    ensures listing { result.listing.items ≡ expressions.entry.laid.entries.items }
    ensures functions { result.functions.items ≡ functions.items }
    ensures tables { result.tables ≡ expressions.entry.tables }
{
    let Expressions { tables, laid } = expressions;
    let Laid { entries, all } = laid;
    Code {
        expressions: all,
        listing: entries,
        tables,
        functions,
    }
}
