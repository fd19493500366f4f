// A program laid out.
ghost use Rattle.std.specs.List.{All};
ghost use Rattle.run_layout.specs.LaidOut.{IsLaidOut};
ghost use Rattle.run_layout.specs.Named.{IsListedOf, IsExpressionOf};

use crate::steps::{Expression, FunctionCode, Listed};
use crate::tables::Tables;

/// A program laid out. Each event that is listed of a full expression is one of its nodes, and has the act of that node. What is named by a number
/// is there.
#[derive(Drop)]
pub struct Code<'p> {
    pub expressions: Vec<Expression<'p>>,
    pub listing: Vec<Listed<'p>>,
    pub tables: Tables<'p>,
    pub functions: Vec<Option<FunctionCode>>,
    pub ghost laid_out: { ∥ All (IsLaidOut tables listing.items) expressions.items ∥₁ },
    pub ghost named: { All (IsListedOf tables) listing.items },
    pub ghost within: { All (IsExpressionOf tables listing.items) expressions.items },
}
